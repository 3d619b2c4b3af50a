//! Halls that serve an adder: one history of the calls of many threads.
ghost use Rattle.std.specs.Prelude.{◌≡◌, ℕ, ◌+◌, ◌≤◌, ◌%◌, ◌^◌, Some, IfOk};
ghost use Rattle.s7_turn.specs.Seats.{IsOf, next};

use s7_turn::{Adder, Hall, Machine, Seat};
use std::alloc::Global;
use std::sync::Wait;
use std::test::Fail;
use std::thread::{Threads, for_each_mut, join_mut, yield_now};

/// An adder that lets other threads run in the middle of a turn, so that they call while it is taken.
#[derive(Drop)]
struct Slow {
    adder: Adder,
}

impl Machine for Slow {
    type Request = u64;

    type Reply = u64;

    ghost State = { ℕ };

    ghost opening = { λ _. 0 };

    ghost history = { λ m. m.adder.entries.items };

    ghost limit = { λ m. m.adder.limit };

    ghost state = { λ m. m.adder.sum };

    ghost after = { λ s e. (s + e.request) % 2 ^ 64 };

    ghost kept = { λ r. r };

    ghost request_ready = { λ _. Unit {0} };

    ghost reply_ready = { λ _. Unit {0} };

    ghost gives = { λ s _ _ reply. reply ≡ s };

    fn len(&self) -> u64 {
        self.adder.len()
    }

    fn step(&mut self, caller: u32, request: u64, reply: &mut u64) -> Result<u64, u64> {
        yield_now();
        self.adder.step(caller, request, reply)
    }
}

/// A hall with an adder of at most `limit` entries, and the hall's first seat.
fn opened(alloc: Global, limit: usize) -> Result<(Hall<Slow>, Seat<Slow>), Fail>
    ensures { IfOk result (λ r. IsOf r.0 r.1 × (next r.1 ≡ Some 1)) }
{
    let adder = Adder::new(alloc, limit)?;
    match Hall::new(alloc, Slow { adder }) {
        Ok(opened) => Ok(opened),
        Err((_, _slow)) => Err(Fail::from("memory")),
    }
}

/// Closes the hall, and returns its adder.
fn closed<R: Wait>(rt: &R, hall: Hall<Slow>, seat: Seat<Slow>) -> Adder
    requires { IsOf hall seat }
{
    let Slow { adder } = hall.close(rt, seat);
    adder
}

/// The number of the entry that a call makes. If the history is full, the error is the request, which is handed back,
/// and the number of entries.
fn call<R: Wait>(
    rt: &R,
    hall: &Hall<Slow>,
    seat: &mut Seat<Slow>,
    request: u64,
    reply: &mut u64,
) -> Result<u64, (u64, u64)>
    requires { IsOf hall.now seat.old }
    ensures { IsOf hall.now seat.new }
{
    match hall.act(rt, seat, request, reply) {
        Ok(done) => Ok(done.number),
        Err(full) => Err((full.request, full.len)),
    }
}

/// Whether the call makes the entry of this number and is answered with this sum. A row has the request, the number and
/// the sum.
fn is_added<R: Wait>(
    rt: &R,
    hall: &Hall<Slow>,
    seat: &mut Seat<Slow>,
    reply: &mut u64,
    row: (u64, u64, u64),
) -> bool
    requires { IsOf hall.now seat.old }
    ensures { IsOf hall.now seat.new }
{
    let (request, number, before) = row;
    match call(rt, hall, seat, request, reply) {
        Ok(told) => told == number && *reply == before,
        Err(_) => false,
    }
}

/// Whether the request is handed back with this number of entries, and the reply is still this one. A row has the
/// request, the number of entries and the reply.
fn is_full<R: Wait>(
    rt: &R,
    hall: &Hall<Slow>,
    seat: &mut Seat<Slow>,
    reply: &mut u64,
    row: (u64, u64, u64),
) -> bool
    requires { IsOf hall.now seat.old }
    ensures { IsOf hall.now seat.new }
{
    let (request, len, before) = row;
    match call(rt, hall, seat, request, reply) {
        Ok(_) => false,
        Err((back, told)) => back == request && told == len && *reply == before,
    }
}

/// Whether three calls make entries, and the request of the fourth is handed back.
fn fills<R: Wait>(rt: &R, hall: &Hall<Slow>, seat: &mut Seat<Slow>) -> bool
    requires { IsOf hall.now seat.old }
    ensures { IsOf hall.now seat.new }
{
    let mut reply = 9;
    is_added(rt, hall, seat, &mut reply, (5, 0, 0))
        && is_added(rt, hall, seat, &mut reply, (6, 1, 5))
        && is_added(rt, hall, seat, &mut reply, (7, 2, 11))
        && is_full(rt, hall, seat, &mut reply, (8, 3, 11))
}

/// The adder after these calls; `None` if one of them ended otherwise.
fn filled<R: Wait>(rt: &R, alloc: Global) -> Result<Option<Adder>, Fail> {
    let (hall, mut seat) = opened(alloc, 3)?;
    let is_so = fills(rt, &hall, &mut seat);
    let adder = closed(rt, hall, seat);
    Ok(is_so.then_some(adder))
}

/// Whether the adder has the three entries of these requests, all of caller 0.
fn has_three(adder: &Adder) -> bool {
    match adder.entries.as_slice() {
        [one, two, three] => {
            adder.sum == 18
                && (one.caller, one.request) == (0, 5)
                && (two.caller, two.request) == (0, 6)
                && (three.caller, three.request) == (0, 7)
        }
        _ => false,
    }
}

/// A hall makes entries until its adder is full.
#[test]
fn adds_until_it_is_full(rt: HostRuntime) -> Result<(), Fail> {
    match filled(&rt, rt.alloc())? {
        Some(adder) => assert!(rt; has_three(&adder)),
        None => return Err(Fail::from("a call goes otherwise")),
    }
    Ok(())
}

/// Adds 1 in each of `calls` calls.
fn add_ones<R: Wait>(rt: &R, hall: &Hall<Slow>, seat: &mut Seat<Slow>, calls: u32)
    requires { IsOf hall.now seat.old }
    ensures { IsOf hall.now seat.new }
{
    let mut reply = 0;
    for _ in 0..calls {
        let _ = call(rt, hall, seat, 1, &mut reply);
    }
}

/// The number of entries of a caller.
fn calls_of(adder: &Adder, caller: u32) -> u32 {
    let mut count = 0u32;
    for entry in adder.entries.as_slice() {
        if entry.caller == caller {
            count = count.saturating_add(1);
        }
    }
    count
}

/// Whether the adder has `entries` entries that add 1, and each caller of a range, whose end isn't one of them, has
/// `calls` of these entries.
fn has_ones(adder: &Adder, entries: u64, callers: (u32, u32), calls: u32) -> bool {
    let (first, end) = callers;
    for caller in first..end {
        if calls_of(adder, caller) != calls {
            return false;
        }
    }
    adder.entries.len() as u64 == entries && adder.sum == entries
}

/// Each of two seats makes 100 calls, in a thread of its own.
fn add_in_two<R: Threads + Wait + Sync>(
    rt: &R,
    hall: &Hall<Slow>,
    one: &mut Seat<Slow>,
    two: &mut Seat<Slow>,
)
    requires one { IsOf hall.now one.old }
    requires two { IsOf hall.now two.old }
    ensures one { IsOf hall.now one.new }
    ensures two { IsOf hall.now two.new }
{
    let mut first = ||
        requires { IsOf hall.now one.now }
        ensures { IsOf hall.entry.now one.exit.now }
    { add_ones(rt, hall, one, 100) };
    let mut second = ||
        requires { IsOf hall.now two.now }
        ensures { IsOf hall.entry.now two.exit.now }
    { add_ones(rt, hall, two, 100) };
    join_mut(rt, &mut first, &mut second);
}

/// Two threads make their calls, and their seats are joined to one: its caller, and the adder.
fn added_by_two<R: Threads + Wait + Sync>(rt: &R, alloc: Global) -> Result<(u32, Adder), Fail> {
    let (hall, mut one) = opened(alloc, 1000)?;
    let mut two = hall.split(&mut one);
    add_in_two(rt, &hall, &mut one, &mut two);
    let both = hall.meet(one, two);
    let caller = both.caller();
    Ok((caller, closed(rt, hall, both)))
}

/// The calls of two threads make one history.
#[test]
fn two_threads_make_one_history(rt: HostRuntime) -> Result<(), Fail> {
    let (caller, adder) = added_by_two(&rt, rt.alloc())?;
    assert!(rt; caller == 0);
    assert!(rt; has_ones(&adder, 200, (0, 2), 100));
    Ok(())
}

/// A seat at a hall, with the hall.
#[derive(Drop)]
struct Place<'a> {
    hall: &'a Hall<Slow>,
    seat: Seat<Slow>,
    ghost of: { IsOf hall.now seat },
}

/// This number of seats beside the first one.
fn places<'a>(
    alloc: Global,
    hall: &'a Hall<Slow>,
    seat: &mut Seat<Slow>,
    seats: u32,
) -> Result<Vec<Place<'a>>, Fail>
    requires seat { IsOf hall.now seat.old × (next seat.old ≡ Some 1) }
    requires few { seats ≤ 1000 }
    ensures { IsOf hall.now seat.new }
{
    let mut places = Vec::new(alloc);
    for _ in 0..seats {
        let seat = hall.split(seat);
        places.push(Place { hall, seat })?;
    }
    Ok(places)
}

/// Each of the seats beside the first one makes calls, in a thread of its own. A row has the number of these seats, and
/// of the calls of each.
fn add_in_many<R: Threads + Wait + Sync>(
    rt: &R,
    alloc: Global,
    hall: &Hall<Slow>,
    seat: &mut Seat<Slow>,
    row: (u32, u32),
) -> Result<(), Fail>
    requires { IsOf hall.now seat.old × (next seat.old ≡ Some 1) }
    ensures { IsOf hall.now seat.new }
{
    let (seats, calls) = row;
    let mut places = places(alloc, hall, seat, seats.min(1000))?;
    for_each_mut(
        rt,
        places.as_mut_slice(),
        1000,
        &|_, place: &mut Place<'_>| add_ones(rt, place.hall, &mut place.seat, calls),
    );
    Ok(())
}

/// An adder of at most `entries` entries, once all seats of a row have made their calls.
fn added_by<R: Threads + Wait + Sync>(
    rt: &R,
    alloc: Global,
    entries: u64,
    row: (u32, u32),
) -> Result<Adder, Fail> {
    let (hall, mut seat) = opened(alloc, entries as usize)?;
    let added = add_in_many(rt, alloc, &hall, &mut seat, row);
    let adder = closed(rt, hall, seat);
    match added {
        Ok(()) => Ok(adder),
        Err(fail) => Err(fail),
    }
}

/// Whether the seats of a row make `entries` entries in all, and each seat has as many of them as it made calls.
fn are_added<R: Threads + Wait + Sync>(
    rt: &R,
    alloc: Global,
    entries: u64,
    row: (u32, u32),
) -> Result<bool, Fail> {
    let adder = added_by(rt, alloc, entries, row)?;
    let (seats, calls) = row;
    Ok(has_ones(&adder, entries, (1, seats.saturating_add(1)), calls))
}

/// A hundred seats wait for one another, more than a hall has bells.
#[test]
fn a_hundred_seats_share_bells_and_a_door(rt: HostRuntime) -> Result<(), Fail> {
    assert!(rt; are_added(&rt, rt.alloc(), 2_000, (100, 20))?);
    Ok(())
}

/// Many threads wait for one another, and no call is lost.
#[test]
fn many_threads_wait_for_one_another(rt: HostRuntime) -> Result<(), Fail> {
    assert!(rt; are_added(&rt, rt.alloc(), 12_800, (64, 200))?);
    Ok(())
}
