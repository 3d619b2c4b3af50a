//! Accepting the links of a door, each of which is served in a thread of a scope.
ghost use Rattle.std.specs.Prelude.{◌≡◌, ◌≤◌, ◌<◌, ◌==◌, ◌&&◌, ℕ, ◌+◌, List, [], ◌∷◌, ◌++◌, length, map};
ghost use Rattle.std.specs.Prelude.{None, Some, IfOk, IfErr, IfSome, IsErrOf, vec_len, vec_capacity};
ghost use Rattle.std.specs.List.{AllByRecursion};
ghost use Rattle.s7_outer.specs.DoorShown.{DoorShown};
ghost use Rattle.s7_outer.specs.Shown.{Shown};
ghost use Rattle.s7_listener.specs.Benches.{SeatTold, IsFirst, IsNew, HasServed};
ghost use Rattle.s7_listener.specs.Given.{HasFailed, HasGiven};
ghost use Rattle.s7_listener.specs.Served.{told_of};
ghost use Rattle.s7_listener.specs.Works.{failed_by, handed, IsAccepted, IsGathered, IsGathering, IsHanded};
ghost use Rattle.s7_listener.specs.Works.{IsKept, IsOver, IsServing, IsUnderWay, HasStopped, Stops};

use crate::bench::Bench;
use crate::hosted::{Gathered, NotHosted};
use crate::served::Served;
use crate::work::{Stop, Work};
use s7_outer::{Arrival, Clock, Door, Link};
use std::alloc::Global;
use std::snapshot::Snapshot;
use std::sync::Wait;
use std::thread::{Promise, PromisedHandle, Scope, Threads, scope, scope_env};
use std::time;

/// The promise about the value that a serving thread returns: the link was served in the name of the seat.
#[derive(Drop)]
pub(crate) struct WorkOf<'s, B: Bench, L: Link + Clock> {
    pub bench: &'s B,
    pub seat: Snapshot<B::Seat>,
    pub line: Snapshot<L>,
}

impl<'s, B: Bench, L: Link + Clock> Promise<(B::Seat, Served<L>)> for WorkOf<'s, B, L> {
    ghost kept_by = { λ p r. B.is_of p.bench.now r.0
        × HasServed (B.terms p.bench.now) (B.told p.seat.value) (B.told r.0)
        (L.shows p.line.value) (told_of L.shows r.1) };
}

/// The handle of a thread that serves a link.
type Worker<'s, B, L> = PromisedHandle<(<B as Bench>::Seat, Served<L>), WorkOf<'s, B, L>>;

/// The links that were accepted so far, in the order of their numbers.
type Works<'s, B, L> = Vec<Work<Worker<'s, B, L>, L>>;

/// Starts a thread that serves a link. If no thread can be created, serves the link here.
fn start<
    's,
    E,
    B: Bench + Sync,
    R: Threads + Wait + time::Clock + Sync,
    L: Link + Clock + Send + Drop + 's,
>(
    rt: &'s R,
    alloc: Global,
    scope: &Scope<'s, E>,
    bench: &'s B,
    seat: B::Seat,
    line: L,
) -> Result<Worker<'s, B, L>, (B::Seat, Served<L>)>
where
    B::Seat: Send + Drop + 's,
    requires hall { B.is_of bench.now seat }
    requires new { IsNew (B.terms bench.now) (B.told seat) }
    ensures started { IfOk result (λ h. (h.promise.bench.now ≡ bench.entry.now)
        × (B.told h.promise.seat.value ≡ B.told seat) × (L.shows h.promise.line.value ≡ L.shows line)) }
    ensures served { IfErr result (λ r. B.is_of bench.entry.now r.0
        × HasServed (B.terms bench.entry.now) (B.told seat) (B.told r.0) (L.shows line) (told_of L.shows r.1)) }
{
    let promise = WorkOf {
        bench,
        seat: Snapshot::of(&seat),
        line: Snapshot::of(&line),
    };
    let job = move || -> (B::Seat, Served<L>)
        requires { B.is_of bench.now seat × IsNew (B.terms bench.now) (B.told seat) }
        ensures { B.is_of bench.entry.now result.0
            × HasServed (B.terms bench.entry.now) (B.told seat) (B.told result.0)
            (L.shows line) (told_of L.shows result.1) }
    { bench.serve(rt, alloc, seat, line) };
    match scope.spawn_with(promise, job) {
        Ok(worker) => Ok(worker),
        Err(refused) => Err((refused.value)()),
    }
}

/// Serves a link that came, in the name of a new seat.
fn admit<
    's,
    E,
    B: Bench + Sync,
    R: Threads + Wait + time::Clock + Sync,
    L: Link + Clock + Send + Drop + 's,
>(
    rt: &'s R,
    alloc: Global,
    scope: &Scope<'s, E>,
    bench: &'s B,
    seat: B::Seat,
    own: B::Seat,
    line: L,
    works: &mut Works<'s, B, L>,
) -> B::Seat
where
    B::Seat: Send + Drop + 's,
    requires hall { B.is_of bench.now seat }
    requires own { B.is_of bench.now own }
    requires new { IsNew (B.terms bench.now) (B.told own) }
    requires none { (B.told own).next ≡ None }
    requires room { vec_len works.old < vec_capacity works.old }
    ensures hall { B.is_of bench.entry.now result }
    ensures next { (B.told result).next ≡ (B.told seat).next }
    ensures goes_on { (pipes : List Shown) → IsHanded (B.terms bench.entry.now) (length pipes + 1) (L.shows line)
        (handed (B.told own) (L.shows line))
        → IsUnderWay (λ h. h.promise.bench.now ≡ bench.entry.now)
        (λ h. handed (B.told h.promise.seat.value) (L.shows h.promise.line.value))
        L.shows (B.terms bench.entry.now) (B.told seat) pipes works.old.items
        → IsUnderWay (λ h. h.promise.bench.now ≡ bench.entry.now)
        (λ h. handed (B.told h.promise.seat.value) (L.shows h.promise.line.value))
        L.shows (B.terms bench.entry.now) (B.told result) (pipes ++ L.shows line ∷ []) works.new.items }
    ensures kept { AllByRecursion (IsKept (λ h. h.promise.bench.now ≡ bench.entry.now)) works.old.items
        → AllByRecursion (IsKept (λ h. h.promise.bench.now ≡ bench.entry.now)) works.new.items }
    ensures len { vec_len works.new ≡ vec_len works.old + 1 }
    ensures capacity { vec_capacity works.new ≡ vec_capacity works.old }
{
    match start(rt, alloc, scope, bench, own, line) {
        Ok(worker) => {
            works.push_reserved(Work::Running(worker));
            seat
        }
        Err((home, served)) => {
            works.push_reserved(Work::Done(served));
            bench.meet(seat, home)
        }
    }
}

/// Accepts the next link and has it served, or returns why there is none.
fn arrive<
    's,
    E,
    B: Bench + Sync,
    R: Threads + Wait + time::Clock + Sync,
    L: Link + Clock + Send + Drop + 's,
    D: Door<L>,
>(
    rt: &'s R,
    alloc: Global,
    scope: &Scope<'s, E>,
    bench: &'s B,
    mut seat: B::Seat,
    door: &mut D,
    works: &mut Works<'s, B, L>,
) -> (B::Seat, Option<Stop>)
where
    B::Seat: Send + Drop + 's,
    requires hall { B.is_of bench.now seat }
    requires number { (n : ℕ) × ((B.told seat).next ≡ Some n) × (n < 1048576) }
    requires room { vec_len works.old < vec_capacity works.old }
    ensures hall { B.is_of bench.entry.now result.0 }
    ensures next { result.1 ≡ None → (n : ℕ) → (B.told seat).next ≡ Some n → (B.told result.0).next ≡ Some (n + 1) }
    ensures goes_on { result.1 ≡ None → (port : ℕ) (before : DoorShown L) (lines : List L)
        → IsServing (λ h. h.promise.bench.now ≡ bench.entry.now)
        (λ h. handed (B.told h.promise.seat.value) (L.shows h.promise.line.value))
        L.shows (B.terms bench.entry.now) port before (D.shows door.old) (B.told seat) lines works.old.items
        → (line : L) × IsServing (λ h. h.promise.bench.now ≡ bench.entry.now)
        (λ h. handed (B.told h.promise.seat.value) (L.shows h.promise.line.value))
        L.shows (B.terms bench.entry.now) port before (D.shows door.new)
        (B.told result.0) (lines ++ line ∷ []) works.new.items }
    ensures stops { IfSome result.1 (λ why. (port : ℕ) (before : DoorShown L) (lines : List L)
        → IsServing (λ h. h.promise.bench.now ≡ bench.entry.now)
        (λ h. handed (B.told h.promise.seat.value) (L.shows h.promise.line.value))
        L.shows (B.terms bench.entry.now) port before (D.shows door.old) (B.told seat) lines works.old.items
        → HasStopped (λ h. h.promise.bench.now ≡ bench.entry.now)
        (λ h. handed (B.told h.promise.seat.value) (L.shows h.promise.line.value))
        L.shows (B.terms bench.entry.now) port before (D.shows door.new) (B.told result.0) lines works.new.items
        × Stops port before (D.shows door.new) why) }
    ensures kept { AllByRecursion (IsKept (λ h. h.promise.bench.now ≡ bench.entry.now)) works.old.items
        → AllByRecursion (IsKept (λ h. h.promise.bench.now ≡ bench.entry.now)) works.new.items }
    ensures len { result.1 ≡ None → vec_len works.new ≡ vec_len works.old + 1 }
    ensures few { vec_len works.new ≤ vec_len works.old + 1 }
    ensures capacity { vec_capacity works.new ≡ vec_capacity works.old }
{
    let own = bench.split(&mut seat);
    match door.next() {
        Arrival::Link(line) => (admit(rt, alloc, scope, bench, seat, own, line, works), None),
        Arrival::End => (bench.meet(seat, own), Some(Stop::End)),
        Arrival::Failed => (bench.meet(seat, own), Some(Stop::Failed)),
    }
}

/// Accepts the links of a door and has them served, at most `most` of them.
fn accept<
    's,
    E,
    B: Bench + Sync,
    R: Threads + Wait + time::Clock + Sync,
    L: Link + Clock + Send + Drop + 's,
    D: Door<L>,
>(
    rt: &'s R,
    alloc: Global,
    scope: &Scope<'s, E>,
    bench: &'s B,
    seat: B::Seat,
    door: &mut D,
    most: usize,
    works: &mut Works<'s, B, L>,
) -> (B::Seat, Option<Stop>)
where
    B::Seat: Send + Drop + 's,
    requires hall { B.is_of bench.now seat }
    requires few { most < 1048575 }
    requires next { (B.told seat).next ≡ Some 1 }
    requires room { most ≤ vec_capacity works.old }
    requires none { vec_len works.old ≡ 0 }
    ensures hall { B.is_of bench.entry.now result.0 }
    ensures accepted { (port : ℕ) (before : DoorShown L) → IsServing (λ h. h.promise.bench.now ≡ bench.entry.now)
        (λ h. handed (B.told h.promise.seat.value) (L.shows h.promise.line.value))
        L.shows (B.terms bench.entry.now) port before (D.shows door.old) (B.told seat) [] works.old.items
        → (lines : List L) × IsAccepted (λ h. h.promise.bench.now ≡ bench.entry.now)
        (λ h. handed (B.told h.promise.seat.value) (L.shows h.promise.line.value))
        L.shows (B.terms bench.entry.now) port most before (D.shows door.new)
        (B.told result.0) lines works.new.items result.1 }
    ensures kept { AllByRecursion (IsKept (λ h. h.promise.bench.now ≡ bench.entry.now)) works.new.items }
    ensures len { vec_len works.new ≤ most }
{
    let mut seat = seat;
    for _ in 0..most {
        let (all, stop) = arrive(rt, alloc, scope, bench, seat, door, works);
        seat = all;
        if stop.is_some() {
            return (seat, stop);
        }
    }
    (seat, None)
}

/// Takes the result of one link; waits for its thread if that is still serving it.
fn take_in<'s, B: Bench + Sync, R: Threads + Wait, L: Link + Clock + Drop>(
    rt: &R,
    bench: &'s B,
    seat: B::Seat,
    work: Work<Worker<'s, B, L>, L>,
    links: &mut Vec<Served<L>>,
) -> B::Seat
where
    B::Seat: Drop,
    requires hall { B.is_of bench.now seat }
    requires keeps { IsKept (λ h. h.promise.bench.now ≡ bench.now) work }
    requires room { vec_len links.old < vec_capacity links.old }
    ensures hall { B.is_of bench.entry.now result }
    ensures takes { (start : SeatTold _) (pipes : List Shown) (works : List _)
        → IsGathering (λ h. h.promise.bench.now ≡ bench.entry.now)
        (λ h. handed (B.told h.promise.seat.value) (L.shows h.promise.line.value))
        L.shows (B.terms bench.entry.now) start (B.told seat) pipes (work.entry ∷ works)
        (map (told_of L.shows) links.old.items)
        → IsGathering (λ h. h.promise.bench.now ≡ bench.entry.now)
        (λ h. handed (B.told h.promise.seat.value) (L.shows h.promise.line.value))
        L.shows (B.terms bench.entry.now) start (B.told result) pipes works (map (told_of L.shows) links.new.items) }
    ensures len { vec_len links.new ≡ vec_len links.old + 1 }
    ensures capacity { vec_capacity links.new ≡ vec_capacity links.old }
{
    match work {
        Work::Running(worker) => {
            let (back, served) = worker.join(rt);
            links.push_reserved(served);
            bench.meet(seat, back)
        }
        Work::Done(served) => {
            links.push_reserved(served);
            seat
        }
    }
}

/// Waits until all links were served, and takes their results in the order of their numbers.
fn gather<'s, B: Bench + Sync, R: Threads + Wait, L: Link + Clock + Drop>(
    rt: &R,
    bench: &'s B,
    seat: B::Seat,
    works: Works<'s, B, L>,
    links: Vec<Served<L>>,
) -> (B::Seat, Vec<Served<L>>)
where
    B::Seat: Drop,
    requires hall { B.is_of bench.now seat }
    requires keeps { AllByRecursion (IsKept (λ h. h.promise.bench.now ≡ bench.now)) works.items }
    requires room { vec_len works ≤ vec_capacity links }
    requires none { vec_len links ≡ 0 }
    ensures hall { B.is_of bench.entry.now result.0 }
    ensures gathered { (pipes : List Shown) → IsUnderWay (λ h. h.promise.bench.now ≡ bench.entry.now)
        (λ h. handed (B.told h.promise.seat.value) (L.shows h.promise.line.value))
        L.shows (B.terms bench.entry.now) (B.told seat) pipes works.entry.items
        → IsGathered (B.terms bench.entry.now) (B.told seat) (B.told result.0) pipes
        (map (told_of L.shows) result.1.items) }
{
    let mut all = seat;
    let mut links = links;
    for work in works {
        all = take_in(rt, bench, all, work, &mut links);
    }
    (all, links)
}

/// Whether the door failed.
fn has_failed(stop: Option<Stop>) -> bool
    ensures { result ≡ failed_by stop }
{
    match stop {
        Some(Stop::Failed) => true,
        Some(Stop::End) | None => false,
    }
}

/// Whether the door failed before a link came.
fn is_without_link(door_failed: bool, count: usize) -> bool
    ensures { result ≡ (door_failed && (count == 0)) }
{
    door_failed && count == 0
}

/// Allocates the list of links, asks the door to listen, and has its links served.
fn host_in<
    's,
    E,
    B: Bench + Sync,
    R: Threads + Wait + time::Clock + Sync,
    L: Link + Clock + Send + Drop + 's,
    D: Door<L> + Drop,
>(
    rt: &'s R,
    alloc: Global,
    scope: &Scope<'s, E>,
    bench: &'s B,
    seat: B::Seat,
    door: D,
    port: u16,
    most: u16,
    links: Vec<Served<L>>,
) -> (Result<Gathered<B::Seat, L>, NotHosted>, D)
where
    B::Seat: Send + Drop + 's,
    requires hall { B.is_of bench.now seat }
    requires first { IsFirst (B.terms bench.now) (B.told seat) }
    requires room { most ≤ vec_capacity links }
    requires none { vec_len links ≡ 0 }
    ensures hosted { IfOk result.0 (λ g. B.is_of bench.entry.now g.seat
        × (lines : List L) × HasGiven port most (D.shows door) (D.shows result.1) lines g.door_failed
        × IsOver (B.terms bench.entry.now) (B.told g.seat) (map L.shows lines) (map (told_of L.shows) g.links.items)) }
    ensures failed { IsErrOf result.0 NotHosted.Door → HasFailed port (D.shows door) (D.shows result.1) }
    ensures memory { IsErrOf result.0 NotHosted.Memory → D.shows result.1 ≡ D.shows door }
{
    let mut door = door;
    let Ok(mut works) = Vec::with_capacity(alloc, usize::from(most)) else {
        return (Err(NotHosted::Memory), door);
    };
    if door.listen(port).is_err() {
        return (Err(NotHosted::Door), door);
    }
    let (seat, stop) = accept(
        rt,
        alloc,
        scope,
        bench,
        seat,
        &mut door,
        usize::from(most),
        &mut works,
    );
    let door_failed = has_failed(stop);
    if is_without_link(door_failed, works.len()) {
        return (Err(NotHosted::Door), door);
    }
    let (seat, links) = gather(rt, bench, seat, works, links);
    let gathered = Gathered {
        seat,
        links,
        door_failed,
    };
    (Ok(gathered), door)
}

/// Listens on a port, and has the links that come by the door served, each in a thread of its own, or in this thread if
/// none can be created.
pub(crate) fn host<
    B: Bench + Sync,
    R: Threads + Wait + time::Clock + Sync,
    L: Link + Clock + Send + Drop,
    D: Door<L> + Drop,
>(
    rt: &R,
    alloc: Global,
    bench: &B,
    seat: B::Seat,
    door: D,
    port: u16,
    most: u16,
    links: Vec<Served<L>>,
) -> (Result<Gathered<B::Seat, L>, NotHosted>, D)
where
    B::Seat: Send + Drop,
    requires hall { B.is_of bench.now seat }
    requires first { IsFirst (B.terms bench.now) (B.told seat) }
    requires room { most ≤ vec_capacity links }
    requires none { vec_len links ≡ 0 }
    ensures hosted { IfOk result.0 (λ g. B.is_of bench.entry.now g.seat
        × (lines : List L) × HasGiven port most (D.shows door) (D.shows result.1) lines g.door_failed
        × IsOver (B.terms bench.entry.now) (B.told g.seat) (map L.shows lines) (map (told_of L.shows) g.links.items)) }
    ensures failed { IsErrOf result.0 NotHosted.Door → HasFailed port (D.shows door) (D.shows result.1) }
    ensures memory { IsErrOf result.0 NotHosted.Memory → D.shows result.1 ≡ D.shows door }
{
    scope(
        scope_env(),
        rt,
        |scope| -> (Result<Gathered<B::Seat, L>, NotHosted>, D)
            requires { B.is_of bench.now seat × IsFirst (B.terms bench.now) (B.told seat)
                × (most ≤ vec_capacity links) × (vec_len links ≡ 0) }
            ensures { IfOk result.0 (λ g. B.is_of bench.entry.now g.seat
                × (lines : List L) × HasGiven port most (D.shows door) (D.shows result.1) lines g.door_failed
                × IsOver (B.terms bench.entry.now) (B.told g.seat) (map L.shows lines)
                (map (told_of L.shows) g.links.items))
                × (IsErrOf result.0 NotHosted.Door → HasFailed port (D.shows door) (D.shows result.1))
                × (IsErrOf result.0 NotHosted.Memory → D.shows result.1 ≡ D.shows door) }
        { host_in(rt, alloc, scope, bench, seat, door, port, most, links) },
    )
}
