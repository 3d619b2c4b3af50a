//! The writes of a request.
ghost use Rattle.std.specs.Prelude.{◌≡◌, ◌+◌, ◌≤◌, [], ◌∷◌, ◌++◌, length, All};
ghost use Rattle.s7_item.specs.Codes.{write_function};
ghost use Rattle.s7_area.specs.Guards.{is_write_barred};
ghost use Rattle.s7_area.specs.Memory.{write_code};
ghost use Rattle.s7_plant.specs.Answers.{write_all, write_codes};
ghost use Rattle.s7_plant.specs.Requests.{HasAtMost};
ghost use Rattle.s7_plant.specs.Replies.{IsReadyReply, said, said_of};

use crate::reply::Reply;
use s7_area::{Areas, Guard};
use s7_item::codes::{GOOD, NOT_ALLOWED, WRITE_FUNCTION, WRONG_SIZE};
use s7_item::{DataItems, DataPlace, Item, Items};
use s7_outer::{Buffer, Octets};

/// Writes the octets of a request to its items, and puts the answer with their codes into the reply.
pub(crate) fn say_writes(
    areas: &mut Areas,
    right: bool,
    items: &Items,
    places: &DataItems,
    octets: &Octets,
    reply: &mut Reply,
)
    requires places { length places.now ≡ length items.now }
    requires inside { All (λ place. place.from + place.len ≤ length octets.now) places.now }
    requires empty { said_of reply.old ≡ said 0 [] [] }
    requires reply { IsReadyReply reply.old }
    ensures areas { areas.new ≡ write_all areas.old right items.now places.now octets.now }
    ensures said { said_of reply.new ≡ said 0 (write_function ∷ length items.now ∷ [])
        (write_codes areas.old right items.now places.now octets.now) }
    ensures fits { HasAtMost (14 + length items.now) (said_of reply.new) }
    ensures ready { IsReadyReply reply.new }
{
    let items = items.as_slice();
    let places = places.as_slice();
    reply.params.add(&[WRITE_FUNCTION, items.len() as u8]);
    write_items(
        areas,
        right,
        items,
        places,
        octets.as_slice(),
        &mut reply.body,
    );
}

/// Puts the answer into the reply that the writes would have, and writes nothing.
pub(crate) fn say_codes(
    areas: &Areas,
    right: bool,
    items: &Items,
    places: &DataItems,
    octets: &Octets,
    reply: &mut Reply,
)
    requires places { length places.now ≡ length items.now }
    requires inside { All (λ place. place.from + place.len ≤ length octets.now) places.now }
    requires empty { said_of reply.old ≡ said 0 [] [] }
    requires reply { IsReadyReply reply.old }
    ensures said { said_of reply.new ≡ said 0 (write_function ∷ length items.now ∷ [])
        (write_codes areas.now right items.now places.now octets.now) }
    ensures fits { HasAtMost (14 + length items.now) (said_of reply.new) }
    ensures ready { IsReadyReply reply.new }
{
    let items = items.as_slice();
    let places = places.as_slice();
    reply.params.add(&[WRITE_FUNCTION, items.len() as u8]);
    judge_items(
        areas,
        right,
        items,
        places,
        octets.as_slice(),
        &mut reply.body,
    );
}

/// Writes the items from left to right, each on what the one before left, and adds the code of each.
fn write_items(
    areas: &mut Areas,
    right: bool,
    items: &[Item],
    places: &[DataPlace],
    octets: &[u8],
    codes: &mut Buffer,
)
    requires places { length places.now ≡ length items.now }
    requires inside { All (λ place. place.from + place.len ≤ length octets.now) places.now }
    requires room { length codes.old.octets + length items.now ≤ codes.old.room }
    ensures areas { areas.new ≡ write_all areas.old right items.now places.now octets.now }
    ensures codes { codes.new.octets
        ≡ codes.old.octets ++ write_codes areas.old right items.now places.now octets.now }
    ensures many { length codes.new.octets ≡ length codes.old.octets + length items.now }
    ensures room { codes.new.room ≡ codes.old.room }
{
    for k in 0..items.len() {
        let place = places[k];
        let written = &octets[place.from..place.from + place.len];
        let code = areas.write(right, &items[k], written);
        codes.add(&[code]);
    }
}

/// Adds the codes that the writes would have. No write changes the code of another one.
#[tactic(auto, using(std::proofs::lemmas::Grind::common_steps, crate::proofs::CodeLemmas::codes_in_turn))]
fn judge_items(
    areas: &Areas,
    right: bool,
    items: &[Item],
    places: &[DataPlace],
    octets: &[u8],
    codes: &mut Buffer,
)
    requires places { length places.now ≡ length items.now }
    requires inside { All (λ place. place.from + place.len ≤ length octets.now) places.now }
    requires room { length codes.old.octets + length items.now ≤ codes.old.room }
    ensures codes { codes.new.octets
        ≡ codes.old.octets ++ write_codes areas.now right items.now places.now octets.now }
    ensures many { length codes.new.octets ≡ length codes.old.octets + length items.now }
    ensures room { codes.new.room ≡ codes.old.room }
{
    for k in 0..items.len() {
        let place = places[k];
        let code = judge_item(
            areas,
            right,
            &items[k],
            &octets[place.from..place.from + place.len],
        );
        codes.add(&[code]);
    }
}

/// The code that a write of these octets would have.
#[tactic(auto, unfolding(s7_area::specs::Memory::write_code, s7_area::specs::Memory::read_code))]
fn judge_item(areas: &Areas, right: bool, item: &Item, octets: &[u8]) -> u8
    ensures { result ≡ write_code areas.now right item.now octets.now }
{
    if is_write_barred(areas.guard(), right) {
        return NOT_ALLOWED;
    }
    match areas.look_up(true, item) {
        Ok(held) if held.len() == octets.len() => GOOD,
        Ok(_) => WRONG_SIZE,
        Err(code) => code,
    }
}

/// Whether a guard requires a right for writes and the link has none.
fn is_write_barred(guard: Option<Guard>, right: bool) -> bool
    ensures { result ≡ is_write_barred guard right }
{
    match guard {
        None => false,
        Some(guard) => !right && (guard.level == 2 || guard.level == 3),
    }
}
