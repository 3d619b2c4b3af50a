//! Collecting what the data items of read answers carry.
ghost use Rattle.std.specs.Prelude.{◌≡◌, ◌+◌, ◌≤◌, ◌++◌, length, map, take, drop, slice_index};
ghost use Rattle.s7_dialogue.specs.Answer as spelled;
ghost use Rattle.s7_dialogue.specs.Checks.{octet_count_of};
ghost use Rattle.s7_dialogue.specs.DataItems.{answers_in};
ghost use Rattle.s7_dialogue.specs.GoesOn.{TellAll};
ghost use Rattle.s7_dialogue.specs.Taking.{with_codes, with_octets, without_gaps};

use crate::answers::codes_list::Codes;
use crate::answers::data_items::ItemAnswer;
use s7_item::{Item, Items, is_good};

/// Puts the return codes of the items into `codes` from index `place` on, and the octets of the items that were
/// read into `found` from offset `from` on.
pub(crate) fn place_items(
    items: &Items,
    answers: &[ItemAnswer<'_>],
    found: &mut [u8],
    from: usize,
    codes: &mut Codes,
    place: usize,
)
    requires told { TellAll items.now (answers_in answers.now) }
    requires octets { from + octet_count_of items.now ≤ length found.old }
    requires codes { place + length items.now ≤ usize.MAX }
    ensures octets { found.new ≡ with_octets from items.now (answers_in answers.now) found.old }
    ensures codes { codes.new
        ≡ with_codes place (map (λ (item : spelled.ItemAnswer). item.code) (answers_in answers.now)) codes.old }
{
    let mut at = from;
    let mut next = place;
    for (item, answer) in items.as_slice().iter().zip(answers) {
        codes.set(next, answer.code);
        found[at..at + answer.octets.len()].copy_from_slice(answer.octets);
        at += item.octet_count();
        next += 1;
    }
}

/// Puts return codes into `codes` from index `place` on.
pub(crate) fn place_codes(noted: &[u8], codes: &mut Codes, place: usize)
    requires { place + length noted.now ≤ usize.MAX }
    ensures { codes.new ≡ with_codes place noted.now codes.old }
{
    for (k, code) in noted.iter().enumerate() {
        codes.set(place + k, *code);
    }
}

/// Copies octets into `found` at offset `at`.
pub(crate) fn place_octets(octets: &[u8], found: &mut [u8], at: usize)
    requires { at + length octets.now ≤ length found.old }
    ensures octets { found.new ≡ take at found.old ++ octets.now ++ drop (at + length octets.now) found.old }
    ensures len { length found.new ≡ length found.old }
{
    found[at..at + octets.len()].copy_from_slice(octets);
}

/// Keeps the octets from offset `from` to offset `to`, or as many of them as there are, and drops the others.
pub(crate) fn keep_octets(found: &mut Vec<u8>, from: usize, to: usize)
    ensures { found.new.items ≡ drop from (take to found.old.items) }
{
    found.truncate(to);
    let len = found.len();
    let from = from.min(len);
    found.copy_within(from..len, 0);
    found.truncate(len - from);
}

/// Removes the octets of the items whose code isn't FF.
pub(crate) fn close_gaps(items: &[Item], codes: &[u8], found: &mut Vec<u8>)
    requires { octet_count_of items.now ≤ length found.old.items }
    ensures { found.new.items ≡ without_gaps items.now codes.now found.old.items }
{
    let mut from = 0;
    let mut to = 0;
    for (k, item) in items.iter().enumerate() {
        let count = item.octet_count();
        if is_good(code_at(codes, k)) {
            found.copy_within(from..from + count, to);
            to += count;
        }
        from += count;
    }
    found.truncate(to);
}

/// The code with this index; 00 if there is none.
fn code_at(codes: &[u8], place: usize) -> u8
    ensures { result ≡ slice_index codes.now place }
{
    codes.get(place).copied().unwrap_or(0)
}
