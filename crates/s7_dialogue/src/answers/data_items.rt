//! The data items of a read's answer.
ghost use Rattle.std.specs.Prelude.{◌≡◌, ◌+◌, ◌≤◌, IsTrue, length, option_map};
ghost use Rattle.s7_item.specs.Item.{octet_count};
ghost use Rattle.s7_header.specs.Octets.{number_at};
ghost use Rattle.s7_item.specs.DataItem.{padding_of};
ghost use Rattle.s7_dialogue.specs.Answer.{begins_read, begins_refused, item_answers};
ghost use Rattle.s7_dialogue.specs.DataItems.{first_of, first_told, answers_in};

use arrayvec::ArrayVec;
use s7_item::codes::GOOD;
use s7_item::{Item, Items, is_good, padding_of, stated_length, transport_of};

/// The number of octets before those of an item: code, transport size and length.
const HEAD: usize = 4;

/// The answer for one item of a read.
#[derive(Clone, Copy, Default)]
pub(crate) struct ItemAnswer<'a> {
    /// FF if the item was read, else the code that refuses it.
    pub(crate) code: u8,
    /// The item's octets; none if it was refused.
    pub(crate) octets: &'a [u8],
}

/// The answers for the items of a read, in order.
pub(crate) type ItemAnswers<'a> = ArrayVec<ItemAnswer<'a>, 20>;

/// The answer of the first data item, and the octets of the data items that follow it.
#[derive(Clone, Copy)]
pub(crate) struct First<'a> {
    /// The answer in the first data item.
    pub(crate) answer: ItemAnswer<'a>,
    /// The octets of the data items after it.
    pub(crate) rest: &'a [u8],
}

/// Reads the octets as the answers for these items; `None` exactly if they aren't.
pub(crate) fn read_item_answers<'a>(items: &Items, octets: &'a [u8]) -> Option<ItemAnswers<'a>>
    ensures { option_map (λ answers. answers_in answers.items) result ≡ item_answers items.now octets.now }
{
    let mut answers = ItemAnswers::new();
    let mut rest = octets;
    for (k, item) in items.as_slice().iter().enumerate() {
        let first = first_item(item, k + 1 == items.len(), rest)?;
        answers.push(first.answer);
        rest = first.rest;
    }
    if rest.is_empty() { Some(answers) } else { None }
}

/// Reads the data item for this item at the beginning of the octets; `last` says whether it is the last. `None`
/// exactly if the octets don't begin with such a data item.
pub(crate) fn first_item<'a>(item: &Item, last: bool, octets: &'a [u8]) -> Option<First<'a>>
    ensures { option_map first_told result ≡ first_of item.now last octets.now }
{
    if begins_read(item, last, octets) {
        let count = item.octet_count();
        let answer = ItemAnswer {
            code: GOOD,
            octets: &octets[HEAD..HEAD + count],
        };
        let rest = &octets[HEAD + count + padding_of(count, last)..];
        return Some(First { answer, rest });
    }
    if begins_refused(octets) {
        let answer = ItemAnswer {
            code: octets[0],
            octets: &[],
        };
        let rest = &octets[HEAD..];
        return Some(First { answer, rest });
    }
    None
}

/// Whether the octets begin with the data item of this item, and it was read.
fn begins_read(item: &Item, last: bool, octets: &[u8]) -> bool
    ensures begins { result ≡ begins_read item.now last octets.now }
    ensures fits { IsTrue result
        → 4 + octet_count item.now + padding_of (octet_count item.now) last ≤ length octets.now }
{
    let count = item.octet_count();
    let transport = transport_of(item.word);
    octets.len() >= HEAD + count + padding_of(count, last)
        && is_good(octets[0])
        && octets[1] == transport
        && stated_by(octets) == stated_length(transport, count)
}

/// Whether the octets begin with the data item of an item that was refused.
fn begins_refused(octets: &[u8]) -> bool
    ensures begins { result ≡ begins_refused octets.now }
    ensures fits { IsTrue result → 4 ≤ length octets.now }
{
    octets.len() >= HEAD && !is_good(octets[0]) && octets[1] == 0x00 && stated_by(octets) == 0
}

/// The length that a data item states.
fn stated_by(octets: &[u8]) -> usize
    requires { 4 ≤ length octets.now }
    ensures { result ≡ number_at octets.now 2 }
{
    usize::from(u16::from_be_bytes([octets[2], octets[3]]))
}
