//! What fits a PDU length.
ghost use Rattle.std.specs.Prelude.{◌≡◌};
ghost use Rattle.s7_split.specs.Fits.{fits};

use s7_item::{Items, answer_size, request_size};

/// The number of octets of an answer before its data items or codes.
const ANSWER_HEAD: u32 = 14;

/// Whether the request for these items and its answer, with all octets of every item, are at most as long as the
/// PDU length.
#[tactic(auto, unfolding(crate::specs::Fits::fits))]
pub(crate) fn fits(items: &Items, pdu: u16, write: bool) -> bool
    ensures { result ≡ fits pdu write items.now }
{
    let answer = if write {
        ANSWER_HEAD + items.len() as u32
    } else {
        answer_size(items)
    };
    request_size(items, write) <= u32::from(pdu) && answer <= u32::from(pdu)
}
