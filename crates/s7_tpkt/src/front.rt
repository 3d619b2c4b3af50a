//! What the octets at the beginning of a stream show.

ghost use Rattle.std.specs.Prelude.{◌≡◌, ◌+◌, ◌*◌};
ghost use Rattle.s7_tpkt.specs.Packets.{state_of};
ghost use Rattle.s7_tpkt.specs.Front.{wanted};

use crate::state::FedState;
use bytes::Buf;

/// The version octet of RFC 1006, section 6.
pub(crate) const VERSION: u8 = 3;

/// The number of octets before a packet's body.
pub(crate) const HEADER: usize = 4;

/// The least value of a packet's length field.
const LEAST: usize = 7;

/// The state of the octets held, with this limit for the packet's length.
pub(crate) fn state_of(limit: usize, held: &[u8]) -> FedState
    ensures { result ≡ state_of limit held.now }
{
    match held {
        [] => FedState::More,
        [version, ..] if *version != VERSION => FedState::BadVersion,
        [_, _, high, low, body @ ..] => {
            let size = length_field(*high, *low);
            if size < LEAST {
                FedState::BadLength
            } else if limit < size {
                FedState::TooLong
            } else if body.len() + HEADER < size {
                FedState::More
            } else {
                FedState::Whole
            }
        }
        _ => FedState::More,
    }
}

/// The number of octets to take next: one in the header, and the rest of the body after it.
pub(crate) fn wanted(held: &[u8]) -> usize
    ensures { result ≡ wanted held.now }
{
    match held {
        [_, _, high, low, body @ ..] => length_field(*high, *low).saturating_sub(
            body.len() + HEADER,
        ),
        _ => 1,
    }
}

/// The length field, from its two octets.
fn length_field(high: u8, low: u8) -> usize
    ensures { result ≡ 256 * high + low }
{
    let octets = [high, low];
    let mut rest = octets.as_slice();
    usize::from(rest.get_u16())
}
