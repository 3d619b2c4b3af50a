//! What the return code and the length of a data item mean.
ghost use Rattle.std.specs.Prelude.{◌≡◌, ◌≤◌};
ghost use Rattle.s7_item.specs.DataItem.{is_good, carries, stated_length, octets_meant, padding_of};

use crate::codes::{BIT_TRANSPORT, GOOD, REQUESTED};
use crate::word::counts_bits;

/// Whether this return code is FF: the item was read or written.
pub fn is_good(code: u8) -> bool
    ensures { result ≡ is_good code }
{
    code == GOOD
}

/// Whether a data item with this return code has octets: FF in an answer, 00 in a write request. Every other code
/// refuses the item.
pub fn carries(code: u8) -> bool
    ensures { result ≡ carries code }
{
    is_good(code) || code == REQUESTED
}

/// The length that a data item with this transport size states for `len` octets. One octet of transport size 03
/// states 1. Otherwise the sizes 03, 04 and 05 count bits, eight for each octet, and every other size counts
/// octets. `len` is at most 262,140.
pub fn stated_length(transport: u8, len: usize) -> usize
    requires { len ≤ 262140 }
    ensures { result ≡ stated_length transport len }
{
    if transport == BIT_TRANSPORT && len == 1 {
        1
    } else if counts_bits(transport) {
        8 * len
    } else {
        len
    }
}

/// The number of padding octets after `len` octets of a data item: 1 if `len` is odd and another data item follows,
/// else 0.
pub fn padding_of(len: usize, last: bool) -> usize
    ensures padding { result ≡ padding_of len last }
    ensures most { result ≤ 1 }
{
    if last { 0 } else { len % 2 }
}

/// The number of octets that a stated length means. A number of bits is rounded up to whole octets.
pub(crate) fn octets_meant(transport: u8, stated: u16) -> usize
    ensures meant { result ≡ octets_meant transport stated }
    ensures most { result ≤ 65535 }
{
    let stated = usize::from(stated);
    if counts_bits(transport) {
        stated.div_ceil(8)
    } else {
        stated
    }
}
