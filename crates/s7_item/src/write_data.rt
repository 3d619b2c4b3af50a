//! Writing data items.
ghost use Rattle.std.specs.Prelude.{◌≡◌, ◌<◌, ◌≤◌, ◌++◌, length, drop, IsTrue, IsSome};
ghost use Rattle.s7_item.specs.Word.{size_of, transport_of};
ghost use Rattle.s7_item.specs.DataItem.{head_octets, carries, stated_length, data_item_octets};

use crate::numbers::two_octets;
use crate::{carries, padding_of, stated_length, transport_of};

/// Writes a data item and returns the number of octets written.
///
/// With code FF (an answer) or 00 (a write request) the data item is the code, the transport size of the word
/// length, a length in two octets, the octets, and one octet 00 if their number is odd and the item isn't the last.
/// The length is 1 for one octet of bits (01). Otherwise it counts bits, eight for each octet, for the transport
/// sizes 03, 04 and 05, and octets for 07 and 09.
///
/// With every other code, which refuses the item, the data item is the code and `00 00 00`.
///
/// `into` has room for it. If octets are written, `size_of` knows the word length and the stated length is below
/// 2^16.
pub fn write_data_item(code: u8, word: u8, octets: &[u8], last: bool, into: &mut [u8]) -> usize
    requires known { IsTrue (carries code) → IsSome (size_of word) }
    requires fits { IsTrue (carries code)
        → stated_length (transport_of word) (length octets.now) < 65536 }
    requires room { length (data_item_octets code word octets.now last) ≤ length into.old }
    ensures len { result ≡ length (data_item_octets code word octets.now last) }
    ensures written { into.new ≡ data_item_octets code word octets.now last ++ drop result into.old }
{
    if !carries(code) {
        into[..4].copy_from_slice(&[code, 0x00, 0x00, 0x00]);
        return 4;
    }
    into[..4].copy_from_slice(&head(code, word, octets.len()));
    let end = 4 + octets.len();
    into[4..end].copy_from_slice(octets);
    if padding_of(octets.len(), last) == 0 {
        return end;
    }
    into[end] = 0x00;
    end + 1
}

/// The four octets before the octets of the item: code, transport size and stated length.
#[tactic(auto, using(crate::proofs::WordLemmas::at_most_stated))]
fn head(code: u8, word: u8, len: usize) -> [u8; 4]
    requires { stated_length (transport_of word) len < 65536 }
    ensures { result ≡ head_octets code word len }
{
    let transport = transport_of(word);
    let [high, low] = two_octets(stated_length(transport, len) as u16);
    [code, transport, high, low]
}
