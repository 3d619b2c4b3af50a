//! Reading data items.
ghost use Rattle.std.specs.Prelude.{◌≡◌, ◌+◌, ◌≤◌, length, drop, All, OnOk, IfOk};
ghost use Rattle.s7_item.specs.Gives.{Gives};
ghost use Rattle.s7_item.specs.DataItem.{octets_meant, padding_of, place_in, span_of, data_places_of};

use crate::data_item::octets_meant;
use crate::word::is_transport;
use crate::{DataItems, DataPlace, padding_of};

/// Why octets aren't read as data items.
#[derive(Clone, Copy, Debug, PartialEq, Eq)]
pub enum DataFault {
    /// A transport size isn't 03, 04, 05, 07 or 09.
    Transport,
    /// The octets end before the data items do.
    Short,
    /// Octets are left after the last data item.
    Rest,
}

/// Finds the octets of `n` data items, at most twenty. A data item has a code, a transport size, a length in two
/// octets, and its octets; a padding octet follows an odd number of octets, except in the last item. A length
/// counts bits, rounded up to whole octets, for the transport sizes 03, 04 and 05, and octets for 07 and 09. Codes
/// and padding octets are ignored.
///
/// The first fault in the order of the octets is returned: `Transport` if a transport size is none of these,
/// `Short` if the octets end early, `Rest` if octets are left over. What `into` held before is dropped; after a
/// refusal it is empty.
#[tactic(auto, unfolding(crate::specs::DataItem::data_places_of))]
pub fn read_data_items(octets: &[u8], n: usize, into: &mut DataItems) -> Result<(), DataFault>
    requires { n ≤ 20 }
    ensures read { Gives (data_places_of n octets.now) result into.new }
    ensures many { OnOk result (length into.new ≡ n) }
    ensures inside { OnOk result
        (All (λ place. place.from + place.len ≤ length octets.now) into.new) }
{
    into.clear();
    let mut at = 0;
    for k in 0..n {
        let last = k + 1 == n;
        match read_place(octets, at, last) {
            Ok(place) => {
                at = place.from + place.len + padding_of(place.len, last);
                into.push(place);
            }
            Err(fault) => {
                into.clear();
                return Err(fault);
            }
        }
    }
    if at < octets.len() {
        into.clear();
        return Err(DataFault::Rest);
    }
    Ok(())
}

/// The range of the octets of the data item that begins at offset `at`; `last` says whether it is the last item.
fn read_place(octets: &[u8], at: usize, last: bool) -> Result<DataPlace, DataFault>
    requires { at ≤ length octets.now }
    ensures place { result ≡ place_in at last (drop at octets.now) }
    ensures from { IfOk result (λ place. place.from ≡ at + 4) }
    ensures fits { IfOk result (λ place. at + span_of place last ≤ length octets.now) }
{
    let rest = &octets[at..];
    if rest.len() < 2 {
        return Err(DataFault::Short);
    }
    let transport = rest[1];
    if !is_transport(transport) {
        return Err(DataFault::Transport);
    }
    if rest.len() < 4 {
        return Err(DataFault::Short);
    }
    let len = octets_meant(transport, u16::from_be_bytes([rest[2], rest[3]]));
    if rest.len() < 4 + len + padding_of(len, last) {
        return Err(DataFault::Short);
    }
    Ok(DataPlace {
        transport,
        from: at + 4,
        len,
    })
}
