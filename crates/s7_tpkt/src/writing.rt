//! Writing packets.

ghost use Rattle.std.specs.Prelude.{◌≡◌, ◌+◌, ◌≤◌, ◌++◌, length, drop};
ghost use Rattle.s7_tpkt.specs.Packets.{packet_of};

use crate::front::{HEADER, VERSION};

/// The reserved octet, which a receiver ignores.
const RESERVED: u8 = 0;

/// Writes the packet with this body, of 3 to 65,531 octets, to the beginning of `into`, and returns its length in
/// octets. The rest of `into` stays.
pub fn write_packet(body: &[u8], into: &mut [u8]) -> usize
    requires least { 3 ≤ length body.now }
    requires most { length body.now ≤ 65531 }
    requires room { length body.now + 4 ≤ length into.old }
    ensures size { result ≡ length (packet_of body.now) }
    ensures written { into.new ≡ packet_of body.now ++ drop result into.old }
{
    let size = body.len() + HEADER;
    let [high, low] = (size as u16).to_be_bytes();
    let header = [VERSION, RESERVED, high, low];
    into[..HEADER].copy_from_slice(&header);
    into[HEADER..size].copy_from_slice(body);
    size
}
