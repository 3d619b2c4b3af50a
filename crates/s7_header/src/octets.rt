//! Numbers in two octets, the high one first.
ghost use Rattle.std.specs.Prelude.{◌≡◌, ◌+◌, ◌<◌, length};
ghost use Rattle.s7_outer.specs.Numbers.{two_octets};
ghost use Rattle.s7_header.specs.Octets.{number_at};

use bytes::Buf;

/// The number in the two octets from this offset on.
pub(crate) fn number_at(octets: &[u8], place: usize) -> u16
    requires { place + 1 < length octets.now }
    ensures { result ≡ number_at octets.now place }
{
    let mut rest = &octets[place..];
    rest.get_u16()
}

/// The two octets of a number.
pub(crate) fn two_octets(number: u16) -> [u8; 2]
    ensures { result ≡ two_octets number }
{
    number.to_be_bytes()
}
