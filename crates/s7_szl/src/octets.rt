//! Numbers in two octets, the high one first.
ghost use Rattle.std.specs.Prelude.{◌≡◌, ◌+◌, ◌<◌, length};
ghost use Rattle.s7_outer.specs.Numbers.{two_octets};
ghost use Rattle.s7_szl.specs.Octets.{number_at};
ghost use Rattle.s7_szl.specs.Images.{adds_up};

use bytes::Buf;

/// The length of an image before its records: id, index, record length and record count.
pub(crate) const HEAD: usize = 8;

/// The number in the two octets from this offset on.
pub(crate) fn number_at(octets: &[u8], place: usize) -> u16
    requires { place + 1 < length octets.now }
    ensures { result ≡ number_at octets.now place }
{
    let mut rest = &octets[place..];
    rest.get_u16()
}

/// A number in two octets.
pub(crate) fn two_octets(number: u16) -> [u8; 2]
    ensures { result ≡ two_octets number }
{
    number.to_be_bytes()
}

/// Whether an image has exactly the records after its head that the head states.
pub(crate) fn adds_up(image: &[u8]) -> bool
    ensures { result ≡ adds_up image.now }
{
    if image.len() < HEAD {
        return false;
    }
    let record_len = number_at(image, 4) as usize;
    let count = number_at(image, 6) as usize;
    image.len() == HEAD + record_len * count
}
