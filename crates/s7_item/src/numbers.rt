//! Numbers as they are sent, the high octet first.
ghost use Rattle.std.specs.Prelude.{◌≡◌, ◌<◌, ◌^◌};
ghost use Rattle.s7_outer.specs.Numbers.{two_octets, three_octets};

/// A number in two octets.
pub(crate) fn two_octets(n: u16) -> [u8; 2]
    ensures { result ≡ two_octets n }
{
    n.to_be_bytes()
}

/// A number below 2^24 in three octets.
pub(crate) fn three_octets(n: u32) -> [u8; 3]
    requires { n < 2 ^ 24 }
    ensures { result ≡ three_octets n }
{
    let [_, high, middle, low] = n.to_be_bytes();
    [high, middle, low]
}
