//! TPDU sizes.
ghost use Rattle.std.specs.Prelude.{◌≡◌, ◌≤◌};
ghost use Rattle.s7_wire.specs.Bounds.{size_of_code};

/// The TPDU size of a code of ISO 8073 (13.3.4): 07 is 128 octets, and each further one doubles it,
/// up to 8,192 for 0D.
pub fn tpdu_size(code: u8) -> u16
    requires least { 7 ≤ code }
    requires most { code ≤ 13 }
    ensures size { result ≡ size_of_code code }
    ensures least { 128 ≤ result }
    ensures most { result ≤ 8192 }
{
    match code {
        0x07 => 128,
        0x08 => 256,
        0x09 => 512,
        0x0A => 1_024,
        0x0B => 2_048,
        0x0C => 4_096,
        0x0D => 8_192,
        _ => unreachable!(),
    }
}
