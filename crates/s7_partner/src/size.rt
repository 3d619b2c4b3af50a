//! The size of TPDUs.
ghost use Rattle.std.specs.Prelude.{◌≤◌};

use s7_wire::tpdu_size;

/// The TPDU size of a link in octets, headers included (ISO 8073, 13.3.4).
#[derive(Clone, Copy, Debug, PartialEq, Eq)]
pub(crate) struct TpduSize {
    pub(crate) octets: u16,
    ghost least: { 128 ≤ octets },
    ghost most: { octets ≤ 8192 },
}

impl TpduSize {
    ghost use Rattle.std.specs.Prelude.{◌≡◌};
    ghost use Rattle.s7_wire.specs.Bounds.{size_of_code};

    /// The TPDU size with this code, from 07 to 0D.
    pub(crate) fn of(code: u8) -> TpduSize
        requires least { 7 ≤ code }
        requires most { code ≤ 13 }
        ensures { result.octets ≡ size_of_code code }
    {
        TpduSize {
            octets: tpdu_size(code),
        }
    }
}
