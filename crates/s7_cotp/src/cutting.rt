//! Cutting messages into fragments.

ghost use Rattle.std.specs.Prelude.{◌≡◌, ◌-◌, ◌≤◌};
ghost use Rattle.std.specs.List.{AllByRecursion};
ghost use Rattle.s7_cotp.specs.Pairs.{pairs_of, IsCut, IsPart};

use crate::pairs::Fragments;

/// The number of header octets of a DT.
const HEADER: usize = 3;

/// The fragments of a message of `len` octets, in TPDUs of at most `tpdu` octets, header included; `tpdu` is from
/// 128 to 8,192. Each fragment but the last has `tpdu - 3` octets, and the last has at most that. An empty message
/// has one fragment.
#[tactic(auto, unfolding(crate::specs::Pairs::pairs_of))]
pub fn fragments(len: usize, tpdu: usize) -> Fragments
    requires least { 128 ≤ tpdu }
    requires most { tpdu ≤ 8192 }
    ensures pairs { result ≡ pairs_of len tpdu }
    ensures cut { IsCut (tpdu - 3) 0 len result }
    ensures parts { AllByRecursion (IsPart (tpdu - 3) len) result }
{
    Fragments::of(len, tpdu - HEADER)
}
