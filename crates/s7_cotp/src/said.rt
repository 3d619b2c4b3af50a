//! The values of the parameters of a connection.

ghost use Rattle.std.specs.Prelude.{◌≤◌};
ghost use Rattle.s7_cotp.specs.Padded.{IsPadded};

use crate::tpdu::Tsap;

/// The TPDU size and the TSAPs, present or absent.
#[derive(Clone, Copy)]
pub(crate) struct Said {
    pub(crate) size_code: u8,
    pub(crate) calling: Tsap,
    pub(crate) called: Tsap,
    ghost least_size: { 7 ≤ size_code },
    ghost most_size: { size_code ≤ 13 },
    ghost calling_fits: { calling.len ≤ 16 },
    ghost called_fits: { called.len ≤ 16 },
    ghost calling_padded: { IsPadded calling },
    ghost called_padded: { IsPadded called },
}
