//! Lines that are runs of equal octets.
ghost use Rattle.std.specs.Prelude.{◌≡◌, option_map};
ghost use Rattle.hex.specs.Hex.{decode_sized};
ghost use Rattle.s7_script.specs.Reading.{run_octet, run_of, run_parts};

use crate::areas::area_line::{fault, number_within};
use crate::areas::version::Version;
use crate::{AreasFault, AreasKind};
use hex::FromHex;
use s7_text::{number, split_mark};

/// The texts before and after the `*` of a run; `None` if there is no `*`, and always in version 1, which has no runs.
pub(crate) fn run_parts(version: Version, text: &[u8]) -> Option<(&[u8], &[u8])>
    ensures { option_map (λ p. (p.0.now, p.1.now)) result ≡ run_parts version text.now }
{
    match version {
        Version::One => None,
        Version::Two => split_mark(text, b'*'),
    }
}

/// The count of a run, from 1 on, and its octet, of two hexadecimal digits.
pub(crate) fn run_of(line: u32, count: &[u8], digits: &[u8]) -> Result<(u64, u8), AreasFault>
    ensures { result ≡ run_of line (count.now, digits.now) }
{
    let count = number_within(1, 9_999_999_999, number(count), line)?;
    let octet = run_octet(line, digits)?;
    Ok((count, octet))
}

/// The octet of two hexadecimal digits.
fn run_octet(line: u32, digits: &[u8]) -> Result<u8, AreasFault>
    ensures { result ≡ run_octet line (decode_sized digits.now 1) }
{
    match <[u8; 1]>::from_hex(digits) {
        Ok(octets) => Ok(octets[0]),
        Err(_) => Err(fault(line, AreasKind::Digits)),
    }
}
