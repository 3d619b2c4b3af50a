//! From texts to the octets of values.
ghost use Rattle.std.specs.Prelude.{◌≡◌, ◌≤◌, ◌<◌, length};
ghost use Rattle.s7_outer.specs.Numbers.{two_octets};
ghost use Rattle.s7_clock.specs.Clock.{bcd};
ghost use Rattle.s7_symbol.specs.Octets.{four_octets};
ghost use Rattle.s7_symbol.specs.Values.{PutsSaid, octets_said};

use crate::fault::ValueFault;
use crate::kind::TagKind;
use crate::numbers::{Signed, plain_number, put};
use crate::strings::put_characters;
use s7_clock::{date_of, to_octets};
use s7_text::{names_date, read_moment, split_mark};

/// Writes the octets of the value that `text` writes in this type to the beginning of `into`, which has at least 512
/// octets, and returns their number. Returns `Form` if the text writes no value of the type, even outside its range,
/// and `Range` if it writes one outside its range; then `into` is unchanged.
pub fn octets_of(kind: TagKind, text: &[u8], into: &mut [u8]) -> Result<usize, ValueFault>
    requires { 512 ≤ length into.old }
    ensures { PutsSaid (octets_said kind text.now) into.old into.new result }
{
    match kind {
        TagKind::Bool => Ok(put(bool_octets(text)?.as_slice(), into)),
        TagKind::Int => Ok(put(int_octets(text)?.as_slice(), into)),
        TagKind::Dint => Ok(put(dint_octets(text)?.as_slice(), into)),
        TagKind::Bcd => Ok(put(bcd_octets(text)?.as_slice(), into)),
        TagKind::S5Time => Ok(put(duration_octets(text)?.as_slice(), into)),
        TagKind::Text(most) => put_characters(most, text, into),
        TagKind::DateTime => Ok(put(date_octets(text)?.as_slice(), into)),
    }
}

/// The octet of the `BOOL` that a text writes.
fn bool_octets(text: &[u8]) -> Result<[u8; 1], ValueFault>
    ensures { result ≡ octets_said TagKind.Bool text.now }
{
    match plain_number(text) {
        None => Err(ValueFault::Form),
        Some(n) if n <= 1 => Ok([n as u8]),
        Some(_) => Err(ValueFault::Range),
    }
}

/// The octets of the `INT` that a text writes.
fn int_octets(text: &[u8]) -> Result<[u8; 2], ValueFault>
    ensures { result ≡ octets_said TagKind.Int text.now }
{
    match Signed::read(text) {
        None => Err(ValueFault::Form),
        Some(z) if z.fits(32_768) => Ok(two_octets(z.complement(32_768) as u16)),
        Some(_) => Err(ValueFault::Range),
    }
}

/// The octets of the `DINT` that a text writes.
fn dint_octets(text: &[u8]) -> Result<[u8; 4], ValueFault>
    ensures { result ≡ octets_said TagKind.Dint text.now }
{
    match Signed::read(text) {
        None => Err(ValueFault::Form),
        Some(z) if z.fits(2_147_483_648) => Ok(four_octets(z.complement(2_147_483_648) as u32)),
        Some(_) => Err(ValueFault::Range),
    }
}

/// The octets of the `BCD` that a text writes.
fn bcd_octets(text: &[u8]) -> Result<[u8; 2], ValueFault>
    ensures { result ≡ octets_said TagKind.Bcd text.now }
{
    match plain_number(text) {
        None => Err(ValueFault::Form),
        Some(n) if n <= 9_999 => Ok([bcd((n / 100) as u8), bcd((n % 100) as u8)]),
        Some(_) => Err(ValueFault::Range),
    }
}

/// The octets of the `S5TIME` that a text writes.
fn duration_octets(text: &[u8]) -> Result<[u8; 2], ValueFault>
    ensures { result ≡ octets_said TagKind.S5Time text.now }
{
    let Some((count, unit)) = split_mark(text, b'.') else {
        return Err(ValueFault::Form);
    };
    let Some(count) = plain_number(count) else {
        return Err(ValueFault::Form);
    };
    let Some(unit) = plain_number(unit) else {
        return Err(ValueFault::Form);
    };
    if count <= 999 && unit <= 3 {
        Ok([
            unit as u8 * 16 + (count / 100) as u8,
            bcd((count % 100) as u8),
        ])
    } else {
        Err(ValueFault::Range)
    }
}

/// The octets of the `DATE_AND_TIME` that a text writes.
fn date_octets(text: &[u8]) -> Result<[u8; 8], ValueFault>
    ensures { result ≡ octets_said TagKind.DateTime text.now }
{
    match read_moment(text) {
        Some(moment) => {
            let [
                _,
                _,
                year,
                month,
                day,
                hour,
                minute,
                second,
                hundredths,
                last,
            ] = to_octets(date_of(moment));
            Ok([year, month, day, hour, minute, second, hundredths, last])
        }
        None if names_date(text) => Err(ValueFault::Range),
        None => Err(ValueFault::Form),
    }
}

/// A number below 100 in two BCD digits.
fn bcd(n: u8) -> u8
    requires { n < 100 }
    ensures { result ≡ bcd n }
{
    n / 10 * 16 + n % 10
}

/// A number in two octets, the high one first.
fn two_octets(n: u16) -> [u8; 2]
    ensures { result ≡ two_octets n }
{
    n.to_be_bytes()
}

/// A number in four octets, the high one first.
fn four_octets(n: u32) -> [u8; 4]
    ensures { result ≡ four_octets n }
{
    n.to_be_bytes()
}
