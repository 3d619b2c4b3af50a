//! From the octets of values to texts.
ghost use Rattle.std.specs.Prelude.{◌≡◌, ◌≤◌, ◌+◌, ◌++◌, length};
ghost use Rattle.s7_clock.specs.Clock.{digit, number_in};
ghost use Rattle.s7_symbol.specs.Values.{PutsSaid, Stands, text_said};

use crate::fault::ValueFault;
use crate::kind::TagKind;
use crate::numbers::{Signed, put, put_number};
use crate::strings::put_digits;
use itoa::Buffer;
use s7_clock::{from_octets, to_octets};
use s7_text::clock_text;

/// Writes the text of the value in these octets to the beginning of `into`, which has at least 512 octets, and returns
/// the text's length. The unused octets of a string are ignored. Returns `Form` if the octets have no value of the
/// type, even outside its range, and `Range` if they have one outside its range; then `into` is unchanged.
pub fn text_of(kind: TagKind, octets: &[u8], into: &mut [u8]) -> Result<usize, ValueFault>
    requires { 512 ≤ length into.old }
    ensures { PutsSaid (text_said kind octets.now) into.old into.new result }
{
    match kind {
        TagKind::Bool => put_bool(octets, into),
        TagKind::Int => put_int(octets, into),
        TagKind::Dint => put_dint(octets, into),
        TagKind::Bcd => put_bcd(octets, into),
        TagKind::S5Time => put_duration(octets, into),
        TagKind::Text(most) => put_digits(most, octets, into),
        TagKind::DateTime => put_date(octets, into),
    }
}

/// Writes the text of a `BOOL`.
fn put_bool(octets: &[u8], into: &mut [u8]) -> Result<usize, ValueFault>
    requires { 512 ≤ length into.old }
    ensures { PutsSaid (text_said TagKind.Bool octets.now) into.old into.new result }
{
    match octets {
        [n] if *n <= 1 => Ok(put_number(u64::from(*n), into)),
        [_] => Err(ValueFault::Range),
        _ => Err(ValueFault::Form),
    }
}

/// Writes the text of an `INT`.
fn put_int(octets: &[u8], into: &mut [u8]) -> Result<usize, ValueFault>
    requires { 512 ≤ length into.old }
    ensures { PutsSaid (text_said TagKind.Int octets.now) into.old into.new result }
{
    let [high, low] = octets else {
        return Err(ValueFault::Form);
    };
    let n = u64::from(*high) * 256 + u64::from(*low);
    Ok(Signed::of_complement(32_768, n).put(into))
}

/// Writes the text of a `DINT`.
fn put_dint(octets: &[u8], into: &mut [u8]) -> Result<usize, ValueFault>
    requires { 512 ≤ length into.old }
    ensures { PutsSaid (text_said TagKind.Dint octets.now) into.old into.new result }
{
    let [a, b, c, d] = octets else {
        return Err(ValueFault::Form);
    };
    let n = ((u64::from(*a) * 256 + u64::from(*b)) * 256 + u64::from(*c)) * 256 + u64::from(*d);
    Ok(Signed::of_complement(2_147_483_648, n).put(into))
}

/// Writes the text of a `BCD`.
fn put_bcd(octets: &[u8], into: &mut [u8]) -> Result<usize, ValueFault>
    requires { 512 ≤ length into.old }
    ensures { PutsSaid (text_said TagKind.Bcd octets.now) into.old into.new result }
{
    let [high, low] = octets else {
        return Err(ValueFault::Form);
    };
    let (Some(high), Some(low)) = (number_in(*high), number_in(*low)) else {
        return Err(ValueFault::Form);
    };
    Ok(put_number(high * 100 + low, into))
}

/// Writes the text of an `S5TIME`.
fn put_duration(octets: &[u8], into: &mut [u8]) -> Result<usize, ValueFault>
    requires { 512 ≤ length into.old }
    ensures { PutsSaid (text_said TagKind.S5Time octets.now) into.old into.new result }
{
    let [high, low] = octets else {
        return Err(ValueFault::Form);
    };
    let (Some(hundreds), Some(low)) = (digit(*high % 16), number_in(*low)) else {
        return Err(ValueFault::Form);
    };
    let unit = *high / 16;
    if unit > 3 {
        return Err(ValueFault::Range);
    }
    let mut count = Buffer::new();
    let digits = count.format(hundreds * 100 + low).as_bytes();
    Ok(put_two(digits, &[b'.', b'0' + unit], into))
}

/// Writes `front` and then `back` to the beginning of `into`, and returns how many octets they are.
fn put_two(front: &[u8], back: &[u8], into: &mut [u8]) -> usize
    requires { length front.now + length back.now ≤ length into.old }
    ensures { Stands (front.now ++ back.now) into.old into.new result }
{
    let end = front.len() + back.len();
    into[..front.len()].copy_from_slice(front);
    into[front.len()..end].copy_from_slice(back);
    end
}

/// Writes the text of a `DATE_AND_TIME`.
fn put_date(octets: &[u8], into: &mut [u8]) -> Result<usize, ValueFault>
    requires { 512 ≤ length into.old }
    ensures { PutsSaid (text_said TagKind.DateTime octets.now) into.old into.new result }
{
    let [year, month, day, hour, minute, second, hundredths, last] = octets else {
        return Err(ValueFault::Form);
    };
    let clock = [
        0x00,
        0x19,
        *year,
        *month,
        *day,
        *hour,
        *minute,
        *second,
        *hundredths,
        *last,
    ];
    match from_octets(clock.as_slice()) {
        Ok(date) if to_octets(date) == clock => Ok(put(
            clock_text(clock.as_slice()).as_slice(),
            into,
        )),
        _ => Err(ValueFault::Form),
    }
}

/// The number in the two BCD digits of an octet; `None` if one of them isn't a decimal digit.
fn number_in(octet: u8) -> Option<u64>
    ensures { result ≡ number_in octet }
{
    let high = digit(octet / 16)?;
    let low = digit(octet % 16)?;
    Some(high * 10 + low)
}

/// A decimal digit; `None` if it is above 9.
fn digit(d: u8) -> Option<u64>
    ensures { result ≡ digit d }
{
    (d <= 9).then_some(u64::from(d))
}
