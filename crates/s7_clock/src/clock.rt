//! The ten octets of a clock, as in the Snap7 1.4 sources (`TResDataGetTime`).
ghost use Rattle.std.specs.Prelude.{◌≡◌, ◌≤◌, ◌<◌, ◌↔◌, ◌*◌, ◌/◌, ◌%◌, ◌+◌, ℕ, IsTrue, IfSome, IfOk, pos};
ghost use Rattle.std.specs.Prelude.{unsigned_abs, None, Some};
ghost use Rattle.jiff.specs.Words.{monday_zero, weekday_of};
ghost use Rattle.s7_clock.specs.Clock.{HasClockYear, IsClockYear, IsSmall, Reads, bcd, digit, number_in, octets_of};
ghost use Rattle.s7_clock.specs.Clock.{parts_in, weekday, year_of};
ghost use Rattle.s7_clock.specs.Moment.{moment_in, moment_read};

use crate::faults::NotDate;
use jiff::civil::{DateTime, Weekday};

/// The first two octets as they are written. A reader accepts any two.
const HEAD: [u8; 2] = [0x00, 0x19];

/// Whether the date and time has clock octets: its year is from 1990 to 2089.
pub fn in_clock_range(t: &DateTime) -> bool
    ensures { IsTrue result ↔ IsClockYear t.now.date.year }
{
    let t = *t;
    t.year() >= 1990 && t.year() <= 2089
}

/// The clock octets of a date and time of a year from 1990 to 2089: `00 19`; then year, month, day, hour, minute,
/// second and the first two digits of the milliseconds, each in BCD; then an octet with the last digit of the
/// milliseconds and the weekday, from 1 for Sunday to 7 for Saturday. Fractions of a millisecond are dropped.
pub fn to_octets(t: DateTime) -> [u8; 10]
    requires { IsClockYear t.date.year }
    ensures { result ≡ octets_of t }
{
    let plain = t.to_plain();
    let milliseconds = plain.time.subsec_nanosecond / 1_000_000;
    [
        HEAD[0],
        HEAD[1],
        bcd((plain.date.year % 100) as u8),
        bcd(plain.date.month),
        bcd(plain.date.day),
        bcd(plain.time.hour),
        bcd(plain.time.minute),
        bcd(plain.time.second),
        bcd((milliseconds / 10) as u8),
        (milliseconds % 10) as u8 * 16 + weekday(t),
    ]
}

/// The date and time that clock octets give, of a year from 1990 to 2089. The first two octets and the weekday are
/// ignored. Returns `NotDate` if there aren't ten octets, if a digit is above 9, or if there is no such date or no
/// such time of day.
pub fn from_octets(octets: &[u8]) -> Result<DateTime, NotDate>
    ensures read { Reads (parts_in octets.now) result }
    ensures year { IfOk result (λ t. IsClockYear t.date.year) }
    ensures moment { moment_read result ≡ moment_in octets.now }
{
    match read_parts(octets) {
        Some(parts) => to_date_time(parts),
        None => Err(NotDate),
    }
}

/// A number below 100 in two BCD digits.
fn bcd(n: u8) -> u8
    requires { n < 100 }
    ensures { result ≡ bcd n }
{
    n / 10 * 16 + n % 10
}

/// The weekday, from 1 for Sunday to 7 for Saturday.
fn weekday(t: DateTime) -> u8
    ensures { result ≡ weekday t }
{
    match t.weekday() {
        Weekday::Sunday => 1,
        Weekday::Monday => 2,
        Weekday::Tuesday => 3,
        Weekday::Wednesday => 4,
        Weekday::Thursday => 5,
        Weekday::Friday => 6,
        Weekday::Saturday => 7,
    }
}

/// The numbers in clock octets, whether or not there is such a date and time.
#[derive(Clone, Copy)]
struct Parts {
    /// The year with its century, 1990 to 2089.
    year: u16,
    month: u8,
    day: u8,
    hour: u8,
    minute: u8,
    second: u8,
    millisecond: u16,
}

/// The numbers in ten clock octets; `None` if there aren't ten octets or a digit is above 9.
fn read_parts(octets: &[u8]) -> Option<Parts>
    ensures parts { result ≡ parts_in octets.now }
    ensures small { IfSome result IsSmall }
    ensures year { IfSome result HasClockYear }
{
    let [
        _,
        _,
        year,
        month,
        day,
        hour,
        minute,
        second,
        hundredths,
        last,
    ] = octets
    else {
        return None;
    };
    let year = number(*year)?;
    let month = number(*month)?;
    let day = number(*day)?;
    let hour = number(*hour)?;
    let minute = number(*minute)?;
    let second = number(*second)?;
    let hundredths = number(*hundredths)?;
    let rest = digit(*last / 16)?;
    Some(Parts {
        year: year_of(year),
        month,
        day,
        hour,
        minute,
        second,
        millisecond: u16::from(hundredths) * 10 + u16::from(rest),
    })
}

/// The number in two BCD digits; `None` if a digit is above 9.
fn number(octet: u8) -> Option<u8>
    ensures { result ≡ number_in octet }
{
    let high = digit(octet / 16)?;
    let low = digit(octet % 16)?;
    Some(high * 10 + low)
}

/// A decimal digit; `None` above 9.
fn digit(d: u8) -> Option<u8>
    ensures { result ≡ digit d }
{
    (d <= 9).then_some(d)
}

/// The year of its last two digits: 90 to 99 are of 1990 to 1999, and 00 to 89 are of 2000 to 2089.
fn year_of(n: u8) -> u16
    ensures { result ≡ year_of n }
{
    if n >= 90 {
        1900 + u16::from(n)
    } else {
        2000 + u16::from(n)
    }
}

/// The date and time with these numbers; `NotDate` if there is none.
fn to_date_time(p: Parts) -> Result<DateTime, NotDate>
    requires { IsSmall p }
    ensures { Reads (Some p) result }
{
    let nanoseconds = i32::from(p.millisecond as i16) * 1_000_000;
    match DateTime::new(
        p.year as i16,
        p.month as i8,
        p.day as i8,
        p.hour as i8,
        p.minute as i8,
        p.second as i8,
        nanoseconds,
    ) {
        Ok(t) => Ok(t),
        Err(_) => Err(NotDate),
    }
}
