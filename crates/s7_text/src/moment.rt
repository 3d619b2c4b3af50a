//! Dates and times as text, `YYYY-MM-DDThh:mm:ss.mmm`, in scripts, in tags and in printed lines.
ghost use Rattle.std.specs.Prelude.{◌≡◌, ◌<◌, ◌≤◌, ◌+◌, ◌/◌, ◌%◌, ◌∷◌, ◌==◌, ◌&&◌, [], IfSome, IsSome, IsTrue};
ghost use Rattle.std.specs.Prelude.{is_some, length, nat_le, pos, slice_index};
ghost use Rattle.jiff.specs.Words.{days_in_month, is_leap_year};
ghost use Rattle.s7_clock.specs.Clock.{bcd, parts_in};
ghost use Rattle.s7_clock.specs.Moment.{IsHeld, is_date, is_time, is_within, moment_in};
ghost use Rattle.s7_text.specs.Moments.{are_digits, date_named, is_moment, moment_named, parts_named, value_at};
ghost use Rattle.s7_text.specs.Moments.{clock_values};

use crate::lines::{all_digits, value_of};
use s7_clock::{from_octets, moment_of};

/// The number of octets of a date and time.
const LENGTH: usize = 23;

/// The moment of a date and time of the years 1990 to 2089, in milliseconds since 1970; `None` if the text isn't one.
pub fn read_moment(field: &[u8]) -> Option<u64>
    ensures value { result ≡ moment_named field.now }
    ensures held { IfSome result IsHeld }
{
    if !is_moment(field) {
        return None;
    }
    let year = value_of(&field[..4]);
    if year < 1990 || year > 2089 {
        return None;
    }
    // clock octets with these digits represent the same date and time
    match from_octets(clock_octets(field).as_slice()) {
        Ok(date) => Some(moment_of(&date)),
        Err(_) => None,
    }
}

/// Whether the text is a date and time of any year of four digits.
pub fn names_date(field: &[u8]) -> bool
    ensures { result ≡ is_some (date_named field.now) }
{
    is_moment(field) && has_date(field)
}

/// Whether the calendar has the date and a day has the time. The text must have the form of a date and time.
fn has_date(field: &[u8]) -> bool
    requires { IsTrue (is_moment field.now) }
    ensures { result ≡ (is_date (parts_named field.now) && is_time (parts_named field.now)) }
{
    is_date(
        value_at(field, 0, 4),
        value_at(field, 5, 2),
        value_at(field, 8, 2),
    ) && is_time(
        value_at(field, 11, 2),
        value_at(field, 14, 2),
        value_at(field, 17, 2),
    )
}

/// The number in the `count` digits from this index on.
fn value_at(field: &[u8], place: usize, count: usize) -> u64
    requires within { place + count ≤ length field.now }
    requires few { count ≤ 10 }
    requires digits { IsTrue (are_digits place count field.now) }
    ensures { result ≡ value_at place count field.now }
{
    value_of(&field[place..place + count])
}

/// Whether the calendar has the date.
fn is_date(year: u64, month: u64, day: u64) -> bool
    ensures { result ≡ (is_within 1 12 month && is_within 1 (days_in_month (pos year) month) day) }
{
    1 <= month && month <= 12 && 1 <= day && day <= days_in_month(year, month)
}

/// Whether a day has the time.
fn is_time(hour: u64, minute: u64, second: u64) -> bool
    ensures { result ≡ (nat_le hour 23 && (nat_le minute 59 && nat_le second 59)) }
{
    hour <= 23 && minute <= 59 && second <= 59
}

/// The number of days of the month.
fn days_in_month(year: u64, month: u64) -> u64
    ensures { result ≡ days_in_month (pos year) month }
{
    match month {
        2 if is_leap_year(year) => 29,
        2 => 28,
        4 | 6 | 9 | 11 => 30,
        _ => 31,
    }
}

/// Whether the year has a 29th of February.
fn is_leap_year(year: u64) -> bool
    ensures { result ≡ is_leap_year (pos year) }
{
    year % 4 == 0 && (year % 100 != 0 || year % 400 == 0)
}

/// Whether the text has the form of a date and time: digits and separators where they belong.
fn is_moment(field: &[u8]) -> bool
    ensures { result ≡ is_moment field.now }
{
    field.len() == LENGTH
        && is_part(field, 0, 4, b'-')
        && is_part(field, 5, 2, b'-')
        && is_part(field, 8, 2, b'T')
        && is_part(field, 11, 2, b':')
        && is_part(field, 14, 2, b':')
        && is_part(field, 17, 2, b'.')
        && are_digits(field, 20, 3)
}

/// Whether there are `count` digits from this index on, and then this octet.
fn is_part(field: &[u8], place: usize, count: usize, mark: u8) -> bool
    requires { place + count < length field.now }
    ensures { result ≡ (are_digits place count field.now && slice_index field.now (place + count) == mark) }
{
    are_digits(field, place, count) && field[place + count] == mark
}

/// Whether there are `count` digits from this index on.
fn are_digits(field: &[u8], place: usize, count: usize) -> bool
    requires { place + count ≤ length field.now }
    ensures { result ≡ are_digits place count field.now }
{
    all_digits(&field[place..place + count])
}

/// The clock octets of a text in the form of a date and time: `00 19` and the digits, without a weekday.
fn clock_octets(field: &[u8]) -> [u8; 10]
    requires form { IsTrue (is_moment field.now) }
    requires year { IsTrue (is_within 1990 2089 (value_at 0 4 field.now)) }
    ensures { moment_in result ≡ moment_named field.now }
{
    [
        0x00,
        0x19,
        bcd_at(field, 2),
        bcd_at(field, 5),
        bcd_at(field, 8),
        bcd_at(field, 11),
        bcd_at(field, 14),
        bcd_at(field, 17),
        bcd_at(field, 20),
        (field[22] - b'0') * 16,
    ]
}

/// Two decimal digits from this index on, as one octet.
fn bcd_at(field: &[u8], place: usize) -> u8
    requires within { place + 2 ≤ length field.now }
    requires digits { IsTrue (are_digits place 2 field.now) }
    ensures { result ≡ bcd (value_at place 2 field.now) }
{
    (field[place] - b'0') * 16 + (field[place + 1] - b'0')
}

/// The date and time of clock octets, as text.
pub fn clock_text(octets: &[u8]) -> [u8; 23]
    requires { IsSome (parts_in octets.now) }
    ensures { clock_values (parts_in octets.now) ≡ result ∷ [] }
{
    let century = if octets[2] >= 0x90 { b"19" } else { b"20" };
    [
        century[0],
        century[1],
        high_digit(octets[2]),
        low_digit(octets[2]),
        b'-',
        high_digit(octets[3]),
        low_digit(octets[3]),
        b'-',
        high_digit(octets[4]),
        low_digit(octets[4]),
        b'T',
        high_digit(octets[5]),
        low_digit(octets[5]),
        b':',
        high_digit(octets[6]),
        low_digit(octets[6]),
        b':',
        high_digit(octets[7]),
        low_digit(octets[7]),
        b'.',
        high_digit(octets[8]),
        low_digit(octets[8]),
        high_digit(octets[9]),
    ]
}

/// The high BCD digit of an octet, as a character.
fn high_digit(octet: u8) -> u8
    ensures { result ≡ 48 + octet / 16 }
{
    b'0' + octet / 16
}

/// The low BCD digit of an octet, as a character.
fn low_digit(octet: u8) -> u8
    ensures { result ≡ 48 + octet % 16 }
{
    b'0' + octet % 16
}
