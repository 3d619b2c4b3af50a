//! Tests of every day that the octets of a clock can show.
use crate::clock::octets_of;
use s7_clock::FIRST_MOMENT;

/// The milliseconds of a day.
const DAY: u64 = 86_400_000;

/// 12:45:07.089, in milliseconds.
const TIME: u64 = 45_907_089;

/// 12:45:07.089 without its last digit, as octets of a clock.
const TIME_OCTETS: [u8; 4] = [0x12, 0x45, 0x07, 0x08];

/// The number of days of a month of a year from 1990 to 2089.
fn days_in(year: u32, month: u32) -> u32 {
    match month {
        2 if year % 4 == 0 => 29,
        2 => 28,
        4 | 6 | 9 | 11 => 30,
        _ => 31,
    }
}

/// The last two digits of a number, in BCD.
fn digits(number: u32) -> u8 {
    (number / 10 % 10 * 16 + number % 10) as u8
}

/// Reports whether the day of this number, counted from the first of 1990, which was a Monday, has the octets of this
/// date.
fn is_read_back(number: u64, year: u32, month: u32, day: u32) -> bool {
    let moment = FIRST_MOMENT + number % 36_525 * DAY + TIME;
    let weekday = (number % 36_525 + 1) % 7 + 1;
    let [hour, minute, second, hundredths] = TIME_OCTETS;
    let expected = [
        0x00,
        0x19,
        digits(year),
        digits(month),
        digits(day),
        hour,
        minute,
        second,
        hundredths,
        0x90 + weekday as u8,
    ];
    octets_of(moment) == Some(expected)
}

/// Each day from 1990 to 2089 has its clock octets, which give it back.
#[test]
fn each_day_is_read_back(rt: HostRuntime) {
    let mut number = 0;
    for year in 1990..2090 {
        for month in 1..13 {
            for day in 0..days_in(year, month) {
                assert!(rt; is_read_back(number, year, month, day + 1));
                number = (number % 36_525 + 1) % 36_525;
            }
        }
    }
    // The last day was the last of all.
    assert!(rt; number == 0);
}
