//! Tests of clocks and controls: moments and their octets, and the parameters of controls.
ghost use Rattle.std.specs.Prelude.{◌≤◌, length};
ghost use Rattle.s7_clock.specs.Control.{control_spelling};

use crate::rows::all_hold;
use s7_clock::{
    BadParams, Control, NotDate, date_of, from_octets, hold, in_clock_range, moment_of,
    read_control, to_octets, write_control,
};

/// 2024-02-29, a Thursday, at 13:45:30.123.
const LEAP_DAY: [u8; 10] = *b"\x00\x19\x24\x02\x29\x13\x45\x30\x12\x35";

/// The clock octets of a moment before the year 2096. There are none if its date is outside of the clock's range, the
/// date doesn't give the moment back, or the octets don't give the date back.
pub(crate) fn octets_of(ms: u64) -> Option<[u8; 10]> {
    if ms > 4_000_000_000_000 {
        return None;
    }
    let moment = hold(ms as i64);
    let date = date_of(moment);
    let octets = to_octets(date);
    if in_clock_range(&date) && moment_of(&date) == moment && from_octets(&octets) == Ok(date) {
        Some(octets)
    } else {
        None
    }
}

/// What moments, clock octets and the parameters of controls are, or aren't.
enum Case {
    /// A moment, and its clock octets.
    Moment(u64, [u8; 10]),
    /// Octets of a date, and others of the same date.
    Same(&'static [u8], &'static [u8]),
    /// Octets that aren't a date.
    NoDate(&'static [u8]),
    /// Milliseconds since 1970, and the moment of the clock's range to which they are held.
    Held(i64, u64),
    /// Parameters that aren't those of a control.
    NoControl(&'static [u8]),
}

/// The cases.
const CASES: &[Case] = &[
    // Moments have clock octets, which give them back.
    Case::Moment(1_709_214_330_123, LEAP_DAY),
    Case::Moment(
        631_152_000_000,
        *b"\x00\x19\x90\x01\x01\x00\x00\x00\x00\x02",
    ),
    Case::Moment(
        946_684_799_999,
        *b"\x00\x19\x99\x12\x31\x23\x59\x59\x99\x96",
    ),
    Case::Moment(
        946_684_800_000,
        *b"\x00\x19\x00\x01\x01\x00\x00\x00\x00\x07",
    ),
    Case::Moment(
        3_786_911_999_999,
        *b"\x00\x19\x89\x12\x31\x23\x59\x59\x99\x97",
    ),
    // The head and the weekday of clock octets are passed over.
    Case::Same(b"\x77\x20\x24\x02\x29\x13\x45\x30\x12\x3F", &LEAP_DAY),
    // Octets that aren't a date are refused.
    Case::NoDate(b"\x00\x19\x24\x02\x29\x13\x45\x30\x12"),
    Case::NoDate(b"\x00\x19\x24\x02\x29\x13\x45\x30\x12\x35\x00"),
    Case::NoDate(b"\x00\x19\x24\x13\x29\x13\x45\x30\x12\x35"),
    Case::NoDate(b"\x00\x19\x24\x00\x29\x13\x45\x30\x12\x35"),
    Case::NoDate(b"\x00\x19\x23\x02\x30\x13\x45\x30\x12\x35"),
    Case::NoDate(b"\x00\x19\x24\x02\x30\x13\x45\x30\x12\x35"),
    Case::NoDate(b"\x00\x19\x23\x02\x29\x13\x45\x30\x12\x35"),
    Case::NoDate(b"\x00\x19\x24\x02\x29\x24\x45\x30\x12\x35"),
    Case::NoDate(b"\x00\x19\x24\x02\x29\x13\x45\x60\x12\x35"),
    Case::NoDate(b"\x00\x19\x2A\x02\x29\x13\x45\x30\x12\x35"),
    Case::NoDate(b"\x00\x19\x24\x02\x29\x13\x45\x30\x12\xA5"),
    // Moments are held within the range of a clock.
    Case::Held(i64::MIN, 631_152_000_000),
    Case::Held(631_151_999_999, 631_152_000_000),
    Case::Held(631_152_000_001, 631_152_000_001),
    Case::Held(3_786_911_999_998, 3_786_911_999_998),
    Case::Held(3_786_912_000_000, 3_786_911_999_999),
    Case::Held(i64::MAX, 3_786_911_999_999),
    // Parameters that aren't those of a control are refused.
    Case::NoControl(b""),
    Case::NoControl(b"\x28\0\0\0\0\0\0\xFD\0\0\x09P_PROGRA"),
    Case::NoControl(b"\x28\0\0\0\0\0\0\xFD\0\0\x09P_PROGRAM\0"),
    Case::NoControl(b"\x28\0\0\0\x01\0\0\xFD\0\0\x09P_PROGRAM"),
    Case::NoControl(b"\x28\0\0\0\0\0\0\xFD\0\x02\x43\x21\x09P_PROGRAM"),
    Case::NoControl(b"\x29\0\0\0\0\0\0\x09P_PROGRAM"),
    Case::NoControl(b"\x28\0\0\0\0\0\0\xFD\0\x0A\x01\0\x30\x4000001\x50\x05_INSE"),
    Case::NoControl(b"\x28\0\0\0\0\0\0\xFD\0\x0A\x01\0\x30\x4165536\x50\x05_INSE"),
    Case::NoControl(b"\x28\0\0\0\0\0\0\xFD\0\x0A\x01\0\x30\x410000:\x50\x05_INSE"),
    Case::NoControl(b"\x28\0\0\0\0\0\0\xFD\0\x0A\x01\0\x30\x4100001\x42\x05_INSE"),
    Case::NoControl(b"\x28\0\0\0\0\0\0\xFD\0\x0A\x01\0\x30\x4100001\x50\x05_DELE"),
];

/// Reports whether the octets are a date, and the others are the same date.
fn is_same_date(octets: &[u8], others: &[u8]) -> bool {
    let date = from_octets(octets);
    date.is_ok() && date == from_octets(others)
}

/// Reports whether a case holds.
fn holds(case: &Case) -> bool {
    match *case {
        Case::Moment(ms, octets) => octets_of(ms) == Some(octets),
        Case::Same(octets, others) => is_same_date(octets, others),
        Case::NoDate(octets) => from_octets(octets) == Err(NotDate),
        Case::Held(ms, held) => hold(ms) == held,
        Case::NoControl(params) => read_control(params) == Err(BadParams),
    }
}

/// The number of the first case that doesn't hold.
fn unmet(cases: &[Case]) -> Option<usize> {
    for (number, case) in cases.iter().enumerate() {
        if !holds(case) {
            return Some(number);
        }
    }
    None
}

/// Moments, dates and controls are read, written and held as the cases say.
#[test]
fn moments_and_controls_are_read_and_written(rt: HostRuntime) {
    all_hold(&rt, unmet(CASES));
}

/// The number of the first day of which a moment isn't given back by its clock octets.
fn unmet_day() -> Option<usize> {
    for day in 7_305..43_830u64 {
        if octets_of(day * 86_400_000 + 45_296_789).is_none() {
            return Some(day as usize);
        }
    }
    None
}

/// The clock octets of a moment of each day give the moment back.
#[test]
fn each_day_goes_back(rt: HostRuntime) {
    all_hold(&rt, unmet_day());
}

/// Reports whether the control is written as these parameters, and they are read as this control.
fn has_params(control: Control, params: &[u8]) -> bool
    requires { length (control_spelling control) ≤ 26 }
{
    let mut into = [0xEE; 27];
    let len = write_control(&control, &mut into);
    &into[..len] == params && into[len] == 0xEE && read_control(params) == Ok(control)
}

/// Controls are written as their parameters, which are read as these controls.
#[test]
fn controls_are_read_and_written(rt: HostRuntime) {
    let insert = Control::Insert {
        kind: 0x41,
        number: 65_535,
    };
    let delete = Control::Delete {
        kind: 0x38,
        number: 1,
    };
    assert!(rt;
        has_params(Control::Start, b"\x28\0\0\0\0\0\0\xFD\0\0\x09P_PROGRAM")
            && has_params(
                Control::ColdStart,
                b"\x28\0\0\0\0\0\0\xFD\0\x02\x43\x20\x09P_PROGRAM"
            )
            && has_params(Control::Stop, b"\x29\0\0\0\0\0\x09P_PROGRAM")
            && has_params(Control::Compress, b"\x28\0\0\0\0\0\0\xFD\0\0\x05_GARB")
            && has_params(
                Control::CopyRam,
                b"\x28\0\0\0\0\0\0\xFD\0\x02\x45\x50\x05_MODU"
            )
            && has_params(
                insert,
                b"\x28\0\0\0\0\0\0\xFD\0\x0A\x01\0\x30\x4165535\x50\x05_INSE"
            )
            && has_params(
                delete,
                b"\x28\0\0\0\0\0\0\xFD\0\x0A\x01\0\x30\x3800001\x42\x05_DELE"
            )
    );
}
