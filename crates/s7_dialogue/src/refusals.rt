//! The error numbers with which refusals end a job.
ghost use Rattle.std.specs.Prelude.{◌≡◌};
ghost use Rattle.s7_dialogue.specs.Refusals.{number_of_error, number_of_code, number_of_status};

use crate::codes::{
    ALREADY_RUNS, ALREADY_STOPPED, INVALID_TRANSPORT, INVALID_VALUE, NO_PASSWORD, NO_SUCH_FUNCTION,
    NOT_AVAILABLE, OUT_OF_RANGE, OVER_PDU, PASSWORD_NEEDED, REFUSED, SIZE_MISMATCH, WRONG_PASSWORD,
};
use s7_clock::Control;

/// The error number for the error word of a header.
pub(crate) fn number_of_error(error: u16) -> u32
    ensures { result ≡ number_of_error error }
{
    match error {
        0x8500 => OVER_PDU,
        0xD209 => NOT_AVAILABLE,
        0xDC01 => INVALID_VALUE,
        0x8104 => NO_SUCH_FUNCTION,
        0xD241 => PASSWORD_NEEDED,
        0xD602 => WRONG_PASSWORD,
        0xD604 | 0xD605 => NO_PASSWORD,
        _ => REFUSED,
    }
}

/// The error number for the return code of an item, which isn't FF.
pub(crate) fn number_of_code(code: u8) -> u32
    ensures { result ≡ number_of_code code }
{
    match code {
        0x05 => OUT_OF_RANGE,
        0x06 => INVALID_TRANSPORT,
        0x07 => SIZE_MISMATCH,
        0x0A => NOT_AVAILABLE,
        _ => REFUSED,
    }
}

/// The error number for the status in the answer to a control, which isn't 00.
pub(crate) fn number_of_status(control: &Control, status: u8) -> u32
    ensures { result ≡ number_of_status control.now status }
{
    match control {
        Control::Start | Control::ColdStart if status == 0x02 => ALREADY_RUNS,
        Control::Stop if status == 0x07 => ALREADY_STOPPED,
        _ => REFUSED,
    }
}
