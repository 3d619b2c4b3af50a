//! The error words of replies to what was asked of another server.
ghost use Rattle.std.specs.Prelude.{◌≡◌};
ghost use Rattle.s7_relay.specs.Errors.{error_of, is_failure};

use s7_client::codes::{LINK_ENDED, RECEIVE_FAILED, SEND_FAILED, TIMED_OUT};

/// The error word of a telegram that is neither a read nor a write.
pub(crate) const NO_FUNCTION: u16 = 0x8104;

/// The error word if the dial or the link failed, or the far server ended the link.
pub(crate) const NO_LINK: u16 = 0x8F05;

/// The error word if the far server didn't answer.
pub(crate) const NO_ANSWER: u16 = 0x8F06;

/// The error word if the far items don't fit into one far telegram.
pub(crate) const TOO_LONG: u16 = 0x8F07;

/// The error word if the far connect or the far job ended otherwise.
pub(crate) const FAR_FAULT: u16 = 0x8F08;

/// The error word if the far connect or the far job ended with this code, which isn't 0.
pub(crate) fn error_of(code: u32) -> u16
    ensures { result ≡ error_of code }
{
    if code == LINK_ENDED || is_failure(code) {
        NO_LINK
    } else if code == TIMED_OUT {
        NO_ANSWER
    } else {
        FAR_FAULT
    }
}

/// Whether the far link failed, by the code with which a connect or a job over it ended.
pub(crate) fn is_failure(code: u32) -> bool
    ensures { result ≡ is_failure code }
{
    code == SEND_FAILED || code == RECEIVE_FAILED
}
