//! The clock of a plant.
ghost use Rattle.std.specs.Prelude.{◌≡◌, pos, ◌+ℤ◌, ◌-ℤ◌};
ghost use Rattle.s7_clock.specs.Moment.{IsHeld, held, moment_octets};

use s7_clock::{date_of, hold, to_octets};

/// The clock octets that a clock shows at `moment`, in milliseconds since 1970, if it is `offset` milliseconds ahead.
/// Moments before 1990 or after 2089 count as the nearest one within, and so does the sum.
pub(crate) fn shown_octets(moment: u64, offset: i64) -> [u8; 10]
    ensures { result ≡ moment_octets (held (pos (held (pos moment)) +ℤ offset)) }
{
    let shown = hold((nearest(moment) as i64).saturating_add(offset));
    to_octets(date_of(shown))
}

/// How many milliseconds a clock that shows `value` at `moment` is ahead. Both are in milliseconds since 1970.
pub(crate) fn offset_of(moment: u64, value: u64) -> i64
    requires { IsHeld value }
    ensures { result ≡ pos value -ℤ pos (held (pos moment)) }
{
    value as i64 - nearest(moment) as i64
}

/// The nearest moment to this one that clock octets can represent: from 1990 to the end of 2089.
fn nearest(moment: u64) -> u64
    ensures value { result ≡ held (pos moment) }
    ensures within { IsHeld result }
{
    // `i64::MAX` is later than every moment that clock octets can represent
    hold(moment.min(i64::MAX as u64) as i64)
}
