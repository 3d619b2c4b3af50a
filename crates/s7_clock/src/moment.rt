//! Moments: milliseconds since 1970-01-01T00:00:00, UTC.
ghost use Rattle.std.specs.Prelude.{◌≡◌, ◌*◌, ◌*ℤ◌, ℕ, pos, unsigned_abs, int_div};
ghost use Rattle.jiff.specs.Words.{civil_nanos};
ghost use Rattle.s7_clock.specs.Clock.{IsClockYear, octets_of};
ghost use Rattle.s7_clock.specs.Moment.{HasMoment, IsHeld, held, moment_of, moment_octets};

use jiff::Timestamp;
use jiff::civil::{DateTime, datetime};
use jiff::tz::Offset;

/// The first moment that clock octets can give, 1990-01-01T00:00:00.000.
pub const FIRST_MOMENT: u64 = 631_152_000_000;

/// The last moment that clock octets can give, 2089-12-31T23:59:59.999.
pub const LAST_MOMENT: u64 = 3_786_911_999_999;

/// The moment from `FIRST_MOMENT` to `LAST_MOMENT` that is nearest to this number of milliseconds since 1970.
pub fn hold(ms: i64) -> u64
    ensures value { result ≡ held ms }
    ensures within { IsHeld result }
{
    ms.clamp(FIRST_MOMENT as i64, LAST_MOMENT as i64) as u64
}

/// The date and time of a moment from `FIRST_MOMENT` to `LAST_MOMENT`. Its year is from 1990 to 2089, and its clock
/// octets are those of the moment.
pub fn date_of(ms: u64) -> DateTime
    requires { IsHeld ms }
    ensures moment { HasMoment result ms }
    ensures year { IsClockYear result.date.year }
    ensures octets { octets_of result ≡ moment_octets ms }
{
    match Timestamp::from_millisecond(ms as i64) {
        Ok(instant) => Offset::UTC.to_datetime(instant),
        Err(_) => unreachable!(),
    }
}

/// The moment of a date and time of a year from 1990 to 2089. Fractions of a millisecond are dropped.
pub fn moment_of(t: &DateTime) -> u64
    requires { IsClockYear t.now.date.year }
    ensures value { result ≡ moment_of t.now }
    ensures within { IsHeld result }
{
    let epoch = datetime(1970, 1, 1, 0, 0, 0, 0);
    t.duration_since(epoch).as_millis() as u64
}
