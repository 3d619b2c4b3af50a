//! The clock and the control of a PLC: clock octets over `jiff`'s dates and times, the moments that a clock can
//! have, and the parameters that start, stop, compress, copy, insert and delete. Each of these is read exactly if
//! the octets spell it, and what is written is read again.
#![tactic(auto)]

mod clock;
mod control;
mod faults;
mod laws;
mod moment;

pub use clock::{from_octets, in_clock_range, to_octets};
pub use control::{Control, read_control, write_control};
pub use faults::{BadParams, NotDate};
pub use laws::{clock_reading, control_reading, moment_reading};
pub use moment::{FIRST_MOMENT, LAST_MOMENT, date_of, hold, moment_of};
