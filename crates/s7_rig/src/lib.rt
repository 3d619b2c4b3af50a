//! A rig: clients and the sessions that serve them, all on one book. They act turn by turn over pipes in memory.
#![tactic(auto)]

mod end;
mod laws;
mod links;
mod places;
mod rig;
mod runs;
mod script;
mod station;
mod turns;

pub use end::{RigClient, RigEnd};
pub use laws::{
    jobs_are_settled, jobs_come_off, passwords_are_read, questions_are_heard, rigs_are_formed,
    rigs_follow,
};
pub use places::Places;
pub use runs::{Schedule, run_rig};
pub use script::ClientScript;
