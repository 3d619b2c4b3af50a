//! One served link. The octets written on it are a stated function of the octets taken from it and of the verdicts of
//! the doer that carries out its telegrams.
#![tactic(auto)]

mod book_doer;
mod conversation;
mod conversation_blocks;
mod doer;
mod handled;
mod held;
mod judge;
mod judge_blocks;
mod judge_transfer;
mod judge_user;
mod laws;
mod outcome;
mod password;
mod query;
mod sender;
mod session;
mod size;
mod slices;
mod transfers;

pub use book_doer::BookDoer;
pub use doer::{Doer, NotDone};
pub use laws::{spelled_reads_are_asked, spelled_writes_are_asked};
pub use outcome::{Outcome, Turn};
pub use session::Session;
