//! The messages of a client's jobs: what a job asks, what answers it, and how it ends.
#![tactic(auto)]

mod answers;
pub mod codes;
mod config;
mod grant;
mod item_list;
mod job;
mod questions;
mod refusals;
mod stages;
mod transfers;

pub use config::Config;
pub use grant::{Ending, Grant, Leaves};
pub use item_list::ItemList;
pub use job::{Job, JobResult};
pub use questions::message::MOST_MESSAGE;
pub use stages::asking::Asking;
pub use stages::running::{Running, Stage};
pub use stages::single::Single;
