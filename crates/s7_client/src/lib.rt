//! A client of S7 over ISO-on-TCP. Its jobs are started and polled.
#![tactic(auto)]

mod channel;
mod client;
mod completion;
mod connection;
mod counter;
mod job;
mod laws;
mod op;
mod talk;
mod under_way;

pub use client::Client;
pub use completion::Completion;
pub use connection::Connection;
pub use counter::Counter;
pub use job::{Polled, StartCause, StartFault};
pub use laws::{
    codes_tell_of_links, connects_are_granted, ends_have_form, octets_end_otherwise, telegrams_fit,
};
pub use op::{op_of, tell};
pub use s7_dialogue::{Config, ItemList, Job, JobResult, codes};
