//! What the program `s7server` does: it serves areas as a controller would, over one link or to the links of a door.
#![tactic(auto)]

mod asked;
mod closing;
mod lent_door;
mod opening;
mod output;
mod pipe;
mod report;
mod run;
mod serve;
mod server;

pub use run::{Run, ServerEnd};
pub use server::server_main;
