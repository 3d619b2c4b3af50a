//! A watcher of tags: rounds of reads of all tags, and the lines of the samples that changed.
#![tactic(auto)]

mod laws;
mod lines;
mod reads;
mod watch;
mod watched;

pub use laws::results_give_lines;
pub use watch::Watch;
