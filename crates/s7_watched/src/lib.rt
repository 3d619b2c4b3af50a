//! What a watcher in a rig prints: its samples are what the areas held.
#![tactic(auto)]

mod laws;

pub use laws::{rigs_show_watches, watches_are_seen};
