//! Rigs of clients in memory.

pub(crate) mod rig_report;
pub(crate) mod rigging;
pub(crate) mod watcher;
