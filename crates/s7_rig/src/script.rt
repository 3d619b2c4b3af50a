//! The jobs of a client of a rig.
use s7_client::Job;

/// The jobs of a client.
#[derive(Debug, Drop)]
pub struct ClientScript {
    /// The jobs in order.
    pub jobs: Vec<Job>,
    /// Whether the client halts: after a read of several items that fails, only the last job is started.
    pub halts: bool,
}
