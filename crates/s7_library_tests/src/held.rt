//! Values that are dropped by functions of their own, so that the functions that hold them are cheap to prove.
use s7_client::{Job, JobResult};
use s7_rig::RigEnd;

/// A job.
pub(crate) struct HeldJob {
    pub(crate) job: Job,
}

impl Drop for HeldJob {
    fn drop(self) {
        let HeldJob { job: _ } = self;
    }
}

/// The result of a job.
pub(crate) struct Done {
    pub(crate) told: JobResult,
}

impl Drop for Done {
    fn drop(self) {
        let Done { told: _ } = self;
    }
}

/// The end of a rig.
pub(crate) struct Rig {
    pub(crate) end: RigEnd,
}

impl Drop for Rig {
    fn drop(self) {
        let Rig { end: _ } = self;
    }
}
