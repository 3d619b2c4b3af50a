//! The telegrams of a job that are in flight.

use crate::answers::answer::Asked;
use arrayvec::ArrayVec;

/// A telegram in flight: asked, and unanswered.
#[derive(Default, Drop)]
pub(crate) struct Flight {
    /// The question.
    pub(crate) asked: Asked,
    /// The sequence under which it was asked.
    pub(crate) sequence: u16,
    /// The index of its question among the questions of the job.
    pub(crate) place: usize,
    /// The offset of its first octet among the octets that the job reads or writes.
    pub(crate) from: usize,
    /// The index of its first item among the items of the job.
    pub(crate) item: usize,
}

/// The telegrams in flight, in the order in which they were asked.
pub(crate) type Flights = ArrayVec<Flight, 8>;
