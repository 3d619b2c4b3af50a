//! How a job begins, and what it does after each answer.

pub(crate) mod asking;
pub(crate) mod flight;
pub(crate) mod progress;
pub(crate) mod running;
pub(crate) mod single;
pub(crate) mod starting;
