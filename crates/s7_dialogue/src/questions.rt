//! The questions of a job: their checks before anything is sent, and their messages.

pub(crate) mod checks;
pub(crate) mod left;
pub(crate) mod message;
pub(crate) mod password;
pub(crate) mod requests;
pub(crate) mod subject;
