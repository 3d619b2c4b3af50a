//! A gate: it may delay a caller.
use std::sync::Wait;

/// Each request of a link passes here before it is entered in the history. A gate changes nothing that a contract sees.
pub trait Gate {
    /// Returns when the request may go on. `link` is the link's number. `ordinal` is the number of this link's
    /// requests that were entered before.
    fn pass<R: Wait>(&self, rt: &R, link: u32, ordinal: u64);
}

/// A gate that never delays a request.
#[derive(Clone, Copy, Debug)]
pub struct OpenGate;

impl Gate for OpenGate {
    fn pass<R: Wait>(&self, rt: &R, link: u32, ordinal: u64) {}
}
