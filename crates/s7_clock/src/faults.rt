//! Why octets are refused.

/// The octets aren't a date and time.
#[derive(Clone, Copy, Debug, PartialEq, Eq)]
pub struct NotDate;

/// The parameters aren't those of a control.
#[derive(Clone, Copy, Debug, PartialEq, Eq)]
pub struct BadParams;
