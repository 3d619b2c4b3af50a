//! Partners: the two ends of a link over which they send each other blocks.
#![tactic(auto)]

mod event;
mod exchange;
mod laws;
mod message;
mod opening;
mod partner;
mod polls;
mod reading;
mod role;
mod size;
mod step;
mod telegrams;

pub use event::{PartnerEvent, SendFault};
pub use laws::{blocks_are_delivered, sent_are_handed_out};
pub use partner::Partner;
pub use role::Role;
