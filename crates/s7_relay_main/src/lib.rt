//! What the program `s7relay` does: it serves windows on the areas of another server over one link.
#![tactic(auto)]

mod ended;
mod load;
mod near;
mod opening;
mod output;
mod relay;

pub use ended::RelayEnd;
pub use relay::relay_main;
