//! The command lines of the programs. Options are in GNU form: `--name VALUE` or `--name=VALUE`, at most once each,
//! before, between or after the operands; `--` ends them.
#![tactic(auto)]

mod command;
mod partner;
mod partner_words;
mod relay;
mod relay_words;
mod rig;
mod rig_words;
mod run_words;
mod server;
mod tool;
mod turns;

pub use partner_words::PartnerWords;
pub use relay::read_relay_words;
pub use relay_words::RelayWords;
pub use rig_words::RigWords;
pub use run_words::RunWords;
pub use server::{ServerWords, read_server_words};
pub use tool::{ToolWords, read_tool_words};
