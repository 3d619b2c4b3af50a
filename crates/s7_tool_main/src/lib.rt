//! What the program `s7tool` does: it runs scripts against controllers and in rigs, and partners that send blocks.
#![tactic(auto)]

mod ended;
mod head;
mod load;
mod made;
mod output;
mod rigs;
mod scripts;
mod tool;

pub use ended::{RunEnd, ToolEnd};
pub use head::Head;
pub use made::made_scripts::made_scripts;
pub use rigs::rig_report::{are_good, rig_text};
pub use tool::tool_main;
