//! The text files: area files name areas, their octets and a guard; scripts name jobs; sends files name blocks to send.
#![tactic(auto)]

mod areas;
mod laws;
mod print;
mod scripts;
mod sends;
mod tag_print;

pub use areas::fault::{AreasFault, AreasKind};
pub use areas::load::{LoadFault, load_areas};
pub use areas::read::read_areas;
pub use areas::write::write_areas;
pub use laws::{
    areas_migrate, ends_print, scripts_are_spelled, scripts_keep_links, scripts_read_back,
    sends_read_back,
};
pub use print::print_result;
pub use scripts::reading::{read_script, read_tag_script};
pub use scripts::script_fault::{ScriptFault, ScriptKind};
pub use scripts::script_list::{Script, ScriptLine};
pub use sends::read_sends;
pub use sends::send_list::{SendLine, Sends};
pub use tag_print::print_tag;
