//! Long items split into parts, and lists of items packed into telegrams, so that no telegram is
//! longer than the PDU length.
#![tactic(auto)]

mod fits;
mod groups;
mod laws;
mod packing;
mod part_list;
mod splitting;

pub use groups::Groups;
pub use laws::{ends_cut_groups, groups_are_exact, parts_are_exact, parts_can_be_asked};
pub use packing::{PackFault, pack};
pub use part_list::Parts;
pub use splitting::parts;
