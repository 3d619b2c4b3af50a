//! Area files: read, written and opened.

pub(crate) mod area_line;
pub(crate) mod fault;
pub(crate) mod guard_line;
pub(crate) mod load;
pub(crate) mod octet_lines;
pub(crate) mod opening;
pub(crate) mod read;
pub(crate) mod run_line;
pub(crate) mod version;
pub(crate) mod write;
