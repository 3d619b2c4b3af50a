//! Scripts: their lines, and the jobs that the lines name.

pub(crate) mod block_line;
pub(crate) mod data_line;
pub(crate) mod item_text;
pub(crate) mod reading;
pub(crate) mod script_fault;
pub(crate) mod script_line;
pub(crate) mod script_list;
pub(crate) mod tag_line;
pub(crate) mod written;
