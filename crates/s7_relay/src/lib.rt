//! Windows on areas of another server: near areas that are parts of far ones, and a doer that asks that server, as its
//! client, what a link asks of items in windows.
#![tactic(auto)]

mod errors;
mod far;
mod far_job;
mod fault;
mod laws;
mod line;
mod near;
mod passage;
mod read;
mod relay_doer;
mod reply;
mod windows;

pub use fault::{WindowFault, WindowKind};
pub use laws::{
    far_items_lie, far_jobs_pass_checks, files_are_one, late_answers_have_causes,
    lost_links_have_causes, near_codes_are_codes, windows_have_texts,
};
pub use near::{NearCodes, far_item, near_code, near_codes, near_put_code, put_codes};
pub use passage::{Passage, Relayed};
pub use read::read_windows;
pub use relay_doer::RelayDoer;
pub use windows::{Window, Windows};
