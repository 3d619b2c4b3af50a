//! What the programs share: their words and statuses, the lines that they print about the links that they served and
//! about what failed, and how they print them.
#![tactic(auto)]

mod entry;
mod lines;
mod output;
mod statuses;

pub use entry::{exit_code, lent_words, own_words};
pub use lines::{file_line, journal_line, line_with, outcome_text};
pub use output::{print_as, print_line};
pub use statuses::{DONE, FILE, JOBS, MEMORY, OUTPUT, REFUSED, UNREACHED, USAGE};
