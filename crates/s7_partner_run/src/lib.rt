//! Partners that send the blocks of sends files: two in memory, turn by turn, or one over a link.
#![tactic(auto)]

mod alone;
mod event;
mod pair;
mod runs;
mod talker;
mod text;

pub use alone::{TalkEnd, talk};
pub use event::{News, PairEvent};
pub use pair::PairEnd;
pub use runs::run_pair;
pub use talker::Talker;
pub use text::pair_text;
