//! Tags: names for places in areas with the types of their values. Reads and writes these values as texts and as
//! octets.
#![tactic(auto)]

mod fault;
mod kind;
mod laws;
mod line;
mod numbers;
mod octets;
mod read;
mod shown;
mod strings;
mod tag;
mod texts;

pub use fault::{TagFault, TagFaultKind, ValueFault};
pub use kind::TagKind;
pub use laws::{tags_have_lines, values_answer, values_are_one};
pub use octets::octets_of;
pub use read::read_tags;
pub use shown::add_shown;
pub use tag::{Tag, Tags};
pub use texts::text_of;
