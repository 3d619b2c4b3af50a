//! Many links on one book. Each link's doer takes its turn at a hall, and the requests of all links enter one history.
#![tactic(auto)]

mod bench;
mod doors;
mod hall_bench;
mod hall_doer;
mod hosted;
mod hosting;
mod keeper;
mod laws;
mod served;
mod work;
mod worker;

pub use bench::Bench;
pub use doors::serve_door;
pub use hall_bench::HallBench;
pub use hall_doer::HallDoer;
pub use hosted::{Hosted, NotHosted};
pub use keeper::Keeper;
pub use laws::{
    grants_are_bounded, legal_telegrams_found_their_calls, spelled_reads_are_answered,
    spelled_writes_are_answered, telegrams_found_a_full_history,
};
pub use served::Served;
pub use worker::serve_link;
