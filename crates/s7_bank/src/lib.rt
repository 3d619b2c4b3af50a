//! Banks: areas are divided among them by their names, and each bank has a hall with a machine of its own. A caller has
//! a seat at each bank.
#![tactic(auto)]

mod bank;
mod banks;
mod books;
mod dividing;
mod laws;
mod opening;
mod seat;
mod sharing;

pub use bank::{bank_of_item, bank_of_key};
pub use banks::Banks;
pub use laws::closed_banks_are_legal;
pub use seat::BankSeat;
