//! Status lists (SZL): the images of the lists that the server has, the fields that are read from images, and
//! images joined from their slices.
#![tactic(auto)]

mod join;
mod laws;
mod octets;
mod readers;
mod table;

pub use join::{SzlAdded, SzlJoin};
pub use laws::{joins_hold, pieces_join, refusals_are_exact, tables_are_exact, written_is_read};
pub use readers::{read_component, read_mode, read_order_code, read_pdu, read_protection};
pub use table::write_table;
