//! Items and data items of read and write telegrams: the table of word lengths, lists of at most twenty items, and
//! writing, reading and measuring items and their octets.
#![tactic(auto)]

pub mod codes;
mod data_item;
mod item;
mod items;
mod laws;
mod numbers;
mod params;
mod places;
mod read_data;
mod sizes;
mod word;
mod write_data;

pub use data_item::{carries, is_good, padding_of, stated_length};
pub use item::Item;
pub use items::{Items, MOST_ITEMS};
pub use laws::{
    data_items_are_exact, data_items_read_back, items_are_exact, items_read_back, sizes_are_lengths,
};
pub use params::{ItemFault, read_items, write_items};
pub use places::{BoxedDataItems, DataItems, DataPlace};
pub use read_data::{DataFault, read_data_items};
pub use sizes::{answer_size, request_size};
pub use word::{size_of, transport_of};
pub use write_data::write_data_item;
