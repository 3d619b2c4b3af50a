//! Blocks of a controller and their transfers: heads, names, a store of blocks, names with numbers, and both sides
//! of uploads and of downloads.
#![tactic(auto)]

mod assembly;
mod block;
mod blocks;
mod client;
mod download;
mod head;
pub mod kinds;
mod laws;
mod marks;
mod name;
mod numbers;
mod upload;

pub use assembly::Added;
pub use block::{Block, BlockFault, BlockName};
pub use blocks::Blocks;
pub use client::BlockClient;
pub use download::DownloadSide;
pub use head::{db_head, head_agrees};
pub use laws::{heads_are_read, names_are_read, one_name_changes, pieces_are_joined, slices_join};
pub use marks::{Mark, Marks};
pub use name::{NAME, read_digits, read_name, write_digits, write_name};
pub use numbers::Numbers;
pub use upload::{Slice, UploadSide};
