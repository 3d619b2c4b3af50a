//! Octets that are sent or received in several telegrams: user data, uploads, downloads, whole data blocks.

pub(crate) mod data_block;
pub(crate) mod download;
pub(crate) mod upload;
pub(crate) mod user_data;
