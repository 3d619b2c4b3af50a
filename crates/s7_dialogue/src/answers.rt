//! Answers to telegrams, and their effect on a job.

pub(crate) mod answer;
pub(crate) mod codes_list;
pub(crate) mod collect;
pub(crate) mod data_items;
pub(crate) mod taking;
