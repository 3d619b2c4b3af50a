//! The plant: what clients ask of it, what it answers, and how its areas, its blocks, its clock and its run state
//! change. The book is a plant with the journal that led to it and with observers that are notified of each entry.
#![tactic(auto)]

mod blocks;
mod book;
mod clock;
pub mod codes;
mod data_item;
mod event;
mod image;
mod images;
mod journal;
mod laws;
mod lists;
mod observer;
mod plant;
mod reply;
mod request;
mod status;
mod steps;
mod watcher;
mod write;

pub use book::Book;
pub use data_item::add_octets;
pub use event::Event;
pub use journal::{Entry, Journal};
pub use laws::{calls_lead_the_same, kept_requests_are_the_same, replay_goes_on};
pub use observer::{Observer, Tail};
pub use plant::{MOST_BLOCKS, Plant};
pub use reply::{BODY_ROOM, PARAMS_ROOM, Reply};
pub use request::{Ask, Request};
pub use steps::Steps;
pub use watcher::Watcher;
