//! The octets of one link, for either side: the octets received and not used yet, what octets are read as, the
//! octets to be sent, and messages sent in fragments.
#![tactic(auto)]

mod found;
mod inbox;
mod laws;
mod limits;
mod message;
mod outbox;
mod reader;
mod sizes;
mod transport;

pub use found::{Found, Opening, ReadFault, Taken};
pub use inbox::{Inbox, PIECE};
pub use laws::{
    fragments_are_joined, limits_of_openings, numbers_of_readings, readers_end, reading_goes_on,
};
pub use limits::{FIRST_LIMIT, HEADERS, MESSAGE_LIMIT};
pub use message::{MOST_MESSAGE, MOST_PACKETS, put_message};
pub use outbox::Outbox;
pub use reader::Reader;
pub use sizes::tpdu_size;
