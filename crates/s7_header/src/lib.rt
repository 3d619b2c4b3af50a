//! S7 messages: their headers, the negotiation of a link's PDU and jobs, and the parameters of user data. Each of
//! these is read exactly if the octets spell it, and what is written is read again.
#![tactic(auto)]

mod faults;
mod header;
mod laws;
mod negotiation;
mod octets;
mod user_params;

pub use faults::{BadParams, HeaderFault, TooSmall};
pub use header::{Header, Kind, parts, read_header, write_header, write_refusal};
pub use laws::{header_reading, negotiation_reading, user_reading};
pub use negotiation::{
    LEAST_PDU, MOST_JOBS, MOST_PDU, Negotiation, grant, read_negotiate, write_negotiate,
};
pub use user_params::{UserParams, read_user, write_user};
