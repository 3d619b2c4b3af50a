//! Laws of a pair of partners. They do nothing at run time.
ghost use Rattle.s7_partner.specs.Pairs.{BlocksAreDelivered, SentAreHandedOut};

/// A law: of two partners over one link, each hands out a prefix of the blocks that the other was given to send,
/// octet for octet and in order.
pub fn blocks_are_delivered()
    ensures { BlocksAreDelivered }
{}

/// A law: if a partner has reported n blocks as sent, the other one has handed out the first n blocks that it was
/// given.
pub fn sent_are_handed_out()
    ensures { SentAreHandedOut }
{}
