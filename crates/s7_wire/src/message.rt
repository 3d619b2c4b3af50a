//! Messages that are sent in fragments.
ghost use Rattle.std.specs.Prelude.{◌≡◌, ◌+◌, ◌≤◌, ◌++◌, length};
ghost use Rattle.s7_wire.specs.Bounds.{most_sent, most_packets};
ghost use Rattle.s7_wire.specs.Sent.{sent_message, fragment_octets};

use crate::outbox::Outbox;
use s7_cotp::{fragments, write_data};

/// The greatest number of octets of a message that is sent.
pub const MOST_MESSAGE: usize = 1_920;

/// The greatest number of octets of such a message in its packets, at the TPDU size 128.
pub const MOST_PACKETS: usize = 2_032;

/// The length of a data TPDU's header.
const DATA_HEADER: usize = 3;

/// Queues a message of at most 1,920 octets after what is to be sent, in as many fragments as the TPDU size needs,
/// each in a packet (ISO 8073, 13.7; RFC 1006, section 6).
///
/// The TPDU size is from 128 to 8,192, the header's three octets included. The packets have at most 2,032 octets:
/// at the size 128 a fragment has at most 125 octets of the message, and its packet has 7 more.
pub fn put_message(outbox: &mut Outbox, size: u16, message: &[u8])
    requires least { 128 ≤ size }
    requires most { size ≤ 8192 }
    requires fits { length message.now ≤ most_sent }
    requires room { most_packets ≤ outbox.old.room }
    ensures unsent { outbox.new.unsent ≡ outbox.old.unsent ++ sent_message size message.now }
    ensures room { outbox.new.room + length (sent_message size message.now) ≡ outbox.old.room }
    ensures most { length (sent_message size message.now) ≤ most_packets }
{
    for (start, end) in fragments(message.len(), usize::from(size)) {
        put_fragment(outbox, message, start, end);
    }
}

/// Queues the packet with the message's octets from `start` to `end`.
fn put_fragment(outbox: &mut Outbox, message: &[u8], start: usize, end: usize)
    requires order { start ≤ end }
    requires within { end ≤ length message.now }
    requires fits { length message.now ≤ most_sent }
    requires room { length (fragment_octets message.now (start, end)) ≤ outbox.old.room }
    ensures unsent { outbox.new.unsent ≡ outbox.old.unsent ++ fragment_octets message.now (start, end) }
    ensures room { outbox.new.room + length (fragment_octets message.now (start, end)) ≡ outbox.old.room }
{
    let mut tpdu = [0u8; MOST_MESSAGE + DATA_HEADER];
    let len = write_data(end == message.len(), &message[start..end], &mut tpdu);
    outbox.put(&tpdu[..len]);
}
