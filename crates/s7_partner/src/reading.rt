//! Reading the octets of a link one by one.
ghost use Rattle.std.specs.Prelude.{◌<◌, length};
ghost use Rattle.s7_partner.specs.Octet.{HasReadSome, ReadsOctet};

use s7_wire::{Found, Inbox, Reader};

/// Reads the next octet of the inbox, and returns what it has ended. So no octet after an event is used before the
/// telegrams that follow from the event are sent. After the end of the link no octet is used.
pub(crate) fn read_octet(reader: &mut Reader, inbox: &mut Inbox) -> Found
    requires some { 0 < length inbox.old }
    requires read { HasReadSome reader.old }
    ensures { ReadsOctet reader.old reader.new inbox.old inbox.new result }
{
    let taken = reader.read(&inbox.as_slice()[..1]);
    inbox.advance(taken.octets);
    taken.found
}
