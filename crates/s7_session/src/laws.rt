//! Laws of what is judged.
ghost use Rattle.s7_session.specs.Spelled.{ReadsAreAsked, WritesAreAsked};

/// A law: take a link that negotiated a PDU, and a read telegram that is spelled as the standard has it. If the
/// telegram and its full answer fit the PDU, it is asked of the doer. So it is answered, item for item, unless the doer
/// has no room or an allocation fails.
pub fn spelled_reads_are_asked()
    ensures { ReadsAreAsked }
{}

/// A law: the same holds for a write telegram that has octets for each of its items.
pub fn spelled_writes_are_asked()
    ensures { WritesAreAsked }
{}
