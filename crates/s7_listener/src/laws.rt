//! Laws of links that were served.
ghost use Rattle.s7_listener.specs.Complete.{GrantsAreBounded, ReadsAreAnswered, WritesAreAnswered};
ghost use Rattle.s7_listener.specs.Found.{FoundIsFull, LegalIsFound};

/// A law: take a history that is legal for a link. In the order of the link's telegrams, each telegram that was entered
/// found the calls before its entry. Each one that was refused for lack of room found as many calls as the limit says.
pub fn legal_telegrams_found_their_calls()
    ensures { LegalIsFound }
{}

/// A law: conversely, take a history that has room for its calls, and in which the telegrams of a link found such
/// calls. If one was refused for lack of room, the history is full in the end, and none was entered after that one. So
/// this is all that a legal history says of refused telegrams.
pub fn telegrams_found_a_full_history()
    ensures { FoundIsFull }
{}

/// A law: a link that begins without a PDU is never granted one above the greatest PDU, which is 1,920 octets.
pub fn grants_are_bounded()
    ensures { GrantsAreBounded }
{}

/// A law: take a read telegram of a served link, spelled as the standard has it, on a link that negotiated. Let the
/// telegram and its full answer fit the PDU, which is at most 1,920 octets if the link began with one. Then the history
/// has its call, unless a transmit failed or the history is full. Each item is answered by the areas as the calls before
/// left them: with FF and its octets if it is in range and the link may read it.
pub fn spelled_reads_are_answered()
    ensures { ReadsAreAnswered }
{}

/// A law: the same holds for a write telegram that has octets for each of its items, unless an allocation failed. Each
/// item has the return code of its write, after the writes before it: FF if it is in range, has as many octets, and the
/// link may write it.
pub fn spelled_writes_are_answered()
    ensures { WritesAreAnswered }
{}
