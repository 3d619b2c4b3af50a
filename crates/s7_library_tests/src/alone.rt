//! Tests of one partner over a line. Each line of a text is steps of an active partner `a` or a passive one `b`, as
//! `scene` reads them.
use crate::rows::all_forms_hold;
use crate::scene::{Form, Unmet, unmet};
use std::alloc::Global;

/// Blocks that a partner doesn't take.
const REFUSED: &str = "
    anew 480, a gives 1 #0 size, a gives 1 #65536 size, a gives 1 #65535, a gives 1 #1 busy, a gives 1 #0 busy

    # One that is closed takes no block.
    anew 480, a gives 1 #65535, reads request, a polls 9, a closed 00010000, a gives 1 #0 closed
";

/// The octets that a partner with a block reads, and the number with which it closes.
const CLOSING: &str = "
    # The end of the link: before the opening, in it and behind it.
    anew 480, a gives 1 aabbcc, reads, a polls 9, a closed 00020000
    anew 480, a gives 1 aabbcc, reads confirm, a polls 9, a closed 00020000
    anew 480, b gives 1 aabbcc, reads request asked fragment, b polls 9, b closed 00020000
    anew 480, a gives 1 aabbcc, reads confirm granted taken, a polls 9, a closed 00020000
    # What doesn't belong there.
    anew 480, a gives 1 aabbcc, reads request, a polls 9, a closed 00010000
    anew 480, b gives 1 aabbcc, reads confirm, b polls 9, b closed 00010000
    anew 480, b gives 1 aabbcc, reads leaves, b polls 9, b closed 00010000
    anew 480, a gives 1 aabbcc, reads confirm request, a polls 9, a closed 00030000
    anew 480, b gives 1 aabbcc, reads request asked request, b polls 9, b closed 00030000
    anew 480, b gives 1 aabbcc, reads 04, b polls 9, b closed 00030000
    anew 480, b gives 1 aabbcc, reads 03002008, b polls 9, b closed 00080000
    anew 480, a gives 1 aabbcc, reads rejects, a polls 9, a closed 00010000
    anew 480, a gives 1 aabbcc, reads confirm rejects, a polls 9, a closed 00030000
    anew 480, a gives 1 aabbcc, reads confirm granted confirm, a polls 9, a closed 00030000
    anew 480, b gives 1 aabbcc, reads request asked begun rejects, b polls 9, b closed 00030000
    anew 480, b gives 1 aabbcc, reads request asked begun confirm, b polls 9, b closed 00030000
    anew 480, b gives 1 aabbcc, reads request asked begun request, b polls 9, b closed 00030000
    # A disconnect request.
    anew 480, a gives 1 aabbcc, reads confirm leaves, a polls 9, a closed 00020000
    anew 480, b gives 1 aabbcc, reads request asked leaves, b polls 9, b closed 00020000
    anew 480, b gives 1 aabbcc, reads request asked begun leaves, b polls 9, b closed 00020000
    # Messages: the negotiation, and then fragments and their acknowledgements.
    anew 480, b gives 1 aabbcc, reads request short, b polls 9, b closed 00060000
    anew 480, b gives 1 aabbcc, reads request asked short, b polls 9, b closed 00060000
    anew 480, b gives 1 aabbcc, reads request fragment, b polls 9, b closed 00100000
    anew 480, b gives 1 aabbcc, reads request too_small, b polls 9, b closed 00100000
    anew 480, a gives 1 aabbcc, reads confirm asked, a polls 9, a closed 00800000
    anew 480, a gives 1 aabbcc, reads confirm granted taken_other, a polls 9, a closed 00800000
    anew 480, a gives 1 aabbcc, reads confirm granted taken_second, a polls 9, a closed 00800000
    anew 480, a gives 1 aabbcc, reads confirm granted taken taken, a polls 9, a closed 00800000
    anew 480, a gives 1 aabbcc, reads confirm taken, a polls 9, a closed 00800000
    anew 480, b gives 1 aabbcc, reads request taken, b polls 9, b closed 00100000
    anew 480, b gives 1 aabbcc, reads request asked passing, b polls 9, b closed 00800000
    anew 480, b gives 1 aabbcc, reads request asked asked, b polls 9, b closed 00800000
    anew 480, b gives 1 aabbcc, reads request asked ended, b polls 9, b closed 00800000
    anew 480, b gives 1 aabbcc, reads request asked begun fragment, b polls 9, b closed 00800000
    anew 480, b gives 1 aabbcc, reads request asked begun of_another_send, b polls 9, b closed 00800000
    anew 480, b gives 1 aabbcc, reads request asked begun of_another_block, b polls 9, b closed 00800000
    anew 480, b gives 1 aabbcc, reads request asked begun too_few, b polls 9, b closed 00800000
    anew 480, b gives 1 aabbcc, reads request asked begun none_and_more, b polls 9, b closed 00800000

    # The line's call behind so many fails: the request goes out, then all is received, the negotiation and the
    # fragment go out, and behind the acknowledgement of the fragment that came the end is received.
    anew 480, a gives 1 aabbcc, fails 0 confirm granted taken fragment, a polls 9, a closed 00090000
    anew 480, a gives 1 aabbcc, fails 1 confirm granted taken fragment, a polls 9, a closed 000a0000
    anew 480, a gives 1 aabbcc, fails 2 confirm granted taken fragment, a polls 9, a closed 00090000
    anew 480, a gives 1 aabbcc, fails 3 confirm granted taken fragment, a polls 9, a closed 00090000
    anew 480, a gives 1 aabbcc, fails 4 confirm granted taken fragment, a polls 9, a closed 00090000
    anew 480, a gives 1 aabbcc, fails 5 confirm granted taken fragment, a polls 9, a closed 000a0000
    anew 480, a gives 1 aabbcc, fails 6 confirm granted taken fragment, a polls 9, a closed 00020000
";

/// The events of a partner, and the octets that it writes.
const TOLD: &str = "
    # An active partner, and a passive one.
    anew 480, a gives 1 aabbcc, reads confirm granted taken fragment
    a sent, a received 1 aabbcc, a closed 00020000, wrote request asked fragment taken
    anew 480, reads request asked fragment
    b received 1 aabbcc, b closed 00020000, wrote confirm granted taken

    # Fragments are joined. The last one is acknowledged by the poll behind the one that hands the block out. That poll
    # reads that nothing was sent that is acknowledged.
    anew 480, reads request asked begun ended taken
    b received 1 aabbccdd, wrote confirm granted taken
    b closed 00800000, wrote confirm granted taken taken_third

    # The line's call behind so many has nothing to give, or no room. While the block isn't acknowledged that is
    # pending, and behind the block that was received all is idle. The octets are the same.
    anew 480, a gives 1 aabbcc, waits 0 confirm granted taken fragment
    a pending, a sent, a received 1 aabbcc, a closed 00020000, wrote request asked fragment taken
    anew 480, a gives 1 aabbcc, waits 1 confirm granted taken fragment
    a pending, a sent, a received 1 aabbcc, a closed 00020000, wrote request asked fragment taken
    anew 480, a gives 1 aabbcc, waits 2 confirm granted taken fragment
    a pending, a sent, a received 1 aabbcc, a closed 00020000, wrote request asked fragment taken
    anew 480, a gives 1 aabbcc, waits 3 confirm granted taken fragment
    a pending, a sent, a received 1 aabbcc, a closed 00020000, wrote request asked fragment taken
    anew 480, a gives 1 aabbcc, waits 4 confirm granted taken fragment
    a sent, a received 1 aabbcc, a idle, a closed 00020000, wrote request asked fragment taken
    anew 480, a gives 1 aabbcc, waits 5 confirm granted taken fragment
    a sent, a received 1 aabbcc, a idle, a closed 00020000, wrote request asked fragment taken
";

/// The texts.
const FORMS: &[Form] = &[(REFUSED, "refused"), (CLOSING, "closing"), (TOLD, "told")];

/// The first row that doesn't hold. Only this function has the texts, so that its callers are cheap to prove.
fn unmet_row(alloc: Global) -> Option<Unmet> {
    unmet(alloc, FORMS)
}

/// Partners refuse blocks, close and report events as the texts say.
#[test]
fn partners_refuse_close_and_tell(rt: HostRuntime) {
    all_forms_hold(&rt, unmet_row(rt.alloc()));
}
