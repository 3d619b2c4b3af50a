//! Tests of a block of three fragments over a line that fails, or has nothing to give or no room, at each of its calls
//! in turn.
//!
//! The end of each receive lies somewhere in a packet, and the longer packets go in several transmits. A call is
//! numbered by the calls before it. The number of octets that are written by then shows whether it receives or
//! transmits: it transmits if more are written at the next call.
use crate::rows::all_forms_hold;
use crate::scene::{Form, Unmet, unmet};
use std::alloc::Global;

/// A call of the partner that sends fails. The partner closes with this number, its block isn't acknowledged, it has
/// written this number of octets, and it takes no other block.
const SENDING_FAILS: &str = "
    anew 64, moves 33, a gives 1 #60, fails $1 confirm granted_64 taken_1 taken_2 taken_3
    a closed $2, a closed $2, a outstanding 1, a gives 2 #1 closed
    began $3 request asked_64 piece_1 piece_2 piece_3
";

/// The same call waits. The octets are the same, and the end of the link is read after the last acknowledgement.
const SENDING_WAITS: &str = "
    anew 64, moves 33, a gives 1 #60, waits $1 confirm granted_64 taken_1 taken_2 taken_3
    a pending, a outstanding 1, a sent, a outstanding 0, a closed 00020000
    wrote request asked_64 piece_1 piece_2 piece_3
";

/// The calls of the partner that sends.
const SENDING: &str = "\
0 | 00090000 | 0
1 | 000a0000 | 22
2 | 00090000 | 22
3 | 000a0000 | 47
4 | 00090000 | 47
5 | 00090000 | 80
6 | 00090000 | 113
7 | 000a0000 | 118
8 | 00090000 | 118
9 | 00090000 | 151
10 | 00090000 | 184
11 | 000a0000 | 187
12 | 00090000 | 187
13 | 00090000 | 220
14 | 000a0000 | 232";

/// The call after the last acknowledgement waits, and fails. There is no call after the end of the link.
const SENT: &str = "
    anew 64, moves 33, a gives 1 #60, waits 15 confirm granted_64 taken_1 taken_2 taken_3
    a sent, a outstanding 0, a idle, a closed 00020000, wrote request asked_64 piece_1 piece_2 piece_3
    anew 64, moves 33, a gives 1 #60, fails 15 confirm granted_64 taken_1 taken_2 taken_3
    a sent, a outstanding 0, a closed 000a0000, wrote request asked_64 piece_1 piece_2 piece_3
    anew 64, moves 33, a gives 1 #60, fails 16 confirm granted_64 taken_1 taken_2 taken_3
    a sent, a outstanding 0, a closed 00020000, wrote request asked_64 piece_1 piece_2 piece_3
";

/// A call of the partner that receives fails. The partner closes with this number and delivers nothing, and has written
/// this number of octets.
const RECEIVING_FAILS: &str = "
    anew 64, moves 30, fails $1 request asked_64 piece_1 piece_2 piece_3
    b closed $2, b closed $2, b gives 1 #1 closed, began $3 confirm granted_64 taken_1 taken_2 taken_3
";

/// The same call waits. A poll has this event, and the next one delivers the block. The octets are the same.
const RECEIVING_WAITS: &str = "
    anew 64, moves 30, waits $1 request asked_64 piece_1 piece_2 piece_3
    b $4, b received 1 #60, b closed 00020000, wrote confirm granted_64 taken_1 taken_2 taken_3
";

/// The calls of the partner that receives. Polls are pending while the link is opened. After that the partner has
/// nothing of its own outstanding.
const RECEIVING: &str = "\
0 | 000a0000 | 0 | pending
1 | 00090000 | 0 | pending
2 | 000a0000 | 22 | pending
3 | 00090000 | 22 | idle
4 | 000a0000 | 49 | idle
5 | 000a0000 | 49 | idle
6 | 00090000 | 49 | idle
7 | 00090000 | 79 | idle
8 | 000a0000 | 82 | idle
9 | 000a0000 | 82 | idle
10 | 000a0000 | 82 | idle
11 | 00090000 | 82 | idle
12 | 00090000 | 112 | idle
13 | 000a0000 | 115 | idle";

/// A call fails, or waits, after the block was delivered.
const RECEIVED: &str = "
    anew 64, moves 30, fails $1 request asked_64 piece_1 piece_2 piece_3
    b received 1 #60, b closed $2, b closed $2, began $3 confirm granted_64 taken_1 taken_2 taken_3
    anew 64, moves 30, waits $1 request asked_64 piece_1 piece_2 piece_3
    b received 1 #60, b idle, b closed 00020000, wrote confirm granted_64 taken_1 taken_2 taken_3
";

/// The calls after the delivery. The last fragment is acknowledged in two transmits, and the end of the link is read
/// after them.
const ACKNOWLEDGING: &str = "\
14 | 00090000 | 115
15 | 00090000 | 145
16 | 000a0000 | 148";

/// There is no call after the end of the link.
const ACKNOWLEDGED: &str = "
    anew 64, moves 30, fails 17 request asked_64 piece_1 piece_2 piece_3
    b received 1 #60, b closed 00020000, wrote confirm granted_64 taken_1 taken_2 taken_3
";

/// The forms, and the rows of each.
const FORMS: &[Form] = &[
    (SENT, "sent"),
    (SENDING_FAILS, SENDING),
    (SENDING_WAITS, SENDING),
    (RECEIVING_FAILS, RECEIVING),
    (RECEIVING_WAITS, RECEIVING),
    (RECEIVED, ACKNOWLEDGING),
    (ACKNOWLEDGED, "acknowledged"),
];

/// The first row that doesn't hold. Only this function has the texts, so that its callers are cheap to prove.
fn unmet_row(alloc: Global) -> Option<Unmet> {
    unmet(alloc, FORMS)
}

/// A block is sent and received over a line that fails or waits at each of its calls.
#[test]
fn a_block_is_sent_and_received(rt: HostRuntime) {
    all_forms_hold(&rt, unmet_row(rt.alloc()));
}
