//! Tests of jobs that no script makes, and of clients over a second link.
use crate::exchange::{Form, Unmet, unmet};
use crate::rows::all_forms_hold;
use std::alloc::Global;

/// A connected client ends a job with this code and sends nothing. The next read succeeds.
const TURNED_DOWN: &str = "\
jobs 1 2 8
gives CONFIRM GRANTED READ_ANSWER
connect : 0
$1 : $2
read FOUR : 0 : 11223344
sent CONNECT SETUP READ
granted 480
open";

/// A job that sends nothing, and its code.
const BAD_JOBS: &str = "\
# a read of an unknown word
read 84.1.55.1.0 | 00500000
# a read of no elements
read 84.1.02.0.0 | 00200000
# a read of two bits
read 84.1.01.2.0 | 00200000
# a read past the addresses
read 84.1.02.2.16777208 | 00200000
# writes of an octet too few and too many
write FOUR = 112233 | 00200000
write FOUR = 1122334455 | 00200000
# an item longer than a telegram among others
readmany FOUR 84.1.02.480.0 | 00700000
# moments before 1990 and after 2089
setclock 631151999999 | 00200000
setclock 3786912000000 | 00200000
setclock 18446744073709551615 | 00200000
# an image of no octets
download | 00200000";

/// A connected client sends no connect.
const TWO_CONNECTS: &str = "\
jobs 1 2 8
most 1 3 8192
gives CONFIRM GRANTED READ_ANSWER
connect : 0
connect : 0
read FOUR : 0 : 11223344
sent CONNECT SETUP READ
granted 480
open";

/// More than twenty items.
const TWENTY_ONE_ITEMS: &str = "\
jobs 1 2 8
most 1 3 8192
gives CONFIRM GRANTED READ_ANSWER
connect : 0
readmany FOUR FOUR FOUR FOUR FOUR FOUR FOUR FOUR FOUR FOUR FOUR FOUR FOUR FOUR FOUR FOUR FOUR FOUR FOUR FOUR FOUR : \
  00400000
writemany FOUR FOUR FOUR FOUR FOUR FOUR FOUR FOUR FOUR FOUR FOUR FOUR FOUR FOUR FOUR FOUR FOUR FOUR FOUR FOUR FOUR \
  = : 00400000
read FOUR : 0 : 11223344
sent CONNECT SETUP READ
granted 480
open";

/// A job without items sends no telegram.
const NO_ITEMS: &str = "\
jobs 1 2 8
most 1 3 8192
gives CONFIRM GRANTED READ_ANSWER
connect : 0
readmany : 0
writemany = : 0
writemany = 00 : 00200000
read FOUR : 0 : 11223344
sent CONNECT SETUP READ
granted 480
open";

/// An unconnected client sends nothing.
const UNCONNECTED: &str = "\
jobs 1 2 8
most 1 3 8192
gives CONFIRM
read FOUR : 00010000
write FOUR = 11223344 : 00010000
readmany : 00010000
writemany = : 00010000
disconnect : 00010000
sent
granted none
open";

/// A read after a disconnect.
const READ_AFTER_DISCONNECT: &str = "\
jobs 1 2 8
most 1 3 8192
gives CONFIRM GRANTED READ_ANSWER
connect : 0
disconnect : 0
read FOUR : 00010000
sent CONNECT SETUP DISCONNECT
granted none
open";

/// A message that is no answer ends a read, which carries the message, and closes the client. The octets after it are
/// of no use. The client connects on a new link, where it begins anew.
const CARRIED: &str = "\
jobs 1 2 8
most 1 3 8192
gives CONFIRM GRANTED $1 $2 READ_AGAIN_ANSWER
connect : 0
read FOUR : 00800000 : : : $2
granted none
read FOUR : 00010000
closed
sent CONNECT SETUP READ
gives CONFIRM GRANTED READ_ANSWER
connect : 0
read FOUR : 0 : 11223344
granted 480
open
sent CONNECT SETUP READ";

/// The head, and the message.
const NO_ANSWERS: &str = "\
# another sequence
0300001d02f080 | 3203000000030002000800000401ff04002011223344
# another transport size
0300001d02f080 | 3203000000020002000800000401ff05002011223344
# ten octets of anything
0300001102f080 | 00010203040506070809";

/// A connected client carries out a job with this outcome, and a disconnect. The fields are the job, its request, the
/// answers, and the code and the octets.
const COMES_OFF: &str = "\
jobs 1 2 8
most 1 3 8192
gives CONFIRM GRANTED $3
connect : 0
$1 : $4
disconnect : 0
sent CONNECT SETUP $2 DISCONNECT
granted none
open";

/// An unknown kind of blocks, FF, with the greatest number and the id FF.
const ANY_KIND: &str = "\
listof ff | 0300001f02f080320700000002000800060001120411430200ff09000230ff | \
  0300002502f080320700000002000c0008000112081283020100000000ff09000400010105 | 0 : 00010105
upload ff 65535 | 0300002302f080320100000002001200001d00000000000000095f30ff363535333541 \
  0300001902f080320100000003000800001e000000000000ff 0300001902f080320100000004000800001f000000000000ff | \
  0300002302f0803203000000020010000000001d000000000000ff0730303030303031 \
  0300001a02f0803203000000030002000500001e00000100fba5 0300001402f0803203000000040001000000001f | 0 : a5
delete ff 65535 | 0300002b02f080320100000002001a000028000000000000fd000a010030ff363535333542055f44454c45 | \
  0300001502f0803203000000020002000000002800 | 0";

/// The forms.
const FORMS: &[Form] = &[
    ("", TURNED_DOWN, BAD_JOBS),
    ("", CARRIED, NO_ANSWERS),
    ("", COMES_OFF, ANY_KIND),
    ("", TWO_CONNECTS, "two connects"),
    ("", TWENTY_ONE_ITEMS, "twenty one items"),
    ("", NO_ITEMS, "no items"),
    ("", UNCONNECTED, "unconnected"),
    ("", READ_AFTER_DISCONNECT, "read after disconnect"),
];

/// The first row that doesn't hold. Only this function has the texts, so that its callers are cheap to prove.
fn unmet_row(alloc: Global) -> Option<Unmet> {
    unmet(alloc, FORMS)
}

/// Clients go on after jobs that send nothing, over a second link, and with a kind of blocks that is unknown.
#[test]
fn clients_go_on(rt: HostRuntime) {
    all_forms_hold(&rt, unmet_row(rt.alloc()));
}
