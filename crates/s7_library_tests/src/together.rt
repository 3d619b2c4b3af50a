//! Tests of two partners that send blocks to one another. Each line of a text is their steps, as `scene` reads them.
use crate::rows::all_forms_hold;
use crate::scene::{Form, Unmet, unmet};
use std::alloc::Global;

/// The link is opened, and blocks are sent.
const ONE_BY_ONE: &str = "
    # A block of 1,000 octets goes in packets of fragments with 444, 444 and 112 octets, and each is acknowledged in
    # one of 33.
    anew 480, a pending, b pending, a pending, b idle, a idle, a gives 1 #1000
    a pending, b holds 487, b idle, a holds 33, a gives 1 #1 busy
    a pending, b holds 485, b idle, a holds 33
    a pending, b holds 153, b received 1 #1000, a pending, b idle, a sent

    # Sends are numbered from 1 to 255.
    anew 64, a pending, b pending, a pending, b idle, a idle
    257 times: a gives 7 0102, a pending, b received 7 0102, b idle, a sent

    # Blocks of each length go to the active partner: all fragments but the last one, and that one.
    anew 64, a pending, b pending, a pending, b idle, a idle, b gives 4294967295 #1
    b pending, a received 4294967295 #1, a idle, b sent
    anew 64, a pending, b pending, a pending, b idle, a idle, b gives 4294967295 #28
    b pending, a received 4294967295 #28, a idle, b sent
    anew 64, a pending, b pending, a pending, b idle, a idle, b gives 4294967295 #29
    1 times: b pending, a idle
    b pending, a received 4294967295 #29, a idle, b sent
    anew 64, a pending, b pending, a pending, b idle, a idle, b gives 4294967295 #444
    15 times: b pending, a idle
    b pending, a received 4294967295 #444, a idle, b sent
    anew 64, a pending, b pending, a pending, b idle, a idle, b gives 4294967295 #445
    15 times: b pending, a idle
    b pending, a received 4294967295 #445, a idle, b sent
    anew 64, a pending, b pending, a pending, b idle, a idle, b gives 4294967295 #65535
    2340 times: b pending, a idle
    b pending, a received 4294967295 #65535, a idle, b sent
    anew 480, a pending, b pending, a pending, b idle, a idle, b gives 4294967295 #1
    b pending, a received 4294967295 #1, a idle, b sent
    anew 480, a pending, b pending, a pending, b idle, a idle, b gives 4294967295 #444
    b pending, a received 4294967295 #444, a idle, b sent
    anew 480, a pending, b pending, a pending, b idle, a idle, b gives 4294967295 #445
    1 times: b pending, a idle
    b pending, a received 4294967295 #445, a idle, b sent
    anew 480, a pending, b pending, a pending, b idle, a idle, b gives 4294967295 #65535
    147 times: b pending, a idle
    b pending, a received 4294967295 #65535, a idle, b sent
    anew 1920, a pending, b pending, a pending, b idle, a idle, b gives 4294967295 #1
    b pending, a received 4294967295 #1, a idle, b sent
    anew 1920, a pending, b pending, a pending, b idle, a idle, b gives 4294967295 #444
    b pending, a received 4294967295 #444, a idle, b sent
    anew 1920, a pending, b pending, a pending, b idle, a idle, b gives 4294967295 #445
    b pending, a received 4294967295 #445, a idle, b sent
    anew 1920, a pending, b pending, a pending, b idle, a idle, b gives 4294967295 #1884
    b pending, a received 4294967295 #1884, a idle, b sent
    anew 1920, a pending, b pending, a pending, b idle, a idle, b gives 4294967295 #1885
    1 times: b pending, a idle
    b pending, a received 4294967295 #1885, a idle, b sent
    anew 1920, a pending, b pending, a pending, b idle, a idle, b gives 4294967295 #65535
    34 times: b pending, a idle
    b pending, a received 4294967295 #65535, a idle, b sent
";

/// Both partners send at the same time.
const AT_ONCE: &str = "
    # Both are given a block before the link is opened, and both blocks come.
    anew 64, a gives 1 #100, b gives 2 #99
    20 times: a turns, b turns
    a acknowledged 1, a took 1, b acknowledged 1, b took 1, a idle, b idle

    # Turns are drawn. The room of each pipe is for one fragment, of at most 71 octets with its packet's header, for one
    # and a part of an acknowledgement, and for all.
    anew 64 71, draws 1, a acknowledged 30, a took 30, b acknowledged 30, b took 30
    anew 64 90, draws 2, a acknowledged 30, a took 30, b acknowledged 30, b took 30
    anew 64, draws 3, a acknowledged 30, a took 30, b acknowledged 30, b took 30
";

/// The texts.
const FORMS: &[Form] = &[(ONE_BY_ONE, "one by one"), (AT_ONCE, "at once")];

/// The first row that doesn't hold. Only this function has the texts, so that its callers are cheap to prove.
fn unmet_row(alloc: Global) -> Option<Unmet> {
    unmet(alloc, FORMS)
}

/// Blocks of each length come whole, one by one and at the same time.
#[test]
fn blocks_come_whole(rt: HostRuntime) {
    all_forms_hold(&rt, unmet_row(rt.alloc()));
}
