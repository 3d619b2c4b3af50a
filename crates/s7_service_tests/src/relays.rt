//! Links over windows on another server: what each telegram is answered, what is asked far, and what is kept.
ghost use Rattle.std.specs.Prelude.{IfSome};
ghost use Rattle.std.specs.Str.{IsUtf8};

use crate::passages::{is_answer, is_passed, is_request_of};
use crate::rows::all_hold;
use crate::sessions::{
    CONFIRM, CONNECT, GRANTED, Line, READ, READ_ANSWER, READ_FULL, SETUP, STOP, a_line, is_written,
    octets_of,
};
use s7_client::Config;
use s7_memory::{FailingLink, Fate, MemoryDial, MemoryLink};
use s7_outer::Octets;
use s7_relay::{Passage, RelayDoer, Relayed, read_windows};
use s7_session::{Outcome, Session};
use std::alloc::Global;
use std::sync::Wait;
use std::time::Clock;

/// Data block 1 is a part of the far data block 7.
const WINDOWS: &str = "DB1 4 = DB7 10";

/// A part that is longer than an answer in a PDU of 64.
const LONG: &str = "DB1 100 = DB7 10";

/// The far negotiation of a PDU of 480, and its grant.
const FAR_SETUP: &str = "32010000000100080000F0000001000101E0";

const FAR_GRANTED: &str = "320300000001000800000000F0000001000101E0";

/// A grant of a PDU of 64.
const FAR_GRANTED_64: &str = "320300000001000800000000F000000100010040";

/// The near read asked far, the same read once more, its answer, and the answer to the second one.
const FAR_READ: &str = "320100000002000E00000401120A10020004000784000050";

const NEXT_FAR_READ: &str = "320100000003000E00000401120A10020004000784000050";

const FAR_ANSWER: &str = "3203000000020002000800000401FF04002011223344";

const OTHER_ANSWER: &str = "3203000000030002000800000401FF04002011223344";

/// An answer whose item has the code 00, and what is answered near.
const FAR_ANSWER_00: &str = "320300000002000200040000040100000000";

const READ_ANSWER_00: &str = "320300000005000200040000040100000000";

/// A read of data block 2, which no window has, and its answer.
const READ_2: &str = "320100000005000E00000401120A10020004000284000000";

const READ_2_ANSWER: &str = "32030000000500020004000004010A000000";

/// A read of both data blocks, and its answer.
const READ_BOTH: &str = "320100000005001A00000402120A10020004000284000000120A10020004000184000000";

const BOTH_ANSWER: &str = "3203000000050002000C000004020A000000FF04002011223344";

/// A read of 60 octets of data block 1.
const READ_60: &str = "320100000005000E00000401120A1002003C000184000000";

/// A write of two octets, and its answer: near and far.
const WRITE: &str = "320100000006000E00060501120A1002000200018400000000040010AABB";

const WRITTEN: &str = "3203000000060002000100000501FF";

const FAR_WRITE: &str = "320100000002000E00060501120A1002000200078400005000040010AABB";

const FAR_WRITTEN: &str = "3203000000020002000100000501FF";

/// Two areas whose far parts share two octets, a read of both, and its answer: near and far.
const OVERLAPPING: &str = "DB1 4 = DB7 10\nMK 4 = DB7 12";

const READ_SHARED: &str =
    "320100000005001A00000402120A10020004000184000000120A10020004000083000000";

const SHARED_ANSWER: &str = "3203000000050002001000000402FF04002011223344FF04002033445566";

const FAR_READ_SHARED: &str =
    "320100000002001A00000402120A10020004000784000050120A10020004000784000060";

const FAR_SHARED_ANSWER: &str = "3203000000020002001000000402FF04002011223344FF04002033445566";

/// Fragments without octets. The next message is their last one.
const EMPTY_63: &str = "0300000702F000*63";

const EMPTY_64: &str = "0300000702F000*64";

/// A near negotiation of a PDU of 480, and its grant.
const LONG_SETUP: &str = "32010000000400080000F0000001000101E0";

const LONG_GRANTED: &str = "320300000004000800000000F0000001000101E0";

/// A read of twenty octets, of which every other one has no window, and its answer: near and far.
const READ_20: &str =
    "32010000000500F200000414.120A10020001000284000000120A10020001000184000000*10";

const ANSWER_20: &str = "3203000000050002006300000414.0A000000FF040008AA00*9.0A000000FF040008AA";

const FAR_READ_10: &str = "320100000002007A0000040A.120A10020001000784000050*10";

const FAR_ANSWER_10: &str = "3203000000020002003B0000040A.FF040008AA00*9.FF040008AA";

/// A write of two items of twenty octets, which a PDU of 64 has no room for together, and its refusal.
const WRITE_TWO: &str = "320100000006001A00300502120A10020014000184000000120A100200140001840000A0\
    .000400A0.AB*20.000400A0.CD*20";

const WRITE_TOO_LONG: &str = "320200000006000000008F07";

/// A far negotiation that is refused.
const FAR_REFUSED: &str = "320200000001000000008500";

/// The refusals of a read that is lost, isn't answered, is too long for far, and fails far; and that of a control.
const NO_LINK: &str = "320200000005000000008F05";

const NO_ANSWER: &str = "320200000005000000008F06";

const TOO_LONG: &str = "320200000005000000008F07";

const FAR_FAULT: &str = "320200000005000000008F08";

const NO_FUNCTION: &str = "32020000000D000000008104";

/// A link whose doer keeps so many telegrams: its windows, what the far link gives if there is one, what becomes of the
/// far link's calls, what the near link asks and is answered, what is asked far, and how far each telegram got that is
/// kept, as `is_passed` describes.
struct Row {
    windows: &'static str,
    limit: u64,
    far: Option<&'static [&'static str]>,
    fates: &'static [Fate],
    asked: &'static [&'static str],
    answered: &'static [&'static str],
    asked_far: &'static [&'static str],
    kept: &'static [&'static str],
}

/// A doer over a dial in memory.
type Relay = RelayDoer<MemoryDial<Line>, Line>;

/// The host that is dialled. A doer needs that it is UTF-8.
fn a_host(alloc: Global) -> Option<Octets>
    ensures { IfSome result (λ host. IsUtf8 host) }
{
    let host = b"127.0.0.1".to_vec(alloc).ok()?;
    match std::str::from_utf8(host.as_slice()) {
        Ok(_) => Some(Octets::of_vec(host)),
        Err(_) => None,
    }
}

/// A doer of these windows that keeps so many telegrams, and whose dial gives this link.
fn a_doer(alloc: Global, windows: &str, limit: u64, far: Option<Line>) -> Option<Relay> {
    if limit < 1 || limit > 262_144 {
        return None;
    }
    let windows = read_windows(alloc, windows.as_bytes()).ok()?;
    let host = a_host(alloc)?;
    let dial = MemoryDial::new(far);
    RelayDoer::new(alloc, windows, dial, host, 102, Config::new(1, 0, 2), limit).ok()
}

/// A near link, and the doer that relays what it asks.
struct Talk {
    near: Line,
    doer: Relay,
}

// It is dropped by a function of its own, so that what drops it is soon proved.
impl Drop for Talk {
    fn drop(self) {
        let Talk { near: _, doer: _ } = self;
    }
}

/// The talk of a row.
fn a_talk(alloc: Global, row: &Row) -> Option<Talk> {
    let far = match row.far {
        Some(gives) => Some(a_line(alloc, gives, row.fates)?),
        None => None,
    };
    let near = a_line(alloc, row.asked, &[])?;
    let doer = a_doer(alloc, row.windows, row.limit, far)?;
    Some(Talk { near, doer })
}

/// Whether serving the near link ends without a fault. Nothing is promised of it.
fn is_served<R: Wait + Clock>(rt: &R, alloc: Global, talk: &mut Talk) -> bool {
    match Session::new(alloc, 1, None) {
        Ok(mut session) => {
            session.serve(rt, alloc, &mut talk.near, &mut talk.doer) == Outcome::Ended
        }
        Err(_) => false,
    }
}

/// The telegram with this number, from 0, after the connect request and the negotiation, or after their answers.
fn telegram_of(all: &[&'static str], nth: usize) -> Option<&'static str> {
    all.get(2..)?.get(nth).copied()
}

/// Whether a telegram is kept as it was asked and answered, with the results of what was asked far.
fn is_kept(
    alloc: Global,
    relayed: &Relayed,
    row: &Row,
    nth: usize,
    nth_far: usize,
) -> Option<bool> {
    let asked = telegram_of(row.asked, nth)?;
    let answered = telegram_of(row.answered, nth)?;
    let wanted = *row.kept.get(nth)?;
    let asked_far = telegram_of(row.asked_far, nth_far).unwrap_or("-");
    Some(
        is_request_of(alloc, &relayed.ask.request, asked)
            && is_answer(alloc, &relayed.reply, answered)
            && is_passed(alloc, &relayed.passage, wanted, asked_far),
    )
}

/// Whether a telegram was asked far.
fn is_far(relayed: &Relayed) -> bool {
    matches!(relayed.passage, Passage::Asked { .. })
}

/// Whether the telegrams that are kept are those of the row.
fn are_kept(alloc: Global, kept: &[Relayed], row: &Row) -> bool {
    let mut nth_far = 0usize;
    for (nth, relayed) in kept.iter().enumerate() {
        if is_kept(alloc, relayed, row, nth, nth_far) != Some(true) {
            return false;
        }
        nth_far = nth_far.saturating_add(usize::from(is_far(relayed)));
    }
    kept.len() == row.kept.len()
}

/// What was asked over the link that was dialled last is this; nothing if none was dialled.
fn is_asked_far(alloc: Global, doer: &Relay, asked: &[&str]) -> bool {
    match doer.far_link() {
        Some(link) => is_written(alloc, link, asked),
        None => asked.is_empty(),
    }
}

/// Whether a talk left what a row says.
fn is_left(alloc: Global, talk: &Talk, row: &Row) -> bool {
    is_written(alloc, &talk.near, row.answered)
        && is_asked_far(alloc, &talk.doer, row.asked_far)
        && are_kept(alloc, talk.doer.kept(), row)
}

/// Whether the link of a row is served as the row says.
fn goes<R: Wait + Clock>(rt: &R, alloc: Global, row: &Row) -> bool {
    match a_talk(alloc, row) {
        Some(mut talk) => is_served(rt, alloc, &mut talk) && is_left(alloc, &talk, row),
        None => false,
    }
}

/// What becomes of the telegrams of links.
const LINKS: &[Row] = &[
    // A read is asked far, at the window's octet.
    Row {
        windows: WINDOWS,
        limit: 9,
        far: Some(&[CONFIRM, FAR_GRANTED, FAR_ANSWER]),
        fates: &[],
        asked: &[CONNECT, SETUP, READ],
        answered: &[CONFIRM, GRANTED, READ_ANSWER],
        asked_far: &[CONNECT, FAR_SETUP, FAR_READ],
        kept: &["asked new 00000000 FF 11223344"],
    },
    // Two reads are asked over one far link.
    Row {
        windows: WINDOWS,
        limit: 9,
        far: Some(&[CONFIRM, FAR_GRANTED, FAR_ANSWER, OTHER_ANSWER]),
        fates: &[],
        asked: &[CONNECT, SETUP, READ, READ],
        answered: &[CONFIRM, GRANTED, READ_ANSWER, READ_ANSWER],
        asked_far: &[CONNECT, FAR_SETUP, FAR_READ, NEXT_FAR_READ],
        kept: &[
            "asked new 00000000 FF 11223344",
            "asked old 00000000 FF 11223344",
        ],
    },
    // The far link ends there, and the next read dials again, in vain.
    Row {
        windows: WINDOWS,
        limit: 9,
        far: Some(&[CONFIRM, FAR_GRANTED]),
        fates: &[],
        asked: &[CONNECT, SETUP, READ, READ],
        answered: &[CONFIRM, GRANTED, NO_LINK, NO_LINK],
        asked_far: &[CONNECT, FAR_SETUP, FAR_READ],
        kept: &["asked new 00020000 - -", "undialled"],
    },
    // A write is asked far with its octets.
    Row {
        windows: WINDOWS,
        limit: 9,
        far: Some(&[CONFIRM, FAR_GRANTED, FAR_WRITTEN]),
        fates: &[],
        asked: &[CONNECT, SETUP, WRITE],
        answered: &[CONFIRM, GRANTED, WRITTEN],
        asked_far: &[CONNECT, FAR_SETUP, FAR_WRITE],
        kept: &["asked new 00000000 FF -"],
    },
    // The far code 00 stands near without a transport size.
    Row {
        windows: WINDOWS,
        limit: 9,
        far: Some(&[CONFIRM, FAR_GRANTED, FAR_ANSWER_00]),
        fates: &[],
        asked: &[CONNECT, SETUP, READ],
        answered: &[CONFIRM, GRANTED, READ_ANSWER_00],
        asked_far: &[CONNECT, FAR_SETUP, FAR_READ],
        kept: &["asked new 00000000 00 -"],
    },
    // An item that no window has doesn't travel, and the far code stands at the place of the item that did.
    Row {
        windows: WINDOWS,
        limit: 9,
        far: Some(&[CONFIRM, FAR_GRANTED, FAR_ANSWER]),
        fates: &[],
        asked: &[CONNECT, SETUP, READ_BOTH],
        answered: &[CONFIRM, GRANTED, BOTH_ANSWER],
        asked_far: &[CONNECT, FAR_SETUP, FAR_READ],
        kept: &["asked new 00000000 FF 11223344"],
    },
    // What asks for no item of a window doesn't dial.
    Row {
        windows: WINDOWS,
        limit: 9,
        far: Some(&[CONFIRM, FAR_GRANTED, FAR_ANSWER]),
        fates: &[],
        asked: &[CONNECT, SETUP, READ_2, STOP],
        answered: &[CONFIRM, GRANTED, READ_2_ANSWER, NO_FUNCTION],
        asked_far: &[],
        kept: &["near", "near"],
    },
    // There is no far server.
    Row {
        windows: WINDOWS,
        limit: 9,
        far: None,
        fates: &[],
        asked: &[CONNECT, SETUP, READ],
        answered: &[CONFIRM, GRANTED, NO_LINK],
        asked_far: &[],
        kept: &["undialled"],
    },
    // The far link ends before the connect is confirmed.
    Row {
        windows: WINDOWS,
        limit: 9,
        far: Some(&[]),
        fates: &[],
        asked: &[CONNECT, SETUP, READ],
        answered: &[CONFIRM, GRANTED, NO_LINK],
        asked_far: &[CONNECT],
        kept: &["unconnected 00020000"],
    },
    // The far link fails in its first call, and isn't ready in any of 50 polls.
    Row {
        windows: WINDOWS,
        limit: 9,
        far: Some(&[CONFIRM, FAR_GRANTED, FAR_ANSWER]),
        fates: &[Fate::Fail],
        asked: &[CONNECT, SETUP, READ],
        answered: &[CONFIRM, GRANTED, NO_LINK],
        asked_far: &[],
        kept: &["unconnected 00090000"],
    },
    Row {
        windows: WINDOWS,
        limit: 9,
        far: Some(&[CONFIRM, FAR_GRANTED, FAR_ANSWER]),
        fates: &[Fate::NotYet; 50],
        asked: &[CONNECT, SETUP, READ],
        answered: &[CONFIRM, GRANTED, NO_ANSWER],
        asked_far: &[],
        kept: &["unconnected 02000000"],
    },
    // The far server grants a PDU of 64, for which the read is short enough.
    Row {
        windows: WINDOWS,
        limit: 9,
        far: Some(&[CONFIRM, FAR_GRANTED_64, FAR_ANSWER]),
        fates: &[],
        asked: &[CONNECT, SETUP, READ],
        answered: &[CONFIRM, GRANTED, READ_ANSWER],
        asked_far: &[CONNECT, FAR_SETUP, FAR_READ],
        kept: &["asked new 00000000 FF 11223344"],
    },
    // A read whose answer is longer than the PDU that the far server grants isn't asked.
    Row {
        windows: LONG,
        limit: 9,
        far: Some(&[CONFIRM, FAR_GRANTED_64, FAR_ANSWER]),
        fates: &[],
        asked: &[CONNECT, SETUP, READ_60],
        answered: &[CONFIRM, GRANTED, TOO_LONG],
        asked_far: &[CONNECT, FAR_SETUP],
        kept: &["unpacked"],
    },
    // The far answer has another sequence.
    Row {
        windows: WINDOWS,
        limit: 9,
        far: Some(&[CONFIRM, FAR_GRANTED, OTHER_ANSWER]),
        fates: &[],
        asked: &[CONNECT, SETUP, READ],
        answered: &[CONFIRM, GRANTED, FAR_FAULT],
        asked_far: &[CONNECT, FAR_SETUP, FAR_READ],
        kept: &["asked new 00800000 - -"],
    },
    // A far answer in 64 fragments is read, and the 65th fragment is a fault.
    Row {
        windows: WINDOWS,
        limit: 9,
        far: Some(&[CONFIRM, FAR_GRANTED, EMPTY_63, FAR_ANSWER]),
        fates: &[],
        asked: &[CONNECT, SETUP, READ],
        answered: &[CONFIRM, GRANTED, READ_ANSWER],
        asked_far: &[CONNECT, FAR_SETUP, FAR_READ],
        kept: &["asked new 00000000 FF 11223344"],
    },
    Row {
        windows: WINDOWS,
        limit: 9,
        far: Some(&[CONFIRM, FAR_GRANTED, EMPTY_64, FAR_ANSWER]),
        fates: &[],
        asked: &[CONNECT, SETUP, READ],
        answered: &[CONFIRM, GRANTED, FAR_FAULT],
        asked_far: &[CONNECT, FAR_SETUP, FAR_READ],
        kept: &["asked new 00070000 - -"],
    },
    // Two near areas are far parts that share octets.
    Row {
        windows: OVERLAPPING,
        limit: 9,
        far: Some(&[CONFIRM, FAR_GRANTED, FAR_SHARED_ANSWER]),
        fates: &[],
        asked: &[CONNECT, SETUP, READ_SHARED],
        answered: &[CONFIRM, GRANTED, SHARED_ANSWER],
        asked_far: &[CONNECT, FAR_SETUP, FAR_READ_SHARED],
        kept: &["asked new 00000000 FFFF 1122334433445566"],
    },
    // Every other one of twenty items travels. The last far item is the last near one, and isn't padded.
    Row {
        windows: WINDOWS,
        limit: 9,
        far: Some(&[CONFIRM, FAR_GRANTED, FAR_ANSWER_10]),
        fates: &[],
        asked: &[CONNECT, LONG_SETUP, READ_20],
        answered: &[CONFIRM, LONG_GRANTED, ANSWER_20],
        asked_far: &[CONNECT, FAR_SETUP, FAR_READ_10],
        kept: &["asked new 00000000 FF*10 AA*10"],
    },
    // A write that would need two telegrams isn't asked.
    Row {
        windows: LONG,
        limit: 9,
        far: Some(&[CONFIRM, FAR_GRANTED_64]),
        fates: &[],
        asked: &[CONNECT, SETUP, WRITE_TWO],
        answered: &[CONFIRM, GRANTED, WRITE_TOO_LONG],
        asked_far: &[CONNECT, FAR_SETUP],
        kept: &["unpacked"],
    },
    // The far server refuses the negotiation.
    Row {
        windows: WINDOWS,
        limit: 9,
        far: Some(&[CONFIRM, FAR_REFUSED]),
        fates: &[],
        asked: &[CONNECT, SETUP, READ],
        answered: &[CONFIRM, GRANTED, FAR_FAULT],
        asked_far: &[CONNECT, FAR_SETUP],
        kept: &["unconnected 00100000"],
    },
    // No more is kept than the limit.
    Row {
        windows: WINDOWS,
        limit: 1,
        far: Some(&[CONFIRM, FAR_GRANTED, FAR_ANSWER]),
        fates: &[],
        asked: &[CONNECT, SETUP, READ, READ],
        answered: &[CONFIRM, GRANTED, READ_ANSWER, READ_FULL],
        asked_far: &[CONNECT, FAR_SETUP, FAR_READ],
        kept: &["asked new 00000000 FF 11223344"],
    },
];

/// The number of the first row whose link is served otherwise.
fn unmet<R: Wait + Clock>(rt: &R, alloc: Global, rows: &[Row]) -> Option<usize> {
    for (number, row) in rows.iter().enumerate() {
        if !goes(rt, alloc, row) {
            return Some(number);
        }
    }
    None
}

/// Each link is relayed as its row says.
#[test]
fn links_are_relayed(rt: HostRuntime) {
    all_hold(&rt, unmet(&rt, rt.alloc(), LINKS));
}

/// All that a far link gives for a read.
const FAR: &[&str] = &[CONFIRM, FAR_GRANTED, FAR_ANSWER];

/// A far link that ends after so many octets.
fn a_cut_line(alloc: Global, len: usize) -> Option<Line> {
    let gives = octets_of(alloc, FAR)?;
    let input = gives.as_slice().get(..len)?.to_vec(alloc).ok()?;
    let inner = MemoryLink::new(alloc, Octets::of_vec(input), 8_192, 16_384, 0).ok()?;
    Some(FailingLink::new(inner, Vec::new(alloc)))
}

/// A far link whose calls from this number on, from 0, meet this fate so often.
fn a_hindered_line(alloc: Global, call: usize, fate: Fate, times: usize) -> Option<Line> {
    let mut fates = Vec::new(alloc);
    add_fates(&mut fates, Fate::Pass, call)?;
    add_fates(&mut fates, fate, times)?;
    a_line(alloc, FAR, fates.as_slice())
}

/// Adds a fate so often.
fn add_fates(fates: &mut Vec<Fate>, fate: Fate, times: usize) -> Option<()> {
    for _ in 0..times {
        fates.push(fate).ok()?;
    }
    Some(())
}

/// The talk of a near link that reads, over this far link.
fn a_read(alloc: Global, far: Line) -> Option<Talk> {
    let near = a_line(alloc, &[CONNECT, SETUP, READ], &[])?;
    let doer = a_doer(alloc, WINDOWS, 1, Some(far))?;
    Some(Talk { near, doer })
}

/// Whether a talk has this answer to its read, and the read is kept.
fn has_answered(alloc: Global, talk: &Talk, answer: &str) -> bool {
    is_written(alloc, &talk.near, &[CONFIRM, GRANTED, answer]) && talk.doer.kept().len() == 1
}

/// Whether a read over this far link is answered by this.
fn is_answered<R: Wait + Clock>(rt: &R, alloc: Global, far: Line, answer: &str) -> bool {
    match a_read(alloc, far) {
        Some(mut talk) => is_served(rt, alloc, &mut talk) && has_answered(alloc, &talk, answer),
        None => false,
    }
}

/// Whether a read is lost if the far link ends after so many octets.
fn is_lost_after<R: Wait + Clock>(rt: &R, alloc: Global, len: usize) -> bool {
    match a_cut_line(alloc, len) {
        Some(far) => is_answered(rt, alloc, far, NO_LINK),
        None => false,
    }
}

/// What calls of a far link meet, how often, and what a read is answered then.
type Hindrance = (Fate, usize, &'static str);

/// A call fails; calls aren't ready, less often than a job waits and as often.
const HINDRANCES: &[Hindrance] = &[
    (Fate::Fail, 1, NO_LINK),
    (Fate::NotYet, 49, READ_ANSWER),
    (Fate::NotYet, 50, NO_ANSWER),
];

/// Whether a read is answered so if the far link is hindered from this call on.
fn is_hindered_at<R: Wait + Clock>(
    rt: &R,
    alloc: Global,
    call: usize,
    hindrance: &Hindrance,
) -> bool {
    let (fate, times, answer) = *hindrance;
    match a_hindered_line(alloc, call, fate, times) {
        Some(far) => is_answered(rt, alloc, far, answer),
        None => false,
    }
}

/// A far link's octets for a read: 22 of the confirm, 27 of the grant, 29 of the answer.
const FAR_OCTETS: usize = 78;

/// A far link's calls for a read: it transmits the connect request, receives all, and transmits the negotiation and the
/// job.
const FAR_CALLS: usize = 4;

/// The first number of octets after which the far link ends and the read isn't lost.
fn unmet_octet<R: Wait + Clock>(rt: &R, alloc: Global, octets: usize) -> Option<usize> {
    for len in 0..octets {
        if !is_lost_after(rt, alloc, len) {
            return Some(len);
        }
    }
    None
}

/// A read is lost wherever the far link ends.
#[test]
fn a_read_is_lost_wherever_the_far_link_ends(rt: HostRuntime) {
    all_hold(&rt, unmet_octet(&rt, rt.alloc(), FAR_OCTETS));
}

/// A read is answered as each hindrance says if the far link is hindered from this call on.
fn all_hinder<R: Wait + Clock>(rt: &R, alloc: Global, call: usize) -> bool {
    for hindrance in HINDRANCES {
        if !is_hindered_at(rt, alloc, call, hindrance) {
            return false;
        }
    }
    true
}

/// The first call of the far link at which a hindrance has another answer.
fn unmet_call<R: Wait + Clock>(rt: &R, alloc: Global, calls: usize) -> Option<usize> {
    for call in 0..calls {
        if !all_hinder(rt, alloc, call) {
            return Some(call);
        }
    }
    None
}

/// A read is answered as the hindrance says, whichever call is hindered.
#[test]
fn a_read_is_answered_whichever_call_is_hindered(rt: HostRuntime) {
    all_hold(&rt, unmet_call(&rt, rt.alloc(), FAR_CALLS));
}
