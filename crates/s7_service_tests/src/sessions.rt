//! Sessions over a book: the result of each turn, a journal that is full, and a clock that fails.
use crate::areas::AREAS;
use crate::books::{a_book, are_of_links};
use crate::fields::octets;
use crate::rows::all_hold;
use s7_memory::{FailingLink, Fate, MemoryLink};
use s7_outer::Octets;
use s7_plant::{Book, Tail};
use s7_session::{BookDoer, Outcome, Session, Turn};
use std::alloc::Global;
use std::sync::Wait;
use std::time::Clock;

/// A connect request, in its packet.
pub(crate) const CONNECT: &str = "0300001611E00000000100C0010AC1020100C2020102";

/// The connect confirm, in its packet.
pub(crate) const CONFIRM: &str = "0300001611D00001000100C0010AC1020100C2020102";

/// The negotiation of a PDU of 240.
pub(crate) const SETUP: &str = "32010000000400080000F0000001000100F0";

/// The answer to the negotiation.
pub(crate) const GRANTED: &str = "320300000004000800000000F0000001000100F0";

/// A read of data block 1.
pub(crate) const READ: &str = "320100000005000E00000401120A10020004000184000000";

/// The answer to the read.
pub(crate) const READ_ANSWER: &str = "3203000000050002000800000401FF04002011223344";

/// The refusal of the read if the journal is full.
pub(crate) const READ_FULL: &str = "320200000005000000008F01";

/// A read of the clock.
const CLOCK_READ: &str = "32070000000B0008000400011204114701000A000000";

/// The answer to the read of the clock at the moment of each link's clock.
const CLOCK_ANSWER: &str =
    "32070000000B000C000E000112081287010100000000FF09000A00192402291345301235";

/// The refusal of the read of the clock if the link's clock fails.
const CLOCK_FAILED: &str = "32020000000B000000008F02";

/// The refusal of the read of the clock if the journal is full.
const CLOCK_FULL: &str = "32020000000B000000008F01";

/// A set of the clock without a date.
const NO_DATE: &str = "32070000000B0008000400011204114702000A000000";

/// The refusal of the set of the clock without a date.
const NO_DATE_ANSWER: &str = "32020000000B000000008404";

/// A read of list 0999, which doesn't exist.
const NO_LIST: &str = "32070000000C000800080001120411440100FF09000409990000";

/// The answer to the read of list 0999.
const NO_LIST_ANSWER: &str = "32070000000C000C000400011208128401020000D4010A000000";

/// A stop of the controller.
pub(crate) const STOP: &str = "32010000000D0010000029000000000009505F50524F4752414D";

/// The answer to the stop.
const STOPPED: &str = "32030000000D0002000000002900";

/// The moment of each link's clock, in milliseconds since 1970: 2024-02-29, a Thursday, at 13:45:30.123.
const MOMENT: u64 = 1_709_214_330_123;

/// A link in memory whose calls may fail.
pub(crate) type Line = FailingLink<MemoryLink>;

/// Appends the octets that `hex` states, in a packet if they are a message.
fn add(alloc: Global, all: &mut Vec<u8>, hex: &str) -> Option<()> {
    let octets = octets(alloc, hex)?;
    if let [0x32, ..] = octets.as_slice() {
        let [high, low] = (octets.len().min(1_024) as u16 + 7).to_be_bytes();
        let head = [0x03, 0x00, high, low, 0x02, 0xF0, 0x80];
        all.extend_from_slice(&head).ok()?;
    }
    all.extend_from_slice(octets.as_slice()).ok()
}

/// The octets of all parts, one after another. `None` if a part can't be read.
pub(crate) fn octets_of(alloc: Global, parts: &[&str]) -> Option<Vec<u8>> {
    let mut all = Vec::new(alloc);
    for part in parts {
        add(alloc, &mut all, part)?;
    }
    Some(all)
}

/// A link that gives these octets, and whose calls have these fates.
pub(crate) fn a_line(alloc: Global, asked: &[&str], fates: &[Fate]) -> Option<Line> {
    let fates = fates.to_vec(alloc).ok()?;
    let input = Octets::of_vec(octets_of(alloc, asked)?);
    let inner = MemoryLink::new(alloc, input, 8_192, 16_384, MOMENT).ok()?;
    Some(FailingLink::new(inner, fates))
}

/// A link with the number 7, and the book over which it is served.
struct Talk {
    line: Line,
    book: Book<Tail>,
}

// This drop is a function of its own, so that the proof of a function that drops a talk takes less time.
impl Drop for Talk {
    fn drop(self) {
        let Talk { line: _, book: _ } = self;
    }
}

/// A talk whose link gives these octets, whose link's calls have these fates, and whose journal takes `limit` entries.
fn a_talk(alloc: Global, asked: &[&str], fates: &[Fate], limit: u64) -> Option<Talk> {
    let line = a_line(alloc, asked, fates)?;
    let book = a_book(alloc, AREAS, limit, Vec::new(alloc))?;
    Some(Talk { line, book })
}

/// Whether exactly these octets were written on the link.
pub(crate) fn is_written(alloc: Global, line: &Line, answered: &[&str]) -> bool {
    match octets_of(alloc, answered) {
        Some(answered) => line.inner().written() == answered.as_slice(),
        None => false,
    }
}

/// The fates of a link's calls: the first finds nothing to receive, the third finds no room, and the fifth fails.
const SLOW: &[Fate] = &[
    Fate::NotYet,
    Fate::Pass,
    Fate::NotYet,
    Fate::Pass,
    Fate::Fail,
    Fate::Pass,
];

/// The result of each turn over that link, which gives a connect request.
const TURNS: &[Turn] = &[
    Turn::NotYet,
    Turn::Went,
    Turn::NotYet,
    Turn::Went,
    Turn::Closed(Outcome::ReadFault),
    Turn::Closed(Outcome::ReadFault),
];

/// The result of a turn of the session. The function has no contract, so that the proofs of its callers take less time.
fn turn(alloc: Global, session: &mut Session, talk: &mut Talk) -> Turn {
    let mut doer = BookDoer {
        book: &mut talk.book,
        link: 7,
    };
    session.turn(alloc, &mut talk.line, &mut doer)
}

/// Whether the turns of a new session over the link have the results of `TURNS`.
fn turns_tell(alloc: Global, talk: &mut Talk) -> Option<bool> {
    let mut session = Session::new(alloc, 7, None).ok()?;
    Some(all_told(alloc, &mut session, talk))
}

/// Whether the turns of the session have the results of `TURNS`.
fn all_told(alloc: Global, session: &mut Session, talk: &mut Talk) -> bool {
    for told in TURNS {
        if !is_told(alloc, session, talk, told) {
            return false;
        }
    }
    true
}

/// Whether the next turn of the session has this result.
fn is_told(alloc: Global, session: &mut Session, talk: &mut Talk, told: &Turn) -> bool {
    turn(alloc, session, talk) == *told
}

/// Whether the turns over the slow link have their results, and the connect is confirmed.
fn turns_go(alloc: Global) -> Option<bool> {
    let mut talk = a_talk(alloc, &[CONNECT], SLOW, 1)?;
    let is_told = turns_tell(alloc, &mut talk).unwrap_or(false);
    Some(is_told && is_written(alloc, &talk.line, &[CONFIRM]))
}

/// Each turn returns what it did.
#[test]
fn a_turn_tells_what_it_did(rt: HostRuntime) {
    assert!(rt; turns_go(rt.alloc()) == Some(true));
}

/// A test of a link: how many entries the journal takes, the fates of the link's calls, what the link gives, what is
/// written on it, how many entries it makes, and the links of the book's entries.
struct Row {
    limit: u64,
    fates: &'static [Fate],
    asked: &'static [&'static str],
    answered: &'static [&'static str],
    entries: u64,
    links: &'static str,
}

/// Serves a link to its end, and returns the outcome. The function has no contract, so that the proofs of its callers
/// take less time.
fn serve<R: Wait + Clock>(
    rt: &R,
    alloc: Global,
    session: &mut Session,
    talk: &mut Talk,
) -> Outcome {
    let mut doer = BookDoer {
        book: &mut talk.book,
        link: 7,
    };
    session.serve(rt, alloc, &mut talk.line, &mut doer)
}

/// Whether the link ended without a fault, after this number of entries.
fn is_served<R: Wait + Clock>(
    rt: &R,
    alloc: Global,
    talk: &mut Talk,
    entries: u64,
) -> Option<bool> {
    let mut session = Session::new(alloc, 7, None).ok()?;
    let outcome = serve(rt, alloc, &mut session, talk);
    Some(outcome == Outcome::Ended && has_entries(&session, entries))
}

/// Whether the session made this number of entries, and they are the first ones of the book.
fn has_entries(session: &Session, entries: u64) -> bool {
    let end = match session.last() {
        Some(last) => last.saturating_add(1),
        None => 0,
    };
    session.entries() == entries && end == entries
}

/// Whether the link of a row is served as the row states.
fn goes<R: Wait + Clock>(rt: &R, alloc: Global, row: &Row) -> Option<bool> {
    let mut talk = a_talk(alloc, row.asked, row.fates, row.limit)?;
    let is_served = is_served(rt, alloc, &mut talk, row.entries).unwrap_or(false);
    let is_so = is_served
        && are_of_links(&talk.book, row.links)
        && is_written(alloc, &talk.line, row.answered);
    Some(is_so)
}

/// The tests of links: one over a full journal, and others whose clocks fail.
const LINKS: &[Row] = &[
    // The journal is full.
    Row {
        limit: 1,
        fates: &[],
        asked: &[CONNECT, SETUP, READ, READ],
        answered: &[CONFIRM, GRANTED, READ_ANSWER, READ_FULL],
        entries: 1,
        links: "links 7",
    },
    // The first three calls are a receive and the transmits of the confirm and of the grant. The fourth is the first
    // call of the clock, which fails. After the refusal the answer to the read is sent, and then the clock is called
    // again.
    Row {
        limit: 9,
        fates: &[Fate::Pass, Fate::Pass, Fate::Pass, Fate::Fail],
        asked: &[CONNECT, SETUP, CLOCK_READ, READ, CLOCK_READ],
        answered: &[CONFIRM, GRANTED, CLOCK_FAILED, READ_ANSWER, CLOCK_ANSWER],
        entries: 2,
        links: "links 7 7",
    },
    // The clock is called once for each telegram about the clock, and for no other telegram. So the eighth call is that
    // for the second one.
    Row {
        limit: 9,
        fates: &[
            Fate::Pass,
            Fate::Pass,
            Fate::Pass,
            Fate::Pass,
            Fate::Pass,
            Fate::Pass,
            Fate::Pass,
            Fate::Fail,
        ],
        asked: &[CONNECT, SETUP, CLOCK_READ, NO_LIST, STOP, CLOCK_READ],
        answered: &[
            CONFIRM,
            GRANTED,
            CLOCK_ANSWER,
            NO_LIST_ANSWER,
            STOPPED,
            CLOCK_FAILED,
        ],
        entries: 3,
        links: "links 7 7 7",
    },
    // A set without a date is refused before the clock is called. So the fifth call is the first one of the clock.
    Row {
        limit: 9,
        fates: &[Fate::Pass, Fate::Pass, Fate::Pass, Fate::Pass, Fate::Fail],
        asked: &[CONNECT, SETUP, NO_DATE, CLOCK_READ],
        answered: &[CONFIRM, GRANTED, NO_DATE_ANSWER, CLOCK_FAILED],
        entries: 0,
        links: "links",
    },
    // A clock that fails is noticed before the full journal is. The fifth call is the first one of the clock.
    Row {
        limit: 1,
        fates: &[Fate::Pass, Fate::Pass, Fate::Pass, Fate::Pass, Fate::Fail],
        asked: &[CONNECT, SETUP, READ, CLOCK_READ, CLOCK_READ],
        answered: &[CONFIRM, GRANTED, READ_ANSWER, CLOCK_FAILED, CLOCK_FULL],
        entries: 1,
        links: "links 7",
    },
];

/// The number of the first row whose link is served otherwise.
fn unmet<R: Wait + Clock>(rt: &R, alloc: Global, rows: &[Row]) -> Option<usize> {
    for (number, row) in rows.iter().enumerate() {
        if goes(rt, alloc, row) != Some(true) {
            return Some(number);
        }
    }
    None
}

/// Each link is served as its row states.
#[test]
fn links_are_served(rt: HostRuntime) {
    all_hold(&rt, unmet(&rt, rt.alloc(), LINKS));
}
