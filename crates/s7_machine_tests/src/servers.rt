//! Tests of a server that is called as the program calls it, on a port of this machine: its answers, its report, its
//! book and its observer.
use crate::called::{AreaFile, Call, Left, called, is_whole};
use crate::callers::Callers;
use crate::coming::are_answered;
use crate::rows::all_hold;
use crate::shared::{AREAS, is_shared};
use crate::telegrams::{
    ANSWER, CONFIRM, CONNECT, CONNECT_AGAIN, DISCONNECT, GET, GRANTED, READ, SETUP, WRITE, are,
    joined,
};
use s7_outer::Octets;
use s7_plant::{Event, Observer, Tail};
use s7_session::Outcome;
use std::alloc::Global;
use std::sync::Wait;
use std::thread::Threads;
use std::time::Clock;

/// The words of a server of one link.
const ONE: &[&str] = &["serve", "DB1=11223344", "--port", "26102", "--links", "1"];

/// The words of a server of two links.
const TWO: &[&str] = &["serve", "DB1=11223344", "--port", "26102", "--links", "2"];

/// The words of a server of one link with a journal of one entry.
const ONE_SHORT: &[&str] = &[
    "serve",
    "DB1=11223344",
    "--port",
    "26102",
    "--links",
    "1",
    "--journal",
    "1",
];

/// The words of a server of two links with a journal of four entries.
const TWO_SHORT: &[&str] = &[
    "serve",
    "DB1=11223344",
    "--port",
    "28102",
    "--links",
    "2",
    "--journal",
    "4",
];

/// The words of a server of 200 links, with room for all entries.
const ROOM_FOR_ALL: &[&str] = &[
    "serve",
    "DB1=11223344",
    "--port",
    "30102",
    "--links",
    "200",
    "--journal",
    "400",
];

/// The words of a server of 200 links, with room for some entries.
const ROOM_FOR_SOME: &[&str] = &[
    "serve",
    "DB1=11223344",
    "--port",
    "30102",
    "--links",
    "200",
    "--journal",
    "150",
];

/// The words of a server of eight clients.
const EIGHT: &[&str] = &[
    "serve",
    "a.txt",
    "--port",
    "28102",
    "--links",
    "8",
    "--journal",
    "1024",
];

/// The words of a server on the standard input, which has ended in a test.
const PIPE: &[&str] = &["pipe", "a.txt"];

/// The answers on one link.
type Answers = &'static [&'static [u8]];

/// What is left after a call.
enum Wanted {
    /// The server ends with this status and this report, and these telegrams come to the one caller, on one link after
    /// another. No link is delayed for too long.
    Reports(u8, &'static str, &'static [Answers]),
    /// The observer counts this number of events, and keeps this one, the newest.
    Tells(u64, Option<Event>),
    /// The first of two links ends with this outcome, and its caller sees the end without any octet before it. The
    /// second link is still served after that.
    Ends(Outcome),
    /// These numbers of reads are answered with the data and refused.
    Reads(usize, usize),
    /// Each read of a client shows what the entries before it left.
    Shares,
}

/// A call, and what is left after it.
struct Row {
    call: Call,
    wanted: Wanted,
}

/// The event of the read.
const READ_EVENT: Event = Event {
    number: 0,
    link: 1,
    code: 0x0002_0000,
    error: 0,
};

/// The event of the write after it.
const WRITE_EVENT: Event = Event {
    number: 1,
    link: 1,
    code: 0x0004_0000,
    error: 0,
};

/// The calls. No order in which one link is served after the other releases both links of the second and the third row.
const ROWS: &[Row] = &[
    Row {
        call: Call {
            words: ONE,
            areas: AreaFile::Nothing,
            kept: 0,
            until: 0,
            mask: 0,
            callers: Callers::AtOnce(&[&[CONNECT, SETUP, READ, DISCONNECT]]),
        },
        wanted: Wanted::Reports(
            0,
            "link 1 ended entries 1\njournal 1\n",
            &[&[CONFIRM, GRANTED, ANSWER]],
        ),
    },
    Row {
        call: Call {
            words: TWO,
            areas: AreaFile::Nothing,
            kept: 1,
            until: 2,
            mask: 0,
            callers: Callers::AtOnce(&[
                &[CONNECT, SETUP, READ, READ, DISCONNECT],
                &[CONNECT, SETUP, READ, READ, DISCONNECT],
            ]),
        },
        wanted: Wanted::Reports(
            0,
            "link 1 ended entries 2\nlink 2 ended entries 2\njournal 4\n",
            &[
                &[CONFIRM, GRANTED, ANSWER, ANSWER],
                &[CONFIRM, GRANTED, ANSWER, ANSWER],
            ],
        ),
    },
    Row {
        call: Call {
            words: TWO,
            areas: AreaFile::Nothing,
            kept: 2,
            until: 1,
            mask: 0,
            callers: Callers::AtOnce(&[
                &[CONNECT, SETUP, READ, READ, DISCONNECT],
                &[CONNECT, SETUP, READ, READ, DISCONNECT],
            ]),
        },
        wanted: Wanted::Reports(
            0,
            "link 1 ended entries 2\nlink 2 ended entries 2\njournal 4\n",
            &[
                &[CONFIRM, GRANTED, ANSWER, ANSWER],
                &[CONFIRM, GRANTED, ANSWER, ANSWER],
            ],
        ),
    },
    Row {
        call: Call {
            words: ONE,
            areas: AreaFile::Nothing,
            kept: 0,
            until: 0,
            mask: 0,
            callers: Callers::Resets,
        },
        wanted: Wanted::Reports(0, "link 1 read-fault entries 0\njournal 0\n", &[]),
    },
    Row {
        call: Call {
            words: ONE,
            areas: AreaFile::Nothing,
            kept: 0,
            until: 0,
            mask: 0,
            callers: Callers::Reads,
        },
        wanted: Wanted::Reports(
            0,
            "link 1 ended entries 1\njournal 1\n",
            &[&[&[0x11, 0x22, 0x33, 0x44]]],
        ),
    },
    Row {
        call: Call {
            words: ONE,
            areas: AreaFile::Nothing,
            kept: 0,
            until: 0,
            mask: 0x0006_0000,
            callers: Callers::AtOnce(&[&[CONNECT, SETUP, READ, WRITE, DISCONNECT]]),
        },
        wanted: Wanted::Tells(2, Some(WRITE_EVENT)),
    },
    Row {
        call: Call {
            words: ONE,
            areas: AreaFile::Nothing,
            kept: 0,
            until: 0,
            mask: 0x0002_0000,
            callers: Callers::AtOnce(&[&[CONNECT, SETUP, READ, WRITE, DISCONNECT]]),
        },
        wanted: Wanted::Tells(1, Some(READ_EVENT)),
    },
    Row {
        call: Call {
            words: ONE_SHORT,
            areas: AreaFile::Nothing,
            kept: 0,
            until: 0,
            mask: 0x0006_0000,
            callers: Callers::AtOnce(&[&[CONNECT, SETUP, READ, WRITE, DISCONNECT]]),
        },
        wanted: Wanted::Tells(1, Some(READ_EVENT)),
    },
    Row {
        call: Call {
            words: ONE,
            areas: AreaFile::Nothing,
            kept: 0,
            until: 0,
            mask: 0xFF09_FFFF,
            callers: Callers::AtOnce(&[&[CONNECT, SETUP, READ, WRITE, DISCONNECT]]),
        },
        wanted: Wanted::Tells(0, None),
    },
    Row {
        call: Call {
            words: ONE,
            areas: AreaFile::Nothing,
            kept: 0,
            until: 0,
            mask: 0x0004_0000,
            callers: Callers::AtOnce(&[&[CONNECT, SETUP, READ, WRITE, DISCONNECT]]),
        },
        wanted: Wanted::Tells(1, Some(WRITE_EVENT)),
    },
    Row {
        call: Call {
            words: PIPE,
            areas: AreaFile::Long(67_108_864),
            kept: 0,
            until: 0,
            mask: 0,
            callers: Callers::Nobody,
        },
        wanted: Wanted::Reports(0, "link 1 ended entries 0\njournal 0\n", &[]),
    },
    Row {
        call: Call {
            words: PIPE,
            areas: AreaFile::Long(67_108_865),
            kept: 0,
            until: 0,
            mask: 0,
            callers: Callers::Nobody,
        },
        wanted: Wanted::Reports(2, "areas too long\n", &[]),
    },
    Row {
        call: Call {
            words: TWO_SHORT,
            areas: AreaFile::Nothing,
            kept: 0,
            until: 0,
            mask: 0,
            callers: Callers::Ends(GET),
        },
        wanted: Wanted::Ends(Outcome::BadFrame { at: 47 }),
    },
    Row {
        call: Call {
            words: TWO_SHORT,
            areas: AreaFile::Nothing,
            kept: 0,
            until: 0,
            mask: 0,
            callers: Callers::Ends(DISCONNECT),
        },
        wanted: Wanted::Ends(Outcome::Ended),
    },
    Row {
        call: Call {
            words: TWO_SHORT,
            areas: AreaFile::Nothing,
            kept: 0,
            until: 0,
            mask: 0,
            callers: Callers::Ends(CONNECT_AGAIN),
        },
        wanted: Wanted::Ends(Outcome::Unexpected { at: 47 }),
    },
    Row {
        call: Call {
            words: ROOM_FOR_ALL,
            areas: AreaFile::Nothing,
            kept: 0,
            until: 0,
            mask: 0,
            callers: Callers::ComeAndGo,
        },
        wanted: Wanted::Reads(400, 0),
    },
    Row {
        call: Call {
            words: ROOM_FOR_SOME,
            areas: AreaFile::Nothing,
            kept: 0,
            until: 0,
            mask: 0,
            callers: Callers::ComeAndGo,
        },
        wanted: Wanted::Reads(150, 250),
    },
    Row {
        call: Call {
            words: EIGHT,
            areas: AreaFile::Text(AREAS),
            kept: 0,
            until: 0,
            mask: 0,
            callers: Callers::Share,
        },
        wanted: Wanted::Shares,
    },
];

/// Reports whether these octets are those of the telegrams.
fn is_joined(alloc: Global, came: &Octets, telegrams: &[&[u8]]) -> bool {
    match joined(alloc, telegrams) {
        Some(octets) => came.as_slice() == octets.as_slice(),
        None => false,
    }
}

/// Reports whether these octets are the answers on the link at a place.
fn is_at(alloc: Global, came: &Octets, answers: &[Answers], place: usize) -> bool {
    match answers.get(place) {
        Some(telegrams) => is_joined(alloc, came, telegrams),
        None => false,
    }
}

/// Reports whether these answers came, in order. The octets of a link are those of its telegrams.
fn have_come(alloc: Global, came: &[Octets], answers: &[Answers]) -> bool {
    let mut place = 0usize;
    for came in came {
        if !is_at(alloc, came, answers, place) {
            return false;
        }
        place = place.saturating_add(1);
    }
    place == answers.len()
}

/// Reports whether the server ended with this status and report, and delayed no link for too long.
fn reports(left: &Left, status: u8, report: &str) -> bool {
    left.status == status && left.out.text() == report.as_bytes() && !left.gave_up
}

/// Reports whether an observer counted this number of events, and keeps this one, the newest.
fn tells(tail: &Tail, count: u64, newest: &Option<Event>) -> bool {
    tail.count() == count && tail.newest(0) == *newest && tail.newest(1).is_none()
}

/// Reports whether the observer counted this number of events, and keeps this one, the newest.
fn is_told(left: &Left, count: u64, newest: &Option<Event>) -> Option<bool> {
    let watcher = left.run.as_ref()?.book.observers.first()?;
    Some(watcher.since == 0 && tells(&watcher.observer, count, newest))
}

/// Reports whether both links were negotiated, nothing came on the first one before its end, and the second one was
/// served after that.
fn are_served(came: &[Octets]) -> bool {
    match came.split_last() {
        Some((rest, answers)) => {
            rest.as_slice().is_empty()
                && are(answers, &[CONFIRM, GRANTED, CONFIRM, GRANTED, ANSWER])
        }
        None => false,
    }
}

/// Reports whether the first link ended with this outcome, the second one without a fault, and one entry was made.
fn have_ended(left: &Left, first: &Outcome) -> Option<bool> {
    let run = left.run.as_ref()?;
    match run.links.as_slice() {
        [one, two] => Some(
            one.outcome == *first && two.outcome == Outcome::Ended && run.book.journal.len() == 1,
        ),
        _ => None,
    }
}

/// Reports whether each read of a client shows what the entries before it left.
fn shares(alloc: Global, left: &Left) -> bool {
    match &left.run {
        Some(run) => is_whole(left, 8, 488) && is_shared(alloc, left.came.as_slice(), &run.book),
        None => false,
    }
}

/// Reports whether a call left what is wanted, of which this came to its first caller.
fn has_left(alloc: Global, left: &Left, came: &[Octets], wanted: &Wanted) -> bool {
    match wanted {
        Wanted::Reports(status, report, answers) => {
            reports(left, *status, report) && have_come(alloc, came, answers)
        }
        Wanted::Tells(count, newest) => is_told(left, *count, newest) == Some(true),
        Wanted::Ends(outcome) => are_served(came) && have_ended(left, outcome) == Some(true),
        Wanted::Reads(read, refused) => {
            is_whole(left, 200, *read) && are_answered(left, *read, *refused)
        }
        Wanted::Shares => shares(alloc, left),
    }
}

/// Reports whether a call left what is wanted.
fn is(alloc: Global, left: &Left, wanted: &Wanted) -> bool {
    match left.came.first() {
        Some(came) => has_left(alloc, left, came.as_slice(), wanted),
        None => false,
    }
}

/// Reports whether a row holds.
fn goes<R: Threads + Wait + Clock + Sync>(rt: &R, host: HostRuntime, row: &Row) -> bool {
    match called(rt, host, &row.call) {
        Some(left) => is(host.alloc(), &left, &row.wanted),
        None => false,
    }
}

/// The number of the first row that doesn't hold.
fn unmet<R: Threads + Wait + Clock + Sync>(
    rt: &R,
    host: HostRuntime,
    rows: &[Row],
) -> Option<usize> {
    for (number, row) in rows.iter().enumerate() {
        if !goes(rt, host, row) {
            return Some(number);
        }
    }
    None
}

/// Servers answer, report and leave what the rows say.
#[test]
fn servers_answer_and_leave_what_they_are_asked(rt: HostRuntime) {
    all_hold(&rt, unmet(&rt, rt, ROWS));
}
