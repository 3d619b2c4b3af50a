//! Rows: words, a windows file and what two links give; the status, the text, what both links were told, and how many
//! telegrams are kept.
use crate::octets::{
    ANSWER, CONFIRM, CONNECT, FAR_ANSWER, FAR_GRANTED, FAR_READ, FAR_SETUP, GRANTED, NO_LINK,
    NO_ROOM, READ, SETUP, octets_of,
};
use s7_memory::{MemoryDial, MemoryFiles, MemoryLink, MemoryOut};
use s7_outer::Octets;
use s7_relay_main::{RelayEnd, relay_main};
use std::alloc::Global;
use std::process::Abort;
use std::sync::Wait;
use std::time::Clock;

/// Four octets of data block 1 are those of data block 7 from octet 10 on.
const WINDOWS: &str = "DB1 4 = DB7 10\n";

/// The same, and a second line for the same near area.
const DOUBLE: &str = "# near = far\nDB1 4 = DB7 10\nDB1 2 = DB8 0\n";

const USAGE: &str = "usage: s7relay WINDOWS\n";

/// How many octets the output takes, if a row says nothing else.
const ROOM: usize = 65_536;

/// The words, the text of `w.txt`, what the near link gives, what the far link gives if there is one, and how many
/// octets the output takes; then the status, what is printed, what the near link and the far link were told, and how
/// many telegrams are kept, `None` if nothing was served.
#[derive(Clone, Copy)]
struct Row {
    words: &'static [&'static str],
    windows: &'static str,
    near: &'static [&'static str],
    far: Option<&'static [&'static str]>,
    room: usize,
    status: u8,
    prints: &'static str,
    answered: &'static [&'static str],
    asked_far: &'static [&'static str],
    kept: Option<usize>,
}

/// What the relay leaves over links in memory.
type End = RelayEnd<MemoryLink, MemoryDial<MemoryLink>, MemoryLink>;

/// What a relay is handed and what it prints: its files, and the output.
struct Stage {
    files: MemoryFiles,
    out: MemoryOut,
}

// It is dropped by a function of its own, so that what drops it is soon proved.
impl Drop for Stage {
    fn drop(self) {
        let Stage { files: _, out: _ } = self;
    }
}

/// A link that gives these packets.
fn a_link(alloc: Global, packets: &[&str]) -> Option<MemoryLink> {
    let input = Octets::of_vec(octets_of(alloc, packets)?);
    MemoryLink::new(alloc, input, 8_192, 16_384, 0).ok()
}

/// The far link, if there is one; `Err` if memory is missing.
fn a_far_link(alloc: Global, far: Option<&[&str]>) -> Result<Option<MemoryLink>, ()> {
    match far {
        Some(packets) => match a_link(alloc, packets) {
            Some(link) => Ok(Some(link)),
            None => Err(()),
        },
        None => Ok(None),
    }
}

/// The dial whose link gives these packets; a dial without a link if there are none.
fn a_dial(alloc: Global, far: Option<&[&str]>) -> Option<MemoryDial<MemoryLink>> {
    match a_far_link(alloc, far) {
        Ok(link) => Some(MemoryDial::new(link)),
        Err(()) => None,
    }
}

/// A file `w.txt` of this text.
fn a_file(alloc: Global, text: Vec<u8>) -> Option<MemoryFiles> {
    let mut files = MemoryFiles::new();
    files.insert(alloc, "w.txt", Octets::of_vec(text)).ok()?;
    Some(files)
}

/// A file `w.txt` of this text, and an output that takes so many octets.
fn a_stage(alloc: Global, text: Vec<u8>, room: usize) -> Option<Stage> {
    let files = a_file(alloc, text)?;
    let out = MemoryOut::new(alloc, room).ok()?;
    Some(Stage { files, out })
}

/// The octets written on a link are these packets.
fn is_written(alloc: Global, link: &MemoryLink, packets: &[&str]) -> bool {
    match octets_of(alloc, packets) {
        Some(octets) => link.written() == octets.as_slice(),
        None => false,
    }
}

/// The far link, if the relay dialled one.
fn far_link(end: &End) -> Option<&MemoryLink> {
    match &end.doer {
        Some(doer) => doer.far_link(),
        None => None,
    }
}

/// What was asked over the far link is this; nothing if none was dialled.
fn is_asked_far(alloc: Global, end: &End, packets: &[&str]) -> bool {
    match far_link(end) {
        Some(link) => is_written(alloc, link, packets),
        None => packets.is_empty(),
    }
}

/// How many telegrams are kept; `None` if nothing was served.
fn count_of(end: &End) -> Option<usize> {
    match &end.doer {
        Some(doer) => Some(doer.kept().len()),
        None => None,
    }
}

/// What the relay leaves. Nothing is promised of it.
fn relayed<R: Wait + Clock>(
    rt: &R,
    alloc: Global,
    words: &[&str],
    stage: &mut Stage,
    pipe: MemoryLink,
    dial: MemoryDial<MemoryLink>,
) -> End {
    relay_main(
        rt,
        alloc,
        words,
        &mut stage.files,
        pipe,
        dial,
        &mut stage.out,
    )
}

/// What the relay leaves of a row.
fn end_of<R: Wait + Clock>(rt: &R, alloc: Global, row: &Row, stage: &mut Stage) -> Option<End> {
    let pipe = a_link(alloc, row.near)?;
    let dial = a_dial(alloc, row.far)?;
    Some(relayed(rt, alloc, row.words, stage, pipe, dial))
}

/// The near link was shut, and its outcome is there, exactly if telegrams were served.
fn is_ended(end: &End, served: bool) -> bool {
    end.outcome.is_some() == served && end.line.is_shut() == served
}

/// The relay left the status of a row, what both links were told, and how many telegrams are kept.
fn is_left(alloc: Global, end: &End, row: &Row) -> bool {
    end.status == row.status
        && is_written(alloc, &end.line, row.answered)
        && is_asked_far(alloc, end, row.asked_far)
        && count_of(end) == row.kept
        && is_ended(end, row.kept.is_some())
}

/// A row goes as it says over these objects.
fn goes_on<R: Wait + Clock>(rt: &R, alloc: Global, row: &Row, stage: &mut Stage) -> bool {
    match end_of(rt, alloc, row, stage) {
        Some(end) => is_left(alloc, &end, row) && stage.out.text() == row.prints.as_bytes(),
        None => false,
    }
}

/// A row goes as it says if its windows file has this text.
fn goes_over<R: Wait + Clock>(rt: &R, alloc: Global, row: &Row, text: Vec<u8>) -> bool {
    match a_stage(alloc, text, row.room) {
        Some(mut stage) => goes_on(rt, alloc, row, &mut stage),
        None => false,
    }
}

/// A row goes as it says.
fn goes<R: Wait + Clock>(rt: &R, alloc: Global, row: &Row) -> bool {
    match row.windows.as_bytes().to_vec(alloc) {
        Ok(text) => goes_over(rt, alloc, row, text),
        Err(_) => false,
    }
}

/// The words of most rows.
const WORDS: &[&str] = &["w.txt"];

const ROWS: &[Row] = &[
    // Nothing is asked.
    Row {
        words: WORDS,
        windows: WINDOWS,
        near: &[],
        far: None,
        room: ROOM,
        status: 0,
        prints: "link 1 ended entries 0\njournal 0\n",
        answered: &[],
        asked_far: &[],
        kept: Some(0),
    },
    // A read is asked far, at the window's octet.
    Row {
        words: WORDS,
        windows: WINDOWS,
        near: &[CONNECT, SETUP, READ],
        far: Some(&[CONFIRM, FAR_GRANTED, FAR_ANSWER]),
        room: ROOM,
        status: 0,
        prints: "link 1 ended entries 1\njournal 1\n",
        answered: &[CONFIRM, GRANTED, ANSWER],
        asked_far: &[CONNECT, FAR_SETUP, FAR_READ],
        kept: Some(1),
    },
    // The far link ends there, and the next read dials again, in vain.
    Row {
        words: WORDS,
        windows: WINDOWS,
        near: &[CONNECT, SETUP, READ, READ],
        far: Some(&[CONFIRM, FAR_GRANTED]),
        room: ROOM,
        status: 0,
        prints: "link 1 ended entries 2\njournal 2\n",
        answered: &[CONFIRM, GRANTED, NO_LINK, NO_LINK],
        asked_far: &[CONNECT, FAR_SETUP, FAR_READ],
        kept: Some(2),
    },
    // No more telegrams are kept than the words say.
    Row {
        words: &["--journal", "1", "w.txt"],
        windows: WINDOWS,
        near: &[CONNECT, SETUP, READ, READ],
        far: None,
        room: ROOM,
        status: 0,
        prints: "link 1 ended entries 1\njournal 1\n",
        answered: &[CONFIRM, GRANTED, NO_LINK, NO_ROOM],
        asked_far: &[],
        kept: Some(1),
    },
    // The near link ends inside a packet.
    Row {
        words: &["w.txt", "--host=far", "--port=+0102", "--polls", "1"],
        windows: WINDOWS,
        near: &[CONNECT, "0300001902"],
        far: None,
        room: ROOM,
        status: 0,
        prints: "link 1 torn 5 entries 0\njournal 0\n",
        answered: &[CONFIRM],
        asked_far: &[],
        kept: Some(0),
    },
    // The output takes less than the report.
    Row {
        words: WORDS,
        windows: WINDOWS,
        near: &[CONNECT],
        far: None,
        room: 11,
        status: 5,
        prints: "link 1 ende",
        answered: &[CONFIRM],
        asked_far: &[],
        kept: Some(0),
    },
    // The windows file has a faulty line, and the near link isn't used.
    Row {
        words: WORDS,
        windows: DOUBLE,
        near: &[CONNECT, SETUP, READ],
        far: None,
        room: ROOM,
        status: 2,
        prints: "windows line 3\n",
        answered: &[],
        asked_far: &[],
        kept: None,
    },
    // There is no such file.
    Row {
        words: &["none.txt"],
        windows: WINDOWS,
        near: &[CONNECT, SETUP, READ],
        far: None,
        room: ROOM,
        status: 3,
        prints: "file failed none.txt\n",
        answered: &[],
        asked_far: &[],
        kept: None,
    },
];

/// The row of a windows file that is too long.
const TOO_LONG: Row = Row {
    words: WORDS,
    windows: "",
    near: &[CONNECT, SETUP, READ],
    far: None,
    room: ROOM,
    status: 2,
    prints: "windows too long\n",
    answered: &[],
    asked_far: &[],
    kept: None,
};

/// The length of a windows file that is too long by one octet.
const TOO_MANY: usize = 67_108_865;

/// A windows file that is a comment of this length is refused.
fn is_too_long<R: Wait + Clock>(rt: &R, alloc: Global, len: usize) -> bool {
    match vec![in alloc; b'#'; len] {
        Ok(text) => goes_over(rt, alloc, &TOO_LONG, text),
        Err(_) => false,
    }
}

/// Words that are usage.
const USAGES: &[&[&str]] = &[
    &[],
    &["w.txt", "w.txt"],
    &["--help"],
    &["w.txt", "--port", "0"],
    &["w.txt", "--polls", "0"],
    &["w.txt", "--journal", "262145"],
    &["w.txt", "--pdu", "480"],
];

/// The row of words that are usage.
fn usage(words: &'static [&'static str]) -> Row {
    Row {
        words,
        windows: WINDOWS,
        near: &[CONNECT, SETUP, READ],
        far: Some(&[CONFIRM, FAR_GRANTED, FAR_ANSWER]),
        room: ROOM,
        status: 1,
        prints: USAGE,
        answered: &[],
        asked_far: &[],
        kept: None,
    }
}

/// The number of the first row that doesn't go as it says.
fn unmet<R: Wait + Clock>(rt: &R, alloc: Global, rows: &[Row]) -> Option<usize> {
    for (number, row) in rows.iter().enumerate() {
        if !goes(rt, alloc, row) {
            return Some(number);
        }
    }
    None
}

/// The number of the first words that aren't usage.
fn unmet_words<R: Wait + Clock>(
    rt: &R,
    alloc: Global,
    usages: &[&'static [&'static str]],
) -> Option<usize> {
    for (number, words) in usages.iter().enumerate() {
        if !goes(rt, alloc, &usage(words)) {
            return Some(number);
        }
    }
    None
}

/// Ends the test with the number of a row that doesn't hold, if there is one.
fn all_hold(rt: &impl Abort, unmet: Option<usize>) {
    assert!(rt;
        unmet.is_none(),
        "the first row that doesn't hold is {unmet:?}"
    );
}

/// Each row goes as it says.
#[test]
fn rows_go(rt: HostRuntime) {
    all_hold(&rt, unmet(&rt, rt.alloc(), ROWS));
}

/// Other words are usage.
#[test]
fn other_words_are_usage(rt: HostRuntime) {
    all_hold(&rt, unmet_words(&rt, rt.alloc(), USAGES));
}

/// A windows file that is too long is refused.
#[test]
fn long_windows_are_refused(rt: HostRuntime) {
    assert!(rt; is_too_long(&rt, rt.alloc(), TOO_MANY));
}
