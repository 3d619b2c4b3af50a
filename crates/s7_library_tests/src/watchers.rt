//! A rig with a watcher of 2,048 tags beside two clients that write. The text that the tool prints is compared with what
//! the entries of the journal left in the area.
use crate::held::Rig;
use s7_client::Counter;
use s7_item::{BoxedDataItems, Item};
use s7_memory::{MemoryDial, MemoryFiles, MemoryLink, MemoryOut};
use s7_outer::Octets;
use s7_plant::{Entry, Request};
use s7_tool_main::{ToolEnd, tool_main};
use std::alloc::Global;

/// The number of tags. Tag `k` is the number in the two octets of data block 1 from octet `2 * k` on.
const TAGS: u32 = 2_048;

/// The number of tags of one read.
const AT_ONCE: u32 = 20;

/// The number of rounds.
const ROUNDS: u32 = 100;

/// The number of writes of each of the two clients.
const WRITES: u32 = 5_000;

/// The link of the watcher; those of the other two clients are 1 and 2.
const WATCHER: u32 = 3;

/// The tag that the write of this number of a client changes, and the new value.
fn written(client: u32, number: u32) -> (u32, u16) {
    let tag = number
        .wrapping_mul(613)
        .wrapping_add(client.wrapping_mul(977))
        % TAGS;
    let value = number.wrapping_mul(7).wrapping_add(client) % 0x1_0000;
    (tag, value as u16)
}

/// The word for the areas: data block 1 with two octets 00 for each tag.
fn areas_word(alloc: Global) -> Option<String> {
    let mut word = String::from_str(alloc, "DB1=").ok()?;
    for _ in 0..TAGS {
        word.push_str("0000").ok()?;
    }
    Some(word)
}

/// The line of a tag in the tag file.
fn tag_line(alloc: Global, tag: u32) -> Option<String> {
    let at = tag.wrapping_mul(2);
    format!(in alloc; "T{tag} INT DB1 {at}\n").ok()
}

/// The text of the tag file.
fn tags_text(alloc: Global) -> Option<String> {
    let mut text = String::new(alloc);
    for tag in 0..TAGS {
        add(&mut text, tag_line(alloc, tag)?.as_str())?;
    }
    Some(text)
}

/// The line of a client's write of this number.
fn write_line(alloc: Global, client: u32, number: u32) -> Option<String> {
    let (tag, value) = written(client, number);
    let at = tag.wrapping_mul(2);
    format!(in alloc; "write DB1 byte {at} {value:04x}\n").ok()
}

/// The script of a client.
fn script_text(alloc: Global, client: u32) -> Option<String> {
    let mut text = String::new(alloc);
    for number in 0..WRITES {
        add(&mut text, write_line(alloc, client, number)?.as_str())?;
    }
    Some(text)
}

/// Adds a text. The function promises nothing, so that its callers are cheap to prove.
fn add(all: &mut String, text: &str) -> Option<()> {
    all.push_str(text).ok()
}

/// The line of a client's result.
fn result_line(alloc: Global, client: u32, number: u32, job: &str) -> Option<String> {
    format!(in alloc; "client {client} line {number} {job} 00000000 -\n").ok()
}

/// Adds the line of a client's result.
fn add_result(alloc: Global, text: &mut String, client: u32, number: u32, job: &str) -> Option<()> {
    add(text, result_line(alloc, client, number, job)?.as_str())
}

/// Adds the lines of a client's results.
fn add_client(alloc: Global, text: &mut String, client: u32) -> Option<()> {
    add_result(alloc, text, client, 0, "connect")?;
    for number in 1..=WRITES {
        add_result(alloc, text, client, number, "write")?;
    }
    Some(())
}

/// A file with this text.
fn add_file(alloc: Global, files: &mut MemoryFiles, path: &str, text: &str) -> Option<()> {
    let octets = Octets::copy_of(alloc, text.as_bytes()).ok()?;
    files.insert(alloc, path, octets).ok()
}

/// Adds the tag file and both scripts.
fn add_files(alloc: Global, files: &mut MemoryFiles) -> Option<()> {
    add_file(alloc, files, "t", tags_text(alloc)?.as_str())?;
    add_file(alloc, files, "a", script_text(alloc, 1)?.as_str())?;
    add_file(alloc, files, "b", script_text(alloc, 2)?.as_str())
}

/// The tag file and both scripts.
fn all_files(alloc: Global) -> Option<MemoryFiles> {
    let mut files = MemoryFiles::new();
    match add_files(alloc, &mut files) {
        Some(()) => Some(files),
        None => None,
    }
}

/// The end of a rig that the tool runs. There is none if the status isn't 0. Only this function calls `tool_main`,
/// since each function that calls it is costly to prove.
fn ended(
    alloc: Global,
    words: &[&str],
    files: &mut MemoryFiles,
    dial: &mut MemoryDial<MemoryLink>,
    out: &mut MemoryOut,
) -> Option<Rig> {
    let ToolEnd { status, rig, .. } = tool_main(alloc, words, files, dial, out, None::<Counter>);
    let rig = Rig { end: rig? };
    if status == 0 { Some(rig) } else { None }
}

/// The end of the rig, if the status is 0. Its text goes to the output.
fn watched(alloc: Global, out: &mut MemoryOut) -> Option<Rig> {
    let areas = areas_word(alloc)?;
    let mut files = all_files(alloc)?;
    let mut dial: MemoryDial<MemoryLink> = MemoryDial::new(None);
    let words = [
        "rig",
        areas.as_str(),
        "a",
        "b",
        "--watch",
        "t",
        "--rounds",
        "100",
    ];
    ended(alloc, &words, &mut files, &mut dial, out)
}

/// What the entries so far left in the area, what the watcher read last of each tag, its next tag and round, and the
/// lines that it owes.
struct Walk {
    values: Vec<u16>,
    lasts: Vec<Option<u16>>,
    tag: u32,
    round: u32,
    lines: String,
}

/// A walk is dropped by a function of its own, so that its callers are cheap to prove.
impl Drop for Walk {
    fn drop(self) {
        let Walk {
            values: _,
            lasts: _,
            tag: _,
            round: _,
            lines: _,
        } = self;
    }
}

impl Walk {
    /// A walk before the first entry.
    fn new(alloc: Global) -> Option<Walk> {
        Some(Walk {
            values: vec![in alloc; 0; TAGS as usize].ok()?,
            lasts: vec![in alloc; None; TAGS as usize].ok()?,
            tag: 0,
            round: 1,
            lines: String::new(alloc),
        })
    }

    /// Takes the next entry. There is no answer if it is neither a write of one of the two clients nor the next read of
    /// the watcher.
    fn take(&mut self, alloc: Global, entry: &Entry) -> Option<()> {
        match &entry.ask.request {
            Request::Read { items } if entry.link == WATCHER => self.reads(alloc, items.as_slice()),
            Request::Write {
                items,
                places,
                octets,
            } if entry.link < WATCHER => self.writes(items.as_slice(), first_of(places, octets)?),
            _ => None,
        }
    }

    /// Takes a write of one tag.
    fn writes(&mut self, items: &[Item], value: &[u8]) -> Option<()> {
        let [item] = items else {
            return None;
        };
        let [high, low] = value else {
            return None;
        };
        let tag = item.address / 16;
        if *item != item_of(tag) {
            return None;
        }
        *self.values.get_mut(tag as usize)? = u16::from_be_bytes([*high, *low]);
        Some(())
    }

    /// Takes a read of the next tags: as many as one read has, or all that are left in the round.
    fn reads(&mut self, alloc: Global, items: &[Item]) -> Option<()> {
        let left = TAGS.checked_sub(self.tag)?;
        if items.len() != left.min(AT_ONCE) as usize {
            return None;
        }
        for item in items {
            self.reads_next(alloc, item)?;
        }
        if self.tag == TAGS {
            self.tag = 0;
            self.round = self.round.wrapping_add(1);
        }
        Some(())
    }

    /// Takes the item of the next tag, and adds the line that its value owes.
    fn reads_next(&mut self, alloc: Global, item: &Item) -> Option<()> {
        let (tag, round) = (self.tag, self.round);
        if *item != item_of(tag) {
            return None;
        }
        let value = *self.values.get(tag as usize)?;
        if self.is_new(tag, value)? {
            let line = sample_line(alloc, round, tag, signed(value))?;
            add(&mut self.lines, line.as_str())?;
        }
        self.tag = tag.wrapping_add(1);
        Some(())
    }

    /// Keeps the value of a tag as its last one. Reports whether it is another one than before.
    fn is_new(&mut self, tag: u32, value: u16) -> Option<bool> {
        let last = self.lasts.get_mut(tag as usize)?;
        let before = *last;
        *last = Some(value);
        Some(before != Some(value))
    }

    /// Reports whether the watcher read all tags in all rounds.
    fn is_over(&self) -> bool {
        self.tag == 0 && self.round == ROUNDS + 1
    }
}

/// The octets that a write has for its first item.
fn first_of<'a>(places: &BoxedDataItems, octets: &'a Octets) -> Option<&'a [u8]> {
    let place = places.list().get(0)?;
    octets.as_slice().get(place.from..)?.get(..place.len)
}

/// The line of a sample.
fn sample_line(alloc: Global, round: u32, tag: u32, shown: i32) -> Option<String> {
    format!(in alloc; "round {round} T{tag} {shown}\n").ok()
}

/// The number whose two octets have this value.
fn signed(value: u16) -> i32 {
    if value < 0x8000 {
        i32::from(value)
    } else {
        i32::from(value) - 0x1_0000
    }
}

/// The item of a tag.
fn item_of(tag: u32) -> Item {
    Item {
        area: 0x84,
        db: 1,
        word: 0x02,
        count: 2,
        address: tag.wrapping_mul(16),
    }
}

/// Takes all entries of the journal. Reports whether the watcher read all tags in all rounds.
fn takes_all(alloc: Global, walk: &mut Walk, entries: &[Entry]) -> Option<bool> {
    for entry in entries {
        walk.take(alloc, entry)?;
    }
    Some(walk.is_over())
}

/// The walk over all entries of the journal.
fn walked(alloc: Global, entries: &[Entry]) -> Option<Walk> {
    let mut walk = Walk::new(alloc)?;
    if takes_all(alloc, &mut walk, entries) == Some(true) {
        Some(walk)
    } else {
        None
    }
}

/// The last line, which has the number of entries.
fn last_line(alloc: Global, count: usize) -> Option<String> {
    format!(in alloc; "journal {count}\n").ok()
}

/// Adds the text that the tool owes for these entries.
fn add_owed(alloc: Global, text: &mut String, entries: &[Entry]) -> Option<()> {
    add_client(alloc, text, 1)?;
    add_client(alloc, text, 2)?;
    add(text, walked(alloc, entries)?.lines.as_str())?;
    add(text, last_line(alloc, entries.len())?.as_str())
}

/// Reports whether the output has the text that these entries owe.
fn owes(alloc: Global, out: &MemoryOut, entries: &[Entry]) -> Option<bool> {
    let mut owed = String::new(alloc);
    add_owed(alloc, &mut owed, entries)?;
    Some(out.text() == owed.as_bytes())
}

/// Reports whether the text that the tool printed is the one that the journal owes.
fn is_as_owed(alloc: Global) -> Option<bool> {
    let mut out = MemoryOut::new(alloc, 4_000_000).ok()?;
    let rig = watched(alloc, &mut out)?;
    owes(alloc, &out, rig.end.book.journal.as_slice())
}

/// Each line of a watcher of 2,048 tags over 100 rounds is what stood at its entry.
#[test]
fn lines_are_what_stood_at_their_entries(rt: HostRuntime) {
    assert!(rt; is_as_owed(rt.alloc()) == Some(true));
}
