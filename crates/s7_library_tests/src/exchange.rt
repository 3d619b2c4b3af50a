//! Exchanges of a client over a link, as texts say them.
//!
//! A text begins with its settings. Each has a line only if it isn't the usual: `jobs 1 2 8` are the numbers of
//! parallel jobs that are tried, each asked for and granted (1); `most 1 3 8192` are the greatest numbers of octets
//! that the link moves in a call, each tried too (8192); `pdu` is the PDU length that is asked for (480); `patience` is
//! the number of polls without progress after which a job ends (50); `room` is the number of octets for which the link
//! has room (4096); `fates` is what becomes of its first calls, `pass`, `wait` or `fail`, where `pass*3` is three of
//! them.
//!
//! The other lines happen one after another. `gives OCTETS` is a new link that gives these. A job has a line with its
//! end, as in `read ITEM : CODE : OCTETS : CODES : CARRIED`: its code in hex, the octets that were read, the return
//! codes and the message that it carries. The last ones may be left out. The job is polled once, and once more for each
//! call of the link that waits. `waited N` is the number of polls of the last job that were pending. `sent OCTETS` is
//! all that was written on the link, `begun N OCTETS` says that N octets were written, the first of these, and `count
//! N` is their number. `granted N` is the PDU length, or `granted none`. `closed` and `open` is the state of the
//! client. The lines of a client over pipes are those of `pipes`.
//!
//! The completion of the client counts each job that is done, once, with its number and its code.
//!
//! In octets `@` is the number of parallel jobs. A word in capitals is a name for the words after it in a text of
//! names.
use crate::asks::{job_of, number_of};
use crate::clients::{granted, is_closed, is_started, polled, swapped};
use crate::held::Done;
use crate::links::{failing_link, held, memory_link, new_pipes, written};
use crate::words::{MOST, are, filled, hex_number, number, octets_of, part, parted, small};
use s7_client::{Client, Config, Counter, JobResult, Polled};
use s7_memory::{FailingLink, Fate, MemoryLink, Pipes, Side};
use s7_outer::Octets;
use std::alloc::Global;

/// A text of names, a text in which `$1` to `$6` are the fields of a row, and the rows. A row has `|` between two
/// fields, or is the name of a text without fields.
pub(crate) type Form = (&'static str, &'static str, &'static str);

/// A row with which a form doesn't hold, and the number of the line that doesn't hold.
pub(crate) type Unmet = (&'static str, usize);

/// Names that every text may use. The item `FOUR` is four bytes of data block 1.
const NAMES: &str = "\
CONNECT 0300001611e00000000100c0010ac1020100c2020102
CONFIRM 0300001611d00001000100c0010ac1020100c2020102
SETUP 0300001902f08032010000000100080000f000000@000@01e0
GRANTED 0300001b02f080320300000001000800000000f000000@000@01e0
GRANTED_64 0300001b02f080320300000001000800000000f000000@000@0040
FOUR 84.1.02.4.0
READ 0300001f02f080320100000002000e00000401120a10020004000184000000
READ_ANSWER 0300001d02f0803203000000020002000800000401ff04002011223344
READ_AGAIN 0300001f02f080320100000003000e00000401120a10020004000184000000
READ_AGAIN_ANSWER 0300001d02f0803203000000030002000800000401ff04002055667788
DISCONNECT 0300000b06800001000180";

/// A client, its link and its pipes in the course of a text.
pub(crate) struct Exchange<'a> {
    pub(crate) alloc: Global,
    text: &'a str,
    most: usize,
    pub(crate) client: Client<Counter>,
    link: FailingLink<MemoryLink>,
    pub(crate) pipes: Pipes,
    /// The number of calls of each link that wait, and the number of polls of the last job that were pending.
    waits: u64,
    waited: u64,
    /// The number of jobs that are done, and the number and the code of the last one.
    finished: u64,
    last: Option<(u8, u32)>,
}

/// An exchange is dropped by a function of its own, so that its callers are cheap to prove.
impl Drop for Exchange<'_> {
    fn drop(self) {
        let Exchange {
            alloc: _,
            text: _,
            most: _,
            client: _,
            link: _,
            pipes: _,
            waits: _,
            waited: _,
            finished: _,
            last: _,
        } = self;
    }
}

/// The first row with which a line of its form doesn't hold, and the number of that line.
pub(crate) fn unmet(alloc: Global, forms: &[Form]) -> Option<Unmet> {
    for form in forms {
        if let Some(row) = unmet_row(alloc, form) {
            return Some(row);
        }
    }
    None
}

/// The first such row of a form. A line of the rows that begins with `#` describes the next row.
fn unmet_row(alloc: Global, form: &Form) -> Option<Unmet> {
    let (names, form, rows) = *form;
    for row in rows.lines() {
        if let Some(line) = unmet_with(alloc, names, form, row) {
            return Some((row, line));
        }
    }
    None
}

/// The number of the first line of the form that doesn't hold with a row.
fn unmet_with(alloc: Global, names: &str, form: &str, row: &str) -> Option<usize> {
    if row.starts_with('#') {
        return None;
    }
    match text_of(alloc, names, form, row) {
        Some(text) => unmet_at_any(alloc, text.as_str()),
        None => Some(0),
    }
}

/// The form with the fields of a row, and with the words of each name in its place, also for names in these words.
fn text_of(alloc: Global, names: &str, form: &str, row: &str) -> Option<String> {
    let text = with_values(alloc, names, form)?;
    let text = filled(alloc, text.as_str(), row)?;
    with_values(alloc, names, text.as_str())
}

/// The number of the first line that doesn't hold with a number of jobs.
fn unmet_at_any(alloc: Global, text: &str) -> Option<usize> {
    for jobs in setting(text, "jobs", "1").split_ascii_whitespace() {
        let unmet = unmet_at(alloc, text, jobs);
        if unmet.is_some() {
            return unmet;
        }
    }
    None
}

/// The number of the first line that doesn't hold with this number of jobs.
fn unmet_at(alloc: Global, text: &str, jobs: &str) -> Option<usize> {
    match text.replace(alloc, '@', jobs) {
        Ok(text) => unmet_in_pieces(alloc, text.as_str(), jobs),
        Err(_) => Some(0),
    }
}

/// The number of the first line that doesn't hold with a number of octets in a call.
fn unmet_in_pieces(alloc: Global, text: &str, jobs: &str) -> Option<usize> {
    for most in setting(text, "most", "8192").split_ascii_whitespace() {
        let unmet = unmet_line(alloc, text, jobs, most);
        if unmet.is_some() {
            return unmet;
        }
    }
    None
}

/// The number of the first line, from 0, that doesn't hold.
fn unmet_line(alloc: Global, text: &str, jobs: &str, most: &str) -> Option<usize> {
    match begun(alloc, text, jobs, most) {
        Some(mut exchange) => exchange.unmet(),
        None => Some(0),
    }
}

/// The text with the words of each name in its place.
fn with_values(alloc: Global, names: &str, text: &str) -> Option<String> {
    let mut all = String::new(alloc);
    for line in text.lines() {
        add_line(&mut all, names, line)?;
    }
    Some(all)
}

/// Adds a line with the words of each name in its place.
fn add_line(all: &mut String, names: &str, line: &str) -> Option<()> {
    for word in line.split_ascii_whitespace() {
        add(all, value_of(names, word))?;
        add(all, " ")?;
    }
    add(all, "\n")
}

/// Adds a text. The function promises nothing, so that its callers are cheap to prove.
fn add(all: &mut String, text: &str) -> Option<()> {
    all.push_str(text).ok()
}

/// The words of a name, or the word itself if it isn't a name.
fn value_of<'a>(names: &'a str, word: &'a str) -> &'a str {
    let common = setting(NAMES, word, word);
    setting(names, word, common)
}

/// The words after this word in a line that begins with it, or else the usual ones.
fn setting<'a>(text: &'a str, name: &str, usual: &'a str) -> &'a str {
    for line in text.lines() {
        let (word, value) = parted(line, ' ');
        if word == name {
            return value;
        }
    }
    usual
}

/// A client, its link and its pipes before the first line of a text.
fn begun<'a>(alloc: Global, text: &'a str, jobs: &str, most: &str) -> Option<Exchange<'a>> {
    let most = usize::from(small(most));
    let waits = waits_of(alloc, text)?;
    let link = link_of(alloc, text, "", most)?;
    let pipes = new_pipes(alloc, room_of(text))?;
    let client = client_of(alloc, text, jobs)?;
    Some(Exchange {
        alloc,
        text,
        most,
        client,
        link,
        pipes,
        waits,
        waited: 0,
        finished: 0,
        last: None,
    })
}

/// The number of calls of a link that wait.
fn waits_of(alloc: Global, text: &str) -> Option<u64> {
    let mut waits = 0u64;
    for fate in fates_of(alloc, text)?.as_slice() {
        if let Fate::NotYet = fate {
            waits = waits.saturating_add(1);
        }
    }
    Some(waits)
}

/// A client with the settings of the text.
fn client_of(alloc: Global, text: &str, jobs: &str) -> Option<Client<Counter>> {
    let config = Config {
        jobs: small(jobs).clamp(1, 8),
        pdu: small(setting(text, "pdu", "480")).clamp(64, 1_920),
        polls: u32::from(small(setting(text, "patience", "50")).max(1)),
        ..Config::new(1, 0, 2)
    };
    Client::new(alloc, config, Some(Counter::new())).ok()
}

/// A link that gives these octets, and whose calls pass.
fn passing_link(alloc: Global, text: &str, gives: &str, most: usize) -> Option<MemoryLink> {
    let input = Octets::of_vec(octets_of(alloc, gives)?);
    memory_link(alloc, input, most, room_of(text))
}

/// A link that gives these octets.
fn link_of(alloc: Global, text: &str, gives: &str, most: usize) -> Option<FailingLink<MemoryLink>> {
    let fates = fates_of(alloc, text)?;
    let inner = passing_link(alloc, text, gives, most)?;
    Some(failing_link(inner, fates))
}

/// The number of octets for which each link and each pipe has room.
fn room_of(text: &str) -> usize {
    usize::from(small(setting(text, "room", "4096")))
}

/// What becomes of the first calls of a link.
fn fates_of(alloc: Global, text: &str) -> Option<Vec<Fate>> {
    let mut fates = Vec::new(alloc);
    for word in setting(text, "fates", "").split_ascii_whitespace() {
        let (word, times) = word.split_once('*').unwrap_or((word, "1"));
        add_fates(&mut fates, fate_of(word)?, number(times))?;
    }
    Some(fates)
}

/// Adds a fate this number of times.
fn add_fates(fates: &mut Vec<Fate>, fate: Fate, times: u64) -> Option<()> {
    for _ in 0..times.min(MOST) {
        fates.push(fate).ok()?;
    }
    Some(())
}

/// The fate of this name.
fn fate_of(word: &str) -> Option<Fate> {
    match word {
        "pass" => Some(Fate::Pass),
        "wait" => Some(Fate::NotYet),
        "fail" => Some(Fate::Fail),
        _ => None,
    }
}

impl Exchange<'_> {
    /// The number of the first line, from 0, that doesn't hold.
    fn unmet(&mut self) -> Option<usize> {
        let mut number = 0usize;
        for line in self.text.lines() {
            if self.line_holds(line) != Some(true) || !self.is_counted() {
                return Some(number);
            }
            number = number.saturating_add(1);
        }
        None
    }

    /// Reports whether the completion counted the jobs that are done, and nothing else.
    fn is_counted(&mut self) -> bool {
        let Some(counter) = swapped(&mut self.client, None) else {
            return false;
        };
        let is_so = counter.calls() == self.finished && counter.last() == self.last;
        let _none = swapped(&mut self.client, Some(counter));
        is_so
    }

    /// Counts a job of this number, which is done.
    pub(crate) fn finish(&mut self, number: u8, told: &JobResult) {
        self.finished = self.finished.saturating_add(1);
        self.last = Some((number, told.code));
    }

    /// Reports whether a line holds.
    fn line_holds(&mut self, line: &str) -> Option<bool> {
        let (word, rest) = parted(line, ' ');
        match word {
            "jobs" | "most" | "pdu" | "patience" | "room" | "fates" => Some(true),
            "gives" => self.gives(rest),
            "sent" => Some(are(self.alloc, rest, written(&self.link))),
            "begun" => self.has_begun(rest),
            "count" => Some(written(&self.link).len() as u64 == number(rest)),
            _ => self.stands(word, rest, line),
        }
    }

    /// Replaces the link by a new one that gives these octets.
    fn gives(&mut self, octets: &str) -> Option<bool> {
        self.link = link_of(self.alloc, self.text, octets, self.most)?;
        Some(true)
    }

    /// Reports whether a line on the state of the client holds.
    fn stands(&mut self, word: &str, rest: &str, line: &str) -> Option<bool> {
        match word {
            "waited" => Some(self.waited == number(rest)),
            "granted" => Some(self.is_granted(rest)),
            "closed" => Some(is_closed(&self.client)),
            "open" => Some(!is_closed(&self.client)),
            _ => self.moves_on(word, rest, line),
        }
    }

    /// Reports whether a line on pipes holds.
    fn moves_on(&mut self, word: &str, rest: &str, line: &str) -> Option<bool> {
        match word {
            "starts" => self.starts(rest),
            "polls" => self.polls(rest),
            "busy" => self.is_busy(rest),
            "puts" => self.puts(rest),
            "takes" => self.takes(rest),
            "waiting" => Some(held(&self.pipes, Side::Server) == number(rest)),
            "unread" => Some(held(&self.pipes, Side::Client) == number(rest)),
            _ => self.ends(line),
        }
    }

    /// Reports whether N octets were written, the first of these.
    fn has_begun(&self, text: &str) -> Option<bool> {
        let (count, words) = parted(text, ' ');
        let count = usize::from(small(count));
        let octets = octets_of(self.alloc, words)?;
        let first = octets.as_slice().get(..count)?;
        Some(first == written(&self.link))
    }

    /// Reports whether the client has this PDU length, or none.
    fn is_granted(&self, pdu: &str) -> bool {
        match granted(&self.client) {
            Some(granted) => granted == small(pdu),
            None => pdu == "none",
        }
    }

    /// Reports whether a job ends as its line says.
    fn ends(&mut self, line: &str) -> Option<bool> {
        let (ask, end) = parted(line, ':');
        let number = number_of(ask)?;
        let done = self.done(ask)?;
        self.finish(number, &done.told);
        is_told(self.alloc, &done.told, end)
    }

    /// The result of a job, which the client takes, after one poll, or one more for each call that waits.
    fn done(&mut self, ask: &str) -> Option<Done> {
        let job = job_of(self.alloc, ask)?;
        if is_started(&mut self.client, self.alloc, job) {
            self.outcome()
        } else {
            None
        }
    }

    /// The result of the job that the client took.
    fn outcome(&mut self) -> Option<Done> {
        self.waited = 0;
        for _ in 0..self.waits.saturating_add(1) {
            match polled(&mut self.client, &mut self.link) {
                Polled::Done(told) => return Some(Done { told }),
                Polled::Pending => self.waited = self.waited.saturating_add(1),
                Polled::Idle => return None,
            }
        }
        None
    }
}

/// Reports whether the job ended so.
fn is_told(alloc: Global, told: &JobResult, end: &str) -> Option<bool> {
    let codes = told.codes.get(..usize::from(told.count))?;
    let is_so = hex_number(part(end, ':', 0)) == told.code
        && are(alloc, part(end, ':', 1), told.octets.as_slice())
        && are(alloc, part(end, ':', 2), codes)
        && are(alloc, part(end, ':', 3), told.carried.as_slice())
        && part(end, ':', 4).is_empty();
    Some(is_so)
}
