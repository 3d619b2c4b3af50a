//! Tests of watchers of tags: the jobs of their reads, and the lines of the results that they take.
ghost use Rattle.std.specs.Prelude.{◌≡◌, ◌≤◌, length, true, IfSome};
ghost use Rattle.s7_client.specs.Form.{count_read, octets_read};
ghost use Rattle.s7_script.specs.Printing.{IsPrintableOf};

use crate::asks::is_job;
use crate::held::{Done, HeldJob};
use crate::rows::all_hold;
use crate::tag_scripts::tags_of;
use crate::words::octets_of;
use s7_client::{Job, JobResult};
use s7_item::Item;
use s7_item::codes::GOOD;
use s7_outer::Octets;
use s7_symbol::Tags;
use s7_watch::Watch;
use std::alloc::Global;

/// A read: its job, its code, the return codes of its items, the octets that were read, and the lines.
type Read = (&'static str, u32, &'static str, &'static str, &'static str);

/// Tags, a number of rounds, and all reads. No job is left after them.
type Row = (&'static str, u32, &'static [Read]);

/// Two tags.
const TWO: &str = "A INT DB1 0\nB INT DB1 2\n";

/// The job that reads them.
const READ_TWO: &str = "readmany 84.1.02.2.0 84.1.02.2.16";

/// Three tags.
const THREE: &str = "A INT DB1 0\nB INT DB1 2\nC BCD MK 0\n";

/// The job that reads them.
const READ_THREE: &str = "readmany 84.1.02.2.0 84.1.02.2.16 83.0.02.2.0";

/// Twenty-one tags, one more than a job reads.
const MANY: &str = "\
T1 BOOL MK 0.0
T2 BOOL MK 0.1
T3 BOOL MK 0.2
T4 BOOL MK 0.3
T5 BOOL MK 0.4
T6 BOOL MK 0.5
T7 BOOL MK 0.6
T8 BOOL MK 0.7
T9 BOOL MK 1.0
T10 BOOL MK 1.1
T11 BOOL MK 1.2
T12 BOOL MK 1.3
T13 BOOL MK 1.4
T14 BOOL MK 1.5
T15 BOOL MK 1.6
T16 BOOL MK 1.7
T17 BOOL MK 2.0
T18 BOOL MK 2.1
T19 BOOL MK 2.2
T20 BOOL MK 2.3
T21 BOOL MK 2.4
";

/// The job that reads the first twenty.
const READ_TWENTY: &str = "readmany \
83.0.01.1.0 83.0.01.1.1 83.0.01.1.2 83.0.01.1.3 83.0.01.1.4 83.0.01.1.5 83.0.01.1.6 83.0.01.1.7 \
83.0.01.1.8 83.0.01.1.9 83.0.01.1.10 83.0.01.1.11 83.0.01.1.12 83.0.01.1.13 83.0.01.1.14 83.0.01.1.15 \
83.0.01.1.16 83.0.01.1.17 83.0.01.1.18 83.0.01.1.19";

/// The lines of their first samples.
const TWENTY_LINES: &str = "\
round 1 T1 0
round 1 T2 0
round 1 T3 0
round 1 T4 0
round 1 T5 0
round 1 T6 0
round 1 T7 0
round 1 T8 0
round 1 T9 0
round 1 T10 0
round 1 T11 0
round 1 T12 0
round 1 T13 0
round 1 T14 0
round 1 T15 0
round 1 T16 0
round 1 T17 0
round 1 T18 0
round 1 T19 0
round 1 T20 1
";

/// Watchers and their reads.
const WATCHED: &[Row] = &[
    (TWO, 0, &[]),
    // Values that stay are not printed again.
    (
        TWO,
        2,
        &[
            (
                READ_TWO,
                0,
                "FFFF",
                "00010002",
                "round 1 A 1\nround 1 B 2\n",
            ),
            (READ_TWO, 0, "FFFF", "00010002", ""),
        ],
    ),
    (
        TWO,
        2,
        &[
            (
                READ_TWO,
                0,
                "FFFF",
                "00010002",
                "round 1 A 1\nround 1 B 2\n",
            ),
            (READ_TWO, 0, "FFFF", "00010007", "round 2 B 7\n"),
        ],
    ),
    // Refused items have a code and no octets. Octets that aren't a value are printed.
    (
        THREE,
        5,
        &[
            (
                READ_THREE,
                0,
                "FFFF05",
                "00010002",
                "round 1 A 1\nround 1 B 2\nround 1 C code 05\n",
            ),
            (
                READ_THREE,
                0,
                "FFFFFF",
                "000100071A00",
                "round 2 B 7\nround 2 C bad 1a00\n",
            ),
            (READ_THREE, 0, "05FFFF", "00071A00", "round 3 A code 05\n"),
            (
                READ_THREE,
                0,
                "0A0AFF",
                "0012",
                "round 4 A code 0A\nround 4 B code 0A\nround 4 C 12\n",
            ),
            (READ_THREE, 0, "FF0AFF", "00010012", "round 5 A 1\n"),
        ],
    ),
    // No job is left after one that failed.
    (
        TWO,
        3,
        &[
            (
                READ_TWO,
                0,
                "FFFF",
                "FFFE0002",
                "round 1 A -2\nround 1 B 2\n",
            ),
            (READ_TWO, 0x0230_0000, "", "", "round 2 failed 02300000\n"),
        ],
    ),
    (
        TWO,
        4_294_967_295,
        &[(READ_TWO, 0x0001_0000, "", "", "round 1 failed 00010000\n")],
    ),
    // The last job of a round reads the rest of the tags.
    (
        MANY,
        2,
        &[
            (READ_TWENTY, 0, "FF*20", "00*19 01", TWENTY_LINES),
            ("readmany 83.0.01.1.20", 0, "FF", "01", "round 1 T21 1\n"),
            (READ_TWENTY, 0, "FF*20", "01 00*18 01", "round 2 T1 1\n"),
            ("readmany 83.0.01.1.20", 0, "FF", "00", "round 2 T21 0\n"),
        ],
    ),
];

/// The result of a job, with what the read says of it.
fn result_of(alloc: Global, job: Job, read: &Read) -> Option<JobResult>
    ensures { IfSome result (λ given. given.job ≡ job) }
{
    let (codes, count) = codes_of(alloc, read.2)?;
    Some(JobResult {
        job,
        code: read.1,
        octets: octets(alloc, read.3)?,
        codes,
        count,
        carried: Octets::of_vec(Vec::new(alloc)),
    })
}

/// The first twenty return codes of a text, and the number of all.
fn codes_of(alloc: Global, text: &str) -> Option<([u8; 20], u8)> {
    let given = octets_of(alloc, text)?;
    let mut codes = [0; 20];
    for (k, code) in given.iter().enumerate() {
        if k < 20 {
            codes[k] = *code;
        }
    }
    Some((codes, u8::try_from(given.len()).ok()?))
}

/// The octets of a text.
fn octets(alloc: Global, text: &str) -> Option<Octets> {
    Some(Octets::of_vec(octets_of(alloc, text)?))
}

/// Reports whether a result is that of a read of several items, with a code for each item and the octets of those that
/// were read if the job succeeded.
fn is_read(done: &JobResult) -> bool
    ensures { result ≡ true → done.now.code ≡ 0 → IsPrintableOf done.now done.now.job }
{
    let Job::ReadMany { items } = &done.job else {
        return false;
    };
    if done.code != 0 {
        return true;
    }
    let count = usize::from(done.count);
    let items = items.as_slice();
    if count > 20 || count != items.len() {
        return false;
    }
    done.octets.as_slice().len() == octets_read(items, &done.codes[..count])
}

/// The number of octets that items with these codes give.
fn octets_read(items: &[Item], codes: &[u8]) -> usize
    requires codes { length codes.now ≡ length items.now }
    requires few { length items.now ≤ 20 }
    ensures { result ≡ octets_read items.now codes.now }
{
    let mut total = 0;
    for (k, item) in items.iter().enumerate() {
        total += count_read(item, codes[k]);
    }
    total
}

/// The number of octets that an item with this code gives.
fn count_read(item: &Item, code: u8) -> usize
    ensures count { result ≡ count_read item.now code }
    ensures most { result ≤ 262140 }
{
    if code == GOOD { item.octet_count() } else { 0 }
}

/// A watcher of the tags of a text. There is none for a text without a tag.
fn watch_of(alloc: Global, text: &str, rounds: u32) -> Option<Watch> {
    new_watch(alloc, &tags_of(alloc, text)?, rounds)
}

/// A watcher of these tags, if there is one.
fn new_watch(alloc: Global, tags: &Tags, rounds: u32) -> Option<Watch> {
    if tags.as_slice().is_empty() {
        return None;
    }
    Watch::new(alloc, tags, rounds).ok()
}

/// The lines that a watcher gives for the result of its next job, if that job is the read's.
fn lines_of(alloc: Global, watch: &mut Watch, read: &Read) -> Option<Octets> {
    let Ok(Some(job)) = watch.job(alloc) else {
        return None;
    };
    if is_job(alloc, &job, read.0) != Some(true) {
        let _job = HeldJob { job };
        return None;
    }
    let Some(done) = result_of(alloc, job, read) else {
        return None;
    };
    if !is_read(&done) {
        let _done = Done { told: done };
        return None;
    }
    let lines = watch.take(alloc, &done).ok();
    let _done = Done { told: done };
    lines
}

/// Reports whether the watcher has no next job.
fn is_over(alloc: Global, watch: &mut Watch) -> bool {
    matches!(watch.job(alloc), Ok(None))
}

/// Reports whether the reads of a row come one after another, and no job is left.
fn watches(alloc: Global, row: &Row) -> Option<bool> {
    let mut watch = watch_of(alloc, row.0, row.1)?;
    for read in row.2 {
        if lines_of(alloc, &mut watch, read)?.as_slice() != read.4.as_bytes() {
            return Some(false);
        }
    }
    Some(is_over(alloc, &mut watch))
}

/// The number of the first row that doesn't hold.
fn unmet(alloc: Global, rows: &[Row]) -> Option<usize> {
    for (number, row) in rows.iter().enumerate() {
        if watches(alloc, row) != Some(true) {
            return Some(number);
        }
    }
    None
}

/// Watchers ask for their jobs in order, and print the samples that changed.
#[test]
fn changes_are_printed(rt: HostRuntime) {
    all_hold(&rt, unmet(rt.alloc(), WATCHED));
}
