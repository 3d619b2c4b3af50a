//! Tests of scripts that name tags: the jobs of their lines, their first wrong lines, and the lines of results of jobs
//! that get or put a tag.
use crate::asks::is_job;
use crate::held::HeldJob;
use crate::printing::done_of;
use crate::rows::all_hold;
use crate::words::octets_of;
use crate::wrong_lines::{Row, Wrong};
use s7_client::JobResult;
use s7_outer::Octets;
use s7_script::{ScriptKind, ScriptLine, print_tag, read_tag_script};
use s7_symbol::{TagKind, Tags, read_tags};
use std::alloc::Global;

/// A tag of each type.
pub(crate) const TAGS: &str = "\
Speed INT DB1 0
Bit BOOL DB1 4.3
Total DINT DB1 6
Count BCD MK 10
Delay S5TIME PE 0
Name STRING[4] DB65535 20
Moment DATE_AND_TIME PA 100
";

/// The tags of a tag file. The function promises nothing, so that its callers are cheap to prove.
pub(crate) fn tags_of(alloc: Global, text: &str) -> Option<Tags> {
    read_tags(alloc, text.as_bytes()).ok()
}

/// The lines of a script with tags, or its first wrong line and the fault of that line. The function promises nothing,
/// so that its callers are cheap to prove.
pub(crate) fn lines_of(
    alloc: Global,
    tags: &Tags,
    text: &str,
) -> Result<Vec<ScriptLine>, (u32, ScriptKind)> {
    match read_tag_script(alloc, text.as_bytes(), tags) {
        Ok(script) => Ok(script.into_vec()),
        Err(fault) => Err((fault.line, fault.kind)),
    }
}

/// The last line of a text that names a job.
fn last_line(alloc: Global, text: &str) -> Option<ScriptLine> {
    let tags = tags_of(alloc, TAGS)?;
    lines_of(alloc, &tags, text).ok()?.pop()
}

/// A text, the type of the tag that its last line gets or puts, and the job of that line.
type Named = (&'static str, Option<TagKind>, &'static str);

/// Lines, the types of the tags that they get or put, and their jobs with the items by area in hex, data block, word in
/// hex, count and address in bits.
const JOBS: &[Named] = &[
    ("get Speed", Some(TagKind::Int), "read 84.1.02.2.0"),
    ("get Bit", Some(TagKind::Bool), "read 84.1.01.1.35"),
    ("get Total", Some(TagKind::Dint), "read 84.1.02.4.48"),
    ("get Count", Some(TagKind::Bcd), "read 83.0.02.2.80"),
    ("get Delay", Some(TagKind::S5Time), "read 81.0.02.2.0"),
    ("get Name", Some(TagKind::Text(4)), "read 84.65535.02.6.160"),
    ("get Moment", Some(TagKind::DateTime), "read 82.0.02.8.800"),
    (
        "put Speed -2",
        Some(TagKind::Int),
        "write 84.1.02.2.0 = fffe",
    ),
    ("put Bit 0", Some(TagKind::Bool), "write 84.1.01.1.35 = 00"),
    ("put Bit 1", Some(TagKind::Bool), "write 84.1.01.1.35 = 01"),
    (
        "put Total -1",
        Some(TagKind::Dint),
        "write 84.1.02.4.48 = ffffffff",
    ),
    (
        "put Count 9071",
        Some(TagKind::Bcd),
        "write 83.0.02.2.80 = 9071",
    ),
    (
        "put Delay 123.1",
        Some(TagKind::S5Time),
        "write 81.0.02.2.0 = 1123",
    ),
    (
        "put Name 4142",
        Some(TagKind::Text(4)),
        "write 84.65535.02.6.160 = 040241420000",
    ),
    (
        "put Name -",
        Some(TagKind::Text(4)),
        "write 84.65535.02.6.160 = 040000000000",
    ),
    (
        "put Moment 2024-02-29T13:45:30.123",
        Some(TagKind::DateTime),
        "write 82.0.02.8.800 = 2402291345301235",
    ),
    // The lines of other scripts name no tag.
    ("read DB1 byte 0 4", None, "read 84.1.02.4.0"),
    ("write MK bit 0.7 01", None, "write 83.0.01.1.7 = 01"),
    ("get Speed\n# x\nstop", None, "stop"),
];

/// Reports whether the last line of a text names this job, and gets or puts a tag of this type.
fn names(alloc: Global, row: &Named) -> Option<bool> {
    let (text, kind, job) = *row;
    let ScriptLine {
        line: _,
        job: found,
        tag,
    } = last_line(alloc, text)?;
    let found = HeldJob { job: found };
    Some(is_job(alloc, &found.job, job)? && tag == kind)
}

/// The number of the first row whose line doesn't name its job.
fn unnamed(alloc: Global, rows: &[Named]) -> Option<usize> {
    for (number, row) in rows.iter().enumerate() {
        if names(alloc, row) != Some(true) {
            return Some(number);
        }
    }
    None
}

/// Lines name the jobs of the rows.
#[test]
fn lines_name_jobs(rt: HostRuntime) {
    all_hold(&rt, unnamed(rt.alloc(), JOBS));
}

/// The first wrong lines of scripts with tags.
pub(crate) const WRONG_LINES: &[Row] = &[
    (
        1,
        Wrong::TagScript(ScriptKind::Fields),
        "get|\
         get Speed |\
         get Speed 1|\
         put|\
         put Speed|\
         put Speed 1 |\
         put Speed 1 2|\
         read DB1 byte 0 1 2",
    ),
    (
        1,
        Wrong::TagScript(ScriptKind::Word),
        "get |\
         get  Speed|\
         get Spee|\
         get Speeds|\
         get speed|\
         get Nothing 1|\
         Get Speed|\
         \x20get Speed|\
         put |\
         put Nothing|\
         put Nothing x 2|\
         Put Speed 1|\
         raed DB1 byte 0 1",
    ),
    (
        1,
        Wrong::TagScript(ScriptKind::Number),
        "put Speed |\
         put Speed  1|\
         put Speed x 2|\
         put Speed -0|\
         put Speed 07|\
         put Speed 32768|\
         put Speed -32769|\
         put Bit 2|\
         put Total 2147483648|\
         put Total -2147483649|\
         put Count -1|\
         put Count 10000|\
         put Delay 123|\
         put Delay 1000.0|\
         put Delay 1.4|\
         put Name 4A|\
         put Name 414|\
         put Name 4142434445|\
         put Moment 2024-02-30T00:00:00.000|\
         put Moment 1989-12-31T23:59:59.999|\
         put Moment 2090-01-01T00:00:00.000",
    ),
    (
        4,
        Wrong::TagScript(ScriptKind::Number),
        "# x\n\nget Speed\r\nput Speed 1\r2\n",
    ),
    (2, Wrong::TagScript(ScriptKind::Word), "get Speed\n \n"),
    (
        2,
        Wrong::TagScript(ScriptKind::Number),
        "get Speed\nput Speed x\nget\n",
    ),
];

/// A text, the code of the job of its last line, the octets that the job reads, and the line that is printed.
type Told = (&'static str, u32, &'static str, &'static str);

/// The results.
const PRINTED: &[Told] = &[
    ("get Speed", 0, "fffe", "1 get 00000000 -2\n"),
    ("get Speed", 0, "7fff", "1 get 00000000 32767\n"),
    ("get Bit", 0, "01", "1 get 00000000 1\n"),
    ("get Total", 0, "80000000", "1 get 00000000 -2147483648\n"),
    ("get Count", 0, "0907", "1 get 00000000 907\n"),
    ("get Delay", 0, "1123", "1 get 00000000 123.1\n"),
    ("get Name", 0, "040241420000", "1 get 00000000 4142\n"),
    ("get Name", 0, "0401ab4200ff", "1 get 00000000 ab\n"),
    ("get Name", 0, "040000000000", "1 get 00000000 -\n"),
    (
        "get Moment",
        0,
        "2402291345301235",
        "1 get 00000000 2024-02-29T13:45:30.123\n",
    ),
    // Octets that are no value of their type.
    ("get Bit", 0, "02", "1 get 00000000 bad 02\n"),
    ("get Count", 0, "1A00", "1 get 00000000 bad 1a00\n"),
    ("get Delay", 0, "4123", "1 get 00000000 bad 4123\n"),
    (
        "get Name",
        0,
        "040541424344",
        "1 get 00000000 bad 040541424344\n",
    ),
    (
        "get Name",
        0,
        "050241420000",
        "1 get 00000000 bad 050241420000\n",
    ),
    (
        "get Moment",
        0,
        "2402301345301235",
        "1 get 00000000 bad 2402301345301235\n",
    ),
    (
        "get Moment",
        0,
        "2402291345301236",
        "1 get 00000000 bad 2402291345301236\n",
    ),
    // Items that are refused, and tags that are put.
    ("get Speed", 0x00C0_0000, "", "1 get 00C00000 -\n"),
    ("put Speed -2", 0, "", "1 put 00000000 -\n"),
    ("put Speed -2", 0x0090_0000, "", "1 put 00900000 -\n"),
    // Lines have their numbers.
    (
        "# x\n\nput Speed 1\r\nget Speed\r\n# y",
        0,
        "0001",
        "4 get 00000000 1\n",
    ),
];

/// The line that is printed. The function promises nothing, so that its callers are cheap to prove.
fn text_of(alloc: Global, line: u32, kind: Option<TagKind>, done: &JobResult) -> Option<Octets> {
    print_tag(alloc, line, kind?, done).ok()
}

/// The line that is printed if the job of the last line of a text ends with this code and these octets.
fn printed(alloc: Global, text: &str, code: u32, octets: &str) -> Option<Octets> {
    let octets = octets_of(alloc, octets)?;
    let ScriptLine { line, job, tag } = last_line(alloc, text)?;
    let done = done_of(alloc, job, code, octets);
    text_of(alloc, line, tag, &done.told)
}

/// Reports whether the line of a row is printed.
fn prints(alloc: Global, row: &Told) -> Option<bool> {
    let (text, code, octets, wanted) = *row;
    Some(printed(alloc, text, code, octets)?.as_slice() == wanted.as_bytes())
}

/// The number of the first row whose line isn't printed.
fn unprinted(alloc: Global, rows: &[Told]) -> Option<usize> {
    for (number, row) in rows.iter().enumerate() {
        if prints(alloc, row) != Some(true) {
            return Some(number);
        }
    }
    None
}

/// The lines of the rows are printed.
#[test]
fn results_are_printed(rt: HostRuntime) {
    all_hold(&rt, unprinted(rt.alloc(), PRINTED));
}
