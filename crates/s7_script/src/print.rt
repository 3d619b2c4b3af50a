//! Printing the results of jobs.
ghost use Rattle.std.specs.Prelude.{◌≡◌, ◌≤◌, ◌<◌, ◌+◌, ◌∷◌, ◌++◌, [], OnOk, IfOk, IsSome, length, map};
ghost use Rattle.std.specs.List.{flat_map};
ghost use Rattle.std.specs.Fmt.{decimal};
ghost use Rattle.hex.specs.Hex.{encode_lower, encode_upper};
ghost use Rattle.s7_clock.specs.Clock.{parts_in};
ghost use Rattle.s7_clock.specs.Moment.{moment_in};
ghost use Rattle.s7_szl.specs.Readers.{mode_of};
ghost use Rattle.s7_client.specs.Form.{count_read, octets_read};
ghost use Rattle.s7_text.specs.Moments.{clock_values};
ghost use Rattle.s7_script.specs.Printing.{IsPrintable, IsPrintableOf, code_text, four_octets};
ghost use Rattle.s7_script.specs.Printing.{job_values, mode_values, number_in, numbers_told, octets_value, print};
ghost use Rattle.s7_script.specs.Printing.{read_values};
ghost use Rattle.s7_script.specs.Printing.{spaced, values, values_text, word_of};

use s7_client::{Job, JobResult};
use s7_item::Item;
use s7_item::codes::GOOD;
use s7_outer::{Memory, Octets};
use s7_szl::read_mode;
use s7_text::clock_text;
use std::alloc::Global;

/// The number of octets of each entry: the count of a kind, or a block in a list.
const ENTRY: usize = 4;

/// The offset of the count in the entry of a kind.
const COUNT_AT: usize = 2;

/// The offset of the number in the entry of a block.
const NUMBER_AT: usize = 0;

/// The line for the result of a job: the line's number, the job's word, its code in eight upper-case hexadecimal
/// digits, and the value, with one space between them and LF at the end.
///
/// The value of `read`, `info`, `upload`, `dbget` and `szl` is their octets, in lower-case digits. The value of `list`
/// is the seven counts, and that of `listof` the blocks' numbers, in decimal. The value of `readmany` is, for each
/// item, its code in two upper-case digits, a colon, and its octets if the code is FF; the value of `writemany` is the
/// codes; there is one space between two. The value of `clock` is its date and time, `YYYY-MM-DDThh:mm:ss.mmm`, and
/// that of `status` is `run` or `stop`. If there is no value, as after other jobs and if the code isn't 0, it is `-`.
/// Returns `Memory` if an allocation fails.
pub fn print_result(alloc: Global, line: u32, done: &JobResult) -> Result<Octets, Memory>
    requires { IsPrintable done.now }
    ensures { IfOk result (λ text. text ≡ print line done.now) }
{
    let mut text = Vec::new(alloc);
    add_head(alloc, &mut text, line, word_of(&done.job), done.code)?;
    let values = values_text(alloc, done)?;
    if values.is_empty() {
        text.extend_from_slice(b" -")?;
    } else {
        text.extend_from_slice(values.as_slice())?;
    }
    text.extend_from_slice(b"\n")?;
    Ok(Octets::of_vec(text))
}

/// Appends the line's number, the job's word and the code.
pub(crate) fn add_head(
    alloc: Global,
    text: &mut Vec<u8>,
    line: u32,
    word: &str,
    code: u32,
) -> Result<(), Memory>
    ensures { OnOk result (text.new.items ≡ text.old.items
        ++ (decimal line ++ 32 ∷ word.now ++ 32 ∷ encode_upper (four_octets code))) }
{
    let head = format!(in alloc; "{line} {word} ")?;
    let code = hex::encode_upper(alloc, four_octets(code).as_slice())?;
    text.extend_from_slice(head.as_bytes())?;
    text.extend_from_slice(code.as_bytes())?;
    Ok(())
}

/// The word of a job.
pub(crate) fn word_of(job: &Job) -> &'static str
    ensures { result.now ≡ word_of job.now }
{
    match job {
        Job::Connect => "connect",
        Job::ReadArea { .. } => "read",
        Job::WriteArea { .. } => "write",
        Job::ReadMany { .. } => "readmany",
        Job::WriteMany { .. } => "writemany",
        Job::List => "list",
        Job::ListOf { .. } => "listof",
        Job::Info { .. } => "info",
        Job::Upload { .. } => "upload",
        Job::Download { .. } => "download",
        Job::Delete { .. } => "delete",
        Job::DbGet { .. } => "dbget",
        Job::DbFill { .. } => "dbfill",
        Job::Szl { .. } => "szl",
        Job::ClockRead => "clock",
        Job::ClockSet { .. } => "setclock",
        Job::Start => "start",
        Job::ColdStart => "coldstart",
        Job::Stop => "stop",
        Job::Compress => "compress",
        Job::CopyRam => "copy",
        Job::Status => "status",
        Job::PasswordSet { .. } => "password",
        Job::PasswordClear => "clearpassword",
        Job::Disconnect => "disconnect",
    }
}

/// A number in four octets, the high one first.
fn four_octets(n: u32) -> [u8; 4]
    ensures { result ≡ four_octets n }
{
    n.to_be_bytes()
}

/// The values, each after a space.
fn values_text(alloc: Global, done: &JobResult) -> Result<Vec<u8>, Memory>
    requires { IsPrintable done.now }
    ensures { IfOk result (λ text. text.items ≡ flat_map spaced (values done.now)) }
{
    let mut text = Vec::new(alloc);
    if done.code == 0 {
        add_job_values(alloc, &mut text, done)?;
    }
    Ok(text)
}

/// Appends the values of a job that succeeded.
fn add_job_values(alloc: Global, text: &mut Vec<u8>, done: &JobResult) -> Result<(), Memory>
    requires { IsPrintableOf done.now done.now.job }
    ensures { OnOk result (text.new.items
        ≡ text.old.items ++ flat_map spaced (job_values done.now done.now.job)) }
{
    match &done.job {
        Job::ReadArea { .. }
        | Job::Info { .. }
        | Job::Upload { .. }
        | Job::DbGet { .. }
        | Job::Szl { .. } => add_octets(alloc, text, done.octets.as_slice()),
        Job::List => add_numbers(alloc, text, done.octets.as_slice(), COUNT_AT),
        Job::ListOf { .. } => add_numbers(alloc, text, done.octets.as_slice(), NUMBER_AT),
        Job::ReadMany { items } => {
            let codes = &done.codes[..usize::from(done.count)];
            add_items(alloc, text, items.as_slice(), codes, done.octets.as_slice())
        }
        Job::WriteMany { .. } => add_codes(alloc, text, &done.codes[..usize::from(done.count)]),
        Job::ClockRead => add_clock(text, done.octets.as_slice()),
        Job::Status => add_mode(text, done.octets.as_slice()),
        Job::Connect
        | Job::WriteArea { .. }
        | Job::Download { .. }
        | Job::Delete { .. }
        | Job::DbFill { .. }
        | Job::ClockSet { .. }
        | Job::Start
        | Job::ColdStart
        | Job::Stop
        | Job::Compress
        | Job::CopyRam
        | Job::PasswordSet { .. }
        | Job::PasswordClear
        | Job::Disconnect => Ok(()),
    }
}

/// Appends octets, if there are any.
fn add_octets(alloc: Global, text: &mut Vec<u8>, octets: &[u8]) -> Result<(), Memory>
    ensures { OnOk result (text.new.items ≡ text.old.items ++ flat_map spaced (octets_value octets.now)) }
{
    if octets.is_empty() {
        return Ok(());
    }
    let digits = hex::encode(alloc, octets)?;
    text.extend_from_slice(b" ")?;
    text.extend_from_slice(digits.as_bytes())?;
    Ok(())
}

/// Appends the date and time of clock octets.
fn add_clock(text: &mut Vec<u8>, octets: &[u8]) -> Result<(), Memory>
    requires { IsSome (moment_in octets.now) }
    ensures { OnOk result (text.new.items
        ≡ text.old.items ++ flat_map spaced (clock_values (parts_in octets.now))) }
{
    text.extend_from_slice(b" ")?;
    text.extend_from_slice(clock_text(octets).as_slice())?;
    Ok(())
}

/// Appends whether the controller runs, if the image of a status list says so.
fn add_mode(text: &mut Vec<u8>, octets: &[u8]) -> Result<(), Memory>
    ensures { OnOk result (text.new.items
        ≡ text.old.items ++ flat_map spaced (mode_values (mode_of octets.now))) }
{
    match read_mode(octets) {
        Some(true) => text.extend_from_slice(b" run")?,
        Some(false) => text.extend_from_slice(b" stop")?,
        None => {}
    }
    Ok(())
}

/// Appends codes.
fn add_codes(alloc: Global, text: &mut Vec<u8>, codes: &[u8]) -> Result<(), Memory>
    ensures { OnOk result (text.new.items ≡ text.old.items ++ flat_map spaced (map code_text codes.now)) }
{
    for code in codes {
        add_code(alloc, text, *code)?;
    }
    Ok(())
}

/// Appends a code.
fn add_code(alloc: Global, text: &mut Vec<u8>, code: u8) -> Result<(), Memory>
    ensures { OnOk result (text.new.items ≡ text.old.items ++ spaced (code_text code)) }
{
    let digits = hex::encode_upper(alloc, [code].as_slice())?;
    text.extend_from_slice(b" ")?;
    text.extend_from_slice(digits.as_bytes())?;
    Ok(())
}

/// Appends, of each entry, the number in its two octets from this offset on.
fn add_numbers(alloc: Global, text: &mut Vec<u8>, octets: &[u8], at: usize) -> Result<(), Memory>
    requires { at ≤ 2 }
    ensures { OnOk result (text.new.items ≡ text.old.items ++ flat_map spaced (numbers_told at octets.now)) }
{
    let mut rest = octets;
    while rest.len() >= ENTRY {
        let (entry, after) = rest.split_at(ENTRY);
        add_number(alloc, text, number_in(entry, at))?;
        rest = after;
    }
    Ok(())
}

/// The number in the two octets from this offset on.
fn number_in(octets: &[u8], at: usize) -> u16
    requires { at + 1 < length octets.now }
    ensures { result ≡ number_in octets.now at }
{
    u16::from(octets[at]) * 256 + u16::from(octets[at + 1])
}

/// Appends a number.
fn add_number(alloc: Global, text: &mut Vec<u8>, number: u16) -> Result<(), Memory>
    ensures { OnOk result (text.new.items ≡ text.old.items ++ spaced (decimal number)) }
{
    let digits = format!(in alloc; "{number}")?;
    text.extend_from_slice(b" ")?;
    text.extend_from_slice(digits.as_bytes())?;
    Ok(())
}

/// Appends the codes of items, and the octets of those that were read.
fn add_items(
    alloc: Global,
    text: &mut Vec<u8>,
    items: &[Item],
    codes: &[u8],
    octets: &[u8],
) -> Result<(), Memory>
    requires codes { length codes.now ≡ length items.now }
    requires octets { length octets.now ≡ octets_read items.now codes.now }
    ensures { OnOk result (text.new.items
        ≡ text.old.items ++ flat_map spaced (read_values items.now codes.now octets.now)) }
{
    let mut rest = octets;
    for (k, item) in items.iter().enumerate() {
        let (own, after) = rest.split_at(count_read(item, codes[k]));
        add_item(alloc, text, codes[k], own)?;
        rest = after;
    }
    Ok(())
}

/// The number of octets that a read gave of an item with this code.
fn count_read(item: &Item, code: u8) -> usize
    ensures { result ≡ count_read item.now code }
{
    if code == GOOD { item.octet_count() } else { 0 }
}

/// Appends an item's code and octets.
fn add_item(alloc: Global, text: &mut Vec<u8>, code: u8, octets: &[u8]) -> Result<(), Memory>
    ensures { OnOk result (text.new.items
        ≡ text.old.items ++ spaced (code_text code ++ 58 ∷ encode_lower octets.now)) }
{
    add_code(alloc, text, code)?;
    let digits = hex::encode(alloc, octets)?;
    text.extend_from_slice(b":")?;
    text.extend_from_slice(digits.as_bytes())?;
    Ok(())
}
