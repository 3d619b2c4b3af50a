//! The jobs of lines.
ghost use Rattle.std.specs.Prelude.{◌≡◌, ◌<◌, ◌≤◌, ◌+◌, [], ◌∷◌, ◌++◌, length, take, drop, option_map, IfSome, IfNone};
ghost use Rattle.std.specs.Prelude.{IsTrue, OnOk, IfErr, codes};
ghost use Rattle.std.specs.Str.{bytes_eq};
ghost use Rattle.s7_script.specs.declared.scripts.script_fault.ScriptKind.TheVariants.{Memory};
ghost use Rattle.hex.specs.Hex.{decode_of};
ghost use Rattle.s7_script.specs.Script.{Gives, job_named, list_job, parts, password_job, plain_job};
ghost use Rattle.s7_script.specs.Script.{read_items, read_job, read_many_job, set_clock_job, two_octets_in, with_index};
ghost use Rattle.s7_script.specs.Script.{write_job, write_many_job, written_items};
ghost use Rattle.s7_script.specs.ScriptShown.{all_written, parts_left};

use crate::ScriptKind;
use crate::areas::guard_line::all_graphic;
use crate::scripts::block_line::{delete_job, download_job, info_job, list_of_job, upload_job};
use crate::scripts::data_line::{db_fill_job, db_get_job};
use crate::scripts::item_text::{ended, read_item};
use crate::scripts::written::{WrittenItem, WrittenItems, written_item};
use hex::FromHex;
use s7_client::{ItemList, Job};
use s7_item::Item;
use s7_outer::Octets;
use s7_text::{read_moment, split_field};
use std::alloc::Global;

/// The job of this name and these fields.
pub(crate) fn job_named(alloc: Global, name: &[u8], rest: Option<&[u8]>) -> Result<Job, ScriptKind>
    ensures { Gives (λ j. j) result (job_named name.now (option_map (λ t. t.now) rest.entry)) }
{
    if name == b"read".as_slice() {
        read_job(rest)
    } else if name == b"write".as_slice() {
        write_job(alloc, rest)
    } else if name == b"readmany".as_slice() {
        read_many_job(alloc, rest)
    } else if name == b"writemany".as_slice() {
        write_many_job(alloc, rest)
    } else if name == b"listof".as_slice() {
        list_of_job(rest)
    } else if name == b"info".as_slice() {
        info_job(rest)
    } else if name == b"upload".as_slice() {
        upload_job(rest)
    } else if name == b"download".as_slice() {
        download_job(alloc, rest)
    } else if name == b"delete".as_slice() {
        delete_job(rest)
    } else if name == b"dbget".as_slice() {
        db_get_job(rest)
    } else if name == b"dbfill".as_slice() {
        db_fill_job(rest)
    } else if name == b"szl".as_slice() {
        list_job(rest)
    } else if name == b"setclock".as_slice() {
        set_clock_job(rest)
    } else if name == b"password".as_slice() {
        password_job(alloc, rest)
    } else {
        let Some(job) = plain_job(name) else {
            return Err(ScriptKind::Word);
        };
        ended(job, rest)
    }
}

/// The job of this name, if it is a job without fields.
fn plain_job(name: &[u8]) -> Option<Job>
    ensures { result ≡ plain_job name.now }
{
    if name == b"list".as_slice() {
        Some(Job::List)
    } else if name == b"clock".as_slice() {
        Some(Job::ClockRead)
    } else if name == b"start".as_slice() {
        Some(Job::Start)
    } else if name == b"coldstart".as_slice() {
        Some(Job::ColdStart)
    } else if name == b"stop".as_slice() {
        Some(Job::Stop)
    } else if name == b"compress".as_slice() {
        Some(Job::Compress)
    } else if name == b"copy".as_slice() {
        Some(Job::CopyRam)
    } else if name == b"status".as_slice() {
        Some(Job::Status)
    } else if name == b"clearpassword".as_slice() {
        Some(Job::PasswordClear)
    } else {
        None
    }
}

/// The job that reads one item.
fn read_job(rest: Option<&[u8]>) -> Result<Job, ScriptKind>
    ensures { result ≡ read_job (option_map (λ t. t.now) rest.entry) }
{
    let Some(text) = rest else {
        return Err(ScriptKind::Fields);
    };
    let item = read_item(text)?;
    Ok(Job::ReadArea { item })
}

/// The job that writes one item.
fn write_job(alloc: Global, rest: Option<&[u8]>) -> Result<Job, ScriptKind>
    ensures { Gives (λ j. j) result (write_job (option_map (λ t. t.now) rest.entry)) }
{
    let Some(text) = rest else {
        return Err(ScriptKind::Fields);
    };
    let WrittenItem { item, octets } = written_item(alloc, text)?;
    Ok(Job::WriteArea {
        item,
        octets: Octets::of_vec(octets),
    })
}

/// The job that reads several items.
fn read_many_job(alloc: Global, rest: Option<&[u8]>) -> Result<Job, ScriptKind>
    ensures { Gives (λ j. j) result (read_many_job (option_map (λ t. t.now) rest.entry)) }
{
    let Some(text) = rest else {
        return Err(ScriptKind::Fields);
    };
    let items = read_items(alloc, text)?;
    Ok(Job::ReadMany {
        items: ItemList::of_vec(items),
    })
}

/// The job that writes several items.
fn write_many_job(alloc: Global, rest: Option<&[u8]>) -> Result<Job, ScriptKind>
    ensures { Gives (λ j. j) result (write_many_job (option_map (λ t. t.now) rest.entry)) }
{
    let Some(text) = rest else {
        return Err(ScriptKind::Fields);
    };
    let WrittenItems { items, octets } = written_items(alloc, text)?;
    Ok(Job::WriteMany {
        items: ItemList::of_vec(items),
        octets: Octets::of_vec(octets),
    })
}

/// The job that reads a status list, by the fields of its id and its index.
fn list_job(rest: Option<&[u8]>) -> Result<Job, ScriptKind>
    ensures { result ≡ list_job (option_map (λ t. t.now) rest.entry) }
{
    let Some(text) = rest else {
        return Err(ScriptKind::Fields);
    };
    let (field, rest) = split_field(text);
    let id = two_octets_in(field)?;
    with_index(id, rest)
}

/// The job that reads the status list of this id, with the index in the last field.
fn with_index(id: u16, rest: Option<&[u8]>) -> Result<Job, ScriptKind>
    ensures { result ≡ with_index id (option_map (λ t. t.now) rest.entry) }
{
    let Some(text) = rest else {
        return Err(ScriptKind::Fields);
    };
    let (field, rest) = split_field(text);
    let index = two_octets_in(field)?;
    ended(Job::Szl { id, index }, rest)
}

/// The number in four hexadecimal digits.
fn two_octets_in(field: &[u8]) -> Result<u16, ScriptKind>
    ensures { result ≡ two_octets_in (decode_of field.now) }
{
    match <[u8; 2]>::from_hex(field) {
        Ok(octets) => Ok(u16::from_be_bytes(octets)),
        Err(_) => Err(ScriptKind::Digits),
    }
}

/// The job that sets the clock.
fn set_clock_job(rest: Option<&[u8]>) -> Result<Job, ScriptKind>
    ensures { result ≡ set_clock_job (option_map (λ t. t.now) rest.entry) }
{
    let Some(text) = rest else {
        return Err(ScriptKind::Fields);
    };
    let (field, rest) = split_field(text);
    match read_moment(field) {
        Some(moment) => ended(Job::ClockSet { moment }, rest),
        None => Err(ScriptKind::Number),
    }
}

/// The job that sets a password.
fn password_job(alloc: Global, rest: Option<&[u8]>) -> Result<Job, ScriptKind>
    ensures { Gives (λ j. j) result (password_job (option_map (λ t. t.now) rest.entry)) }
{
    let Some(text) = rest else {
        return Err(ScriptKind::Fields);
    };
    let (field, rest) = split_field(text);
    if !all_graphic(field) {
        return Err(ScriptKind::Word);
    }
    match Octets::copy_of(alloc, field) {
        Ok(text) => ended(Job::PasswordSet { text }, rest),
        Err(_) => Err(ScriptKind::Memory),
    }
}

/// The items that the parts of a text name.
fn read_items(alloc: Global, text: &[u8]) -> Result<Vec<Item>, ScriptKind>
    ensures { Gives (λ v. v.items) result (read_items (parts text.now)) }
{
    let mut items = Vec::new(alloc);
    let mut rest = Some(text);
    while let Some(next) = rest {
        let (part, after) = split_part(next);
        let item = read_item(part)?;
        add_item(&mut items, item)?;
        rest = after;
    }
    Ok(items)
}

/// Appends an item.
fn add_item(items: &mut Vec<Item>, item: Item) -> Result<(), ScriptKind>
    ensures items { OnOk result (items.new.items ≡ items.old.items ++ item ∷ []) }
    ensures memory { IfErr result (λ e. e ≡ Memory) }
{
    if items.push(item).is_err() {
        return Err(ScriptKind::Memory);
    }
    Ok(())
}

/// The items that the parts of a text name, and their octets.
fn written_items(alloc: Global, text: &[u8]) -> Result<WrittenItems, ScriptKind>
    ensures { Gives all_written result (written_items (parts text.now)) }
{
    let mut written = WrittenItems {
        items: Vec::new(alloc),
        octets: Vec::new(alloc),
    };
    let mut rest = Some(text);
    while let Some(next) = rest {
        let (part, after) = split_part(next);
        let first = written_item(alloc, part)?;
        written.add(first)?;
        rest = after;
    }
    Ok(written)
}

impl WrittenItems {
    /// Appends an item and its octets.
    fn add(&mut self, first: WrittenItem) -> Result<(), ScriptKind>
        ensures items { OnOk result (self.new.items.items ≡ self.old.items.items ++ first.item ∷ []) }
        ensures octets { OnOk result (self.new.octets.items ≡ self.old.octets.items ++ first.octets.items) }
        ensures memory { IfErr result (λ e. e ≡ Memory) }
    {
        add_item(&mut self.items, first.item)?;
        if self
            .octets
            .extend_from_slice(first.octets.as_slice())
            .is_err()
        {
            return Err(ScriptKind::Memory);
        }
        Ok(())
    }
}

/// The part before the first ` ; `, and the text after it.
fn split_part(text: &[u8]) -> (&[u8], Option<&[u8]>)
    ensures parts { parts text.now ≡ result.0.now ∷ parts_left (option_map (λ t. t.now) result.1) }
    ensures shorter { IfSome result.1 (λ t. length t.now < length text.now) }
{
    match joint(text) {
        Some(end) => (&text[..end], Some(from_place(text, end + JOINT.len()))),
        None => (text, None),
    }
}

/// The separator between two items.
const JOINT: &[u8] = b" ; ";

/// The index of the first ` ; `, `None` if there is none.
fn joint(text: &[u8]) -> Option<usize>
    ensures within { IfSome result (λ n. n + 3 ≤ length text.now) }
    ensures found { IfSome result (λ n. parts text.now ≡ take n text.now ∷ parts (drop (n + 3) text.now)) }
    ensures none { IfNone result (parts text.now ≡ text.now ∷ []) }
{
    for k in 0..text.len() {
        if begins_joint(from_place(text, k)) {
            return Some(k);
        }
    }
    None
}

/// Whether a text begins with ` ; `.
fn begins_joint(text: &[u8]) -> bool
    ensures value { result ≡ bytes_eq (codes " ; ") (take 3 text.now) }
    ensures most { IsTrue result → 3 ≤ length text.now }
{
    text.starts_with(JOINT)
}

/// The text from this index on.
fn from_place(text: &[u8], place: usize) -> &[u8]
    requires { place ≤ length text.now }
    ensures { result.now ≡ drop place text.now }
{
    &text[place..]
}
