//! The jobs of lines about blocks.
ghost use Rattle.std.specs.Prelude.{◌≡◌, option_map};
ghost use Rattle.s7_script.specs.Script.{Gives, block_named, delete_job, download_job, info_job, kind_named};
ghost use Rattle.s7_script.specs.Script.{list_of_job, upload_job, with_number, word_of};

use crate::ScriptKind;
use crate::scripts::item_text::{ended, within};
use crate::scripts::written::octets_in;
use s7_block::BlockName;
use s7_block::kinds::{DB, FB, FC, OB, SDB, SFB, SFC};
use s7_client::Job;
use s7_outer::Octets;
use s7_text::{number, split_field};
use std::alloc::Global;

/// The job that lists the blocks of a kind.
pub(crate) fn list_of_job(rest: Option<&[u8]>) -> Result<Job, ScriptKind>
    ensures { result ≡ list_of_job (option_map (λ t. t.now) rest.entry) }
{
    let Some(text) = rest else {
        return Err(ScriptKind::Fields);
    };
    let (field, rest) = split_field(text);
    let kind = kind_of(field)?;
    ended(Job::ListOf { kind }, rest)
}

/// The job that reads the head of a block.
pub(crate) fn info_job(rest: Option<&[u8]>) -> Result<Job, ScriptKind>
    ensures { result ≡ info_job (option_map (λ t. t.now) rest.entry) }
{
    let BlockName { kind, number } = block_named(rest)?;
    Ok(Job::Info { kind, number })
}

/// The job that uploads a block.
pub(crate) fn upload_job(rest: Option<&[u8]>) -> Result<Job, ScriptKind>
    ensures { result ≡ upload_job (option_map (λ t. t.now) rest.entry) }
{
    let BlockName { kind, number } = block_named(rest)?;
    Ok(Job::Upload { kind, number })
}

/// The job that downloads an image.
pub(crate) fn download_job(alloc: Global, rest: Option<&[u8]>) -> Result<Job, ScriptKind>
    ensures { Gives (λ j. j) result (download_job (option_map (λ t. t.now) rest.entry)) }
{
    let Some(text) = rest else {
        return Err(ScriptKind::Fields);
    };
    let (field, rest) = split_field(text);
    let image = Octets::of_vec(octets_in(alloc, field)?);
    ended(Job::Download { image }, rest)
}

/// The job that deletes a block.
pub(crate) fn delete_job(rest: Option<&[u8]>) -> Result<Job, ScriptKind>
    ensures { result ≡ delete_job (option_map (λ t. t.now) rest.entry) }
{
    let BlockName { kind, number } = block_named(rest)?;
    Ok(Job::Delete { kind, number })
}

/// The block of the fields: a kind and a number.
fn block_named(rest: Option<&[u8]>) -> Result<BlockName, ScriptKind>
    ensures { result ≡ block_named (option_map (λ t. t.now) rest.entry) }
{
    let Some(text) = rest else {
        return Err(ScriptKind::Fields);
    };
    let (field, rest) = split_field(text);
    let kind = kind_of(field)?;
    with_number(kind, rest)
}

/// The block of this kind, with the number in the last field.
fn with_number(kind: u8, rest: Option<&[u8]>) -> Result<BlockName, ScriptKind>
    ensures { result ≡ with_number kind (option_map (λ t. t.now) rest.entry) }
{
    let Some(text) = rest else {
        return Err(ScriptKind::Fields);
    };
    let (field, rest) = split_field(text);
    let number = within(0, 65_535, number(field))? as u16;
    ended(BlockName { kind, number }, rest)
}

/// The code of the kind of blocks in a field.
fn kind_of(field: &[u8]) -> Result<u8, ScriptKind>
    ensures { result ≡ word_of (kind_named field.now) }
{
    match kind_named(field) {
        Some(kind) => Ok(kind),
        None => Err(ScriptKind::Word),
    }
}

/// The code of the kind of blocks of this name.
fn kind_named(name: &[u8]) -> Option<u8>
    ensures { result ≡ kind_named name.now }
{
    if name == b"OB".as_slice() {
        Some(OB)
    } else if name == b"DB".as_slice() {
        Some(DB)
    } else if name == b"SDB".as_slice() {
        Some(SDB)
    } else if name == b"FC".as_slice() {
        Some(FC)
    } else if name == b"SFC".as_slice() {
        Some(SFC)
    } else if name == b"FB".as_slice() {
        Some(FB)
    } else if name == b"SFB".as_slice() {
        Some(SFB)
    } else {
        None
    }
}
