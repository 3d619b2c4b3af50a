//! The jobs of lines that may name tags.
ghost use Rattle.std.specs.Prelude.{◌≡◌, option_map};
ghost use Rattle.std.specs.List.{find};
ghost use Rattle.std.specs.Result.{result_map_both};
ghost use Rattle.std.specs.Str.{bytes_eq};
ghost use Rattle.s7_symbol.specs.Values.{octets_said};
ghost use Rattle.s7_script.specs.Script.{Gives, job_named};
ghost use Rattle.s7_script.specs.ScriptShown.{tagged_told};
ghost use Rattle.s7_script.specs.Tagged.{get_job, put_job, put_value, tag_named, tagged_by, tagged_of, untagged};
ghost use Rattle.s7_script.specs.Tagged.{value_or_fault};

use crate::ScriptKind;
use crate::scripts::item_text::ended;
use crate::scripts::script_line::job_named;
use s7_client::Job;
use s7_outer::Octets;
use s7_symbol::{Tag, TagKind, octets_of};
use s7_text::split_field;
use std::alloc::Global;

/// A job, and the type of the tag that it gets or puts.
#[derive(Drop)]
pub(crate) struct TaggedJob {
    pub(crate) job: Job,
    pub(crate) tag: Option<TagKind>,
}

/// The job that a line names, which may name one of these tags if there are any.
pub(crate) fn tagged_of(
    alloc: Global,
    tags: Option<&[Tag]>,
    text: &[u8],
) -> Result<TaggedJob, ScriptKind>
    ensures { Gives tagged_told result (tagged_of (option_map (λ t. t.now) tags.entry) text.now) }
{
    let (name, rest) = split_field(text);
    match tags {
        Some(tags) if name == b"get".as_slice() => get_job(tags, rest),
        Some(tags) if name == b"put".as_slice() => put_job(alloc, tags, rest),
        _ => untagged(alloc, name, rest),
    }
}

/// The job of this name, which gets and puts no tag.
fn untagged(alloc: Global, name: &[u8], rest: Option<&[u8]>) -> Result<TaggedJob, ScriptKind>
    ensures { Gives tagged_told result (untagged (job_named name.now (option_map (λ t. t.now) rest.entry))) }
{
    let job = job_named(alloc, name, rest)?;
    Ok(TaggedJob { job, tag: None })
}

/// The job that gets a tag.
fn get_job(tags: &[Tag], rest: Option<&[u8]>) -> Result<TaggedJob, ScriptKind>
    ensures { Gives tagged_told result (get_job tags.now (option_map (λ t. t.now) rest.entry)) }
{
    let Some(text) = rest else {
        return Err(ScriptKind::Fields);
    };
    let (name, rest) = split_field(text);
    let tag = tag_named(name, tags)?;
    let found = TaggedJob {
        job: Job::ReadArea { item: tag.item },
        tag: Some(tag.kind),
    };
    ended(found, rest)
}

/// The job that puts a tag.
fn put_job(alloc: Global, tags: &[Tag], rest: Option<&[u8]>) -> Result<TaggedJob, ScriptKind>
    ensures { Gives tagged_told result (put_job tags.now (option_map (λ t. t.now) rest.entry)) }
{
    let Some(text) = rest else {
        return Err(ScriptKind::Fields);
    };
    let (name, rest) = split_field(text);
    let tag = tag_named(name, tags)?;
    put_value(alloc, tag, rest)
}

/// The job that puts this tag, with the value in the last field.
fn put_value(alloc: Global, tag: &Tag, rest: Option<&[u8]>) -> Result<TaggedJob, ScriptKind>
    ensures { Gives tagged_told result (put_value tag.now (option_map (λ t. t.now) rest.entry)) }
{
    let Some(text) = rest else {
        return Err(ScriptKind::Fields);
    };
    let (field, rest) = split_field(text);
    let octets = value_octets(alloc, tag.kind, field)?;
    let found = TaggedJob {
        job: Job::WriteArea {
            item: tag.item,
            octets,
        },
        tag: Some(tag.kind),
    };
    ended(found, rest)
}

/// The octets of a value of this type.
fn value_octets(alloc: Global, kind: TagKind, field: &[u8]) -> Result<Octets, ScriptKind>
    ensures { Gives (λ o. o) result (value_or_fault (octets_said kind field.now)) }
{
    let mut room = [0; 512];
    let Ok(count) = octets_of(kind, field, &mut room) else {
        return Err(ScriptKind::Number);
    };
    match Octets::copy_of(alloc, &room[..count]) {
        Ok(octets) => Ok(octets),
        Err(_) => Err(ScriptKind::Memory),
    }
}

/// The tag of this name.
fn tag_named<'a>(name: &[u8], tags: &'a [Tag]) -> Result<&'a Tag, ScriptKind>
    ensures { result_map_both (λ t. t.now) (λ e. e) result ≡ tag_named name.now tags.now }
{
    match find_tag(name, tags) {
        Some(tag) => Ok(tag),
        None => Err(ScriptKind::Word),
    }
}

/// The tag of this name, `None` if there is none.
fn find_tag<'a>(name: &[u8], tags: &'a [Tag]) -> Option<&'a Tag>
    ensures { option_map (λ t. t.now) result ≡ find (λ t. bytes_eq t.name name.now) tags.now }
{
    tags.iter().find(|tag| tag.name.as_slice() == name)
}
