//! Printing the results of jobs that get or put a tag.
ghost use Rattle.std.specs.Prelude.{◌≡◌, ◌++◌, OnOk, IfOk};
ghost use Rattle.s7_script.specs.TagPrinting.{print_tag, tag_word, value_got};

use crate::print::{add_head, word_of};
use s7_client::{Job, JobResult};
use s7_outer::{Memory, Octets};
use s7_symbol::{TagKind, add_shown};
use std::alloc::Global;

/// The line for the result of a job that gets or puts a tag of this type: the line's number, `get` or `put`, the code
/// in eight upper-case hexadecimal digits, and the value, with one space between them and LF at the end.
///
/// The value of `get` is the text of the tag's value, or `bad` and the octets in lower case if they have no value of
/// the type. It is `-` after `put` and if the code isn't 0. A job that reads or writes no single item has the word that
/// `print_result` gives it, and `-`. Returns `Memory` if an allocation fails.
pub fn print_tag(
    alloc: Global,
    line: u32,
    kind: TagKind,
    done: &JobResult,
) -> Result<Octets, Memory>
    ensures { IfOk result (λ text. text ≡ print_tag line kind done.now) }
{
    let mut text = Vec::new(alloc);
    add_head(alloc, &mut text, line, tag_word(&done.job), done.code)?;
    text.extend_from_slice(b" ")?;
    add_value(alloc, &mut text, kind, done)?;
    text.extend_from_slice(b"\n")?;
    Ok(Octets::of_vec(text))
}

/// The word of a job that gets or puts a tag.
fn tag_word(job: &Job) -> &'static str
    ensures { result.now ≡ tag_word job.now }
{
    match job {
        Job::ReadArea { .. } => "get",
        Job::WriteArea { .. } => "put",
        other => word_of(other),
    }
}

/// Appends the value that was read, or `-`.
fn add_value(
    alloc: Global,
    text: &mut Vec<u8>,
    kind: TagKind,
    done: &JobResult,
) -> Result<(), Memory>
    ensures { OnOk result (text.new.items ≡ text.old.items ++ value_got kind done.now done.now.job) }
{
    match &done.job {
        Job::ReadArea { .. } if done.code == 0 => {
            add_shown(alloc, text, kind, done.octets.as_slice())
        }
        _ => {
            text.extend_from_slice(b"-")?;
            Ok(())
        }
    }
}
