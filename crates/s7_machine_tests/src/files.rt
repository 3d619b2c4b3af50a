//! Tests of the machine's files.
use crate::rows::all_hold;
use s7_os::StdFiles;
use s7_outer::{FILE_LIMIT, FileFault, Files};
use std::alloc::Global;
use std::fs;
use std::fs::File;

/// The answer of a read or a write.
type Answer = Result<(), FileFault>;

/// What is done at a path.
enum Act {
    /// A text of this length is written and read again.
    IsReadAgain(usize),
    /// A file of octets 00 of this length is made, read with this answer and this number of octets, and removed.
    IsLong(u64, Answer, usize),
    /// A read fails and gives nothing.
    IsUnread,
    /// A write fails.
    IsUnwritten,
    /// The file is removed.
    IsRemoved,
}

/// Each text replaces the one before. The last act that fails is on a device that takes no octet. The last act removes
/// the file of the texts.
const ACTS: &[(&str, Act)] = &[
    ("s7_machine_texts", Act::IsReadAgain(22)),
    ("s7_machine_texts", Act::IsReadAgain(5_000)),
    ("s7_machine_texts", Act::IsReadAgain(3)),
    ("s7_machine_texts", Act::IsReadAgain(0)),
    ("s7_machine_texts", Act::IsReadAgain(4_096)),
    ("s7_machine_texts", Act::IsReadAgain(1)),
    ("s7_machine_none", Act::IsUnread),
    (".", Act::IsUnread),
    (".", Act::IsUnwritten),
    ("/dev/full", Act::IsUnwritten),
    (
        "s7_machine_long",
        Act::IsLong(67_108_864, Ok(()), FILE_LIMIT),
    ),
    (
        "s7_machine_long",
        Act::IsLong(67_108_865, Err(FileFault::TooLong), FILE_LIMIT + 1),
    ),
    ("s7_machine_texts", Act::IsRemoved),
];

/// The files of the machine.
type MachineFiles = StdFiles<HostRuntime>;

/// The answer of a write.
fn written(files: &mut MachineFiles, alloc: Global, path: &str, octets: &[u8]) -> Answer {
    files.write(alloc, path, octets)
}

/// The answer of a read, whose octets replace these.
fn read(files: &mut MachineFiles, alloc: Global, path: &str, text: &mut Vec<u8>) -> Answer {
    text.clear();
    files.read(alloc, path, text)
}

/// Reports whether a write has this answer.
fn is_written(rt: &HostRuntime, path: &str, octets: &[u8], wanted: &Answer) -> bool {
    written(&mut StdFiles::new(*rt), rt.alloc(), path, octets) == *wanted
}

/// Reports whether a read has this answer. Its octets replace these.
fn is_read_into(rt: &HostRuntime, path: &str, text: &mut Vec<u8>, wanted: &Answer) -> bool {
    read(&mut StdFiles::new(*rt), rt.alloc(), path, text) == *wanted
}

/// Reports whether a file is read and has these octets.
pub(crate) fn has_text(rt: &HostRuntime, path: &str, wanted: &[u8]) -> bool {
    let mut text = Vec::new(rt.alloc());
    is_read_into(rt, path, &mut text, &Ok(())) && text.as_slice() == wanted
}

/// A text of this length.
fn text_of(alloc: Global, length: usize) -> Option<Vec<u8>> {
    vec![in alloc; (length % 251) as u8; length].ok()
}

/// Reports whether a text of this length is read again after it was written under a path.
fn is_read_again(rt: &HostRuntime, path: &str, length: usize) -> bool {
    match text_of(rt.alloc(), length) {
        Some(text) => {
            is_written(rt, path, text.as_slice(), &Ok(())) && has_text(rt, path, text.as_slice())
        }
        None => false,
    }
}

/// A new file.
fn made(rt: &HostRuntime, path: &str) -> Option<File> {
    fs::create(rt, path).ok()
}

/// Makes a file of octets 00 of this length. Reports whether it is made.
fn makes(rt: &HostRuntime, path: &str, length: u64) -> bool {
    match made(rt, path) {
        Some(file) => file.set_len(length).is_ok(),
        None => false,
    }
}

/// Reports whether a file is removed.
pub(crate) fn is_removed(rt: &HostRuntime, path: &str) -> bool {
    fs::remove_file(rt, path).is_ok()
}

/// Reports whether a read has this answer, and gives this number of octets.
fn is_read(rt: &HostRuntime, path: &str, wanted: &Answer, count: usize) -> bool {
    let mut text = Vec::new(rt.alloc());
    is_read_into(rt, path, &mut text, wanted) && text.len() == count
}

/// Reports whether a file of octets 00 of this length is made, read so, and removed.
fn is_long(rt: &HostRuntime, path: &str, length: u64, wanted: &Answer, count: usize) -> bool {
    makes(rt, path, length) && is_read(rt, path, wanted, count) && is_removed(rt, path)
}

/// Reports whether an act has its outcome.
fn goes(rt: &HostRuntime, path: &str, act: &Act) -> bool {
    match act {
        Act::IsReadAgain(length) => is_read_again(rt, path, *length),
        Act::IsLong(length, answer, count) => is_long(rt, path, *length, answer, *count),
        Act::IsUnread => is_read(rt, path, &Err(FileFault::Failed), 0),
        Act::IsUnwritten => is_written(rt, path, b"x", &Err(FileFault::Failed)),
        Act::IsRemoved => is_removed(rt, path),
    }
}

/// The number of the first act that doesn't have its outcome.
fn unmet(rt: &HostRuntime, acts: &[(&str, Act)]) -> Option<usize> {
    for (number, (path, act)) in acts.iter().enumerate() {
        if !goes(rt, path, act) {
            return Some(number);
        }
    }
    None
}

/// Texts replace others, and files that are too long, or not there, are not read.
#[test]
fn texts_take_the_place_of_others_and_files_have_an_end(rt: HostRuntime) {
    all_hold(&rt, unmet(&rt, ACTS));
}
