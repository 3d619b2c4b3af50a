//! The jobs that texts name.
use crate::held::HeldJob;
use crate::words::{hex_octet, hex_small, item_of, items_of, number, octets_of, parted, small};
use s7_client::{ItemList, Job};
use s7_outer::Octets;
use std::alloc::Global;

/// A job by its name and its arguments, as in `read ITEM`, `write ITEM = OCTETS` or `upload KIND NUMBER`. The tests
/// name no other jobs.
pub(crate) fn job_of(alloc: Global, text: &str) -> Option<Job> {
    let (name, takes) = parted(text, ' ');
    match name {
        "write" => write(alloc, takes),
        "readmany" => read_many(alloc, takes),
        "writemany" => write_many(alloc, takes),
        "download" => download(alloc, takes),
        _ => of_numbers(name, takes),
    }
}

/// The names of jobs in the order of their numbers, as completions count them.
const NAMES: &str = "\
connect read write readmany writemany list listof info upload download delete szl clock setclock start coldstart stop \
compress copy status password clearpassword dbget dbfill disconnect";

/// The number of the job that a text names.
pub(crate) fn number_of(text: &str) -> Option<u8> {
    let (name, _) = parted(text, ' ');
    number_among(NAMES, name)
}

/// The number, from 1 on, of a name among names.
fn number_among(names: &str, name: &str) -> Option<u8> {
    let mut number = 0u8;
    for other in names.split_ascii_whitespace() {
        number = number.saturating_add(1);
        if other == name {
            return Some(number);
        }
    }
    None
}

/// Reports whether both jobs are the same, by their `Debug` texts.
pub(crate) fn is_same(alloc: Global, one: &Job, other: &Job) -> Option<bool> {
    let one = shown(alloc, one)?;
    let other = shown(alloc, other)?;
    Some(one.as_str() == other.as_str())
}

/// Reports whether a text names this job.
pub(crate) fn is_job(alloc: Global, job: &Job, text: &str) -> Option<bool> {
    let named = HeldJob {
        job: job_of(alloc, text)?,
    };
    is_same(alloc, job, &named.job)
}

/// The `Debug` text of a job.
fn shown(alloc: Global, job: &Job) -> Option<String> {
    format!(in alloc; "{job:?}").ok()
}

/// The octets of a text.
fn octets(alloc: Global, text: &str) -> Option<Octets> {
    Some(Octets::of_vec(octets_of(alloc, text)?))
}

/// A download of an image.
fn download(alloc: Global, takes: &str) -> Option<Job> {
    let image = octets(alloc, takes)?;
    Some(Job::Download { image })
}

/// A write of an item.
fn write(alloc: Global, takes: &str) -> Option<Job> {
    let (item, written) = parted(takes, '=');
    let octets = octets(alloc, written)?;
    let item = item_of(item);
    Some(Job::WriteArea { item, octets })
}

/// A read of several items.
fn read_many(alloc: Global, takes: &str) -> Option<Job> {
    let items = ItemList::of_vec(items_of(alloc, takes)?);
    Some(Job::ReadMany { items })
}

/// A write of several items.
fn write_many(alloc: Global, takes: &str) -> Option<Job> {
    let (items, written) = parted(takes, '=');
    let octets = octets(alloc, written)?;
    let items = ItemList::of_vec(items_of(alloc, items)?);
    Some(Job::WriteMany { items, octets })
}

/// A job that takes an item, a number or nothing. The kind of a block is in hex.
fn of_numbers(name: &str, takes: &str) -> Option<Job> {
    match name {
        "read" => Some(Job::ReadArea {
            item: item_of(takes),
        }),
        "listof" => Some(Job::ListOf {
            kind: hex_octet(takes),
        }),
        "setclock" => Some(Job::ClockSet {
            moment: number(takes),
        }),
        "connect" => Some(Job::Connect),
        "clock" => Some(Job::ClockRead),
        "status" => Some(Job::Status),
        "stop" => Some(Job::Stop),
        "disconnect" => Some(Job::Disconnect),
        _ => of_two(name, takes),
    }
}

/// A job that takes two numbers. The kind of a block and a list are in hex, and the number of a block is not.
fn of_two(name: &str, takes: &str) -> Option<Job> {
    let (one, other) = parted(takes, ' ');
    match name {
        "upload" => Some(Job::Upload {
            kind: hex_octet(one),
            number: small(other),
        }),
        "delete" => Some(Job::Delete {
            kind: hex_octet(one),
            number: small(other),
        }),
        "szl" => Some(Job::Szl {
            id: hex_small(one),
            index: hex_small(other),
        }),
        _ => None,
    }
}
