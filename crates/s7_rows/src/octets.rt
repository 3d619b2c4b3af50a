//! The octets that items name.
use crate::file::Name;
use crate::parts::{cut, number};
use crate::wrong::Wrong;
use std::alloc::Global;

/// The packet of a connect request.
const CONNECT: &str = "0300001611E00000000100C0010AC1020100C2020102";

/// The packet of a connect confirm.
const CONFIRM: &str = "0300001611D00001000100C0010AC1020100C2020102";

/// A negotiation, without the numbers of jobs and the size of the PDU.
const NEGOTIATE: &str = "32010000000400080000F000";

/// The answer to it, without these numbers.
const NEGOTIATED: &str = "320300000004000800000000F000";

/// A negotiation with the sequence of the first job, without these numbers.
const ASKED: &str = "32010000000100080000F000";

/// The answer to it, without these numbers.
const GRANTED: &str = "320300000001000800000000F000";

/// What words and items may name.
#[derive(Clone, Copy)]
pub struct Scope<'a> {
    pub names: &'a [Name<'a>],
    /// The item that `$` represents.
    pub with: &'a str,
    /// How many jobs may be under way.
    pub jobs: u8,
}

/// Appends the octets of items. Each message is in a packet of its own.
pub fn add_items(scope: &Scope<'_>, items: &str, all: &mut Vec<u8>) -> Result<(), Wrong> {
    for item in items.split(',') {
        add_item(scope, item.trim(), all)?;
    }
    Ok(())
}

/// Appends the octets that a name represents: those of one item without a packet, or those of several items.
pub fn add_named(scope: &Scope<'_>, items: &str, all: &mut Vec<u8>) -> Result<(), Wrong> {
    if items.contains(',') || items.contains('*') {
        add_items(scope, items, all)
    } else {
        add_plain(scope, items, all)
    }
}

/// Appends an item; `$` is the item of the row's line `with`.
fn add_item(scope: &Scope<'_>, item: &str, all: &mut Vec<u8>) -> Result<(), Wrong> {
    if item == "$" {
        add_packets(scope, scope.with, all)
    } else {
        add_packets(scope, item, all)
    }
}

/// Appends the packets of an item, repeated as often as the number before its `*` states.
fn add_packets(scope: &Scope<'_>, item: &str, all: &mut Vec<u8>) -> Result<(), Wrong> {
    let (times, item) = item.split_once('*').unwrap_or(("1", item));
    for _ in 0..number(times)? {
        add_packet(scope, item.trim(), all)?;
    }
    Ok(())
}

/// Appends the packet of an item; after `raw` the octets are its words as they are.
fn add_packet(scope: &Scope<'_>, item: &str, all: &mut Vec<u8>) -> Result<(), Wrong> {
    match item.strip_prefix("raw ") {
        Some(words) => add_words(scope, words, all),
        None => add_message(scope, item, all),
    }
}

/// Appends the octets of an item, in a packet if they are a message.
fn add_message(scope: &Scope<'_>, item: &str, all: &mut Vec<u8>) -> Result<(), Wrong> {
    let mut octets = Vec::new(*all.allocator());
    add_plain(scope, item, &mut octets)?;
    if octets.first() == Some(&0x32) {
        all.extend_from_slice(&head_of(octets.len()))?;
    }
    all.extend_from_slice(octets.as_slice())?;
    Ok(())
}

/// The octets of a packet before a message of this length.
fn head_of(length: usize) -> [u8; 7] {
    let [high, low] = (length.min(65_528) as u16 + 7).to_be_bytes();
    [0x03, 0x00, high, low, 0x02, 0xF0, 0x80]
}

/// The octets of an item without a packet around them.
pub fn plain_octets(alloc: Global, scope: &Scope<'_>, item: &str) -> Result<Vec<u8>, Wrong> {
    let mut octets = Vec::new(alloc);
    if item == "$" {
        add_plain(scope, scope.with, &mut octets)?;
    } else {
        add_plain(scope, item, &mut octets)?;
    }
    Ok(octets)
}

/// Appends the octets of an item without a packet around them.
fn add_plain(scope: &Scope<'_>, item: &str, all: &mut Vec<u8>) -> Result<(), Wrong> {
    let (first, second) = cut(item);
    match first {
        "connect" => add_digits(CONNECT, all),
        "confirm" => add_digits(CONFIRM, all),
        "negotiate" => add_setup(NEGOTIATE, 1, second, all),
        "negotiated" => add_setup(NEGOTIATED, 1, second, all),
        "asked" => add_setup(ASKED, scope.jobs, second, all),
        "granted" => add_setup(GRANTED, scope.jobs, second, all),
        _ => add_words(scope, item, all),
    }
}

/// Appends a negotiation or its answer, with these numbers.
fn add_setup(front: &str, jobs: u8, pdu: &str, all: &mut Vec<u8>) -> Result<(), Wrong> {
    add_digits(front, all)?;
    let [high, low] = (number(pdu)?.min(65_535) as u16).to_be_bytes();
    all.extend_from_slice(&[0, jobs, 0, jobs, high, low])?;
    Ok(())
}

/// Appends the octets of words.
fn add_words(scope: &Scope<'_>, words: &str, all: &mut Vec<u8>) -> Result<(), Wrong> {
    for word in words.split_ascii_whitespace() {
        add_word(scope, word, all)?;
    }
    Ok(())
}

/// Appends the octets of a word, repeated as often as the number before its `x` states.
fn add_word(scope: &Scope<'_>, word: &str, all: &mut Vec<u8>) -> Result<(), Wrong> {
    let (times, word) = word.split_once('x').unwrap_or(("1", word));
    for _ in 0..number(times)? {
        add_octets(scope, word, all)?;
    }
    Ok(())
}

/// Appends the octets of a name, of a pattern or of digits.
pub fn add_octets(scope: &Scope<'_>, word: &str, all: &mut Vec<u8>) -> Result<(), Wrong> {
    if let Some(octets) = octets_of(scope.names, word) {
        return Ok(all.extend_from_slice(octets)?);
    }
    match word.split_once("..") {
        Some((from, to)) => add_pattern(number(from)?, number(to)?, all),
        None => add_digits(word, all),
    }
}

/// Appends the octets of a pattern from one number to another. The pattern repeats after 251 octets.
fn add_pattern(from: u64, to: u64, all: &mut Vec<u8>) -> Result<(), Wrong> {
    for k in from..to {
        all.push((k % 251) as u8)?;
    }
    Ok(())
}

/// The octets of a name, `None` if there is no such name.
fn octets_of<'a>(names: &'a [Name<'_>], word: &str) -> Option<&'a [u8]> {
    for name in names {
        if name.name == word {
            return Some(name.octets.as_slice());
        }
    }
    None
}

/// Appends the octets of hexadecimal digits.
fn add_digits(digits: &str, all: &mut Vec<u8>) -> Result<(), Wrong> {
    match hex::decode(*all.allocator(), digits) {
        Ok(octets) => Ok(all.extend_from_slice(octets.as_slice())?),
        Err(_) => Err(Wrong::Octets),
    }
}
