//! The words of texts: numbers, octets and items. A number that can't be read is the greatest one, which no text
//! expects.
use s7_item::Item;
use std::alloc::Global;

/// A number in decimal.
pub(crate) fn number(text: &str) -> u64 {
    text.trim().parse::<u64>().unwrap_or(u64::MAX)
}

/// A number of 16 bits in decimal.
pub(crate) fn small(text: &str) -> u16 {
    u16::try_from(number(text)).unwrap_or(u16::MAX)
}

/// A number of 32 bits in hex.
pub(crate) fn hex_number(text: &str) -> u32 {
    u32::from_str_radix(text.trim(), 16).unwrap_or(u32::MAX)
}

/// A number of 16 bits in hex.
pub(crate) fn hex_small(text: &str) -> u16 {
    u16::try_from(hex_number(text)).unwrap_or(u16::MAX)
}

/// An octet in hex.
pub(crate) fn hex_octet(text: &str) -> u8 {
    u8::try_from(hex_number(text)).unwrap_or(u8::MAX)
}

/// The text before a mark, and the text after it.
pub(crate) fn parted(text: &str, mark: char) -> (&str, &str) {
    match text.split_once(mark) {
        Some((before, behind)) => (before.trim(), behind.trim()),
        None => (text.trim(), ""),
    }
}

/// The part of this number, from 0, of the parts between marks. A part that isn't there is empty.
pub(crate) fn part(text: &str, mark: char, n: usize) -> &str {
    text.split(mark).nth(n).unwrap_or("").trim()
}

/// More octets than any text has.
pub(crate) const MOST: u64 = 1_000_000;

/// The octets of words, joined: `HEX`, `HEX*N` for these N times, and `FROM-TO` for those of the pattern from one
/// offset to another.
pub(crate) fn octets_of(alloc: Global, text: &str) -> Option<Vec<u8>> {
    let mut octets = Vec::new(alloc);
    for word in text.split_ascii_whitespace() {
        add_word(alloc, &mut octets, word)?;
    }
    Some(octets)
}

/// Adds the octets of a word.
pub(crate) fn add_word(alloc: Global, octets: &mut Vec<u8>, word: &str) -> Option<()> {
    match word.split_once('-') {
        Some((from, to)) => add_pattern(octets, number(from), number(to)),
        None => add_often(alloc, octets, word),
    }
}

/// Adds octets once, or as often as the word says.
fn add_often(alloc: Global, octets: &mut Vec<u8>, word: &str) -> Option<()> {
    let (piece, times) = word.split_once('*').unwrap_or((word, "1"));
    let piece = hex::decode(alloc, piece).ok()?;
    for _ in 0..number(times).min(MOST) {
        octets.extend_from_slice(piece.as_slice()).ok()?;
    }
    Some(())
}

/// Adds octets of the pattern, which rises from 00 to FA and begins anew.
pub(crate) fn add_pattern(octets: &mut Vec<u8>, from: u64, to: u64) -> Option<()> {
    for place in from..to.min(MOST) {
        octets.push((place % 251) as u8).ok()?;
    }
    Some(())
}

/// Reports whether these are the octets of the words.
pub(crate) fn are(alloc: Global, text: &str, octets: &[u8]) -> bool {
    match octets_of(alloc, text) {
        Some(wanted) => wanted.as_slice() == octets,
        None => false,
    }
}

/// An item: its area in hex, data block, word in hex, count and address, with points between them.
pub(crate) fn item_of(word: &str) -> Item {
    Item {
        area: hex_octet(part(word, '.', 0)),
        db: small(part(word, '.', 1)),
        word: hex_octet(part(word, '.', 2)),
        count: small(part(word, '.', 3)),
        address: u32::try_from(number(part(word, '.', 4))).unwrap_or(u32::MAX),
    }
}

/// The items of words.
pub(crate) fn items_of(alloc: Global, text: &str) -> Option<Vec<Item>> {
    let mut items = Vec::new(alloc);
    for word in text.split_ascii_whitespace() {
        items.push(item_of(word)).ok()?;
    }
    Some(items)
}

/// The form with the fields of a row, which has `|` between them, in the places of `$1` to `$6`.
pub(crate) fn filled(alloc: Global, form: &str, row: &str) -> Option<String> {
    let mut text = String::from_str(alloc, form).ok()?;
    let mut marks = ["$1", "$2", "$3", "$4", "$5", "$6"].as_slice();
    for field in row.split('|') {
        let [mark, rest @ ..] = marks else {
            return None;
        };
        marks = rest;
        text = text.as_str().replace(alloc, *mark, field.trim()).ok()?;
    }
    Some(text)
}
