//! Items that are written, and their octets.
ghost use Rattle.std.specs.Prelude.{◌≡◌, ◌<◌, ◌≤◌, length, option_map};
ghost use Rattle.s7_script.specs.Script.{Gives, counted, element_size, with_digits, with_hex, written_item};
ghost use Rattle.s7_script.specs.ScriptShown.{octets_in, placed_told, written_of};

use crate::ScriptKind;
use crate::scripts::item_text::{Placed, ended, item_at, place};
use hex::FromHexError;
use s7_item::{Item, size_of};
use s7_text::split_field;
use std::alloc::Global;

/// An item that is written, and its octets.
#[derive(Drop)]
pub(crate) struct WrittenItem {
    pub(crate) item: Item,
    pub(crate) octets: Vec<u8>,
}

/// Items that are written, and their octets joined.
#[derive(Drop)]
pub(crate) struct WrittenItems {
    pub(crate) items: Vec<Item>,
    pub(crate) octets: Vec<u8>,
}

/// The item that these fields name: key, word, start and octets.
pub(crate) fn written_item(alloc: Global, text: &[u8]) -> Result<WrittenItem, ScriptKind>
    ensures { Gives written_of result (written_item text.now) }
{
    let placed = place(text)?;
    with_hex(alloc, placed)
}

/// The item at this place, with the octets in the last field.
fn with_hex(alloc: Global, placed: Placed) -> Result<WrittenItem, ScriptKind>
    ensures { Gives written_of result (with_hex (placed_told placed.entry) (placed_told placed.entry).rest) }
{
    let Some(text) = placed.rest else {
        return Err(ScriptKind::Fields);
    };
    let (field, rest) = split_field(text);
    with_digits(alloc, placed, field, rest)
}

/// The item with the octets of a field, if there are no more fields.
fn with_digits(
    alloc: Global,
    placed: Placed,
    field: &[u8],
    rest: Option<&[u8]>,
) -> Result<WrittenItem, ScriptKind>
    ensures { Gives written_of result
        (with_digits (placed_told placed.entry) field.now (option_map (λ t. t.now) rest.entry)) }
{
    let octets = octets_in(alloc, field)?;
    let item = counted(placed, octets.len())?;
    let item = ended(item, rest)?;
    Ok(WrittenItem { item, octets })
}

/// The octets of a field: an even number of hexadecimal digits, at least two.
pub(crate) fn octets_in(alloc: Global, field: &[u8]) -> Result<Vec<u8>, ScriptKind>
    ensures { Gives (λ v. v.items) result (octets_in field.now) }
{
    if field.is_empty() {
        return Err(ScriptKind::Digits);
    }
    match hex::decode(alloc, field) {
        Ok(octets) => Ok(octets),
        Err(FromHexError::OutOfMemory) => Err(ScriptKind::Memory),
        Err(_) => Err(ScriptKind::Digits),
    }
}

/// The item with as many elements as the octets make.
fn counted(placed: Placed, octets: usize) -> Result<Item, ScriptKind>
    ensures { result ≡ counted (placed_told placed.entry) octets }
{
    let size = element_size(placed.word);
    if octets % size != 0 {
        return Err(ScriptKind::Fields);
    }
    let count = octets / size;
    if count > 65_535 {
        return Err(ScriptKind::Number);
    }
    Ok(item_at(placed, count as u16))
}

/// The number of octets of an element of the word.
fn element_size(word: u8) -> usize
    ensures size { result ≡ element_size word }
    ensures some { 0 < result }
{
    usize::from(size_of(word).unwrap_or(1))
}
