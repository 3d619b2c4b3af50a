//! The lines of tag files.
ghost use Rattle.std.specs.Prelude.{◌≡◌, ◌≤◌, option_map, IfSome};
ghost use Rattle.std.specs.List.{list_all};
ghost use Rattle.std.specs.Result.{result_map_both};
ghost use Rattle.s7_symbol.specs.Places.{Key, address_of, bit_place, in_bits, key_of, up_to};
ghost use Rattle.s7_symbol.specs.Tags.{Fields, fields_of, is_bit, is_name, is_name_letter, item_at, kind_named, size_of};
ghost use Rattle.s7_symbol.specs.Tags.{string_kind};
ghost use Rattle.s7_symbol.specs.LineShown.{AnswersTag, fields_told, placed_told};

use crate::fault::TagFaultKind;
use crate::kind::TagKind;
use crate::tag::Tag;
use s7_item::Item;
use s7_item::codes::{BIT, BYTE, DATA_BLOCKS, FLAGS, INPUTS, OUTPUTS};
use s7_outer::Octets;
use s7_text::{number, split_field, split_mark};
use std::alloc::Global;

/// The four fields of a line.
#[derive(Clone, Copy)]
pub(crate) struct FieldTexts<'a> {
    name: &'a [u8],
    kind: &'a [u8],
    key: &'a [u8],
    start: &'a [u8],
}

/// An area, and the number of a data block.
#[derive(Clone, Copy)]
pub(crate) struct Placed {
    area: u8,
    db: u16,
}

/// Reads the tag of a line. Returns `Memory` if the allocation for its name fails.
pub(crate) fn read_tag(alloc: Global, text: &[u8]) -> Result<Tag, TagFaultKind>
    ensures { AnswersTag text.now result }
{
    let Some(fields) = fields_of(text) else {
        return Err(TagFaultKind::Fields);
    };
    if !is_name(fields.name) {
        return Err(TagFaultKind::Name);
    }
    let Some(kind) = kind_named(fields.kind) else {
        return Err(TagFaultKind::Type);
    };
    let Some(key) = key_of(fields.key) else {
        return Err(TagFaultKind::Place);
    };
    let Some(address) = address_of(is_bit(kind), fields.start) else {
        return Err(TagFaultKind::Place);
    };
    let Ok(name) = Octets::copy_of(alloc, fields.name) else {
        return Err(TagFaultKind::Memory);
    };
    Ok(Tag {
        name,
        kind,
        item: item_at(kind, key, address),
    })
}

/// The four fields of a line; `None` if it has fewer or more.
fn fields_of(text: &[u8]) -> Option<FieldTexts<'_>>
    ensures { option_map fields_told result ≡ fields_of text.now }
{
    let (name, rest) = split_field(text);
    let (kind, rest) = split_field(rest?);
    let (key, rest) = split_field(rest?);
    let (start, rest) = split_field(rest?);
    match rest {
        Some(_) => None,
        None => Some(FieldTexts {
            name,
            kind,
            key,
            start,
        }),
    }
}

/// Whether the text is 1 to 32 ASCII letters, digits or `_`.
fn is_name(text: &[u8]) -> bool
    ensures { result ≡ is_name text.now }
{
    1 <= text.len() && text.len() <= 32 && are_name_letters(text)
}

/// Whether all octets are ASCII letters, digits or `_`.
fn are_name_letters(text: &[u8]) -> bool
    ensures { result ≡ list_all is_name_letter text.now }
{
    text.iter().all(|b| {
        (48 <= *b && *b <= 57) || (65 <= *b && *b <= 90) || (97 <= *b && *b <= 122) || *b == 95
    })
}

/// The type of this name, `None` if there is none.
fn kind_named(name: &[u8]) -> Option<TagKind>
    ensures { result ≡ kind_named name.now }
{
    if name == b"BOOL".as_slice() {
        Some(TagKind::Bool)
    } else if name == b"INT".as_slice() {
        Some(TagKind::Int)
    } else if name == b"DINT".as_slice() {
        Some(TagKind::Dint)
    } else if name == b"BCD".as_slice() {
        Some(TagKind::Bcd)
    } else if name == b"S5TIME".as_slice() {
        Some(TagKind::S5Time)
    } else if name == b"DATE_AND_TIME".as_slice() {
        Some(TagKind::DateTime)
    } else {
        string_kind(name)
    }
}

/// The type `STRING[n]` of this name, with an n from 1 to 254; `None` if it has another form.
fn string_kind(name: &[u8]) -> Option<TagKind>
    ensures { result ≡ string_kind name.now }
{
    let (word, rest) = split_mark(name, b'[')?;
    if word != b"STRING".as_slice() {
        return None;
    }
    let (digits, behind) = split_mark(rest, b']')?;
    if !behind.is_empty() {
        return None;
    }
    let most = up_to(1, 254, number(digits))?;
    Some(TagKind::Text(most as u8))
}

/// The area of a key: `PE`, `PA`, `MK`, or `DB` and a number; `None` for any other text.
fn key_of(field: &[u8]) -> Option<Placed>
    ensures { option_map placed_told result ≡ key_of field.now }
{
    if let Some(digits) = field.strip_prefix(b"DB".as_slice()) {
        let db = up_to(1, 65_535, number(digits))?;
        return Some(Placed {
            area: DATA_BLOCKS,
            db: db as u16,
        });
    }
    let area = if field == b"PE".as_slice() {
        INPUTS
    } else if field == b"PA".as_slice() {
        OUTPUTS
    } else if field == b"MK".as_slice() {
        FLAGS
    } else {
        return None;
    };
    Some(Placed { area, db: 0 })
}

/// The number, if there is one and it is in this range.
fn up_to(low: u64, high: u64, found: Option<u64>) -> Option<u64>
    ensures value { result ≡ up_to low high found }
    ensures most { IfSome result (λ n. n ≤ high) }
{
    match found {
        Some(n) if low <= n && n <= high => Some(n),
        _ => None,
    }
}

/// The address that a start names, in bits; `None` if it names none.
fn address_of(is_bit: bool, field: &[u8]) -> Option<u32>
    ensures { result ≡ address_of is_bit field.now }
{
    if is_bit {
        let (octet, bit) = split_mark(field, b'.')?;
        let octet = up_to(0, 2_097_151, number(octet))?;
        let bit = up_to(0, 7, number(bit))?;
        Some(octet as u32 * 8 + bit as u32)
    } else {
        let octet = up_to(0, 2_097_151, number(field))?;
        Some(octet as u32 * 8)
    }
}

/// Whether a value of the type is a bit.
fn is_bit(kind: TagKind) -> bool
    ensures { result ≡ is_bit kind }
{
    match kind {
        TagKind::Bool => true,
        TagKind::Int
        | TagKind::Dint
        | TagKind::Bcd
        | TagKind::S5Time
        | TagKind::Text(_)
        | TagKind::DateTime => false,
    }
}

/// The number of octets of a value of this type.
fn size_of(kind: TagKind) -> u16
    ensures { result ≡ size_of kind }
{
    match kind {
        TagKind::Bool => 1,
        TagKind::Int | TagKind::Bcd | TagKind::S5Time => 2,
        TagKind::Dint => 4,
        TagKind::Text(most) => u16::from(most) + 2,
        TagKind::DateTime => 8,
    }
}

/// The item of a tag: a bit, or as many bytes as the type has.
fn item_at(kind: TagKind, key: Placed, address: u32) -> Item
    ensures { result ≡ item_at kind (placed_told key) address }
{
    Item {
        area: key.area,
        db: key.db,
        word: if is_bit(kind) { BIT } else { BYTE },
        count: size_of(kind),
        address,
    }
}
