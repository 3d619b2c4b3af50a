//! Items as scripts write them.
ghost use Rattle.std.specs.Prelude.{◌≡◌, ◌<◌, ◌≤◌, ◌+◌, IfOk, IfSome, length, take, drop, option_map};
ghost use Rattle.std.specs.List.{position};
ghost use Rattle.std.specs.Result.{result_map_both};
ghost use Rattle.s7_script.specs.Script.{address_of, bit_place, ended, is_point, item_at, key_of, octet_place, place};
ghost use Rattle.s7_script.specs.Script.{read_item, with_count, with_start, with_word, within, word_named, word_of};
ghost use Rattle.s7_script.specs.ScriptShown.{placed_told};

use crate::ScriptKind;
use crate::areas::area_line::area_named;
use s7_area::AreaKey;
use s7_item::Item;
use s7_item::codes::{
    BIT, BYTE, CHARACTER, COUNTERS, DATA_BLOCKS, DOUBLE_INTEGER, DOUBLE_WORD, INTEGER, REAL,
    TIMERS, WORD,
};
use s7_text::{number, split_field};

/// The greatest number of an octet in an address.
const LAST_OCTET: u64 = 2_097_151;

/// The greatest number of a counter or timer in an address.
const LAST_NUMBER: u64 = 16_777_215;

/// The place of an item, and the fields that follow.
#[derive(Clone, Copy)]
pub(crate) struct Placed<'a> {
    pub(crate) key: AreaKey,
    pub(crate) word: u8,
    pub(crate) address: u32,
    pub(crate) rest: Option<&'a [u8]>,
}

/// The item that these fields name: key, word, start and count.
pub(crate) fn read_item(text: &[u8]) -> Result<Item, ScriptKind>
    ensures { result ≡ read_item text.now }
{
    let placed = place(text)?;
    with_count(placed)
}

/// The item at this place, with the count in the last field.
fn with_count(placed: Placed) -> Result<Item, ScriptKind>
    ensures { result ≡ with_count (placed_told placed.entry) (placed_told placed.entry).rest }
{
    let Some(text) = placed.rest else {
        return Err(ScriptKind::Fields);
    };
    let (field, rest) = split_field(text);
    let count = within(0, 65_535, number(field))?;
    ended(item_at(placed, count as u16), rest)
}

/// What was read, if there are no more fields.
pub(crate) fn ended<T: Drop>(found: T, rest: Option<&[u8]>) -> Result<T, ScriptKind>
    ensures { result ≡ ended found (option_map (λ t. t.now) rest.entry) }
{
    match rest {
        Some(_) => Err(ScriptKind::Fields),
        None => Ok(found),
    }
}

/// The item of this number of elements from this address on.
pub(crate) fn item_at(placed: Placed, count: u16) -> Item
    ensures { result ≡ item_at (placed_told placed.entry) count }
{
    Item {
        area: placed.key.area,
        db: placed.key.number,
        word: placed.word,
        count,
        address: placed.address,
    }
}

/// The place of an item: its key, word and start.
pub(crate) fn place(text: &[u8]) -> Result<Placed<'_>, ScriptKind>
    ensures { result_map_both placed_told (λ e. e) result ≡ place text.now }
{
    let (field, rest) = split_field(text);
    let key = key_of(field)?;
    with_word(key, rest)
}

/// The place in the area of this key, from the fields of the word and the start.
fn with_word(key: AreaKey, rest: Option<&[u8]>) -> Result<Placed<'_>, ScriptKind>
    ensures { result_map_both placed_told (λ e. e) result ≡ with_word key (option_map (λ t. t.now) rest.entry) }
{
    let Some(text) = rest else {
        return Err(ScriptKind::Fields);
    };
    let (field, rest) = split_field(text);
    let word = word_of(field)?;
    with_start(key, word, rest)
}

/// The place in the area of this key with this word, from the field of the start.
fn with_start(key: AreaKey, word: u8, rest: Option<&[u8]>) -> Result<Placed<'_>, ScriptKind>
    ensures { result_map_both placed_told (λ e. e) result ≡ with_start key word (option_map (λ t. t.now) rest.entry) }
{
    let Some(text) = rest else {
        return Err(ScriptKind::Fields);
    };
    let (field, rest) = split_field(text);
    let address = address_of(key, word, field)?;
    Ok(Placed {
        key,
        word,
        address,
        rest,
    })
}

/// The area of a key: `PE`, `PA`, `MK`, `CT`, `TM`, or `DB` and a number.
fn key_of(field: &[u8]) -> Result<AreaKey, ScriptKind>
    ensures { result ≡ key_of field.now }
{
    if let Some(digits) = field.strip_prefix(b"DB".as_slice()) {
        let number = within(1, 65_535, number(digits))?;
        return Ok(AreaKey {
            area: DATA_BLOCKS,
            number: number as u16,
        });
    }
    match area_named(field) {
        Some(area) => Ok(AreaKey { area, number: 0 }),
        None => Err(ScriptKind::Word),
    }
}

/// The code of the word in a field.
fn word_of(field: &[u8]) -> Result<u8, ScriptKind>
    ensures { result ≡ word_of (word_named field.now) }
{
    match word_named(field) {
        Some(word) => Ok(word),
        None => Err(ScriptKind::Word),
    }
}

/// The address that a start names.
fn address_of(key: AreaKey, word: u8, field: &[u8]) -> Result<u32, ScriptKind>
    ensures { result ≡ address_of key word field.now }
{
    if key.area == COUNTERS || key.area == TIMERS {
        let address = within(0, LAST_NUMBER, number(field))?;
        Ok(address as u32)
    } else if word == BIT {
        bit_place(field)
    } else {
        octet_place(field)
    }
}

/// The address of an octet, in bits.
fn octet_place(field: &[u8]) -> Result<u32, ScriptKind>
    ensures { result ≡ octet_place field.now }
{
    let octet = within(0, LAST_OCTET, number(field))?;
    Ok(octet as u32 * 8)
}

/// The address of a bit: an octet and a bit, with a point between them.
fn bit_place(field: &[u8]) -> Result<u32, ScriptKind>
    ensures { result ≡ bit_place field.now (position is_point field.now) }
{
    let Some(point) = point(field) else {
        return Err(ScriptKind::Number);
    };
    let (octet, bit) = parted(field, point);
    let octet = within(0, LAST_OCTET, number(octet))?;
    let bit = within(0, 7, number(bit))?;
    Ok(octet as u32 * 8 + bit as u32)
}

/// The number, if there is one in this range.
pub(crate) fn within(low: u64, high: u64, found: Option<u64>) -> Result<u64, ScriptKind>
    ensures value { result ≡ within low high found }
    ensures most { IfOk result (λ n. n ≤ high) }
{
    match found {
        Some(n) if low <= n && n <= high => Ok(n),
        _ => Err(ScriptKind::Number),
    }
}

/// The index of the first point, `None` if there is none.
fn point(field: &[u8]) -> Option<usize>
    ensures place { result ≡ position is_point field.now }
    ensures within { IfSome result (λ n. n < length field.now) }
{
    field.iter().position(|b| *b == b'.')
}

/// The texts before and after this index.
fn parted(field: &[u8], point: usize) -> (&[u8], &[u8])
    requires { point < length field.now }
    ensures before { result.0.now ≡ take point field.now }
    ensures after { result.1.now ≡ drop (point + 1) field.now }
{
    (&field[..point], &field[point + 1..])
}

/// The code of the word of this name.
fn word_named(name: &[u8]) -> Option<u8>
    ensures { result ≡ word_named name.now }
{
    if name == b"bit".as_slice() {
        Some(BIT)
    } else if name == b"byte".as_slice() {
        Some(BYTE)
    } else if name == b"char".as_slice() {
        Some(CHARACTER)
    } else if name == b"word".as_slice() {
        Some(WORD)
    } else if name == b"int".as_slice() {
        Some(INTEGER)
    } else if name == b"dword".as_slice() {
        Some(DOUBLE_WORD)
    } else if name == b"dint".as_slice() {
        Some(DOUBLE_INTEGER)
    } else if name == b"real".as_slice() {
        Some(REAL)
    } else if name == b"counter".as_slice() {
        Some(COUNTERS)
    } else if name == b"timer".as_slice() {
        Some(TIMERS)
    } else {
        None
    }
}
