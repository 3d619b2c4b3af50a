//! The lines of windows files.
ghost use Rattle.std.specs.Prelude.{◌≡◌, ◌≤◌, ◌∷◌, [], IfNone, IfSome, option_map, true};
ghost use Rattle.std.specs.Result.{result_map_both};
ghost use Rattle.s7_relay.specs.File.{terms_in};
ghost use Rattle.s7_relay.specs.Keys.{has_octets};
ghost use Rattle.s7_relay.specs.Line.{area_named, around_sign, fields, is_block, is_word, key_named, line_said};
ghost use Rattle.s7_relay.specs.Line.{terms_of, up_to};
ghost use Rattle.s7_relay.specs.LineShown.{parts_told};

use crate::fault::WindowKind;
use crate::windows::Window;
use s7_area::AreaKey;
use s7_item::codes::{DATA_BLOCKS, FLAGS, INPUTS, OUTPUTS};
use s7_text::{number, split_field};

/// The greatest sum of a window's length and offset.
const MOST_OCTETS: u64 = 2_097_152;

/// The fields around the `=`.
#[derive(Clone, Copy)]
pub(crate) struct LineFields<'a> {
    near: &'a [u8],
    length: &'a [u8],
    far: &'a [u8],
    offset: &'a [u8],
}

/// The window that a line states, or what is wrong with the line.
pub(crate) fn read_line(text: &[u8]) -> Result<Window, WindowKind>
    ensures { result_map_both terms_in (λ e. e) result ≡ line_said text.now }
{
    let Some(fields) = fields_of(text) else {
        return Err(WindowKind::Fields);
    };
    if !is_word(fields.near) || !is_word(fields.far) {
        return Err(WindowKind::Word);
    }
    match window_of(fields) {
        Some(window) => Ok(window),
        None => Err(WindowKind::Number),
    }
}

/// The fields around the `=`; `None` if the line doesn't have five fields, or if the third field isn't `=`.
fn fields_of(text: &[u8]) -> Option<LineFields<'_>>
    ensures { option_map parts_told result ≡ around_sign (fields text.now) }
{
    let (near, rest) = next_field(text);
    let (length, rest) = next_field(rest?);
    let (sign, rest) = next_field(rest?);
    let (far, rest) = next_field(rest?);
    let (offset, rest) = next_field(rest?);
    match rest {
        None if sign == b"=".as_slice() => Some(LineFields {
            near,
            length,
            far,
            offset,
        }),
        None => None,
        Some(_) => None,
    }
}

/// The first field of a line, and the text after the space that ends it; `None` if there is no space.
fn next_field(text: &[u8]) -> (&[u8], Option<&[u8]>)
    ensures more { IfSome result.1 (λ rest. fields text.now ≡ result.0.now ∷ fields rest.now) }
    ensures last { IfNone result.1 (fields text.now ≡ result.0.now ∷ []) }
{
    split_field(text)
}

/// Whether a field is `PE`, `PA` or `MK`, or begins with `DB`.
fn is_word(field: &[u8]) -> bool
    ensures { result ≡ is_word field.now }
{
    is_block(field) || area_named(field).is_some()
}

/// Whether a field begins with `DB`.
fn is_block(field: &[u8]) -> bool
    ensures { result ≡ is_block field.now }
{
    field.starts_with(b"DB".as_slice())
}

/// The area that `PE`, `PA` or `MK` names; `None` for every other field.
fn area_named(field: &[u8]) -> Option<u8>
    ensures { result ≡ area_named field.now }
{
    if field == b"PE".as_slice() {
        Some(INPUTS)
    } else if field == b"PA".as_slice() {
        Some(OUTPUTS)
    } else if field == b"MK".as_slice() {
        Some(FLAGS)
    } else {
        None
    }
}

/// The window whose areas and numbers are in these fields; `None` if one of them is wrong.
fn window_of(fields: LineFields<'_>) -> Option<Window>
    ensures { option_map terms_in result ≡ terms_of (parts_told fields.entry) }
{
    let near = key_named(fields.near)?;
    let length = up_to(1, MOST_OCTETS, number(fields.length))?;
    let far = key_named(fields.far)?;
    let offset = up_to(0, MOST_OCTETS, number(fields.offset))?;
    if length + offset > MOST_OCTETS {
        return None;
    }
    Some(Window {
        near,
        length: length as u32,
        far,
        offset: offset as u32,
    })
}

/// The area that a field names; `None` if it names none, or if the number of a data block isn't from 1 to 65,535.
fn key_named(field: &[u8]) -> Option<AreaKey>
    ensures key { result ≡ key_named field.now }
    ensures octets { IfSome result (λ key. has_octets key ≡ true) }
{
    if is_block(field) {
        let block = up_to(1, 65_535, number(&field[2..]))?;
        return Some(AreaKey {
            area: DATA_BLOCKS,
            number: block as u16,
        });
    }
    let area = area_named(field)?;
    Some(AreaKey { area, number: 0 })
}

/// The number that was found, if it is from `low` to `high`.
fn up_to(low: u64, high: u64, found: Option<u64>) -> Option<u64>
    ensures value { result ≡ up_to low high found }
    ensures low { IfSome result (λ n. low ≤ n) }
    ensures high { IfSome result (λ n. n ≤ high) }
{
    match found {
        Some(n) if low <= n && n <= high => Some(n),
        _ => None,
    }
}
