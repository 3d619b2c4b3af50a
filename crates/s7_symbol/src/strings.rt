//! Strings of tags.
ghost use Rattle.std.specs.Prelude.{◌≡◌, ◌≤◌, ◌/◌, ◌%◌, ◌==◌, ◌&&◌, nat_lt, length, None, IfNone, IfSome};
ghost use Rattle.std.specs.List.{list_all};
ghost use Rattle.hex.specs.Hex.{decode_of};
ghost use Rattle.s7_symbol.specs.Meanings.{has_room};
ghost use Rattle.s7_symbol.specs.Texts.{AreDigitsOf, characters_in, decoded, is_lower_digit, string_for};
ghost use Rattle.s7_symbol.specs.Octets.{octets_spelling};
ghost use Rattle.s7_symbol.specs.Values.{PutsSaid, Stands, octets_said, text_said};

use crate::fault::ValueFault;
use crate::kind::TagKind;
use crate::numbers::put;

/// Writes the octets of the string that a text writes, of a type with room for `most` characters.
pub(crate) fn put_characters(most: u8, text: &[u8], into: &mut [u8]) -> Result<usize, ValueFault>
    requires { 512 ≤ length into.old }
    ensures { PutsSaid (octets_said (TagKind.Text most) text.now) into.old into.new result }
{
    let Some(digits) = digits_in(text) else {
        return Err(ValueFault::Form);
    };
    if !has_room(most) {
        return Err(ValueFault::Range);
    }
    if digits.len() / 2 > usize::from(most) {
        return Err(ValueFault::Range);
    }
    Ok(put_pairs(most, digits, into))
}

/// Whether a type of strings has room for 1 to 254 characters.
fn has_room(most: u8) -> bool
    ensures { result ≡ has_room most }
{
    1 <= most && most <= 254
}

/// The digits of the characters that a text writes, none for `-`; `None` if it writes no characters.
fn digits_in(text: &[u8]) -> Option<&[u8]>
    ensures none { IfNone result (characters_in text.now ≡ None) }
    ensures some { IfSome result (λ digits. AreDigitsOf digits.now text.now) }
{
    if text == b"-".as_slice() {
        Some(&text[..0])
    } else if are_pairs(text) {
        Some(text)
    } else {
        None
    }
}

/// Whether a text is pairs of hexadecimal digits in lower case, at least one pair.
fn are_pairs(text: &[u8]) -> bool
    ensures { result ≡ (nat_lt 0 (length text.now) && (length text.now % 2 == 0 && list_all is_lower_digit text.now)) }
{
    !text.is_empty() && text.len() % 2 == 0 && are_lower_digits(text)
}

/// Whether all octets are hexadecimal digits in lower case.
fn are_lower_digits(text: &[u8]) -> bool
    ensures { result ≡ list_all is_lower_digit text.now }
{
    text.iter()
        .all(|b| (48 <= *b && *b <= 57) || (97 <= *b && *b <= 102))
}

/// Writes the octets of a string with room for `most` characters; these are the digits of its characters.
fn put_pairs(most: u8, digits: &[u8], into: &mut [u8]) -> usize
    requires room { 512 ≤ length into.old }
    requires few { length digits.now / 2 ≤ most }
    requires pairs { decode_of digits.now ≡ Ok (decoded digits.now) }
    ensures { Stands (octets_spelling (TagKind.Text most) (string_for most (decoded digits.now)))
        into.old into.new result }
{
    let count = digits.len() / 2;
    put(&[most, count as u8], into);
    match hex::decode_to_slice(digits, &mut into[2..2 + count]) {
        Ok(()) => {}
        Err(_) => unreachable!(),
    }
    let end = 2 + usize::from(most);
    into[2 + count..end].fill(0x00);
    end
}

/// Writes the text of the string in these octets, of a type with room for `most` characters.
pub(crate) fn put_digits(most: u8, octets: &[u8], into: &mut [u8]) -> Result<usize, ValueFault>
    requires { 512 ≤ length into.old }
    ensures { PutsSaid (text_said (TagKind.Text most) octets.now) into.old into.new result }
{
    let [room, count, rest @ ..] = octets else {
        return Err(ValueFault::Form);
    };
    if rest.len() != usize::from(*room) {
        return Err(ValueFault::Form);
    }
    if *room != most || *count > most || !has_room(most) {
        return Err(ValueFault::Range);
    }
    let characters = &rest[..usize::from(*count)];
    if characters.is_empty() {
        return Ok(put(b"-", into));
    }
    let end = 2 * characters.len();
    match hex::encode_to_slice(characters, &mut into[..end]) {
        Ok(()) => Ok(end),
        Err(_) => unreachable!(),
    }
}
