//! Lines that give a guard.
ghost use Rattle.std.specs.Prelude.{◌≡◌, ◌≤◌, length, option_map};
ghost use Rattle.std.specs.List.{list_all};
ghost use Rattle.s7_script.specs.Reading.{guard_line, is_graphic, is_word, password_of, with_word};

use crate::areas::area_line::{fault, number_within};
use crate::{AreasFault, AreasKind};
use s7_area::Guard;
use s7_text::{number, split_field};

/// The guard of a line whose first field is `protect`. The fields after it are the guard's level, 2 or 3, and its
/// password.
pub(crate) fn guard_line(line: u32, rest: Option<&[u8]>) -> Result<Guard, AreasFault>
    ensures { result ≡ guard_line line (option_map (λ t. t.now) rest.entry) }
{
    let Some(text) = rest else {
        return Err(fault(line, AreasKind::Line));
    };
    let (field, rest) = split_field(text);
    let level = number_within(2, 3, number(field), line)?;
    with_word(line, level as u8, rest)
}

/// The password, which must be the last field.
fn with_word(line: u32, level: u8, rest: Option<&[u8]>) -> Result<Guard, AreasFault>
    ensures { result ≡ with_word line level (option_map (λ t. t.now) rest.entry) }
{
    match rest {
        Some(word) if is_word(word) => Ok(Guard {
            level,
            password: password_of(word),
        }),
        _ => Err(fault(line, AreasKind::Line)),
    }
}

/// Whether a text is one to eight printable ASCII octets without space.
fn is_word(text: &[u8]) -> bool
    ensures { result ≡ is_word text.now }
{
    !text.is_empty() && text.len() <= 8 && all_graphic(text)
}

/// Whether all octets are printable ASCII octets without space.
pub(crate) fn all_graphic(text: &[u8]) -> bool
    ensures { result ≡ list_all is_graphic text.now }
{
    text.iter().all(|b| b.is_ascii_graphic())
}

/// The password of a word: the word, padded with spaces to eight octets.
fn password_of(word: &[u8]) -> [u8; 8]
    requires { length word.now ≤ 8 }
    ensures { result ≡ password_of word.now }
{
    let mut password = [b' '; 8];
    password[..word.len()].copy_from_slice(word);
    password
}
