//! The text that is shown for the octets of a tag.
ghost use Rattle.std.specs.Prelude.{◌≡◌, ◌++◌, OnErr, OnOk, codes};
ghost use Rattle.hex.specs.Hex.{encode_lower};
ghost use Rattle.s7_symbol.specs.Shown.{shown};

use crate::kind::TagKind;
use crate::texts::text_of;
use s7_outer::Memory;
use std::alloc::Global;

/// Appends the text of the value of this type in these octets. If they have no value of the type, appends `bad`, a
/// space and their hexadecimal digits in lower case. Returns `Memory` if an allocation fails; then `text` is unchanged.
pub fn add_shown(
    alloc: Global,
    text: &mut Vec<u8>,
    kind: TagKind,
    octets: &[u8],
) -> Result<(), Memory>
    ensures ok { OnOk result (text.new.items ≡ text.old.items ++ shown kind octets.now) }
    ensures err { OnErr result (text.new.items ≡ text.old.items) }
{
    let mut room = [0; 512];
    let Ok(n) = text_of(kind, octets, &mut room) else {
        return add_bad(alloc, text, octets);
    };
    text.extend_from_slice(&room[..n])?;
    Ok(())
}

/// Appends `bad`, a space and the octets in hexadecimal digits. Returns `Memory` if an allocation fails; then `text` is
/// unchanged.
fn add_bad(alloc: Global, text: &mut Vec<u8>, octets: &[u8]) -> Result<(), Memory>
    ensures ok { OnOk result (text.new.items ≡ text.old.items ++ (codes "bad " ++ encode_lower octets.now)) }
    ensures err { OnErr result (text.new.items ≡ text.old.items) }
{
    let digits = hex::encode(alloc, octets)?;
    let mut bad = Vec::new(alloc);
    bad.extend_from_slice(b"bad ")?;
    bad.extend_from_slice(digits.as_bytes())?;
    text.extend_from_slice(bad.as_slice())?;
    Ok(())
}
