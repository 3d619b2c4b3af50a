//! The lines of a watcher.
ghost use Rattle.std.specs.Prelude.{◌≡◌, ◌++◌, IfOk, OnOk, string_bytes};
ghost use Rattle.s7_symbol.specs.Octets.{four_octets};
ghost use Rattle.s7_watch.specs.Lines.{failed_line, line_if_new, round_text, sample_line, sample_text};
ghost use Rattle.s7_watch.specs.WatchShown.{last_of, tag_in};

use crate::watched::Watched;
use s7_item::codes::GOOD;
use s7_outer::Memory;
use s7_symbol::{Tag, TagKind, add_shown};
use std::alloc::{AllocError, Global};

/// Appends the line of a sample, if the sample is the first of its tag or differs from the last one. Returns `Memory`
/// if an allocation fails.
pub(crate) fn add_if_new(
    alloc: Global,
    text: &mut Vec<u8>,
    round: u64,
    watched: &Watched,
    code: u8,
    octets: &[u8],
) -> Result<(), Memory>
    ensures { OnOk result (text.new.items ≡ text.old.items
        ++ line_if_new round (tag_in watched.now) (last_of watched.now)
        (record { code = code; octets = octets.now })) }
{
    if !watched.is_new(code, octets) {
        return Ok(());
    }
    add_sample(alloc, text, round, &watched.tag, code, octets)
}

/// Appends the line of a sample.
fn add_sample(
    alloc: Global,
    text: &mut Vec<u8>,
    round: u64,
    tag: &Tag,
    code: u8,
    octets: &[u8],
) -> Result<(), Memory>
    ensures { OnOk result (text.new.items ≡ text.old.items
        ++ sample_line round tag.now (record { code = code; octets = octets.now })) }
{
    let head = round_text(alloc, round)?;
    text.extend_from_slice(head.as_bytes())?;
    text.extend_from_slice(b" ")?;
    text.extend_from_slice(tag.name.as_slice())?;
    text.extend_from_slice(b" ")?;
    add_value(alloc, text, tag.kind, code, octets)?;
    text.extend_from_slice(b"\n")?;
    Ok(())
}

/// Appends the text of a sample.
fn add_value(
    alloc: Global,
    text: &mut Vec<u8>,
    kind: TagKind,
    code: u8,
    octets: &[u8],
) -> Result<(), Memory>
    ensures { OnOk result (text.new.items ≡ text.old.items
        ++ sample_text kind (record { code = code; octets = octets.now })) }
{
    if code == GOOD {
        return add_shown(alloc, text, kind, octets);
    }
    let digits = hex::encode_upper(alloc, [code].as_slice())?;
    text.extend_from_slice(b"code ")?;
    text.extend_from_slice(digits.as_bytes())?;
    Ok(())
}

/// Appends the line of a read that failed. Returns `Memory` if an allocation fails.
pub(crate) fn add_failed(
    alloc: Global,
    text: &mut Vec<u8>,
    round: u64,
    code: u32,
) -> Result<(), Memory>
    ensures { OnOk result (text.new.items ≡ text.old.items ++ failed_line round code) }
{
    let head = round_text(alloc, round)?;
    let digits = hex::encode_upper(alloc, four_octets(code).as_slice())?;
    text.extend_from_slice(head.as_bytes())?;
    text.extend_from_slice(b" failed ")?;
    text.extend_from_slice(digits.as_bytes())?;
    text.extend_from_slice(b"\n")?;
    Ok(())
}

/// `round` and the number of the round.
fn round_text(alloc: Global, round: u64) -> Result<String, AllocError>
    ensures { IfOk result (λ text. string_bytes text ≡ round_text round) }
{
    format!(in alloc; "round {round}")
}

/// A number in four octets, the high one first.
fn four_octets(n: u32) -> [u8; 4]
    ensures { result ≡ four_octets n }
{
    n.to_be_bytes()
}
