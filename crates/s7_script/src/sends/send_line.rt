//! The blocks of lines of sends files.
ghost use Rattle.std.specs.Prelude.{◌≡◌, option_map};
ghost use Rattle.hex.specs.Hex.{decode_of};
ghost use Rattle.s7_script.specs.Script.{Gives};
ghost use Rattle.s7_script.specs.Sends.{block_sent, four_octets_in, send_of, with_digits, with_hex};
ghost use Rattle.s7_script.specs.SendsShown.{block_of};

use crate::ScriptKind;
use crate::scripts::item_text::ended;
use crate::scripts::written::octets_in;
use hex::FromHex;
use s7_outer::Octets;
use s7_text::split_field;
use std::alloc::Global;

/// The greatest number of octets of a block.
const MOST_OCTETS: usize = 65_535;

/// A block that a line names to be sent.
#[derive(Drop)]
pub(crate) struct NamedBlock {
    pub(crate) rid: u32,
    pub(crate) body: Octets,
}

/// The block that a line names.
pub(crate) fn send_of(alloc: Global, text: &[u8]) -> Result<NamedBlock, ScriptKind>
    ensures { Gives block_of result (send_of text.now) }
{
    let (word, rest) = split_field(text);
    if word != b"send".as_slice() {
        return Err(ScriptKind::Word);
    }
    block_sent(alloc, rest)
}

/// The block of the fields: its R_ID and its octets.
fn block_sent(alloc: Global, rest: Option<&[u8]>) -> Result<NamedBlock, ScriptKind>
    ensures { Gives block_of result (block_sent (option_map (λ t. t.now) rest.entry)) }
{
    let Some(text) = rest else {
        return Err(ScriptKind::Fields);
    };
    let (field, rest) = split_field(text);
    let rid = four_octets_in(field)?;
    with_hex(alloc, rid, rest)
}

/// The number in eight hexadecimal digits.
fn four_octets_in(field: &[u8]) -> Result<u32, ScriptKind>
    ensures { result ≡ four_octets_in (decode_of field.now) }
{
    match <[u8; 4]>::from_hex(field) {
        Ok(octets) => Ok(u32::from_be_bytes(octets)),
        Err(_) => Err(ScriptKind::Digits),
    }
}

/// The block with this R_ID, and the octets in the last field.
fn with_hex(alloc: Global, rid: u32, rest: Option<&[u8]>) -> Result<NamedBlock, ScriptKind>
    ensures { Gives block_of result (with_hex rid (option_map (λ t. t.now) rest.entry)) }
{
    let Some(text) = rest else {
        return Err(ScriptKind::Fields);
    };
    let (field, rest) = split_field(text);
    with_digits(alloc, rid, field, rest)
}

/// The block with the octets of a field, if there are no more fields.
fn with_digits(
    alloc: Global,
    rid: u32,
    field: &[u8],
    rest: Option<&[u8]>,
) -> Result<NamedBlock, ScriptKind>
    ensures { Gives block_of result (with_digits rid field.now (option_map (λ t. t.now) rest.entry)) }
{
    let octets = octets_in(alloc, field)?;
    if octets.len() > MOST_OCTETS {
        return Err(ScriptKind::Number);
    }
    let body = Octets::of_vec(octets);
    ended(NamedBlock { rid, body }, rest)
}
