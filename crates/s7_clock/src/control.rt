//! The control of a PLC, as in the Snap7 1.4 sources (`s7_types.h`: `TReqFunPlcHotStart`,
//! `TReqFunPlcColdStart`, `TReqFunPlcStop`, `TReqFunCompress`, `TReqFunCopyRamToRom`).
ghost use Rattle.std.specs.Prelude.{◌≡◌, ◌≤◌, ◌-◌, ◌∷◌, ◌++◌, length, take, drop};
ghost use Rattle.s7_clock.specs.Control.{block_control_of, control_of, control_spelling, five_digits, is_kind};
ghost use Rattle.s7_clock.specs.Control.{number_named};

use crate::faults::BadParams;

/// What a job of function 28 or 29 orders a PLC to do.
#[derive(Clone, Copy, Debug, PartialEq, Eq)]
pub enum Control {
    /// Run, with the contents of the memory (hot start).
    Start,
    /// Run from the beginning (cold start).
    ColdStart,
    /// Stop.
    Stop,
    /// Compress the memory.
    Compress,
    /// Copy RAM to ROM.
    CopyRam,
    /// Make a downloaded block active.
    Insert {
        /// The block's kind: 38 OB, 41 DB, 42 SDB, 43 FC, 44 SFC, 45 FB, 46 SFB.
        kind: u8,
        /// The block's number.
        number: u16,
    },
    /// Delete a block.
    Delete {
        /// The block's kind, by the same codes as for `Insert`.
        kind: u8,
        /// The block's number.
        number: u16,
    },
}

/// The parameters of a hot start.
const START: &[u8] = b"\x28\0\0\0\0\0\0\xFD\0\0\x09P_PROGRAM";

/// The parameters of a cold start.
const COLD_START: &[u8] = b"\x28\0\0\0\0\0\0\xFD\0\x02C \x09P_PROGRAM";

/// The parameters of a stop.
const STOP: &[u8] = b"\x29\0\0\0\0\0\x09P_PROGRAM";

/// The parameters that compress the memory.
const COMPRESS: &[u8] = b"\x28\0\0\0\0\0\0\xFD\0\0\x05_GARB";

/// The parameters that copy RAM to ROM.
const COPY_RAM: &[u8] = b"\x28\0\0\0\0\0\0\xFD\0\x02EP\x05_MODU";

/// The parameters of an insert, with 00 for the block's kind and for the digits of its number.
const INSERT: [u8; 26] = *b"\x28\0\0\0\0\0\0\xFD\0\x0A\x01\x000\0\0\0\0\0\0P\x05_INSE";

/// The parameters of a delete, with the same gaps.
const DELETE: [u8; 26] = *b"\x28\0\0\0\0\0\0\xFD\0\x0A\x01\x000\0\0\0\0\0\0B\x05_DELE";

/// The length of the parameters of an insert or a delete.
const BLOCK_LEN: usize = 26;

/// The offset of the kind in these parameters. The five digits of the number follow it.
const KIND: usize = 13;

/// Reads the parameters of a control. Returns `BadParams` if the octets are none of the seven controls, for another
/// kind of block, and for a number above 65,535.
#[tactic(auto, unfolding(crate::specs::Control::control_of))]
pub fn read_control(params: &[u8]) -> Result<Control, BadParams>
    ensures { result ≡ control_of params.now }
{
    if params == START {
        return Ok(Control::Start);
    }
    if params == COLD_START {
        return Ok(Control::ColdStart);
    }
    if params == STOP {
        return Ok(Control::Stop);
    }
    if params == COMPRESS {
        return Ok(Control::Compress);
    }
    if params == COPY_RAM {
        return Ok(Control::CopyRam);
    }
    read_block_control(params)
}

/// Writes the parameters of a control to the beginning of `into`, and returns their length, from 16 to 26. `into`
/// has room for them, and its rest stays. The kind of a block is written as it is, even if there is no such kind.
pub fn write_control(c: &Control, into: &mut [u8]) -> usize
    requires room { length (control_spelling c.now) ≤ length into.old }
    ensures written { into.new ≡ control_spelling c.now ++ drop result into.old }
    ensures len { result ≡ length (control_spelling c.now) }
{
    match *c {
        Control::Start => put(START, into),
        Control::ColdStart => put(COLD_START, into),
        Control::Stop => put(STOP, into),
        Control::Compress => put(COMPRESS, into),
        Control::CopyRam => put(COPY_RAM, into),
        Control::Insert { kind, number } => put(&block_octets(&INSERT, kind, number), into),
        Control::Delete { kind, number } => put(&block_octets(&DELETE, kind, number), into),
    }
}

/// Reads an insert or a delete. It compares the parameters with those that would be written for the block, so each
/// fixed octet is tested and the digits have to be digits.
fn read_block_control(params: &[u8]) -> Result<Control, BadParams>
    ensures { result ≡ block_control_of params.now }
{
    if params.len() != BLOCK_LEN {
        return Err(BadParams);
    }
    let kind = params[KIND];
    let Ok(number) = u16::try_from(number_named(params)) else {
        return Err(BadParams);
    };
    if !is_kind(kind) {
        return Err(BadParams);
    }
    if params == block_octets(&INSERT, kind, number).as_slice() {
        return Ok(Control::Insert { kind, number });
    }
    if params == block_octets(&DELETE, kind, number).as_slice() {
        return Ok(Control::Delete { kind, number });
    }
    Err(BadParams)
}

/// The number of the block, if its five octets are digits.
fn number_named(params: &[u8]) -> u32
    requires { length params.now ≡ 26 }
    ensures { result ≡ number_named params.now }
{
    digit(params[KIND + 1]) * 10_000
        + digit(params[KIND + 2]) * 1_000
        + digit(params[KIND + 3]) * 100
        + digit(params[KIND + 4]) * 10
        + digit(params[KIND + 5])
}

/// The value of an ASCII digit; 0 for octets below `0`.
fn digit(octet: u8) -> u32
    ensures { result ≡ octet - 0x30 }
{
    u32::from(octet.saturating_sub(b'0'))
}

/// Whether this is the kind of an OB, DB, SDB, FC, SFC, FB or SFB.
fn is_kind(kind: u8) -> bool
    ensures { result ≡ is_kind kind }
{
    matches!(kind, 0x38 | 0x41 | 0x42 | 0x43 | 0x44 | 0x45 | 0x46)
}

/// The parameters of an insert or a delete for this block.
fn block_octets(form: &[u8; BLOCK_LEN], kind: u8, number: u16) -> [u8; BLOCK_LEN]
    ensures { result ≡ take 13 form.now ++ (kind ∷ (five_digits number ++ drop 19 form.now)) }
{
    let mut octets = *form;
    octets[KIND] = kind;
    octets[KIND + 1..KIND + 6].copy_from_slice(&five_digits(number));
    octets
}

/// A number in five ASCII digits.
fn five_digits(number: u16) -> [u8; 5]
    ensures { result ≡ five_digits number }
{
    [
        b'0' + (number / 10_000) as u8,
        b'0' + (number / 1_000 % 10) as u8,
        b'0' + (number / 100 % 10) as u8,
        b'0' + (number / 10 % 10) as u8,
        b'0' + (number % 10) as u8,
    ]
}

/// Writes the octets to the beginning of `into`, and returns their number. The rest of `into` stays.
fn put(octets: &[u8], into: &mut [u8]) -> usize
    requires { length octets.now ≤ length into.old }
    ensures written { into.new ≡ octets.now ++ drop result into.old }
    ensures len { result ≡ length octets.now }
{
    into[..octets.len()].copy_from_slice(octets);
    octets.len()
}
