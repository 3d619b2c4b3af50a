//! Names of blocks in telegrams.
ghost use Rattle.std.specs.Prelude.{◌≡◌, ◌≤◌, length};
ghost use Rattle.s7_block.specs.Names.{digits, number_in, name_octets, named};

use crate::block::BlockName;
use crate::kinds::head_code;

/// The number of octets of a name: `30`, the kind, five digits of the number, and the block's location.
pub const NAME: usize = 8;

/// The octet with which each name begins.
const MARK: u8 = 0x30;

/// The number of these decimal digits, the high one first. `None` exactly if an octet isn't a digit. There are at
/// most nine digits.
pub fn read_digits(octets: &[u8]) -> Option<u32>
    requires { length octets.now ≤ 9 }
    ensures { result ≡ number_in octets.now }
{
    let mut number = 0;
    for octet in octets {
        if !octet.is_ascii_digit() {
            return None;
        }
        number = number * 10 + u32::from(*octet - b'0');
    }
    Some(number)
}

/// Writes a number in decimal digits to all of `into`, with leading zeros. If it has more digits than that, the
/// last ones are written.
pub fn write_digits(number: u32, into: &mut [u8])
    ensures { into.new ≡ digits (length into.old) number }
{
    let mut left = number;
    for at in (0..into.len()).rev() {
        into[at] = b'0' + (left % 10) as u8;
        left /= 10;
    }
}

/// The block that the octets name, at the location `place`. `None` exactly if the octets aren't the eight octets of a
/// name with this location, if there is no such kind, or if the number is above 65,535.
pub fn read_name(octets: &[u8], place: u8) -> Option<BlockName>
    ensures { result ≡ named octets.now place }
{
    if octets.len() != NAME || octets[0] != MARK || octets[NAME - 1] != place {
        return None;
    }
    let kind = octets[1];
    let number = u16::try_from(read_digits(&octets[2..NAME - 1])?).ok()?;
    head_code(kind)?;
    Some(BlockName { kind, number })
}

/// Writes a block's name with its location.
pub fn write_name(name: BlockName, place: u8, into: &mut [u8; NAME])
    ensures { into.new ≡ name_octets name place }
{
    *into = [MARK, name.kind, 0, 0, 0, 0, 0, place];
    write_digits(u32::from(name.number), &mut into[2..NAME - 1]);
}
