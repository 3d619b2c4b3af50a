//! The heads of blocks.
ghost use Rattle.std.specs.Prelude.{◌≡◌, ◌+◌, ◌<◌, ◌≤◌, length};
ghost use Rattle.s7_block.specs.Heads.{head_agrees, begins_head, is_of_block, head_of, spelling_of_head, db_head};
ghost use Rattle.s7_block.specs.Heads.{two_at, four_at};

use crate::kinds::head_code;

/// The number of octets of a head.
const HEAD_LEN: usize = 36;

/// The greatest number of octets of an image.
const MOST_OCTETS: usize = 65_536;

/// The octet with which each head begins, twice.
const MARK: u8 = 0x70;

/// The greatest body length that is written; it is written for each greater one, too.
const MOST_BODY: u32 = 65_535;

/// Whether the image has 36 to 65,536 octets and its head is that of this block: it begins `70 70`, its type and
/// number are those of the block, its load length is the length of the image, and its body length is at most the
/// number of octets after the head.
#[tactic(auto, unfolding(crate::specs::Heads::head_agrees))]
pub fn head_agrees(image: &[u8], kind: u8, number: u16) -> bool
    ensures { result ≡ head_agrees image.now kind number }
{
    if image.len() < HEAD_LEN || image.len() > MOST_OCTETS {
        return false;
    }
    image[0] == MARK && image[1] == MARK && is_of_block(image, kind, number)
}

/// Whether the head is that of this block.
fn is_of_block(image: &[u8], kind: u8, number: u16) -> bool
    requires { 36 ≤ length image.now }
    ensures { result ≡ is_of_block (length image.now) kind number (head_of image.now) }
{
    head_code(kind) == Some(image[5])
        && two_at(image, 6) == number
        && four_at(image, 8) as usize == image.len()
        && usize::from(two_at(image, 34)) <= image.len() - HEAD_LEN
}

/// Writes the head of a data block that is an area of `len` octets. Its load length is 36 plus `len`. Its body
/// length is `len`, or 65,535 if `len` is greater.
pub fn db_head(number: u16, len: u32, into: &mut [u8; 36])
    requires { len ≤ 16777216 }
    ensures { into.new ≡ spelling_of_head (db_head number len) }
{
    let load = 36 + len;
    let body = len.min(MOST_BODY);
    into.fill(0);
    into[..6].copy_from_slice(&[MARK, MARK, 0x01, 0x01, 0x05, 0x0A]);
    into[6] = (number / 256) as u8;
    into[7] = (number % 256) as u8;
    into[8] = (load / 16_777_216) as u8;
    into[9] = (load / 65_536 % 256) as u8;
    into[10] = (load / 256 % 256) as u8;
    into[11] = (load % 256) as u8;
    into[34] = (body / 256) as u8;
    into[35] = (body % 256) as u8;
}

/// The number in the two octets from offset `at` on.
fn two_at(octets: &[u8], at: usize) -> u16
    requires { at + 1 < length octets.now }
    ensures { result ≡ two_at octets.now at }
{
    u16::from(octets[at]) * 256 + u16::from(octets[at + 1])
}

/// The number in the four octets from offset `at` on.
fn four_at(octets: &[u8], at: usize) -> u32
    requires { at + 3 < length octets.now }
    ensures { result ≡ four_at octets.now at }
{
    let high = u32::from(octets[at]) * 256 + u32::from(octets[at + 1]);
    let low = u32::from(octets[at + 2]) * 256 + u32::from(octets[at + 3]);
    high * 65_536 + low
}
