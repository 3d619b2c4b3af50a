//! Numbers as tag values write them.
ghost use Rattle.std.specs.Prelude.{◌≡◌, ◌≤◌, ◌<◌, ◌*◌, length, option_map, true};
ghost use Rattle.std.specs.Fmt.{decimal};
ghost use Rattle.s7_symbol.specs.Numbers.{counted_to, is_plain, plain_number};
ghost use Rattle.s7_symbol.specs.Values.{Stands};

use itoa::Buffer;
use s7_text::{all_digits, value_of};

/// Numbers from this one on are not distinguished.
const BEYOND: u64 = 10_000_000_000;

/// A whole number: its sign and its size.
#[derive(Clone, Copy, Debug, PartialEq, Eq)]
pub(crate) struct Signed {
    pub(crate) is_negative: bool,
    pub(crate) size: u64,
}

impl Signed {
    ghost use Rattle.s7_symbol.specs.Numbers.{complement, fits_half, signed_by, signed_number, signed_to};
    ghost use Rattle.s7_symbol.specs.Texts.{signed_text};

    /// The whole number that a text writes, with a size of `BEYOND` for every greater size; `None` if the text is no
    /// whole number.
    pub(crate) fn read(text: &[u8]) -> Option<Signed>
        ensures { result ≡ option_map signed_to (signed_number text.now) }
    {
        match text {
            [b'-', digits @ ..] => match plain_number(digits) {
                None | Some(0) => None,
                Some(size) => Some(Signed {
                    is_negative: true,
                    size,
                }),
            },
            _ => {
                let size = plain_number(text)?;
                Some(Signed {
                    is_negative: false,
                    size,
                })
            }
        }
    }

    /// Whether the number is from -`half` to `half` - 1, the range of a two's complement number that has 2 * `half`
    /// values.
    pub(crate) fn fits(self, half: u64) -> bool
        ensures { result ≡ fits_half half self }
    {
        if self.is_negative {
            self.size <= half
        } else {
            self.size < half
        }
    }

    /// The two's complement representation of the number, among 2 * `half` values.
    pub(crate) fn complement(self, half: u64) -> u64
        requires few { half ≤ 2147483648 }
        requires fits { fits_half half self ≡ true }
        requires minus { self.is_negative ≡ true → 0 < self.size }
        ensures value { result ≡ complement half self }
        ensures below { result < 2 * half }
    {
        if self.is_negative {
            2 * half - self.size
        } else {
            self.size
        }
    }

    /// The number that `n` represents in two's complement, among 2 * `half` values.
    pub(crate) fn of_complement(half: u64, n: u64) -> Signed
        requires few { half ≤ 2147483648 }
        requires below { n < 2 * half }
        ensures value { result ≡ signed_by half n }
        ensures fits { fits_half half result ≡ true }
    {
        if n < half {
            Signed {
                is_negative: false,
                size: n,
            }
        } else {
            Signed {
                is_negative: true,
                size: 2 * half - n,
            }
        }
    }

    /// Writes the number's text to the beginning of `into`, which has at least 41 octets, and returns the text's
    /// length.
    pub(crate) fn put(self, into: &mut [u8]) -> usize
        requires { 41 ≤ length into.old }
        ensures { Stands (signed_text self) into.old into.new result }
    {
        if self.is_negative {
            let digits = put_number(self.size, &mut into[1..]);
            into[0] = b'-';
            1 + digits
        } else {
            put_number(self.size, into)
        }
    }
}

/// The number that a text of digits without a leading zero writes, `BEYOND` if it is that or more; `None` for any other
/// text.
pub(crate) fn plain_number(text: &[u8]) -> Option<u64>
    ensures { result ≡ option_map counted_to (plain_number text.now) }
{
    if !is_plain(text) {
        None
    } else if text.len() > 10 {
        Some(BEYOND)
    } else {
        Some(value_of(text))
    }
}

/// Whether a text is decimal digits, at least one, without a leading zero.
fn is_plain(text: &[u8]) -> bool
    ensures { result ≡ is_plain text.now }
{
    !text.is_empty() && all_digits(text) && (text[0] != b'0' || text.len() == 1)
}

/// Writes a number in decimal to the beginning of `into`, which has at least 40 octets, and returns the text's length.
pub(crate) fn put_number(n: u64, into: &mut [u8]) -> usize
    requires { 40 ≤ length into.old }
    ensures { Stands (decimal n) into.old into.new result }
{
    let mut buffer = Buffer::new();
    put(buffer.format(n).as_bytes(), into)
}

/// Writes octets to the beginning of `into`, and returns how many they are.
pub(crate) fn put(octets: &[u8], into: &mut [u8]) -> usize
    requires { length octets.now ≤ length into.old }
    ensures { Stands octets.now into.old into.new result }
{
    into[..octets.len()].copy_from_slice(octets);
    octets.len()
}
