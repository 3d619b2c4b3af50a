//! Writing the octets of an area.
ghost use Rattle.std.specs.Prelude.{◌≡◌, ◌==◌, ◌<◌, ◌≤◌, ◌++◌, ◌∷◌, [], min, take, IfOk, OnOk, length};
ghost use Rattle.std.specs.List.{prefix_len};
ghost use Rattle.std.specs.Fmt.{decimal};
ghost use Rattle.hex.specs.Hex.{IsBytes, encode_lower};
ghost use Rattle.s7_script.specs.Spelling.{before_run, begins_run, front_of, line_length, line_text, octet_lines};

use s7_outer::Memory;
use std::alloc::Global;

/// The fewest equal octets that are written as a run.
const LEAST_RUN: usize = 33;

/// The most octets on a line of digits.
const MOST_DIGITS: usize = 32;

/// Appends the lines of octets: at least 33 equal octets are a run; the others are digits, 32 octets on a line, or
/// fewer before a run and at the end.
pub(crate) fn write_octets(alloc: Global, text: &mut Vec<u8>, octets: &[u8]) -> Result<(), Memory>
    ensures { OnOk result (text.new.items
        ≡ text.old.items ++ octet_lines (length octets.now) octets.now) }
{
    let mut rest = octets;
    while !rest.is_empty() {
        let count = write_line(alloc, text, rest)?;
        rest = &rest[count..];
    }
    Ok(())
}

/// Appends the next line, and returns how many octets it states.
fn write_line(alloc: Global, text: &mut Vec<u8>, octets: &[u8]) -> Result<usize, Memory>
    requires { 0 < length octets.now }
    ensures text { OnOk result (text.new.items ≡ text.old.items ++ (line_text octets.now ++ 10 ∷ [])) }
    ensures count { IfOk result (λ n. n ≡ line_length octets.now) }
    ensures some { IfOk result (λ n. 0 < n) }
    ensures within { IfOk result (λ n. n ≤ length octets.now) }
{
    let front = front(octets);
    if front >= LEAST_RUN {
        write_run(alloc, text, front, &octets[..1])?;
        return Ok(front);
    }
    let count = before_run(octets);
    write_digits(alloc, text, &octets[..count])?;
    Ok(count)
}

/// Appends a run of this number of octets like this one.
fn write_run(alloc: Global, text: &mut Vec<u8>, count: usize, octet: &[u8]) -> Result<(), Memory>
    ensures { OnOk result (text.new.items
        ≡ text.old.items ++ ((decimal count ++ 42 ∷ encode_lower octet.now) ++ 10 ∷ [])) }
{
    let count = format!(in alloc; "{count}*")?;
    text.extend_from_slice(count.as_bytes())?;
    write_digits(alloc, text, octet)
}

/// Appends the digits of octets, in lower case, and the end of the line.
fn write_digits(alloc: Global, text: &mut Vec<u8>, octets: &[u8]) -> Result<(), Memory>
    ensures { OnOk result (text.new.items
        ≡ text.old.items ++ (encode_lower octets.now ++ 10 ∷ [])) }
{
    let digits = hex::encode(alloc, octets)?;
    text.extend_from_slice(digits.as_bytes())?;
    text.extend_from_slice(b"\n")?;
    Ok(())
}

/// The number of equal octets with which a slice begins.
fn front(octets: &[u8]) -> usize
    ensures { result ≡ front_of octets.now }
{
    match octets.first() {
        Some(first) => repeats(*first, octets),
        None => 0,
    }
}

/// How often this octet is repeated at the beginning.
fn repeats(octet: u8, octets: &[u8]) -> usize
    ensures { result ≡ prefix_len (λ b. b == octet) octets.now }
{
    octets.iter().take_while(|b| **b == octet).count()
}

/// The number of octets before the first run, up to 32.
fn before_run(octets: &[u8]) -> usize
    ensures { result ≡ min 32 (before_run octets.now) }
{
    let most = octets.len().min(MOST_DIGITS);
    for place in 0..most {
        if front(&octets[place..]) >= LEAST_RUN {
            return place;
        }
    }
    most
}
