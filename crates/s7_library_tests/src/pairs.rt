//! Tests of two partners with the blocks of sends files.
ghost use Rattle.std.specs.Prelude.{All, IfSome};
ghost use Rattle.s7_script.specs.Sends.{IsSized};

use crate::rows::all_hold;
use s7_client::Config;
use s7_partner::Role;
use s7_partner_run::{News, PairEnd, PairEvent, run_pair};
use s7_script::{Sends, read_sends};
use std::alloc::Global;

/// The end of two partners. It is dropped by a function of its own, so that its callers are cheap to prove.
struct Pair {
    end: PairEnd,
}

impl Drop for Pair {
    fn drop(self) {
        let Pair { end: _ } = self;
    }
}

/// The blocks of a sends file.
fn sends_of(alloc: Global, text: &[u8]) -> Option<Sends>
    ensures { IfSome result (All IsSized) }
{
    read_sends(alloc, text).ok()
}

/// The end of two partners with these blocks. It promises nothing, so that its callers are cheap to prove.
fn end_of(alloc: Global, one: Sends, other: Sends, seed: u32) -> Option<Pair>
    requires sized { All IsSized one }
    requires other_sized { All IsSized other }
{
    match run_pair(alloc, Config::new(1, 0, 2), one, other, seed, 10_000) {
        Ok(end) => Some(Pair { end }),
        Err(_) => None,
    }
}

/// The end of two partners with these sends files.
fn end_with(alloc: Global, one: &[u8], other: &[u8], seed: u32) -> Option<Pair> {
    let one = sends_of(alloc, one)?;
    let other = sends_of(alloc, other)?;
    end_of(alloc, one, other, seed)
}

/// A sends file of `count` blocks, each with one more octet than the one before.
fn many(alloc: Global, count: u32, octet: &str) -> Option<Vec<u8>> {
    let mut text = Vec::new(alloc);
    for number in 0..count {
        let head = format!(in alloc; "send {number:08x} ").ok()?;
        text.extend_from_slice(head.as_bytes()).ok()?;
        for _ in 0..=number {
            text.extend_from_slice(octet.as_bytes()).ok()?;
        }
        text.extend_from_slice(b"\n").ok()?;
    }
    Some(text)
}

/// Reports whether there are `count` octets, each of them this one.
pub(crate) fn is_filled(octets: &[u8], count: usize, octet: u8) -> bool {
    for found in octets {
        if *found != octet {
            return false;
        }
    }
    octets.len() == count
}

/// Reports whether the event is a block of this partner, with this number as its R_ID, and one more octet than that.
fn is_block(event: &PairEvent, role: Role, octet: u8, number: usize) -> bool {
    match &event.news {
        News::Received { rid, body } => {
            event.role == role
                && *rid as usize == number
                && is_filled(body.as_slice(), number.saturating_add(1), octet)
        }
        _ => false,
    }
}

/// The number of events of this partner that are such blocks, with the numbers from 0 on, in order.
fn received_in_order(events: &[PairEvent], role: Role, octet: u8) -> usize {
    let mut next = 0usize;
    for event in events {
        if is_block(event, role, octet, next) {
            next = next.saturating_add(1);
        }
    }
    next
}

/// Reports whether both partners have sent all blocks.
fn have_sent(end: &PairEnd) -> bool {
    let events = end.events.as_slice();
    end.is_done
        && events.len() == 800
        && received_in_order(events, Role::Passive, 0xA1) == 200
        && received_in_order(events, Role::Active, 0xB2) == 200
}

/// Reports whether two partners with 200 blocks each send them all.
fn send_both(alloc: Global, seed: u32) -> Option<bool> {
    let one = many(alloc, 200, "a1")?;
    let other = many(alloc, 200, "b2")?;
    let pair = end_with(alloc, one.as_slice(), other.as_slice(), seed)?;
    Some(have_sent(&pair.end))
}

/// The number of the first seed with which they don't.
fn unmet(alloc: Global, seeds: &[u32]) -> Option<usize> {
    for (number, seed) in seeds.iter().enumerate() {
        if send_both(alloc, *seed) != Some(true) {
            return Some(number);
        }
    }
    None
}

/// Two partners send 200 blocks each at the same time.
#[test]
fn both_send_200_blocks_at_once(rt: HostRuntime) {
    all_hold(&rt, unmet(rt.alloc(), &[1, 2_147_483_649, 12_345]));
}
