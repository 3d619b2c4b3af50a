//! The checks of a job before anything is sent. Each gives 0 or an error number.
ghost use Rattle.std.specs.Prelude.{◌≡◌, ◌+◌, ◌*◌, ◌<◌, ◌≤◌, length, take};
ghost use Rattle.std.specs.List.{list_all};
ghost use Rattle.s7_split.specs.Parts.{range_end};
ghost use Rattle.s7_split.specs.Groups.{groups_of, ends_of};
ghost use Rattle.s7_dialogue.specs.Checks.{is_known, is_placed, octet_count_of, check_item, check_items};
ghost use Rattle.s7_dialogue.specs.Checks.{check_moment, check_password, check_image};

use crate::codes::{GOOD, INVALID_PARAMETERS, INVALID_WORD, OVER_PDU, TOO_MANY_ITEMS};
use crate::transfers::download::name_in;
use s7_block::head_agrees;
use s7_clock::{FIRST_MOMENT, LAST_MOMENT};
use s7_item::codes::{BIT, COUNTERS, TIMERS};
use s7_item::{Item, MOST_ITEMS, size_of};
use s7_split::{Groups, pack};

/// One more than the highest address.
const ADDRESSES: u64 = 0x0100_0000;

/// The least number of octets of an image.
const LEAST_IMAGE: usize = 36;

/// The greatest number of octets of a password.
const MOST_PASSWORD: usize = 8;

/// Checks a read or write of one item. `has_octets` says whether a write has the item's number of octets; it is
/// true for a read.
pub(crate) fn check_item(item: &Item, has_octets: bool) -> u32
    ensures { result ≡ check_item item.now has_octets }
{
    if !is_known(item) {
        INVALID_WORD
    } else if !(is_placed(item) && has_octets) {
        INVALID_PARAMETERS
    } else {
        GOOD
    }
}

/// Checks a read or write of several items. If it gives 0, `groups` holds where the groups of the items end.
pub(crate) fn check_items(
    items: &[Item],
    has_octets: bool,
    pdu: u16,
    write: bool,
    groups: &mut Groups,
) -> u32
    ensures check { result ≡ check_items items.now has_octets pdu write }
    ensures ends { result ≡ 0 → take groups.new.count groups.new.ends ≡ ends_of 0 (groups_of pdu write items.now) }
{
    if items.len() > MOST_ITEMS {
        return TOO_MANY_ITEMS;
    }
    if !are_known(items) {
        return INVALID_WORD;
    }
    let placed = are_placed(items);
    if !(placed && has_octets) {
        return INVALID_PARAMETERS;
    }
    match pack(items, pdu, write, groups) {
        Ok(()) => GOOD,
        Err(_) => OVER_PDU,
    }
}

/// Checks a time to which a clock is to be set.
pub(crate) fn check_moment(moment: u64) -> u32
    ensures { result ≡ check_moment moment }
{
    if (FIRST_MOMENT..=LAST_MOMENT).contains(&moment) {
        GOOD
    } else {
        INVALID_PARAMETERS
    }
}

/// Checks the length of a password.
pub(crate) fn check_password(text: &[u8]) -> u32
    ensures { result ≡ check_password text.now }
{
    if text.is_empty() || text.len() > MOST_PASSWORD {
        INVALID_PARAMETERS
    } else {
        GOOD
    }
}

/// Checks the image of a block.
#[tactic(auto, unfolding(s7_block::specs::Heads::head_agrees))]
pub(crate) fn check_image(image: &[u8]) -> u32
    ensures { result ≡ check_image image.now }
{
    if image.len() < LEAST_IMAGE {
        return INVALID_PARAMETERS;
    }
    let name = name_in(image);
    if head_agrees(image, name.kind, name.number) {
        GOOD
    } else {
        INVALID_PARAMETERS
    }
}

/// Whether all word lengths are known.
fn are_known(items: &[Item]) -> bool
    ensures { result ≡ list_all is_known items.now }
{
    items.iter().all(|item| is_known(item))
}

/// Whether `is_placed` is true of all items.
fn are_placed(items: &[Item]) -> bool
    ensures { result ≡ list_all is_placed items.now }
{
    items.iter().all(|item| is_placed(item))
}

/// The number of octets of all items together.
pub(crate) fn octet_count_of(items: &[Item]) -> usize
    requires { length items.now ≤ 20 }
    ensures count { result ≡ octet_count_of items.now }
    ensures most { result ≤ 262140 * length items.now }
{
    let mut count = 0;
    for item in items {
        count += item.octet_count();
    }
    count
}

/// Whether the word length is known.
fn is_known(item: &Item) -> bool
    ensures { result ≡ is_known item.now }
{
    size_of(item.word).is_some()
}

/// Whether there are elements, exactly one if they are bits, and the range ends inside the address field.
fn is_placed(item: &Item) -> bool
    ensures { result ≡ is_placed item.now }
{
    item.count != 0 && (item.word != BIT || item.count == 1) && range_end(item) <= ADDRESSES
}

/// The first address after the item's range.
fn range_end(item: &Item) -> u64
    ensures { result ≡ range_end item.now }
{
    let address = u64::from(item.address);
    let count = u64::from(item.count);
    if item.area == COUNTERS || item.area == TIMERS {
        address + count
    } else if item.word == BIT {
        address + 1
    } else {
        8 * (address / 8 + count * u64::from(size_of(item.word).unwrap_or(0)))
    }
}
