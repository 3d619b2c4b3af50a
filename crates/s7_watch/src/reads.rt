//! The tags of a read, and its samples.
ghost use Rattle.std.specs.Prelude.{◌≡◌, ◌<◌, ◌≤◌, ◌*◌, ◌++◌, length, map, take, drop, IfOk, OnOk};
ghost use Rattle.s7_item.specs.Item.{octet_count};
ghost use Rattle.s7_client.specs.Form.{count_read, octets_read};
ghost use Rattle.s7_watch.specs.Samples.{items_of, samples_in};
ghost use Rattle.s7_watch.specs.Looks.{look_count, most_tags, part};
ghost use Rattle.s7_watch.specs.Lines.{new_lines, nothing_seen, with_samples};
ghost use Rattle.s7_watch.specs.WatchShown.{last_of, tag_in};

use crate::lines::add_if_new;
use crate::watched::Watched;
use s7_client::ItemList;
use s7_item::Item;
use s7_item::codes::GOOD;
use s7_outer::Memory;
use s7_symbol::Tag;
use std::alloc::Global;

/// The greatest number of tags of a read.
pub(crate) const MOST_TAGS: usize = 20;

/// Copies of the tags, before their first samples. Returns `Memory` if an allocation fails.
pub(crate) fn watch_all(alloc: Global, tags: &[Tag]) -> Result<Vec<Watched>, Memory>
    ensures tags { IfOk result (λ all. map tag_in all.items ≡ tags.now) }
    ensures lasts { IfOk result (λ all. map last_of all.items ≡ nothing_seen tags.now) }
{
    let mut all = Vec::with_capacity(alloc, tags.len())?;
    for tag in tags {
        let watched = Watched::new(alloc, tag)?;
        all.push_reserved(watched);
    }
    Ok(all)
}

/// The tags that the read of this number in a round has.
pub(crate) fn looked(all: &[Watched], number: usize) -> &[Watched]
    requires { number < look_count (length all.now) }
    ensures tags { map tag_in result.now ≡ part number (map tag_in all.now) }
    ensures lasts { map last_of result.now ≡ part number (map last_of all.now) }
{
    let rest = &all[MOST_TAGS * number..];
    if rest.len() > MOST_TAGS {
        &rest[..MOST_TAGS]
    } else {
        rest
    }
}

/// The items of tags. Returns `Memory` if the allocation fails.
pub(crate) fn items_of(alloc: Global, looked: &[Watched]) -> Result<ItemList, Memory>
    ensures { IfOk result (λ items. items ≡ items_of (map tag_in looked.now)) }
{
    let mut items = Vec::with_capacity(alloc, looked.len())?;
    for watched in looked {
        items.push_reserved(watched.tag.item);
    }
    Ok(ItemList::of_vec(items))
}

/// Appends the line of each sample that is the first of its tag or differs from the last one. Returns `Memory` if an
/// allocation fails.
pub(crate) fn add_lines(
    alloc: Global,
    text: &mut Vec<u8>,
    round: u64,
    looked: &[Watched],
    codes: &[u8],
    octets: &[u8],
) -> Result<(), Memory>
    requires codes { length codes.now ≡ length (items_of (map tag_in looked.now)) }
    requires octets { length octets.now ≡ octets_read (items_of (map tag_in looked.now)) codes.now }
    ensures { OnOk result (text.new.items ≡ text.old.items
        ++ new_lines round (map tag_in looked.now) (map last_of looked.now)
        (samples_in (items_of (map tag_in looked.now)) codes.now octets.now)) }
{
    let mut rest = octets;
    for (k, watched) in looked.iter().enumerate() {
        let (own, after) = cut(&watched.tag.item, codes[k], rest);
        add_if_new(alloc, text, round, watched, codes[k], own)?;
        rest = after;
    }
    Ok(())
}

/// Keeps the samples of the read of this number as the last ones of its tags.
pub(crate) fn see_all(all: &mut [Watched], number: usize, codes: &[u8], octets: &[u8])
    requires number { number < look_count (length all.old) }
    requires codes { length codes.now ≡ length (items_of (part number (map tag_in all.old))) }
    requires octets { length octets.now
        ≡ octets_read (items_of (part number (map tag_in all.old))) codes.now }
    ensures tags { map tag_in all.new ≡ map tag_in all.old }
    ensures lasts { map last_of all.new ≡ with_samples (map last_of all.old) (most_tags * number)
        (samples_in (items_of (part number (map tag_in all.old))) codes.now octets.now) }
{
    let first = MOST_TAGS * number;
    let mut rest = octets;
    for (k, code) in codes.iter().enumerate() {
        let item = all[first + k].tag.item;
        let (own, after) = cut(&item, *code, rest);
        all[first + k].see(*code, own);
        rest = after;
    }
}

/// The octets of an item with this code, which come first, and those after them.
fn cut<'a>(item: &Item, code: u8, octets: &'a [u8]) -> (&'a [u8], &'a [u8])
    requires { count_read item.now code ≤ length octets.now }
    ensures own { result.0.now ≡ take (count_read item.now code) octets.now }
    ensures fits { length result.0.now ≤ octet_count item.now }
    ensures rest { result.1.now ≡ drop (count_read item.now code) octets.now }
{
    octets.split_at(count_read(item, code))
}

/// The number of octets that a read gave of an item with this code.
fn count_read(item: &Item, code: u8) -> usize
    ensures { result ≡ count_read item.now code }
{
    if code == GOOD { item.octet_count() } else { 0 }
}
