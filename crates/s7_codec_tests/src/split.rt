//! Tests of items that are split into parts, and of items that are packed into groups.
ghost use Rattle.std.specs.Prelude.{◌≡◌, ◌<◌, ◌≤◌, ◌^◌, IsSome};
ghost use Rattle.s7_item.specs.Word.{size_of};
ghost use Rattle.s7_split.specs.Parts.{range_end};

use s7_item::Item;
use s7_split::{Groups, PackFault, pack, parts};

/// One byte of data block 1.
const BYTES: Item = Item {
    area: 0x84,
    db: 1,
    word: 0x02,
    count: 1,
    address: 0,
};

/// Reports whether an item is split into parts of these counts at these addresses.
fn is_split(item: &Item, pdu: u16, write: bool, wanted: &[(u16, u32)]) -> bool
    requires known { IsSome (size_of item.now.word) }
    requires some { 0 < item.now.count }
    requires bit { item.now.word ≡ 0x01 → item.now.count ≡ 1 }
    requires inside { range_end item.now ≤ 2 ^ 24 }
    requires least { 64 ≤ pdu }
{
    let mut parts = parts(item, pdu, write);
    for &(count, address) in wanted {
        let part = Item {
            count,
            address,
            ..*item
        };
        if parts.next() != Some(part) {
            return false;
        }
    }
    parts.next().is_none()
}

/// A read of 1,000 bytes is split into five parts, and a read that fills its parts has no empty part. The greatest PDU
/// takes a read of 1,902 bytes.
#[test]
#[tactic(auto, unfolding(s7_item::specs::Word::size_of))]
fn reads_of_bytes_are_split(rt: HostRuntime) {
    let thousand = Item {
        count: 1000,
        ..BYTES
    };
    let two = Item {
        count: 444,
        ..BYTES
    };
    let most = Item {
        count: 1902,
        ..BYTES
    };
    let more = Item {
        count: 1903,
        ..BYTES
    };
    let five = [(222, 0), (222, 1776), (222, 3552), (222, 5328), (112, 7104)];
    assert!(rt;
        is_split(&thousand, 240, false, &five)
            && is_split(&two, 240, false, &[(222, 0), (222, 1776)])
            && is_split(&most, 1920, false, &[(1902, 0)])
            && is_split(&more, 1920, false, &[(1902, 0), (1, 15216)])
    );
}

/// The addresses of parts advance by counters, and by bits in other areas.
#[test]
#[tactic(auto, unfolding(s7_item::specs::Word::size_of))]
fn counters_and_words_advance_as_their_areas_do(rt: HostRuntime) {
    let counters = Item {
        area: 0x1C,
        db: 0,
        word: 0x1C,
        count: 30,
        address: 5,
    };
    let words = Item {
        word: 0x04,
        count: 20,
        address: 16,
        ..BYTES
    };
    assert!(rt;
        is_split(&counters, 64, false, &[(23, 5), (7, 28)])
            && is_split(&words, 64, true, &[(14, 16), (6, 240)])
    );
}

/// Reports whether items are packed into groups with these ends, whatever groups were there before.
fn are_packed(groups: &mut Groups, items: &[Item], pdu: u16, write: bool, ends: &[u8]) -> bool {
    pack(items, pdu, write, groups) == Ok(())
        && usize::from(groups.count) == ends.len()
        && groups.ends.starts_with(ends)
}

/// Twenty items are packed into groups, and no items into none.
#[test]
fn twenty_bytes_are_packed(rt: HostRuntime) {
    let items = [BYTES; 20];
    let mut groups = Groups::new();
    assert!(rt;
        are_packed(&mut groups, &items, 480, false, &[20])
            && are_packed(&mut groups, &items, 240, false, &[19, 20])
            && are_packed(&mut groups, &[], 64, true, &[])
    );
}

/// Reports whether items can't be packed for this fault, and there are no groups after that.
fn have_fault(items: &[Item], pdu: u16, fault: PackFault) -> bool {
    let mut groups = Groups::new();
    pack(items, pdu, false, &mut groups) == Err(fault) && groups.count == 0
}

/// More than twenty items are refused, and an item that is longer than a PDU.
#[test]
fn packing_is_refused(rt: HostRuntime) {
    let over = PackFault::ItemOverPdu { place: 1 };
    let mut items = [BYTES; 3];
    items[1].count = 223;
    items[2].count = 224;
    assert!(rt; have_fault(&[BYTES; 21], 480, PackFault::TooMany) && have_fault(&items, 240, over));
}
