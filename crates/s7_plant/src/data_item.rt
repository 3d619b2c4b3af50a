//! The data items that answer a read.
ghost use Rattle.std.specs.Prelude.{◌≡◌, ◌+◌, ◌≤◌, [], ◌∷◌, ◌++◌, length, map};
ghost use Rattle.s7_item.specs.Item.{octet_count};
ghost use Rattle.s7_item.specs.Codes.{good, read_function};
ghost use Rattle.s7_item.specs.DataItem.{head_octets, data_item_octets, data_octets};
ghost use Rattle.s7_item.specs.Sizes.{answer_size, data_size};
ghost use Rattle.s7_plant.specs.Answers.{read_item, item_size};
ghost use Rattle.s7_plant.specs.Requests.{HasAtMost};
ghost use Rattle.s7_plant.specs.Replies.{IsReadyReply, said, said_of};

use crate::reply::Reply;
use s7_area::Areas;
use s7_item::codes::{GOOD, READ_FUNCTION};
use s7_item::{Item, Items, padding_of, stated_length, transport_of};
use s7_outer::Buffer;

/// Puts the answer to a read of these items into the reply. The answer has at most 8,192 octets.
pub(crate) fn say_items(areas: &Areas, right: bool, items: &Items, reply: &mut Reply)
    requires few { answer_size items.now ≤ 8192 }
    requires empty { said_of reply.old ≡ said 0 [] [] }
    requires reply { IsReadyReply reply.old }
    ensures said { said_of reply.new ≡ said 0 (read_function ∷ length items.now ∷ [])
        (data_octets (map (read_item areas.now right) items.now)) }
    ensures fits { HasAtMost (answer_size items.now) (said_of reply.new) }
    ensures ready { IsReadyReply reply.new }
{
    let items = items.as_slice();
    reply.params.add(&[READ_FUNCTION, items.len() as u8]);
    add_data_items(areas, right, items, &mut reply.body);
}

/// Adds one data item for each item, from left to right.
fn add_data_items(areas: &Areas, right: bool, items: &[Item], body: &mut Buffer)
    requires few { data_size (map octet_count items.now) ≤ 8178 }
    requires room { length body.old.octets + data_size (map octet_count items.now) ≤ body.old.room }
    ensures octets { body.new.octets
        ≡ body.old.octets ++ data_octets (map (read_item areas.now right) items.now) }
    ensures most { length body.new.octets
        ≤ length body.old.octets + data_size (map octet_count items.now) }
    ensures room { body.new.room ≡ body.old.room }
{
    for (k, item) in items.iter().enumerate() {
        add_data_item(areas, right, item, k + 1 == items.len(), body);
    }
}

/// Adds the data item that answers the read of one item: code, transport size, length and octets. A padding octet
/// follows an odd number of octets unless `last` is true. If the read is refused, adds the code and `00 00 00`.
fn add_data_item(areas: &Areas, right: bool, item: &Item, last: bool, body: &mut Buffer)
    requires few { octet_count item.now ≤ 8178 }
    requires room { length body.old.octets + item_size (octet_count item.now) last ≤ body.old.room }
    ensures octets { let read = read_item areas.now right item.now in
        body.new.octets ≡ body.old.octets ++ data_item_octets read.code read.word read.octets last }
    ensures most { length body.new.octets
        ≤ length body.old.octets + item_size (octet_count item.now) last }
    ensures room { body.new.room ≡ body.old.room }
{
    match areas.look_up(right, item) {
        Ok(octets) => add_octets(item.word, octets, last, body),
        Err(code) => body.add(&[code, 0x00, 0x00, 0x00]),
    }
}

/// Adds the data item of an item that was read as these octets: code FF, transport size, length and the octets. A
/// padding octet follows an odd number of octets unless `last` is true.
pub fn add_octets(word: u8, octets: &[u8], last: bool, body: &mut Buffer)
    requires few { length octets.now ≤ 8178 }
    requires room { length body.old.octets + item_size (length octets.now) last ≤ body.old.room }
    ensures octets { body.new.octets
        ≡ body.old.octets ++ data_item_octets good word octets.now last }
    ensures len { length body.new.octets
        ≡ length body.old.octets + item_size (length octets.now) last }
    ensures room { body.new.room ≡ body.old.room }
{
    body.add(&head(word, octets.len()));
    body.add(octets);
    if padding_of(octets.len(), last) != 0 {
        body.add(&[0x00]);
    }
}

/// The octets before those of an item that was read: code FF, transport size and length.
fn head(word: u8, len: usize) -> [u8; 4]
    requires { len ≤ 8178 }
    ensures { result ≡ head_octets good word len }
{
    let transport = transport_of(word);
    let stated = stated_length(transport, len) as u16;
    let [high, low] = stated.to_be_bytes();
    [GOOD, transport, high, low]
}
