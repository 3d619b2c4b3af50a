//! Writing the messages of questions.
ghost use Rattle.std.specs.Prelude.{◌≡◌, ◌+◌, ◌^◌, ◌<◌, ◌≤◌, ◌++◌, All, length, map, is_some, true, false};
ghost use Rattle.s7_header.specs.Header.{header_len, spelling_of};
ghost use Rattle.s7_header.specs.Negotiation.{most_pdu};
ghost use Rattle.s7_item.specs.Item.{octet_count};
ghost use Rattle.s7_item.specs.Params.{items_params};
ghost use Rattle.s7_item.specs.DataItem.{padding_of, data_item_octets, data_octets};
ghost use Rattle.s7_item.specs.Sizes.{data_size, request_size};
ghost use Rattle.s7_item.specs.Word.{size_of};
ghost use Rattle.s7_dialogue.specs.Question.{negotiates, reads, writes, written, question_octets};
ghost use Rattle.s7_dialogue.specs.Front.{job_front};
ghost use Rattle.s7_dialogue.specs.Checks.{octet_count_of, is_known};

use s7_header::{Header, Kind, MOST_PDU, Negotiation, write_header, write_negotiate};
use s7_item::codes::{READ_FUNCTION, REQUESTED, WRITE_FUNCTION};
use s7_item::{Item, Items, request_size, write_data_item, write_items};
use s7_outer::Buffer;

/// The greatest length of a message that a client sends, in octets.
pub const MOST_MESSAGE: usize = MOST_PDU as usize;

/// Writes the request for the negotiation as the only message in the buffer.
pub(crate) fn write_negotiation(asked: &Negotiation, sequence: u16, message: &mut Buffer)
    requires { message.old.room ≡ most_pdu }
    ensures octets { message.new.octets ≡ question_octets sequence (negotiates asked.now) }
    ensures room { message.new.room ≡ most_pdu }
{
    let mut params = [0u8; 8];
    write_negotiate(asked, &mut params);
    begin_message(Kind::Job, sequence, &params, 0, message);
}

/// Writes the read request for these items as the only message in the buffer.
pub(crate) fn write_read(items: &Items, sequence: u16, message: &mut Buffer)
    requires some { 0 < length items.now }
    requires addresses { All (λ item. item.address < 2 ^ 24) items.now }
    requires fits { request_size items.now false ≤ most_pdu }
    requires room { message.old.room ≡ most_pdu }
    ensures octets { message.new.octets ≡ question_octets sequence (reads items.now) }
    ensures room { message.new.room ≡ most_pdu }
{
    begin_items(READ_FUNCTION, items, sequence, 0, message);
}

/// Writes the write request for these items as the only message in the buffer. Their word lengths are known, and
/// `octets` are the octets of all of them joined.
pub(crate) fn write_write(items: &Items, octets: &[u8], sequence: u16, message: &mut Buffer)
    requires some { 0 < length items.now }
    requires addresses { All (λ item. item.address < 2 ^ 24) items.now }
    requires known { All (λ item. is_known item ≡ true) items.now }
    requires all { length octets.now ≡ octet_count_of items.now }
    requires fits { request_size items.now true ≤ most_pdu }
    requires room { message.old.room ≡ most_pdu }
    ensures octets { message.new.octets ≡ question_octets sequence (writes items.now octets.now) }
    ensures room { message.new.room ≡ most_pdu }
{
    let data = request_size(items, true) - request_size(items, false);
    begin_items(WRITE_FUNCTION, items, sequence, data as u16, message);
    add_data_items(items.as_slice(), octets, message);
}

/// Begins the message of a job for items, whose data have `body_len` octets.
fn begin_items(function: u8, items: &Items, sequence: u16, body_len: u16, message: &mut Buffer)
    requires some { 0 < length items.now }
    requires addresses { All (λ item. item.address < 2 ^ 24) items.now }
    requires fits { request_size items.now false ≤ most_pdu }
    requires room { message.old.room ≡ most_pdu }
    ensures octets { message.new.octets ≡ job_front sequence (items_params function items.now) body_len }
    ensures len { length message.new.octets ≡ request_size items.now false }
    ensures room { message.new.room ≡ most_pdu }
{
    let mut params = [0u8; MOST_MESSAGE];
    let len = write_items(function, items, &mut params);
    begin_message(Kind::Job, sequence, &params[..len], body_len, message);
}

/// Begins a message without an error word: its header and these parameters. Data of `body_len` octets are to
/// follow.
pub(crate) fn begin_message(
    kind: Kind,
    sequence: u16,
    params: &[u8],
    body_len: u16,
    message: &mut Buffer,
)
    requires fits { header_len kind + length params.now ≤ most_pdu }
    requires room { message.old.room ≡ most_pdu }
    ensures octets { message.new.octets ≡ spelling_of (record {
      kind = kind;
      sequence = sequence;
      param_len = length params.now;
      body_len = body_len;
      error = 0;
    }) ++ params.now }
    ensures len { length message.new.octets ≡ header_len kind + length params.now }
    ensures room { message.new.room ≡ most_pdu }
{
    let header = Header {
        kind,
        sequence,
        param_len: params.len() as u16,
        body_len,
        error: 0,
    };
    let mut octets = [0u8; 12];
    let len = write_header(&header, &mut octets);
    message.clear();
    message.add(&octets[..len]);
    message.add(params);
}

/// Appends a data item for each item, with its octets out of those of all items.
fn add_data_items(items: &[Item], octets: &[u8], message: &mut Buffer)
    requires known { All (λ item. is_known item ≡ true) items.now }
    requires all { length octets.now ≡ octet_count_of items.now }
    requires fits { length message.old.octets + data_size (map octet_count items.now) ≤ most_pdu }
    requires room { message.old.room ≡ most_pdu }
    ensures octets { message.new.octets
        ≡ message.old.octets ++ data_octets (written items.now octets.now) }
    ensures room { message.new.room ≡ most_pdu }
{
    let mut rest = octets;
    for (k, item) in items.iter().enumerate() {
        let (octets, after) = rest.split_at(item.octet_count());
        add_data_item(item.word, octets, k + 1 == items.len(), message);
        rest = after;
    }
}

/// Appends the data item of an item of this word length with these octets; `last` says whether it is the last.
fn add_data_item(word: u8, octets: &[u8], last: bool, message: &mut Buffer)
    requires known { is_some (size_of word) ≡ true }
    requires fits { length message.old.octets
        + (4 + length octets.now + padding_of (length octets.now) last) ≤ most_pdu }
    requires room { message.old.room ≡ most_pdu }
    ensures octets { message.new.octets
        ≡ message.old.octets ++ data_item_octets 0x00 word octets.now last }
    ensures len { length message.new.octets
        ≡ length message.old.octets + (4 + length octets.now + padding_of (length octets.now) last) }
    ensures room { message.new.room ≡ most_pdu }
{
    let mut data = [0u8; MOST_MESSAGE];
    let len = write_data_item(REQUESTED, word, octets, last, &mut data);
    message.add(&data[..len]);
}
