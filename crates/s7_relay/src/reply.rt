//! What is answered near.
ghost use Rattle.std.specs.Prelude.{◌≡◌, ◌+◌, ◌<◌, ◌≤◌, [], ◌∷◌, ◌++◌, length, map, slice_index};
ghost use Rattle.s7_item.specs.Codes.{good, read_function, write_function};
ghost use Rattle.s7_item.specs.Item.{octet_count};
ghost use Rattle.s7_item.specs.Sizes.{answer_size, data_size};
ghost use Rattle.s7_client.specs.Form.{count_read};
ghost use Rattle.s7_plant.specs.Answers.{item_size, refused};
ghost use Rattle.s7_plant.specs.Replies.{IsReadyReply, said, said_of};
ghost use Rattle.s7_plant.specs.Requests.{Fits, HasAtMost, IsReady};
ghost use Rattle.s7_relay.specs.Replies.{AreEnough, AreNear, GivesEnough, HasEnough, codes_wanted, octets_wanted};
ghost use Rattle.s7_relay.specs.Replies.{answer_octets, answered_code, answered_codes, answered_item, answered_items};
ghost use Rattle.s7_relay.specs.Replies.{answers_octets, reply_by, reply_of, reply_with, rest_codes, rest_octets};

use crate::errors::{NO_FUNCTION, NO_LINK, TOO_LONG, error_of};
use crate::passage::Passage;
use s7_client::JobResult;
use s7_client::codes::GOOD as NO_FAULT;
use s7_item::Item;
use s7_item::codes::{GOOD, READ_FUNCTION, WRITE_FUNCTION};
use s7_outer::Buffer;
use s7_plant::{Reply, Request, add_octets};

/// Puts the answer to a request with these near codes that got so far into the reply.
pub(crate) fn say(request: &Request, near: &[u8], passage: &Passage, reply: &mut Reply)
    requires ready { IsReady request.now }
    requires near { AreNear request.now near.now }
    requires enough { GivesEnough request.now near.now passage.now }
    requires reply { IsReadyReply reply.old }
    ensures said { said_of reply.new ≡ reply_of request.now near.now passage.now }
    ensures fits { Fits request.now (said_of reply.new) }
    ensures ready { IsReadyReply reply.new }
{
    match passage {
        Passage::Near => say_with(request, near, &[], &[], reply),
        Passage::Undialled => reply.refuse(NO_LINK),
        Passage::Unconnected { connect } => reply.refuse(error_of(connect.code)),
        Passage::Unpacked { .. } => reply.refuse(TOO_LONG),
        Passage::Asked { job, .. } => say_result(request, near, job, reply),
    }
}

/// Puts the answer to a request into the reply, by the result of the far job.
fn say_result(request: &Request, near: &[u8], told: &JobResult, reply: &mut Reply)
    requires ready { IsReady request.now }
    requires near { AreNear request.now near.now }
    requires enough { HasEnough request.now near.now told.now }
    requires reply { IsReadyReply reply.old }
    ensures said { said_of reply.new ≡ reply_by request.now near.now told.now }
    ensures fits { Fits request.now (said_of reply.new) }
    ensures ready { IsReadyReply reply.new }
{
    if told.code == NO_FAULT {
        let codes = &told.codes[..usize::from(told.count)];
        say_with(request, near, codes, told.octets.as_slice(), reply);
    } else {
        reply.refuse(error_of(told.code));
    }
}

/// Puts the answer to a request into the reply, by the far codes and octets of the items that travelled.
fn say_with(request: &Request, near: &[u8], codes: &[u8], octets: &[u8], reply: &mut Reply)
    requires ready { IsReady request.now }
    requires near { AreNear request.now near.now }
    requires enough { AreEnough request.now near.now codes.now octets.now }
    requires reply { IsReadyReply reply.old }
    ensures said { said_of reply.new ≡ reply_with request.now near.now codes.now octets.now }
    ensures fits { Fits request.now (said_of reply.new) }
    ensures ready { IsReadyReply reply.new }
{
    match request {
        Request::Read { items } => say_items(items.as_slice(), near, codes, octets, reply),
        Request::Write { items, .. } => say_codes(items.as_slice(), near, codes, reply),
        _ => reply.refuse(NO_FUNCTION),
    }
}

/// Puts the answer to a read of these items into the reply.
fn say_items(items: &[Item], near: &[u8], codes: &[u8], octets: &[u8], reply: &mut Reply)
    requires few { length items.now ≤ 20 }
    requires near { length near.now ≡ length items.now }
    requires codes { length codes.now ≡ codes_wanted near.now }
    requires octets { length octets.now ≡ octets_wanted items.now near.now codes.now }
    requires size { answer_size items.now ≤ 8192 }
    requires reply { IsReadyReply reply.old }
    ensures said { said_of reply.new ≡ said 0 (read_function ∷ length items.now ∷ [])
        (answers_octets (answered_items items.now near.now codes.now octets.now)) }
    ensures fits { HasAtMost (answer_size items.now) (said_of reply.new) }
    ensures ready { IsReadyReply reply.new }
{
    reply.clear();
    reply.params.add(&[READ_FUNCTION, items.len() as u8]);
    add_items(items, near, codes, octets, &mut reply.body);
}

/// Adds the data item of each item, from left to right.
fn add_items(items: &[Item], near: &[u8], codes: &[u8], octets: &[u8], body: &mut Buffer)
    requires near { length near.now ≡ length items.now }
    requires codes { length codes.now ≡ codes_wanted near.now }
    requires octets { length octets.now ≡ octets_wanted items.now near.now codes.now }
    requires few { data_size (map octet_count items.now) ≤ 8178 }
    requires room { length body.old.octets + data_size (map octet_count items.now) ≤ body.old.room }
    ensures octets { body.new.octets
        ≡ body.old.octets ++ answers_octets (answered_items items.now near.now codes.now octets.now) }
    ensures most { length body.new.octets
        ≤ length body.old.octets + data_size (map octet_count items.now) }
    ensures room { body.new.room ≡ body.old.room }
{
    let mut codes = codes;
    let mut octets = octets;
    for k in 0..items.len() {
        let rest = add_first(
            &items[k],
            near[k],
            codes,
            octets,
            k + 1 == items.len(),
            body,
        );
        codes = rest.0;
        octets = rest.1;
    }
}

/// Adds the data item of an item with this near code. Returns the far codes and octets of the items after it. `last`
/// says whether there are none.
fn add_first<'a>(
    item: &Item,
    near: u8,
    codes: &'a [u8],
    octets: &'a [u8],
    last: bool,
    body: &mut Buffer,
) -> (&'a [u8], &'a [u8])
    requires codes { near ≡ good → 0 < length codes.now }
    requires octets { near ≡ good → count_read item.now (slice_index codes.now 0) ≤ length octets.now }
    requires few { octet_count item.now ≤ 8178 }
    requires room { length body.old.octets + item_size (octet_count item.now) last ≤ body.old.room }
    ensures told { body.new.octets
        ≡ body.old.octets ++ answer_octets (answered_item item.now near codes.now octets.now) last }
    ensures most { length body.new.octets ≤ length body.old.octets + item_size (octet_count item.now) last }
    ensures room { body.new.room ≡ body.old.room }
    ensures codes { result.0.now ≡ rest_codes near codes.now }
    ensures octets { result.1.now ≡ rest_octets item.now near codes.now octets.now }
{
    if near != GOOD {
        body.add(&[near, 0x00, 0x00, 0x00]);
        return (codes, octets);
    }
    let count = count_read(item, codes[0]);
    add_item(item, codes[0], &octets[..count], last, body);
    (&codes[1..], &octets[count..])
}

/// The number of far octets of an item with this far code.
fn count_read(item: &Item, code: u8) -> usize
    ensures count { result ≡ count_read item.now code }
    ensures most { result ≤ octet_count item.now }
{
    if code == GOOD { item.octet_count() } else { 0 }
}

/// Adds the data item of an item that was read far: with the far code FF these octets, with any other code the code and
/// `00 00 00`.
fn add_item(item: &Item, code: u8, octets: &[u8], last: bool, body: &mut Buffer)
    requires few { length octets.now ≤ 8178 }
    requires most { length octets.now ≤ octet_count item.now }
    requires room { length body.old.octets + item_size (octet_count item.now) last ≤ body.old.room }
    ensures octets { body.new.octets ≡ body.old.octets
        ++ answer_octets (record { code = code; word = item.now.word; octets = octets.now }) last }
    ensures most { length body.new.octets ≤ length body.old.octets + item_size (octet_count item.now) last }
    ensures room { body.new.room ≡ body.old.room }
{
    if code != GOOD {
        body.add(&[code, 0x00, 0x00, 0x00]);
        return;
    }
    add_octets(item.word, octets, last, body);
}

/// Puts the answer to a write of these items into the reply.
fn say_codes(items: &[Item], near: &[u8], codes: &[u8], reply: &mut Reply)
    requires few { length items.now ≤ 20 }
    requires near { length near.now ≡ length items.now }
    requires codes { length codes.now ≡ codes_wanted near.now }
    requires reply { IsReadyReply reply.old }
    ensures said { said_of reply.new
        ≡ said 0 (write_function ∷ length items.now ∷ []) (answered_codes near.now codes.now) }
    ensures fits { HasAtMost (14 + length items.now) (said_of reply.new) }
    ensures ready { IsReadyReply reply.new }
{
    reply.clear();
    reply.params.add(&[WRITE_FUNCTION, items.len() as u8]);
    add_codes(near, codes, &mut reply.body);
}

/// Adds the code of each item, from left to right.
fn add_codes(near: &[u8], codes: &[u8], body: &mut Buffer)
    requires codes { length codes.now ≡ codes_wanted near.now }
    requires room { length body.old.octets + length near.now ≤ body.old.room }
    ensures octets { body.new.octets ≡ body.old.octets ++ answered_codes near.now codes.now }
    ensures most { length body.new.octets ≡ length body.old.octets + length near.now }
    ensures room { body.new.room ≡ body.old.room }
{
    let mut codes = codes;
    for code in near {
        body.add(&[answered_code(*code, codes)]);
        codes = rest_of(*code, codes);
    }
}

/// The code of an item with this near code in the answer: the first of the far codes if it travelled.
fn answered_code(near: u8, codes: &[u8]) -> u8
    requires { near ≡ good → 0 < length codes.now }
    ensures { result ≡ answered_code near codes.now }
{
    if near == GOOD { codes[0] } else { near }
}

/// The far codes of the items after one with this near code.
fn rest_of(near: u8, codes: &[u8]) -> &[u8]
    requires { near ≡ good → 0 < length codes.now }
    ensures { result.now ≡ rest_codes near codes.now }
{
    if near == GOOD { &codes[1..] } else { codes }
}
