//! The lines for the news of partners.
ghost use Rattle.std.specs.Prelude.{◌≡◌, ◌++◌, ◌∷◌, IfOk, OnOk, codes};
ghost use Rattle.hex.specs.Hex.{encode_lower, encode_upper};
ghost use Rattle.s7_partner_run.specs.Text.{body_text, event_text, events_text, four_octets, name_of, news_text};

use crate::event::{News, PairEvent};
use s7_outer::Memory;
use s7_partner::Role;
use std::alloc::Global;

/// The lines for the news of two partners, in order: `a` for the active partner or `b` for the passive one, and then
/// `sent`, `received RID HEX` or `closed CODE`, with one space between two. RID and HEX are in lower-case hexadecimal
/// digits; HEX is `-` if there are no octets. CODE is the number of an error in eight upper-case hexadecimal digits.
/// Returns `Memory` if an allocation fails.
pub fn pair_text(alloc: Global, events: &[PairEvent]) -> Result<Vec<u8>, Memory>
    ensures { IfOk result (λ text. text.items ≡ events_text events.now) }
{
    let mut text = Vec::new(alloc);
    for event in events {
        add_event(alloc, &mut text, event)?;
    }
    Ok(text)
}

/// Appends the line of an event.
pub(crate) fn add_event(alloc: Global, text: &mut Vec<u8>, event: &PairEvent) -> Result<(), Memory>
    ensures { OnOk result (text.new.items ≡ text.old.items ++ event_text event.now) }
{
    text.extend_from_slice(name_of(event.role))?;
    add_news(alloc, text, &event.news)?;
    text.extend_from_slice(b"\n")?;
    Ok(())
}

/// The name of a partner: `a` for the active one, `b` for the passive one.
fn name_of(role: Role) -> &'static [u8]
    ensures { result.now ≡ name_of role }
{
    match role {
        Role::Active => b"a",
        Role::Passive => b"b",
    }
}

/// Appends a piece of news.
fn add_news(alloc: Global, text: &mut Vec<u8>, news: &News) -> Result<(), Memory>
    ensures { OnOk result (text.new.items ≡ text.old.items ++ news_text news.now) }
{
    match news {
        News::Sent => {
            text.extend_from_slice(b" sent")?;
            Ok(())
        }
        News::Received { rid, body } => add_received(alloc, text, *rid, body.as_slice()),
        News::Closed(code) => {
            let digits = hex::encode_upper(alloc, four_octets(*code).as_slice())?;
            text.extend_from_slice(b" closed ")?;
            text.extend_from_slice(digits.as_bytes())?;
            Ok(())
        }
    }
}

/// Appends the news of a block that came.
fn add_received(alloc: Global, text: &mut Vec<u8>, rid: u32, body: &[u8]) -> Result<(), Memory>
    ensures { OnOk result (text.new.items
        ≡ text.old.items ++ (codes " received " ++ (encode_lower (four_octets rid) ++ 32 ∷ body_text body.now))) }
{
    let digits = hex::encode(alloc, four_octets(rid).as_slice())?;
    text.extend_from_slice(b" received ")?;
    text.extend_from_slice(digits.as_bytes())?;
    text.extend_from_slice(b" ")?;
    add_body(alloc, text, body)
}

/// Appends the octets of a block, or `-` if there are none.
fn add_body(alloc: Global, text: &mut Vec<u8>, body: &[u8]) -> Result<(), Memory>
    ensures { OnOk result (text.new.items ≡ text.old.items ++ body_text body.now) }
{
    if body.is_empty() {
        text.extend_from_slice(b"-")?;
        return Ok(());
    }
    let digits = hex::encode(alloc, body)?;
    text.extend_from_slice(digits.as_bytes())?;
    Ok(())
}

/// A number in four octets, the high one first.
fn four_octets(n: u32) -> [u8; 4]
    ensures { result ≡ four_octets n }
{
    n.to_be_bytes()
}
