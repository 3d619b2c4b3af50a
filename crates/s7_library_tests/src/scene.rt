//! Partners that do the steps of texts.
use crate::links::{failing_link, held, memory_link, new_pipes, written};
use crate::octets::{cut, joined, some_octets};
use crate::words::{MOST, filled, hex_number, number, small};
use s7_client::Config;
use s7_memory::{FailingLink, Fate, MemoryLink, PipeEnd, Pipes, Side};
use s7_outer::{Link, Memory, Octets};
use s7_partner::{Partner, PartnerEvent, Role, SendFault};
use std::alloc::Global;

/// A text of lines in which `$1` to `$6` are the fields of a row, and its rows, or the name of a text without fields.
pub(crate) type Form = (&'static str, &'static str);

/// A row with which a form doesn't hold, and the number of the line that doesn't hold.
pub(crate) type Unmet = (&'static str, usize);

/// A partner, its side, and its blocks.
struct Talker {
    partner: Partner,
    side: Side,
    /// The last block that it took.
    rid: u32,
    octets: Vec<u8>,
    /// The numbers of blocks that it took, that were acknowledged, and that it received.
    given: u32,
    sent: u32,
    received: u32,
}

/// The links of partners: a line in memory if there is one, or else their ends of the pipes.
struct Links {
    alloc: Global,
    /// The greatest number of octets that a new line moves in a call.
    most: usize,
    line: Option<FailingLink<MemoryLink>>,
    pipes: Pipes,
}

/// An active partner `a` at the client's end of the pipes, and a passive one `b`.
struct Scene {
    a: Talker,
    b: Talker,
    links: Links,
}

/// Each of these is dropped by a function of its own, so that its callers are cheap to prove.
impl Drop for Talker {
    fn drop(self) {
        let Talker {
            partner: _,
            side: _,
            rid: _,
            octets: _,
            given: _,
            sent: _,
            received: _,
        } = self;
    }
}

impl Drop for Links {
    fn drop(self) {
        let Links {
            alloc: _,
            most: _,
            line: _,
            pipes: _,
        } = self;
    }
}

impl Drop for Scene {
    fn drop(self) {
        let Scene {
            a: _,
            b: _,
            links: _,
        } = self;
    }
}

/// The role of the partner at a side.
fn role_of(side: Side) -> Role {
    match side {
        Side::Client => Role::Active,
        Side::Server => Role::Passive,
    }
}

/// A new partner. The function promises nothing, so that its callers are cheap to prove.
fn new_partner(alloc: Global, role: Role, pdu: u16) -> Option<Partner> {
    let config = Config {
        pdu: pdu.clamp(64, 1_920),
        ..Config::new(2, 0, 1)
    };
    Partner::new(alloc, role, config).ok()
}

/// A new partner at this side.
fn new_talker(alloc: Global, side: Side, pdu: u16) -> Option<Talker> {
    let partner = new_partner(alloc, role_of(side), pdu)?;
    Some(Talker {
        partner,
        side,
        rid: 0,
        octets: Vec::new(alloc),
        given: 0,
        sent: 0,
        received: 0,
    })
}

/// `PDU ROOM`: partners of this PDU length, and pipes with this room, or 4,096 octets.
fn anew(alloc: Global, args: &str) -> Option<Scene> {
    let (pdu, room) = cut(args);
    let pdu = small(pdu);
    let links = Links {
        alloc,
        most: 8_192,
        line: None,
        pipes: new_pipes(alloc, room_of(room))?,
    };
    let a = new_talker(alloc, Side::Client, pdu)?;
    let b = new_talker(alloc, Side::Server, pdu)?;
    Some(Scene { a, b, links })
}

/// The number of octets for which a pipe has room.
fn room_of(text: &str) -> usize {
    if text.is_empty() {
        return 4_096;
    }
    usize::from(small(text))
}

/// Calls that pass, as many as the text says, and one with this fate.
fn fates_of(alloc: Global, passed: &str, fate: Fate) -> Option<Vec<Fate>> {
    let mut fates = Vec::new(alloc);
    for _ in 0..number(passed).min(MOST) {
        fates.push(Fate::Pass).ok()?;
    }
    fates.push(fate).ok()?;
    Some(fates)
}

/// Lays a line that gives these octets and has room for what is written. The call after `passed` calls has this fate.
fn lays(links: &mut Links, passed: &str, fate: Fate, words: &str) -> Option<bool> {
    let fates = fates_of(links.alloc, passed, fate)?;
    let inner = passing_link(links, words)?;
    links.line = Some(failing_link(inner, fates));
    Some(true)
}

/// A line that gives these octets and has room for what is written.
fn passing_link(links: &Links, words: &str) -> Option<MemoryLink> {
    let input = Octets::of_vec(joined(links.alloc, words)?);
    memory_link(links.alloc, input, links.most, 4_096)
}

/// Sets the greatest number of octets that new lines move in a call.
fn moves(links: &mut Links, args: &str) -> Option<bool> {
    links.most = usize::from(small(args));
    Some(true)
}

/// The event of one poll. The function promises nothing, so that its callers are cheap to prove.
fn polled<L: Link>(partner: &mut Partner, alloc: Global, link: &mut L) -> Option<PartnerEvent> {
    partner.poll(alloc, link).ok()
}

/// The event of a poll over the line or the pipes.
fn poll(me: &mut Talker, links: &mut Links) -> Option<PartnerEvent> {
    match &mut links.line {
        Some(line) => polled(&mut me.partner, links.alloc, line),
        None => {
            let mut end = PipeEnd {
                pipes: &mut links.pipes,
                side: me.side,
            };
            polled(&mut me.partner, links.alloc, &mut end)
        }
    }
}

/// The word for the fault for which a block isn't taken. It is empty if the block is taken.
fn refusal(partner: &mut Partner, rid: u32, body: Octets) -> &'static str {
    match partner.b_send(rid, body) {
        Ok(()) => "",
        Err((SendFault::Closed, _)) => "closed",
        Err((SendFault::Busy, _)) => "busy",
        Err((SendFault::Size, _)) => "size",
    }
}

/// Gives a block. Reports whether it is taken.
fn gives(me: &mut Talker, alloc: Global, rid: u32, octets: Vec<u8>) -> Option<bool> {
    let body = Octets::copy_of(alloc, octets.as_slice()).ok()?;
    me.rid = rid;
    me.octets = octets;
    me.given = me.given.saturating_add(1);
    Some(refusal(&mut me.partner, rid, body).is_empty())
}

/// `RID OCTETS`: the partner takes this block. `RID OCTETS FAULT`: it doesn't, for this fault.
fn gives_text(me: &mut Talker, alloc: Global, args: &str) -> Option<bool> {
    let (rid, args) = cut(args);
    let (word, fault) = cut(args);
    let rid = u32::try_from(number(rid)).ok()?;
    let octets = joined(alloc, word)?;
    if fault.is_empty() {
        return gives(me, alloc, rid, octets);
    }
    Some(refusal(&mut me.partner, rid, Octets::of_vec(octets)) == fault)
}

/// Reports whether the next poll has this event.
fn tells(me: &mut Talker, links: &mut Links, text: &str) -> Option<bool> {
    match &poll(me, links)? {
        PartnerEvent::Sent => Some(text == "sent"),
        PartnerEvent::Pending => Some(text == "pending"),
        PartnerEvent::Idle => Some(text == "idle"),
        PartnerEvent::Received { rid, body } => is_block(links.alloc, *rid, body.as_slice(), text),
        PartnerEvent::Closed(code) => is_closed(&me.partner, *code, text),
    }
}

/// `received RID OCTETS`.
fn is_block(alloc: Global, rid: u32, body: &[u8], text: &str) -> Option<bool> {
    let (verb, args) = cut(text);
    let (digits, word) = cut(args);
    let octets = joined(alloc, word)?;
    let is_so = verb == "received" && number(digits) == u64::from(rid) && octets.as_slice() == body;
    Some(is_so)
}

/// `closed CODE`.
fn is_closed(partner: &Partner, code: u32, text: &str) -> Option<bool> {
    let (verb, args) = cut(text);
    Some(verb == "closed" && hex_number(args) == code && partner.closed()? == code)
}

/// Polls this number of times.
fn polls(me: &mut Talker, links: &mut Links, count: u64) -> Option<bool> {
    for _ in 0..count {
        let _event = poll(me, links)?;
    }
    Some(true)
}

/// Reports whether the next poll has an event that may come: the last block that the partner took is acknowledged, the
/// other's last block comes, or the poll says whether a block is outstanding.
fn turns(me: &mut Talker, other: &Talker, links: &mut Links) -> Option<bool> {
    let is_outstanding = me.sent < me.given;
    match &poll(me, links)? {
        PartnerEvent::Sent => {
            me.sent = me.given;
            Some(is_outstanding)
        }
        PartnerEvent::Received { rid, body } => {
            me.received = me.received.saturating_add(1);
            Some(me.received == other.given && is_last_of(other, *rid, body.as_slice()))
        }
        PartnerEvent::Pending => Some(is_outstanding),
        PartnerEvent::Idle => Some(!is_outstanding),
        PartnerEvent::Closed(_) => Some(false),
    }
}

/// Reports whether this is the other's last block.
fn is_last_of(other: &Talker, rid: u32, body: &[u8]) -> bool {
    rid == other.rid && body == other.octets.as_slice()
}

/// Reports whether a step of a partner holds.
fn does(me: &mut Talker, other: &Talker, links: &mut Links, text: &str) -> Option<bool> {
    let (verb, args) = cut(text);
    match verb {
        "gives" => gives_text(me, links.alloc, args),
        "polls" => polls(me, links, number(args)),
        "turns" => turns(me, other, links),
        "holds" => Some(held(&links.pipes, me.side) == number(args)),
        "acknowledged" => Some(u64::from(me.sent) == number(args)),
        "outstanding" => Some(u64::from(me.partner.is_sending()) == number(args)),
        "took" => Some(u64::from(me.received) == number(args)),
        _ => tells(me, links, text),
    }
}

/// The number of blocks of each side if turns are drawn.
const BLOCKS: u32 = 30;

/// Gives the next block if none is outstanding, and polls. Each block has another length.
fn talks(me: &mut Talker, other: &Talker, links: &mut Links) -> Option<bool> {
    if me.given == me.sent && me.given < BLOCKS {
        let octets = some_octets(links.alloc, me.given * 7 + 1)?;
        let rid = me.given;
        if !gives(me, links.alloc, rid, octets)? {
            return Some(false);
        }
    }
    turns(me, other, links)
}

/// Does 20,000 turns, drawn by a linear congruence modulo 2^31.
fn draws(scene: &mut Scene, seed: u64) -> Option<bool> {
    let mut x = u32::try_from(seed).ok()?;
    for _ in 0..20_000 {
        x = ((1_103_515_245 * u64::from(x) + 12_345) % 2_147_483_648) as u32;
        let is_wanted = if x / 65_536 % 2 == 0 {
            talks(&mut scene.a, &scene.b, &mut scene.links)?
        } else {
            talks(&mut scene.b, &scene.a, &mut scene.links)?
        };
        if !is_wanted {
            return Some(false);
        }
    }
    Some(true)
}

/// Reports whether these are the octets that were written on the line.
fn wrote(links: &Links, words: &str) -> Option<bool> {
    let octets = joined(links.alloc, words)?;
    Some(written(links.line.as_ref()?) == octets.as_slice())
}

/// `N OCTETS`: reports whether N octets were written on the line, the first of these.
fn began(links: &Links, args: &str) -> Option<bool> {
    let (count, words) = cut(args);
    let count = usize::from(small(count));
    let octets = joined(links.alloc, words)?;
    let first = octets.as_slice().get(..count)?;
    Some(written(links.line.as_ref()?) == first)
}

/// Reports whether a step of the links holds.
fn links_are(links: &mut Links, text: &str) -> Option<bool> {
    let (verb, args) = cut(text);
    let (passed, words) = cut(args);
    match verb {
        "reads" => lays(links, "0", Fate::Pass, args),
        "fails" => lays(links, passed, Fate::Fail, words),
        "waits" => lays(links, passed, Fate::NotYet, words),
        "moves" => moves(links, args),
        "wrote" => wrote(links, args),
        "began" => began(links, args),
        _ => None,
    }
}

/// Replaces the scene by a new one.
fn renews(scene: &mut Scene, args: &str) -> Option<bool> {
    *scene = anew(scene.links.alloc, args)?;
    Some(true)
}

/// Reports whether a step of a line holds.
fn step(scene: &mut Scene, text: &str) -> Option<bool> {
    let (who, rest) = cut(text);
    match who {
        "a" => does(&mut scene.a, &scene.b, &mut scene.links, rest),
        "b" => does(&mut scene.b, &scene.a, &mut scene.links, rest),
        "anew" => renews(scene, rest),
        "draws" => draws(scene, number(rest)),
        _ => links_are(&mut scene.links, text),
    }
}

/// Reports whether the steps of a line hold.
fn steps(scene: &mut Scene, line: &str) -> Option<bool> {
    for text in line.split(", ") {
        if !step(scene, text)? {
            return Some(false);
        }
    }
    Some(true)
}

/// Reports whether a line holds. A number of times at its beginning repeats its steps.
fn repeat(scene: &mut Scene, text: &str) -> Option<bool> {
    let (count, text) = text.split_once(" times: ").unwrap_or(("1", text));
    for _ in 0..number(count).min(MOST) {
        if !steps(scene, text)? {
            return Some(false);
        }
    }
    Some(true)
}

/// The number of the first line that doesn't hold, from 0, if all are done one after another.
fn unmet_line(scene: &mut Scene, text: &str) -> Option<usize> {
    let mut number = 0usize;
    for line in text.lines() {
        if !line_holds(scene, line.trim()) {
            return Some(number);
        }
        number = number.saturating_add(1);
    }
    None
}

/// Reports whether a line holds. It has steps, a comment after `#`, or nothing.
fn line_holds(scene: &mut Scene, line: &str) -> bool {
    line.is_empty() || line.starts_with('#') || repeat(scene, line) == Some(true)
}

/// The number of the first line of the form that doesn't hold with a row.
fn unmet_with(alloc: Global, form: &str, row: &str) -> Option<usize> {
    match (filled(alloc, form, row), anew(alloc, "480")) {
        (Some(text), Some(mut scene)) => unmet_line(&mut scene, text.as_str()),
        _ => Some(0),
    }
}

/// The first row with which a line of the form doesn't hold, and the number of that line.
fn unmet_row(alloc: Global, form: &Form) -> Option<Unmet> {
    let (form, rows) = *form;
    for row in rows.lines() {
        if let Some(line) = unmet_with(alloc, form, row) {
            return Some((row, line));
        }
    }
    None
}

/// The first such row of all forms.
pub(crate) fn unmet(alloc: Global, forms: &[Form]) -> Option<Unmet> {
    for form in forms {
        if let Some(row) = unmet_row(alloc, form) {
            return Some(row);
        }
    }
    None
}
