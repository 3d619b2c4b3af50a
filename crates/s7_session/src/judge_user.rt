//! How user data is judged.
ghost use Rattle.std.specs.Prelude.{◌≡◌, ◌<◌, ℕ, ◌+◌, length, Some, IfSome};
ghost use Rattle.s7_header.specs.Octets.{number_at};
ghost use Rattle.s7_clock.specs.Moment.{moment_in, IsHeld};
ghost use Rattle.s7_session.specs.Conversing.{link_of};
ghost use Rattle.s7_session.specs.Judgement.{user_at, lists, list_read, names_list, clock, clock_set};
ghost use Rattle.s7_session.specs.Judgement.{names_moment, further, security, password_set, password_cleared};
ghost use Rattle.s7_session.specs.Judged.{judgement_of, IsWithin};
ghost use Rattle.s7_session.specs.LinkState.{LinkState};

use crate::held::Held;
use crate::judge::{Judgement, Refusal};
use crate::judge_blocks::judge_blocks;
use crate::password::{NO_DATA, clear_error, decode, password_in, set_error};
use crate::query::{BLOCKS, CLOCK, LISTS, Query, READ_CLOCK, READ_LIST, SET_CLOCK};
use crate::slices::AnswerId;
use s7_clock::{from_octets, moment_of};
use s7_header::{UserParams, read_user};

/// The group of user data that sets and clears passwords.
pub(crate) const SECURITY: u8 = 0x45;

/// The subfunction that sets a password.
const SET_PASSWORD: u8 = 0x01;

/// The subfunction that clears a password.
const CLEAR_PASSWORD: u8 = 0x02;

/// The octets before the id and the index, in data that name a status list.
const LIST_HEAD: [u8; 4] = [0xFF, 0x09, 0x00, 0x04];

/// The octets before the clock octets, in data that set the clock.
const CLOCK_HEAD: [u8; 4] = [0xFF, 0x09, 0x00, 0x0A];

/// Judges user data by the state that the link's earlier messages left. Parameters of the long form ask for a further
/// slice of an answer.
pub(crate) fn judge_user<'a>(held: &Held, params: &[u8], body: &[u8]) -> Judgement<'a>
    ensures judged { (sequence : ℕ) → judgement_of (link_of held.now) sequence result
        ≡ user_at (link_of held.now) held.now.granted sequence params.now body.now }
    ensures within { IsWithin held.now.granted result }
{
    let Some(pdu) = held.granted else {
        return Judgement::Refuse(Refusal::NotNegotiated);
    };
    if params.is_empty() {
        return Judgement::Refuse(Refusal::UnknownFunction);
    }
    let Ok(asked) = read_user(params) else {
        return Judgement::Refuse(Refusal::Unreadable);
    };
    match asked.group {
        BLOCKS => judge_blocks(held, pdu, &asked, body),
        LISTS => judge_lists(held, pdu, &asked, body),
        SECURITY => judge_security(held, &asked, body),
        CLOCK => judge_clock(held, pdu, &asked, body),
        _ => Judgement::Refuse(Refusal::UnknownFunction),
    }
}

/// Judges user data of the group of status lists.
fn judge_lists<'a>(held: &Held, pdu: u16, asked: &UserParams, body: &[u8]) -> Judgement<'a>
    requires group { asked.now.group ≡ 0x44 }
    ensures judged { (sequence : ℕ) → judgement_of (link_of held.now) sequence result
        ≡ lists (link_of held.now) pdu sequence asked.now body.now }
    ensures within { IsWithin (Some pdu) result }
{
    match asked.sub {
        READ_LIST if asked.answer => judge_further(held, pdu, asked, body),
        READ_LIST => judge_list(pdu, body),
        _ => Judgement::Refuse(Refusal::UnknownFunction),
    }
}

/// Judges a read of a status list.
fn judge_list<'a>(pdu: u16, body: &[u8]) -> Judgement<'a>
    ensures judged { (link : LinkState) (sequence : ℕ) → judgement_of link sequence result
        ≡ list_read link pdu sequence body.now }
    ensures within { IsWithin (Some pdu) result }
{
    if !names_list(body) {
        return Judgement::Refuse(Refusal::Unreadable);
    }
    let query = Query::Szl {
        id: number_at(body, 4),
        index: number_at(body, 6),
    };
    Judgement::Query { pdu, query }
}

/// Whether the data name a status list by its id and index.
fn names_list(body: &[u8]) -> bool
    ensures { result ≡ names_list body.now }
{
    body.len() == 8 && &body[..4] == LIST_HEAD.as_slice()
}

/// The number in the two octets from this offset on.
fn number_at(octets: &[u8], place: usize) -> u16
    requires { place + 1 < length octets.now }
    ensures { result ≡ number_at octets.now place }
{
    u16::from(octets[place]) * 256 + u16::from(octets[place + 1])
}

/// Judges user data of the group of the clock.
fn judge_clock<'a>(held: &Held, pdu: u16, asked: &UserParams, body: &[u8]) -> Judgement<'a>
    requires group { asked.now.group ≡ 0x47 }
    ensures judged { (sequence : ℕ) → judgement_of (link_of held.now) sequence result
        ≡ clock (link_of held.now) pdu sequence asked.now body.now }
    ensures within { IsWithin (Some pdu) result }
{
    match asked.sub {
        READ_CLOCK | SET_CLOCK if asked.answer => judge_further(held, pdu, asked, body),
        READ_CLOCK => Judgement::Query {
            pdu,
            query: Query::ClockRead,
        },
        SET_CLOCK => judge_clock_set(pdu, body),
        _ => Judgement::Refuse(Refusal::UnknownFunction),
    }
}

/// Judges a set of the clock.
fn judge_clock_set<'a>(pdu: u16, body: &[u8]) -> Judgement<'a>
    ensures judged { (link : LinkState) (sequence : ℕ) → judgement_of link sequence result
        ≡ clock_set link pdu sequence body.now }
    ensures within { IsWithin (Some pdu) result }
{
    if !names_moment(body) {
        return Judgement::Refuse(Refusal::Unreadable);
    }
    let Some(value) = moment_in(&body[4..]) else {
        return Judgement::Refuse(Refusal::Unreadable);
    };
    Judgement::Query {
        pdu,
        query: Query::ClockSet { value },
    }
}

/// Whether the data have the ten octets of a clock.
fn names_moment(body: &[u8]) -> bool
    ensures { result ≡ names_moment body.now }
{
    body.len() == 14 && &body[..4] == CLOCK_HEAD.as_slice()
}

/// The moment of clock octets, in milliseconds since 1970; `None` if they aren't a date and time.
fn moment_in(octets: &[u8]) -> Option<u64>
    ensures moment { result ≡ moment_in octets.now }
    ensures held { IfSome result IsHeld }
{
    match from_octets(octets) {
        Ok(date) => Some(moment_of(&date)),
        Err(_) => None,
    }
}

/// Judges a request for a further slice. There is one only of the answer that the link holds, as long as octets of it
/// are left.
pub(crate) fn judge_further<'a>(
    held: &Held,
    pdu: u16,
    asked: &UserParams,
    body: &[u8],
) -> Judgement<'a>
    requires group { asked.now.group + 64 < 256 }
    ensures judged { (sequence : ℕ) → judgement_of (link_of held.now) sequence result
        ≡ further (link_of held.now) pdu sequence asked.now body.now }
    ensures within { IsWithin (Some pdu) result }
{
    if body != NO_DATA.as_slice() || !held.slices.is_of(asked) {
        return Judgement::Refuse(Refusal::Unreadable);
    }
    let answer = AnswerId {
        group: asked.group,
        subfunction: asked.sub,
        sequence: asked.sequence,
    };
    Judgement::Further { pdu, answer }
}

/// Judges user data of the group of passwords. No answer of this group has a further slice.
fn judge_security<'a>(held: &Held, asked: &UserParams, body: &[u8]) -> Judgement<'a>
    ensures judged { (sequence : ℕ) → judgement_of (link_of held.now) sequence result
        ≡ security (link_of held.now) sequence asked.now body.now }
    ensures within { (granted : _) → IsWithin granted result }
{
    match asked.sub {
        SET_PASSWORD | CLEAR_PASSWORD if asked.answer => Judgement::Refuse(Refusal::Unreadable),
        SET_PASSWORD => judge_password(held, body),
        CLEAR_PASSWORD => judge_clearing(held, body),
        _ => Judgement::Refuse(Refusal::UnknownFunction),
    }
}

/// Judges a telegram that sets a password.
fn judge_password<'a>(held: &Held, body: &[u8]) -> Judgement<'a>
    ensures judged { (sequence : ℕ) → judgement_of (link_of held.now) sequence result
        ≡ password_set (link_of held.now) sequence body.now }
    ensures within { (granted : _) → IsWithin granted result }
{
    let Some(octets) = password_in(body) else {
        return Judgement::Refuse(Refusal::Unreadable);
    };
    let error = set_error(held.guard, &decode(&octets));
    Judgement::Security {
        subfunction: SET_PASSWORD,
        error,
        right: held.right || error == 0,
    }
}

/// Judges a telegram that clears a password.
fn judge_clearing<'a>(held: &Held, body: &[u8]) -> Judgement<'a>
    ensures judged { (sequence : ℕ) → judgement_of (link_of held.now) sequence result
        ≡ password_cleared (link_of held.now) sequence body.now }
    ensures within { (granted : _) → IsWithin granted result }
{
    if body != NO_DATA.as_slice() {
        return Judgement::Refuse(Refusal::Unreadable);
    }
    let error = clear_error(held.guard, held.right);
    Judgement::Security {
        subfunction: CLEAR_PASSWORD,
        error,
        right: held.right && error != 0,
    }
}
