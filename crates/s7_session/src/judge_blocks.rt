//! How user data about blocks is judged.
ghost use Rattle.std.specs.Prelude.{◌≡◌, ℕ, ◌<◌, length, slice_index, Some};
ghost use Rattle.s7_session.specs.Conversing.{link_of};
ghost use Rattle.s7_session.specs.Judgement.{blocks, names_kind, kind_listed, block_told, informed};
ghost use Rattle.s7_session.specs.Judged.{judgement_of, IsWithin};
ghost use Rattle.s7_session.specs.LinkState.{LinkState};

use crate::held::Held;
use crate::judge::{Judgement, Refusal};
use crate::judge_user::judge_further;
use crate::query::{INFO, LIST_ALL, LIST_OF, Query};
use s7_block::kinds::is_kind;
use s7_block::{BlockName, read_name};
use s7_header::UserParams;

/// The octets before a kind, in data that name a kind of blocks.
const KIND_HEAD: [u8; 5] = [0xFF, 0x09, 0x00, 0x02, 0x30];

/// The octets before the name, in data that name a block.
const NAME_HEAD: [u8; 4] = [0xFF, 0x09, 0x00, 0x08];

/// The last octet of the name of a block whose head is read: `A`, for where the block is.
const AT_A: u8 = 0x41;

/// Judges user data of the group of blocks, by its subfunction.
pub(crate) fn judge_blocks<'a>(
    held: &Held,
    pdu: u16,
    asked: &UserParams,
    body: &[u8],
) -> Judgement<'a>
    requires group { asked.now.group ≡ 0x43 }
    ensures judged { (sequence : ℕ) → judgement_of (link_of held.now) sequence result
        ≡ blocks (link_of held.now) pdu sequence asked.now body.now }
    ensures within { IsWithin (Some pdu) result }
{
    match asked.sub {
        LIST_ALL | LIST_OF | INFO if asked.answer => judge_further(held, pdu, asked, body),
        LIST_ALL => Judgement::Query {
            pdu,
            query: Query::ListAll,
        },
        LIST_OF => judge_list_of(pdu, body),
        INFO => judge_info(pdu, body),
        _ => Judgement::Refuse(Refusal::UnknownFunction),
    }
}

/// Judges a request for the list of the blocks of a kind.
fn judge_list_of<'a>(pdu: u16, body: &[u8]) -> Judgement<'a>
    ensures judged { (link : LinkState) (sequence : ℕ) → judgement_of link sequence result
        ≡ kind_listed link pdu sequence body.now }
    ensures within { IsWithin (Some pdu) result }
{
    if !names_kind(body) {
        return Judgement::Refuse(Refusal::Unreadable);
    }
    let query = Query::ListOf { kind: body[5] };
    Judgement::Query { pdu, query }
}

/// Whether the data name a kind of blocks.
fn names_kind(body: &[u8]) -> bool
    ensures { result ≡ names_kind body.now }
{
    body.len() == 6 && &body[..5] == KIND_HEAD.as_slice() && is_kind(body[5])
}

/// Judges a request for the head of a block.
fn judge_info<'a>(pdu: u16, body: &[u8]) -> Judgement<'a>
    ensures judged { (link : LinkState) (sequence : ℕ) → judgement_of link sequence result
        ≡ informed link pdu sequence (block_told body.now) }
    ensures within { IsWithin (Some pdu) result }
{
    match block_told(body) {
        Some(name) => Judgement::Query {
            pdu,
            query: Query::Info { name },
        },
        None => Judgement::Refuse(Refusal::Unreadable),
    }
}

/// The block that the data name, `None` if they name none.
fn block_told(body: &[u8]) -> Option<BlockName>
    ensures { result ≡ block_told body.now }
{
    read_name(body.strip_prefix(&NAME_HEAD)?, AT_A)
}
