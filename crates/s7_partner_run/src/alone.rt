//! An active partner over one link.
ghost use Rattle.std.specs.Prelude.{◌≡◌, ◌≤◌, IsErrOf};
ghost use Rattle.s7_outer.specs.Count.{Rose};
ghost use Rattle.s7_partner_run.specs.Alone.{PrintsNews, Talked, TalksOnce, end_of};
ghost use Rattle.s7_partner_run.specs.Talking.{post_of};

use crate::event::{News, PairEvent};
use crate::talker::Talker;
use crate::text::add_event;
use s7_outer::{Link, Out};
use s7_partner::Role;
use std::alloc::Global;

/// How a partner's turns over a link ended.
#[derive(Clone, Copy, Debug, PartialEq, Eq)]
pub enum TalkEnd {
    /// Every block was acknowledged.
    Sent,
    /// The partner is closed, or took 2^64 - 1 turns.
    Unsent,
    /// The output failed.
    Output,
    /// An allocation failed, to hand a block out or for a line.
    Memory,
}

/// Takes turns of an active partner over a link until every block is acknowledged or the partner is closed, 2^64 - 1
/// turns at most. Prints each piece of news as it comes, in a line as `pair_text` writes it. After a failure of the
/// output or of an allocation it takes no more turns.
pub fn talk<L: Link, O: Out>(
    alloc: Global,
    talker: &mut Talker,
    link: &mut L,
    out: &mut O,
) -> TalkEnd
    ensures talked { Talked (post_of talker.old) (L.shows link.old) (O.shows out.old)
        (post_of talker.new) (L.shows link.new) (O.shows out.new) result }
    ensures failed { result ≡ TalkEnd.Output → Rose (O.shows out.old).faults (O.shows out.new).faults }
    ensures faults { (O.shows out.old).faults ≤ (O.shows out.new).faults }
{
    for _ in 0..u64::MAX {
        if talker.is_over() {
            return end_of(talker);
        }
        if let Err(end) = talk_once(alloc, talker, link, out) {
            return end;
        }
    }
    end_of(talker)
}

/// How the turns ended, once no further turn is to be taken.
fn end_of(talker: &Talker) -> TalkEnd
    ensures { result ≡ end_of (post_of talker.now) }
{
    if talker.is_acknowledged() && !talker.is_closed() {
        TalkEnd::Sent
    } else {
        TalkEnd::Unsent
    }
}

/// Takes a turn, and prints the line of its news.
fn talk_once<L: Link, O: Out>(
    alloc: Global,
    talker: &mut Talker,
    link: &mut L,
    out: &mut O,
) -> Result<(), TalkEnd>
    ensures talks { TalksOnce (post_of talker.old) (L.shows link.old) (O.shows out.old)
        (post_of talker.new) (L.shows link.new) (O.shows out.new) result }
    ensures failed { IsErrOf result TalkEnd.Output → Rose (O.shows out.old).faults (O.shows out.new).faults }
    ensures faults { (O.shows out.old).faults ≤ (O.shows out.new).faults }
{
    match talker.turn(alloc, link) {
        Ok(None) => Ok(()),
        Ok(Some(news)) => print_news(alloc, news, out),
        Err(_) => Err(TalkEnd::Memory),
    }
}

/// Prints the line of the active partner's news.
fn print_news<O: Out>(alloc: Global, news: News, out: &mut O) -> Result<(), TalkEnd>
    ensures prints { PrintsNews news (O.shows out.old) (O.shows out.new) result }
    ensures failed { IsErrOf result TalkEnd.Output → Rose (O.shows out.old).faults (O.shows out.new).faults }
    ensures faults { (O.shows out.old).faults ≤ (O.shows out.new).faults }
{
    let event = PairEvent {
        role: Role::Active,
        news,
    };
    let mut text = Vec::new(alloc);
    if add_event(alloc, &mut text, &event).is_err() {
        return Err(TalkEnd::Memory);
    }
    match out.put(text.as_slice()) {
        Ok(()) => Ok(()),
        Err(_) => Err(TalkEnd::Output),
    }
}
