//! What a job still has to ask.
ghost use Rattle.std.specs.Prelude.{◌≡◌, ◌<◌, ◌≤◌, ◌∷◌, [], length, take, slice_get, IfSome, IfNone};
ghost use Rattle.std.specs.List.{between};
ghost use Rattle.s7_dialogue.specs.Left.{groups_in, questions_left, TakesNext};

use crate::answers::answer::Asked;
use s7_item::{Item, Items};
use s7_split::{Groups, Parts};

/// The questions still to be asked, in order.
#[derive(Drop)]
pub(crate) enum Left {
    /// No question.
    Nothing,
    /// The negotiation.
    Negotiation,
    /// Reads of these groups.
    Reads(Grouped),
    /// Writes of these groups.
    Writes(Grouped),
}

/// Groups of items, in order.
#[derive(Drop)]
pub(crate) enum Grouped {
    /// The parts of one item; each is a group.
    Parts(Parts),
    /// The groups of these items, cut at their ends, from the group with index `next` on. That group begins with
    /// the item of index `from`.
    Groups {
        items: Items,
        groups: Groups,
        next: u8,
        from: u8,
    },
}

impl Left {
    /// Takes the next question.
    pub(crate) fn next(&mut self) -> Option<Asked>
        ensures some { IfSome result (λ asked. TakesNext self.old asked self.new) }
        ensures none { IfNone result ((questions_left self.old ≡ 0) × (self.new ≡ self.old)) }
    {
        match self {
            Left::Nothing => None,
            Left::Negotiation => {
                *self = Left::Nothing;
                Some(Asked::Negotiation)
            }
            Left::Reads(grouped) => match grouped.next() {
                Some(items) => Some(Asked::Read(items)),
                None => None,
            },
            Left::Writes(grouped) => match grouped.next() {
                Some(items) => Some(Asked::Write(items)),
                None => None,
            },
        }
    }
}

impl Grouped {
    /// Takes the next group.
    fn next(&mut self) -> Option<Items>
        ensures some { IfSome result (λ items. groups_in self.old ≡ items ∷ groups_in self.new) }
        ensures none { IfNone result ((groups_in self.old ≡ []) × (self.new ≡ self.old)) }
    {
        match self {
            Grouped::Parts(parts) => {
                let Some(part) = parts.next() else {
                    return None;
                };
                Some(alone(part))
            }
            Grouped::Groups {
                items,
                groups,
                next,
                from,
            } => {
                let Some(end) = end_of(groups, *next) else {
                    return None;
                };
                let group = items_between(items, *from, end);
                *next += 1;
                *from = end;
                Some(group)
            }
        }
    }
}

/// A group of this item alone.
pub(crate) fn alone(item: Item) -> Items
    ensures { result ≡ item ∷ [] }
{
    let mut group = Items::new();
    group.push(item);
    group
}

/// The index of the item before which the group with index `place` ends; `None` if there is no such group.
fn end_of(groups: &Groups, place: u8) -> Option<u8>
    ensures end { result ≡ slice_get (take groups.now.count groups.now.ends) place }
    ensures few { IfSome result (λ end. place < 20) }
{
    if place < groups.count {
        groups.ends.get(usize::from(place)).copied()
    } else {
        None
    }
}

/// The items from index `from` up to index `end`, exclusive.
fn items_between(items: &Items, from: u8, end: u8) -> Items
    ensures { result ≡ between from end items.now }
{
    let all = items.as_slice();
    let high = usize::from(end).min(all.len());
    let low = usize::from(from).min(high);
    items_of(&all[low..high])
}

/// The items of a slice of at most twenty.
pub(crate) fn items_of(slice: &[Item]) -> Items
    requires { length slice.now ≤ 20 }
    ensures { result ≡ slice.now }
{
    let mut items = Items::new();
    for item in slice {
        items.push(*item);
    }
    items
}
