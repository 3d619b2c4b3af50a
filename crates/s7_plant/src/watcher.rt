//! The observers of a book.
ghost use Rattle.std.specs.Prelude.{◌≡◌, map, IfOk};
ghost use Rattle.s7_plant.specs.Observers.{watch, watch_one};

use crate::event::Event;
use crate::observer::Observer;
use s7_outer::Memory;
use std::alloc::Global;

/// An observer, with the length that the journal had when the observer came to the book.
#[derive(Drop)]
pub struct Watcher<O> {
    /// The observer.
    pub observer: O,
    /// The length of the journal when the observer came.
    pub since: u64,
}

/// Notifies each observer of an event, in order and once.
pub(crate) fn tell_all<O: Observer>(watchers: &mut Vec<Watcher<O>>, event: &Event)
    ensures { map (λ w. watch (O.seen w.observer) w.since) watchers.new.items
        ≡ map (watch_one event.now) (map (λ w. watch (O.seen w.observer) w.since) watchers.old.items) }
{
    tell_each(watchers.as_mut_slice(), event);
}

/// Notifies each of these observers of an event, in order and once.
fn tell_each<O: Observer>(watchers: &mut [Watcher<O>], event: &Event)
    ensures { map (λ w. watch (O.seen w.observer) w.since) watchers.new
        ≡ map (watch_one event.now) (map (λ w. watch (O.seen w.observer) w.since) watchers.old) }
{
    for watcher in watchers.iter_mut() {
        watcher.observer.tell(event);
    }
}

/// The observers of a book without entries. Returns `Memory` if the allocation of the list fails; the observers are
/// dropped then.
pub(crate) fn watch_all<O: Observer>(
    alloc: Global,
    observers: Vec<O>,
) -> Result<Vec<Watcher<O>>, Memory>
    ensures watches { IfOk result (λ ws. map (λ w. watch (O.seen w.observer) w.since) ws.items
        ≡ map (λ o. watch (O.seen o) 0) observers.items) }
    ensures same { IfOk result (λ ws. map (λ w. w.observer) ws.items ≡ observers.items) }
{
    let mut watchers = Vec::with_capacity(alloc, observers.len())?;
    for observer in observers {
        watchers.push_reserved(Watcher { observer, since: 0 });
    }
    Ok(watchers)
}
