//! A plant with the journal that led to it, and its observers.
ghost use Rattle.std.specs.Prelude.{◌≡◌, ℕ, ◌≤◌, ◌<◌, ◌+◌, List, ◌++◌, ◌∷◌, ◌↔◌, [], Some, length, map};
ghost use Rattle.std.specs.Prelude.{IsErr, IfErr, MatchResult, IfOk, OnOk, remove, slice_get, slice_set};
ghost use Rattle.std.specs.List.{AllZip, AllByRecursion};
ghost use Rattle.s7_outer.specs.Held.{Held};
ghost use Rattle.s7_plant.specs.Images.{AreKept};
ghost use Rattle.s7_plant.specs.Journals.{replay_entries};
ghost use Rattle.s7_plant.specs.State.{state_of};

use crate::event::Event;
use crate::images::{IMAGE_INTERVAL, Images};
use crate::journal::{Entry, Journal};
use crate::observer::Observer;
use crate::plant::Plant;
use crate::reply::{BODY_ROOM, Reply};
use crate::request::{Ask, Request};
use crate::steps::Steps;
use crate::watcher::{Watcher, tell_all, watch_all};
use s7_area::{Areas, writes_keep_the_shape};
use s7_block::Blocks;
use s7_outer::{Memory, Octets};
use s7_turn::Machine;
use std::alloc::Global;
use std::mem;
use std::sync::ledger::Ledger;

/// A plant with its journal. The plant is what the journal's entries made of the opening, one after another. Observers
/// are notified of each entry.
#[derive(Drop)]
pub struct Book<O> {
    /// The plant before the first entry.
    pub opening: Plant,
    /// The plant after the last entry.
    pub plant: Plant,
    /// The entries since the opening.
    pub journal: Journal,
    /// The observers, in the order in which they are notified.
    pub observers: Vec<Watcher<O>>,
    // the plant after every 4,096th entry, so that an earlier plant is reached in few steps
    pub(crate) images: Images,
    pub ghost replayed: { state_of plant ≡ replay_entries (state_of opening) journal.entries },
    pub ghost kept: { AreKept (state_of opening) journal images },
}

impl<O: Observer> Book<O> {
    ghost use Rattle.s7_turn.specs.Histories.{entry};
    ghost use Rattle.s7_plant.specs.Requests.{CanBeDone, Fits, kept};
    ghost use Rattle.s7_plant.specs.Replies.{IsReadyReply, said_of};
    ghost use Rattle.s7_plant.specs.Answers.{answer_of, after};
    ghost use Rattle.s7_plant.specs.Books.{seen_of, watches_of};
    ghost use Rattle.s7_plant.specs.Events.{AreTold, event_at};
    ghost use Rattle.s7_plant.specs.Journals.{calls_of, entries_of, entered, at, steps_to};
    ghost use Rattle.s7_plant.specs.Observers.{IsFresh, fresh, watch, watch_one};
    ghost use Rattle.s7_plant.specs.State.{opens_with};

    /// A book that opens with these areas and blocks, with an empty journal that takes `limit` entries, from 1 to
    /// 262,144. The store of blocks has room for 1,024. The observers keep their order; none may have counted anything.
    /// All room, and a copy of the areas and the blocks, is allocated here. Returns `Memory` if an allocation fails;
    /// the areas, the blocks and the observers are dropped then.
    pub fn new(
        alloc: Global,
        areas: Areas,
        blocks: Blocks,
        limit: u64,
        observers: Vec<O>,
    ) -> Result<Book<O>, Memory>
        requires blocks { blocks.limit ≡ 1024 }
        requires some { 1 ≤ limit }
        requires few { limit ≤ 262144 }
        requires fresh { AllByRecursion (λ o. IsFresh (O.seen o)) observers.items }
        ensures opening { IfOk result (λ book. state_of book.opening ≡ opens_with areas blocks) }
        ensures plant { IfOk result (λ book. state_of book.plant ≡ opens_with areas blocks) }
        ensures journal { IfOk result (λ book. book.journal ≡ entries_of [] limit) }
        ensures observers { IfOk result (λ book.
            watches_of O.seen book ≡ map (λ o. watch (O.seen o) 0) observers.items) }
        ensures same { IfOk result (λ book. map (λ w. w.observer) book.observers.items ≡ observers.items) }
        ensures untold { IfOk result (λ book. seen_of O.seen book ≡ map fresh (seen_of O.seen book)) }
        ensures told { IfOk result (λ book. AreTold (state_of book.opening)
            (calls_of book.journal.entries) (watches_of O.seen book)) }
    {
        let plant = Plant::new(areas, blocks);
        let opening = plant.copy(alloc)?;
        let images = Images::new(alloc, &opening, limit)?;
        let journal = Journal::new(alloc, limit)?;
        let observers = watch_all(alloc, observers)?;
        Ok(Book {
            opening,
            plant,
            journal,
            observers,
            images,
        })
    }

    /// Replaces the observer at this index with a new one that has counted nothing, and returns the old one unchanged.
    /// The old one is notified of nothing more. The index must exist.
    pub fn swap_observer(&mut self, place: usize, new: O) -> O
        requires place { place < length self.old.observers.items }
        requires fresh { IsFresh (O.seen new) }
        ensures out { slice_get (map (λ w. w.observer) self.old.observers.items) place ≡ Some result }
        ensures observers { watches_of O.seen self.new ≡ slice_set (watches_of O.seen self.old) place
            (watch (O.seen new) (length self.old.journal.entries)) }
        ensures others { map (λ w. w.observer) self.new.observers.items
            ≡ slice_set (map (λ w. w.observer) self.old.observers.items) place new }
        ensures told { AreTold (state_of self.old.opening) (calls_of self.old.journal.entries)
            (watches_of O.seen self.old)
            → AreTold (state_of self.new.opening) (calls_of self.new.journal.entries) (watches_of O.seen self.new) }
        ensures opening { self.new.opening ≡ self.old.opening }
        ensures plant { self.new.plant ≡ self.old.plant }
        ensures journal { self.new.journal ≡ self.old.journal }
    {
        let watcher = Watcher {
            observer: new,
            since: self.journal.len(),
        };
        let out = mem::replace(&mut self.observers[place], watcher);
        out.observer
    }

    /// Removes the observer at this index and returns it unchanged. It is notified of nothing more. The index must
    /// exist.
    pub fn remove_observer(&mut self, place: usize) -> O
        requires place { place < length self.old.observers.items }
        ensures out { slice_get (map (λ w. w.observer) self.old.observers.items) place ≡ Some result }
        ensures observers { watches_of O.seen self.new ≡ remove (watches_of O.seen self.old) place }
        ensures others { map (λ w. w.observer) self.new.observers.items
            ≡ remove (map (λ w. w.observer) self.old.observers.items) place }
        ensures told { AreTold (state_of self.old.opening) (calls_of self.old.journal.entries)
            (watches_of O.seen self.old)
            → AreTold (state_of self.new.opening) (calls_of self.new.journal.entries) (watches_of O.seen self.new) }
        ensures opening { self.new.opening ≡ self.old.opening }
        ensures plant { self.new.plant ≡ self.old.plant }
        ensures journal { self.new.journal ≡ self.old.journal }
    {
        self.observers.remove(place).observer
    }

    /// Carries out what a link asks, appends it to the journal under the link's number, and returns the entry's number,
    /// counted from 0. The reply is what the plant answers after all earlier entries, as `Plant::reply` states. Each
    /// observer is then notified of the entry once. `ask` is returned as `Err` exactly if the journal has reached its
    /// limit; then nothing changes, not even the reply, and no observer is notified. Needs a request that can be done
    /// and a ready reply, and leaves the reply ready. Allocates nothing.
    pub fn step(&mut self, link: u32, mut ask: Ask, reply: &mut Reply) -> Result<u64, Ask>
        requires request { CanBeDone ask.request }
        requires reply { IsReadyReply reply.old }
        ensures full { IsErr result ↔ (length self.old.journal.entries ≡ self.old.journal.limit) }
        ensures err { IfErr result
            (λ back. (back ≡ ask) × (self.new ≡ self.old) × (reply.new ≡ reply.old)) }
        ensures number { IfOk result (λ number. number ≡ length self.old.journal.entries) }
        ensures below { OnOk result (length self.old.journal.entries < self.old.journal.limit) }
        ensures entered { OnOk result (self.new.journal ≡ entries_of
            (self.old.journal.entries ++ entered link (kept ask) ∷ []) self.old.journal.limit) }
        ensures said { OnOk result (said_of reply.new ≡ answer_of
            (replay_entries (state_of self.old.opening) self.old.journal.entries) (kept ask)) }
        ensures after { OnOk result (state_of self.new.plant ≡ after (state_of self.old.plant) ask) }
        ensures fits { OnOk result (Fits ask.request (said_of reply.new)) }
        ensures ready { IsReadyReply reply.new }
        ensures observers { OnOk result (watches_of O.seen self.new ≡ map
            (watch_one (event_at (state_of self.old.plant) (length self.old.journal.entries) (entry link ask)))
            (watches_of O.seen self.old)) }
        ensures told { AreTold (state_of self.old.opening) (calls_of self.old.journal.entries)
            (watches_of O.seen self.old)
            → AreTold (state_of self.new.opening) (calls_of self.new.journal.entries) (watches_of O.seen self.new) }
        ensures opening { self.new.opening ≡ self.old.opening }
        ensures limit { self.new.journal.limit ≡ self.old.journal.limit }
    {
        if self.journal.is_full() {
            return Err(ask);
        }
        let number = self.journal.len();
        self.plant.step(ask.right, &mut ask.request, reply);
        writes_keep_the_shape();
        self.images
            .note(number, &ask.request, reply.error, &self.plant);
        let event = Event {
            number,
            link,
            code: ask.request.code(),
            error: reply.error,
        };
        self.journal.push(Entry { link, ask });
        tell_all(&mut self.observers, &event);
        Ok(number)
    }

    /// The plant after the first `n` entries; `n` may be at most the journal's length. It starts from the newest kept
    /// image of the plant at or before entry `n` (one is kept after every 4,096th entry) and applies the entries since.
    /// Each application counts as one step, so there are `n` mod 4,096 steps. The images of blocks that these entries
    /// store are copied before the first step. Returns `Memory` if an allocation for the plant or for the copies of
    /// images fails; then no step was taken.
    pub fn image_at<S: Ledger>(
        &self,
        alloc: Global,
        n: u64,
        steps: &mut Steps<S>,
    ) -> Result<Plant, Memory>
        requires { n ≤ length self.now.journal.entries }
        ensures image { IfOk result
            (λ image. state_of image ≡ at (state_of self.now.opening) self.now.journal.entries n) }
        ensures counted { MatchResult result
            (λ _. steps.new ≡ steps.old + steps_to n) (λ _. steps.new ≡ steps.old) }
        ensures most { steps.new ≤ steps.old + n }
        ensures few { steps.new ≤ steps.old + 4095 }
    {
        let images = &self.images;
        let mut image = images.newest(alloc, &self.opening, &self.journal, n)?;
        let mut reply = Reply::new(alloc, BODY_ROOM)?;
        let first = (n - n % IMAGE_INTERVAL) as usize;
        let entries = &self.journal.as_slice()[..n as usize][first..];
        let mut copies = copy_images(alloc, entries)?.into_iter();
        for entry in entries {
            steps.tick();
            let copy = copies.next().flatten();
            image.act(entry.ask.right, &entry.ask.request, copy, &mut reply);
        }
        Ok(image)
    }
}

/// For each entry, a copy of the image of the block that the entry stores, or `None` if it stores none. Returns
/// `Memory` if an allocation fails.
fn copy_images(alloc: Global, entries: &[Entry]) -> Result<Vec<Option<Octets>>, Memory>
    ensures { IfOk result (λ copies. AllZip (λ entry copy. (kind number : ℕ) (image : List ℕ) (spare : Held)
        → entry.ask.request ≡ Request.Insert kind number image spare → copy ≡ Some image)
        entries.now copies.items) }
{
    let mut copies = Vec::with_capacity(alloc, entries.len())?;
    for entry in entries {
        let copy = entry.ask.request.copy_image(alloc)?;
        copies.push_reserved(copy);
    }
    Ok(copies)
}

impl<O: Observer> Machine for Book<O> {
    ghost use Rattle.s7_plant.specs.Answers.{IsReplyOf};
    ghost use Rattle.s7_plant.specs.Books.{BookState, after_entry, book_state, seen_of};
    ghost use Rattle.s7_plant.specs.Observers.{fresh};
    ghost use Rattle.s7_plant.specs.Requests.{CanBeDone, kept};
    ghost use Rattle.s7_plant.specs.Replies.{IsReadyReply};
    ghost use Rattle.s7_plant.specs.Journals.{calls_of};

    type Request = Ask;

    type Reply = Reply;

    ghost State = { BookState };

    ghost opening = { λ book. book_state (state_of book.opening) 0 (map fresh (seen_of O.seen book)) };

    ghost history = { λ book. calls_of book.journal.entries };

    ghost limit = { λ book. book.journal.limit };

    ghost state = { λ book.
        book_state (state_of book.plant) (length book.journal.entries) (seen_of O.seen book) };

    ghost after = { after_entry };

    ghost kept = { kept };

    ghost request_ready = { λ ask. CanBeDone ask.request };

    ghost reply_ready = { IsReadyReply };

    ghost gives = { λ s _ ask reply. IsReplyOf s.plant ask reply };

    fn len(&self) -> u64 {
        self.journal.len()
    }

    fn step(&mut self, caller: u32, ask: Ask, reply: &mut Reply) -> Result<u64, Ask> {
        Book::step(self, caller, ask, reply)
    }
}
