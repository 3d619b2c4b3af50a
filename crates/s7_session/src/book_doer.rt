//! A doer that enters each request in a book.
ghost use Rattle.std.specs.Prelude.{◌≡◌, length};
ghost use Rattle.std.proofs.Common.{refl, ◌∙◌};
ghost use Rattle.s7_plant.specs.Books.{book_told, watches_of};
ghost use Rattle.s7_plant.specs.State.{state_of};
ghost use Rattle.s7_session.specs.Books.{own, history_of, GoesOnBy, AreToldOn};
ghost use Rattle.s7_session.specs.BookLaws.{goes_on_same, goes_on_both, told_on_same, told_on_both};

use crate::doer::{Doer, NotDone};
use s7_plant::{Ask, Book, Observer, Reply};
use std::alloc::Global;

/// Carries out the requests of one link on a book. Each request is answered by the plant after all earlier entries,
/// those of other links included. It is entered under the link's number, and the book's observers are notified of it.
/// The history that the doer represents is the link's own entries in the book. It is full exactly if the book's journal
/// has reached its limit. It allocates nothing.
#[derive(Drop)]
pub struct BookDoer<'a, O> {
    pub book: &'a mut Book<O>,
    pub link: u32,
}

impl<O: Observer> Doer for BookDoer<'_, O> {
    ghost stands = { λ d entries.
        entries ≡ own (state_of d.book.now.opening) d.link (history_of (book_told d.book.now)) };

    ghost is_full = { λ d _. length (history_of (book_told d.book.now)) ≡ d.book.now.journal.limit };

    ghost may_lack = { λ d _. ⊥ };

    ghost keeps = { λ d e.
        (e.book.ghost_name ≡ d.book.ghost_name) × (e.link ≡ d.link)
        × GoesOnBy d.link (book_told d.book.now) (book_told e.book.now)
        × AreToldOn (book_told d.book.now) (book_told e.book.now)
        (watches_of O.seen d.book.now) (watches_of O.seen e.book.now) };

    ghost keeps_same = { λ d. (
      refl,
      refl,
      goes_on_same d.link (book_told d.book.now),
      told_on_same (book_told d.book.now) (watches_of O.seen d.book.now),
    ) };

    ghost keeps_both = { λ a b c p q. (
      q.0 ∙ p.0,
      q.1 ∙ p.1,
      goes_on_both a.link b.link (book_told a.book.now) (book_told b.book.now) (book_told c.book.now)
          p.1 p.2 q.2,
      told_on_both (book_told a.book.now) (book_told b.book.now) (book_told c.book.now)
          (watches_of O.seen a.book.now) (watches_of O.seen b.book.now) (watches_of O.seen c.book.now)
          p.2.opening p.3 q.3,
    ) };

    fn act(&mut self, _alloc: Global, ask: Ask, reply: &mut Reply) -> Result<u64, NotDone> {
        match Book::step(self.book, self.link, ask, reply) {
            Ok(number) => Ok(number),
            Err(back) => Err(NotDone::Full(back)),
        }
    }
}
