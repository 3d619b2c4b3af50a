//! The count of steps.
ghost use Rattle.std.specs.Prelude.{◌≡◌, ◌+◌};

use std::marker::Model;
use std::sync::ledger::{Blank, Book, Ledger, Share};

/// Counts the steps that `Book::image_at` takes. The count occupies no octets at run time, and only `tick` changes it.
#[derive(Drop)]
pub struct Steps<S: Ledger> {
    book: Book<S>,
    share: Share<S>,
}

impl<S: Ledger> Model for Steps<S> {
    ghost use Rattle.std.specs.Prelude.{ℕ, ◌<◌};

    ghost Value = { ℕ };

    ghost view = { λ s. s.book.total };

    ghost invariant = { λ s. 0 < s.share.parts };
}

impl<S: Ledger> Steps<S> {
    /// A count of 0. Needs the blank of a ledger that has one part.
    pub fn new(blank: Blank) -> Steps<S>
        requires name { blank.name ≡ S.name }
        requires parts { blank.parts ≡ S.parts }
        requires one { blank.parts ≡ 1 }
        ensures { result ≡ 0 }
    {
        let (book, share) = blank.open::<S>();
        Steps { book, share }
    }

    /// Counts one step more.
    pub fn tick(&mut self)
        ensures { self.new ≡ self.old + 1 }
    {
        self.book.add(&mut self.share, 1);
    }
}
