//! Banks of books.
ghost use Rattle.std.specs.Prelude.{◌≡◌, ◌<◌, ◌≤◌, ◌∷◌, ℕ, [], Some, IfOk, length, map, slice_get};
ghost use Rattle.std.specs.List.{AllByRecursion};
ghost use Rattle.s7_plant.specs.Books.{seen_of};
ghost use Rattle.s7_plant.specs.Observers.{IsFresh, fresh};
ghost use Rattle.s7_plant.specs.State.{no_blocks, opens_with, state_of};
ghost use Rattle.s7_bank.specs.Books.{BookAt, OpensWith};
ghost use Rattle.s7_bank.specs.Opening.{IsUnused};
ghost use Rattle.s7_bank.specs.Seats.{IsSeatOf, caller_of, callers_of, next_of};

use crate::banks::Banks;
use crate::dividing::divide;
use crate::seat::BankSeat;
use s7_area::Areas;
use s7_block::Blocks;
use s7_outer::Memory;
use s7_plant::{Book, MOST_BLOCKS, Observer};
use s7_turn::Machine;
use std::alloc::Global;

impl<O: Observer> Banks<Book<O>> {
    /// Opens from 1 to 16 banks, each with a book whose journal takes `limit` entries, from 1 to 262,144. Returns them
    /// and the first seat. Each book opens with the areas of its bank and with the guard. The areas are moved, not
    /// copied, and each is in one bank. The book of bank 0 has the blocks and the observers; the others have none. No
    /// seat has seen an entry. The caller of the first seat is 0 at each bank, and the seat hands out the numbers of the
    /// other callers, from 1 on. The store of blocks has room for 1,024, and no observer may have counted anything. The
    /// room of each journal is allocated and written here, so the memory of `banks` journals is resident from the start.
    /// Returns `Memory` if an allocation fails; the areas, the blocks and the observers are dropped then.
    pub fn new(
        alloc: Global,
        areas: Areas,
        blocks: Blocks,
        banks: u8,
        limit: u64,
        observers: Vec<O>,
    ) -> Result<(Banks<Book<O>>, BankSeat<Book<O>>), Memory>
        requires some_banks { 1 ≤ banks }
        requires few_banks { banks ≤ 16 }
        requires blocks { blocks.limit ≡ 1024 }
        requires some { 1 ≤ limit }
        requires few { limit ≤ 262144 }
        requires fresh { AllByRecursion (λ o. IsFresh (O.seen o)) observers.items }
        ensures many { IfOk result (λ r. length r.0.halls.items ≡ banks) }
        ensures books { IfOk result (λ r. (bank : ℕ) → bank < banks → BookAt O.seen banks bank limit areas blocks
            (map O.seen observers.items) r.0.halls.items r.1.seats.items) }
        ensures seat { IfOk result (λ r. IsSeatOf r.0.halls.items r.1.seats.items) }
        ensures first { IfOk result (λ r. (caller_of r.1.seats.items ≡ 0) × (callers_of r.1.seats.items ≡ 0 ∷ [])
            × (next_of r.1.seats.items ≡ Some 1)) }
    {
        let books = books_of(alloc, areas, blocks, banks, limit, observers)?;
        Banks::over(alloc, books)
    }
}

/// The books of the banks, in their order. Returns `Memory` if an allocation fails; the areas, the blocks and the
/// observers are dropped then.
fn books_of<O: Observer>(
    alloc: Global,
    areas: Areas,
    blocks: Blocks,
    banks: u8,
    limit: u64,
    observers: Vec<O>,
) -> Result<Vec<Book<O>>, Memory>
    requires some_banks { 1 ≤ banks }
    requires blocks { blocks.limit ≡ 1024 }
    requires some { 1 ≤ limit }
    requires few { limit ≤ 262144 }
    requires fresh { AllByRecursion (λ o. IsFresh (O.seen o)) observers.items }
    ensures many { IfOk result (λ books. length books.items ≡ banks) }
    ensures books { IfOk result (λ books. (bank : ℕ) (book : _) → slice_get books.items bank ≡ Some book
        → OpensWith O.seen banks bank limit areas blocks (map O.seen observers.items) book
        × IsUnused ⟦<Book<O> as Machine>⟧ book) }
{
    let mut areas = areas;
    let parts = divide(alloc, &mut areas, banks)?;
    let mut books = Vec::with_capacity(alloc, usize::from(banks))?;
    books.push_reserved(book_of(alloc, areas, blocks, limit, observers)?);
    for part in parts {
        books.push_reserved(plain_book(alloc, part, limit)?);
    }
    Ok(books)
}

/// A book without blocks and observers. Returns `Memory` if an allocation fails; the areas are dropped then.
fn plain_book<O: Observer>(alloc: Global, areas: Areas, limit: u64) -> Result<Book<O>, Memory>
    requires some { 1 ≤ limit }
    requires few { limit ≤ 262144 }
    ensures opened { IfOk result (λ book. state_of book.opening ≡ opens_with areas no_blocks) }
    ensures limited { IfOk result (λ book. book.journal.limit ≡ limit) }
    ensures unwatched { IfOk result (λ book. map fresh (seen_of O.seen book) ≡ []) }
    ensures unused { IfOk result (λ book. IsUnused ⟦<Book<O> as Machine>⟧ book) }
{
    let blocks = Blocks::new(alloc, MOST_BLOCKS)?;
    book_of(alloc, areas, blocks, limit, Vec::new(alloc))
}

/// A book with these blocks and observers. Returns `Memory` if an allocation fails; the areas, the blocks and the
/// observers are dropped then.
fn book_of<O: Observer>(
    alloc: Global,
    areas: Areas,
    blocks: Blocks,
    limit: u64,
    observers: Vec<O>,
) -> Result<Book<O>, Memory>
    requires blocks { blocks.limit ≡ 1024 }
    requires some { 1 ≤ limit }
    requires few { limit ≤ 262144 }
    requires fresh { AllByRecursion (λ o. IsFresh (O.seen o)) observers.items }
    ensures opened { IfOk result (λ book. state_of book.opening ≡ opens_with areas blocks) }
    ensures limited { IfOk result (λ book. book.journal.limit ≡ limit) }
    ensures watched { IfOk result (λ book. map fresh (seen_of O.seen book) ≡ map O.seen observers.items) }
    ensures unused { IfOk result (λ book. IsUnused ⟦<Book<O> as Machine>⟧ book) }
{
    Book::new(alloc, areas, blocks, limit, observers)
}
