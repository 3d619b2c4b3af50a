//! Opening the book of a command.
ghost use Rattle.std.specs.Prelude.{◌≡◌, ◌≢◌, ◌≤◌, [], IfErr, IfOk, None, OnOk, map};
ghost use Rattle.std.specs.List.{AllByRecursion};
ghost use Rattle.s7_plant.specs.Books.{book_told, seen_of};
ghost use Rattle.s7_plant.specs.Journals.{entries_of};
ghost use Rattle.s7_plant.specs.Observers.{IsFresh};
ghost use Rattle.s7_plant.specs.State.{begins_with, state_of};
ghost use Rattle.s7_server_main.specs.Asked.{asked_told};
ghost use Rattle.s7_server_main.specs.End.{Opens, Unopened};
ghost use Rattle.s7_server_main.specs.Saving.{ChangesOnly};

use crate::asked::Asked;
use crate::output::print_refusal;
use crate::run::Ended;
use s7_area::Areas;
use s7_block::Blocks;
use s7_outer::{Files, Memory, Out};
use s7_plant::{Book, MOST_BLOCKS, Observer};
use s7_program::print_as;
use s7_script::load_areas;
use std::alloc::Global;

/// Loads the areas that are asked for, and opens a book with them and these observers, which must have counted nothing.
/// If that fails, prints why, and returns how the command ends.
pub(crate) fn open_book<F: Files, U: Out, O: Observer>(
    alloc: Global,
    asked: Asked<'_>,
    files: &mut F,
    out: &mut U,
    observers: Vec<O>,
) -> Result<Book<O>, Ended>
    requires fresh { AllByRecursion (λ o. IsFresh (O.seen o)) observers.items }
    ensures opened { IfOk result (λ book.
        Opens (asked_told asked.entry) (F.shows files.old) (book_told book)) }
    ensures observers { IfOk result (λ book. seen_of O.seen book ≡ map O.seen observers.items) }
    ensures silent { OnOk result (U.shows out.new ≡ U.shows out.old) }
    ensures unopened { IfErr result (λ ended. Unopened (asked_told asked.entry)
        (F.shows files.old) (F.shows files.new) (U.shows out.old) (U.shows out.new) ended) }
    ensures unchanged { OnOk result (F.shows files.new ≡ F.shows files.old) }
    ensures unfailed { IfErr result (λ ended. ended ≢ Ended.File → ended ≢ Ended.Memory
        → F.shows files.new ≡ F.shows files.old) }
    ensures changed { ChangesOnly None (F.shows files.old) (F.shows files.new) }
{
    let opening = match load_areas(alloc, files, asked.areas) {
        Ok(opening) => opening,
        Err(fault) => return Err(print_refusal(alloc, fault, asked.areas, out)),
    };
    match new_book(alloc, opening, asked.journal, observers) {
        Ok(book) => Ok(book),
        Err(_) => Err(print_as(Ended::Memory, b"memory\n", out)),
    }
}

/// A book of these areas, without blocks. Returns `Memory` if an allocation fails.
fn new_book<O: Observer>(
    alloc: Global,
    areas: Areas,
    limit: u64,
    observers: Vec<O>,
) -> Result<Book<O>, Memory>
    requires some { 1 ≤ limit }
    requires few { limit ≤ 262144 }
    requires fresh { AllByRecursion (λ o. IsFresh (O.seen o)) observers.items }
    ensures opening { IfOk result (λ book. state_of book.opening ≡ begins_with areas) }
    ensures plant { IfOk result (λ book. state_of book.plant ≡ begins_with areas) }
    ensures journal { IfOk result (λ book. book.journal ≡ entries_of [] limit) }
    ensures observers { IfOk result (λ book. seen_of O.seen book ≡ map O.seen observers.items) }
{
    let blocks = Blocks::new(alloc, MOST_BLOCKS)?;
    Book::new(alloc, areas, blocks, limit, observers)
}
