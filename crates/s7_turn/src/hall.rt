//! The hall, and the seats at it.
ghost use Rattle.std.specs.Prelude.{◌≡◌, ℕ, ◌<◌, ◌≤◌, true, [], Some};
ghost use Rattle.s7_turn.specs.declared.view.Stage.TheVariants.{Idle};
ghost use Rattle.s7_turn.specs.Histories.{has, calls};
ghost use Rattle.s7_turn.specs.Turns.{IsSized};

use crate::machine::Machine;
use crate::plays::Turns;
use crate::view::View;
use atomic_table::{Seat as Place, Table};
use std::alloc::Global;
use std::snapshot::Snapshot;

mod calls;

/// The result of a call: the number of its entry in the history, counted from 0.
#[derive(Clone, Copy, Debug, PartialEq, Eq)]
pub struct Receipt {
    /// The number of the entry.
    pub number: u64,
}

/// The history has reached its greatest length, `len`. The request is handed back.
#[derive(Debug, Drop)]
pub struct Full<R> {
    /// The request, handed back.
    pub request: R,
    /// The length of the history.
    pub len: u64,
}

/// A machine that many callers use, each through a seat of its own. Their calls take turns, and enter one history.
#[derive(Drop)]
pub struct Hall<M: Machine> {
    table: Table<Option<Box<M>>, View<M::Request, M>, Snapshot<M>, Turns<M>, Global>,
    ghost sized: { IsSized table.shared.table_id },
}

/// The right to make calls in one caller's name. It has seen the history up to its last call.
#[derive(Drop)]
pub struct Seat<M: Machine> {
    caller: u32,
    next: Option<u32>,
    place: Place<Option<Box<M>>, View<M::Request, M>>,
    ghost own: { (place.me.0.caller ≡ caller) × (place.me.0.next ≡ next) },
    ghost idle: { (place.me.0.stage ≡ Idle) × (place.me.1 ≡ []) },
    ghost stands: { has place.me.0.callers place.me.0.caller ≡ true },
    ghost fresh: { (n x : ℕ) → place.me.0.next ≡ Some n → n ≤ x → calls x place.me.0.seen ≡ [] },
    ghost below: { (n x : ℕ) → place.me.0.next ≡ Some n → has place.me.0.callers x ≡ true → x < n },
}
