//! The rule of the table, and what each step on it shows.
ghost use Rattle.s7_turn.specs.Machines.{IsFrom};
ghost use Rattle.s7_turn.specs.Turns.{Kept, opener, drew, looked, took, entered, gave, advanced, compared, rang};
ghost use Rattle.s7_turn.specs.Turns.{gave_number, newcomer, joined, nobody};

use crate::machine::Machine;
use crate::view::View;
use atomic_table::{Join, Play, Seat, Shared, Split, TableRule};
use std::marker::PhantomData;
use std::snapshot::Snapshot;

/// The table as all seats share it.
pub(crate) type Top<M> = Shared<
    Option<Box<M>>,
    View<<M as Machine>::Request, M>,
    Snapshot<M>,
    Turns<M>,
>;

/// A seat at the table.
pub(crate) type Place<M> = Seat<Option<Box<M>>, View<<M as Machine>::Request, M>>;

/// The rule of the table of a hall.
pub struct Turns<M> {
    machine: PhantomData<M>,
}

impl<M: Machine> TableRule<Option<Box<M>>, View<M::Request, M>, Snapshot<M>> for Turns<M> {
    ghost holds = { λ key. Kept (λ b m. IsFrom M.Machine b.value m) (λ b. M.history b.value) key.value };

    ghost first = { λ key. opener key.value };
}

/// The step that draws a ticket.
pub(crate) struct Draw;

impl<B, R, O> Play<Option<B>, View<R, O>> for Draw {
    ghost then = { drew };
}

/// The step that looks at a word.
pub(crate) struct Look;

impl<B, R, O> Play<Option<B>, View<R, O>> for Look {
    ghost then = { looked };
}

/// The step that takes the machine out of its slot.
pub(crate) struct Take<M> {
    machine: PhantomData<M>,
}

impl<M: Machine> Play<Option<Box<M>>, View<M::Request, M>> for Take<M> {
    ghost then = { took (λ b m. IsFrom M.Machine b.value m) (λ b. M.history b.value) };
}

/// The step that records the entry that the machine has made.
pub(crate) struct Enter<M> {
    machine: PhantomData<M>,
}

impl<M: Machine> Play<Option<Box<M>>, View<M::Request, M>> for Enter<M> {
    ghost then = { entered (λ b. M.history b.value) };
}

/// The step that puts the machine back into its slot.
pub(crate) struct Give;

impl<B, R, O> Play<Option<B>, View<R, O>> for Give {
    ghost then = { gave };
}

/// The step that advances the turn.
pub(crate) struct Advance;

impl<B, R, O> Play<Option<B>, View<R, O>> for Advance {
    ghost then = { advanced };
}

/// The step that compares what two joined seats have seen.
pub(crate) struct Compare;

impl<B, R, O> Play<Option<B>, View<R, O>> for Compare {
    ghost then = { compared };
}

/// A step on a word by which seats sleep and are woken. It shows nothing of the table.
pub(crate) struct Ring;

impl<B, R, O> Play<Option<B>, View<R, O>> for Ring {
    ghost then = { rang };
}

/// The split that hands out a number for a new caller.
pub(crate) struct Number;

impl<R, O> Split<View<R, O>> for Number {
    ghost left = { gave_number };

    ghost right = { newcomer };
}

/// The join of two seats.
pub(crate) struct Both;

impl<R, O> Join<View<R, O>> for Both {
    ghost both = { joined };

    ghost spent = { nobody };
}
