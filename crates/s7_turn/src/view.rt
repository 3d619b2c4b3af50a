//! What a seat at the table knows, for contracts. No value of these types exists at run time, except entries.
use std::collections::LinkedList;

/// One entry of a history: the caller, and what it asked.
#[derive(Drop)]
pub struct Entry<R> {
    pub caller: u32,
    pub request: R,
}

/// What one of two seats knew when they were joined.
pub struct Note<R> {
    pub seen: LinkedList<Entry<R>>,
    pub callers: LinkedList<u32>,
    pub gives: bool,
}

/// How far a seat is with its call. A history here is the one that the seat found, or the one that it leaves.
pub enum Stage<R> {
    Idle,
    /// It has a ticket.
    Waits(u64),
    /// Its turn has come.
    Called(u64),
    /// It has taken the machine, with this history.
    Took(u64, LinkedList<Entry<R>>),
    /// The machine has carried out the request, and has this history.
    Entered(u64, LinkedList<Entry<R>>),
    /// It has put the machine back, with this history.
    Gave(u64, LinkedList<Entry<R>>),
    /// It was made of two seats that were joined, and what the two have seen wasn't compared yet.
    Joined(Note<R>, Note<R>),
}

/// All that a seat knows.
pub struct View<R, M> {
    pub caller: u32,
    /// The callers that it represents.
    pub callers: LinkedList<u32>,
    pub seen: LinkedList<Entry<R>>,
    /// The next caller's number, if it hands out numbers.
    pub next: Option<u32>,
    /// The machine with which the hall was made. A spent view has none.
    pub origin: Option<M>,
    pub stage: Stage<R>,
}
