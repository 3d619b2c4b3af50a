//! The two pipes between a client and its session.
ghost use Rattle.std.specs.Prelude.{◌≡◌, ◌≤◌, length};
ghost use Rattle.s7_plant.specs.Books.{book_told};
ghost use Rattle.s7_rig.specs.Turns.{PollsOver, TakesTurn};

use s7_client::{Connection, Polled};
use s7_memory::{PipeEnd, Pipes, Side};
use s7_plant::{Book, Tail};
use s7_session::{BookDoer, Session, Turn};
use std::alloc::Global;

/// The numbers of octets that wait in the pipes, for the client and for the server.
#[derive(Clone, Copy, Debug, PartialEq, Eq)]
pub(crate) struct Held {
    to_client: usize,
    to_server: usize,
}

/// Counts the octets that wait in the pipes.
pub(crate) fn count_held(pipes: &Pipes) -> Held
    ensures to_client { result.to_client ≡ length pipes.now.to_client }
    ensures to_server { result.to_server ≡ length pipes.now.to_server }
    ensures fits { length pipes.now.to_server ≤ pipes.now.room }
{
    Held {
        to_client: pipes.held(Side::Client),
        to_server: pipes.held(Side::Server),
    }
}

/// The client polls once over its end of the pipes.
pub(crate) fn poll_over(client: &mut Connection, pipes: &mut Pipes) -> Polled
    ensures { PollsOver client.old pipes.old client.new pipes.new result }
{
    let mut end = PipeEnd {
        pipes,
        side: Side::Client,
    };
    client.poll(&mut end)
}

/// The session takes one turn over its end of the pipes, on the book.
pub(crate) fn turn_over(
    alloc: Global,
    link: u32,
    session: &mut Session,
    pipes: &mut Pipes,
    book: &mut Book<Tail>,
) -> Turn
    ensures { TakesTurn link session.old pipes.old (book_told book.old)
        session.new pipes.new (book_told book.new) result }
{
    let mut end = PipeEnd {
        pipes,
        side: Side::Server,
    };
    let mut doer = BookDoer { book, link };
    session.turn(alloc, &mut end, &mut doer)
}
