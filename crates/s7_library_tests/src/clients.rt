//! The calls of a client that tests make. The functions promise nothing, so that their callers are cheap to prove.
use crate::held::HeldJob;
use s7_client::{Client, Counter, Job, Polled, StartFault};
use s7_outer::Link;
use std::alloc::Global;

/// Starts a job of the client.
pub(crate) fn start(
    client: &mut Client<Counter>,
    alloc: Global,
    job: Job,
) -> Result<(), StartFault> {
    client.start(alloc, job)
}

/// Reports whether the client starts a job.
pub(crate) fn is_started(client: &mut Client<Counter>, alloc: Global, job: Job) -> bool {
    match start(client, alloc, job) {
        Ok(()) => true,
        Err(StartFault { cause: _, job }) => {
            let _back = HeldJob { job };
            false
        }
    }
}

/// The outcome of a poll.
pub(crate) fn polled<L: Link>(client: &mut Client<Counter>, link: &mut L) -> Polled {
    client.poll(link)
}

/// The PDU length of a client, if it has one.
pub(crate) fn granted(client: &Client<Counter>) -> Option<u16> {
    client.granted()
}

/// Reports whether an error closed the client.
pub(crate) fn is_closed(client: &Client<Counter>) -> bool {
    client.closed()
}

/// Replaces the completion, which is handed out.
pub(crate) fn swapped(client: &mut Client<Counter>, done: Option<Counter>) -> Option<Counter> {
    client.set_completion(done)
}
