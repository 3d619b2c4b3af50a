//! What is kept of telegrams that were relayed.
ghost use Rattle.std.specs.Prelude.{◌≡◌};
ghost use Rattle.s7_plant.specs.Requests.{kept, kept_request};

use s7_client::JobResult;
use s7_plant::{Ask, Reply, Request};

/// How far a telegram got.
#[derive(Drop)]
pub enum Passage {
    /// Nothing of it was asked far: it is neither a read nor a write, or all of its items were refused near.
    Near,
    /// The dial failed.
    Undialled,
    /// The far connect ended with a code that isn't 0.
    Unconnected {
        /// The result of the connect.
        connect: JobResult,
    },
    /// The far items don't fit into one far telegram.
    Unpacked {
        /// The result of the connect; `None` if the client was connected before.
        connect: Option<JobResult>,
    },
    /// The far items were asked.
    Asked {
        /// The result of the connect; `None` if the client was connected before.
        connect: Option<JobResult>,
        /// The result of the far job.
        job: JobResult,
    },
}

/// A telegram that was relayed.
#[derive(Drop)]
pub struct Relayed {
    /// What was asked, as a history keeps it.
    pub ask: Ask,
    /// What was answered.
    pub reply: Reply,
    /// How far it got.
    pub passage: Passage,
}

/// What is kept of a telegram with this answer that got so far.
pub(crate) fn entry_of(mut ask: Ask, reply: Reply, passage: Passage) -> Relayed
    ensures { result ≡ record { ask = kept ask; reply = reply; passage = passage } }
{
    drop_spare(&mut ask.request);
    Relayed {
        ask,
        reply,
        passage,
    }
}

/// Drops the room that an insert brings for a copy of its image. No copy is made here.
fn drop_spare(request: &mut Request)
    ensures { request.new ≡ kept_request request.old }
{
    match request {
        Request::Insert { spare, .. } => {
            spare.take();
        }
        _ => {}
    }
}
