//! What a plant answers.
ghost use Rattle.std.specs.Prelude.{◌≡◌, [], IfOk};
ghost use Rattle.s7_plant.specs.Answers.{refused};
ghost use Rattle.s7_plant.specs.Replies.{said, said_of};

use s7_outer::{Buffer, Memory};
use std::alloc::Global;

/// The number of octets of parameters for which a reply has room.
pub const PARAMS_ROOM: usize = 16;

/// The number of octets for which the body of a reply to any request has room.
pub const BODY_ROOM: usize = 65_572;

/// The answer of a plant to a request.
#[derive(Drop)]
pub struct Reply {
    /// The error word, 0 if the request was carried out.
    pub error: u16,
    /// The parameters of the answer.
    pub params: Buffer,
    /// The octets of the answer, without a data header.
    pub body: Buffer,
}

impl Reply {
    /// An empty reply with room for 16 octets of parameters and for `room` octets of body, all of it allocated here.
    /// Returns `Memory` if an allocation fails.
    pub fn new(alloc: Global, room: usize) -> Result<Reply, Memory>
        ensures empty { IfOk result (λ reply. said_of reply ≡ said 0 [] []) }
        ensures params { IfOk result (λ reply. reply.params.room ≡ 16) }
        ensures body { IfOk result (λ reply. reply.body.room ≡ room) }
    {
        Ok(Reply {
            error: 0,
            params: Buffer::new(alloc, PARAMS_ROOM)?,
            body: Buffer::new(alloc, room)?,
        })
    }

    /// Empties the reply. The room for parameters and body stays.
    pub fn clear(&mut self)
        ensures said { said_of self.new ≡ said 0 [] [] }
        ensures params { self.new.params.room ≡ self.old.params.room }
        ensures body { self.new.body.room ≡ self.old.body.room }
    {
        self.error = 0;
        self.params.clear();
        self.body.clear();
    }

    /// Makes the reply a refusal: this error word, no parameters and no body. The room for these stays.
    pub fn refuse(&mut self, error: u16)
        ensures said { said_of self.new ≡ refused error }
        ensures params { self.new.params.room ≡ self.old.params.room }
        ensures body { self.new.body.room ≡ self.old.body.room }
    {
        self.clear();
        self.error = error;
    }
}
