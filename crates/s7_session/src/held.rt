//! The state that a link's earlier messages left.
ghost use Rattle.std.specs.Prelude.{◌≡◌, ◌≤◌};
ghost use Rattle.std.specs.Option.{ForSome};
ghost use Rattle.s7_header.specs.Negotiation.{least_pdu, most_pdu};
ghost use Rattle.s7_session.specs.LinkState.{next_octet};

use crate::slices::Slices;
use s7_area::Guard;
use s7_block::{DownloadSide, UploadSide};
use s7_outer::Memory;
use std::alloc::Global;

/// The greatest number of octets of an image that is uploaded.
const UPLOADED: usize = 65_572;

/// The greatest number of octets of an image that is downloaded.
const DOWNLOADED: usize = 65_536;

/// The functions of the server's own jobs in a download.
#[derive(Clone, Copy, Debug, PartialEq, Eq)]
pub(crate) enum ServerFunction {
    /// Send the next piece of the image.
    SendPiece,
    /// Close the download.
    Close,
}

/// A job that the server sends to the client.
#[derive(Clone, Copy, Debug, PartialEq, Eq)]
pub(crate) struct ServerJob {
    pub(crate) sequence: u16,
    pub(crate) function: ServerFunction,
}

/// The state that a link's earlier messages left.
#[derive(Drop)]
pub(crate) struct Held {
    /// The PDU that was granted last, from 64 to 1,920; `None` before the first negotiation.
    pub(crate) granted: Option<u16>,
    /// Whether the link has the right that the guard's password gives.
    pub(crate) right: bool,
    /// The guard of the areas at the opening.
    pub(crate) guard: Option<Guard>,
    /// The last sequence octet of an answer to user data, 0 before the first answer.
    pub(crate) user_sequence: u8,
    /// The octets of that answer that may still be asked for.
    pub(crate) slices: Slices,
    /// The last id of an upload, 0 before the first upload.
    pub(crate) upload_id: u8,
    /// The upload under way, if there is one.
    pub(crate) upload: UploadSide,
    /// The sequence of the last job of the server's own, 0 before the first job.
    pub(crate) job_sequence: u16,
    /// The download that the link holds, if there is one.
    pub(crate) download: DownloadSide,
    /// The server's job that the client hasn't answered yet.
    pub(crate) server_job: Option<ServerJob>,
    ghost upload_room: { upload.room ≡ 65572 },
    ghost download_room: { download.room ≡ 65536 },
    ghost least: { ForSome granted (λ pdu. least_pdu ≤ pdu) },
    ghost most: { ForSome granted (λ pdu. pdu ≤ most_pdu) },
}

impl Held {
    ghost use Rattle.std.specs.Prelude.{◌≡◌, None, IfOk};
    ghost use Rattle.s7_session.specs.Conversing.{link_of};
    ghost use Rattle.s7_session.specs.Judgement.{secured};
    ghost use Rattle.s7_session.specs.LinkState.{first_link, next_octet};

    /// The state of a link on which nothing came, to areas with this guard. The room for octets is allocated here.
    /// Returns `Memory` if an allocation fails.
    pub(crate) fn new(alloc: Global, guard: Option<Guard>) -> Result<Held, Memory>
        ensures { IfOk result (λ held. link_of held ≡ first_link guard) }
    {
        Ok(Held {
            granted: None,
            right: false,
            guard,
            user_sequence: 0,
            slices: Slices::new(alloc)?,
            upload_id: 0,
            upload: UploadSide::new(alloc, UPLOADED)?,
            job_sequence: 0,
            download: DownloadSide::new(alloc, DOWNLOADED)?,
            server_job: None,
        })
    }

    /// Counts an answer to user data and returns its sequence octet; 01 follows FF. The octets of earlier answers can't
    /// be asked for any more.
    pub(crate) fn count_answer(&mut self) -> u8
        ensures octet { result ≡ next_octet self.old.user_sequence }
        ensures link { link_of self.new ≡ record (link_of self.old) {
          user_sequence = next_octet self.old.user_sequence;
          sliced = None;
        } }
    {
        self.slices.clear();
        self.user_sequence = next_octet(self.user_sequence);
        self.user_sequence
    }

    /// Sets the link's right and counts an answer to user data.
    pub(crate) fn secure(&mut self, right: bool)
        ensures { link_of self.new ≡ secured (link_of self.old) right }
    {
        self.right = right;
        self.count_answer();
    }
}

/// The octet after this one, as the sequence octet of an answer to user data or as the id of an upload; 01 follows FF.
pub(crate) fn next_octet(octet: u8) -> u8
    ensures { result ≡ next_octet octet }
{
    match octet {
        0xFF => 1,
        octet => octet + 1,
    }
}
