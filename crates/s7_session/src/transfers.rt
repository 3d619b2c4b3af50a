//! The uploads and downloads of a link.
ghost use Rattle.std.specs.Prelude.{◌≡◌};
ghost use Rattle.s7_session.specs.LinkState.{next_sequence};

use crate::held::{Held, ServerFunction, ServerJob, next_octet};
use s7_block::{Added, BlockName};
use s7_outer::Buffer;

impl Held {
    ghost use Rattle.std.specs.Prelude.{[], None, Some, option_map, if◌then◌else◌};
    ghost use Rattle.s7_block.specs.Assembly.{awaiting};
    ghost use Rattle.s7_block.specs.Sides.{is_held};
    ghost use Rattle.s7_plant.specs.Replies.{Said};
    ghost use Rattle.s7_session.specs.Conversing.{link_of};
    ghost use Rattle.s7_session.specs.ServerJobs.{job_of, function_of};
    ghost use Rattle.s7_session.specs.LinkState.{next_octet};
    ghost use Rattle.s7_session.specs.Transfers.{with_upload, with_server_job, without_download, with_next_piece};
    ghost use Rattle.s7_session.specs.Transfers.{piece_function};

    /// Begins the upload of an image in place of the upload before, and returns its id, the one after the last id. The
    /// image is swapped with an equally large buffer, so `image` keeps its room.
    pub(crate) fn start_upload(&mut self, image: &mut Buffer) -> u8
        requires { image.old.room ≡ 65572 }
        ensures id { result ≡ next_octet (link_of self.old).upload_id }
        ensures link { (reply : Said) → reply.error ≡ 0 → reply.body ≡ image.old.octets
            → link_of self.new ≡ with_upload (link_of self.old) reply }
        ensures room { image.new.room ≡ 65572 }
    {
        self.upload_id = next_octet(self.upload_id);
        self.upload.begin(image, self.upload_id);
        self.upload_id
    }

    /// Drops the upload of this id, and returns whether the link held it.
    pub(crate) fn end_upload(&mut self, id: u8) -> bool
        ensures held { result ≡ is_held (link_of self.old).upload id }
        ensures link { link_of self.new ≡ (if result then record (link_of self.old) { upload = None }
            else link_of self.old) }
    {
        self.upload.end(id)
    }

    /// Begins the download of a block with an image of `size` octets, in place of the download before, and returns the
    /// server's first job for it.
    pub(crate) fn start_download(&mut self, name: BlockName, size: u32) -> ServerJob
        ensures job { job_of result ≡ record {
          sequence = next_sequence (link_of self.old).job_sequence;
          function = piece_function;
        } }
        ensures link { link_of self.new
            ≡ with_server_job (link_of self.old) piece_function name (awaiting size []) }
    {
        self.download.begin(name.kind, name.number, size);
        self.next_job(ServerFunction::SendPiece)
    }

    /// Adds a piece to the image of the download, and returns the server's next job. If the piece is wrong or none was
    /// awaited, returns `None` and drops the download.
    pub(crate) fn add_piece(&mut self, more: bool, octets: &[u8]) -> Option<ServerJob>
        ensures link { link_of self.new ≡ with_next_piece (link_of self.old) (link_of self.old).download
            (record { more = more; octets = octets.now }) }
        ensures job { option_map job_of result ≡ (link_of self.new).server_job }
    {
        if !self.download.is_awaiting() {
            self.drop_download();
            return None;
        }
        match self.download.add(octets, more) {
            Added::More => Some(self.next_job(ServerFunction::SendPiece)),
            Added::Last => Some(self.next_job(ServerFunction::Close)),
            Added::Dropped => {
                self.drop_download();
                None
            }
        }
    }

    /// Drops the download. The server then awaits no answer of the client.
    pub(crate) fn drop_download(&mut self)
        ensures { link_of self.new ≡ without_download (link_of self.old) }
    {
        self.download.clear();
        self.server_job = None;
    }

    /// Records that the client answered the server's last job. The download stays.
    pub(crate) fn close_download(&mut self)
        ensures { link_of self.new ≡ record (link_of self.old) { server_job = None } }
    {
        self.server_job = None;
    }

    /// Counts a job of the server's own, and returns it with its sequence.
    fn next_job(&mut self, function: ServerFunction) -> ServerJob
        ensures job { job_of result ≡ record {
          sequence = next_sequence (link_of self.old).job_sequence;
          function = function_of function;
        } }
        ensures link { link_of self.new ≡ record (link_of self.old) {
          job_sequence = next_sequence (link_of self.old).job_sequence;
          server_job = Some (job_of result);
        } }
        ensures download { self.new.download ≡ self.old.download }
    {
        self.job_sequence = next_sequence(self.job_sequence);
        let job = ServerJob {
            sequence: self.job_sequence,
            function,
        };
        self.server_job = Some(job);
        job
    }
}

/// The sequence of the server's own jobs after this one; 0001 follows FFFF.
fn next_sequence(sequence: u16) -> u16
    ensures { result ≡ next_sequence sequence }
{
    match sequence {
        0xFFFF => 1,
        sequence => sequence + 1,
    }
}
