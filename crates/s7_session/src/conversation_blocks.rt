//! How uploads, downloads and the insertion of blocks are answered.
ghost use Rattle.std.specs.Prelude.{◌≡◌, ◌&&◌, IfOk};
ghost use Rattle.s7_block.specs.Heads.{head_agrees};
ghost use Rattle.s7_block.specs.Kinds.{is_stored_kind};
ghost use Rattle.s7_plant.specs.Requests.{HasSpare, kept_request, no_room};

use crate::conversation::{Conversation, FULL};
use crate::doer::{Doer, NotDone};
use crate::handled::Handled;
use crate::judge::{Judgement, Refusal};
use crate::sender::{ANNOUNCE, END, ID_PLACE, image_room};
use crate::size::TpduSize;
use s7_block::kinds::is_stored_kind;
use s7_block::{BlockName, head_agrees};
use s7_outer::{Buffer, Memory, Octets};
use s7_plant::{Ask, PARAMS_ROOM, Request};
use std::alloc::Global;

impl Conversation {
    ghost use Rattle.std.specs.Prelude.{◌≤◌, ℕ, [], List, Some};
    ghost use Rattle.s7_header.specs.Negotiation.{least_pdu, most_pdu};
    ghost use Rattle.s7_block.specs.Sides.{left_in};
    ghost use Rattle.s7_plant.specs.Replies.{said_of};
    ghost use Rattle.s7_plant.specs.Requests.{HasImage};
    ghost use Rattle.s7_outer.specs.Shown.{Shown};
    ghost use Rattle.s7_wire.specs.Bounds.{most_waiting};
    ghost use Rattle.s7_wire.specs.Sent.{sent_message};
    ghost use Rattle.s7_session.specs.Answers.{Answers};
    ghost use Rattle.s7_session.specs.Conversing.{link_of, tpdu_size_of, sends};
    ghost use Rattle.s7_session.specs.Events.{settled, by_judgement, asks};
    ghost use Rattle.s7_session.specs.Judged.{judgement_of, IsWithin, IsTransfer};
    ghost use Rattle.s7_session.specs.Judgement.{by_upload, upload_reply, upload_sliced, upload_ended};
    ghost use Rattle.s7_session.specs.Judgement.{download_begun, piece_came, insert};
    ghost use Rattle.s7_session.specs.Transfers.{with_upload, finished};
    ghost use Rattle.s7_session.specs.Verdict.{Verdict};

    /// Answers a job of an upload or of a download, or takes the client's answer to the server's own job.
    pub(crate) fn transfer(&mut self, size: TpduSize, sequence: u16, judgement: Judgement<'_>)
        requires within { IsWithin self.old.held.granted judgement }
        requires transfers { IsTransfer judgement }
        requires sent { sends self.old ≡ [] }
        requires room { self.old.sender.outbox.room ≡ most_waiting }
        ensures made { (verdicts : List Verdict) → by_judgement size.octets (link_of self.old.held) sequence verdicts
            (judgement_of (link_of self.old.held) sequence judgement.entry)
            ≡ settled (Some size.octets) (link_of self.new.held) (sends self.new) verdicts }
        ensures size { self.new.size ≡ self.old.size }
    {
        match judgement {
            Judgement::Slice { pdu, id } => self.put_upload_slice(size, sequence, pdu, id),
            Judgement::End { id } => self.end_upload(size, sequence, id),
            Judgement::Download { name, size: octets } => {
                self.start_download(size, sequence, name, octets)
            }
            Judgement::Piece { more, octets } => self.take_piece(size, more, octets),
            Judgement::Closed => self.held.close_download(),
            Judgement::Dropped => self.held.drop_download(),
            _ => unreachable!(),
        }
    }

    /// Starts an upload and queues its answer, with the id that the link gives it. Queues a refusal if the plant
    /// refuses or the doer has no room for the request.
    pub(crate) fn start_upload<D: Doer>(
        &mut self,
        alloc: Global,
        size: TpduSize,
        sequence: u16,
        name: BlockName,
        doer: &mut D,
    ) -> Handled
        requires sent { sends self.old ≡ [] }
        requires room { self.old.sender.outbox.room ≡ most_waiting }
        ensures answers { (line : Shown) (at : ℕ) → Answers D.stands D.is_full D.may_lack D.did D.keeps
            line doer.old line doer.new
            (asks size.octets (link_of self.old.held) sequence
            (by_upload (link_of self.old.held) sequence name)) at
            (Some size.octets) (link_of self.new.held) (sends self.new) result }
        ensures size { self.new.size ≡ self.old.size }
        ensures kept { D.keeps doer.old doer.new }
    {
        let ask = Ask {
            right: self.held.right,
            request: Request::StartUpload {
                kind: name.kind,
                number: name.number,
            },
        };
        match doer.act(alloc, ask, &mut self.reply) {
            Ok(number) => {
                self.put_upload_reply(size, sequence);
                Handled::Entered(number)
            }
            Err(NotDone::Full(_)) => {
                self.sender.put_refusal(size, sequence, FULL);
                Handled::Answered
            }
            Err(NotDone::Memory(_)) => Handled::NoMemory,
        }
    }

    /// Keeps the image of the reply for the upload and queues the answer; queues a refusal if the reply has an error.
    fn put_upload_reply(&mut self, size: TpduSize, sequence: u16)
        requires image { HasImage (said_of self.old.reply) }
        requires sent { sends self.old ≡ [] }
        requires room { self.old.sender.outbox.room ≡ most_waiting }
        ensures sends { sends self.new ≡ sent_message size.octets
            (upload_reply (link_of self.old.held) sequence (said_of self.old.reply)) }
        ensures link { link_of self.new.held ≡ with_upload (link_of self.old.held) (said_of self.old.reply) }
        ensures size { self.new.size ≡ self.old.size }
    {
        if self.reply.error != 0 {
            self.sender.put_refusal(size, sequence, self.reply.error);
            return;
        }
        let mut params = [0u8; PARAMS_ROOM];
        params.copy_from_slice(self.reply.params.as_slice());
        params[ID_PLACE] = self.held.start_upload(&mut self.reply.body);
        self.sender.put_answer(size, sequence, &params, &[]);
    }

    /// Queues the next slice of the upload of this id; queues a refusal if nothing of it is left.
    fn put_upload_slice(&mut self, size: TpduSize, sequence: u16, pdu: u16, id: u8)
        requires least { least_pdu ≤ pdu }
        requires most { pdu ≤ most_pdu }
        requires sent { sends self.old ≡ [] }
        requires room { self.old.sender.outbox.room ≡ most_waiting }
        ensures made { (verdicts : List Verdict) → by_judgement size.octets (link_of self.old.held) sequence verdicts
            (upload_sliced (link_of self.old.held) pdu sequence id (left_in (link_of self.old.held).upload id))
            ≡ settled (Some size.octets) (link_of self.new.held) (sends self.new) verdicts }
        ensures size { self.new.size ≡ self.old.size }
    {
        match self.held.upload.slice(id, image_room(usize::from(pdu))) {
            Some(slice) => self
                .sender
                .put_image(size, sequence, slice.more, slice.octets),
            None => self.refuse(size, sequence, Refusal::Unreadable),
        }
    }

    /// Drops the upload of this id and queues the answer; queues a refusal if the link doesn't hold it.
    fn end_upload(&mut self, size: TpduSize, sequence: u16, id: u8)
        requires sent { sends self.old ≡ [] }
        requires room { self.old.sender.outbox.room ≡ most_waiting }
        ensures made { (verdicts : List Verdict) → by_judgement size.octets (link_of self.old.held) sequence verdicts
            (upload_ended (link_of self.old.held) sequence id)
            ≡ settled (Some size.octets) (link_of self.new.held) (sends self.new) verdicts }
        ensures size { self.new.size ≡ self.old.size }
    {
        if self.held.end_upload(id) {
            self.sender.put_answer(size, sequence, &[END], &[]);
        } else {
            self.refuse(size, sequence, Refusal::Unreadable);
        }
    }

    /// Begins a download: queues the answer, and after it the server's first job.
    fn start_download(&mut self, size: TpduSize, sequence: u16, name: BlockName, octets: u32)
        requires sent { sends self.old ≡ [] }
        requires room { self.old.sender.outbox.room ≡ most_waiting }
        ensures made { (verdicts : List Verdict) → by_judgement size.octets (link_of self.old.held) sequence verdicts
            (download_begun (link_of self.old.held) sequence name octets)
            ≡ settled (Some size.octets) (link_of self.new.held) (sends self.new) verdicts }
        ensures size { self.new.size ≡ self.old.size }
    {
        let job = self.held.start_download(name, octets);
        self.sender.put_answer(size, sequence, &[ANNOUNCE], &[]);
        self.sender.put_job(size, job, name);
    }

    /// Adds a piece to the image of the download, and queues the server's next job, if there is one.
    fn take_piece(&mut self, size: TpduSize, more: bool, octets: &[u8])
        requires sent { sends self.old ≡ [] }
        requires room { self.old.sender.outbox.room ≡ most_waiting }
        ensures made { (sequence : ℕ) (verdicts : List Verdict)
            → by_judgement size.octets (link_of self.old.held) sequence verdicts
            (piece_came (link_of self.old.held) (link_of self.old.held).download
            (Some (record { more = more; octets = octets.now })))
            ≡ settled (Some size.octets) (link_of self.new.held) (sends self.new) verdicts }
        ensures size { self.new.size ≡ self.old.size }
    {
        let name = self.held.download.name();
        if let Some(job) = self.held.add_piece(more, octets) {
            self.sender.put_job(size, job, name);
        }
    }

    /// Inserts the block of the finished download and queues the answer. Queues a refusal if the link holds no finished
    /// download of this name, if the head of its image doesn't agree with the name, or if the doer has no room for the
    /// request.
    pub(crate) fn insert<D: Doer>(
        &mut self,
        alloc: Global,
        size: TpduSize,
        sequence: u16,
        name: BlockName,
        doer: &mut D,
    ) -> Handled
        requires sent { sends self.old ≡ [] }
        requires room { self.old.sender.outbox.room ≡ most_waiting }
        ensures answers { (line : Shown) (at : ℕ) → Answers D.stands D.is_full D.may_lack D.did D.keeps
            line doer.old line doer.new
            (λ verdicts. by_judgement size.octets (link_of self.old.held) sequence verdicts
            (insert (link_of self.old.held) sequence name.kind name.number
            (finished (link_of self.old.held).download name.kind name.number))) at
            (Some size.octets) (link_of self.new.held) (sends self.new) result }
        ensures size { self.new.size ≡ self.old.size }
        ensures kept { D.keeps doer.old doer.new }
    {
        let Some(image) = self.held.download.image(name.kind, name.number) else {
            self.refuse(size, sequence, Refusal::NotAllowed);
            return Handled::Answered;
        };
        if !is_insertable(image, name) {
            self.refuse(size, sequence, Refusal::NotAllowed);
            return Handled::Answered;
        }
        match copied_insert(alloc, name, image) {
            Ok(request) => self.ask(alloc, size, sequence, request, doer),
            Err(Memory) => Handled::NoMemory,
        }
    }
}

/// Whether blocks of this kind are stored and the head of the image agrees with the name.
fn is_insertable(image: &[u8], name: BlockName) -> bool
    ensures { result ≡ (is_stored_kind name.kind && head_agrees image.now name.kind name.number) }
{
    is_stored_kind(name.kind) && head_agrees(image, name.kind, name.number)
}

/// An insert request with a copy of the image, and with the room for the copy that the plant keeps. Returns `Memory` if
/// an allocation fails.
fn copied_insert(alloc: Global, name: BlockName, image: &[u8]) -> Result<Request, Memory>
    ensures kept { IfOk result (λ request. kept_request request
        ≡ Request.Insert name.kind name.number image.now no_room) }
    ensures spare { IfOk result HasSpare }
{
    Ok(Request::Insert {
        kind: name.kind,
        number: name.number,
        image: Octets::copy_of(alloc, image)?,
        spare: Buffer::new(alloc, image.len())?,
    })
}
