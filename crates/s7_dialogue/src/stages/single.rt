//! A job that asks one question at a time.
ghost use Rattle.std.specs.Prelude.{◌≡◌, ◌+◌, ◌<◌, ◌≤◌, true, IsSome};
ghost use Rattle.s7_dialogue.specs.declared.questions.subject.Subject.{Subject};
ghost use Rattle.s7_dialogue.specs.declared.transfers.data_block.DataBlock.{DataBlock};
ghost use Rattle.s7_dialogue.specs.declared.stages.single.Ask.TheVariants as asked;
ghost use Rattle.s7_dialogue.specs.Singles.{message_count, room_for, parts_bring};

use crate::answers::collect::{keep_octets, place_octets};
use crate::codes::GOOD;
use crate::grant::Leaves;
use crate::job::Job;
use crate::questions::subject::Subject;
use crate::refusals::number_of_error;
use crate::stages::asking::sequence_after;
use crate::stages::running::{Running, Stage};
use crate::transfers::data_block::{DataBlock, Place};
use crate::transfers::download::Pieces;
use crate::transfers::user_data::{Told, read_single};
use s7_clock::Control;

/// The question of a job that asks one at a time.
#[derive(Clone, Copy, Drop)]
pub(crate) enum Ask {
    /// Asks for a control.
    Control(Control),
    /// Asks for user data about this subject.
    About(Subject),
    /// Asks for the next octets of an answer in user data, with this sequence octet.
    Further(Subject, u8),
    /// Starts the upload of the job's block.
    Upload,
    /// Asks for the next octets of the upload of this id; its image has `size` octets.
    Slice {
        id: u8,
        size: u32,
    },
    /// Ends the upload of this id.
    UploadEnd {
        id: u8,
    },
    /// Announces the download of the job's image.
    Announce(Pieces),
    /// Asks nothing: the server is to ask for the first piece of the download.
    AwaitCall(Pieces),
    /// Gives the image from an offset on, as the answer to the server's job of this sequence. The server is then to
    /// ask for the next piece, or to close the download.
    Give {
        pieces: Pieces,
        from: u32,
        call: u16,
    },
    /// Answers the server's job of this sequence, which closes the download, and then asks for the insertion of the
    /// block.
    Insert {
        pieces: Pieces,
        call: u16,
    },
    /// Asks for the head of a data block that is to be read or filled whole.
    Head(DataBlock),
    /// Asks for the next octets of that head, with this sequence octet.
    HeadFurther(DataBlock, u8),
    /// Reads or fills the part of the data block at this place.
    Part(DataBlock, Place),
}

/// The state of a job that asks one question at a time.
#[derive(Drop)]
pub struct Single {
    /// The question of the telegram in flight, or the next question if none is.
    pub(crate) ask: Ask,
    /// The sequence of the telegram in flight, `None` before it was asked. A telegram that answers a job of the
    /// server's has no sequence of the client's own; for it this is the last sequence of the client's own.
    pub(crate) out: Option<u16>,
    /// How many messages of the question were not queued yet.
    pub(crate) unput: usize,
    /// How many octets of the answer came.
    pub(crate) len: usize,
    ghost first: { (subject : Subject) → ask ≡ asked.About subject → len ≡ 0 },
    ghost alone: { (block : DataBlock) → ask ≡ asked.Head block → len ≡ 0 },
    ghost most: { len + parts_bring ask ≤ room_for ask },
    ghost put: { 0 < unput → IsSome out },
    ghost few: { unput ≤ message_count ask },
}

impl Single {
    ghost use Rattle.std.specs.Prelude.{ℕ, true, length, take, Some, None, IfSome, IfNone, if◌then◌else◌};
    ghost use Rattle.s7_dialogue.specs.Answer.{answer_of};
    ghost use Rattle.s7_dialogue.specs.Course.{next_sequence};
    ghost use Rattle.s7_dialogue.specs.Stages.{question_of_single, is_writable};
    ghost use Rattle.s7_dialogue.specs.Singles.{is_numbered_ask, TellsIfSome};

    /// Asks the question, if nothing is in flight. It is asked under the sequence after `sequence`, if it has a
    /// sequence of the client's own. Returns the last sequence used.
    pub(crate) fn ask_on(&mut self, sequence: u16) -> u16
        ensures asks { self.old.out ≡ None
            → (result ≡ (if is_numbered_ask self.old.ask then next_sequence sequence else sequence))
            × (self.new.out ≡ Some result) × (self.new.unput ≡ message_count self.old.ask) }
        ensures waits { IsSome self.old.out → (result ≡ sequence) × (self.new ≡ self.old) }
        ensures ask { self.new.ask ≡ self.old.ask }
        ensures len { self.new.len ≡ self.old.len }
    {
        if self.out.is_some() {
            return sequence;
        }
        let next = if self.ask.is_numbered() {
            sequence_after(sequence)
        } else {
            sequence
        };
        self.out = Some(next);
        self.unput = self.ask.message_count();
        next
    }

    /// The sequence of the telegram in flight, if a message of it isn't queued yet.
    pub(crate) fn unput_sequence(&self) -> Option<u16>
        ensures some { IfSome result (λ number. (0 < self.now.unput) × (self.now.out ≡ Some number)) }
        ensures none { IfNone result (self.now.unput ≡ 0) }
    {
        if self.unput > 0 { self.out } else { None }
    }

    /// What the message says of the answer to the telegram in flight. `found` begins with the octets received so
    /// far.
    pub(crate) fn answered<'a>(
        &self,
        job: &Job,
        found: &[u8],
        message: &'a [u8],
    ) -> Option<Told<'a>>
        requires { is_writable job.now self.now.ask ≡ true }
        ensures some { IfSome result (λ told. (number : ℕ) × (self.now.out ≡ Some number)
            × TellsIfSome self.now.ask (take self.now.len found.now) told
            (answer_of (question_of_single job.now self.now.ask (take self.now.len found.now)) number message.now)) }
        ensures none { IfNone result ((number : ℕ) → self.now.out ≡ Some number
            → answer_of (question_of_single job.now self.now.ask (take self.now.len found.now)) number message.now
            ≡ None) }
    {
        let Some(sequence) = self.out else {
            return None;
        };
        // A control has no room for octets.
        let len = self.len.min(found.len());
        read_single(job, &self.ask, &found[..len], sequence, message)
    }
}

impl Ask {
    ghost use Rattle.std.specs.Prelude.{Some};
    ghost use Rattle.s7_dialogue.specs.Answer.{refuses};
    ghost use Rattle.s7_dialogue.specs.Singles.{is_numbered_ask, lead_in, refusal_to};

    /// The error number with which the job ends if this error word refuses the question.
    pub(crate) fn refused(&self, error: u16) -> u32
        ensures { refusal_to self.now (refuses error) ≡ Some result }
    {
        match self {
            Ask::Part(block, place) => block.refused(*place, number_of_error(error)),
            _ => number_of_error(error),
        }
    }

    /// The number of messages that the question has.
    pub(crate) fn message_count(&self) -> usize
        ensures { result ≡ message_count self.now }
    {
        match self {
            Ask::AwaitCall(_) => 0,
            Ask::Insert { .. } => 2,
            _ => 1,
        }
    }

    /// Whether the question is asked under a sequence of the client's own.
    fn is_numbered(&self) -> bool
        ensures { result ≡ is_numbered_ask self.now }
    {
        !matches!(self, Ask::AwaitCall(_) | Ask::Give { .. })
    }

    /// The number of octets of a whole answer that come before the octets asked for.
    fn lead(&self) -> usize
        ensures { result ≡ lead_in self.now }
    {
        match self {
            Ask::About(subject) | Ask::Further(subject, _) => subject.lead(),
            _ => 0,
        }
    }
}

impl Running {
    ghost use Rattle.std.specs.Prelude.{ℕ, ◌+◌, true, List, length, take, drop, None, Some, Option};
    ghost use Rattle.s7_dialogue.specs.declared.config.Config.{Config};
    ghost use Rattle.s7_dialogue.specs.declared.grant.Grant.{Grant};
    ghost use Rattle.s7_dialogue.specs.Flight.{Row, filled};
    ghost use Rattle.s7_dialogue.specs.Dialogue.{good_end};
    ghost use Rattle.s7_dialogue.specs.Course.{Course, asking, for_nothing};
    ghost use Rattle.s7_dialogue.specs.Stages.{can_ask_single};
    ghost use Rattle.s7_dialogue.specs.Singles.{asks_left};
    ghost use Rattle.s7_dialogue.specs.GoesOn.{IsNextOf, IsToldTo};
    ghost use Rattle.s7_dialogue.specs.Running.{Follows, Reached, IsOver, IsOpening, awaited_in, unput_of};
    ghost use Rattle.s7_dialogue.specs.Running.{conduct_in, answers_left};

    /// Goes on with what a message said of the answer to this question, after `len` octets received. If there is
    /// more to ask, asks it under the next sequence. Returns the last sequence used.
    pub(crate) fn bring(&mut self, ask: Ask, len: usize, told: Told<'_>, sequence: u16) -> u16
        requires { (message : List ℕ) × IsToldTo self.old ask len message told }
        ensures reached { (message : List ℕ) → IsToldTo self.old ask len message told.entry
            → (config : Config) (granted : Option Grant) (course : Course)
            → Follows self.old config granted course.rows → course.sequence ≡ sequence
            → (rows : List Row) × (filled course.rows message ≡ Some rows)
            × Reached config granted course
            (asking (conduct_in self.old config granted) (record course { rows = rows })) self.new result }
        ensures fewer { answers_left self.new.stage + 1 ≤ answers_left self.old.stage }
        ensures not_before { IsOpening self.new.stage → ⊥ }
        ensures few { (config : Config) (size : ℕ) → 128 ≤ size → length (unput_of config size self.new) ≤ 16256 }
        ensures job { self.new.job ≡ self.old.job }
    {
        match told {
            Told::Refused(number) => {
                self.end(number, Leaves::AsItWas);
                sequence
            }
            Told::Brought { octets, next } => {
                place_octets(octets, self.found.as_mut_slice(), len);
                let len = len + octets.len();
                let Some(next) = next else {
                    self.finish(ask.lead(), len);
                    return sequence;
                };
                self.ask_next(next, len, sequence)
            }
            Told::Anew(next) => self.ask_next(next, 0, sequence),
        }
    }

    /// Asks this question next, under the sequence after `sequence`, after `len` octets of its answer were
    /// received.
    fn ask_next(&mut self, ask: Ask, len: usize, sequence: u16) -> u16
        requires first { (subject : Subject) → ask ≡ asked.About subject → len ≡ 0 }
        requires alone { (block : DataBlock) → ask ≡ asked.Head block → len ≡ 0 }
        requires most { len + parts_bring ask ≤ room_for ask }
        requires ready { can_ask_single self.old.job (length self.old.found.items) ask ≡ true }
        ensures reached { (config : Config) (granted : Option Grant) (course : Course)
            → IsNextOf config granted course.rows self.old.job self.old.found.items self.old.codes ask len
            → course.sequence ≡ sequence
            → Reached config granted course (asking (conduct_in self.old config granted) course) self.new result }
        ensures fewer { answers_left self.new.stage ≤ asks_left ask len }
        ensures not_before { IsOpening self.new.stage → ⊥ }
        ensures few { (config : Config) (size : ℕ) → 128 ≤ size → length (unput_of config size self.new) ≤ 16256 }
        ensures job { self.new.job ≡ self.old.job }
    {
        self.stage = Stage::Single(Single {
            ask,
            out: None,
            unput: 0,
            len,
        });
        self.go_on(sequence)
    }

    /// Ends the job successfully, with the octets from offset `from` to offset `to`.
    fn finish(&mut self, from: usize, to: usize)
        ensures ends { (carried : List ℕ) → awaited_in self.new carried
            ≡ for_nothing (good_end (drop from (take to self.old.found.items)) self.old.codes) carried }
        ensures over { IsOver self.new.stage }
        ensures job { self.new.job ≡ self.old.job }
    {
        keep_octets(&mut self.found, from, to);
        self.stage = Stage::Over {
            code: GOOD,
            leaves: Leaves::AsItWas,
        };
    }
}
