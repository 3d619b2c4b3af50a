//! The progress of a job from answer to answer.
ghost use Rattle.std.specs.Prelude.{◌≡◌, ℕ, ◌+◌, ◌-◌, ◌<◌, ◌≤◌, true, false, List, [], ◌++◌, length, take, drop};
ghost use Rattle.std.specs.Prelude.{Option, None, Some, IfSome, IfNone, OnSome, IfOk, IfErr};
ghost use Rattle.std.specs.Option.{ForSome};
ghost use Rattle.s7_header.specs.Negotiation.{most_pdu};
ghost use Rattle.s7_wire.specs.Sent.{sent_message, sent_messages};
ghost use Rattle.s7_dialogue.specs.declared.config.Config.{Config};
ghost use Rattle.s7_dialogue.specs.declared.grant.Grant.{Grant};
ghost use Rattle.s7_dialogue.specs.Question.{Question, messages_of};
ghost use Rattle.s7_dialogue.specs.Answer as spelled;
ghost use Rattle.s7_dialogue.specs.Told.{IsAsked, Tells};
ghost use Rattle.s7_dialogue.specs.Flight.{Row, answers_of, filled};
ghost use Rattle.s7_dialogue.specs.GoesOn.{IsDone};
ghost use Rattle.s7_dialogue.specs.Taking.{IsFor, Keeps, closed};
ghost use Rattle.s7_dialogue.specs.Dialogue.{End, fault_end, departed_end, number_end, asked_by};
ghost use Rattle.s7_dialogue.specs.Dialogue.{connect_request, plan_of};
ghost use Rattle.s7_dialogue.specs.Course.{Course, asking, for_nothing};
ghost use Rattle.s7_dialogue.specs.Stages.{octets_of, message_of, can_ask, can_fly, has_places, IsListing, IsGoodLeave};
ghost use Rattle.s7_dialogue.specs.Stages.{question_of_single, can_ask_single};
ghost use Rattle.s7_dialogue.specs.Singles.{message_count};
ghost use Rattle.s7_dialogue.specs.Running.{Begins, Follows, Reached, IsOver, IsAsking, IsOpening, IsLeaving};
ghost use Rattle.s7_dialogue.specs.Running.{awaited_in, unput_of, conduct_in, answers_left, IsEnding, IsResult, IsGrant};

use crate::answers::answer::{Answer, Asked};
use crate::answers::codes_list::Codes;
use crate::answers::collect::{close_gaps, place_codes, place_items};
use crate::answers::taking::{is_alone, negotiated, number_by, octets_of, refusal_of};
use crate::codes::GOOD;
use crate::config::Config;
use crate::grant::{Ending, Grant, Leaves};
use crate::job::{Job, JobResult};
use crate::questions::checks::octet_count_of;
use crate::questions::left::Left;
use crate::questions::message::{write_negotiation, write_read, write_write};
use crate::questions::requests::write_single;
use crate::stages::asking::{Asking, Refused};
use crate::stages::flight::Flight;
use crate::stages::running::{Running, Stage};
use crate::stages::single::{Ask, Single};
use crate::stages::starting::{Start, start_of};
use crate::transfers::download::write_closing;
use s7_header::Negotiation;
use s7_item::Items;
use s7_outer::{Buffer, Octets};
use std::alloc::Global;

impl Running {
    /// Begins a job on a client with this grant. Hands the job back if an allocation fails for what it will read.
    pub fn begin(alloc: Global, granted: Option<Grant>, job: Job) -> Result<Running, Job>
        requires granted { ForSome granted IsGrant }
        ensures begins { IfOk result (λ r. (config : Config) → Begins r config granted) }
        ensures job { IfOk result (λ r. r.job ≡ job) }
        ensures handed_back { IfErr result (λ j. j ≡ job) }
    {
        let Start {
            stage,
            octets,
            codes,
        } = start_of(granted, &job);
        let mut found = Vec::new(alloc);
        if found.resize(octets, 0).is_err() {
            return Err(job);
        }
        Ok(Running {
            job,
            stage,
            found,
            codes: Codes::new(codes),
        })
    }

    /// Asks all questions that may be asked now, under the sequences after `sequence`, and returns the last
    /// sequence used. The job is over if no telegram is unanswered then. If the job asks no questions at this
    /// stage, nothing changes.
    pub fn go_on(&mut self, sequence: u16) -> u16
        ensures reached { (config : Config) (granted : Option Grant) (course : Course)
            → Follows self.old config granted course.rows → course.sequence ≡ sequence
            → unput_of config course.size self.old ≡ []
            → Reached config granted course (asking (conduct_in self.old config granted) course) self.new result }
        ensures unchanged { (IsAsking self.old.stage → ⊥) → (self.new ≡ self.old) × (result ≡ sequence) }
        ensures fewer { answers_left self.new.stage ≤ answers_left self.old.stage }
        ensures not_before { IsOpening self.new.stage → IsOpening self.old.stage }
        ensures few { (config : Config) (size : ℕ) → 128 ≤ size → length (unput_of config size self.new) ≤ 16256 }
        ensures job { self.new.job ≡ self.old.job }
    {
        match &mut self.stage {
            Stage::Single(single) => single.ask_on(sequence),
            Stage::Asking(asking) => {
                let last = asking.ask_on(sequence);
                if asking.flights.is_empty() {
                    let refused = asking.refused;
                    self.settle(refused);
                }
                last
            }
            Stage::Opening | Stage::Leaving | Stage::Over { .. } => sequence,
        }
    }

    /// Writes the message of the next telegram to be queued as the only message in the buffer, and returns true.
    /// Returns false if no telegram is to be queued; the buffer stays as it is then.
    pub fn write_next(&mut self, config: &Config, message: &mut Buffer) -> bool
        requires room { message.old.room ≡ most_pdu }
        ensures some { result ≡ true → (size : ℕ) → unput_of config.now size self.old
            ≡ sent_message size message.new.octets ++ unput_of config.now size self.new }
        ensures fits { result ≡ true → (10 ≤ length message.new.octets) × (length message.new.octets ≤ most_pdu) }
        ensures asking { result ≡ true → IsAsking self.old.stage }
        ensures none { result ≡ false → (self.new ≡ self.old) × (message.new ≡ message.old)
            × ((size : ℕ) → unput_of config.now size self.old ≡ []) }
        ensures follows { (granted : Option Grant) (rows : List Row) → Follows self.old config.now granted rows
            → Follows self.new config.now granted rows }
        ensures awaits { (carried : List ℕ) → awaited_in self.new carried ≡ awaited_in self.old carried }
        ensures asking_on { IsAsking self.old.stage → IsAsking self.new.stage }
        ensures as_many { answers_left self.new.stage ≡ answers_left self.old.stage }
        ensures job { self.new.job ≡ self.old.job }
        ensures room { message.new.room ≡ most_pdu }
    {
        match &mut self.stage {
            Stage::Asking(asking) => {
                if asking.unput == 0 {
                    return false;
                }
                let flight = &asking.flights[asking.flights.len() - asking.unput];
                write_flight(flight, &self.job, config, message);
                asking.unput -= 1;
                true
            }
            Stage::Single(single) => {
                let Some(sequence) = single.unput_sequence() else {
                    return false;
                };
                write_unput(single, &self.job, sequence, message);
                single.unput -= 1;
                true
            }
            Stage::Opening | Stage::Leaving | Stage::Over { .. } => false,
        }
    }

    /// Takes a message as the answer to the first unanswered telegram that it answers, and asks further questions
    /// under the sequences after `sequence`. Returns the last sequence used; `None` if the message answers no
    /// telegram.
    pub fn take(&mut self, config: &Config, sequence: u16, message: &[u8]) -> Option<u16>
        requires pdu { config.now.pdu ≤ most_pdu }
        requires jobs { config.now.jobs ≤ 8 }
        ensures some { IfSome result (λ last. (granted : Option Grant) (course : Course)
            → Follows self.old config.now granted course.rows → course.sequence ≡ sequence
            → unput_of config.now course.size self.old ≡ []
            → (rows : List Row) × (filled course.rows message.now ≡ Some rows)
            × Reached config.now granted course
            (asking (conduct_in self.old config.now granted) (record course { rows = rows })) self.new last) }
        ensures none { IfNone result ((granted : Option Grant) (rows : List Row)
            → Follows self.old config.now granted rows → filled rows message.now ≡ None) }
        ensures unchanged { IfNone result (self.new ≡ self.old) }
        ensures asking { OnSome result (IsAsking self.old.stage) }
        ensures fewer { OnSome result (answers_left self.new.stage + 1 ≤ answers_left self.old.stage) }
        ensures not_before { IsOpening self.new.stage → IsOpening self.old.stage }
        ensures few { (config : Config) (size : ℕ) → 128 ≤ size → length (unput_of config size self.new) ≤ 16256 }
        ensures job { self.new.job ≡ self.old.job }
    {
        match &mut self.stage {
            Stage::Single(single) => {
                let told = single.answered(&self.job, self.found.as_slice(), message)?;
                let (ask, len) = (single.ask, single.len);
                Some(self.bring(ask, len, told, sequence))
            }
            Stage::Asking(asking) => {
                let (flight, answer) = asking.answered(message)?;
                let (Asked::Read(items) | Asked::Write(items)) = &flight.asked else {
                    let (code, leaves) = negotiated(config, &answer);
                    self.end(code, leaves);
                    return Some(sequence);
                };
                match refusal_of(is_alone(&self.job), &answer) {
                    Some(number) => asking.refuse(flight.place, number),
                    None => keep(
                        &flight,
                        items,
                        &answer,
                        self.found.as_mut_slice(),
                        &mut self.codes,
                    ),
                }
                Some(self.go_on(sequence))
            }
            Stage::Opening | Stage::Leaving | Stage::Over { .. } => None,
        }
    }

    /// Goes on after the confirm of the connection request: the negotiation is to be asked.
    pub fn confirm(&mut self)
        requires { IsOpening self.old.stage }
        ensures asking { IsAsking self.new.stage }
        ensures follows { (config : Config) (granted : Option Grant)
            → (plan_of self.old.job config granted).first ≡ connect_request
            → Follows self.new config granted [] }
        ensures none_unput { (config : Config) (size : ℕ) → unput_of config size self.new ≡ [] }
        ensures few { (config : Config) (size : ℕ) → 128 ≤ size → length (unput_of config size self.new) ≤ 16256 }
        ensures fewer { answers_left self.new.stage + 1 ≤ answers_left self.old.stage }
        ensures job { self.new.job ≡ self.old.job }
    {
        self.stage = Stage::Asking(Asking::new(1, Left::Negotiation));
    }

    /// Ends the job after its disconnect request was transmitted.
    pub fn depart(&mut self)
        requires { IsLeaving self.old.stage }
        ensures departs { awaited_in self.new [] ≡ for_nothing departed_end [] }
        ensures over { IsOver self.new.stage }
        ensures job { self.new.job ≡ self.old.job }
    {
        self.end(GOOD, Leaves::Disconnected);
    }

    /// Ends the job with a fault that closes the client.
    pub fn fail(&mut self, code: u32)
        ensures fails { (carried : List ℕ) → awaited_in self.new carried ≡ for_nothing (fault_end code) carried }
        ensures over { IsOver self.new.stage }
        ensures job { self.new.job ≡ self.old.job }
    {
        self.end(code, Leaves::Closed);
    }

    /// How the job ended; `None` exactly if it isn't over.
    pub fn ending(&self) -> Option<Ending>
        ensures some { IfSome result (IsEnding self.now) }
        ensures none { IfNone result (IsOver self.now.stage → ⊥) }
    {
        match &self.stage {
            Stage::Over { code, leaves } => Some(Ending {
                code: *code,
                leaves: *leaves,
            }),
            Stage::Opening | Stage::Asking(_) | Stage::Single(_) | Stage::Leaving => None,
        }
    }

    /// The result of the job, which ended with this number; `carried` is the message that isn't an answer, if one
    /// came. Memory reserved for octets that didn't come is released.
    pub fn into_result(self, code: u32, carried: Octets) -> JobResult
        ensures { (end : End) → awaited_in self [] ≡ for_nothing end [] → code ≡ end.code
            → IsResult result self.job end carried }
    {
        let Running {
            job,
            mut found,
            codes,
            ..
        } = self;
        found.shrink_to_fit();
        JobResult {
            job,
            code,
            octets: Octets::of_vec(found),
            codes: codes.places(),
            count: codes.len(),
            carried,
        }
    }

    /// Ends the job with this number, without octets or codes.
    pub(crate) fn end(&mut self, code: u32, leaves: Leaves)
        requires { IsGoodLeave leaves }
        ensures ends { (carried : List ℕ) → awaited_in self.new carried ≡ for_nothing (number_end code leaves) carried }
        ensures over { IsOver self.new.stage }
        ensures job { self.new.job ≡ self.old.job }
    {
        self.found.clear();
        self.codes = Codes::new(0);
        self.stage = Stage::Over { code, leaves };
    }

    /// Ends the job once no telegram is unanswered: with the first refusal, or with what was read.
    fn settle(&mut self, refused: Option<Refused>)
        requires listing { IsListing self.old.stage }
        ensures settles { (config : Config) (granted : Option Grant) (rows : List Row)
            → IsDone self.old.stage refused → Follows self.old config granted rows
            → awaited_in self.new [] ≡ for_nothing ((conduct_in self.old config granted).ended (answers_of rows)) [] }
        ensures over { IsOver self.new.stage }
        ensures job { self.new.job ≡ self.old.job }
    {
        if let Some(refused) = refused {
            let code = number_by(&self.job, refused);
            self.end(code, Leaves::AsItWas);
            return;
        }
        close_found(&self.job, &self.codes, &mut self.found);
        self.stage = Stage::Over {
            code: GOOD,
            leaves: Leaves::AsItWas,
        };
    }
}

/// Keeps the codes and octets of these items from an answer that doesn't refuse.
fn keep(flight: &Flight, items: &Items, answer: &Answer<'_>, found: &mut [u8], codes: &mut Codes)
    requires asked { IsFor items.now flight.now.asked }
    requires flies { (job : Job) × (can_fly job (length found.old) flight.now ≡ true) }
    requires told { (question : Question) → IsAsked flight.now.asked question
        → (x : spelled.Answer) × Tells question answer.now x }
    ensures { Keeps items.now flight.now answer.now found.old codes.old found.new codes.new }
{
    match answer {
        Answer::Items(answers) => place_items(
            items,
            answers.as_slice(),
            found,
            flight.from,
            codes,
            flight.item,
        ),
        Answer::Codes(noted) => place_codes(noted, codes, flight.item),
        Answer::Granted(_) | Answer::Refused(_) => {}
    }
}

/// Removes the gaps from the octets that a read of several items has collected.
fn close_found(job: &Job, codes: &Codes, found: &mut Vec<u8>)
    requires { has_places job.now (length found.old.items) ≡ true }
    ensures { found.new.items ≡ closed job.now codes.now found.old.items }
{
    if let Job::ReadMany { items } = job {
        close_gaps(items.as_slice(), codes.as_slice(), found);
    }
}

/// Writes the first message that isn't queued yet of the question asked under this sequence.
fn write_unput(single: &Single, job: &Job, sequence: u16, message: &mut Buffer)
    requires asks { (found : ℕ) × (can_ask_single job.now found single.now.ask ≡ true) }
    requires some { 0 < single.now.unput }
    requires room { message.old.room ≡ most_pdu }
    ensures octets { (size : ℕ) → sent_messages size (drop (message_count single.now.ask - single.now.unput)
        (messages_of sequence (question_of_single job.now single.now.ask [])))
        ≡ sent_message size message.new.octets
        ++ sent_messages size (drop (message_count single.now.ask - (single.now.unput - 1))
        (messages_of sequence (question_of_single job.now single.now.ask []))) }
    ensures fits { (10 ≤ length message.new.octets) × (length message.new.octets ≤ most_pdu) }
    ensures room { message.new.room ≡ most_pdu }
{
    if let Ask::Insert { call, .. } = &single.ask {
        if single.unput > 1 {
            write_closing(*call, message);
            return;
        }
    }
    write_single(job, &single.ask, sequence, message);
}

/// Writes the message of a telegram of the job.
fn write_flight(flight: &Flight, job: &Job, config: &Config, message: &mut Buffer)
    requires asked { (found : ℕ) × (can_ask job.now found flight.now.from flight.now.asked ≡ true) }
    requires room { message.old.room ≡ most_pdu }
    ensures octets { message.new.octets ≡ message_of config.now job.now flight.now }
    ensures room { message.new.room ≡ most_pdu }
{
    match &flight.asked {
        Asked::Negotiation => write_negotiation(&asked_by(config), flight.sequence, message),
        Asked::Read(items) => write_read(items, flight.sequence, message),
        Asked::Write(items) => {
            let count = octet_count_of(items.as_slice());
            let octets = piece(octets_of(job), flight.from, count);
            write_write(items, octets, flight.sequence, message);
        }
    }
}

/// The `count` octets from offset `from` on.
fn piece(octets: &[u8], from: usize, count: usize) -> &[u8]
    requires { from + count ≤ length octets.now }
    ensures piece { result.now ≡ take count (drop from octets.now) }
    ensures len { length result.now ≡ count }
{
    &octets[from..from + count]
}

/// The negotiation that a configuration asks for.
fn asked_by(config: &Config) -> Negotiation
    ensures { result ≡ asked_by config.now }
{
    Negotiation {
        calling: config.jobs,
        called: config.jobs,
        pdu: config.pdu,
    }
}
