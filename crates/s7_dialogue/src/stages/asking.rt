//! A job that may ask several questions at a time.
ghost use Rattle.std.specs.Prelude.{◌≡◌, ◌+◌, ◌<◌, ◌≤◌, length};
ghost use Rattle.s7_dialogue.specs.Checks.{octet_count_of};
ghost use Rattle.s7_dialogue.specs.Course.{next_sequence};
ghost use Rattle.s7_dialogue.specs.Left.{questions_left, items_left, octets_left, items_asked, most_parts, most_octets};

use crate::answers::answer::{Answer, Asked, read_answer};
use crate::questions::checks::octet_count_of;
use crate::questions::left::Left;
use crate::stages::flight::{Flight, Flights};

/// A refused question: its index among the questions of the job, and the error number.
#[derive(Clone, Copy)]
pub(crate) struct Refused {
    /// The index of the question.
    pub(crate) place: usize,
    /// The error number.
    pub(crate) number: u32,
}

/// What a job has asked, and what it still has to ask.
#[derive(Drop)]
pub struct Asking {
    /// How many telegrams may be unanswered at a time, from 1 to 8.
    pub(crate) width: usize,
    /// The telegrams in flight.
    pub(crate) flights: Flights,
    /// How many of the last telegrams in flight weren't queued yet.
    pub(crate) unput: usize,
    /// The questions left to ask.
    pub(crate) left: Left,
    /// How many questions were asked.
    pub(crate) place: usize,
    /// How many octets these questions have.
    pub(crate) from: usize,
    /// How many items these questions have.
    pub(crate) item: usize,
    /// The refusal whose question comes first, among those so far.
    pub(crate) refused: Option<Refused>,
    ghost least_width: { 1 ≤ width },
    ghost most_width: { width ≤ 8 },
    ghost few: { length flights.items ≤ width },
    ghost put: { unput ≤ length flights.items },
    ghost places: { place + questions_left left ≤ most_parts },
    ghost octets: { from + octets_left left ≤ most_octets },
    ghost items: { item + items_left left ≤ most_parts },
}

impl Asking {
    ghost use Rattle.std.specs.Prelude.{ℕ, min, true, List, slice_index_or, Option, IfSome, IfNone};
    ghost use Rattle.std.specs.List.{remove, AllByRecursion};
    ghost use Rattle.s7_dialogue.specs.declared.config.Config.{Config};
    ghost use Rattle.s7_dialogue.specs.declared.grant.Grant.{Grant};
    ghost use Rattle.s7_dialogue.specs.declared.job.Job.{Job};
    ghost use Rattle.s7_dialogue.specs.declared.stages.running.Stage.TheVariants as Stage;
    ghost use Rattle.s7_dialogue.specs.Dialogue.{plan_of};
    ghost use Rattle.s7_dialogue.specs.Course.{Course, asked_on};
    ghost use Rattle.s7_dialogue.specs.Left.{AreFew};
    ghost use Rattle.s7_dialogue.specs.Stages.{is_ready};
    ghost use Rattle.s7_dialogue.specs.Asks.{IsNew, Pushes, AsksNext, MayAskNone, IsSameToAsk, IsSilent};
    ghost use Rattle.s7_dialogue.specs.Asks.{TakesFirst, Refuses};
    ghost use Rattle.s7_dialogue.specs.GoesOn.{Conducts, HasAsked};

    /// A job that has asked nothing yet.
    pub(crate) fn new(width: usize, left: Left) -> Asking
        requires least { 1 ≤ width }
        requires most { width ≤ 8 }
        requires few { AreFew left }
        ensures { IsNew result width left }
    {
        Asking {
            width,
            flights: Flights::new(),
            unput: 0,
            left,
            place: 0,
            from: 0,
            item: 0,
            refused: None,
        }
    }

    /// Asks all questions that may be asked now, under the sequences after `sequence`. Returns the last sequence
    /// used, or `sequence` if nothing is asked.
    pub(crate) fn ask_on(&mut self, sequence: u16) -> u16
        ensures asks { (config : Config) (granted : Option Grant) (job : Job) (found codes : List ℕ) (course : Course)
            → Conducts config granted course.rows course.rows job found codes self.old → course.sequence ≡ sequence
            → let conduct = (plan_of job config granted).conduct in
            HasAsked config granted job found codes self.old course (asked_on conduct.width conduct course) self.new
            result }
        ensures all { MayAskNone self.new }
        ensures as_many { length self.new.flights.items + questions_left self.new.left
            ≡ length self.old.flights.items + questions_left self.old.left }
        ensures ready { (job : Job) (found : ℕ) → is_ready job found (Stage.Asking self.old) ≡ true
            → is_ready job found (Stage.Asking self.new) ≡ true }
    {
        let mut last = sequence;
        while let Some(next) = self.ask(last) {
            last = next;
        }
        last
    }

    /// Asks the next question that may be asked now, under the sequence after `sequence`, and returns that
    /// sequence. `None` if none may be asked.
    fn ask(&mut self, sequence: u16) -> Option<u16>
        ensures some { IfSome result (λ next. (next ≡ next_sequence sequence) × AsksNext self.old next self.new) }
        ensures none { IfNone result (MayAskNone self.old) }
        ensures unchanged { IfNone result (self.new ≡ self.old) }
    {
        if self.refused.is_some() || self.flights.len() >= self.width {
            return None;
        }
        let Some(asked) = self.left.next() else {
            return None;
        };
        let next = sequence_after(sequence);
        self.push(asked, next);
        Some(next)
    }

    /// Notes that a question is asked under this sequence.
    fn push(&mut self, asked: Asked, sequence: u16)
        requires fewer { length self.old.flights.items < self.old.width }
        requires places { self.old.place + 1 + questions_left self.old.left ≤ most_parts }
        requires octets { self.old.from + octet_count_of (items_asked asked) + octets_left self.old.left ≤ most_octets }
        requires items { self.old.item + length (items_asked asked) + items_left self.old.left ≤ most_parts }
        ensures pushes { Pushes self.old asked sequence self.new }
        ensures left { self.new.left ≡ self.old.left }
    {
        let items = items_in(&asked);
        let octets = octets_in(&asked);
        self.flights.push(Flight {
            asked,
            sequence,
            place: self.place,
            from: self.from,
            item: self.item,
        });
        self.unput += 1;
        self.place += 1;
        self.from += octets;
        self.item += items;
    }

    /// Finds the first telegram in flight that the message answers, and removes it. Returns it with its answer;
    /// `None` if there is none.
    pub(crate) fn answered<'a>(&mut self, message: &'a [u8]) -> Option<(Flight, Answer<'a>)>
        ensures some { IfSome result (λ taken. TakesFirst message.now self.old self.new taken.0 taken.1) }
        ensures none { IfNone result (AllByRecursion (IsSilent message.now) self.old.flights.items) }
        ensures unchanged { IfNone result (self.new ≡ self.old) }
    {
        for k in 0..self.flights.len() {
            let flight = &self.flights[k];
            if let Some(answer) = read_answer(&flight.asked, flight.sequence, message) {
                return Some((self.remove(k), answer));
            }
        }
        None
    }

    /// Removes the telegram with this index from those in flight.
    fn remove(&mut self, place: usize) -> Flight
        requires { place < length self.old.flights.items }
        ensures taken { result ≡ slice_index_or self.old.flights.items place result }
        ensures rest { self.new.flights.items ≡ remove self.old.flights.items place }
        ensures unput { self.new.unput ≡ min self.old.unput (length self.new.flights.items) }
        ensures same { IsSameToAsk self.old self.new }
        ensures refused { self.new.refused ≡ self.old.refused }
    {
        let flight = self.flights.remove(place);
        // Only telegrams in flight can wait to be queued.
        self.unput = self.unput.min(self.flights.len());
        flight
    }

    /// Notes that the question with this index was refused with this error number.
    pub(crate) fn refuse(&mut self, place: usize, number: u32)
        ensures { Refuses self.old place number self.new }
    {
        let is_first = match self.refused {
            Some(refused) => place < refused.place,
            None => true,
        };
        if is_first {
            self.refused = Some(Refused { place, number });
        }
    }
}

/// The sequence after this one.
pub(crate) fn sequence_after(sequence: u16) -> u16
    ensures { result ≡ next_sequence sequence }
{
    if sequence == u16::MAX {
        1
    } else {
        sequence + 1
    }
}

/// The number of items of a question.
fn items_in(asked: &Asked) -> usize
    ensures { result ≡ length (items_asked asked.now) }
{
    match asked {
        Asked::Negotiation => 0,
        Asked::Read(items) | Asked::Write(items) => items.len(),
    }
}

/// The number of octets that a question reads or writes.
fn octets_in(asked: &Asked) -> usize
    ensures { result ≡ octet_count_of (items_asked asked.now) }
{
    match asked {
        Asked::Negotiation => 0,
        Asked::Read(items) | Asked::Write(items) => octet_count_of(items.as_slice()),
    }
}
