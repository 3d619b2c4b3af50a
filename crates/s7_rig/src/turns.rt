//! The turns of a client and of the session that serves it.
ghost use Rattle.std.specs.Prelude.{◌≡◌, ◌≢◌, ◌<◌, ◌≤◌, ◌⊎◌, ◌-◌, ◌++◌, ◌∷◌, [], drop, length, vec_capacity, None, Some};
ghost use Rattle.std.specs.Prelude.{false, is_some, option_map, unwrap_or, IfOk, OnOk, OnErr, IsSome};
ghost use Rattle.s7_header.specs.Negotiation.{most_pdu};
ghost use Rattle.s7_dialogue.specs.declared.config.Config.{Config};
ghost use Rattle.s7_plant.specs.Books.{book_told};
ghost use Rattle.s7_plant.specs.Journals.{AreReady};
ghost use Rattle.s7_session.specs.Stands.{closed_by};
ghost use Rattle.s7_rig.specs.Numbers.{count_from};
ghost use Rattle.s7_rig.specs.State.{is_finished};
ghost use Rattle.s7_rig.specs.Scripts.{left_behind, reads_many};
ghost use Rattle.s7_rig.specs.Shown.{post_of, script_told};
ghost use Rattle.s7_rig.specs.Tells.{Tells};
ghost use Rattle.s7_rig.specs.Turns.{StartsNext, StartsNothing, PollsOnce, IsClientTurn, IsSessionTurn};
ghost use Rattle.s7_rig.specs.Runs.{IsFreshPost};

use crate::links::{count_held, poll_over, turn_over};
use crate::places::Places;
use crate::script::ClientScript;
use crate::station::Station;
use s7_area::Guard;
use s7_client::{Completion, Config, Connection, Job, JobResult, Polled, tell};
use s7_memory::Pipes;
use s7_outer::Memory;
use s7_plant::{Book, Tail};
use s7_session::{Outcome, Session, Turn};
use std::alloc::Global;
use std::collections::VecDeque;

/// The number of octets for which each pipe has room.
const ROOM: usize = 4_096;

/// The moment that the clock of the pipes shows: 2024-01-01, in milliseconds since 1970.
const MOMENT: u64 = 1_704_067_200_000;

impl Station {
    /// A client of this link with all these jobs still to start, and a session that has taken nothing, to areas with
    /// this guard. Returns `Memory` if an allocation fails.
    pub(crate) fn new(
        alloc: Global,
        link: u32,
        script: ClientScript,
        config: Config,
        guard: Option<Guard>,
    ) -> Result<Station, Memory>
        requires least_pdu { 64 ≤ config.pdu }
        requires most_pdu { config.pdu ≤ most_pdu }
        requires least_jobs { 1 ≤ config.jobs }
        requires most_jobs { config.jobs ≤ 8 }
        requires polls { 1 ≤ config.polls }
        ensures { IfOk result (λ station. IsFreshPost guard config link (script_told script) (post_of station)) }
    {
        let ClientScript { jobs, halts } = script;
        let count = jobs.len();
        Ok(Station {
            link,
            rest: VecDeque::from_vec(jobs),
            halts,
            client: Connection::new(alloc, config)?,
            session: Session::new(alloc, link, guard)?,
            pipes: Pipes::new(alloc, ROOM, MOMENT)?,
            results: Vec::with_capacity(alloc, count)?,
            places: Vec::with_capacity(alloc, count)?,
            noted: None,
        })
    }

    /// Whether every job was started and none is outstanding.
    pub(crate) fn is_finished(&self) -> bool
        ensures { result ≡ is_finished (post_of self.now) }
    {
        self.rest.is_empty() && self.noted.is_none()
    }

    /// The client's turn: it starts its next job if none is outstanding, and polls once. Returns whether an octet was
    /// moved or a job is done, or `Memory` if an allocation for the job fails.
    pub(crate) fn client_turn(&mut self, alloc: Global) -> Result<bool, Memory>
        ensures { IfOk result (λ stirs. IsClientTurn (post_of self.old) (post_of self.new) stirs) }
    {
        self.start_next(alloc)?;
        Ok(self.poll_once())
    }

    /// The client's turn. The completion is notified if a job is done.
    pub(crate) fn told_turn<C: Completion>(
        &mut self,
        alloc: Global,
        done: &mut Option<C>,
    ) -> Result<bool, Memory>
        ensures turn { IfOk result (λ stirs. IsClientTurn (post_of self.old) (post_of self.new) stirs) }
        ensures tells { OnOk result (Tells (post_of self.old).results (post_of self.new).results
            (option_map C.told done.old) (option_map C.told done.new)) }
        ensures untold { OnErr result (option_map C.told done.new ≡ option_map C.told done.old) }
        ensures handed { is_some done.new ≡ is_some done.old }
    {
        let before = self.results.len();
        let stirs = self.client_turn(alloc)?;
        if let Some(told) = self.results.get(before) {
            tell(done, told);
        }
        Ok(stirs)
    }

    /// Starts the next job, if none is outstanding and one is left.
    fn start_next(&mut self, alloc: Global) -> Result<(), Memory>
        ensures { OnOk result (StartsNext (post_of self.old) (post_of self.new)
            ⊎ StartsNothing (post_of self.old) (post_of self.new)) }
    {
        if self.noted.is_some() {
            return Ok(());
        }
        let Some(job) = self.rest.pop_front() else {
            return Ok(());
        };
        if self.client.start(alloc, job).is_err() {
            return Err(Memory);
        }
        self.noted = Some(Places::new(alloc));
        Ok(())
    }

    /// Polls once. Returns whether an octet was moved or a job is done.
    fn poll_once(&mut self) -> bool
        ensures { PollsOnce (post_of self.old) (post_of self.new) result }
    {
        let before = count_held(&self.pipes);
        let polled = poll_over(&mut self.client, &mut self.pipes);
        let after = count_held(&self.pipes);
        match polled {
            Polled::Done(told) => {
                leave(self.halts, &told, &mut self.rest);
                keep(told, &mut self.results, &mut self.places, &mut self.noted);
                true
            }
            Polled::Pending | Polled::Idle => after != before,
        }
    }

    /// The session's turn. Returns whether an octet was moved, or an octet that had been read was used; returns
    /// `Memory` if an allocation for the session or for the numbers of its entries fails.
    pub(crate) fn session_turn(
        &mut self,
        alloc: Global,
        book: &mut Book<Tail>,
    ) -> Result<bool, Memory>
        ensures turn { IfOk result
            (λ stirs. IsSessionTurn (post_of self.old) (post_of self.new)
            (book_told book.old) (book_told book.new) stirs) }
        ensures ready { IfOk result (λ _. AreReady book.new.journal.entries) }
    {
        let before = count_held(&self.pipes);
        let used = self.session.used();
        let first = book.journal.len();
        let turn = turn_over(alloc, self.link, &mut self.session, &mut self.pipes, book);
        if was_wanting(turn) {
            return Err(Memory);
        }
        // every request that is entered can be carried out again
        let _entries = book.journal.as_slice();
        self.note(first, book.journal.len())?;
        Ok(count_held(&self.pipes) != before || self.session.used() != used)
    }

    /// Adds the numbers of entries to those of the job under way.
    fn note(&mut self, first: u64, end: u64) -> Result<(), Memory>
        requires { first ≤ end }
        ensures { OnOk result (post_of self.new ≡ record (post_of self.old) {
          noted = option_map (λ numbers. numbers ++ count_from first (end - first)) (post_of self.old).noted;
        }) }
    {
        match &mut self.noted {
            Some(places) => places.add(first, end),
            None => Ok(()),
        }
    }
}

/// Whether an allocation failed in the turn.
fn was_wanting(turn: Turn) -> bool
    ensures { result ≡ false → closed_by turn ≢ Some Outcome.Memory }
{
    turn == Turn::Closed(Outcome::Memory)
}

/// Removes the jobs that a client doesn't start any more after this result.
fn leave(halts: bool, told: &JobResult, rest: &mut VecDeque<Job>)
    ensures left { rest.new.items ≡ left_behind halts told.now rest.old.items }
    ensures fewer { length rest.new.items ≤ length rest.old.items }
{
    if halts && told.code != 0 && reads_many(&told.job) {
        keep_last(rest);
    }
}

/// Removes all jobs but the last.
fn keep_last(rest: &mut VecDeque<Job>)
    ensures left { rest.new.items ≡ drop (length rest.old.items - 1) rest.old.items }
    ensures fewer { length rest.new.items ≤ length rest.old.items }
{
    while rest.len() > 1 {
        pass_over(rest);
    }
}

/// Removes the first job.
fn pass_over(rest: &mut VecDeque<Job>)
    ensures { rest.new.items ≡ drop 1 rest.old.items }
{
    rest.pop_front();
}

/// Whether a job reads several items.
fn reads_many(job: &Job) -> bool
    ensures { result ≡ reads_many job.now }
{
    match job {
        Job::ReadMany { .. } => true,
        _ => false,
    }
}

/// Keeps the result of the job that is done, and the numbers of its entries.
fn keep(
    told: JobResult,
    results: &mut Vec<JobResult>,
    places: &mut Vec<Places>,
    noted: &mut Option<Places>,
)
    requires results { length results.old.items < vec_capacity results.old }
    requires places { length places.old.items < vec_capacity places.old }
    requires noted { IsSome noted.old }
    ensures results { results.new.items ≡ results.old.items ++ told ∷ [] }
    ensures results_room { vec_capacity results.new ≡ vec_capacity results.old }
    ensures places { places.new.items ≡ places.old.items ++ unwrap_or noted.old [] ∷ [] }
    ensures places_room { vec_capacity places.new ≡ vec_capacity places.old }
    ensures noted { noted.new ≡ None }
{
    results.push_reserved(told);
    if let Some(numbers) = noted.take() {
        places.push_reserved(numbers);
    }
}
