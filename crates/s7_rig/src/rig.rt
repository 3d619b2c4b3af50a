//! A rig: clients and the sessions that serve them, on one book.
ghost use Rattle.std.specs.Prelude.{◌≡◌, ◌<◌, ◌≤◌, ◌*◌, Bool, All, length, map, [], IfOk, OnOk, OnErr, is_some};
ghost use Rattle.std.specs.Prelude.{option_map};
ghost use Rattle.s7_schedule.specs.Drawing.{seeded};
ghost use Rattle.s7_header.specs.Negotiation.{most_pdu};
ghost use Rattle.s7_plant.specs.Journals.{entries_of};
ghost use Rattle.s7_plant.specs.State.{begins_with, state_of as plant_state};
ghost use Rattle.s7_rig.specs.Shown.{script_told, state_of, end_told, state_told};
ghost use Rattle.s7_rig.specs.State.{are_finished};
ghost use Rattle.s7_rig.specs.Stopped.{RoundsStop, RunStops, TurnsStop};
ghost use Rattle.s7_rig.specs.Tells.{TellsFirst, TellsWanting};
ghost use Rattle.s7_rig.specs.Turns.{IsTurnOf};
ghost use Rattle.s7_rig.specs.Runs.{Turns, actors_of, Rounds, most_rounds, AreFresh, IsRun};

use crate::end::{RigClient, RigEnd};
use crate::script::ClientScript;
use crate::station::Station;
use s7_area::Areas;
use s7_block::Blocks;
use s7_client::{Completion, Config};
use s7_outer::Memory;
use s7_plant::{Book, MOST_BLOCKS, Tail};
use s7_schedule::Draw;
use std::alloc::Global;

/// The most rounds that are made.
const MOST_ROUNDS: u32 = 16_777_216;

/// Clients and the sessions that serve them, on one book. Each turn is a turn of one client or of one session.
#[derive(Drop)]
pub struct Rig {
    pub(crate) book: Book<Tail>,
    pub(crate) stations: Vec<Station>,
}

impl Rig {
    /// A rig over these areas with a journal of this limit, from 1 to 262,144, and a client for each script. The
    /// links are numbered from 1 in that order. Returns `Memory` if an allocation fails.
    pub fn new(
        alloc: Global,
        areas: Areas,
        limit: u64,
        scripts: Vec<ClientScript>,
        config: Config,
    ) -> Result<Rig, Memory>
        requires some { 1 ≤ limit }
        requires few { limit ≤ 262144 }
        requires least_pdu { 64 ≤ config.pdu }
        requires most_pdu { config.pdu ≤ most_pdu }
        requires least_jobs { 1 ≤ config.jobs }
        requires most_jobs { config.jobs ≤ 8 }
        requires polls { 1 ≤ config.polls }
        requires scripts { length scripts.items ≤ 1025 }
        ensures opening { IfOk result (λ rig. plant_state (state_of rig).book.opening ≡ begins_with areas) }
        ensures plant { IfOk result (λ rig. plant_state (state_of rig).book.plant ≡ begins_with areas) }
        ensures journal { IfOk result (λ rig. (state_of rig).book.journal ≡ entries_of [] limit) }
        ensures count { IfOk result (λ rig. length rig.stations.items ≡ length scripts.items) }
        ensures clients { IfOk result (λ rig.
            AreFresh areas.guard config 1 (map script_told scripts.items) (state_of rig).posts) }
    {
        let guard = areas.guard();
        let mut stations = Vec::with_capacity(alloc, scripts.len())?;
        let mut link = 1;
        for script in scripts {
            let station = Station::new(alloc, link, script, config, guard)?;
            stations.push_reserved(station);
            link += 1;
        }
        Ok(Rig {
            book: unwatched(alloc, areas, limit)?,
            stations,
        })
    }

    /// Takes the turns of these actors, then `steps` turns that are drawn from the seed, and then rounds of all actors
    /// in order. With K clients, actors 0 to K - 1 are the clients, and actors K to 2K - 1 are their sessions. The
    /// rounds end when every client is finished, after a round in which nothing was moved, used or done, or after
    /// 16,777,216 rounds. The completion is notified of each job of the first client when the job is done, once, in
    /// order, and of nothing else. Returns `Memory` if an allocation fails.
    pub fn run<C: Completion>(
        &mut self,
        alloc: Global,
        turns: &[u32],
        seed: u32,
        steps: u32,
        done: &mut Option<C>,
    ) -> Result<(), Memory>
        requires clients { 0 < length self.old.stations.items }
        requires actors { All (λ actor. actor < 2 * length self.old.stations.items) turns.now }
        ensures run { OnOk result (IsRun turns.now seed steps (state_of self.old) (state_of self.new)) }
        ensures tells { OnOk result (TellsFirst (state_of self.old) (state_of self.new)
            (option_map C.told done.old) (option_map C.told done.new)) }
        ensures tells_wanting { OnErr result (TellsWanting (RunStops turns.now seed steps) (state_of self.old)
            (option_map C.told done.old) (option_map C.told done.new)) }
        ensures handed { is_some done.new ≡ is_some done.old }
        ensures count { length self.new.stations.items ≡ length self.old.stations.items }
    {
        self.take_stated(alloc, turns, done)?;
        self.take_drawn(alloc, seed, steps, done)?;
        self.take_rounds(alloc, done)
    }

    /// Takes a turn of an actor. The completion is notified of jobs of the first client only.
    fn turn<C: Completion>(
        &mut self,
        alloc: Global,
        actor: usize,
        done: &mut Option<C>,
    ) -> Result<bool, Memory>
        requires { actor < 2 * length self.old.stations.items }
        ensures turn { IfOk result (λ stirs. IsTurnOf actor (state_of self.old) (state_of self.new) stirs) }
        ensures tells { OnOk result (TellsFirst (state_of self.old) (state_of self.new)
            (option_map C.told done.old) (option_map C.told done.new)) }
        ensures untold { OnErr result (option_map C.told done.new ≡ option_map C.told done.old) }
        ensures handed { is_some done.new ≡ is_some done.old }
        ensures count { length self.new.stations.items ≡ length self.old.stations.items }
    {
        let count = self.stations.len();
        if actor == 0 {
            self.stations[actor].told_turn(alloc, done)
        } else if actor < count {
            self.stations[actor].client_turn(alloc)
        } else {
            self.stations[actor - count].session_turn(alloc, &mut self.book)
        }
    }

    /// Takes the turns of these actors.
    fn take_stated<C: Completion>(
        &mut self,
        alloc: Global,
        turns: &[u32],
        done: &mut Option<C>,
    ) -> Result<(), Memory>
        requires { All (λ actor. actor < 2 * length self.old.stations.items) turns.now }
        ensures turns { OnOk result ((stirs : Bool) × Turns turns.now (state_of self.old) (state_of self.new) stirs) }
        ensures tells { OnOk result (TellsFirst (state_of self.old) (state_of self.new)
            (option_map C.told done.old) (option_map C.told done.new)) }
        ensures tells_wanting { OnErr result (TellsWanting (TurnsStop turns.now) (state_of self.old)
            (option_map C.told done.old) (option_map C.told done.new)) }
        ensures handed { is_some done.new ≡ is_some done.old }
        ensures count { length self.new.stations.items ≡ length self.old.stations.items }
    {
        for actor in turns {
            self.turn(alloc, *actor as usize, done)?;
        }
        Ok(())
    }

    /// Takes turns that are drawn from the seed.
    fn take_drawn<C: Completion>(
        &mut self,
        alloc: Global,
        seed: u32,
        steps: u32,
        done: &mut Option<C>,
    ) -> Result<(), Memory>
        requires { 0 < length self.old.stations.items }
        ensures turns { OnOk result ((stirs : Bool)
            × Turns (seeded seed steps (2 * length self.old.stations.items))
            (state_of self.old) (state_of self.new) stirs) }
        ensures tells { OnOk result (TellsFirst (state_of self.old) (state_of self.new)
            (option_map C.told done.old) (option_map C.told done.new)) }
        ensures tells_wanting { OnErr result (TellsWanting
            (TurnsStop (seeded seed steps (2 * length self.old.stations.items)))
            (state_of self.old) (option_map C.told done.old) (option_map C.told done.new)) }
        ensures handed { is_some done.new ≡ is_some done.old }
        ensures count { length self.new.stations.items ≡ length self.old.stations.items }
    {
        let mut draw = Draw::new(seed);
        for _ in 0..steps {
            let actor = draw.actor(2 * self.stations.len());
            self.turn(alloc, actor, done)?;
        }
        Ok(())
    }

    /// Takes rounds until all clients are finished, or until a round makes no progress.
    fn take_rounds<C: Completion>(
        &mut self,
        alloc: Global,
        done: &mut Option<C>,
    ) -> Result<(), Memory>
        ensures rounds { OnOk result (Rounds most_rounds (state_of self.old) (state_of self.new)) }
        ensures tells { OnOk result (TellsFirst (state_of self.old) (state_of self.new)
            (option_map C.told done.old) (option_map C.told done.new)) }
        ensures tells_wanting { OnErr result (TellsWanting (RoundsStop most_rounds) (state_of self.old)
            (option_map C.told done.old) (option_map C.told done.new)) }
        ensures handed { is_some done.new ≡ is_some done.old }
        ensures count { length self.new.stations.items ≡ length self.old.stations.items }
    {
        for _ in 0..MOST_ROUNDS {
            if self.are_finished() {
                return Ok(());
            }
            if !self.round(alloc, done)? {
                return Ok(());
            }
        }
        Ok(())
    }

    /// Takes a turn of each actor. Returns whether one of them made progress.
    fn round<C: Completion>(&mut self, alloc: Global, done: &mut Option<C>) -> Result<bool, Memory>
        ensures turns { IfOk result
            (λ stirs. Turns (actors_of (state_of self.old)) (state_of self.old) (state_of self.new) stirs) }
        ensures tells { OnOk result (TellsFirst (state_of self.old) (state_of self.new)
            (option_map C.told done.old) (option_map C.told done.new)) }
        ensures tells_wanting { OnErr result (TellsWanting (TurnsStop (actors_of (state_of self.old)))
            (state_of self.old) (option_map C.told done.old) (option_map C.told done.new)) }
        ensures handed { is_some done.new ≡ is_some done.old }
        ensures count { length self.new.stations.items ≡ length self.old.stations.items }
    {
        let mut stirred = false;
        for actor in 0..2 * self.stations.len() {
            stirred |= self.turn(alloc, actor, done)?;
        }
        Ok(stirred)
    }

    /// Whether every client is finished.
    fn are_finished(&self) -> bool
        ensures { result ≡ are_finished (state_of self.now) }
    {
        self.stations.iter().all(|station| station.is_finished())
    }

    /// The book, and the results of each client in the order of their links' numbers.
    pub fn into_end(self, alloc: Global) -> Result<RigEnd, Memory>
        ensures { IfOk result (λ end. end_told end ≡ state_told (state_of self)) }
    {
        let mut clients = Vec::with_capacity(alloc, self.stations.len())?;
        for station in self.stations {
            clients.push_reserved(RigClient {
                link: station.link,
                results: station.results,
                places: station.places,
            });
        }
        Ok(RigEnd {
            book: self.book,
            clients,
        })
    }
}

/// A book of these areas without observers, blocks or entries.
fn unwatched(alloc: Global, areas: Areas, limit: u64) -> Result<Book<Tail>, Memory>
    requires some { 1 ≤ limit }
    requires few { limit ≤ 262144 }
    ensures opening { IfOk result (λ book. plant_state book.opening ≡ begins_with areas) }
    ensures plant { IfOk result (λ book. plant_state book.plant ≡ begins_with areas) }
    ensures journal { IfOk result (λ book. book.journal ≡ entries_of [] limit) }
{
    let blocks = Blocks::new(alloc, MOST_BLOCKS)?;
    Book::new(alloc, areas, blocks, limit, Vec::new(alloc))
}
