//! Two partners over two pipes.
ghost use Rattle.std.specs.Prelude.{◌≡◌, ◌∷◌, ◌++◌, ◌≤◌, All, [], IfOk, OnOk, map};
ghost use Rattle.s7_schedule.specs.Drawing.{seeded};
ghost use Rattle.s7_script.specs.Sends.{IsSized};
ghost use Rattle.s7_partner.specs.declared.role.Role.TheVariants.{Active, Passive};
ghost use Rattle.s7_partner_run.specs.Pairs.{AreFresh, IsRun, Rounds, TakesTurn, Turns, TurnsOnce, TurnsOver};
ghost use Rattle.s7_partner_run.specs.Talking.{post_of};
ghost use Rattle.s7_partner_run.specs.Pairs.{are_done, end_told, is_over, role_by, state_of, state_told};

use crate::event::{News, PairEvent};
use crate::talker::Talker;
use s7_client::Config;
use s7_memory::{PipeEnd, Pipes, Side};
use s7_outer::Memory;
use s7_partner::Role;
use s7_schedule::Draw;
use s7_script::Sends;
use std::alloc::Global;

/// The number of octets for which each pipe has room.
const ROOM: usize = 4_096;

/// The moment that the clock of the pipes shows: 2024-01-01, in milliseconds since 1970.
const MOMENT: u64 = 1_704_067_200_000;

/// The most rounds that are made.
const MOST_ROUNDS: u32 = 16_777_216;

/// Two partners, the pipes between them, and their news.
#[derive(Drop)]
pub(crate) struct Pair {
    pub active: Talker,
    pub passive: Talker,
    pub pipes: Pipes,
    pub events: Vec<PairEvent>,
}

/// The result of a run of two partners.
#[derive(Drop)]
pub struct PairEnd {
    /// The news of both partners, in order.
    pub events: Vec<PairEvent>,
    /// Whether every block of both partners was acknowledged, and nothing was outstanding.
    pub is_done: bool,
}

impl Pair {
    /// Two partners that have done nothing, each with the blocks of a list still to be given. Returns `Memory` if an
    /// allocation fails.
    pub fn new(alloc: Global, config: Config, one: Sends, other: Sends) -> Result<Pair, Memory>
        requires least_pdu { 64 ≤ config.pdu }
        requires most_pdu { config.pdu ≤ 1920 }
        requires least_jobs { 1 ≤ config.jobs }
        requires most_jobs { config.jobs ≤ 8 }
        requires polls { 1 ≤ config.polls }
        requires sized { All IsSized one }
        requires other_sized { All IsSized other }
        ensures { IfOk result (λ pair. AreFresh config one other (state_of pair)) }
    {
        Ok(Pair {
            active: Talker::new(alloc, Role::Active, config, one)?,
            passive: Talker::new(alloc, Role::Passive, config, other)?,
            pipes: Pipes::new(alloc, ROOM, MOMENT)?,
            events: Vec::new(alloc),
        })
    }

    /// Takes `steps` turns that are drawn from the seed, and then rounds of both partners. The rounds end when both are
    /// done or one is closed, or after 16,777,216 rounds. Returns `Memory` if an allocation for a block or for a piece
    /// of news fails.
    pub fn run(&mut self, alloc: Global, seed: u32, steps: u32) -> Result<(), Memory>
        ensures { OnOk result (IsRun seed steps (state_of self.old) (state_of self.new)) }
    {
        self.take_drawn(alloc, seed, steps)?;
        self.take_rounds(alloc)
    }

    /// Takes turns that are drawn from the seed.
    fn take_drawn(&mut self, alloc: Global, seed: u32, steps: u32) -> Result<(), Memory>
        ensures { OnOk result (Turns (map role_by (seeded seed steps 2)) (state_of self.old) (state_of self.new)) }
    {
        let mut draw = Draw::new(seed);
        for _ in 0..steps {
            let actor = draw.actor(2);
            self.turn(alloc, role_by(actor))?;
        }
        Ok(())
    }

    /// Takes rounds until both partners are done or one is closed.
    fn take_rounds(&mut self, alloc: Global) -> Result<(), Memory>
        ensures { OnOk result (Rounds 16777216 (state_of self.old) (state_of self.new)) }
    {
        for _ in 0..MOST_ROUNDS {
            if self.is_over() {
                return Ok(());
            }
            self.round(alloc)?;
        }
        Ok(())
    }

    /// Takes a turn of each partner.
    fn round(&mut self, alloc: Global) -> Result<(), Memory>
        ensures { OnOk result (Turns (Active ∷ Passive ∷ []) (state_of self.old) (state_of self.new)) }
    {
        self.turn(alloc, Role::Active)?;
        self.turn(alloc, Role::Passive)
    }

    /// Takes a turn of one partner, and appends its news.
    fn turn(&mut self, alloc: Global, role: Role) -> Result<(), Memory>
        ensures { OnOk result (TurnsOnce role (state_of self.old) (state_of self.new)) }
    {
        match self.take_turn(alloc, role)? {
            Some(news) => self.keep(PairEvent { role, news }),
            None => Ok(()),
        }
    }

    /// Takes a turn of one partner, and returns its news.
    fn take_turn(&mut self, alloc: Global, role: Role) -> Result<Option<News>, Memory>
        ensures { IfOk result (λ news. TakesTurn role (state_of self.old) (state_of self.new) news) }
    {
        match role {
            Role::Active => turn_over(alloc, &mut self.active, &mut self.pipes, Side::Client),
            Role::Passive => turn_over(alloc, &mut self.passive, &mut self.pipes, Side::Server),
        }
    }

    /// Appends a piece of news of one partner.
    fn keep(&mut self, event: PairEvent) -> Result<(), Memory>
        ensures { OnOk result (state_of self.new ≡ record (state_of self.old) {
          events = self.old.events.items ++ event ∷ [];
        }) }
    {
        if self.events.push(event).is_err() {
            return Err(Memory);
        }
        Ok(())
    }

    /// Whether both partners are done, or one is closed.
    fn is_over(&self) -> bool
        ensures { result ≡ is_over (state_of self.now) }
    {
        self.active.is_closed() || self.passive.is_closed() || self.are_done()
    }

    /// Whether both partners are done.
    fn are_done(&self) -> bool
        ensures { result ≡ are_done (state_of self.now) }
    {
        self.active.is_done() && self.passive.is_done()
    }

    /// The result of the run.
    pub fn into_end(self) -> PairEnd
        ensures { end_told result ≡ state_told (state_of self) }
    {
        PairEnd {
            is_done: self.are_done(),
            events: self.events,
        }
    }
}

/// Takes a turn of a partner over its end of the pipes.
fn turn_over(
    alloc: Global,
    talker: &mut Talker,
    pipes: &mut Pipes,
    side: Side,
) -> Result<Option<News>, Memory>
    ensures { TurnsOver side (post_of talker.old) pipes.old (post_of talker.new) pipes.new result }
{
    let mut end = PipeEnd { pipes, side };
    talker.turn(alloc, &mut end)
}

/// Actor 0 is the active partner, and actor 1 the passive one.
fn role_by(actor: usize) -> Role
    ensures { result ≡ role_by actor }
{
    if actor == 0 {
        Role::Active
    } else {
        Role::Passive
    }
}
