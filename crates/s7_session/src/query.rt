//! What user data asks of the plant.
ghost use Rattle.std.specs.Prelude.{◌≡◌, ◌≤◌, ◌+◌, Some, IfSome, IfNone};
ghost use Rattle.s7_outer.specs.Count.{Rose, RoseExactly};
ghost use Rattle.s7_session.specs.Telegrams.{IsAt, looks_for};

use s7_block::BlockName;
use s7_outer::{Clock, Link, Tick};
use s7_plant::Request;

/// The group of user data about blocks.
pub(crate) const BLOCKS: u8 = 0x43;

/// The group of user data about status lists.
pub(crate) const LISTS: u8 = 0x44;

/// The group of user data about the clock.
pub(crate) const CLOCK: u8 = 0x47;

/// The subfunction that counts the blocks of all kinds.
pub(crate) const LIST_ALL: u8 = 0x01;

/// The subfunction that lists the blocks of a kind.
pub(crate) const LIST_OF: u8 = 0x02;

/// The subfunction that reads the head of a block.
pub(crate) const INFO: u8 = 0x03;

/// The subfunction that reads a status list.
pub(crate) const READ_LIST: u8 = 0x01;

/// The subfunction that reads the clock.
pub(crate) const READ_CLOCK: u8 = 0x01;

/// The subfunction that sets the clock.
pub(crate) const SET_CLOCK: u8 = 0x02;

/// A request to the plant by user data.
#[derive(Clone, Copy, Debug, PartialEq, Eq)]
pub(crate) enum Query {
    /// Count the blocks of each kind.
    ListAll,
    /// List the blocks of a kind.
    ListOf { kind: u8 },
    /// Read the head of a block.
    Info { name: BlockName },
    /// Read the image of a status list.
    Szl { id: u16, index: u16 },
    /// Read the clock.
    ClockRead,
    /// Set the clock to this value, in milliseconds since 1970, from 1990 to the end of 2089.
    ClockSet { value: u64 },
}

impl Query {
    ghost use Rattle.std.specs.Prelude.{true, false};
    ghost use Rattle.s7_session.specs.Queries.{group_of, subfunction_of, is_timed, IsMade};

    /// The group of the query.
    pub(crate) fn group(self) -> u8
        ensures { result ≡ group_of self }
    {
        match self {
            Query::ListAll | Query::ListOf { .. } | Query::Info { .. } => BLOCKS,
            Query::Szl { .. } => LISTS,
            Query::ClockRead | Query::ClockSet { .. } => CLOCK,
        }
    }

    /// The subfunction of the query.
    pub(crate) fn subfunction(self) -> u8
        ensures { result ≡ subfunction_of self }
    {
        match self {
            Query::ListAll => LIST_ALL,
            Query::ListOf { .. } => LIST_OF,
            Query::Info { .. } => INFO,
            Query::Szl { .. } => READ_LIST,
            Query::ClockRead => READ_CLOCK,
            Query::ClockSet { .. } => SET_CLOCK,
        }
    }

    /// The request to the plant. A query about the clock needs the time, so the link's clock is read once; any other
    /// query reads no clock. `None` if the clock failed.
    pub(crate) fn request<L: Link + Clock>(self, line: &mut L) -> Option<Request>
        ensures some { IfSome result (IsMade self (L.shows line.old).moment) }
        ensures none { IfNone result (is_timed self ≡ true) }
        ensures failed { IfNone result (Rose (L.shows line.old).clock_faults (L.shows line.new).clock_faults) }
        ensures told { IfSome result
            (λ request. (L.shows line.new).clock_faults ≡ (L.shows line.old).clock_faults) }
        ensures once { (L.shows line.new).clock_faults ≤ (L.shows line.old).clock_faults + 1 }
        ensures unasked { is_timed self ≡ false
            → (L.shows line.new).clock_faults ≡ (L.shows line.old).clock_faults }
        ensures same { L.shows line.new
            ≡ record (L.shows line.old) {
              clock_faults = (L.shows line.new).clock_faults;
              looks = (L.shows line.new).looks;
            } }
        ensures looks { RoseExactly (looks_for (is_timed self)) (L.shows line.old).looks (L.shows line.new).looks }
    {
        match self {
            Query::ListAll => Some(Request::ListAll),
            Query::ListOf { kind } => Some(Request::ListOf { kind }),
            Query::Info { name } => Some(Request::Info {
                kind: name.kind,
                number: name.number,
            }),
            Query::Szl { id, index } => Some(Request::Szl { id, index }),
            Query::ClockRead => Some(Request::ClockRead {
                moment: moment(line)?,
            }),
            Query::ClockSet { value } => Some(Request::ClockSet {
                moment: moment(line)?,
                value,
            }),
        }
    }
}

/// The time by the link's clock, in milliseconds since 1970; `None` if the clock failed.
fn moment<L: Link + Clock>(line: &mut L) -> Option<u64>
    ensures told { IfSome result (λ moment. IsAt (L.shows line.old).moment (Some moment)) }
    ensures failed { IfNone result (Rose (L.shows line.old).clock_faults (L.shows line.new).clock_faults) }
    ensures same_count { IfSome result
        (λ moment. (L.shows line.new).clock_faults ≡ (L.shows line.old).clock_faults) }
    ensures once { (L.shows line.new).clock_faults ≤ (L.shows line.old).clock_faults + 1 }
    ensures same { L.shows line.new
        ≡ record (L.shows line.old) {
          clock_faults = (L.shows line.new).clock_faults;
          looks = (L.shows line.new).looks;
        } }
    ensures looked { RoseExactly 1 (L.shows line.old).looks (L.shows line.new).looks }
{
    match line.now() {
        Tick::At(moment) => Some(moment),
        Tick::Failed => None,
    }
}
