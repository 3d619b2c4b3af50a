//! Serving all links of a door on one keeper.
ghost use Rattle.std.specs.Prelude.{◌≡◌, List, [], ◌∷◌, Some, map, IfOk, IsErrOf};
ghost use Rattle.s7_turn.specs.Machines.{IsReplayed};
ghost use Rattle.s7_turn.specs.Seats.{IsOf, made, callers, seen, next};
ghost use Rattle.s7_session.specs.LinkState.{first_link};
ghost use Rattle.s7_listener.specs.Given.{HasFailed, HasGiven};
ghost use Rattle.s7_listener.specs.Hosted.{AreHosted};
ghost use Rattle.s7_listener.specs.Served.{told_of};

use crate::hall_bench::HallBench;
use crate::hosted::{Gathered, Hosted, NotHosted};
use crate::hosting::host;
use crate::keeper::Keeper;
use s7_area::Guard;
use s7_outer::{Clock, Door, Gate, Link, Memory};
use s7_turn::{Hall, Seat};
use std::alloc::Global;
use std::sync::Wait;
use std::thread::Threads;
use std::time;

/// A hall with this keeper, and its first seat. Returns `Memory` if an allocation fails.
fn hall_of<M: Keeper + Drop>(alloc: Global, keeper: M) -> Result<(Hall<M>, Seat<M>), Memory>
    requires new { (M.history keeper ≡ []) × (M.state keeper ≡ M.opening keeper) }
    requires holds { M.holds keeper }
    ensures fixed { IfOk result (λ r.
        (M.opening (made r.0) ≡ M.opening keeper) × (M.limit (made r.0) ≡ M.limit keeper)) }
    ensures opened { IfOk result (λ r. M.opened (made r.0) ≡ M.opened keeper) }
    ensures hall { IfOk result (λ r. IsOf r.0 r.1) }
    ensures first { IfOk result (λ r. (callers r.1 ≡ 0 ∷ []) × (seen r.1 ≡ []) × (next r.1 ≡ Some 1)) }
{
    match Hall::new(alloc, keeper) {
        Ok(made) => Ok(made),
        Err((memory, _)) => Err(memory),
    }
}

/// Listens on a port, and serves the links that come by the door, at most `most` of them, side by side over one
/// history. Each link is served in a thread of its own; if no thread can be created, it is served before the next link
/// is accepted. Links are numbered from 1 in the order in which they come. Each begins with this guard.
///
/// Returns once every accepted link has ended and no further one is accepted: no link is left, the door failed, or
/// `most` links came. All memory except that of the links' sessions is allocated before the door is asked to listen.
/// Returns `Memory` if an allocation fails before the door is asked to listen; the door is then unused. Returns `Door`
/// if the door can't listen, or fails before a link comes.
pub fn serve_door<
    M: Keeper + Send + Drop,
    R: Threads + Wait + time::Clock + Sync,
    G: Gate + Sync,
    L: Link + Clock + Send + Drop,
    D: Door<L> + Drop,
>(
    rt: &R,
    alloc: Global,
    keeper: M,
    gate: &G,
    guard: Option<Guard>,
    door: D,
    port: u16,
    most: u16,
) -> (Result<Hosted<M, L>, NotHosted>, D)
    requires new { (M.history keeper ≡ []) × (M.state keeper ≡ M.opening keeper) }
    requires holds { M.holds keeper }
    ensures fixed { IfOk result.0 (λ h. (M.opening h.keeper ≡ M.opening keeper) × (M.limit h.keeper ≡ M.limit keeper)) }
    ensures replayed { IfOk result.0 (λ h. IsReplayed M.Machine h.keeper) }
    ensures holds { IfOk result.0 (λ h. M.holds h.keeper) }
    ensures hosted { IfOk result.0 (λ h. (lines : List L)
        × HasGiven port most (D.shows door) (D.shows result.1) lines h.door_failed
        × AreHosted (M.opened keeper) (M.limit keeper) (first_link guard) (M.history h.keeper)
        (map L.shows lines) (map (told_of L.shows) h.links.items)) }
    ensures failed { IsErrOf result.0 NotHosted.Door → HasFailed port (D.shows door) (D.shows result.1) }
    ensures memory { IsErrOf result.0 NotHosted.Memory → D.shows result.1 ≡ D.shows door }
{
    let (Ok((hall, seat)), Ok(links)) = (
        hall_of(alloc, keeper),
        Vec::with_capacity(alloc, usize::from(most)),
    ) else {
        return (Err(NotHosted::Memory), door);
    };
    let bench = HallBench {
        hall: &hall,
        gate,
        guard,
    };
    let (gathered, door) = host(rt, alloc, &bench, seat, door, port, most, links);
    match gathered {
        Ok(gathered) => {
            let Gathered {
                seat,
                links,
                door_failed,
            } = gathered;
            let hosted = Hosted {
                keeper: hall.close(rt, seat),
                links,
                door_failed,
            };
            (Ok(hosted), door)
        }
        Err(why) => (Err(why), door),
    }
}
