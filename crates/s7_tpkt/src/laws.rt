//! Laws of the definitions, for proofs that build on them. They do nothing at run time.

ghost use Rattle.std.specs.Prelude.{◌≡◌, ◌≢◌, ℕ, ◌+◌, ◌≤◌, List, [], ◌∷◌, ◌++◌, length, true};
ghost use Rattle.s7_tpkt.specs.Packets.{packets_of, rest_of, state_of, is_fault, Packets, NoPacketAhead, GoesOn};
ghost use Rattle.s7_tpkt.specs.Packets.{GoesFurther, EndsPacket, HoldsRest, IsPacket, packet_of};
ghost use Rattle.s7_tpkt.specs.Cut.{Cut};

use crate::state::FedState;

/// A law: in state `Whole` a packet stands at the beginning of the octets, and in any other state none does. After
/// a fault none will, whatever octets follow.
pub fn states_tell()
    ensures whole { (limit : ℕ) (b : List ℕ) → state_of limit b ≡ FedState.Whole → (q : List ℕ) × (more : List ℕ) ×
        IsPacket limit q × (b ≡ q ++ more) }
    ensures not_whole { (limit : ℕ) (b : List ℕ) → state_of limit b ≢ FedState.Whole → NoPacketAhead limit b }
    ensures fault { (limit : ℕ) (b more : List ℕ) → is_fault (state_of limit b) ≡ true
        → NoPacketAhead limit (b ++ more) }
{}

/// A law: the packets that `packets_of` and `rest_of` give satisfy the relation `Packets`, and no others do.
pub fn one_reading()
    ensures reads { (limits : List (List ℕ) → ℕ) (b : List ℕ)
        → Packets limits b (packets_of limits b) (rest_of limits b) }
    ensures only { (limits : List (List ℕ) → ℕ) (b : List ℕ) (ps : List (List ℕ)) (rest : List ℕ)
        → Packets limits b ps rest
        → (packets_of limits b ≡ ps) × (rest_of limits b ≡ rest) }
{}

/// A law: a cutter holds the octets after the last whole packet of a stream, however the stream is cut into pieces.
/// This is true at the start, stays true while no packet becomes whole, and is true again when the next packet
/// begins.
pub fn held_is_rest()
    ensures begins { (limits : List (List ℕ) → ℕ) (cutter : Cut) → cutter.held ≡ [] → cutter.limit ≡ limits [] →
        HoldsRest limits [] cutter }
    ensures goes_on { (limits : List (List ℕ) → ℕ) (b more : List ℕ) (old new : Cut) → HoldsRest limits b old
        → GoesOn limits b more
        → new.held ≡ old.held ++ more → new.limit ≡ old.limit → HoldsRest limits (b ++ more) new }
    ensures ends_packet { (limits : List (List ℕ) → ℕ) (b more body : List ℕ) (new : Cut)
        → EndsPacket limits b more body
        → new.held ≡ [] → new.limit ≡ limits (packets_of limits b ++ body ∷ []) → HoldsRest limits (b ++ more) new }
{}

/// A law: later octets don't change how earlier ones were read, and after a fault they add nothing.
pub fn octets_behind()
    ensures further { (limits : List (List ℕ) → ℕ) (b more : List ℕ) → GoesFurther limits b more }
    ensures fault { (limits : List (List ℕ) → ℕ) (b more : List ℕ) →
        is_fault (state_of (limits (packets_of limits b)) (rest_of limits b)) ≡ true
        → GoesOn limits b more }
    ensures fault_stays { (limit : ℕ) (held more : List ℕ) → is_fault (state_of limit held) ≡ true →
        state_of limit (held ++ more) ≡ state_of limit held }
{}

/// A law: what is written for a body is a packet, and is read as that one body with no rest.
pub fn written_is_read()
    ensures packet { (limit : ℕ) (body : List ℕ) → 3 ≤ length body → length body + 4 ≤ limit
        → IsPacket limit (packet_of body) }
    ensures one { (limits : List (List ℕ) → ℕ) (body : List ℕ) → 3 ≤ length body → length body + 4 ≤ limits []
        → (packets_of limits (packet_of body) ≡ body ∷ []) × (rest_of limits (packet_of body) ≡ []) }
{}
