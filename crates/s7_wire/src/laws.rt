//! Laws of the definitions, for proofs that build on them. They do nothing at run time.
ghost use Rattle.std.specs.Prelude.{◌≡◌, ◌≤◌, ℕ, List, ◌∷◌, ◌++◌, length, None, Some, Ok, Err};
ghost use Rattle.s7_tpkt.specs.Packets.{packets_of};
ghost use Rattle.s7_cotp.specs.Told.{Told, ConnectionTold};
ghost use Rattle.s7_cotp.specs.Reading.{tpdu_of};
ghost use Rattle.s7_cotp.specs.declared.tpdu.CotpFault.{CotpFault};
ghost use Rattle.s7_wire.specs.declared.found.Opening.{Opening};
ghost use Rattle.s7_wire.specs.declared.found.Ended.{Ended};
ghost use Rattle.s7_wire.specs.declared.found.ReadFault.{ReadFault};
ghost use Rattle.s7_wire.specs.declared.reader.Reader.{Reader};
ghost use Rattle.s7_wire.specs.Bounds.{first_limit, size_of_code, limit_of_size};
ghost use Rattle.s7_wire.specs.Reads.{HasRead, opens_by, ended_with, ending_by, found_by};
ghost use Rattle.s7_wire.specs.Reading.{Ending, faulted, limits, limit_by, opening_of, reading};
ghost use Rattle.s7_wire.specs.Reading.{ReadsOn, GrowsTo, IsFaultPlace, JoinsMessages};

/// A law: octets in two pieces are read as if they came at once, wherever they are cut. Events that were read stay.
/// After an ending nothing more is read.
pub fn reading_goes_on()
    ensures goes_on { (opening : Opening) (b rest : List ℕ) → ReadsOn opening b rest }
    ensures events { (opening : Opening) (b rest : List ℕ) → GrowsTo (reading opening b) (reading opening (b ++ rest)) }
    ensures ended { (opening : Opening) (b rest : List ℕ) (ending : Ending) → (reading opening b).ending ≡ Some ending
        → reading opening (b ++ rest) ≡ reading opening b }
{}

/// A law: while the link hasn't ended, all packets after the first one are data TPDUs, and the messages read are
/// those of their fragments.
pub fn fragments_are_joined()
    ensures { (opening : Opening) (b first : List ℕ) (bodies : List (List ℕ))
        → packets_of (limits opening) b ≡ first ∷ bodies → (reading opening b).ending ≡ None
        → JoinsMessages opening first bodies (reading opening b) }
{}

/// A law: only the first packet sets the limit of later packets, and only if it opens the link.
pub fn limits_of_openings()
    ensures opened { (opening : Opening) (body : List ℕ) (bodies : List (List ℕ)) (told : Told) (c : ConnectionTold)
        → tpdu_of body ≡ Ok told → opening_of opening told ≡ Some c
        → limits opening (body ∷ bodies) ≡ limit_of_size (size_of_code c.size_code) }
    ensures other { (opening : Opening) (body : List ℕ) (bodies : List (List ℕ)) (told : Told)
        → tpdu_of body ≡ Ok told → opening_of opening told ≡ None → limits opening (body ∷ bodies) ≡ first_limit }
    ensures no_tpdu { (opening : Opening) (body : List ℕ) (bodies : List (List ℕ)) (fault : CotpFault)
        → tpdu_of body ≡ Err fault → limits opening (body ∷ bodies) ≡ first_limit }
{}

/// A law: a reader has ended exactly if the reading of its octets has.
pub fn readers_end()
    ensures going { (r : Reader) (b : List ℕ) → HasRead r b → (reading (opens_by r) b).ending ≡ None
        → ended_with r ≡ None }
    ensures ended { (r : Reader) (b : List ℕ) (end : Ended) → HasRead r b → ended_with r ≡ Some end
        → (reading (opens_by r) b).ending ≡ ending_by (found_by end) (reading (opens_by r) b).at }
{}

/// A law: the limit of the next packet follows from the TPDU size, and an event's offset never exceeds the number
/// of octets read.
pub fn numbers_of_readings()
    ensures limit { (opening : Opening) (b : List ℕ) → (reading opening b).ending ≡ None
        → limits opening (packets_of (limits opening) b) ≡ limit_by (reading opening b).size }
    ensures place { (opening : Opening) (b : List ℕ) → (reading opening b).at ≤ length b }
{}

/// A law: the place of a fault is the sum of the lengths of the packets before it, which are the octets up to that
/// place. After them comes a packet at fault, or octets that can't be the beginning of a packet.
pub fn faults_have_places()
    ensures { (opening : Opening) (b : List ℕ) (fault : ReadFault) (at : ℕ)
        → (reading opening b).ending ≡ Some (faulted fault at) → IsFaultPlace opening b fault at }
{}
