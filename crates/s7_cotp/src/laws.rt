//! Laws of the definitions, for proofs that build on them. They do nothing at run time.

ghost use Rattle.std.specs.Prelude.{◌≡◌, ℕ, ◌<◌, ◌≤◌, ◌^◌, Bool, List, [], ◌∷◌, ◌++◌, length, true, false, Ok};
ghost use Rattle.s7_cotp.specs.Told.{Told, ConnectionTold, connect, confirm, fragment, disconnect};
ghost use Rattle.s7_cotp.specs.Tpdus.{SpellsTpdu};
ghost use Rattle.s7_cotp.specs.Reading.{tpdu_of};
ghost use Rattle.s7_cotp.specs.Spelling.{IsWritable, spelling_of_connect, spelling_of_confirm, spelling_of_data};
ghost use Rattle.s7_cotp.specs.Spelling.{spelling_of_disconnect};
ghost use Rattle.s7_cotp.specs.Messages.{Fragment, Messages, messages_of, rest_of, octets_of, is_over, joined_with};
ghost use Rattle.s7_cotp.specs.Messages.{StepSays};
ghost use Rattle.s7_cotp.specs.Pairs.{IsCut, pairs_of, parts_of};

/// A law: octets are read as a TPDU exactly if they spell it. So octets spell at most one TPDU.
pub fn one_spelling()
    ensures reads { (octets : List ℕ) (t : Told) → tpdu_of octets ≡ Ok t → SpellsTpdu octets t }
    ensures only { (octets : List ℕ) (t : Told) → SpellsTpdu octets t → tpdu_of octets ≡ Ok t }
{}

/// A law: what is written for a TPDU spells that TPDU.
pub fn written_is_read()
    ensures connect { (c : ConnectionTold) → IsWritable c → tpdu_of (spelling_of_connect c) ≡ Ok (connect c) }
    ensures confirm { (c : ConnectionTold) → IsWritable c → tpdu_of (spelling_of_confirm c) ≡ Ok (confirm c) }
    ensures data { (last : Bool) (user : List ℕ) → tpdu_of (spelling_of_data last user) ≡ Ok (fragment last user) }
    ensures disconnect { (dst_ref src_ref reason : ℕ)
        → tpdu_of (spelling_of_disconnect dst_ref src_ref reason) ≡ Ok (disconnect reason) }
{}

/// A law: the messages that `messages_of` and `rest_of` give satisfy the relation `Messages`, and no others do.
pub fn one_joining()
    ensures reads { (limit : ℕ) (fs : List Fragment) → Messages limit fs (messages_of limit fs) (rest_of limit fs) }
    ensures only { (limit : ℕ) (fs : List Fragment) (ms : List (List ℕ)) (rest : List Fragment)
        → Messages limit fs ms rest
        → (messages_of limit fs ≡ ms) × (rest_of limit fs ≡ rest) }
{}

/// A law: the effect of one more fragment depends only on the octets and the number of fragments of the rest.
pub fn one_step()
    ensures { (limit : ℕ) (fs : List Fragment) (f : Fragment) → is_over limit (rest_of limit fs) ≡ false
        → StepSays limit fs f (joined_with limit (octets_of (rest_of limit fs)) (length (rest_of limit fs)) f) }
{}

/// A law: there is exactly one way to cut a message into fragments of this size.
pub fn one_cut()
    ensures { (room from to : ℕ) (ps qs : List (ℕ × ℕ)) → IsCut room from to ps → IsCut room from to qs → ps ≡ qs }
{}

/// A law: the fragments of a message join to that message again, if the receiver accepts that many fragments and
/// octets.
pub fn cut_is_joined()
    ensures { (limit tpdu : ℕ) (message : List ℕ) → 4 ≤ tpdu → length message ≤ limit
        → length (pairs_of (length message) tpdu) ≤ 64
        → (messages_of limit (parts_of tpdu message) ≡ message ∷ []) × (rest_of limit (parts_of tpdu message) ≡ []) }
{}
