//! Laws of the definitions: what is read is what the octets spell, and what is written is read again. They do
//! nothing at run time.
ghost use Rattle.std.specs.Prelude.{◌≡◌, ℕ, ◌↔◌, List, ◌++◌, length};
ghost use Rattle.s7_outer.specs.Numbers.{AreOctets};
ghost use Rattle.s7_header.specs.Header.{header_of, SpellsHeader, IsHeader, spelling_of, params_of, body_of};
ghost use Rattle.s7_header.specs.Negotiation.{negotiation_of, SpellsNegotiation, IsNegotiation, negotiation_spelling};
ghost use Rattle.s7_header.specs.UserParams.{user_params_of, SpellsUser, IsUserParams, user_spelling};
ghost use Rattle.s7_header.specs.declared.header.Header.{Header};
ghost use Rattle.s7_header.specs.declared.negotiation.Negotiation.{Negotiation};
ghost use Rattle.s7_header.specs.declared.user_params.UserParams.{UserParams};

/// A law: a header is read exactly if the message spells it, whatever the ignored octets are, and a message spells
/// at most one header. A header that was written, followed by parameters and data of its lengths, is read again,
/// and these are the parts of the message.
pub fn header_reading()
    ensures read { (message : List ℕ) (h : Header) → AreOctets message
        → (header_of message ≡ Ok h) ↔ SpellsHeader message h }
    ensures one { (message : List ℕ) (g h : Header) → SpellsHeader message g → SpellsHeader message h → g ≡ h }
    ensures again { (h : Header) (params body : List ℕ) → IsHeader h → length params ≡ h.param_len
        → length body ≡ h.body_len
        → header_of (spelling_of h ++ params ++ body) ≡ Ok h }
    ensures parts { (h : Header) (params body : List ℕ) → length params ≡ h.param_len
        → (params_of (spelling_of h ++ params ++ body) h ≡ params)
        × (body_of (spelling_of h ++ params ++ body) h ≡ body) }
{}

/// A law: a negotiation is read exactly if the parameters spell it, and they spell at most one. A negotiation that
/// was written is read again.
pub fn negotiation_reading()
    ensures read { (params : List ℕ) (n : Negotiation) → AreOctets params
        → (negotiation_of params ≡ Ok n) ↔ SpellsNegotiation params n }
    ensures one { (params : List ℕ) (m n : Negotiation) → SpellsNegotiation params m → SpellsNegotiation params n
        → m ≡ n }
    ensures again { (n : Negotiation) → IsNegotiation n → negotiation_of (negotiation_spelling n) ≡ Ok n }
{}

/// A law: parameters of user data are read exactly if the octets spell them, and octets spell at most one set of
/// them. Parameters that were written are read again.
pub fn user_reading()
    ensures read { (params : List ℕ) (u : UserParams) → AreOctets params
        → (user_params_of params ≡ Ok u) ↔ SpellsUser params u }
    ensures one { (params : List ℕ) (t u : UserParams) → SpellsUser params t → SpellsUser params u → t ≡ u }
    ensures again { (u : UserParams) → IsUserParams u → user_params_of (user_spelling u) ≡ Ok u }
{}
