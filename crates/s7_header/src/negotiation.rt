//! The negotiation of a link's PDU and parallel jobs, as in the Snap7 1.4 sources
//! (`TReqFunNegotiateParams`). The limits are this project's own.
ghost use Rattle.std.specs.Prelude.{◌≡◌, ◌≤◌, ◌++◌, length, drop, IfOk};
ghost use Rattle.s7_header.specs.Negotiation.{negotiation_spelling, negotiation_of, jobs_granted, granted, IsGrant};

use crate::faults::{BadParams, TooSmall};
use crate::octets::{number_at, two_octets};

/// The least length of a PDU that is granted, in octets.
pub const LEAST_PDU: u16 = 64;

/// The greatest length of a PDU that is granted, in octets. It also limits the messages before a negotiation.
pub const MOST_PDU: u16 = 1_920;

/// The greatest number of parallel jobs that is granted in each direction.
pub const MOST_JOBS: u16 = 8;

/// The function code of a negotiation.
const FUNCTION: u8 = 0xF0;

/// The length of the parameters.
const LEN: usize = 8;

/// What a client asks for, or what it is granted.
#[derive(Clone, Copy, Debug, PartialEq, Eq)]
pub struct Negotiation {
    /// The number of parallel jobs of the calling side.
    pub calling: u16,
    /// The number of parallel jobs of the called side.
    pub called: u16,
    /// The greatest length of a PDU, in octets.
    pub pdu: u16,
}

/// Reads the parameters: F0, an octet that is ignored, the two numbers of jobs, and the PDU. Returns `BadParams` if
/// the first octet isn't F0 or the length isn't 8.
#[tactic(auto, unfolding(crate::specs::Negotiation::negotiation_of))]
pub fn read_negotiate(params: &[u8]) -> Result<Negotiation, BadParams>
    ensures { result ≡ negotiation_of params.now }
{
    if params.len() != LEN || params[0] != FUNCTION {
        return Err(BadParams);
    }
    Ok(Negotiation {
        calling: number_at(params, 2),
        called: number_at(params, 4),
        pdu: number_at(params, 6),
    })
}

/// Writes the parameters of a negotiation to the beginning of `into`, and returns their length, 8. The rest of
/// `into` stays.
pub fn write_negotiate(n: &Negotiation, into: &mut [u8]) -> usize
    requires { 8 ≤ length into.old }
    ensures written { into.new ≡ negotiation_spelling n.now ++ drop 8 into.old }
    ensures len { result ≡ 8 }
{
    let [calling_high, calling_low] = two_octets(n.calling);
    let [called_high, called_low] = two_octets(n.called);
    let [pdu_high, pdu_low] = two_octets(n.pdu);
    into[..LEN].copy_from_slice(&[
        FUNCTION,
        0,
        calling_high,
        calling_low,
        called_high,
        called_low,
        pdu_high,
        pdu_low,
    ]);
    LEN
}

/// What is granted of what a client asks for: a PDU from `LEAST_PDU` to `MOST_PDU` octets is granted as it is, and
/// a longer one as `MOST_PDU`; in each direction 1 to `MOST_JOBS` jobs are granted. Returns `TooSmall` if the PDU
/// is below `LEAST_PDU`.
pub fn grant(asked: &Negotiation) -> Result<Negotiation, TooSmall>
    ensures granted { result ≡ granted asked.now }
    ensures within { IfOk result (λ n. IsGrant n) }
{
    if asked.pdu < LEAST_PDU {
        return Err(TooSmall);
    }
    Ok(Negotiation {
        calling: jobs_granted(asked.calling),
        called: jobs_granted(asked.called),
        pdu: asked.pdu.min(MOST_PDU),
    })
}

/// The number of jobs granted: at least 1, and at most `MOST_JOBS`.
fn jobs_granted(asked: u16) -> u16
    ensures { result ≡ jobs_granted asked }
{
    asked.min(MOST_JOBS).max(1)
}
