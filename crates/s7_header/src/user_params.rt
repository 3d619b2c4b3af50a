//! The parameters of user data, as in the Snap7 1.4 sources (`TReqFunTypedParams` and `TS7Params7`).
ghost use Rattle.std.specs.Prelude.{◌≡◌, ◌≤◌, ◌++◌, length, drop};
ghost use Rattle.s7_header.specs.UserParams.{user_spelling, HasForm, user_params_of};

use crate::faults::BadParams;
use crate::octets::{number_at, two_octets};

/// The first octets of the form of 8 octets.
const SHORT_HEAD: [u8; 5] = [0x00, 0x01, 0x12, 0x04, 0x11];

/// The first octets of the form of 12 octets.
const LONG_HEAD: [u8; 5] = [0x00, 0x01, 0x12, 0x08, 0x12];

/// The length of the short form.
const SHORT_LEN: usize = 8;

/// The length of the long form.
const LONG_LEN: usize = 12;

/// The parameters of user data.
#[derive(Clone, Copy, Debug, PartialEq, Eq)]
pub struct UserParams {
    /// Whether the parameters have the form of 12 octets, as answers and requests for a further slice do.
    pub answer: bool,
    /// The group, as the whole octet that is sent: 4x in a request, 8x in an answer.
    pub group: u8,
    /// The subfunction.
    pub sub: u8,
    /// The sequence octet.
    pub sequence: u8,
    /// The data unit reference; 0 in the form of 8 octets.
    pub unit: u8,
    /// The last-data-unit octet: 00 for the last slice, and 01 for others; 0 in the form of 8 octets.
    pub more: u8,
    /// The error word, 0 in the form of 8 octets.
    pub error: u16,
}

/// Reads parameters of 8 or of 12 octets. Returns `BadParams` for any other length, or if the first five octets are
/// neither form's.
#[tactic(auto, unfolding(crate::specs::UserParams::user_params_of))]
pub fn read_user(params: &[u8]) -> Result<UserParams, BadParams>
    ensures { result ≡ user_params_of params.now }
{
    if params.len() == SHORT_LEN && params.starts_with(&SHORT_HEAD) {
        return Ok(UserParams {
            answer: false,
            group: params[5],
            sub: params[6],
            sequence: params[7],
            unit: 0,
            more: 0,
            error: 0,
        });
    }
    if params.len() == LONG_LEN && params.starts_with(&LONG_HEAD) {
        return Ok(UserParams {
            answer: true,
            group: params[5],
            sub: params[6],
            sequence: params[7],
            unit: params[8],
            more: params[9],
            error: number_at(params, 10),
        });
    }
    Err(BadParams)
}

/// Writes the parameters to the beginning of `into`, and returns their length: 12 if `answer` is set, else 8.
/// Without `answer` the last three fields are 0. The rest of `into` stays.
pub fn write_user(u: &UserParams, into: &mut [u8]) -> usize
    requires room { length (user_spelling u.now) ≤ length into.old }
    requires form { HasForm u.now }
    ensures written { into.new ≡ user_spelling u.now ++ drop result into.old }
    ensures len { result ≡ length (user_spelling u.now) }
{
    into[..5].copy_from_slice(if u.answer { &LONG_HEAD } else { &SHORT_HEAD });
    into[5..SHORT_LEN].copy_from_slice(&[u.group, u.sub, u.sequence]);
    if !u.answer {
        return SHORT_LEN;
    }
    let [error_high, error_low] = two_octets(u.error);
    into[SHORT_LEN..LONG_LEN].copy_from_slice(&[u.unit, u.more, error_high, error_low]);
    LONG_LEN
}
