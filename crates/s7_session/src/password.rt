//! How passwords are masked and checked (Snap7 1.4 sources, `TSnap7MicroClient::opSetPassword`).
ghost use Rattle.std.specs.Prelude.{◌≡◌, drop, true, false, IfSome, IfNone};
ghost use Rattle.s7_session.specs.Passwords.{decoded, is_password, set_error, clear_error};

use s7_area::Guard;

/// The data part of a telegram that carries no data.
pub(crate) const NO_DATA: [u8; 4] = [0x0A, 0x00, 0x00, 0x00];

/// The octets before the password, in data that set a password.
const PASSWORD_HEAD: [u8; 4] = [0xFF, 0x09, 0x00, 0x08];

/// The number of octets of a password.
const PASSWORD: usize = 8;

/// The octet with which each octet of a password is masked.
const MASK: u8 = 0x55;

/// The error word if the areas have no guard.
const NO_GUARD: u16 = 0xD605;

/// The error word if the link has no right to clear.
const NO_RIGHT: u16 = 0xD604;

/// The error word of a password that isn't the guard's.
const WRONG_PASSWORD: u16 = 0xD602;

/// The eight masked octets of a password in data that set one; `None` if the data have another form.
pub(crate) fn password_in(body: &[u8]) -> Option<[u8; PASSWORD]>
    ensures some { IfSome result (λ octets. (is_password body.now ≡ true) × (octets ≡ drop 4 body.now)) }
    ensures none { IfNone result (is_password body.now ≡ false) }
{
    if body.len() != PASSWORD_HEAD.len() + PASSWORD || !body.starts_with(&PASSWORD_HEAD) {
        return None;
    }
    let mut octets = [0u8; PASSWORD];
    octets.copy_from_slice(&body[PASSWORD_HEAD.len()..]);
    Some(octets)
}

/// The text of a password from its masked octets. Each octet is masked with 55; from the third on it is also masked
/// with the octet that came two before it.
#[tactic(auto, unfolding(crate::specs::Passwords::decoded))]
pub(crate) fn decode(octets: &[u8; PASSWORD]) -> [u8; PASSWORD]
    ensures { result ≡ decoded octets.now }
{
    let [a, b, c, d, e, f, g, h] = *octets;
    [
        a ^ MASK,
        b ^ MASK,
        c ^ MASK ^ a,
        d ^ MASK ^ b,
        e ^ MASK ^ c,
        f ^ MASK ^ d,
        g ^ MASK ^ e,
        h ^ MASK ^ f,
    ]
}

/// The error word of the answer to a password that is set: 0 if it is the guard's.
pub(crate) fn set_error(guard: Option<Guard>, text: &[u8; PASSWORD]) -> u16
    ensures { result ≡ set_error guard text.now }
{
    let Some(guard) = guard else {
        return NO_GUARD;
    };
    let password = guard.password;
    if password == *text { 0 } else { WRONG_PASSWORD }
}

/// The error word of the answer to a right that is cleared: 0 if the link has the right.
pub(crate) fn clear_error(guard: Option<Guard>, right: bool) -> u16
    ensures { result ≡ clear_error guard right }
{
    match guard {
        None => NO_GUARD,
        Some(_) if right => 0,
        Some(_) => NO_RIGHT,
    }
}
