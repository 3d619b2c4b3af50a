//! Passwords as they are sent (Snap7 1.4 sources, `TSnap7MicroClient::opSetPassword`).
ghost use Rattle.std.specs.Prelude.{◌≡◌, ◌<◌, ◌≤◌, length};
ghost use Rattle.s7_dialogue.specs.UserData.{encoded, filled_text};

/// The octet with which each octet of a password is masked.
const MASK: u8 = 0x55;

/// The octets in which a password of 1 to 8 octets is sent. It is padded with blanks. Each octet is masked, and
/// from the third on masked again with the masked octet two before it.
pub(crate) fn encoded(text: &[u8]) -> [u8; 8]
    requires some { 0 < length text.now }
    requires most { length text.now ≤ 8 }
    ensures { result ≡ encoded (filled_text text.now) }
{
    let mut filled = [b' '; 8];
    filled[..text.len()].copy_from_slice(text);
    masked(&filled)
}

/// Masks a password of eight octets.
fn masked(text: &[u8; 8]) -> [u8; 8]
    ensures { result ≡ encoded text.now }
{
    let [a, b, c, d, e, f, g, h] = *text;
    let a = a ^ MASK;
    let b = b ^ MASK;
    let c = c ^ MASK ^ a;
    let d = d ^ MASK ^ b;
    let e = e ^ MASK ^ c;
    let f = f ^ MASK ^ d;
    let g = g ^ MASK ^ e;
    let h = h ^ MASK ^ f;
    [a, b, c, d, e, f, g, h]
}
