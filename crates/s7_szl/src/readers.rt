//! The fields of the images of status lists.

ghost use Rattle.std.specs.Prelude.{◌≡◌, length, drop};
ghost use Rattle.s7_szl.specs.Readers.{is_of, mode_of, order_code_of, pdu_of, protection_of, component_of};

use crate::octets::{HEAD, adds_up, number_at};

/// The length of a component: its index and its text.
const COMPONENT: usize = 34;

/// Whether the controller runs, from an image of list 0424: the fourth octet of its first record is 08 if it runs,
/// and 04 if it is stopped.
///
/// Returns `None` if the image isn't of that list: its id, index (0) or record length (20) is another, it has no
/// record, or its records don't add up to it. Returns `None` also if that octet is neither.
pub fn read_mode(image: &[u8]) -> Option<bool>
    ensures { result ≡ mode_of image.now }
{
    if !is_of(image, 0x0424, 0, 20) {
        return None;
    }
    match image[HEAD + 3] {
        0x08 => Some(true),
        0x04 => Some(false),
        _ => None,
    }
}

/// The order code, from an image of list 0011: the 20 octets after the index of its first record.
///
/// Returns `None` if the image isn't of that list: its id, index (0) or record length (28) is another, it has no
/// record, or its records don't add up to it.
pub fn read_order_code(image: &[u8]) -> Option<[u8; 20]>
    ensures { result ≡ order_code_of image.now }
{
    if !is_of(image, 0x0011, 0, 28) {
        return None;
    }
    let mut code = [0; 20];
    code.copy_from_slice(&image[HEAD + 2..HEAD + 22]);
    Some(code)
}

/// The text of a component, from an image of list 001C: the 32 octets after the index of its first record with this
/// index. Index 1 is the system's name, 2 the module's name, 3 the plant, 4 the copyright, 5 the serial number and
/// 7 the module's type.
///
/// Returns `None` if the image isn't of that list: its id, index (0) or record length (34) is another, it has no
/// record, or its records don't add up to it. Returns `None` also if no record has this index.
pub fn read_component(image: &[u8], index: u16) -> Option<[u8; 32]>
    ensures { result ≡ component_of index image.now }
{
    if !is_of(image, 0x001C, 0, 34) {
        return None;
    }
    let mut rest = &image[HEAD..];
    for _ in 0..number_at(image, 6) {
        let (component, behind) = rest.split_at(COMPONENT);
        if number_at(component, 0) == index {
            return Some(text_of(component));
        }
        rest = behind;
    }
    None
}

/// The greatest PDU in octets, from an image of list 0131: the number after the index of its first record.
///
/// Returns `None` if the image isn't of that list: its id, index (1) or record length (40) is another, it has no
/// record, or its records don't add up to it.
pub fn read_pdu(image: &[u8]) -> Option<u16>
    ensures { result ≡ pdu_of image.now }
{
    if !is_of(image, 0x0131, 1, 40) {
        return None;
    }
    Some(number_at(image, HEAD + 2))
}

/// The level of protection in force, from an image of list 0232: the number after the index and the two other
/// levels of its first record (`sch_rel` of the Snap7 1.4 reference manual). 1 is no protection.
///
/// Returns `None` if the image isn't of that list: its id, index (4) or record length (40) is another, it has no
/// record, or its records don't add up to it.
pub fn read_protection(image: &[u8]) -> Option<u16>
    ensures { result ≡ protection_of image.now }
{
    if !is_of(image, 0x0232, 4, 40) {
        return None;
    }
    Some(number_at(image, HEAD + 6))
}

/// Whether an image is of this list: it has this id, index and record length, and at least one whole record.
fn is_of(image: &[u8], id: u16, index: u16, record_len: u16) -> bool
    ensures { result ≡ is_of id index record_len image.now }
{
    if image.len() < HEAD {
        return false;
    }
    let count = number_at(image, 6);
    number_at(image, 0) == id
        && number_at(image, 2) == index
        && number_at(image, 4) == record_len
        && count > 0
        && adds_up(image)
}

/// The text of a component, which follows its index.
fn text_of(component: &[u8]) -> [u8; 32]
    requires { length component.now ≡ 34 }
    ensures { result ≡ drop 2 component.now }
{
    let mut text = [0; 32];
    text.copy_from_slice(&component[2..]);
    text
}
