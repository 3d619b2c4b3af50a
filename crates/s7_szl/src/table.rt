//! The status lists that the server has, written as images.

ghost use Rattle.std.specs.Prelude.{◌≡◌, ◌+◌, ◌/◌, ◌≤◌, ◌<◌, ◌++◌, length, drop};
ghost use Rattle.std.specs.List.{concat};
ghost use Rattle.std.specs.Option.{option_map, IfSome};
ghost use Rattle.s7_szl.specs.Tables.{mode};
ghost use Rattle.s7_szl.specs.Images.{head_octets, image_of, with_image};

use crate::octets::{HEAD, two_octets};

/// The greatest number of octets of an image.
const MOST_OCTETS: usize = 512;

/// The ids of the lists that exist.
const DIRECTORY: &[u8; 12] = b"\x00\x00\x00\x11\x00\x1C\x01\x31\x02\x32\x04\x24";

/// Index 1, the order code, and the version of the module.
const IDENTIFICATION: &[u8; 28] = b"\0\x01S7SERVER AREA BOOK  \0\0\0\x01\0\0";

/// For each component its index, and its text padded to 32 octets.
const COMPONENTS: &[u8; 204] = b"\
    \0\x01S7SERVER\0\0\0\0\0\0\0\0\0\0\0\0\0\0\0\0\0\0\0\0\0\0\0\0\
    \0\x02AREA BOOK\0\0\0\0\0\0\0\0\0\0\0\0\0\0\0\0\0\0\0\0\0\0\0\
    \0\x03\0\0\0\0\0\0\0\0\0\0\0\0\0\0\0\0\0\0\0\0\0\0\0\0\0\0\0\0\0\0\0\0\
    \0\x04OPEN\0\0\0\0\0\0\0\0\0\0\0\0\0\0\0\0\0\0\0\0\0\0\0\0\0\0\0\0\
    \0\x050000000001\0\0\0\0\0\0\0\0\0\0\0\0\0\0\0\0\0\0\0\0\0\0\
    \0\x07S7SERVER PLC\0\0\0\0\0\0\0\0\0\0\0\0\0\0\0\0\0\0\0\0";

/// Index 1, the greatest PDU (1,920), the greatest number of links (1,024); the rest is 00.
const COMMUNICATION: &[u8; 40] =
    b"\0\x01\x07\x80\x04\x00\0\0\0\0\0\0\0\0\0\0\0\0\0\0\0\0\0\0\0\0\0\0\0\0\0\0\0\0\0\0\0\0\0\0";

/// Index 4, the three levels, the mode selector, the start-up switch; the rest is 00.
const PROTECTION: &[u8; 40] =
    b"\0\x04\0\x01\0\0\0\x01\0\x01\0\0\0\0\0\0\0\0\0\0\0\0\0\0\0\0\0\0\0\0\0\0\0\0\0\0\0\0\0\0";

/// Writes the image of a status list to the beginning of `into`, and returns its length, 20 to 212: id, index,
/// record length and record count, each a number of two octets, and the records (Snap7 1.4 reference manual,
/// TS7SZL). The rest of `into` stays. Only list 0424 depends on `running`.
///
/// Returns `None` if there is no list with this id and index, and leaves `into` as it is. The lists are 0000, 0011,
/// 001C and 0424 at index 0, 0131 at index 1, and 0232 at index 4.
#[tactic(auto, unfolding(crate::specs::Tables::table_of))]
pub fn write_table(
    id: u16,
    index: u16,
    running: bool,
    into: &mut [u8; MOST_OCTETS],
) -> Option<usize>
    ensures len { result ≡ option_map length (image_of id index running) }
    ensures written { into.new ≡ with_image (image_of id index running) into.old }
    ensures most { IfSome result (λ len. len ≤ 212) }
{
    match (id, index) {
        (0x0000, 0) => Some(write_image(id, index, 2, DIRECTORY, into)),
        (0x0011, 0) => Some(write_image(id, index, 28, IDENTIFICATION, into)),
        (0x001C, 0) => Some(write_image(id, index, 34, COMPONENTS, into)),
        (0x0131, 1) => Some(write_image(id, index, 40, COMMUNICATION, into)),
        (0x0232, 4) => Some(write_image(id, index, 40, PROTECTION, into)),
        (0x0424, 0) => Some(write_image(id, index, 20, &mode_record(running), into)),
        _ => None,
    }
}

/// The record of the operating mode.
fn mode_record(running: bool) -> [u8; 20]
    ensures { result ≡ concat (mode running).records }
{
    let mode = if running { 0x08 } else { 0x04 };
    [
        0x51, 0x44, 0xFF, mode, 0, 0, 0, 0, 0, 0, 0, 0, 0, 0, 0, 0, 0, 0, 0, 0,
    ]
}

/// Writes an image to the beginning of `into`, and returns its length. Each record has `record_len` octets.
fn write_image(
    id: u16,
    index: u16,
    record_len: u16,
    records: &[u8],
    into: &mut [u8; MOST_OCTETS],
) -> usize
    requires len { 0 < record_len }
    requires fits { 8 + length records.now ≤ 512 }
    ensures len { result ≡ 8 + length records.now }
    ensures written { into.new ≡ head_octets id index record_len (length records.now / record_len)
        ++ records.now ++ drop (8 + length records.now) into.old }
{
    let count = records.len() / record_len as usize;
    let [id_high, id_low] = two_octets(id);
    let [index_high, index_low] = two_octets(index);
    let [len_high, len_low] = two_octets(record_len);
    let [count_high, count_low] = two_octets(count as u16);
    into[..HEAD].copy_from_slice(&[
        id_high, id_low, index_high, index_low, len_high, len_low, count_high, count_low,
    ]);
    let end = HEAD + records.len();
    into[HEAD..end].copy_from_slice(records);
    end
}
