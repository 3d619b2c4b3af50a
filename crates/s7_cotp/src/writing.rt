//! Writing TPDUs.

ghost use Rattle.std.specs.Prelude.{◌≡◌, ◌≤◌, ◌+◌, ◌/◌, ◌%◌, ◌++◌, length, drop};
ghost use Rattle.s7_cotp.specs.Told.{connection_of, tsap_of};
ghost use Rattle.s7_cotp.specs.Spelling.{spelling_of_connect, spelling_of_confirm, spelling_of_connection};
ghost use Rattle.s7_cotp.specs.Spelling.{spelling_of_data, spelling_of_disconnect, tsap_octets, end_octet};

use crate::parameters::{CALLED, CALLING, SIZE};
use crate::reading::{CONFIRM, CONNECT, DATA, DISCONNECT};
use crate::tpdu::{Connection, Tsap};

/// Writes a connection request to the beginning of `into`, and returns its length in octets. The rest of `into`
/// stays.
pub fn write_connect(c: &Connection, into: &mut [u8]) -> usize
    requires least_size { 7 ≤ c.now.size_code }
    requires most_size { c.now.size_code ≤ 13 }
    requires calling { c.now.calling.len ≤ 16 }
    requires called { c.now.called.len ≤ 16 }
    requires room { length (spelling_of_connect (connection_of c.now)) ≤ length into.old }
    ensures size { result ≡ length (spelling_of_connect (connection_of c.now)) }
    ensures written { into.new ≡ spelling_of_connect (connection_of c.now) ++ drop result into.old }
{
    write_connection(CONNECT, c, into)
}

/// Writes a connection confirm to the beginning of `into`, and returns its length in octets. The rest of `into`
/// stays.
pub fn write_confirm(c: &Connection, into: &mut [u8]) -> usize
    requires least_size { 7 ≤ c.now.size_code }
    requires most_size { c.now.size_code ≤ 13 }
    requires calling { c.now.calling.len ≤ 16 }
    requires called { c.now.called.len ≤ 16 }
    requires room { length (spelling_of_confirm (connection_of c.now)) ≤ length into.old }
    ensures size { result ≡ length (spelling_of_confirm (connection_of c.now)) }
    ensures written { into.new ≡ spelling_of_confirm (connection_of c.now) ++ drop result into.old }
{
    write_connection(CONFIRM, c, into)
}

/// Writes a DT with this user data to the beginning of `into`, and returns its length in octets. The rest of `into`
/// stays.
pub fn write_data(last: bool, user: &[u8], into: &mut [u8]) -> usize
    requires room { length user.now + 3 ≤ length into.old }
    ensures size { result ≡ length (spelling_of_data last user.now) }
    ensures written { into.new ≡ spelling_of_data last user.now ++ drop result into.old }
{
    let size = 3 + user.len();
    into[..3].copy_from_slice(&[2, DATA, end_octet(last)]);
    into[3..size].copy_from_slice(user);
    size
}

/// Writes a disconnect request to the beginning of `into`, and returns its length in octets. The rest of `into`
/// stays.
pub fn write_disconnect(dst_ref: u16, src_ref: u16, reason: u8, into: &mut [u8]) -> usize
    requires room { 7 ≤ length into.old }
    ensures size { result ≡ length (spelling_of_disconnect dst_ref src_ref reason) }
    ensures written { into.new ≡ spelling_of_disconnect dst_ref src_ref reason ++ drop result into.old }
{
    let dst = high_and_low(dst_ref);
    let src = high_and_low(src_ref);
    into[..7].copy_from_slice(&[6, DISCONNECT, dst.0, dst.1, src.0, src.1, reason]);
    7
}

/// Writes a CR or CC with this code. Its parameters are the TPDU size and the TSAPs that are present.
fn write_connection(code: u8, c: &Connection, into: &mut [u8]) -> usize
    requires calling { c.now.calling.len ≤ 16 }
    requires called { c.now.called.len ≤ 16 }
    requires room { length (spelling_of_connection code (connection_of c.now)) ≤ length into.old }
    ensures size { result ≡ length (spelling_of_connection code (connection_of c.now)) }
    ensures written { into.new ≡ spelling_of_connection code (connection_of c.now) ++ drop result into.old }
{
    let dst = high_and_low(c.dst_ref);
    let src = high_and_low(c.src_ref);
    let length = 9 + tsap_size(&c.calling) + tsap_size(&c.called);
    into[..10].copy_from_slice(&[
        length as u8,
        code,
        dst.0,
        dst.1,
        src.0,
        src.1,
        c.class,
        SIZE,
        1,
        c.size_code,
    ]);
    let calling = write_tsap(CALLING, &c.calling, &mut into[10..]);
    let called = write_tsap(CALLED, &c.called, &mut into[10 + calling..]);
    10 + calling + called
}

/// Writes the parameter of a TSAP, or nothing where it is absent.
fn write_tsap(code: u8, tsap: &Tsap, into: &mut [u8]) -> usize
    requires len { tsap.now.len ≤ 16 }
    requires room { length (tsap_octets code (tsap_of tsap.now)) ≤ length into.old }
    ensures size { result ≡ length (tsap_octets code (tsap_of tsap.now)) }
    ensures written { into.new ≡ tsap_octets code (tsap_of tsap.now) ++ drop result into.old }
{
    if tsap.len == 0 {
        return 0;
    }
    let len = usize::from(tsap.len);
    into[..2].copy_from_slice(&[code, tsap.len]);
    into[2..2 + len].copy_from_slice(&tsap.octets[..len]);
    2 + len
}

/// How many octets the parameter of a TSAP has.
fn tsap_size(tsap: &Tsap) -> usize
    requires len { tsap.now.len ≤ 16 }
    ensures size { result ≡ length (tsap_octets 0 (tsap_of tsap.now)) }
    ensures most { result ≤ 18 }
{
    match usize::from(tsap.len) {
        0 => 0,
        len => 2 + len,
    }
}

/// The third octet of a DT: its high bit is the end bit.
fn end_octet(last: bool) -> u8
    ensures { result ≡ end_octet last }
{
    if last { 0x80 } else { 0x00 }
}

/// The two octets of a reference, the high one first.
fn high_and_low(reference: u16) -> (u8, u8)
    ensures high { result.0 ≡ reference / 256 }
    ensures low { result.1 ≡ reference % 256 }
{
    let [high, low] = reference.to_be_bytes();
    (high, low)
}
