//! Reading TPDUs.

ghost use Rattle.std.specs.Prelude.{◌≡◌, ◌+◌, ◌*◌, IfOk};
ghost use Rattle.s7_cotp.specs.Told.{result_map, told_of, connection_of, IsPaddedConnection, IsPaddedTpdu};
ghost use Rattle.s7_cotp.specs.Told.{CanBeWritten, CanBeWrittenAgain};
ghost use Rattle.s7_cotp.specs.Reading.{tpdu_of, connection_in, fragment_in, disconnect_in, reject_in};

use crate::parameters::read_parameters;
use crate::tpdu::{Connection, CotpFault, Tpdu};
use bytes::Buf;

/// The code of a CR. A TPDU's code is the second octet of its header (ISO 8073, 13.1).
pub(crate) const CONNECT: u8 = 0xE0;

/// The code of a CC.
pub(crate) const CONFIRM: u8 = 0xD0;

/// The code of a DT.
pub(crate) const DATA: u8 = 0xF0;

/// The code of a DR.
pub(crate) const DISCONNECT: u8 = 0x80;

/// The code of an ER.
pub(crate) const REJECT: u8 = 0x70;

/// Reads the one TPDU of a packet's body (ISO 8073, 13.3 to 13.5, 13.7 and 13.12).
///
/// The first fault in this order is returned. `BadCode`: the body has fewer than two octets, or its code isn't that
/// of a CR (0xE0), CC (0xD0), DT (0xF0), DR (0x80) or ER (0x70). `ShortHeader`: the length octet exceeds the body,
/// is below 6 in a CR, CC or DR, is below 4 in an ER, or isn't 2 in a DT. `BadParameter`: a parameter of a CR or CC
/// exceeds the header, a TPDU size isn't one octet from 07 to 0D, or a TSAP doesn't have 1 to 16 octets.
#[tactic(auto, unfolding(crate::specs::Reading::tpdu_of))]
pub fn read_tpdu(body: &[u8]) -> Result<Tpdu<'_>, CotpFault>
    ensures told { result_map told_of result ≡ tpdu_of body.now }
    ensures padded { IfOk result IsPaddedTpdu }
    ensures writable { IfOk result CanBeWrittenAgain }
{
    let [length, code, rest @ ..] = body else {
        return Err(CotpFault::BadCode);
    };
    let length = usize::from(*length);
    match *code {
        CONNECT => Ok(Tpdu::Connect(read_connection(length, rest)?)),
        CONFIRM => Ok(Tpdu::Confirm(read_connection(length, rest)?)),
        DATA => read_fragment(length, rest),
        DISCONNECT => read_disconnect(length, rest),
        REJECT => read_reject(length, rest),
        _ => Err(CotpFault::BadCode),
    }
}

/// Reads what follows the code of a CR or CC.
fn read_connection(length: usize, rest: &[u8]) -> Result<Connection, CotpFault>
    ensures told { result_map connection_of result ≡ connection_in length rest.now }
    ensures padded { IfOk result IsPaddedConnection }
    ensures writable { IfOk result CanBeWritten }
{
    let [dst_high, dst_low, src_high, src_low, class, more @ ..] = rest else {
        return Err(CotpFault::ShortHeader);
    };
    if length < 6 || more.len() + 6 < length {
        return Err(CotpFault::ShortHeader);
    }
    let said = read_parameters(&more[..length - 6])?;
    Ok(Connection {
        dst_ref: reference(*dst_high, *dst_low),
        src_ref: reference(*src_high, *src_low),
        class: *class,
        size_code: said.size_code,
        calling: said.calling,
        called: said.called,
    })
}

/// Reads what follows the code of a DT.
fn read_fragment(length: usize, rest: &[u8]) -> Result<Tpdu<'_>, CotpFault>
    ensures { result_map told_of result ≡ fragment_in length rest.now }
{
    match rest {
        [end, user @ ..] if length == 2 => Ok(Tpdu::Fragment {
            last: *end >= 0x80,
            user,
        }),
        _ => Err(CotpFault::ShortHeader),
    }
}

/// Reads what follows the code of a DR.
fn read_disconnect(length: usize, rest: &[u8]) -> Result<Tpdu<'_>, CotpFault>
    ensures { result_map told_of result ≡ disconnect_in length rest.now }
{
    match rest {
        [_, _, _, _, reason, more @ ..] if length >= 6 && length <= more.len() + 6 => {
            Ok(Tpdu::Disconnect { reason: *reason })
        }
        _ => Err(CotpFault::ShortHeader),
    }
}

/// Reads what follows the code of an ER.
fn read_reject(length: usize, rest: &[u8]) -> Result<Tpdu<'_>, CotpFault>
    ensures { result_map told_of result ≡ reject_in length rest.now }
{
    match rest {
        [_, _, cause, more @ ..] if length >= 4 && length <= more.len() + 4 => {
            Ok(Tpdu::Reject { cause: *cause })
        }
        _ => Err(CotpFault::ShortHeader),
    }
}

/// A reference from its two octets, the high one first.
fn reference(high: u8, low: u8) -> u16
    ensures { result ≡ 256 * high + low }
{
    let octets = [high, low];
    let mut rest = octets.as_slice();
    rest.get_u16()
}
