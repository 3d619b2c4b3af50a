//! Parameters of connection requests and confirms.

ghost use Rattle.std.specs.Prelude.{◌≡◌, ◌≤◌, IfOk};
ghost use Rattle.s7_cotp.specs.Padded.{IsPadded};
ghost use Rattle.s7_cotp.specs.Told.{result_map, said_of, tsap_of};
ghost use Rattle.s7_cotp.specs.Reading.{with_parameter, size_in, tsap_in, said_in, nothing_said};

use crate::said::Said;
use crate::tpdu::{CotpFault, Tsap};

/// The code of the TPDU size.
pub(crate) const SIZE: u8 = 0xC0;

/// The code of the calling TSAP.
pub(crate) const CALLING: u8 = 0xC1;

/// The code of the called TSAP.
pub(crate) const CALLED: u8 = 0xC2;

/// The size code if no TPDU size is given: 1,024 octets.
const SIZE_NOT_SAID: u8 = 0x0A;

/// Reads all parameters. If a code occurs twice, its last value counts. Other codes are skipped.
pub(crate) fn read_parameters(octets: &[u8]) -> Result<Said, CotpFault>
    ensures { result_map said_of result ≡ said_in 0 octets.now nothing_said }
{
    let mut said = nothing_said();
    let mut rest = octets;
    while let [code, length, more @ ..] = rest {
        let length = usize::from(*length);
        if more.len() < length {
            return Err(CotpFault::BadParameter);
        }
        let (value, behind) = more.split_at(length);
        said = with_parameter(said, *code, value)?;
        rest = behind;
    }
    if rest.is_empty() {
        Ok(said)
    } else {
        Err(CotpFault::BadParameter)
    }
}

/// The values before any parameter is read: TPDU size 1,024, and no TSAPs.
fn nothing_said() -> Said
    ensures { said_of result ≡ nothing_said }
{
    let absent = Tsap {
        octets: [0; 16],
        len: 0,
    };
    Said {
        size_code: SIZE_NOT_SAID,
        calling: absent,
        called: absent,
    }
}

/// The values after one more parameter.
fn with_parameter(mut said: Said, code: u8, value: &[u8]) -> Result<Said, CotpFault>
    ensures { result_map said_of result ≡ with_parameter code value.now (said_of said) }
{
    match code {
        SIZE => said.size_code = size_code_of(value)?,
        CALLING => said.calling = tsap_of(value)?,
        CALLED => said.called = tsap_of(value)?,
        _ => {}
    }
    Ok(said)
}

/// The value of a TPDU size: one octet from 07 to 0D, else `BadParameter`.
fn size_code_of(value: &[u8]) -> Result<u8, CotpFault>
    ensures size { result ≡ size_in value.now }
    ensures within { IfOk result (λ n. (7 ≤ n) × (n ≤ 13)) }
{
    match value {
        [size_code @ 0x07..=0x0D] => Ok(*size_code),
        _ => Err(CotpFault::BadParameter),
    }
}

/// The value of a TSAP: 1 to 16 octets, else `BadParameter`.
fn tsap_of(value: &[u8]) -> Result<Tsap, CotpFault>
    ensures value { result_map tsap_of result ≡ tsap_in value.now }
    ensures padded { IfOk result IsPadded }
    ensures fits { IfOk result (λ t. t.len ≤ 16) }
{
    if value.is_empty() || 16 < value.len() {
        return Err(CotpFault::BadParameter);
    }
    let mut octets = [0; 16];
    octets[..value.len()].copy_from_slice(value);
    Ok(Tsap {
        octets,
        len: value.len() as u8,
    })
}
