//! The jobs of lines about whole data blocks.
ghost use Rattle.std.specs.Prelude.{◌≡◌, option_map};
ghost use Rattle.hex.specs.Hex.{decode_of};
ghost use Rattle.s7_script.specs.Script.{db_fill_job, db_get_job, octet_in, with_value};

use crate::ScriptKind;
use crate::scripts::item_text::{ended, within};
use hex::FromHex;
use s7_client::Job;
use s7_text::{number, split_field};

/// The job that reads a whole data block.
pub(crate) fn db_get_job(rest: Option<&[u8]>) -> Result<Job, ScriptKind>
    ensures { result ≡ db_get_job (option_map (λ t. t.now) rest.entry) }
{
    let Some(text) = rest else {
        return Err(ScriptKind::Fields);
    };
    let (field, rest) = split_field(text);
    let number = within(1, 65_535, number(field))? as u16;
    ended(Job::DbGet { number }, rest)
}

/// The job that fills a data block with an octet.
pub(crate) fn db_fill_job(rest: Option<&[u8]>) -> Result<Job, ScriptKind>
    ensures { result ≡ db_fill_job (option_map (λ t. t.now) rest.entry) }
{
    let Some(text) = rest else {
        return Err(ScriptKind::Fields);
    };
    let (field, rest) = split_field(text);
    let number = within(1, 65_535, number(field))? as u16;
    with_value(number, rest)
}

/// The job that fills the data block of this number, with the octet in the last field.
fn with_value(number: u16, rest: Option<&[u8]>) -> Result<Job, ScriptKind>
    ensures { result ≡ with_value number (option_map (λ t. t.now) rest.entry) }
{
    let Some(text) = rest else {
        return Err(ScriptKind::Fields);
    };
    let (field, rest) = split_field(text);
    let value = octet_in(field)?;
    ended(Job::DbFill { number, value }, rest)
}

/// The octet in two hexadecimal digits.
fn octet_in(field: &[u8]) -> Result<u8, ScriptKind>
    ensures { result ≡ octet_in (decode_of field.now) }
{
    match <[u8; 1]>::from_hex(field) {
        Ok(octets) => Ok(octets[0]),
        Err(_) => Err(ScriptKind::Digits),
    }
}
