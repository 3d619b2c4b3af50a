//! Writing messages.
ghost use Rattle.std.specs.Prelude.{◌≡◌, ◌+◌, ◌≤◌, ◌++◌, length};
ghost use Rattle.s7_header.specs.Header.{has_error, spelling_of, header_len};

use s7_header::{Header, Kind, MOST_PDU, write_header};
use s7_outer::Buffer;

/// The greatest number of octets of a message.
pub(crate) const MOST_MESSAGE: usize = MOST_PDU as usize;

/// Begins the only message in the buffer: a header without an error word, and these parameters. Data of `body_len`
/// octets are to follow.
pub(crate) fn begin_message(
    message: &mut Buffer,
    kind: Kind,
    sequence: u16,
    params: &[u8],
    body_len: u16,
)
    requires fits { 12 + length params.now ≤ 1920 }
    requires room { message.old.room ≡ 1920 }
    ensures octets { message.new.octets ≡ spelling_of (record {
      kind = kind;
      sequence = sequence;
      param_len = length params.now;
      body_len = body_len;
      error = 0;
    }) ++ params.now }
    ensures len { length message.new.octets ≡ header_len kind + length params.now }
    ensures room { message.new.room ≡ 1920 }
{
    let header = Header {
        kind,
        sequence,
        param_len: params.len() as u16,
        body_len,
        error: 0,
    };
    let mut octets = [0u8; 12];
    let len = write_header(&header, &mut octets);
    message.clear();
    message.add(&octets[..len]);
    message.add(params);
}
