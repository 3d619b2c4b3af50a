//! Tests of the heads of messages: headers, negotiations, grants, and the parameters of user data.
ghost use Rattle.std.specs.Prelude.{◌≤◌, length};
ghost use Rattle.s7_header.specs.UserParams.{HasForm, user_spelling};

use crate::rows::all_hold;
use s7_header::{
    BadParams, Header, HeaderFault, Kind, Negotiation, TooSmall, UserParams, grant, parts,
    read_header, read_negotiate, read_user, write_header, write_negotiate, write_refusal,
    write_user,
};

/// A job that negotiates.
const NEGOTIATE: &[u8] =
    b"\x32\x01\x00\x00\x00\x04\x00\x08\x00\x00\xF0\x00\x00\x01\x00\x01\x01\xE0";

/// The acknowledgement of that job.
const NEGOTIATED: &[u8] =
    b"\x32\x03\x00\x00\x00\x04\x00\x08\x00\x00\x00\x00\xF0\x00\x00\x01\x00\x01\x01\xE0";

/// An acknowledgement that refuses a job.
const REFUSAL: &[u8] = b"\x32\x02\x00\x00\x00\x01\x00\x00\x00\x00\x85\x00";

/// User data that asks for the clock.
const CLOCK_READ: &[u8] =
    b"\x32\x07\xAB\xCD\x00\x0B\x00\x08\x00\x04\x00\x01\x12\x04\x11\x47\x01\x00\x0A\x00\x00\x00";

/// The parameters of user data that asks for the clock.
const CLOCK_ASKED: &[u8] = b"\x00\x01\x12\x04\x11\x47\x01\x00";

/// The parameters of user data that answers with the clock.
const CLOCK_ANSWERED: &[u8] = b"\x00\x01\x12\x08\x12\x87\x01\x01\x00\x00\x00\x00";

/// What octets are read as, or are written for.
enum Case {
    /// A message, and what its header is read as.
    Read(&'static [u8], Result<Header, HeaderFault>),
    /// A message, its parameters and its body.
    Parted(&'static [u8], &'static [u8], &'static [u8]),
    /// A header, the number of its octets, and what 14 octets that were `EE` are after it was written.
    Written(Header, usize, &'static [u8; 14]),
    /// The sequence and the error of a refusal, and what 14 octets that were `EE` are after it was written.
    Refused(u16, u16, &'static [u8; 14]),
    /// Parameters, and the negotiation as which they are read.
    Negotiation(&'static [u8], Result<Negotiation, BadParams>),
    /// A negotiation, and what nine octets that were `EE` are after it was written.
    NegotiationWritten(Negotiation, &'static [u8; 9]),
    /// The numbers of calling and of called jobs and the PDU length that are asked for, and those that are granted.
    Granted([u16; 3], Result<[u16; 3], TooSmall>),
    /// Octets, and the parameters of user data as which they are read.
    User(&'static [u8], Result<UserParams, BadParams>),
}

/// A negotiation of one job in each direction and a PDU length of 480.
const ASKED: Negotiation = Negotiation {
    calling: 1,
    called: 1,
    pdu: 480,
};

/// The parameters of a question for the clock.
const CLOCK_QUESTION: UserParams = UserParams {
    answer: false,
    group: 0x47,
    sub: 1,
    sequence: 0,
    unit: 0,
    more: 0,
    error: 0,
};

/// The parameters of the answer to that question.
const CLOCK_ANSWER: UserParams = UserParams {
    answer: true,
    group: 0x87,
    sub: 1,
    sequence: 1,
    unit: 0,
    more: 0,
    error: 0,
};

/// The cases.
const CASES: &[Case] = &[
    // The headers of messages are read.
    Case::Read(
        NEGOTIATE,
        Ok(Header {
            kind: Kind::Job,
            sequence: 4,
            param_len: 8,
            body_len: 0,
            error: 0,
        }),
    ),
    Case::Read(
        NEGOTIATED,
        Ok(Header {
            kind: Kind::AckData,
            sequence: 4,
            param_len: 8,
            body_len: 0,
            error: 0,
        }),
    ),
    Case::Read(
        REFUSAL,
        Ok(Header {
            kind: Kind::Ack,
            sequence: 1,
            param_len: 0,
            body_len: 0,
            error: 0x8500,
        }),
    ),
    Case::Read(
        CLOCK_READ,
        Ok(Header {
            kind: Kind::User,
            sequence: 11,
            param_len: 8,
            body_len: 4,
            error: 0,
        }),
    ),
    // A message with several faults is refused for the first one.
    Case::Read(b"", Err(HeaderFault::Short)),
    Case::Read(
        b"\x32\x01\x00\x00\x00\x04\x00\x08\x00",
        Err(HeaderFault::Short),
    ),
    Case::Read(
        b"\x33\x05\x00\x00\x00\x01\x00\x00\x00\x00",
        Err(HeaderFault::BadId),
    ),
    Case::Read(
        b"\x32\x05\x00\x00\x00\x01\x00\x09\x00\x00",
        Err(HeaderFault::BadType),
    ),
    Case::Read(
        b"\x32\x04\x00\x00\x00\x01\x00\x00\x00\x00",
        Err(HeaderFault::BadType),
    ),
    Case::Read(
        b"\x32\x03\x00\x00\x00\x04\x00\x08\x00\x00\x00",
        Err(HeaderFault::Short),
    ),
    Case::Read(
        b"\x32\x01\x00\x00\x00\x04\x00\x08\x00\x00\xF0\x00\x00\x01\x00\x01\x01",
        Err(HeaderFault::Lengths),
    ),
    Case::Read(
        b"\x32\x01\x00\x00\x00\x01\x00\x00\x00\x00\x00",
        Err(HeaderFault::Lengths),
    ),
    // A message is parted into its parameters and its body.
    Case::Parted(CLOCK_READ, CLOCK_ASKED, b"\x0A\x00\x00\x00"),
    // Headers and refusals are written as their octets.
    Case::Written(
        Header {
            kind: Kind::AckData,
            sequence: 4,
            param_len: 8,
            body_len: 0,
            error: 0,
        },
        12,
        b"\x32\x03\x00\x00\x00\x04\x00\x08\x00\x00\x00\x00\xEE\xEE",
    ),
    Case::Written(
        Header {
            kind: Kind::Job,
            sequence: 4,
            param_len: 8,
            body_len: 0,
            error: 0,
        },
        10,
        b"\x32\x01\x00\x00\x00\x04\x00\x08\x00\x00\xEE\xEE\xEE\xEE",
    ),
    Case::Refused(
        1,
        0x8500,
        b"\x32\x02\x00\x00\x00\x01\x00\x00\x00\x00\x85\x00\xEE\xEE",
    ),
    // Negotiations are read and written.
    Case::Negotiation(b"\xF0\x00\x00\x01\x00\x01\x01\xE0", Ok(ASKED)),
    Case::Negotiation(b"\xF0\x00\x00\x01\x00\x01\x01", Err(BadParams)),
    Case::Negotiation(b"\xF1\x00\x00\x01\x00\x01\x01\xE0", Err(BadParams)),
    Case::NegotiationWritten(ASKED, b"\xF0\x00\x00\x01\x00\x01\x01\xE0\xEE"),
    // Grants stay within the limits.
    Case::Granted([1, 1, 63], Err(TooSmall)),
    Case::Granted([0, 8, 64], Ok([1, 8, 64])),
    Case::Granted([1, 1, 480], Ok([1, 1, 480])),
    Case::Granted([8, 9, 1_920], Ok([8, 8, 1_920])),
    Case::Granted([9, 0, 1_921], Ok([8, 1, 1_920])),
    Case::Granted([0xFFFF, 3, 0xFFFF], Ok([8, 3, 1_920])),
    // The parameters of user data are read.
    Case::User(CLOCK_ASKED, Ok(CLOCK_QUESTION)),
    Case::User(CLOCK_ANSWERED, Ok(CLOCK_ANSWER)),
    Case::User(b"\x00\x01\x12\x04\x11\x47\x01", Err(BadParams)),
    Case::User(b"\x00\x01\x12\x08\x12\x87\x01\x01", Err(BadParams)),
];

/// Reports whether a message has these parameters and this body.
fn has_parts(message: &[u8], params: &[u8], body: &[u8]) -> bool {
    let Ok(header) = read_header(message) else {
        return false;
    };
    let (params_read, body_read) = parts(message, &header);
    params_read == params && body_read == body
}

/// Reports whether a header is written in `len` octets, and 14 octets that were `EE` are these after that.
fn is_written(header: &Header, len: usize, octets: &[u8; 14]) -> bool {
    let mut into = [0xEE; 14];
    write_header(header, &mut into) == len && into == *octets
}

/// Reports whether a refusal is written in 12 octets, and 14 octets that were `EE` are these after that.
fn is_refusal(sequence: u16, error: u16, octets: &[u8; 14]) -> bool {
    let mut into = [0xEE; 14];
    write_refusal(sequence, error, &mut into) == 12 && into == *octets
}

/// Reports whether a negotiation is written in eight octets, and nine octets that were `EE` are these after that.
fn is_negotiation_written(negotiation: &Negotiation, octets: &[u8; 9]) -> bool {
    let mut into = [0xEE; 9];
    write_negotiate(negotiation, &mut into) == 8 && into == *octets
}

/// What is granted.
fn granted(asked: [u16; 3]) -> Result<[u16; 3], TooSmall> {
    let [calling, called, pdu] = asked;
    let granted = grant(&Negotiation {
        calling,
        called,
        pdu,
    })?;
    Ok([granted.calling, granted.called, granted.pdu])
}

/// Reports whether a case holds.
fn holds(case: &Case) -> bool {
    match case {
        Case::Read(message, wanted) => read_header(message) == *wanted,
        Case::Parted(message, params, body) => has_parts(message, params, body),
        Case::Written(header, len, octets) => is_written(header, *len, octets),
        Case::Refused(sequence, error, octets) => is_refusal(*sequence, *error, octets),
        Case::Negotiation(params, wanted) => read_negotiate(params) == *wanted,
        Case::NegotiationWritten(negotiation, octets) => is_negotiation_written(
            negotiation,
            octets,
        ),
        Case::Granted(asked, wanted) => granted(*asked) == *wanted,
        Case::User(params, wanted) => read_user(params) == *wanted,
    }
}

/// The number of the first case that doesn't hold.
fn unmet(cases: &[Case]) -> Option<usize> {
    for (number, case) in cases.iter().enumerate() {
        if !holds(case) {
            return Some(number);
        }
    }
    None
}

/// Headers, negotiations, grants and the parameters of user data are read and written as the cases say.
#[test]
fn heads_of_messages_are_read_and_written(rt: HostRuntime) {
    all_hold(&rt, unmet(CASES));
}

/// Reports whether the parameters are written in `len` octets, and 13 octets that were `EE` are these after that.
fn is_user_written(params: &UserParams, len: usize, octets: &[u8; 13]) -> bool
    requires form { HasForm params.now }
    requires room { length (user_spelling params.now) ≤ 13 }
{
    let mut into = [0xEE; 13];
    write_user(params, &mut into) == len && into == *octets
}

/// The parameters of user data are written.
#[test]
fn user_parameters_are_written(rt: HostRuntime) {
    let octets = b"\x00\x01\x12\x08\x12\x87\x01\x01\x00\x00\x00\x00\xEE";
    assert!(rt; is_user_written(&CLOCK_ANSWER, 12, octets));
    let octets = b"\x00\x01\x12\x04\x11\x47\x01\x00\xEE\xEE\xEE\xEE\xEE";
    assert!(rt; is_user_written(&CLOCK_QUESTION, 8, octets));
}
