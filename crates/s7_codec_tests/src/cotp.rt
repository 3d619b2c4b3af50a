//! Tests of TPDUs: what is read and written, fragments that are joined, and messages that are cut.
ghost use Rattle.std.specs.Prelude.{◌≤◌, length};
ghost use Rattle.s7_cotp.specs.Spelling.{spelling_of_confirm};
ghost use Rattle.s7_cotp.specs.Told.{connection_of};

use crate::rows::all_hold;
use s7_cotp::{
    Connection, CotpFault, Joined, Joiner, Tpdu, Tsap, fragments, read_tpdu, write_confirm,
    write_connect, write_data, write_disconnect,
};

/// A connect request with the source reference 1, the size code 0A, the calling TSAP 0100 and the called TSAP 0102.
const REQUEST: [u8; 18] = [
    0x11, 0xE0, 0x00, 0x00, 0x00, 0x01, 0x00, 0xC0, 0x01, 0x0A, 0xC1, 0x02, 0x01, 0x00, 0xC2, 0x02,
    0x01, 0x02,
];

/// The connect confirm that answers it.
const CONFIRM: [u8; 18] = [
    0x11, 0xD0, 0x00, 0x01, 0x00, 0x01, 0x00, 0xC0, 0x01, 0x0A, 0xC1, 0x02, 0x01, 0x00, 0xC2, 0x02,
    0x01, 0x02,
];

/// A connect request whose called TSAP has 17 octets.
const LONG_TSAP: [u8; 26] = [
    0x19, 0xE0, 0, 0, 0, 1, 0, 0xC2, 0x11, 1, 2, 3, 4, 5, 6, 7, 8, 9, 10, 11, 12, 13, 14, 15, 16,
    17,
];

/// The calling TSAP.
const CALLING: Tsap = Tsap {
    octets: [1, 0, 0, 0, 0, 0, 0, 0, 0, 0, 0, 0, 0, 0, 0, 0],
    len: 2,
};

/// The called TSAP.
const CALLED: Tsap = Tsap {
    octets: [1, 2, 0, 0, 0, 0, 0, 0, 0, 0, 0, 0, 0, 0, 0, 0],
    len: 2,
};

/// A TSAP that isn't there.
const ABSENT: Tsap = Tsap {
    octets: [0; 16],
    len: 0,
};

/// The connection that the request asks for.
const REQUESTED: Connection = Connection {
    dst_ref: 0,
    src_ref: 1,
    class: 0,
    size_code: 0x0A,
    calling: CALLING,
    called: CALLED,
};

/// The connection that the confirm grants.
const CONFIRMED: Connection = Connection {
    dst_ref: 1,
    src_ref: 1,
    class: 0,
    size_code: 0x0A,
    calling: CALLING,
    called: CALLED,
};

/// A connection without TSAPs, with the size code 0A, which is that of a request without a size.
const BARE: Connection = Connection {
    dst_ref: 0,
    src_ref: 1,
    class: 0,
    size_code: 0x0A,
    calling: ABSENT,
    called: ABSENT,
};

/// A connection without TSAPs, with the size code 07.
const SMALL: Connection = Connection {
    dst_ref: 0,
    src_ref: 1,
    class: 0,
    size_code: 0x07,
    calling: ABSENT,
    called: ABSENT,
};

/// A confirmed connection without TSAPs, with the size code 07.
const SMALL_CONFIRMED: Connection = Connection {
    dst_ref: 1,
    src_ref: 1,
    class: 0,
    size_code: 0x07,
    calling: ABSENT,
    called: ABSENT,
};

/// What octets are read as, what is written, or how a message is cut.
enum Case {
    /// Octets, and what they are read as.
    Read(&'static [u8], Result<Tpdu<'static>, CotpFault>),
    /// Whether a data TPDU is the last of its message, its octets, the number of the octets in which it is written, and
    /// what eight octets that were `AA` are after that.
    Data(bool, &'static [u8], usize, &'static [u8; 8]),
    /// The length of a message, the TPDU size, and the ranges into which the message is cut.
    Cut(usize, usize, &'static [(usize, usize)]),
}

/// The cases.
const CASES: &[Case] = &[
    // TPDUs are read from their octets.
    Case::Read(&REQUEST, Ok(Tpdu::Connect(REQUESTED))),
    Case::Read(&CONFIRM, Ok(Tpdu::Confirm(CONFIRMED))),
    // There is no size.
    Case::Read(b"\x06\xE0\0\0\0\x01\0", Ok(Tpdu::Connect(BARE))),
    // Octets after the header are passed over.
    Case::Read(b"\x06\xE0\0\0\0\x01\0\xC0\x01\x07", Ok(Tpdu::Connect(BARE))),
    // The last of two sizes holds.
    Case::Read(
        b"\x0C\xE0\0\0\0\x01\0\xC0\x01\x0D\xC0\x01\x07",
        Ok(Tpdu::Connect(SMALL)),
    ),
    // A parameter that is unknown is passed over.
    Case::Read(
        b"\x0C\xE0\0\0\0\x01\0\xC6\x01\x06\xC0\x01\x07",
        Ok(Tpdu::Connect(SMALL)),
    ),
    Case::Read(
        b"\x06\x80\0\x01\0\x01\x80",
        Ok(Tpdu::Disconnect { reason: 0x80 }),
    ),
    Case::Read(b"\x04\x70\0\x01\x02", Ok(Tpdu::Reject { cause: 2 })),
    // Only the high bit says whether a data TPDU is the last one of its message.
    Case::Read(
        b"\x02\xF0\x80ab",
        Ok(Tpdu::Fragment {
            last: true,
            user: b"ab",
        }),
    ),
    Case::Read(
        b"\x02\xF0\x00",
        Ok(Tpdu::Fragment {
            last: false,
            user: b"",
        }),
    ),
    Case::Read(
        b"\x02\xF0\x01a",
        Ok(Tpdu::Fragment {
            last: false,
            user: b"a",
        }),
    ),
    Case::Read(
        b"\x02\xF0\xFFa",
        Ok(Tpdu::Fragment {
            last: true,
            user: b"a",
        }),
    ),
    // Octets that aren't a TPDU are refused.
    Case::Read(b"", Err(CotpFault::BadCode)),
    Case::Read(b"\x02", Err(CotpFault::BadCode)),
    Case::Read(b"\x02\x50\x80", Err(CotpFault::BadCode)),
    Case::Read(b"\x06\xE1\0\0\0\x01\0", Err(CotpFault::BadCode)),
    Case::Read(b"\x03\xF0\x80\0", Err(CotpFault::ShortHeader)),
    Case::Read(b"\x02\xF0", Err(CotpFault::ShortHeader)),
    Case::Read(b"\x05\xE0\0\0\0\x01\0", Err(CotpFault::ShortHeader)),
    Case::Read(b"\x07\xE0\0\0\0\x01\0", Err(CotpFault::ShortHeader)),
    Case::Read(b"\x03\x70\0\x01\x02", Err(CotpFault::ShortHeader)),
    // The size code is 06 or 0E, has two octets, or stands before a good one.
    Case::Read(
        b"\x09\xE0\0\0\0\x01\0\xC0\x01\x06",
        Err(CotpFault::BadParameter),
    ),
    Case::Read(
        b"\x09\xE0\0\0\0\x01\0\xC0\x01\x0E",
        Err(CotpFault::BadParameter),
    ),
    Case::Read(
        b"\x0A\xE0\0\0\0\x01\0\xC0\x02\x0A\x0A",
        Err(CotpFault::BadParameter),
    ),
    Case::Read(
        b"\x0C\xE0\0\0\0\x01\0\xC0\x01\x06\xC0\x01\x0A",
        Err(CotpFault::BadParameter),
    ),
    // A TSAP has no octets, or 17.
    Case::Read(b"\x08\xE0\0\0\0\x01\0\xC1\0", Err(CotpFault::BadParameter)),
    Case::Read(&LONG_TSAP, Err(CotpFault::BadParameter)),
    // A parameter ends after the header, though not after the octets.
    Case::Read(
        b"\x08\xE0\0\0\0\x01\0\xC1\x01\x01",
        Err(CotpFault::BadParameter),
    ),
    // Data TPDUs are written as their octets.
    Case::Data(true, b"ab", 5, b"\x02\xF0\x80ab\xAA\xAA\xAA"),
    Case::Data(false, b"c", 4, b"\x02\xF0\0c\xAA\xAA\xAA\xAA"),
    // Messages are cut into the ranges of their fragments.
    Case::Cut(0, 128, &[(0, 0)]),
    Case::Cut(125, 128, &[(0, 125)]),
    Case::Cut(126, 128, &[(0, 125), (125, 126)]),
    Case::Cut(8_190, 8_192, &[(0, 8_189), (8_189, 8_190)]),
];

/// Reports whether the request is written as its 18 octets, and the octet after them is left.
fn is_connect() -> bool {
    let mut into = [0xAAu8; 20];
    write_connect(&REQUESTED, &mut into) == 18 && into.starts_with(&REQUEST) && into[18] == 0xAA
}

/// Reports whether a confirm is written in `size` octets, which the room begins with.
fn is_confirm(confirm: &Connection, size: usize, octets: &[u8]) -> bool
    requires least_size { 7 ≤ confirm.now.size_code }
    requires most_size { confirm.now.size_code ≤ 13 }
    requires calling { confirm.now.calling.len ≤ 16 }
    requires called { confirm.now.called.len ≤ 16 }
    requires room { length (spelling_of_confirm (connection_of confirm.now)) ≤ 20 }
{
    let mut into = [0xAAu8; 20];
    write_confirm(confirm, &mut into) == size && into.starts_with(octets)
}

/// Reports whether a data TPDU is written in `size` octets, and eight octets that were `AA` are these after that.
fn is_data(last: bool, user: &[u8], size: usize, octets: &[u8; 8]) -> bool {
    if user.len() > 5 {
        return false;
    }
    let mut into = [0xAAu8; 8];
    write_data(last, user, &mut into) == size && into == *octets
}

/// Reports whether a disconnect request is written in seven octets, and eight octets that were `AA` are these after
/// that.
fn is_disconnect(octets: &[u8; 8]) -> bool {
    let mut into = [0xAAu8; 8];
    write_disconnect(1, 0x0203, 0x80, &mut into) == 7 && into == *octets
}

/// A connect request, confirms and a disconnect request are written as their octets.
#[test]
fn others_are_written(rt: HostRuntime) {
    assert!(rt;
        is_connect()
            && is_confirm(
                &CONFIRMED,
                18,
                b"\x11\xD0\0\x01\0\x01\0\xC0\x01\x0A\xC1\x02\x01\0\xC2\x02\x01\x02\xAA"
            )
            && is_confirm(
                &SMALL_CONFIRMED,
                10,
                b"\x09\xD0\0\x01\0\x01\0\xC0\x01\x07\xAA"
            )
            && is_disconnect(b"\x06\x80\0\x01\x02\x03\x80\xAA")
    );
}

/// Reports whether a fragment gets this answer, with this message if the answer is `Whole`. If `left` is there, it also
/// says whether a message is open after the fragment, and the number of the octets that are held.
fn is_answered(
    joiner: &mut Joiner,
    fragment: (&[u8], bool),
    answer: Joined,
    message: &[u8],
    left: Option<(bool, usize)>,
) -> bool {
    let (user, last) = fragment;
    let given = joiner.add(user, last);
    if given == Joined::Whole && joiner.message() != message {
        return false;
    }
    let is_left = match left {
        Some((open, held)) => joiner.is_open() == open && joiner.held() == held,
        None => true,
    };
    given == answer && is_left
}

/// Fragments of messages of at most 20 octets with whether each is the last, the answers, the whole messages, and what
/// is left: whether a message is open, and the number of octets that are held.
const JOINED: &[((&[u8], bool), Joined, &[u8], Option<(bool, usize)>)] = &[
    (
        (b"\x32\x01\0\0\0", false),
        Joined::More,
        b"",
        Some((true, 5)),
    ),
    (
        (b"\x05\0", true),
        Joined::Whole,
        b"\x32\x01\0\0\0\x05\0",
        Some((false, 0)),
    ),
    // The next message begins with a fragment without octets, and goes up to the limit.
    ((b"", false), Joined::More, b"", Some((true, 0))),
    ((&[7; 20], true), Joined::Whole, &[7; 20], None),
    // The last message has one octet more.
    ((&[7; 20], false), Joined::More, b"", None),
    ((b"7", true), Joined::TooLong, b"", None),
    ((b"", true), Joined::TooLong, b"", None),
];

/// Reports whether fragments are joined to messages of at most 20 octets as the rows say.
fn are_joined(joiner: &mut Joiner) -> bool {
    if joiner.is_open() || joiner.held() != 0 {
        return false;
    }
    for &(fragment, answer, message, left) in JOINED {
        if !is_answered(joiner, fragment, answer, message, left) {
            return false;
        }
    }
    true
}

/// Fragments are joined to messages of at most 20 octets.
#[test]
fn fragments_are_joined(rt: HostRuntime) {
    let mut joiner = Joiner::new(rt.alloc(), 20).expect(&rt, "there is memory");
    assert!(rt; are_joined(&mut joiner));
}

/// The number of times that a fragment comes, its octets, whether it is the last, and the answer.
const MANY: &[(usize, &[u8], bool, Joined)] = &[
    (63, b"a", false, Joined::More),
    (1, b"b", true, Joined::Whole),
    (64, b"a", false, Joined::More),
    (1, b"b", true, Joined::TooManyFragments),
    (1, b"", false, Joined::TooManyFragments),
];

/// The message of 64 fragments.
const WHOLE: &[u8] = b"aaaaaaaaaaaaaaaaaaaaaaaaaaaaaaaaaaaaaaaaaaaaaaaaaaaaaaaaaaaaaaab";

/// Reports whether a fragment comes so often, each time with the answer of its row.
fn comes(joiner: &mut Joiner, row: &(usize, &[u8], bool, Joined)) -> bool {
    let (count, user, last, answer) = *row;
    for _ in 0..count {
        if !is_answered(joiner, (user, last), answer, WHOLE, None) {
            return false;
        }
    }
    true
}

/// Reports whether all fragments come.
fn all_come(joiner: &mut Joiner) -> bool {
    for row in MANY {
        if !comes(joiner, row) {
            return false;
        }
    }
    true
}

/// A message has at most 64 fragments.
#[test]
fn a_message_has_64_fragments(rt: HostRuntime) {
    let mut joiner = Joiner::new(rt.alloc(), 64).expect(&rt, "there is memory");
    assert!(rt; all_come(&mut joiner));
}

/// Reports whether a message is cut into these ranges.
fn is_cut(len: usize, tpdu: usize, wanted: &[(usize, usize)]) -> bool {
    if tpdu < 128 || tpdu > 8_192 {
        return false;
    }
    let mut cut = fragments(len, tpdu);
    for part in wanted {
        if cut.next() != Some(*part) {
            return false;
        }
    }
    cut.next() == None
}

/// Reports whether a case holds.
fn holds(case: &Case) -> bool {
    match case {
        Case::Read(body, wanted) => read_tpdu(body) == *wanted,
        Case::Data(last, user, size, octets) => is_data(*last, user, *size, octets),
        Case::Cut(len, tpdu, wanted) => is_cut(*len, *tpdu, wanted),
    }
}

/// The number of the first case that doesn't hold.
fn unmet(cases: &[Case]) -> Option<usize> {
    for (number, case) in cases.iter().enumerate() {
        if !holds(case) {
            return Some(number);
        }
    }
    None
}

/// TPDUs are read and written, and messages are cut, as the cases say.
#[test]
fn tpdus_are_read_and_written(rt: HostRuntime) {
    all_hold(&rt, unmet(CASES));
}
