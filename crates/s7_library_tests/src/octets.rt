//! The words of texts on partners: numbers and octets.
use crate::words::{add_pattern, add_word, number};
use std::alloc::Global;

/// Octets that have names.
const NAMED: &str = "
    # A connect request for rack 0 and slot 1, and its confirm.
    request 0300001611e00000000100c0010ac1020100c2020201
    confirm 0300001611d00001000100c0010ac1020100c2020201
    # The negotiation of PDU 480 and one job, and its answer.
    asked 0300001902f08032010000000100080000f0000001000101e0
    granted 0300001b02f080320300000001000800000000f0000001000101e0
    # The one fragment of AA BB CC under R_ID 1 and sequence 2, and its acknowledgement.
    fragment 0300002e02f080320700000002000c0011000112081246010001000000ff09000d12061300000000010003aabbcc
    taken 0300002102f080320700000002000c00040001120812860100010000000a000000
    # An acknowledgement of sequence 3, and one of number 2.
    taken_other 0300002102f080320700000003000c00040001120812860100010000000a000000
    taken_second 0300002102f080320700000002000c00040001120812860100020000000a000000
    # The first fragment of AA BB CC DD, with two octets, and the last one.
    begun 0300002d02f080320700000002000c0010000112081246010001010000ff09000c12061300000000010004aabb
    ended 0300002b02f080320700000003000c000e000112081246010001000000ff09000a1206130000000001ccdd
    # The last fragment with the number 2, with the R_ID 2, with one octet, and with none and more to follow.
    of_another_send 0300002b02f080320700000003000c000e000112081246010002000000ff09000a1206130000000001ccdd
    of_another_block 0300002b02f080320700000003000c000e000112081246010001000000ff09000a1206130000000002ccdd
    too_few 0300002a02f080320700000003000c000d000112081246010001000000ff0900091206130000000001cc
    none_and_more 0300002902f080320700000003000c000c000112081246010001010000ff0900081206130000000001
    # The acknowledgement of the last fragment of AA BB CC DD.
    taken_third 0300002102f080320700000003000c00040001120812860100010000000a000000
    # A fragment of four octets of a block of three.
    passing 0300002f02f080320700000002000c0012000112081246010001010000ff09000e12061300000000010003aabbccdd
    # The negotiation of PDU 64 and one job, and its answer.
    asked_64 0300001902f08032010000000100080000f000000100010040
    granted_64 0300001b02f080320300000001000800000000f000000100010040
    # The three fragments of the octets from 00 to 3B at this PDU, and their acknowledgements.
    piece_1 0300004702f080320700000002000c002a000112081246010001010000ff0900261206130000000001003c\
        000102030405060708090a0b0c0d0e0f101112131415161718191a1b
    piece_2 0300004502f080320700000003000c0028000112081246010001010000ff0900241206130000000001\
        1c1d1e1f202122232425262728292a2b2c2d2e2f3031323334353637
    piece_3 0300002d02f080320700000004000c0010000112081246010001000000ff09000c120613000000000138393a3b
    taken_1 0300002102f080320700000002000c00040001120812860100010000000a000000
    taken_2 0300002102f080320700000003000c00040001120812860100010000000a000000
    taken_3 0300002102f080320700000004000c00040001120812860100010000000a000000
    # A disconnect request, and an error TPDU.
    leaves 0300000b06800001000180
    rejects 030000090470000100
    # The negotiation of PDU 63.
    too_small 0300001902f08032010000000100080000f00000010001003f
    # A message of nine octets.
    short 0300001002f080320700000002000c00
";

/// The first word of a text, and the words after it.
pub(crate) fn cut(text: &str) -> (&str, &str) {
    match text.split_once(' ') {
        Some(pair) => pair,
        None => (text, ""),
    }
}

/// The digits of a name, or the word itself if it isn't a name.
fn digits_of(word: &str) -> &str {
    digits_among(NAMED, word)
}

/// The digits after a name in a text of names, or the word itself if it isn't one of these.
fn digits_among<'a>(names: &'a str, word: &'a str) -> &'a str {
    for line in names.lines() {
        let (name, digits) = cut(line.trim());
        if name == word {
            return digits;
        }
    }
    word
}

/// Adds octets by a name, in hexadecimal digits, or as `#N`, which is the first N octets of the pattern.
fn add_named(alloc: Global, all: &mut Vec<u8>, word: &str) -> Option<()> {
    match word.strip_prefix('#') {
        Some(count) => add_pattern(all, 0, number(count)),
        None => add_word(alloc, all, digits_of(word)),
    }
}

/// The first octets of the pattern, `count` of them.
pub(crate) fn some_octets(alloc: Global, count: u32) -> Option<Vec<u8>> {
    let mut octets = Vec::new(alloc);
    add_pattern(&mut octets, 0, u64::from(count))?;
    Some(octets)
}

/// The octets of each word, one after another.
pub(crate) fn joined(alloc: Global, words: &str) -> Option<Vec<u8>> {
    let mut all = Vec::new(alloc);
    for word in words.split_ascii_whitespace() {
        add_named(alloc, &mut all, word)?;
    }
    Some(all)
}
