//! The table of word lengths.
ghost use Rattle.std.specs.Prelude.{◌≡◌, ◌≤◌, IfSome};
ghost use Rattle.s7_item.specs.Word.{size_of, transport_of, is_transport, counts_bits};

use crate::codes::{
    BIT, BIT_TRANSPORT, BYTE, BYTE_TRANSPORT, CHARACTER, COUNTERS, DOUBLE_INTEGER, DOUBLE_WORD,
    INTEGER, INTEGER_TRANSPORT, OCTET_TRANSPORT, REAL, REAL_TRANSPORT, TIMERS, WORD,
};

/// The number of octets of an element of this word length: 1 for bits (01), bytes (02) and characters (03); 2 for
/// words (04), integers (05), counters (1C) and timers (1D); 4 for double words (06), double integers (07) and
/// reals (08). `None` for every other word length.
#[tactic(auto, unfolding(crate::specs::Word::size_of))]
pub fn size_of(word: u8) -> Option<u16>
    ensures size { result ≡ size_of word }
    ensures most { IfSome result (λ size. size ≤ 4) }
{
    match word {
        BIT | BYTE | CHARACTER => Some(1),
        WORD | INTEGER | COUNTERS | TIMERS => Some(2),
        DOUBLE_WORD | DOUBLE_INTEGER | REAL => Some(4),
        _ => None,
    }
}

/// The transport size with which a data item of this word length is sent: 03 for bits; 04 for bytes, words and
/// double words; 05 for integers and double integers; 07 for reals; 09 for characters, counters and timers. 00 for
/// a word length that `size_of` doesn't know.
#[tactic(auto, unfolding(crate::specs::Word::transport_of))]
pub fn transport_of(word: u8) -> u8
    ensures { result ≡ transport_of word }
{
    match word {
        BIT => BIT_TRANSPORT,
        BYTE | WORD | DOUBLE_WORD => BYTE_TRANSPORT,
        INTEGER | DOUBLE_INTEGER => INTEGER_TRANSPORT,
        REAL => REAL_TRANSPORT,
        CHARACTER | COUNTERS | TIMERS => OCTET_TRANSPORT,
        _ => 0x00,
    }
}

/// Whether a data item may have this transport size.
#[tactic(auto, unfolding(crate::specs::Word::is_transport, crate::specs::Word::counts_bits))]
pub(crate) fn is_transport(transport: u8) -> bool
    ensures { result ≡ is_transport transport }
{
    counts_bits(transport) || transport == REAL_TRANSPORT || transport == OCTET_TRANSPORT
}

/// Whether the stated length of a data item with this transport size counts bits.
#[tactic(auto, unfolding(crate::specs::Word::counts_bits))]
pub(crate) fn counts_bits(transport: u8) -> bool
    ensures { result ≡ counts_bits transport }
{
    matches!(
        transport,
        BIT_TRANSPORT | BYTE_TRANSPORT | INTEGER_TRANSPORT
    )
}
