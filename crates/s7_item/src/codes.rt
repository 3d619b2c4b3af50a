//! The codes of read and write telegrams, as in the Snap7 1.4 sources (`s7_types.h`): functions of a
//! job, return codes, areas, word lengths and transport sizes.

/// The function code of a read.
pub const READ_FUNCTION: u8 = 0x04;

/// The function code of a write.
pub const WRITE_FUNCTION: u8 = 0x05;

/// The return code of an item that was read or written.
pub const GOOD: u8 = 0xFF;

/// The octet of a write request at the offset of a return code.
pub const REQUESTED: u8 = 0x00;

/// The return code of an item that the link has no right to read or write.
pub const NOT_ALLOWED: u8 = 0x03;

/// The return code of an item whose range isn't inside the area.
pub const OUT_OF_RANGE: u8 = 0x05;

/// The return code of an item whose word length doesn't fit the area or the count.
pub const WRONG_WORD: u8 = 0x06;

/// The return code of a written item whose data don't have its number of octets.
pub const WRONG_SIZE: u8 = 0x07;

/// The return code of an item whose area doesn't exist.
pub const NO_AREA: u8 = 0x0A;

/// The area of inputs, PE.
pub const INPUTS: u8 = 0x81;

/// The area of outputs, PA.
pub const OUTPUTS: u8 = 0x82;

/// The area of flags, MK.
pub const FLAGS: u8 = 0x83;

/// The area of data blocks, DB.
pub const DATA_BLOCKS: u8 = 0x84;

/// The area of counters, CT. It is also the word length of a counter.
pub const COUNTERS: u8 = 0x1C;

/// The area of timers, TM. It is also the word length of a timer.
pub const TIMERS: u8 = 0x1D;

/// The word length of a bit.
pub const BIT: u8 = 0x01;

/// The word length of a byte.
pub const BYTE: u8 = 0x02;

/// The word length of a character.
pub const CHARACTER: u8 = 0x03;

/// The word length of a word of two octets.
pub const WORD: u8 = 0x04;

/// The word length of an integer of two octets.
pub const INTEGER: u8 = 0x05;

/// The word length of a double word of four octets.
pub const DOUBLE_WORD: u8 = 0x06;

/// The word length of a double integer of four octets.
pub const DOUBLE_INTEGER: u8 = 0x07;

/// The word length of a real of four octets.
pub const REAL: u8 = 0x08;

/// The transport size of a bit. The stated length is 1.
pub const BIT_TRANSPORT: u8 = 0x03;

/// The transport size of bytes, words and double words. The stated length counts bits.
pub const BYTE_TRANSPORT: u8 = 0x04;

/// The transport size of integers and double integers. The stated length counts bits.
pub const INTEGER_TRANSPORT: u8 = 0x05;

/// The transport size of reals. The stated length counts octets.
pub const REAL_TRANSPORT: u8 = 0x07;

/// The transport size of characters, counters and timers. The stated length counts octets.
pub const OCTET_TRANSPORT: u8 = 0x09;
