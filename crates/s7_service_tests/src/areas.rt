//! Rows of plants and of books with areas.

/// Data block 1 with four octets, and counters with the values 1 and 2.
pub(crate) const AREAS: &str = "area 84 1 11223344\narea 1C 0 00010002";

/// Of a plant: the parameters and the answer of each read. The reads are of two octets; of two octets of which one lies
/// after the end; of another block, of no octet, and of an unknown word length; of two items; of a counter; of a bit.
pub(crate) const READS: &str = "\
    owner read 0401.120A10020002000184000010 | 0 0401 FF0400103344\n\
    owner read 0401.120A10020002000184000018 | 0 0401 05000000\n\
    owner read 0403.120A10020001000284000000.120A10020000000184000000.120A10090001000184000000 | \
        0 0403 0A000000.05000000.06000000\n\
    owner read 0402.120A10020001000184000000.120A10020001000184000008 | 0 0402 FF04000811.00FF04000822\n\
    owner read 0401.120A101C000100001C000001 | 0 0401 FF0900020002\n\
    owner read 0401.120A10010001000184000004 | 0 0401 FF03000101";

/// Of a plant: the parameters, the data and the answer of a write of three items, whose second lies outside of data
/// block 1. After `asks` the block holds what it held before, and after `owner` what was written.
pub(crate) const WRITES: &str = "\
    asks write 0503.120A10020001000184000000.120A10020001000184000020.120A10020001000184000018 \
        00040008AA00.00040008BB00.00040008CC | 0 0503 FF05FF\n\
    holds 84 1 11223344\n\
    owner write 0503.120A10020001000184000000.120A10020001000184000020.120A10020001000184000018 \
        00040008AA00.00040008BB00.00040008CC | 0 0503 FF05FF\n\
    holds 84 1 AA2233CC";

/// Of a book: a write at octet 0 of data block 1, a read of the whole block by another link, and a write at octet 3.
/// Then what data block 1 held after each entry.
pub(crate) const STEPS: &str = "\
    7 write 0501.120A10020001000184000000 00040008AA | 0 | 0 0501 FF\n\
    8 read 0401.120A10020004000184000000 | 1 | 0 0401 FF040020AA223344\n\
    7 write 0501.120A10020001000184000018 00040008CC | 2 | 0 0501 FF\n\
    links 7 8 7\n\
    opening | holds 84 1 11223344\n\
    now | holds 84 1 AA2233CC\n\
    image 0 | holds 84 1 11223344\n\
    image 1 | holds 84 1 AA223344\n\
    image 2 | holds 84 1 AA223344\n\
    image 3 | holds 84 1 AA2233CC";

/// Of a book: a write of three items makes one entry, and the images before and after it have none and all of it.
pub(crate) const WRITTEN: &str = "\
    7 write 0503.120A10020001000184000000.120A10020001000184000020.120A10020001000184000018 \
        00040008AA00.00040008BB00.00040008CC | 0 | 0 0503 FF05FF\n\
    links 7\n\
    image 0 | holds 84 1 11223344\n\
    image 1 | holds 84 1 AA2233CC";

/// Of a book that takes one entry: a read, and a write that is handed back.
pub(crate) const FULL: &str = "\
    7 read 0401.120A10020004000184000000 | 0 | 0 0401 FF04002011223344\n\
    7 write 0501.120A10020001000184000000 00040008AA | full | 0 0401 FF04002011223344\n\
    links 7\n\
    now | holds 84 1 11223344";
