//! Rows of plants and of books with blocks.

/// Data blocks 1 and 300, and counters. Functions 5 and 258, function block 1 and organization block 1, each with a
/// head and the body AAAA. The codes of the kinds are OB 38, DB 41, SDB 42, FC 43, SFC 44, FB 45 and SFB 46.
pub(crate) const BLOCKS: &str = "\
    area 84 1 11223344\n\
    area 1C 0 00010002\n\
    area 84 12C AB*10\n\
    block 43 5 70700101.02.0C.0005.00000026.00*22.0002.AAAA\n\
    block 45 1 70700101.04.0E.0001.00000026.00*22.0002.AAAA\n\
    block 38 1 70700101.05.08.0001.00000026.00*22.0002.AAAA\n\
    block 43 102 70700101.01.0C.0102.00000026.00*22.0002.AAAA";

/// Of a plant: a block is refused without the right, and stored with it. The image of the stored block stays with the
/// request, and the request's room for a copy is used up.
pub(crate) const TAKEN: &str = "\
    guard 2\n\
    any insert 45 7 70700101.07.0E.0007.00000026.00*22.0002.CCCC | D241 - -\n\
    without 45 7\n\
    owner insert 45 7 70700101.07.0E.0007.00000026.00*22.0002.CCCC | 0 2800 -\n\
    last 45 7 CC";

/// Of a plant: it has as many functions as it takes. One more is refused, one replaces another, and after a deletion
/// one more is stored.
pub(crate) const FULL: &str = "\
    functions 1 1024\n\
    owner insert 43 401 70700101.01.0C.0401.00000026.00*22.0002.CCCC | 8F04 - -\n\
    loaded 1024\n\
    without 43 401\n\
    owner insert 43 7 70700101.01.0C.0007.00000026.00*22.0002.CCCC | 0 2800 -\n\
    owner delete 43 9 | 0 2800 -\n\
    owner insert 43 401 70700101.01.0C.0401.00000026.00*22.0002.CCCC | 0 2800 -\n\
    loaded 1024\n\
    last 43 401 CC";

/// Of a book: inserts and a deletion by a link, and the last octets of function 5 and function block 9 after each
/// entry.
pub(crate) const REPLAYED: &str = "\
    7 insert 43 5 70700101.01.0C.0005.00000026.00*22.0002.BBBB | 0 | 0 2800 -\n\
    7 insert 45 9 70700101.01.0E.0009.00000026.00*22.0002.CCCC | 1 | 0 2800 -\n\
    7 delete 43 5 | 2 | 0 2800 -\n\
    7 insert 43 5 70700101.01.0C.0005.00000026.00*22.0002.BBBB | 3 | 0 2800 -\n\
    image 0 | last 43 5 AA\n\
    image 0 | without 45 9\n\
    image 1 | last 43 5 BB\n\
    image 1 | without 45 9\n\
    image 2 | last 43 5 BB\n\
    image 2 | last 45 9 CC\n\
    image 3 | without 43 5\n\
    image 3 | last 45 9 CC\n\
    image 4 | last 43 5 BB\n\
    image 4 | last 45 9 CC";
