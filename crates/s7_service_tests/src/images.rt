//! Rows of books that keep an image of the plant after each 4,096th entry.

/// Each write stores its number, counted from 0 and modulo 256, in the first octet. The images are those before the
/// kept image, at it, after it, and at the end.
pub(crate) const WRITTEN: &str = "\
    writes 5000\n\
    opening | holds 84 1 11223344\n\
    now | holds 84 1 87223344\n\
    image 0 | holds 84 1 11223344\n\
    image 1 | holds 84 1 00223344\n\
    image 4095 | holds 84 1 FE223344\n\
    image 4096 | holds 84 1 FF223344\n\
    image 4097 | holds 84 1 00223344\n\
    image 5000 | holds 84 1 87223344\n\
    2 write 0501.120A10020001000184000000 00040008BB | full | 0 0501 FF\n\
    image 4096 | holds 84 1 FF223344";

/// The last entry before the first kept image inserts a function. The first entry after that image stops the plant, and
/// the next one deletes the function. Before and after these three there are only writes.
pub(crate) const LOADED: &str = "\
    writes 4095\n\
    2 insert 43 5 70700101.01.0C.0005.00000026.00*22.0002.BBBB | 4095 | 0 2800 -\n\
    2 stop | 4096 | 0 2900 -\n\
    2 delete 43 5 | 4097 | 0 2800 -\n\
    writes 4095\n\
    image 4095 | without 43 5\n\
    image 4096 | last 43 5 BB\n\
    image 4096 | runs 0\n\
    image 4097 | last 43 5 BB\n\
    image 4097 | stands 0\n\
    image 4098 | without 43 5\n\
    image 4098 | holds 84 1 FE223344\n\
    image 8191 | holds 84 1 FC223344\n\
    image 8192 | holds 84 1 FD223344\n\
    image 8192 | without 43 5\n\
    image 8192 | stands 0\n\
    image 8193 | holds 84 1 FE223344";
