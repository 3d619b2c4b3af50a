//! Rows of the clock and of controls.

/// Of a plant: by how many milliseconds its clock is ahead, a read of the clock at a moment, and the clock octets. The
/// moment 1709214330123 is Thursday, 2024-02-29, 13:45:30.123. At that moment a clock that is 762529530124 milliseconds
/// slow shows the last millisecond of 1999, a Friday. The first day of 1990 is a Monday, the last day of 2089 a
/// Saturday.
pub(crate) const CLOCKS: &str = "\
    ahead 0\n\
    owner clock 1709214330123 | 0 - 0019.240229.134530.1235\n\
    owner clock 0 | 0 - 0019.900101.000000.0002\n\
    owner clock 631151999999 | 0 - 0019.900101.000000.0002\n\
    owner clock 9223372036854775808 | 0 - 0019.891231.235959.9997\n\
    owner clock 18446744073709551615 | 0 - 0019.891231.235959.9997\n\
    ahead -762529530124\n\
    owner clock 1709214330123 | 0 - 0019.991231.235959.9996\n\
    ahead 1\n\
    owner clock 0 | 0 - 0019.900101.000000.0012\n\
    ahead -1\n\
    owner clock 18446744073709551615 | 0 - 0019.891231.235959.9987\n\
    ahead 9223372036854775807\n\
    owner clock 1709214330123 | 0 - 0019.891231.235959.9997\n\
    ahead -9223372036854775808\n\
    owner clock 1709214330123 | 0 - 0019.900101.000000.0002";

/// Of a book: controls by a link, and what the plant showed after each entry.
pub(crate) const IMAGES: &str = "\
    7 stop | 0 | 0 2900 -\n\
    7 set 1709214330123 946684799999 | 1 | 0 - -\n\
    7 start | 2 | 0 2800 -\n\
    7 compress | 3 | 0 2800 -\n\
    image 0 | runs 0\n\
    image 1 | stands 0\n\
    image 2 | stands -762529530124\n\
    image 3 | runs -762529530124\n\
    image 4 | runs -762529530124";
