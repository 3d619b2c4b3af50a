//! Wrong area files: their first wrong lines, and the faults of these.
use crate::wrong_lines::{Row, Wrong};
use s7_area::RegisterFault;
use s7_script::AreasKind;

/// The first wrong lines of area files.
pub(crate) const WRONG_LINES: &[Row] = &[
    (
        1,
        Wrong::Areas(AreasKind::Head),
        "|\
         s7 areas 3\n|\
         \ns7 areas 1\n|\
         s7 areas 1\r|\
         s7 areas 2 \n",
    ),
    (
        5,
        Wrong::Areas(AreasKind::Ended),
        "s7 areas 1\nDB 1 4\n1122\n33|\
         s7 areas 2\nDB 1 4\n1122\n33\n",
    ),
    (
        4,
        Wrong::Areas(AreasKind::Line),
        "s7 areas 1\n\n# x\nMB 1 4\n|\
         s7 areas 1\nDB 1 1\n11\nprotect 2 AB\n|\
         s7 areas 2\nDB 1 1\n11\nprotect x\n|\
         s7 areas 2\nDB 1 2\n11\nprotect 2 AB\n",
    ),
    (
        2,
        Wrong::Areas(AreasKind::Line),
        "s7 areas 2\nPE\n|\
         s7 areas 1\nPE 1 1\n|\
         s7 areas 1\nDB 1\n|\
         s7 areas 1\nDB 1 4 \n|\
         s7 areas 1\nprotect\n|\
         s7 areas 1\nprotect 2\n|\
         s7 areas 2\nprotect 2 \n|\
         s7 areas 1\nprotect 2  AB\n|\
         s7 areas 2\nprotect 2 AB CD\n|\
         s7 areas 1\nprotect 2 AB \n|\
         s7 areas 1\nprotect 3 123456789\n|\
         s7 areas 2\nprotect 2 A\tB\n|\
         s7 areas 1\nprotect 2 A\u{7F}\n|\
         s7 areas 1\nPROTECT 2 AB\n",
    ),
    (
        2,
        Wrong::Areas(AreasKind::Number),
        "s7 areas 1\nDB x\n|\
         s7 areas 1\r\nDB 0 4\n|\
         s7 areas 2\nDB 65536 4\n|\
         s7 areas 1\nDB 1  4\n|\
         s7 areas 1\nPE +1\n|\
         s7 areas 1\nPE 00000000001\n|\
         s7 areas 2\nprotect \n|\
         s7 areas 1\nprotect 4\n|\
         s7 areas 1\nprotect 1 AB\n|\
         s7 areas 2\nprotect 4 AB CD\n|\
         s7 areas 1\nprotect x AB\n|\
         s7 areas 1\nprotect  2 AB\n|\
         s7 areas 1\nprotect 00000000002 AB\n",
    ),
    (
        2,
        Wrong::Areas(AreasKind::Register(RegisterFault::Size)),
        "s7 areas 1\nPE 9999999999\n|\
         s7 areas 1\nPE 0\n|\
         s7 areas 2\nPE 2097153\n|\
         s7 areas 1\nCT 3\n001122\n",
    ),
    (
        3,
        Wrong::Areas(AreasKind::Ended),
        "s7 areas 1\nPE 2097152\n",
    ),
    (
        3,
        Wrong::Areas(AreasKind::Digits),
        "s7 areas 1\nDB 1 2\n112\n|\
         s7 areas 1\nDB 1 2\n1g\n|\
         s7 areas 1\nDB 1 5\n5*00\n|\
         s7 areas 1\nDB 1 5\n0*00\n|\
         s7 areas 2\nDB 1 5\n5*\n|\
         s7 areas 2\nDB 1 5\n5*0\n|\
         s7 areas 2\nDB 1 5\n5*000\n|\
         s7 areas 2\nDB 1 5\n5*0000\n|\
         s7 areas 2\nDB 1 5\n6*gg\n|\
         s7 areas 2\nDB 1 5\n5*0*0\n|\
         s7 areas 2\nDB 1 5\n5* 00\n|\
         s7 areas 2\nDB 1 5\n112\n",
    ),
    (
        4,
        Wrong::Areas(AreasKind::Length),
        "s7 areas 1\nDB 1 2\n11\n2233\n",
    ),
    (
        5,
        Wrong::Areas(AreasKind::Register(RegisterFault::Exists)),
        "s7 areas 1\nDB 1 1\n11\n\nDB 1 2\n22\n33\n",
    ),
    (
        5,
        Wrong::Areas(AreasKind::Line),
        "s7 areas 1\nprotect 2 AB\n\n# x\nprotect 2 AB\n",
    ),
    (
        3,
        Wrong::Areas(AreasKind::Line),
        "s7 areas 2\nprotect 2 AB\nprotect 4\n",
    ),
    (
        3,
        Wrong::Areas(AreasKind::Number),
        "s7 areas 2\nDB 1 5\n0*00\n|\
         s7 areas 2\nDB 1 5\n*00\n|\
         s7 areas 2\nDB 1 5\n*\n|\
         s7 areas 2\nDB 1 5\nx*gg\n|\
         s7 areas 2\nDB 1 5\n5 *00\n|\
         s7 areas 2\nDB 1 5\n00000000005*00\n|\
         s7 areas 2\nDB 1 5\n99999999999*00\n",
    ),
    (
        3,
        Wrong::Areas(AreasKind::Length),
        "s7 areas 2\nDB 1 5\n6*00\n|\
         s7 areas 2\nDB 1 5\n4294967296*00\n|\
         s7 areas 2\nDB 1 5\n9999999999*00\n",
    ),
    (
        5,
        Wrong::Areas(AreasKind::Length),
        "s7 areas 2\nDB 1 5\n3*00\n\n3*00\n",
    ),
    (
        4,
        Wrong::Areas(AreasKind::Ended),
        "s7 areas 2\nDB 1 5\n4*00\n",
    ),
];
