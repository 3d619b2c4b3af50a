//! Wrong scripts: their first wrong lines, and the faults of these.
use crate::wrong_lines::{Row, Wrong};
use s7_script::ScriptKind;

/// The first wrong lines of scripts.
pub(crate) const WRONG_LINES: &[Row] = &[
    (
        1,
        Wrong::Script(ScriptKind::Word),
        "raed DB1 byte 0 1|\
         get Speed|\
         put Speed 1|\
         \x20read DB1 byte 0 1|\
         Read DB1 byte 0 1|\
         read |\
         read  DB1 byte 0 1|\
         read XX byte 0 1|\
         read PE1 byte 0 1|\
         read db1 byte 0 1|\
         read DB1 bytes 0 1|\
         readmany |\
         readmany DB1 byte 0 1 ; |\
         Stop|\
         password a\x07|\
         password \x7F|\
         passwort x|\
         listof |\
         listof db|\
         listof DB1|\
         listof PE|\
         info XB|\
         upload XB 1",
    ),
    (
        1,
        Wrong::Script(ScriptKind::Fields),
        "read|\
         read DB1|\
         read DB1 byte|\
         read DB1 byte 0|\
         read DB1 byte 0 1 2|\
         read DB1 byte 0 1 |\
         write|\
         write DB1 byte 0|\
         write DB1 word 0 112233|\
         write DB1 dword 0 112233445566|\
         write DB1 byte 0 11 22|\
         readmany|\
         readmany DB1 byte 0 1 ; PE byte 0|\
         readmany DB1 byte 0 ; PE byte x 1|\
         writemany|\
         szl|\
         szl 0011|\
         szl 0011 0000 1|\
         clock 1|\
         start x|\
         status |\
         setclock|\
         setclock 2024-02-29T13:45:30.123 x|\
         password|\
         password a b|\
         list |\
         list DB|\
         listof|\
         listof DB 1|\
         info|\
         info DB|\
         info DB 1 2|\
         upload|\
         download|\
         download 7070 70|\
         delete FC|\
         delete FC 5 5|\
         dbget|\
         dbget 1 00|\
         dbfill 1|\
         dbfill 1 00 11",
    ),
    (
        1,
        Wrong::Script(ScriptKind::Number),
        "read DB byte 0 1|\
         read DB0 byte 0 1|\
         read DB65536 byte 0 1|\
         read DB+1 byte 0 1|\
         read DBx bytes|\
         read DB1 byte x|\
         read DB1 byte 0.1 1|\
         read DB1 byte 2097152 1|\
         read DB1 byte 00000000000 1|\
         read DB1 bit 0 1|\
         read DB1 bit 0.8 1|\
         read DB1 bit 2097152.0 1|\
         read DB1 bit .0 1|\
         read DB1 bit 0. 1|\
         read DB1 bit 0.0.0 1|\
         read CT counter 16777216 1|\
         read TM bit 0.0 1|\
         read DB1 byte 0 65536|\
         read DB1 byte 0 x 2|\
         readmany DB1 byte 0 1;PE byte 0 1|\
         setclock 2024-02-29|\
         setclock 2024-02-30T00:00:00.000|\
         setclock 1989-12-31T23:59:59.999|\
         setclock 2090-01-01T00:00:00.000|\
         setclock 2024-02-29T24:00:00.000|\
         setclock 2024-02-29 13:45:30.123|\
         setclock 2024-02-29T13:45:30.12a|\
         info DB |\
         info DB x 1|\
         info DB 65536|\
         info DB 00000000001|\
         upload DB 65536|\
         delete FC -1|\
         dbget 0|\
         dbget 65536|\
         dbfill x 1",
    ),
    (
        1,
        Wrong::Script(ScriptKind::Digits),
        "write DB1 byte 0 |\
         write DB1 byte 0 1|\
         write DB1 byte 0 1g|\
         writemany DB1 byte 0 11 ; DB1 byte 1 2|\
         szl 011 0000|\
         szl 00g1 0000|\
         szl 001100 0000|\
         szl 0011 00|\
         szl 0011 |\
         download |\
         download 707|\
         download 70x0|\
         dbfill 1 1|\
         dbfill 1 0011",
    ),
    (
        4,
        Wrong::Script(ScriptKind::Number),
        "# x\n\nread DB1 byte 0 1\r\nread DB1 byte 0 1\r2\n",
    ),
    (2, Wrong::Script(ScriptKind::Word), "read DB1 byte 0 1\n \n"),
    (
        2,
        Wrong::Script(ScriptKind::Digits),
        "read DB1 byte 0 1\nwrite DB1 byte 0 1\nraed\n",
    ),
];
