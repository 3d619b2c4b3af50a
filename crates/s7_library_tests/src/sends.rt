//! Wrong sends files: their first wrong lines, and the faults of these.
use crate::wrong_lines::{Row, Wrong};
use s7_script::ScriptKind;

/// The first wrong lines of sends files.
pub(crate) const WRONG_LINES: &[Row] = &[
    (
        1,
        Wrong::Sends(ScriptKind::Word),
        "sent 00000001 aa|\
         Send 00000001 aa|\
         \x20send 00000001 aa|\
         read",
    ),
    (
        1,
        Wrong::Sends(ScriptKind::Fields),
        "send|\
         send 00000001|\
         send 00000001 aa |\
         send 00000001 aa bb",
    ),
    (
        1,
        Wrong::Sends(ScriptKind::Digits),
        "send |\
         send  00000001 aa|\
         send 0000001 aa|\
         send 000001 aa|\
         send 0000000001 aa|\
         send 0000000g aa|\
         send 0000000g|\
         send 00000001 |\
         send 00000001 a|\
         send 00000001 ag|\
         send 00000001 a aa",
    ),
    (
        4,
        Wrong::Sends(ScriptKind::Digits),
        "# x\n\nsend 00000001 aa\r\nsend 00000001 aa\rbb\n",
    ),
    (2, Wrong::Sends(ScriptKind::Word), "send 00000001 aa\n \n"),
    (
        2,
        Wrong::Sends(ScriptKind::Fields),
        "send 00000001 aa\nsend 00000001\nsent\n",
    ),
];
