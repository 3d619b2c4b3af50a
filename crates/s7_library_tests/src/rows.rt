//! The end of a test over the rows of a table or of texts.
use std::process::Abort;

/// Ends the test with the number of a row that doesn't hold, if there is one.
pub(crate) fn all_hold(rt: &impl Abort, unmet: Option<usize>) {
    assert!(rt;
        unmet.is_none(),
        "the first row that doesn't hold is {unmet:?}"
    );
}

/// Ends the test with a row that doesn't hold and the number of its line that doesn't, if there is one.
pub(crate) fn all_forms_hold(rt: &impl Abort, unmet: Option<(&'static str, usize)>) {
    assert!(rt;
        unmet.is_none(),
        "the first row that doesn't hold is {unmet:?}"
    );
}
