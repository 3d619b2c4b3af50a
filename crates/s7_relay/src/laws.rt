//! Laws of windows and of replies.
ghost use Rattle.s7_relay.specs.Laws.{FarItemsLie, FilesAreOne, NearCodesAreCodes, WindowsHaveTexts};
ghost use Rattle.s7_relay.specs.ReplyLaws.{LateAnswersHaveCauses, LostLinksHaveCauses};
ghost use Rattle.s7_relay.specs.Travel.{FarJobsPassChecks};

/// A law: a windows file states at most one list of windows and has at most one first faulty line, and not both.
pub fn files_are_one()
    ensures { FilesAreOne }
{}

/// A law: the text of windows whose near areas differ states these windows.
pub fn windows_have_texts()
    ensures { WindowsHaveTexts }
{}

/// A law: near codes are the codes of reads and writes in areas without guard that are as long as the windows.
pub fn near_codes_are_codes()
    ensures { NearCodesAreCodes }
{}

/// A law: the far item of an item with the near code FF lies in the far area, further on by the window's offset, at the
/// same bit, and inside the part that the window shows.
pub fn far_items_lie()
    ensures { FarItemsLie }
{}

/// A law: a telegram has the error word 8F05 only if the dial or the link failed, which the count of far faults shows,
/// or the far server ended the link.
pub fn lost_links_have_causes()
    ensures { LostLinksHaveCauses }
{}

/// A law: a telegram has the error word 8F06 only if its connect or its job ended because the far server didn't answer
/// in as many polls as allowed.
pub fn late_answers_have_causes()
    ensures { LateAnswersHaveCauses }
{}

/// A law: a far job that fits into one telegram passes the client's checks.
pub fn far_jobs_pass_checks()
    ensures { FarJobsPassChecks }
{}
