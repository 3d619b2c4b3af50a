//! Laws of watchers. They do nothing at run time.
ghost use Rattle.s7_watch.specs.Laws.{ResultsGiveLines};

/// A law: the lines of results that are taken one after another are those of all results in order, up to the first that
/// failed.
pub fn results_give_lines()
    ensures { ResultsGiveLines }
{}
