//! Laws of watchers in rigs. They do nothing at run time.
ghost use Rattle.s7_watched.specs.Watched.{RigsShowWatches, WatchesAreSeen};

use s7_rig::rigs_follow;

/// A law: the lines of a watcher's results are those of the samples that the areas held at its entries, whose numbers
/// rise.
pub fn watches_are_seen()
    ensures { WatchesAreSeen }
{}

/// A law: however a rig ran, the lines of the results of a client with a watcher's script are those of the samples that
/// the areas held at its entries.
pub fn rigs_show_watches()
    ensures { RigsShowWatches }
{
    rigs_follow();
    watches_are_seen();
}
