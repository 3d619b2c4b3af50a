//! A watcher of tags.
ghost use Rattle.std.specs.Prelude.{◌≡◌, ◌<◌, ◌≤◌, ◌+◌, ◌∷◌, [], length, None, IfOk, OnOk, OnErr};
ghost use Rattle.std.specs.Option.{ForSome};
ghost use Rattle.s7_watch.specs.Looks.{look_at, look_count};
ghost use Rattle.s7_watch.specs.Lines.{failed_line, look_lines, result_text, samples_of, with_samples};
ghost use Rattle.s7_watch.specs.Watching.{Hands, IsOut, IsReadOf, after_result, fresh};

use crate::lines::add_failed;
use crate::reads::{MOST_TAGS, add_lines, items_of, looked, see_all, watch_all};
use crate::watched::Watched;
use s7_client::{Job, JobResult};
use s7_outer::{Memory, Octets};
use s7_symbol::Tags;
use std::alloc::Global;

/// A read: its round, and its number in the round, from 0 on.
#[derive(Clone, Copy)]
pub(crate) struct Out {
    pub(crate) round: u64,
    pub(crate) number: usize,
}

/// A watcher of tags. Its jobs are rounds of reads of all tags, with at most twenty tags a read. A sample is the return
/// code of a tag's item and the octets that were read. The watcher gives the line of each sample that is the first of
/// its tag or differs from the last one.
#[derive(Drop)]
pub struct Watch {
    pub(crate) watched: Vec<Watched>,
    /// The round of the next read, and its number in the round.
    pub(crate) round: u64,
    pub(crate) number: usize,
    /// The number of rounds whose last read wasn't handed out; 0 after a read that failed.
    pub(crate) left: u32,
    /// The read whose job was handed out, until its result is taken.
    pub(crate) out: Option<Out>,
    ghost next_fits: { number < look_count (length watched.items) },
    ghost out_fits: { ForSome out (λ read. read.number < look_count (length watched.items)) },
    ghost rounds_fit: { round + left ≤ 4294967296 },
}

impl Watch {
    ghost use Rattle.s7_watch.specs.WatchShown.{look_out, tags_of, watch_told};

    /// A watcher before its first round. `tags` has at least one tag. Room for one sample of each tag is allocated
    /// here. Returns `Memory` if an allocation fails.
    pub fn new(alloc: Global, tags: &Tags, rounds: u32) -> Result<Watch, Memory>
        requires { 0 < length tags.now }
        ensures { IfOk result (λ watch. watch_told watch ≡ fresh tags.now rounds) }
    {
        let watched = watch_all(alloc, tags.as_slice())?;
        Ok(Watch {
            watched,
            round: 1,
            number: 0,
            left: rounds,
            out: None,
        })
    }

    /// The job of the next read. `None` exactly if the jobs of all reads were handed out, or a read failed. Returns
    /// `Memory` if the allocation for the job fails; then the watcher is unchanged.
    pub fn job(&mut self, alloc: Global) -> Result<Option<Job>, Memory>
        ensures ok { IfOk result (λ given.
            Hands (watch_told self.old).ahead (watch_told self.old) (watch_told self.new) given) }
        ensures err { OnErr result (watch_told self.new ≡ watch_told self.old) }
    {
        if self.left == 0 {
            return Ok(None);
        }
        let items = items_of(alloc, looked(self.watched.as_slice(), self.number))?;
        self.out = Some(Out {
            round: self.round,
            number: self.number,
        });
        self.pass();
        Ok(Some(Job::ReadMany { items }))
    }

    /// Goes on to the read after the next one.
    fn pass(&mut self)
        requires { 0 < self.old.left }
        ensures ahead { (watch_told self.old).ahead
            ≡ look_at (tags_of self.old) self.old.round self.old.number ∷ (watch_told self.new).ahead }
        ensures watched { self.new.watched ≡ self.old.watched }
        ensures out { self.new.out ≡ self.old.out }
    {
        if self.number + 1 < self.watched.len().div_ceil(MOST_TAGS) {
            self.number += 1;
        } else {
            self.number = 0;
            self.round += 1;
            self.left -= 1;
        }
    }

    /// The lines of the result of the read whose job was handed out last. Returns `Memory` if an allocation fails; then
    /// the watcher is unchanged, and the same result may be taken again.
    pub fn take(&mut self, alloc: Global, told: &JobResult) -> Result<Octets, Memory>
        requires out { IsOut (watch_told self.old).out told.now.job }
        requires form { told.now.code ≡ 0
            → ForSome (watch_told self.old).out (λ look. IsReadOf look.tags told.now) }
        ensures lines { ForSome (watch_told self.old).out (λ look.
            IfOk result (λ text. text ≡ result_text look (watch_told self.old).lasts told.now)) }
        ensures after { ForSome (watch_told self.old).out (λ look.
            OnOk result (watch_told self.new ≡ after_result look told.now (watch_told self.old))) }
        ensures err { OnErr result (watch_told self.new ≡ watch_told self.old) }
    {
        let Some(out) = self.out else {
            unreachable!();
        };
        if told.code == 0 {
            self.take_read(alloc, out, told)
        } else {
            self.take_failed(alloc, out, told.code)
        }
    }

    /// The lines of the samples of a read. The samples are kept as the last ones of their tags.
    fn take_read(&mut self, alloc: Global, out: Out, told: &JobResult) -> Result<Octets, Memory>
        requires number { out.number < look_count (length self.old.watched.items) }
        requires form { IsReadOf (look_out (tags_of self.old) out).tags told.now }
        ensures lines { IfOk result (λ text. text ≡ look_lines (look_out (tags_of self.old) out)
            (watch_told self.old).lasts (samples_of (look_out (tags_of self.old) out) told.now)) }
        ensures after { OnOk result (watch_told self.new ≡ record (watch_told self.old) {
          lasts = with_samples (watch_told self.old).lasts (look_out (tags_of self.old) out).first
              (samples_of (look_out (tags_of self.old) out) told.now);
          out = None;
        }) }
        ensures err { OnErr result (watch_told self.new ≡ watch_told self.old) }
    {
        let codes = &told.codes[..usize::from(told.count)];
        let octets = told.octets.as_slice();
        let mut text = Vec::new(alloc);
        let read = looked(self.watched.as_slice(), out.number);
        add_lines(alloc, &mut text, out.round, read, codes, octets)?;
        see_all(self.watched.as_mut_slice(), out.number, codes, octets);
        self.out = None;
        Ok(Octets::of_vec(text))
    }

    /// The line of a read that failed. No read is left after it.
    fn take_failed(&mut self, alloc: Global, out: Out, code: u32) -> Result<Octets, Memory>
        ensures lines { IfOk result (λ text. text ≡ failed_line out.round code) }
        ensures after { OnOk result (watch_told self.new
            ≡ record (watch_told self.old) { ahead = []; out = None }) }
        ensures err { OnErr result (watch_told self.new ≡ watch_told self.old) }
    {
        let mut text = Vec::new(alloc);
        add_failed(alloc, &mut text, out.round, code)?;
        self.left = 0;
        self.out = None;
        Ok(Octets::of_vec(text))
    }
}
