//! A tag that is watched, with its last sample.
ghost use Rattle.std.specs.Prelude.{◌≡◌, ◌≤◌, length, None, Some, IfOk};
ghost use Rattle.s7_item.specs.Item.{octet_count};
ghost use Rattle.s7_watch.specs.Samples.{is_new};

use s7_outer::{Buffer, Memory, Octets};
use s7_symbol::Tag;
use std::alloc::Global;

/// A tag, and its last sample.
#[derive(Drop)]
pub(crate) struct Watched {
    pub(crate) tag: Tag,
    /// The return code of the last sample, `None` before the first one.
    pub(crate) code: Option<u8>,
    /// The octets of the last sample, in a buffer with room for those of any sample.
    pub(crate) octets: Buffer,
    ghost fits: { octet_count tag.item ≤ octets.room },
}

impl Watched {
    ghost use Rattle.s7_watch.specs.WatchShown.{last_of, tag_in};

    /// A copy of the tag, before its first sample. Returns `Memory` if an allocation fails.
    pub(crate) fn new(alloc: Global, tag: &Tag) -> Result<Watched, Memory>
        ensures tag { IfOk result (λ watched. tag_in watched ≡ tag.now) }
        ensures last { IfOk result (λ watched. last_of watched ≡ None) }
    {
        let name = Octets::copy_of(alloc, tag.name.as_slice())?;
        let octets = Buffer::new(alloc, tag.item.octet_count())?;
        Ok(Watched {
            tag: Tag {
                name,
                kind: tag.kind,
                item: tag.item,
            },
            code: None,
            octets,
        })
    }

    /// Whether a sample is the first one, or differs from the last one.
    pub(crate) fn is_new(&self, code: u8, octets: &[u8]) -> bool
        ensures { result ≡ is_new (last_of self.now) (record { code = code; octets = octets.now }) }
    {
        match self.code {
            Some(last) => !(last == code && self.octets.as_slice() == octets),
            None => true,
        }
    }

    /// Keeps a sample as the last one.
    pub(crate) fn see(&mut self, code: u8, octets: &[u8])
        requires { length octets.now ≤ octet_count self.old.tag.item }
        ensures tag { tag_in self.new ≡ tag_in self.old }
        ensures last { last_of self.new ≡ Some (record { code = code; octets = octets.now }) }
    {
        self.code = Some(code);
        self.octets.clear();
        self.octets.add(octets);
    }
}
