//! Tags: names for places in areas, with the types of their values.
ghost use Rattle.std.specs.Prelude.{◌≡◌};

use crate::kind::TagKind;
use s7_item::Item;
use s7_outer::Octets;
use std::marker::Model;

/// A tag: a name of 1 to 32 ASCII letters, digits or `_`, and a bit or a number of bytes of an area.
#[derive(Debug, Drop)]
pub struct Tag {
    pub name: Octets,
    pub kind: TagKind,
    pub item: Item,
}

/// The tags of a file, at most 2,048, in order, with different names. Contracts see them as a list.
#[derive(Debug, Drop)]
pub struct Tags {
    tags: Vec<Tag>,
}

impl Model for Tags {
    ghost use Rattle.std.specs.Prelude.{List};
    ghost use Rattle.s7_symbol.specs.declared.tag.Tag.{Tag};

    ghost Value = { List Tag };

    ghost view = { λ t. t.tags.items };
}

impl Tags {
    /// The tags of a vector, which isn't copied.
    pub(crate) fn of_vec(tags: Vec<Tag>) -> Tags
        ensures { result ≡ tags.items }
    {
        Tags { tags }
    }

    /// The tags, borrowed.
    pub fn as_slice(&self) -> &[Tag]
        ensures { result.now ≡ self.now }
    {
        self.tags.as_slice()
    }
}
