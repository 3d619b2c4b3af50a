//! The numbers of the data blocks.
ghost use Rattle.std.specs.Iterator.{YieldsFirst, item_count};

use crate::area::Area;
use crate::key::AreaKey;
use std::collections::btree_map::Keys;
use std::marker::Model;

/// The numbers of the data blocks, in ascending order, as an iterator. Contracts see the numbers that are left.
#[derive(Drop)]
pub struct DbNumbers<'a> {
    pub(crate) keys: Option<Keys<'a, AreaKey, Area>>,
}

impl<'a> Model for DbNumbers<'a> {
    ghost use Rattle.std.specs.Prelude.{List, ℕ};
    ghost use Rattle.s7_area.specs.Registers.{numbers_left};

    ghost Value = { List ℕ };

    ghost view = { λ d. numbers_left d.keys };
}

impl<'a> Iterator for DbNumbers<'a> {
    type Item = u16;

    ghost next_gives = { YieldsFirst (λ rest. rest) };

    ghost remaining = { item_count (λ rest. rest) };

    fn next(&mut self) -> Option<u16> {
        let keys = self.keys.as_mut()?;
        while let Some(key) = keys.next() {
            if key.is_db() {
                return Some(key.number);
            }
        }
        None
    }
}
