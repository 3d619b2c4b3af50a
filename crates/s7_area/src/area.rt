//! The octets of one area.
ghost use Rattle.std.specs.Prelude.{◌≡◌, false, length, IsTrue};
ghost use Rattle.s7_item.specs.Item.{octet_count};
ghost use Rattle.s7_area.specs.Places.{is_misfit, is_inside, changed_at};

use crate::place::write_place;
use s7_item::Item;
use s7_outer::Octets;
use std::marker::Model;

/// The octets of one area.
#[derive(Clone, Drop)]
pub(crate) struct Area {
    octets: Vec<u8>,
}

impl Model for Area {
    ghost use Rattle.std.specs.Prelude.{List, ℕ};

    ghost Value = { List ℕ };

    ghost view = { λ a. a.octets.items };
}

impl Area {
    /// An area with these octets.
    pub(crate) fn new(octets: Octets) -> Area
        ensures { result ≡ octets }
    {
        Area {
            octets: octets.into_vec(),
        }
    }

    /// The octets, borrowed.
    pub(crate) fn as_slice(&self) -> &[u8]
        ensures { result.now ≡ self.now }
    {
        self.octets.as_slice()
    }

    /// The octets, handed back.
    pub(crate) fn into_octets(self) -> Octets
        ensures { result ≡ self }
    {
        Octets::of_vec(self.octets)
    }

    /// Copies the octets of an area of the same length.
    pub(crate) fn overwrite(&mut self, from: &Area)
        requires { length from.now ≡ length self.old }
        ensures { self.new ≡ from.now }
    {
        let area = self.octets.as_mut_slice();
        area.copy_from_slice(from.octets.as_slice());
    }

    /// Writes octets to the range of an item.
    pub(crate) fn write(&mut self, item: &Item, octets: &[u8])
        requires fits { is_misfit item.now ≡ false }
        requires inside { IsTrue (is_inside item.now (length self.old)) }
        requires count { length octets.now ≡ octet_count item.now }
        ensures changed { self.new ≡ changed_at item.now octets.now self.old }
        ensures len { length self.new ≡ length self.old }
    {
        let area = self.octets.as_mut_slice();
        write_place(item, octets, area);
    }
}
