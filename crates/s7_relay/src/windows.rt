//! Windows on areas of another server.
ghost use Rattle.std.specs.Prelude.{◌≡◌, ◌+◌, ◌≤◌, ◌&&◌, true};
ghost use Rattle.s7_area.specs.Registers.{most_octets};
ghost use Rattle.s7_relay.specs.Keys.{has_octets, same_key};

use s7_area::AreaKey;
use std::marker::Model;

/// A near area of `length` octets, which are the octets of the far area from octet `offset` on.
///
/// The length is at least 1, and both numbers together are at most 2,097,152, the octets that an address reaches. Both
/// areas are inputs, outputs, flags or data blocks.
#[derive(Clone, Copy, Debug, PartialEq, Eq)]
pub struct Window {
    pub near: AreaKey,
    pub length: u32,
    pub far: AreaKey,
    pub offset: u32,
    pub ghost some: { 1 ≤ length },
    pub ghost within: { length + offset ≤ most_octets },
    pub ghost octets: { (has_octets near && has_octets far) ≡ true },
}

/// Windows in order. If several have the same near area, the first counts. Contracts see them as a list.
#[derive(Debug, Drop)]
pub struct Windows {
    list: Vec<Window>,
}

impl Model for Windows {
    ghost use Rattle.std.specs.Prelude.{List};
    ghost use Rattle.s7_relay.specs.declared.windows.Window.{Window};

    ghost Value = { List Window };

    ghost view = { λ w. w.list.items };
}

impl Windows {
    ghost use Rattle.s7_relay.specs.Windows.{window_of};

    /// The windows of a vector, which is not copied.
    pub fn of_vec(list: Vec<Window>) -> Windows
        ensures { result ≡ list.items }
    {
        Windows { list }
    }

    /// The windows as a slice.
    pub fn as_slice(&self) -> &[Window]
        ensures { result.now ≡ self.now }
    {
        self.list.as_slice()
    }

    /// The window of a near area, the first if there are several; `None` if there is none.
    pub fn window_of(&self, near: AreaKey) -> Option<Window>
        ensures { result ≡ window_of self.now near }
    {
        self.list
            .as_slice()
            .iter()
            .copied()
            .find(|window| is_same(window.near, near))
    }
}

/// Whether two names are the same.
pub(crate) fn is_same(a: AreaKey, b: AreaKey) -> bool
    ensures { result ≡ same_key a b }
{
    a.area == b.area && a.number == b.number
}
