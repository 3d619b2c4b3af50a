//! Where the groups of a list of items end.
ghost use Rattle.std.specs.Prelude.{◌≡◌, ◌+◌, ◌<◌, ◌≤◌, ◌++◌, [], ◌∷◌, take};
ghost use Rattle.s7_split.specs.Groups.{IsBlankAfter};

/// Groups of successive items of a list, at most twenty groups. `count` is their number. The first `count` elements
/// of `ends` are the index at which each group ends, exclusive; the others are 0. A group begins where the one
/// before it ends, and the first begins at 0.
#[derive(Clone, Copy, Debug, PartialEq, Eq)]
pub struct Groups {
    /// The number of groups.
    pub count: u8,
    /// The index at which each group ends, exclusive; 0 after the last group.
    pub ends: [u8; 20],
}

impl Groups {
    /// No groups.
    pub fn new() -> Groups
        ensures none { result.count ≡ 0 }
        ensures blank { IsBlankAfter 0 result.ends }
    {
        Groups {
            count: 0,
            ends: [0; 20],
        }
    }

    /// Appends a group that ends at `end`.
    pub(crate) fn push(&mut self, end: u8)
        requires room { self.old.count < 20 }
        requires blank { IsBlankAfter self.old.count self.old.ends }
        ensures blank { IsBlankAfter self.new.count self.new.ends }
        ensures count { self.new.count ≡ self.old.count + 1 }
        ensures ends { take self.new.count self.new.ends ≡ take self.old.count self.old.ends ++ end ∷ [] }
    {
        self.ends[usize::from(self.count)] = end;
        self.count += 1;
    }
}
