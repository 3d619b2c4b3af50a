//! Counts of faults and waits.
ghost use Rattle.std.specs.Prelude.{◌≡◌, ◌+◌, ◌≤◌};
ghost use Rattle.s7_outer.specs.Count.{Rose, raised};

/// Raises a counter by one. A counter at 18,446,744,073,709,551,615 stays as it is.
pub fn raise(count: &mut u64)
    ensures raised { count.new ≡ raised count.old }
    ensures rose { Rose count.old count.new }
    ensures kept { count.old ≤ count.new }
    ensures once { count.new ≤ count.old + 1 }
{
    *count = count.saturating_add(1);
}
