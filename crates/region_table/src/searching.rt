ghost use Rattle.std.specs.Prelude.{◌≡◌, ◌<◌, ◌↔◌, ℕ, ◌≤◌, IsTrue, nat_lt};
ghost use Rattle.std.specs.List.{find};
ghost use Rattle.region_table.specs.declared.interval.Interval.{Interval};
ghost use Rattle.region_table.specs.Words.{has, IsCanonical};

use crate::interval::Interval;

/// The first interval that ends after the word, by a binary search.
pub(crate) fn first_past(intervals: &[Interval], word: u32) -> Option<Interval>
    requires { IsCanonical intervals.now }
    ensures { result ≡ find (λ (i : Interval). nat_lt word i.hi) intervals.now }
{
    let place = intervals.partition_point(|i| i.hi <= word);
    intervals.get(place).copied()
}
