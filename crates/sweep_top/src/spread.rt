//! The least and the most of numbers, and their sum.
ghost use Rattle.std.specs.Prelude.{◌≡◌, ◌≤◌, ◌<◌, [], length};
ghost use Rattle.sweep_top.specs.Kept.{summed_with, widened, widened_each, IsSumWithin};
ghost use Rattle.sweep_top.specs.Tally.{spread_of, summed_of};

/// The least and the most of some numbers; 0 and 0 where there are none.
#[derive(Clone, Copy)]
pub struct Spread {
    pub least: u64,
    pub most: u64,
}

impl Spread {
    /// That of no number.
    pub(crate) fn none() -> Spread
        ensures { result ≡ spread_of [] }
    {
        Spread { least: 0, most: 0 }
    }

    /// That after one more number, where there were `before` of them.
    pub(crate) fn with(self, before: u32, number: u64) -> Spread
        ensures { result ≡ widened before self number }
    {
        if before == 0 {
            Spread {
                least: number,
                most: number,
            }
        } else {
            Spread {
                least: self.least.min(number),
                most: self.most.max(number),
            }
        }
    }
}

/// The least and the most of some numbers, and their sum.
#[derive(Clone, Copy)]
pub struct Summed {
    pub spread: Spread,
    pub sum: u128,
}

impl Summed {
    /// That of no number.
    pub(crate) fn none() -> Summed
        ensures { result ≡ summed_of [] }
    {
        Summed {
            spread: Spread::none(),
            sum: 0,
        }
    }

    /// That after one more number, where there were `before` of them.
    pub(crate) fn with(self, before: u32, number: u64) -> Summed
        requires { IsSumWithin before self.sum }
        ensures { result ≡ summed_with before self number }
    {
        Summed {
            spread: self.spread.with(before, number),
            sum: self.sum + u128::from(number),
        }
    }
}

/// Widens each of these by its number.
pub(crate) fn widen_each(spreads: &mut [Spread; 17], before: u32, numbers: &[u64; 17])
    ensures { spreads.new ≡ widened_each before spreads.old numbers.now }
{
    for i in 0..17 {
        spreads[i] = spreads[i].with(before, numbers[i]);
    }
}
