ghost use Rattle.std.specs.Prelude.{◌≡◌, ◌≤◌, Bool, nat_eq, length, IfSome};
ghost use Rattle.claims.specs.Differences.{first_difference, is_same_load, is_same_task};

use dn_base::LoadSeen;
use flat_machine::TaskLoads;

/// Values that a claim tells, compared by what is told.
pub(crate) trait Alike {
    ghost same: { Self → Self → Bool };

    /// Whether the right value is told.
    fn is_alike(&self, right: &Self) -> bool
        ensures { result ≡ same self.now right.now };
}

impl Alike for u8 {
    ghost same = { nat_eq };

    fn is_alike(&self, right: &u8) -> bool {
        *self == *right
    }
}

impl Alike for LoadSeen {
    ghost same = { is_same_load };

    fn is_alike(&self, right: &LoadSeen) -> bool {
        self.word.0 == right.word.0 && self.value == right.value
    }
}

/// Of a task's loads, which are compared by themselves, only the phase and the core count here.
impl Alike for TaskLoads {
    ghost same = { is_same_task };

    fn is_alike(&self, right: &TaskLoads) -> bool {
        self.phase.0 == right.phase.0 && self.core.0 == right.core.0
    }
}

/// The first place, from 0, where what is claimed differs from what is right.
pub(crate) fn first_difference<T: Alike>(claimed: &[T], right: &[T]) -> Option<usize>
    ensures value { result ≡ first_difference T.same claimed.now right.now }
    ensures within { IfSome result (λ place. (place ≤ length claimed.now) × (place ≤ length right.now)) }
{
    let both = claimed.len().min(right.len());
    for place in 0..both {
        if !claimed[place].is_alike(&right[place]) {
            return Some(place);
        }
    }
    if claimed.len() == right.len() {
        None
    } else {
        Some(both)
    }
}
