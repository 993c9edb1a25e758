//! Which acquires an answer is open for.
ghost use Rattle.std.specs.Prelude.{◌≡◌, ◌<◌, ◌≤◌, ◌&&◌, ℕ, List, Some, option_map};
ghost use Rattle.std.specs.List.{find, range_with_len};
ghost use Rattle.rv_core.specs.Access.{is_held};
ghost use Rattle.common_outcomes.specs.Phases.{Summary as SummaryOf};
ghost use Rattle.outcomes_top.specs.Reasons.{holds, is_way, AreRows, taken, sought_in, last_sought};

use crate::reasons::{Sought, Taken, Taking};
use crate::summary::has_lock;
use dn_base::LockId;

/// Whether a lock is among these.
fn holds(locks: u32, lock: u32) -> bool
    ensures { result ≡ holds locks lock }
{
    lock < 32 && has_lock(locks, lock)
}

/// Whether a way leads from one lock to the other, by these rows.
fn is_way(rows: &[u32; 32], from: u32, to: u32) -> bool
    ensures { (rs : List SummaryOf) → AreRows rs rows.now → result ≡ is_way rs from to }
{
    from < 32 && to < 32 && has_lock(rows[from as usize], to)
}

/// The acquire, with a lock that is held then.
fn taken(taking: Taking, holding: Option<u32>) -> Taken
    ensures { result ≡ taken taking holding }
{
    Taken {
        core: taking.core,
        pc: taking.pc,
        lock: taking.lock,
        holding,
    }
}

/// Whether the lock is held, and a way leads to it from this one.
fn is_behind(rows: &[u32; 32], held: u32, from: u32, lock: u32) -> bool
    requires { lock < 32 }
    ensures { (rs : List SummaryOf) → AreRows rs rows.now → result ≡ (is_held held lock && is_way rs from lock) }
{
    has_lock(held, lock) && is_way(rows, from, lock)
}

/// The least such lock below `most`.
fn behind_below(rows: &[u32; 32], held: u32, from: u32, most: u32) -> Option<u32>
    requires { most ≤ 32 }
    ensures { (rs : List SummaryOf) → AreRows rs rows.now → result ≡ find (λ (k : ℕ). is_held held k && is_way rs from k) (range_with_len 0 most) }
{
    for lock in 0..most {
        if is_behind(rows, held, from, lock) {
            return Some(lock);
        }
    }
    None
}

/// The acquire of the lock, with a lock that is held then and to which a way leads from it.
fn back(rows: &[u32; 32], lock: LockId, taking: Taking) -> Option<Taken>
    ensures { (rs : List SummaryOf) → AreRows rs rows.now → result ≡ option_map (λ (k : ℕ). taken taking (Some k)) (find (λ (k : ℕ). is_held taking.held k && is_way rs lock.0 k) (range_with_len 0 32)) }
{
    match behind_below(rows, taking.held, lock.0, 32) {
        Some(behind) => Some(taken(taking, Some(behind))),
        None => None,
    }
}

/// The acquire, if it is sought.
fn sought_in(rows: &[u32; 32], sought: Sought, taking: Taking) -> Option<Taken>
    ensures { (rs : List SummaryOf) → AreRows rs rows.now → result ≡ sought_in rs sought taking }
{
    match sought {
        Sought::Own { core, lock } if taking.core.0 == core.0 && taking.lock.0 == lock.0 => {
            Some(taken(taking, None))
        }
        Sought::Other { core, lock } if taking.core.0 != core.0 && taking.lock.0 == lock.0 => {
            Some(taken(taking, None))
        }
        Sought::Onward { lock }
            if holds(taking.held, lock.0) && is_way(rows, taking.lock.0, lock.0) => {
            Some(taken(taking, Some(lock.0)))
        }
        Sought::Back { lock } if taking.lock.0 == lock.0 => back(rows, lock, taking),
        _ => None,
    }
}

/// The last of these acquires that is sought.
pub(crate) fn last_sought(rows: &[u32; 32], sought: Sought, takings: &[Taking]) -> Option<Taken>
    ensures { (rs : List SummaryOf) → AreRows rs rows.now → result ≡ last_sought rs sought takings.now }
{
    let mut last = None;
    for taking in takings {
        last = sought_in(rows, sought, *taking).or(last);
    }
    last
}
