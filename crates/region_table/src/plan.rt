ghost use Rattle.std.specs.Prelude.{◌≡◌, ◌↔◌, ℕ, ◌+◌, ◌<◌, ◌≤◌, ◌||◌, List, [], length, slice_index_or, IsTrue, IfOk};
ghost use Rattle.std.specs.Option.{unwrap_or, option_copied};
ghost use Rattle.std.specs.List.{list_any};
ghost use Rattle.region_table.specs.declared.interval.Interval.{Interval};
ghost use Rattle.region_table.specs.Words.{has, IsUnion};
ghost use Rattle.region_table.specs.Program.{AreTiled};
ghost use Rattle.region_table.specs.Plan.{ArePlans, IsPlan, phase_writes, phase_guards};

use crate::declared::{Phase, Region};
use crate::program::Program;
use crate::regions::whole_regions;
use crate::words::WordSet;
use dn_base::{Memory, Sequence};
use std::alloc::Global;

/// What the cores know of a phase before it starts.
#[derive(Drop)]
pub struct PhasePlan {
    /// The words of the whole regions in which some task of the phase writes, plainly or under a lock.
    pub written: WordSet,
    /// By the number of a lock, the words that it guards for some task of the phase.
    pub guarded: Sequence<WordSet>,
}

/// A plan may be sent to another thread, and shared with it. Nobody calls this; the check of its body proves it.
pub(crate) fn plan_crosses(plan: &PhasePlan) {
    crate::program::crosses(plan);
}

/// The union of two sets. If `other` is empty, as most sets by lock are, it gives `words` back: a union would copy it.
fn union(words: WordSet, other: &WordSet) -> Result<WordSet, Memory>
    ensures { IfOk result (IsUnion words other.now) }
{
    match other.intervals() {
        [] => Ok(words),
        _ => words.union(other),
    }
}

/// The words of `words` and of all the sets.
fn union_of(words: WordSet, sets: &[WordSet]) -> Result<WordSet, Memory>
    ensures { IfOk result (λ all. (w : ℕ) → has all w ≡ (has words w || list_any (λ (set : List Interval). has set w) sets.now)) }
{
    let mut all = words;
    for set in sets {
        all = union(all, set)?;
    }
    Ok(all)
}

/// The words that some task of the phase writes, plainly or under a lock.
fn words_written(alloc: Global, phase: &Phase) -> Result<WordSet, Memory>
    ensures { IfOk result (λ all. (w : ℕ) → has all w ≡ phase_writes phase.now w) }
{
    let mut all = WordSet::new(alloc);
    for task in phase.tasks.as_slice() {
        let plain = union(all, &task.effects.writes)?;
        all = union_of(plain, task.effects.guarded_writes.as_slice())?;
    }
    Ok(all)
}

/// The words that the lock guards for some task of the phase.
fn words_guarded(alloc: Global, phase: &Phase, lock: usize) -> Result<WordSet, Memory>
    ensures { IfOk result (λ all. (w : ℕ) → has all w ≡ phase_guards phase.now lock w) }
{
    let mut all = WordSet::new(alloc);
    for task in phase.tasks.as_slice() {
        let reads = union_with(all, task.effects.guarded_reads.get(lock))?;
        all = union_with(reads, task.effects.guarded_writes.get(lock))?;
    }
    Ok(all)
}

/// The words of `words` and of the other set, if there is one.
fn union_with(words: WordSet, other: Option<&WordSet>) -> Result<WordSet, Memory>
    ensures { IfOk result (λ all. (w : ℕ) → has all w ≡ (has words w || has (unwrap_or (option_copied other.entry) []) w)) }
{
    match other {
        Some(set) => union(words, set),
        None => Ok(words),
    }
}

/// By the number of a lock, the words that it guards for some task of the phase.
fn guarded_by_lock(alloc: Global, phase: &Phase, locks: usize) -> Result<Sequence<WordSet>, Memory>
    ensures count { IfOk result (λ sets. length sets ≡ locks) }
    ensures words { IfOk result (λ sets. (lock w : ℕ) → lock < locks → has (slice_index_or sets lock []) w ≡ phase_guards phase.now lock w) }
{
    let mut sets = Sequence::new(alloc);
    for lock in 0..locks {
        sets.push(words_guarded(alloc, phase, lock)?)?;
    }
    Ok(sets)
}

/// The plan of a phase of the program.
fn plan_of(alloc: Global, program: &Program, phase: &Phase) -> Result<PhasePlan, Memory>
    ensures { IfOk result (IsPlan program.now phase.now) }
{
    let touched = words_written(alloc, phase)?;
    let written = whole_regions(alloc, program.regions.as_slice(), touched.intervals())?;
    let guarded = guarded_by_lock(alloc, phase, program.locks.len())?;
    Ok(PhasePlan { written, guarded })
}

/// The plans of the program's phases, in their order. A plan has the words of all regions in which some task writes, plainly or
/// under a lock, and for each lock the words that it guards for some task.
///
/// The sets of the tasks that aren't empty are united one after the other, each in time proportional to the intervals so far.
/// Then one binary search for each region finds whether it is written.
///
/// # Errors
/// `Memory` where there is no room.
pub fn plans(alloc: Global, program: &Program) -> Result<Vec<PhasePlan>, Memory>
    ensures { IfOk result (λ plans. ArePlans program.now plans.items) }
{
    let mut plans = Vec::new(alloc);
    for phase in program.phases.as_slice() {
        plans.push(plan_of(alloc, program, phase)?)?;
    }
    Ok(plans)
}
