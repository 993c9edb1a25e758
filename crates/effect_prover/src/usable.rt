//! Whether a task may use all words of a range: by the task's own sets, or by their union.
ghost use Rattle.std.specs.Prelude.{◌≡◌, ℕ, ◌<◌, ◌≤◌, ◌&&◌, ◌||◌, true, Decides, slice_get, IfOk, IfSome, OnOk};
ghost use Rattle.std.specs.List.{All};
ghost use Rattle.region_table.specs.declared.declared.TaskDecl.{TaskDecl};
ghost use Rattle.region_table.specs.declared.interval.Interval.{Interval};
ghost use Rattle.region_table.specs.Words.{has};
ghost use Rattle.rv_core.specs.Access.{is_held, under, may_load, may_store};
ghost use Rattle.effect_prover.specs.declared.usable.Access.{Access};
ghost use Rattle.effect_prover.specs.Stretch.{IsStretch, may_use, AreUsable, HasWord, IsUsableKept, AreUsableKept, IsUsableReady};

use crate::join::greater;
use dn_base::{MOST_WORDS, Memory, WordId};
use region_table::{Interval, TaskDecl, WordSet};
use std::alloc::Global;

/// How an instruction accesses a word.
#[derive(Clone, Copy)]
pub(crate) enum Access {
    Load,
    Store,
}

/// The interval at an index, if there is one.
fn interval_at(intervals: &[Interval], place: usize) -> Option<Interval>
    ensures { result ≡ slice_get intervals.now place }
{
    intervals.get(place).copied()
}

/// The end of the words from `word` on that are in the set; `word` itself if it isn't in the set. It is found by a binary
/// search.
#[tactic(auto, using(crate::proofs::StretchLemmas::stretches))]
fn end_in(set: &WordSet, word: u32) -> u32
    requires { word < MOST_WORDS }
    ensures { IsStretch (has set.now) word result }
{
    if !set.contains(WordId(word)) {
        return word;
    }
    let intervals = set.intervals();
    let place = intervals.partition_point(|i| i.hi <= word);
    match interval_at(intervals, place) {
        Some(interval) if interval.lo <= word && word < interval.hi => interval.hi,
        _ => word + 1,
    }
}

/// The same for the set of a lock, if that is held.
#[tactic(auto, using(crate::proofs::StretchLemmas::stretches))]
fn end_held(held: u32, lock: usize, set: &WordSet, word: u32) -> u32
    requires { word < MOST_WORDS }
    ensures { IsStretch (λ w. is_held held lock && has set.now w) word result }
{
    if lock >= 32 {
        return word;
    }
    if held & (1 << lock) != 0 {
        end_in(set, word)
    } else {
        word
    }
}

/// The same for the sets of all locks that are held.
fn end_under(sets: &[WordSet], held: u32, word: u32) -> u32
    requires word { word < MOST_WORDS }
    ensures { IsStretch (under sets.now 0 held) word result }
{
    let mut end = word;
    for (lock, set) in sets.iter().enumerate() {
        end = greater(end, end_held(held, lock, set, word));
    }
    end
}

/// The end of the words from `word` on that the task may use in this way while it holds these locks.
fn end_of(access: Access, task: &TaskDecl, held: u32, word: u32) -> u32
    requires word { word < MOST_WORDS }
    ensures { IsStretch (may_use access task.now held) word result }
{
    match access {
        Access::Load => end_of_loads(task, held, word),
        Access::Store => end_of_stores(task, held, word),
    }
}

/// The end of the words that the task may store.
#[tactic(auto, using(crate::proofs::StretchLemmas::stretches))]
fn end_of_stores(task: &TaskDecl, held: u32, word: u32) -> u32
    requires word { word < MOST_WORDS }
    ensures { IsStretch (may_store task.now held) word result }
{
    let plain = end_in(&task.effects.writes, word);
    let guarded = end_under(task.effects.guarded_writes.as_slice(), held, word);
    greater(plain, guarded)
}

/// The end of the words that the task may load.
#[tactic(auto, using(crate::proofs::StretchLemmas::stretches))]
fn end_of_loads(task: &TaskDecl, held: u32, word: u32) -> u32
    requires word { word < MOST_WORDS }
    ensures { IsStretch (may_load task.now held) word result }
{
    let read = end_in(&task.effects.reads, word);
    let written = end_in(&task.effects.writes, word);
    let plain = greater(read, written);
    let read_under = end_under(task.effects.guarded_reads.as_slice(), held, word);
    let readable = greater(plain, read_under);
    let written_under = end_under(task.effects.guarded_writes.as_slice(), held, word);
    greater(readable, written_under)
}

/// How many stretches of words are tried before the union of the sets is made.
const FEW: u32 = 16;

/// Whether the task may use each word from `first` to `last` in this way, if a few stretches decide it. It goes from one end to
/// the next.
#[tactic(auto, using(crate::proofs::StretchLemmas::usable))]
fn few_usable(access: Access, task: &TaskDecl, held: u32, first: u32, last: u32) -> Option<bool>
    requires last { last < MOST_WORDS }
    ensures { IfSome result (λ usable. Decides usable (AreUsable access task.now held first last)) }
{
    let mut word = first;
    for _leap in 0..FEW {
        if last < word {
            return Some(true);
        }
        let end = end_of(access, task, held, word);
        if end == word {
            return Some(false);
        }
        word = end;
    }
    None
}

/// Adds the intervals of a set.
fn push_set(intervals: &mut Vec<Interval>, set: &WordSet) -> Result<(), Memory>
    requires { All HasWord intervals.old.items }
    ensures some { OnOk result (All HasWord intervals.new.items) }
    ensures words { OnOk result ((w : ℕ) → has intervals.new.items w ≡ (has intervals.old.items w || has set.now w)) }
{
    intervals.extend_from_slice(set.intervals())?;
    Ok(())
}

/// Adds those of the set of a lock, where that is held.
fn push_held(
    intervals: &mut Vec<Interval>,
    held: u32,
    lock: usize,
    set: &WordSet,
) -> Result<(), Memory>
    requires { All HasWord intervals.old.items }
    ensures some { OnOk result (All HasWord intervals.new.items) }
    ensures words { OnOk result ((w : ℕ) → has intervals.new.items w ≡ (has intervals.old.items w || (is_held held lock && has set.now w))) }
{
    if lock >= 32 {
        return Ok(());
    }
    if held & (1 << lock) == 0 {
        return Ok(());
    }
    push_set(intervals, set)
}

/// Adds those of the sets of the locks that are held.
fn push_under(intervals: &mut Vec<Interval>, sets: &[WordSet], held: u32) -> Result<(), Memory>
    requires { All HasWord intervals.old.items }
    ensures some { OnOk result (All HasWord intervals.new.items) }
    ensures words { OnOk result ((w : ℕ) → has intervals.new.items w ≡ (has intervals.old.items w || under sets.now 0 held w)) }
{
    for (lock, set) in sets.iter().enumerate() {
        push_held(intervals, held, lock, set)?;
    }
    Ok(())
}

/// Adds those of the words that the task may store.
fn push_stores(intervals: &mut Vec<Interval>, task: &TaskDecl, held: u32) -> Result<(), Memory>
    requires { All HasWord intervals.old.items }
    ensures some { OnOk result (All HasWord intervals.new.items) }
    ensures words { OnOk result ((w : ℕ) → has intervals.new.items w ≡ (has intervals.old.items w || may_store task.now held w)) }
{
    push_set(intervals, &task.effects.writes)?;
    push_under(intervals, task.effects.guarded_writes.as_slice(), held)
}

/// Adds those of the words that the task may load.
fn push_loads(intervals: &mut Vec<Interval>, task: &TaskDecl, held: u32) -> Result<(), Memory>
    requires { All HasWord intervals.old.items }
    ensures some { OnOk result (All HasWord intervals.new.items) }
    ensures words { OnOk result ((w : ℕ) → has intervals.new.items w ≡ (has intervals.old.items w || may_load task.now held w)) }
{
    push_set(intervals, &task.effects.reads)?;
    push_under(intervals, task.effects.guarded_reads.as_slice(), held)?;
    push_stores(intervals, task, held)
}

/// Adds the intervals of the words that the task may use in this way.
fn push_usable(
    intervals: &mut Vec<Interval>,
    access: Access,
    task: &TaskDecl,
    held: u32,
) -> Result<(), Memory>
    requires { All HasWord intervals.old.items }
    ensures some { OnOk result (All HasWord intervals.new.items) }
    ensures words { OnOk result ((w : ℕ) → has intervals.new.items w ≡ (has intervals.old.items w || may_use access task.now held w)) }
{
    match access {
        Access::Load => push_loads(intervals, task, held),
        Access::Store => push_stores(intervals, task, held),
    }
}

/// The words that the task may use in this way while it holds these locks, as one set.
fn usable_set(alloc: Global, access: Access, task: &TaskDecl, held: u32) -> Result<WordSet, Memory>
    ensures { IfOk result (λ set. (w : ℕ) → has set w ≡ may_use access task.now held w) }
{
    let mut intervals = Vec::new(alloc);
    push_usable(&mut intervals, access, task, held)?;
    Ok(WordSet::of_all(alloc, intervals)?)
}

/// The words that a task may load, or those that it may store, while it holds these locks.
#[derive(Drop)]
pub(crate) struct UsableSet {
    pub(crate) held: u32,
    pub(crate) words: WordSet,
}

/// The sets that are kept, of the words that a task may load and of those that it may store.
#[derive(Drop)]
pub(crate) struct UsableSets {
    pub(crate) loads: Option<UsableSet>,
    pub(crate) stores: Option<UsableSet>,
}

impl UsableSets {
    /// No set is kept.
    pub(crate) fn none() -> UsableSets
        ensures { (d : TaskDecl) → AreUsableKept d result }
    {
        UsableSets {
            loads: None,
            stores: None,
        }
    }
}

/// Whether the kept set is for these locks.
fn is_ready(kept: &Option<UsableSet>, held: u32) -> bool
    ensures { result ≡ true → (access : Access) (d : TaskDecl) → IsUsableKept access d kept.now → IsUsableReady access d held kept.now }
{
    match kept {
        Some(kept) => kept.held == held,
        None => false,
    }
}

/// Keeps the set of the words that the task may use in this way. Another set is given back before this one is made.
///
/// # Errors
/// `Memory` where there is no room for the set.
fn keep(
    alloc: Global,
    access: Access,
    task: &TaskDecl,
    held: u32,
    kept: &mut Option<UsableSet>,
) -> Result<(), Memory>
    requires { IsUsableKept access task.now kept.old }
    ensures kept { IsUsableKept access task.now kept.new }
    ensures ready { IfOk result (λ _. IsUsableReady access task.now held kept.new) }
{
    if is_ready(kept, held) {
        return Ok(());
    }
    *kept = None;
    *kept = Some(UsableSet {
        held,
        words: usable_set(alloc, access, task, held)?,
    });
    Ok(())
}

/// Whether each word from `first` to `last` is in the set.
#[tactic(auto, using(crate::proofs::StretchLemmas::within))]
fn are_in(set: &WordSet, first: u32, last: u32) -> bool
    requires last { last < MOST_WORDS }
    ensures { Decides result ((w : ℕ) → first ≤ w → w ≤ last → has set.now w ≡ true) }
{
    let mut word = first;
    while word <= last {
        let end = end_in(set, word);
        if end == word {
            return false;
        }
        word = end;
    }
    true
}

/// The same for the kept set.
fn are_in_kept(
    access: Access,
    task: &TaskDecl,
    held: u32,
    first: u32,
    last: u32,
    kept: &Option<UsableSet>,
) -> bool
    requires last { last < MOST_WORDS }
    requires ready { IsUsableReady access task.now held kept.now }
    ensures { Decides result (AreUsable access task.now held first last) }
{
    let Some(kept) = kept else {
        return true;
    };
    are_in(&kept.words, first, last)
}

/// Whether the task may use each word from `first` to `last` in this way. If a few stretches don't decide it, the set of all
/// words that it may use is made, and kept for the next loads or stores.
///
/// # Errors
/// `Memory` where there is no room for the set.
fn are_usable_by(
    alloc: Global,
    access: Access,
    task: &TaskDecl,
    held: u32,
    first: u32,
    last: u32,
    kept: &mut Option<UsableSet>,
) -> Result<bool, Memory>
    requires last { last < MOST_WORDS }
    requires kept { IsUsableKept access task.now kept.old }
    ensures kept { IsUsableKept access task.now kept.new }
    ensures answer { IfOk result (λ usable. Decides usable (AreUsable access task.now held first last)) }
{
    if let Some(usable) = few_usable(access, task, held, first, last) {
        return Ok(usable);
    }
    keep(alloc, access, task, held, kept)?;
    Ok(are_in_kept(access, task, held, first, last, kept))
}

/// The same with the kept sets.
///
/// # Errors
/// `Memory` where there is no room for a set.
pub(crate) fn are_usable(
    alloc: Global,
    access: Access,
    task: &TaskDecl,
    held: u32,
    first: u32,
    last: u32,
    usable: &mut UsableSets,
) -> Result<bool, Memory>
    requires last { last < MOST_WORDS }
    requires kept { AreUsableKept task.now usable.old }
    ensures kept { AreUsableKept task.now usable.new }
    ensures answer { IfOk result (λ usable. Decides usable (AreUsable access task.now held first last)) }
{
    match access {
        Access::Load => {
            let kept = &mut usable.loads;
            are_usable_by(alloc, Access::Load, task, held, first, last, kept)
        }
        Access::Store => {
            let kept = &mut usable.stores;
            are_usable_by(alloc, Access::Store, task, held, first, last, kept)
        }
    }
}
