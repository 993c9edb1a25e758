//! How the program is made from what the lines of a text add up to.
ghost use Rattle.std.specs.Prelude.{◌≡◌, ◌≤◌, length, IfOk, map, replicate, slice_set, ◌++◌, OnOk, option_map, find};
ghost use Rattle.std.specs.Option.{option_to_list};
ghost use Rattle.std.specs.List.{range_with_len};
ghost use Rattle.region_table.specs.Program.{IsProgram};
ghost use Rattle.rv_assembler.specs.Program.{is_task};
ghost use Rattle.rv_assembler.specs.Finishing.{phase_within, with_first_values, finished_program};
ghost use Rattle.rv_assembler.specs.ClaimRows.{AreRowsWithin, words_by_rows, guarded_by_rows, effects_by_rows, task_by_rows, phase_by_rows};

use crate::claim_rows::{claim_rows, intervals_of};
use crate::draft::{Claim, Draft, FirstValue, Start, Usage};
use crate::uniting::words_in;
use dn_base::{CoreId, MOST_WORDS, Memory, Sequence};
use region_table::{Effects, Interval, Phase, Program, TaskDecl, WordSet};
use std::alloc::Global;

/// Gives a word its first value, if the memory has the word.
fn store(memory: &mut Vec<u32>, value: FirstValue)
    ensures { memory.new.items ≡ slice_set memory.old.items value.word value.value }
{
    let index = value.word as usize;
    if index < memory.len() {
        memory[index] = value.value;
    }
}

/// The first values of the memory.
fn first_memory(alloc: Global, words: u32, values: &[FirstValue]) -> Result<Vec<u32>, Memory>
    ensures { IfOk result (λ memory. memory.items ≡ with_first_values (replicate words 0) values.now) }
{
    let mut memory = vec![in alloc; 0u32; words as usize]?;
    for value in values {
        store(&mut memory, *value);
    }
    Ok(memory)
}

/// The words that a task claims by a usage.
fn words_of(
    alloc: Global,
    words: u32,
    rows: &[Sequence<Interval>],
    task: Start,
    usage: Usage,
) -> Result<WordSet, Memory>
    requires words { words ≤ MOST_WORDS }
    requires rows { AreRowsWithin words rows.now }
    ensures { IfOk result (λ set. set ≡ words_by_rows rows.now task usage) }
{
    words_in(alloc, words, intervals_of(rows, task, usage))
}

/// By the number of a lock, the words that a task claims under it, to read or to write.
fn guarded_words(
    alloc: Global,
    words: u32,
    locks: u32,
    rows: &[Sequence<Interval>],
    task: Start,
    writes: bool,
) -> Result<Sequence<WordSet>, Memory>
    requires words { words ≤ MOST_WORDS }
    requires rows { AreRowsWithin words rows.now }
    ensures { IfOk result (λ sets. sets ≡ map (guarded_by_rows rows.now task writes) (range_with_len 0 locks)) }
{
    let mut sets = Sequence::new(alloc);
    for lock in 0..locks {
        sets.push(words_of(alloc, words, rows, task, Usage::under_lock(writes, lock))?)?;
    }
    Ok(sets)
}

/// The effects of a task.
fn effects_in(
    alloc: Global,
    words: u32,
    locks: u32,
    rows: &[Sequence<Interval>],
    task: Start,
) -> Result<Effects, Memory>
    requires words { words ≤ MOST_WORDS }
    requires rows { AreRowsWithin words rows.now }
    ensures { IfOk result (λ effects. effects ≡ effects_by_rows locks rows.now task) }
{
    Ok(Effects {
        reads: words_of(alloc, words, rows, task, Usage::Reads)?,
        writes: words_of(alloc, words, rows, task, Usage::Writes)?,
        guarded_reads: guarded_words(alloc, words, locks, rows, task, false)?,
        guarded_writes: guarded_words(alloc, words, locks, rows, task, true)?,
    })
}

fn declare_task(
    alloc: Global,
    words: u32,
    locks: u32,
    rows: &[Sequence<Interval>],
    task: Start,
) -> Result<TaskDecl, Memory>
    requires words { words ≤ MOST_WORDS }
    requires rows { AreRowsWithin words rows.now }
    ensures { IfOk result (λ declared. declared ≡ task_by_rows locks rows.now task) }
{
    Ok(TaskDecl {
        core: CoreId(task.core),
        entry: task.entry,
        arg: task.arg,
        effects: effects_in(alloc, words, locks, rows, task)?,
    })
}

/// Whether it is the task of a core in a phase.
fn is_task(phase: u32, core: u32, task: Start) -> bool
    ensures { result ≡ is_task phase core task }
{
    task.phase == phase && task.core == core
}

/// The task of a core in a phase, if there is one.
fn task_on(tasks: &[Start], phase: u32, core: u32) -> Option<Start>
    ensures { result ≡ find (is_task phase core) tasks.now }
{
    tasks
        .iter()
        .copied()
        .find(|task| is_task(phase, core, *task))
}

/// Adds a task, if there is one.
fn push_task(
    alloc: Global,
    tasks: &mut Sequence<TaskDecl>,
    words: u32,
    locks: u32,
    rows: &[Sequence<Interval>],
    task: Option<Start>,
) -> Result<(), Memory>
    requires words { words ≤ MOST_WORDS }
    requires rows { AreRowsWithin words rows.now }
    ensures { OnOk result (tasks.new ≡ tasks.old ++ option_to_list (option_map (task_by_rows locks rows.now) task)) }
{
    match task {
        None => Ok(()),
        Some(task) => tasks.push(declare_task(alloc, words, locks, rows, task)?),
    }
}

/// The tasks of a phase, by their cores.
fn phase_of(
    alloc: Global,
    words: u32,
    locks: u32,
    rows: &[Sequence<Interval>],
    tasks: &[Start],
    number: u32,
) -> Result<Phase, Memory>
    requires words { words ≤ MOST_WORDS }
    requires rows { AreRowsWithin words rows.now }
    ensures { IfOk result (λ phase. phase ≡ phase_by_rows locks rows.now tasks.now number) }
{
    let mut found = Sequence::new(alloc);
    for core in 0..16 {
        push_task(
            alloc,
            &mut found,
            words,
            locks,
            rows,
            task_on(tasks, number, core),
        )?;
    }
    Ok(Phase { tasks: found })
}

/// The phases, which are numbered from 1, from the rows of their claims.
fn phases_by(
    alloc: Global,
    words: u32,
    locks: u32,
    rows: &[Sequence<Interval>],
    tasks: &[Start],
    count: u32,
) -> Result<Sequence<Phase>, Memory>
    requires words { words ≤ MOST_WORDS }
    requires rows { AreRowsWithin words rows.now }
    requires count { count ≤ 64 }
    ensures { IfOk result (λ phases. phases ≡ map (phase_by_rows locks rows.now tasks.now) (range_with_len 1 count)) }
{
    let mut phases = Sequence::new(alloc);
    for number in 0..count {
        phases.push(phase_of(alloc, words, locks, rows, tasks, number + 1)?)?;
    }
    Ok(phases)
}

/// The phases, which are numbered from 1.
fn phases_of(
    alloc: Global,
    words: u32,
    locks: u32,
    claims: &[Claim],
    tasks: &[Start],
    count: u32,
) -> Result<Sequence<Phase>, Memory>
    requires words { words ≤ MOST_WORDS }
    requires locks { locks ≤ 32 }
    requires count { count ≤ 64 }
    ensures { IfOk result (λ phases. phases ≡ map (phase_within words locks claims.now tasks.now) (range_with_len 1 count)) }
{
    let rows = claim_rows(alloc, words, count, claims)?;
    phases_by(alloc, words, locks, rows.as_slice(), tasks, count)
}

/// The tables of a program that aren't tables of its draft.
#[derive(Drop)]
struct Made {
    memory: Vec<u32>,
    phases: Sequence<Phase>,
}

/// The first memory and the phases of a draft.
fn make_tables(alloc: Global, draft: &Draft) -> Result<Made, Memory>
    requires words { draft.now.count.words ≤ MOST_WORDS }
    requires phases { draft.now.phases ≤ 64 }
    requires locks { length draft.now.locks ≤ 32 }
    ensures memory { IfOk result (λ made. made.memory.items ≡ (finished_program draft.now).memory) }
    ensures phases { IfOk result (λ made. made.phases ≡ (finished_program draft.now).phases) }
{
    let words = draft.count.words;
    let memory = first_memory(alloc, words, draft.values.as_slice())?;
    let phases = phases_of(
        alloc,
        words,
        draft.locks.len() as u32,
        draft.claims.as_slice(),
        draft.tasks.as_slice(),
        draft.phases,
    )?;
    Ok(Made { memory, phases })
}

/// The program of a draft and of the tables that are made from it.
fn program_from(draft: Draft, made: Made) -> Program
    requires program { IsProgram (finished_program draft) }
    requires memory { made.memory.items ≡ (finished_program draft).memory }
    requires phases { made.phases ≡ (finished_program draft).phases }
    ensures { result ≡ finished_program draft }
{
    let Draft {
        code,
        regions,
        locks,
        values: _,
        tasks: _,
        claims: _,
        phases: _,
        family: _,
        count: _,
    } = draft;
    let Made { memory, phases } = made;
    Program {
        code,
        memory: Sequence::from_vec(memory),
        regions,
        locks,
        phases,
    }
}

/// The program that the lines of a text add up to.
pub(crate) fn finish(alloc: Global, draft: Draft) -> Result<Program, Memory>
    requires words { draft.count.words ≤ MOST_WORDS }
    requires phases { draft.phases ≤ 64 }
    requires locks { length draft.locks ≤ 32 }
    requires program { IsProgram (finished_program draft) }
    ensures { IfOk result (λ program. program ≡ finished_program draft) }
{
    let made = make_tables(alloc, &draft)?;
    Ok(program_from(draft, made))
}
