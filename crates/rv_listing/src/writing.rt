//! The listing of a program.
ghost use Rattle.std.specs.Prelude.{◌≡◌, ℕ, ◌++◌, ◌+◌, ◌*◌, ◌^◌, ◌<◌, ◌≤◌, [], ◌∷◌, codes, length, map, flat_map, Ok, IfOk, OnOk};
ghost use Rattle.std.specs.Fmt.{decimal};
ghost use Rattle.std.specs.List.{All};
ghost use Rattle.src_text.specs.Laws.{ended};
ghost use Rattle.region_table.specs.Program.{AreTiled, IsTask, IsPhase, IsProgram, tasks_of, names_of};
ghost use Rattle.rv_assembler.specs.Source.{source};
ghost use Rattle.rv_listing.specs.Statement.{hexadecimal, statement};
ghost use Rattle.rv_listing.specs.Instruction.{code_line};
ghost use Rattle.rv_listing.specs.Law.{AreCodeWords, AreDeclaredNames, HasWords, IsOfWords, FitsSourceLimits};
ghost use Rattle.rv_listing.specs.Listing.{addressed_lines, code_lines, lines_with, listing_with_addresses, text_of, version_lines, region_line, value_line, value_lines, region_values, lock_line, task_line, task_lines, phase_lines, listed_lines, listing_of};

use crate::effects::push_effects;
use crate::instruction::{push_addressed_code, push_code};
use crate::statement::{Operand, push_line};
use dn_base::{MOST_WORDS, Memory, Name};
use region_table::{FIRST_CODE_ADDRESS, Phase, Program, Region, TaskDecl};
use std::alloc::Global;

/// The greatest number of regions of a text of version 1.
const MOST_REGIONS: usize = 256;

/// Adds the version line if there are more regions than version 1 allows.
fn push_version(out: &mut Vec<u8>, regions: &[Region]) -> Result<(), Memory>
    ensures { OnOk result (out.new.items ≡ out.old.items ++ text_of (version_lines regions.now)) }
{
    if MOST_REGIONS < regions.len() {
        push_line(out, b".version", &[Operand::Name(b"2")])
    } else {
        Ok(())
    }
}

#[tactic(auto, unfolding(crate::specs::Listing::region_line))]
fn push_region(out: &mut Vec<u8>, region: &Region) -> Result<(), Memory>
    ensures { OnOk result (out.new.items ≡ out.old.items ++ ended (region_line region.now)) }
{
    push_line(
        out,
        b".region",
        &[
            Operand::Name(region.name.bytes()),
            Operand::Number(region.len),
        ],
    )
}

fn push_regions(out: &mut Vec<u8>, regions: &[Region]) -> Result<(), Memory>
    ensures { OnOk result (out.new.items ≡ out.old.items ++ text_of (map region_line regions.now)) }
{
    for region in regions {
        push_region(out, region)?;
    }
    Ok(())
}

#[tactic(auto, unfolding(crate::specs::Listing::value_line))]
fn push_value(out: &mut Vec<u8>, region: &[u8], index: u32, value: u32) -> Result<(), Memory>
    ensures { OnOk result (out.new.items ≡ out.old.items ++ ended (value_line region.now index value)) }
{
    push_line(
        out,
        b".word",
        &[
            Operand::Name(region),
            Operand::Number(index),
            Operand::Word(value),
        ],
    )
}

/// Adds the lines of the words of a region that aren't 0.
fn push_region_values(out: &mut Vec<u8>, region: &[u8], values: &[u32]) -> Result<(), Memory>
    requires { length values.now ≤ MOST_WORDS }
    ensures { OnOk result (out.new.items ≡ out.old.items ++ text_of (value_lines region.now 0 values.now)) }
{
    let mut index = 0;
    for value in values {
        if *value != 0 {
            push_value(out, region, index, *value)?;
        }
        index += 1;
    }
    Ok(())
}

fn push_values(out: &mut Vec<u8>, regions: &[Region], memory: &[u32]) -> Result<(), Memory>
    requires tiled { AreTiled 0 regions.now (length memory.now) }
    requires memory { length memory.now ≤ MOST_WORDS }
    ensures lines { OnOk result (out.new.items ≡ out.old.items ++ text_of (flat_map (region_values memory.now) regions.now)) }
    ensures words { IfOk result (λ _. AreCodeWords memory.now) }
{
    for region in regions {
        let start = region.start as usize;
        let end = start + region.len as usize;
        push_region_values(out, region.name.bytes(), &memory[start..end])?;
    }
    Ok(())
}

#[tactic(auto, unfolding(crate::specs::Listing::lock_line))]
fn push_lock(out: &mut Vec<u8>, lock: &Name) -> Result<(), Memory>
    ensures { OnOk result (out.new.items ≡ out.old.items ++ ended (lock_line lock.now)) }
{
    push_line(out, b".lock", &[Operand::Name(lock.bytes())])
}

fn push_locks(out: &mut Vec<u8>, locks: &[Name]) -> Result<(), Memory>
    ensures { OnOk result (out.new.items ≡ out.old.items ++ text_of (map lock_line locks.now)) }
{
    for lock in locks {
        push_lock(out, lock)?;
    }
    Ok(())
}

/// Adds the line of a task by its numbers, which have 32 bits.
fn push_numbers(out: &mut Vec<u8>, core: u32, entry: u32, arg: u32) -> Result<(), Memory>
    ensures line { OnOk result (out.new.items ≡ out.old.items ++ ended (statement (codes ".task") (decimal core ∷ hexadecimal entry ∷ hexadecimal arg ∷ []))) }
    ensures entry { entry < 2 ^ 32 }
    ensures arg { arg < 2 ^ 32 }
{
    push_line(
        out,
        b".task",
        &[
            Operand::Number(core),
            Operand::Word(entry),
            Operand::Word(arg),
        ],
    )
}

#[tactic(auto, unfolding(crate::specs::Listing::task_line))]
fn push_start(out: &mut Vec<u8>, task: &TaskDecl) -> Result<(), Memory>
    ensures line { OnOk result (out.new.items ≡ out.old.items ++ ended (task_line task.now)) }
    ensures entry { task.now.entry < 2 ^ 32 }
    ensures arg { task.now.arg < 2 ^ 32 }
{
    push_numbers(out, task.core.0, task.entry, task.arg)
}

/// Adds the lines of a task.
fn push_task<'a>(
    out: &mut Vec<u8>,
    regions: &'a [Region],
    locks: &'a [Name],
    task: &TaskDecl,
) -> Result<(), Memory>
    requires tiled { (size : ℕ) × (size ≤ MOST_WORDS) × AreTiled 0 regions.now size }
    requires reads { length task.now.effects.guarded_reads ≡ length locks.now }
    requires writes { length task.now.effects.guarded_writes ≡ length locks.now }
    ensures lines { OnOk result (out.new.items ≡ out.old.items ++ text_of (task_lines regions.now locks.now task.now)) }
    ensures words { IfOk result (λ _. IsOfWords task.now) }
{
    push_start(out, task)?;
    push_effects(out, regions, locks, &task.effects)
}

/// Adds the lines of a phase.
fn push_phase<'a>(
    out: &mut Vec<u8>,
    regions: &'a [Region],
    locks: &'a [Name],
    phase: &Phase,
) -> Result<(), Memory>
    requires tiled { (size : ℕ) × (size ≤ MOST_WORDS) × AreTiled 0 regions.now size }
    requires tasks { (words : ℕ) × All (IsTask words (length locks.now)) phase.now.tasks }
    ensures lines { OnOk result (out.new.items ≡ out.old.items ++ text_of (phase_lines regions.now locks.now phase.now)) }
    ensures words { IfOk result (λ _. All IsOfWords phase.now.tasks) }
{
    push_line(out, b".phase", &[])?;
    for task in phase.tasks.as_slice() {
        push_task(out, regions, locks, task)?;
    }
    Ok(())
}

fn push_phases<'a>(
    out: &mut Vec<u8>,
    regions: &'a [Region],
    locks: &'a [Name],
    phases: &[Phase],
) -> Result<(), Memory>
    requires tiled { (size : ℕ) × (size ≤ MOST_WORDS) × AreTiled 0 regions.now size }
    requires phases { (words : ℕ) × All (IsPhase words (length locks.now)) phases.now }
    ensures lines { OnOk result (out.new.items ≡ out.old.items ++ text_of (flat_map (phase_lines regions.now locks.now) phases.now)) }
    ensures words { IfOk result (λ _. All IsOfWords (tasks_of phases.now)) }
{
    for phase in phases {
        push_phase(out, regions, locks, phase)?;
    }
    Ok(())
}

/// Adds the lines of the code.
fn push_words(out: &mut Vec<u8>, code: &[u32]) -> Result<(), Memory>
    ensures lines { OnOk result (out.new.items ≡ out.old.items ++ text_of (map code_line code.now)) }
    ensures words { IfOk result (λ _. AreCodeWords code.now) }
{
    for word in code {
        push_code(out, *word)?;
    }
    Ok(())
}

/// Adds the lines of code words that follow each other from an address on, each with its address.
fn push_addressed(out: &mut Vec<u8>, first: u32, code: &[u32]) -> Result<(), Memory>
    requires { first + 4 * length code.now ≤ 4294967295 }
    ensures lines { OnOk result (out.new.items ≡ out.old.items ++ text_of (addressed_lines first code.now)) }
    ensures words { IfOk result (λ _. AreCodeWords code.now) }
{
    let mut address = first;
    for word in code {
        push_addressed_code(out, address, *word)?;
        address += 4;
    }
    Ok(())
}

/// Adds the lines of the code, with addresses or without.
fn push_code_lines(out: &mut Vec<u8>, code: &[u32], addresses: bool) -> Result<(), Memory>
    requires { length code.now ≤ 16384 }
    ensures lines { OnOk result (out.new.items ≡ out.old.items ++ text_of (code_lines addresses code.now)) }
    ensures words { IfOk result (λ _. AreCodeWords code.now) }
{
    if addresses {
        push_addressed(out, FIRST_CODE_ADDRESS, code)
    } else {
        push_words(out, code)
    }
}

/// The text of a program that is well formed, with numbers of 32 bits and canonical sets of words.
fn program_text(alloc: Global, program: &Program, addresses: bool) -> Result<Vec<u8>, Memory>
    ensures text { IfOk result (λ text. text.items ≡ text_of (lines_with (code_lines addresses program.now.code) program.now)) }
    ensures well_formed { IfOk result (λ _. IsProgram program.now) }
    ensures words { IfOk result (λ _. HasWords program.now) }
{
    let regions = program.regions.as_slice();
    let locks = program.locks.as_slice();
    let mut out = Vec::new(alloc);
    push_version(&mut out, regions)?;
    push_regions(&mut out, regions)?;
    push_values(&mut out, regions, program.memory.as_slice())?;
    push_locks(&mut out, locks)?;
    push_phases(&mut out, regions, locks, program.phases.as_slice())?;
    push_code_lines(&mut out, program.code.as_slice(), addresses)?;
    Ok(out)
}

/// The listing of a program, as a source text with one statement a line: the version line if the program has more than 256
/// regions, the regions, the initial words that aren't 0, the locks, each phase with its tasks and the words that they use, and
/// the code.
///
/// Intervals of words are cut at the borders of the regions. A code word is written as its instruction, with offsets in bytes
/// as targets of branches and jumps, or as a number if no instruction is encoded as this word.
///
/// If a source text may declare the program's names and the listing is within the limits of a source text, the assembler makes
/// the same program from it.
///
/// # Errors
/// `Memory` where there is no room for the text.
#[tactic(auto, unfolding(crate::specs::Listing::listed_lines))]
pub fn listing(alloc: Global, program: &Program) -> Result<Vec<u8>, Memory>
    ensures text { IfOk result (λ text. text.items ≡ listing_of program.now) }
    ensures again { AreDeclaredNames (names_of program.now) → FitsSourceLimits (listed_lines program.now) → IfOk result (λ text. source text.items ≡ Ok program.now) }
{
    let text = program_text(alloc, program, false)?;
    Ok(text)
}

/// The listing of a program, with the address of each code word behind its line, as a comment: `lw x6, 0(x5)  # 0x00001008`.
///
/// # Errors
/// `Memory` where there is no room for the text.
#[tactic(auto, unfolding(crate::specs::Listing::listed_lines_with_addresses))]
pub fn listing_with_addresses(alloc: Global, program: &Program) -> Result<Vec<u8>, Memory>
    ensures { IfOk result (λ text. text.items ≡ listing_with_addresses program.now) }
{
    program_text(alloc, program, true)
}
