//! From a text to its program.
ghost use Rattle.std.specs.Prelude.{◌≡◌, ◌≢◌, ◌↔◌, ◌<◌, ◌≤◌, ℕ, List, Option, length, Ok, Err, IfOk, IfErr, OnOk};
ghost use Rattle.region_table.specs.Program.{IsProgram};
ghost use Rattle.rv_assembler.specs.Lookup.{name_lookup};
ghost use Rattle.rv_assembler.specs.declared.fault.SourceFault as fault;
ghost use Rattle.rv_assembler.specs.declared.fault.SourceFault.TheVariants.{TooLarge, Memory as NoMemory};
ghost use Rattle.rv_assembler.specs.Adding.{no_draft, total, program_in, draft_of, added_program};
ghost use Rattle.rv_assembler.specs.AddedLine.{draft_behind};
ghost use Rattle.rv_assembler.specs.Source.{source};

use crate::draft::Draft;
use crate::emission::emission_at;
use crate::fault::SourceFault;
use crate::finishing::finish;
use crate::names::{Names, survey};
use crate::parsing::{Reading, read_text, version_of};
use crate::testing::{early_fault, over_limit};
use dn_base::MOST_OF_TEXT;
use region_table::Program;
use std::alloc::Global;

/// Adds a line, or gives its first fault.
fn add_line<'a>(
    alloc: Global,
    version_2: bool,
    text: &'a [u8],
    names: &Names<'a>,
    draft: &mut Draft,
    reading: &Reading,
) -> Result<(), SourceFault>
    ensures ok { OnOk result (draft_behind version_2 text.now (name_lookup names.now) draft.old reading.now ≡ Ok draft.new) }
    ensures err { IfErr result (λ f. f ≢ NoMemory → draft_behind version_2 text.now (name_lookup names.now) draft.old reading.now ≡ Err f) }
{
    let saying = match reading {
        Reading::Bad(fault) => return Err(*fault),
        Reading::Good(saying) => saying,
    };
    let emission = emission_at(text, names, draft.count.code, &saying.statement);
    if let Some(fault) = early_fault(text, names, draft, saying, emission) {
        return Err(fault);
    }
    draft.add(alloc, text, names, &saying.statement, emission)?;
    if over_limit(version_2, draft) {
        return Err(SourceFault::Limit { line: saying.line });
    }
    Ok(())
}

/// Adds lines up to the first with a fault.
fn add_lines<'a>(
    alloc: Global,
    version_2: bool,
    text: &'a [u8],
    names: &Names<'a>,
    draft: &mut Draft,
    readings: &[Reading],
) -> Result<(), SourceFault>
    ensures ok { OnOk result (total version_2 text.now (name_lookup names.now) draft.old readings.now ≡ Ok draft.new) }
    ensures err { IfErr result (λ f. f ≢ NoMemory → total version_2 text.now (name_lookup names.now) draft.old readings.now ≡ Err f) }
{
    for reading in readings {
        add_line(alloc, version_2, text, names, draft, reading)?;
    }
    Ok(())
}

/// Adds the lines of a text to an empty draft, up to the first with a fault.
fn add_text(alloc: Global, text: &[u8], draft: &mut Draft) -> Result<(), SourceFault>
    requires text { length text.now ≤ MOST_OF_TEXT }
    requires empty { draft.old ≡ no_draft }
    ensures ok { OnOk result (draft_of text.now ≡ Ok draft.new) }
    ensures err { IfErr result (λ f. f ≢ NoMemory → draft_of text.now ≡ Err f) }
{
    let version = version_of(alloc, text)?;
    let read = read_text(alloc, version, text)?;
    let readings = read.as_slice();
    let names = survey(alloc, text, readings)?;
    add_lines(alloc, 0 < version, text, &names, draft, readings)
}

/// The program of a text that isn't too large, or the text's first fault.
fn small_program(alloc: Global, text: &[u8]) -> Result<Program, SourceFault>
    requires { length text.now ≤ MOST_OF_TEXT }
    ensures ok { IfOk result (λ program. program_in (draft_of text.now) ≡ Ok program) }
    ensures err { IfErr result (λ f. f ≢ NoMemory → program_in (draft_of text.now) ≡ Err f) }
{
    let mut draft = Draft::new(alloc);
    add_text(alloc, text, &mut draft)?;
    Ok(finish(alloc, draft)?)
}

/// The program that the lines of a text add up to, or else the text's first fault.
fn program_by_lines(alloc: Global, text: &[u8]) -> Result<Program, SourceFault>
    ensures ok { IfOk result (λ program. added_program text.now ≡ Ok program) }
    ensures err { IfErr result (λ f. f ≢ NoMemory → added_program text.now ≡ Err f) }
    ensures large { MOST_OF_TEXT < length text.now → result ≡ Err TooLarge }
{
    if MOST_OF_TEXT < text.len() {
        return Err(SourceFault::TooLarge);
    }
    small_program(alloc, text)
}

/// The program of a source text, or the text's first fault (the language is this project's profile; the instructions are those
/// of RV32I in the RISC-V unprivileged manual).
///
/// The text is read line by line. A line may declare a label, and have one statement: an instruction of RV32I, a
/// pseudo-instruction, or a directive. Directives declare regions of data words, first values, locks, phases, tasks of a phase,
/// and the words that the current tasks use. A name may be used before the line that declares it. If the first line that isn't
/// blank is `.version 2`, the text may declare families of tasks, and 4,096 regions instead of 256.
///
/// # Errors
/// `TooLarge` exactly if the text has more than 1,048,576 bytes. In any other text the first line with a fault decides; of its
/// faults the first in the order of `SourceFault` is given. `Memory` if there is no room.
pub fn assemble(alloc: Global, text: &[u8]) -> Result<Program, SourceFault>
    ensures ok { IfOk result (λ program. source text.now ≡ Ok program) }
    ensures err { IfErr result (λ f. f ≢ NoMemory → source text.now ≡ Err f) }
    ensures large { MOST_OF_TEXT < length text.now → result ≡ Err TooLarge }
{
    program_by_lines(alloc, text)
}
