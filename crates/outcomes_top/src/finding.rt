//! What every run of a text has in common.
ghost use Rattle.std.specs.Prelude.{◌≡◌, ◌≤◌, [], length, map, IfOk};
ghost use Rattle.rv_core.specs.Decoded.{IsDecoded};
ghost use Rattle.region_table.specs.Numbers.{HasWords};
ghost use Rattle.region_table.specs.Program.{IsProgram};
ghost use Rattle.common_outcomes.specs.Values.{known};
ghost use Rattle.common_outcomes.specs.Answer.{settled_with, answer_from, outcomes};
ghost use Rattle.outcomes_top.specs.Answers.{IsOutcomesPrintable};

use crate::phase::{Progress, Settled};
use common_outcomes::{Common, Kind, Outcomes, Value};
use dn_base::{Memory, PhaseId, Sequence};
use effect_checker::Checked;
use region_table::{Program, a_program_has_words, a_program_is_well_formed};
use rv_core::{DecodedCode, outcome};
use std::alloc::Global;

/// What is known of memory at first: all of it.
pub(crate) fn all_known(alloc: Global, memory: &[u32]) -> Result<Vec<Value>, Memory>
    ensures { IfOk result (λ values. values.items ≡ map known memory.now) }
{
    let mut values = Vec::new(alloc);
    for number in memory {
        values.push(Value {
            kind: Kind::Known,
            number: *number,
        })?;
    }
    Ok(values)
}

/// The answer where the run is over.
fn outcomes_of(now: Settled) -> Outcomes
    ensures { result ≡ settled_with now.ends now.memory.items }
{
    let Settled { ends, memory } = now;
    Outcomes::Settled {
        common: Common {
            outcome: outcome(ends.as_slice()),
            tasks: ends,
            memory: Sequence::from_vec(memory),
        },
    }
}

/// The answer of a program, whose code words are decoded.
#[tactic(auto, unfolding(common_outcomes::specs::Answer::outcomes))]
fn outcomes_by(
    alloc: Global,
    program: &Program,
    code: &DecodedCode,
    fuel: u32,
) -> Result<Outcomes, Memory>
    requires code { IsDecoded program.now code.now }
    requires fuel { fuel ≤ 32768 }
    ensures { IfOk result (λ answer. answer ≡ outcomes program.now fuel) }
{
    a_program_is_well_formed(program);
    let mut now = Settled {
        ends: Sequence::new(alloc),
        memory: all_known(alloc, program.memory.as_slice())?,
    };
    for (number, phase) in program.phases.as_slice().iter().enumerate() {
        match now.go_on(alloc, program, code, fuel, PhaseId(number as u32), phase)? {
            Progress::Open { open } => return Ok(Outcomes::Open { open }),
            Progress::Over => return Ok(outcomes_of(now)),
            Progress::Goes => {}
        }
    }
    Ok(outcomes_of(now))
}

/// What every run of a checked program has in common: its outcome, how each task ends, and what is known of each word, where they
/// don't depend on the order of grants; else why that is open.
///
/// Each task may retire `fuel` instructions, from 1 to 32,768. Each task runs alone, once. The time is proportional to the code
/// words, the retired instructions, and the data words for each task.
///
/// # Errors
/// `Memory` if there is no room for the code, what is known of the words, or the ends of the tasks.
pub fn outcomes(alloc: Global, checked: &Checked, fuel: u32) -> Result<Outcomes, Memory>
    requires some { 1 ≤ fuel }
    requires most { fuel ≤ 32768 }
    ensures value { IfOk result (λ answer. answer ≡ outcomes checked.now fuel) }
    ensures printable { IfOk result IsOutcomesPrintable }
    ensures words { HasWords checked.now }
    ensures well_formed { IsProgram checked.now }
{
    let program = checked.program();
    a_program_has_words(program);
    a_program_is_well_formed(program);
    let code = DecodedCode::new(alloc, program)?;
    outcomes_by(alloc, program, &code, fuel)
}
