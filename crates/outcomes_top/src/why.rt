//! Why an answer is open.
ghost use Rattle.std.specs.Prelude.{◌≡◌, ◌≤◌, ℕ, length, IfOk};
ghost use Rattle.region_table.specs.Program.{IsPhase};
ghost use Rattle.rv_core.specs.Decoded.{IsDecoded};
ghost use Rattle.outcomes_top.specs.Marks.{TellShared};
ghost use Rattle.outcomes_top.specs.Reasons.{dependence_among, takings_in, by_takings, reason_in, reason_of};

use crate::cells::Place;
use crate::circles::all_leading;
use crate::finding::all_known;
use crate::marks::mark_all;
use crate::phase::{Progress, Settled, alone_in};
use crate::reasons::{Dependence, Reason, Sought, Taking};
use crate::takings::last_sought;
use crate::watched::watch;
use common_outcomes::{Open, Value};
use dn_base::{CoreId, Memory, PhaseId, Sequence};
use effect_checker::Checked;
use region_table::{Phase, Program, a_program_has_words, a_program_is_well_formed};
use rv_core::DecodedCode;
use std::alloc::Global;

/// The marks of a phase, which tell which words are shared.
fn marks_of(alloc: Global, program: &Program, phase: &Phase) -> Result<Vec<u8>, Memory>
    requires phase { (locks : ℕ) × IsPhase (length program.now.memory) locks phase.now }
    ensures { IfOk result (λ marks. TellShared phase.now marks.items) }
{
    let mut marks: Vec<u8> = vec![in alloc; 0; program.memory.len()]?;
    mark_all(marks.as_mut_slice(), phase);
    Ok(marks)
}

/// What the control of the core's task depends on, if it is open.
fn dependence_in(
    alloc: Global,
    program: &Program,
    code: &DecodedCode,
    fuel: u32,
    phase: &Phase,
    first: &[Value],
    marks: &[u8],
    core: CoreId,
) -> Result<Option<Dependence>, Memory>
    requires code { IsDecoded program.now code.now }
    requires fuel { fuel ≤ 32768 }
    requires locks { length program.now.locks ≤ 32 }
    requires phase { (words locks : ℕ) × IsPhase words locks phase.now }
    requires marks { TellShared phase.now marks.now }
    ensures { IfOk result (λ found. found ≡ dependence_among program.now fuel phase.now first.now core.0 phase.now.tasks) }
{
    for decl in phase.tasks.as_slice() {
        let place = Place {
            program,
            code,
            fuel,
            phase,
            decl,
            first,
            marks,
        };
        if decl.core.0 == core.0 {
            return Ok(watch(alloc, &place, Vec::new(alloc))?.dependence(&place));
        }
    }
    Ok(None)
}

/// The acquires of all tasks of the phase.
fn takings_in(
    alloc: Global,
    program: &Program,
    code: &DecodedCode,
    fuel: u32,
    phase: &Phase,
    first: &[Value],
    marks: &[u8],
) -> Result<Vec<Taking>, Memory>
    requires code { IsDecoded program.now code.now }
    requires fuel { fuel ≤ 32768 }
    requires locks { length program.now.locks ≤ 32 }
    requires phase { (words locks : ℕ) × IsPhase words locks phase.now }
    requires marks { TellShared phase.now marks.now }
    ensures { IfOk result (λ takings. takings.items ≡ takings_in program.now fuel phase.now first.now) }
{
    let mut takings = Vec::new(alloc);
    for decl in phase.tasks.as_slice() {
        let place = Place {
            program,
            code,
            fuel,
            phase,
            decl,
            first,
            marks,
        };
        takings = watch(alloc, &place, takings)?.takings;
    }
    Ok(takings)
}

/// The reason that these two acquires are.
fn by_takings(
    alloc: Global,
    program: &Program,
    code: &DecodedCode,
    fuel: u32,
    phase: &Phase,
    first: &[Value],
    why: Open,
    sought: (Sought, Sought),
) -> Result<Reason, Memory>
    requires code { IsDecoded program.now code.now }
    requires fuel { fuel ≤ 32768 }
    requires locks { length program.now.locks ≤ 32 }
    requires phase { (locks : ℕ) × IsPhase (length program.now.memory) locks phase.now }
    ensures { IfOk result (λ reason. reason ≡ by_takings program.now fuel phase.now first.now why sought.0 sought.1) }
{
    let marks = marks_of(alloc, program, phase)?;
    let takings = takings_in(alloc, program, code, fuel, phase, first, marks.as_slice())?;
    let (all, _) = alone_in(alloc, program, code, fuel, phase, first)?;
    let rows = all_leading(all.as_slice(), 32);
    Ok(Reason {
        why,
        dependence: None,
        first: last_sought(&rows, sought.0, takings.as_slice()),
        second: last_sought(&rows, sought.1, takings.as_slice()),
    })
}

/// The reason for which the phase is open so, with this memory at its beginning.
fn reason_in(
    alloc: Global,
    program: &Program,
    code: &DecodedCode,
    fuel: u32,
    phase: &Phase,
    first: &[Value],
    why: Open,
) -> Result<Reason, Memory>
    requires code { IsDecoded program.now code.now }
    requires fuel { fuel ≤ 32768 }
    requires locks { length program.now.locks ≤ 32 }
    requires phase { (locks : ℕ) × IsPhase (length program.now.memory) locks phase.now }
    ensures { IfOk result (λ reason. reason ≡ reason_in program.now fuel phase.now first.now why) }
{
    match why {
        Open::Control { core, .. } => {
            let marks = marks_of(alloc, program, phase)?;
            let marks = marks.as_slice();
            let dependence = dependence_in(alloc, program, code, fuel, phase, first, marks, core)?;
            Ok(Reason {
                why,
                dependence,
                first: None,
                second: None,
            })
        }
        Open::Held { core, lock, .. } => {
            let sought = (Sought::Own { core, lock }, Sought::Other { core, lock });
            by_takings(alloc, program, code, fuel, phase, first, why, sought)
        }
        Open::Stuck { lock, .. } => {
            let sought = (Sought::Onward { lock }, Sought::Back { lock });
            by_takings(alloc, program, code, fuel, phase, first, why, sought)
        }
    }
}

/// Why the answer of a program is open, whose code words are decoded.
#[tactic(auto, unfolding(crate::specs::Reasons::reason_of))]
fn reason_by(
    alloc: Global,
    program: &Program,
    code: &DecodedCode,
    fuel: u32,
) -> Result<Option<Reason>, Memory>
    requires code { IsDecoded program.now code.now }
    requires fuel { fuel ≤ 32768 }
    ensures { IfOk result (λ reason. reason ≡ reason_of program.now fuel) }
{
    a_program_is_well_formed(program);
    let mut now = Settled {
        ends: Sequence::new(alloc),
        memory: all_known(alloc, program.memory.as_slice())?,
    };
    for (number, phase) in program.phases.as_slice().iter().enumerate() {
        match now.go_on(alloc, program, code, fuel, PhaseId(number as u32), phase)? {
            Progress::Open { open } => {
                let first = now.memory.as_slice();
                return Ok(Some(reason_in(alloc, program, code, fuel, phase, first, open)?));
            }
            Progress::Over => return Ok(None),
            Progress::Goes => {}
        }
    }
    Ok(None)
}

/// Why the answer of a checked program and a fuel, from 1 to 32,768, is open: the register on which control depends, and the load that its
/// value comes from; or where a lock is acquired with which a task ends, or that is on a circle of locks. None where the answer is settled.
///
/// The tasks of the phase that is open run alone once more.
///
/// # Errors
/// `Memory` as for `outcomes`, and if there is no room for the acquires.
pub fn why_open(alloc: Global, checked: &Checked, fuel: u32) -> Result<Option<Reason>, Memory>
    requires some { 1 ≤ fuel }
    requires most { fuel ≤ 32768 }
    ensures { IfOk result (λ reason. reason ≡ reason_of checked.now fuel) }
{
    let program = checked.program();
    a_program_has_words(program);
    a_program_is_well_formed(program);
    let code = DecodedCode::new(alloc, program)?;
    reason_by(alloc, program, &code, fuel)
}
