//! Sentences on how a task stands at the end of a run.
ghost use Rattle.std.specs.Prelude.{◌≡◌, ◌++◌, OnOk};
ghost use Rattle.sentences.specs.Quotes.{AreSpans};
ghost use Rattle.sentences.specs.Told.{AreTold};
ghost use Rattle.sentences.specs.Endings.{see_loop, which_line, declares_word, the_task, declared_by_line, declared_text, task_text, code_place_at, ended_at, place_behind, line_at, fuel_remedy, out_of_fuel, fuel_text, not_given_up, holds_it, holder_untold, holder_text, wait_remedy, wait_text, ending_text};

use crate::going_on::{push_acquire_place, push_next, push_place_behind, push_wait_place};
use crate::told::ToldEffects;
use crate::traps::push_trap;
use dn_base::Memory;
use region_table::{FIRST_CODE_ADDRESS, Program};
use rv_core::{EndShown, TaskEnd};
use src_text::Span;
use text_pieces::{push, push_decimal};
use text_places::{CodePlace, Located, Places, TaskPlace, push_lock};

/// The greatest number of instructions that a task may retire.
const MOST_FUEL: u32 = 32768;

/// What is known of a task that waits for a lock or is out of fuel, at the end of a run.
#[derive(Clone, Copy, Debug)]
pub struct Standstill {
    /// The address of the task's next instruction, in bytes.
    pub pc: Option<u32>,
    /// The core whose task holds the lock for which this task waits.
    pub holder: Option<u32>,
    /// The address of the ECALL by which that task acquired the lock, in bytes.
    pub acquired: Option<u32>,
}

#[tactic(auto, unfolding(crate::specs::Endings::which_line))]
fn push_which_line(out: &mut Vec<u8>) -> Result<(), Memory>
    ensures { OnOk result (out.new.items ≡ out.old.items ++ which_line) }
{
    push(out, b", which line ")
}

#[tactic(auto, unfolding(crate::specs::Endings::declares_word))]
fn push_declares_word(out: &mut Vec<u8>) -> Result<(), Memory>
    ensures { OnOk result (out.new.items ≡ out.old.items ++ declares_word) }
{
    push(out, b" declares,")
}

#[tactic(auto, unfolding(crate::specs::Endings::declared_by_line))]
fn push_declared_by_line(out: &mut Vec<u8>, place: TaskPlace) -> Result<(), Memory>
    ensures { OnOk result (out.new.items ≡ out.old.items ++ declared_by_line place) }
{
    push_which_line(out)?;
    push_decimal(out, place.line)?;
    push_declares_word(out)
}

/// Adds the line that declares a task.
fn push_declared(out: &mut Vec<u8>, place: Option<TaskPlace>) -> Result<(), Memory>
    ensures { OnOk result (out.new.items ≡ out.old.items ++ declared_text place) }
{
    match place {
        Some(place) => push_declared_by_line(out, place),
        None => Ok(()),
    }
}

#[tactic(auto, unfolding(crate::specs::Endings::the_task))]
fn push_the_task(out: &mut Vec<u8>) -> Result<(), Memory>
    ensures { OnOk result (out.new.items ≡ out.old.items ++ the_task) }
{
    push(out, b"  The task of core ")
}

/// Adds a task by its core and phase, and the line that declares it.
#[tactic(auto, unfolding(crate::specs::Endings::task_text))]
fn push_task(out: &mut Vec<u8>, places: &Places, phase: u32, core: u32) -> Result<(), Memory>
    ensures { OnOk result (out.new.items ≡ out.old.items ++ task_text places.now phase core) }
{
    push_the_task(out)?;
    push_decimal(out, core)?;
    push(out, b" in phase ")?;
    push_decimal(out, phase)?;
    push_declared(out, places.task(phase as usize, core))
}

/// The place in the text of the code word at an address, if there is one. Takes no memory.
pub fn code_place_at(places: &Places, address: u32) -> Option<CodePlace>
    ensures { result ≡ code_place_at places.now address }
{
    if FIRST_CODE_ADDRESS <= address && address % 4 == 0 {
        places.code_word(((address - FIRST_CODE_ADDRESS) / 4) as usize)
    } else {
        None
    }
}

#[tactic(auto, unfolding(crate::specs::Endings::ended_at))]
fn push_ended_at(
    out: &mut Vec<u8>,
    text: &[u8],
    spans: &[Span],
    place: CodePlace,
) -> Result<(), Memory>
    requires { AreSpans text.now spans.now }
    ensures { OnOk result (out.new.items ≡ out.old.items ++ place_behind ended_at text.now place) }
{
    push_place_behind(out, b" ended at ", text, spans, place)
}

/// Adds where a task ended.
fn push_end(
    out: &mut Vec<u8>,
    text: &[u8],
    spans: &[Span],
    place: Option<CodePlace>,
) -> Result<(), Memory>
    requires { AreSpans text.now spans.now }
    ensures { OnOk result (out.new.items ≡ out.old.items ++ line_at text.now place) }
{
    match place {
        Some(place) => push_ended_at(out, text, spans, place),
        None => push(out, b" ended where there is no code.\n"),
    }
}

/// How a task of so many instructions may go on.
fn fuel_remedy(retired: u32) -> &'static [u8]
    ensures { result.now ≡ fuel_remedy retired }
{
    if retired < MOST_FUEL {
        b" If it only takes long, the option `--fuel` gives it more."
    } else {
        b" It can't be given more instructions than that: if it only takes long, have several tasks share its work."
    }
}

#[tactic(auto, unfolding(crate::specs::Endings::out_of_fuel))]
fn push_out_of_fuel(out: &mut Vec<u8>) -> Result<(), Memory>
    ensures { OnOk result (out.new.items ≡ out.old.items ++ out_of_fuel) }
{
    push(
        out,
        b" has retired as many instructions as it may, and hasn't ended.\n",
    )
}

#[tactic(auto, unfolding(crate::specs::Endings::see_loop))]
fn push_see_loop(out: &mut Vec<u8>) -> Result<(), Memory>
    ensures { OnOk result (out.new.items ≡ out.old.items ++ see_loop) }
{
    push(out, b"  See whether its loop ends.")
}

/// Adds what is said of a task that is out of fuel. Its next instruction is at the address `pc`, if that is known.
#[tactic(auto, unfolding(crate::specs::Endings::fuel_text))]
fn push_fuel(
    out: &mut Vec<u8>,
    text: &[u8],
    spans: &[Span],
    located: &Located,
    pc: Option<u32>,
    retired: u32,
) -> Result<(), Memory>
    requires { AreSpans text.now spans.now }
    ensures { OnOk result (out.new.items ≡ out.old.items ++ fuel_text text.now located.now pc retired) }
{
    push_out_of_fuel(out)?;
    push_next(out, text, spans, located, pc)?;
    push_see_loop(out)?;
    push(out, fuel_remedy(retired))?;
    push(out, b"\n")
}

#[tactic(auto, unfolding(crate::specs::Endings::not_given_up))]
fn push_not_given_up(out: &mut Vec<u8>) -> Result<(), Memory>
    ensures { OnOk result (out.new.items ≡ out.old.items ++ not_given_up) }
{
    push(out, b", which isn't given up.\n")
}

#[tactic(auto, unfolding(crate::specs::Endings::wait_text))]
fn push_wait(out: &mut Vec<u8>, program: &Program, lock: u32) -> Result<(), Memory>
    ensures { OnOk result (out.new.items ≡ out.old.items ++ wait_text program.now lock) }
{
    push(out, b" waits for ")?;
    push_lock(out, program.locks.as_slice(), lock as usize)?;
    push_not_given_up(out)
}

#[tactic(auto, unfolding(crate::specs::Endings::holds_it))]
fn push_holds_it(out: &mut Vec<u8>) -> Result<(), Memory>
    ensures { OnOk result (out.new.items ≡ out.old.items ++ holds_it) }
{
    push(out, b" holds this lock.\n")
}

#[tactic(auto, unfolding(crate::specs::Endings::holder_untold))]
fn push_holder_untold(out: &mut Vec<u8>) -> Result<(), Memory>
    ensures { OnOk result (out.new.items ≡ out.old.items ++ holder_untold) }
{
    push(
        out,
        b"  The grants in this answer don't tell which task holds the lock.\n",
    )
}

/// Adds which task of the phase holds a lock, if its core is known, and the line by which it acquired it, which has the address
/// `acquired`, if that is known.
fn push_holder(
    out: &mut Vec<u8>,
    text: &[u8],
    spans: &[Span],
    located: &Located,
    phase: u32,
    holder: Option<u32>,
    acquired: Option<u32>,
) -> Result<(), Memory>
    requires { AreSpans text.now spans.now }
    ensures { OnOk result (out.new.items ≡ out.old.items ++ holder_text text.now located.now phase holder acquired) }
{
    match holder {
        Some(core) => {
            push_task(out, &located.places, phase, core)?;
            push_holds_it(out)?;
            push_acquire_place(out, text, spans, located, acquired)
        }
        None => push_holder_untold(out),
    }
}

#[tactic(auto, unfolding(crate::specs::Endings::wait_remedy))]
fn push_wait_remedy(out: &mut Vec<u8>) -> Result<(), Memory>
    ensures { OnOk result (out.new.items ≡ out.old.items ++ wait_remedy) }
{
    push(
        out,
        b"  Have each task release what it acquires, and all tasks acquire their locks in one order.\n",
    )
}

/// Appends the sentences on how a task of the text's program stands at the end of a run; nothing if it has finished.
///
/// `spans` are the places of the text's lines, and `effects` what its tasks declare. `still` has what is known of a task that waits
/// or is out of fuel; nothing of it is said of another.
///
/// # Errors
/// `Memory` if there is no room; the text may have a part of the sentences then.
pub fn push_ending<'a>(
    out: &mut Vec<u8>,
    text: &[u8],
    spans: &[Span],
    effects: &ToldEffects<'a>,
    located: &'a Located,
    task: TaskEnd,
    still: Standstill,
) -> Result<(), Memory>
    requires spans { AreSpans text.now spans.now }
    requires effects { AreTold text.now effects.now }
    ensures { OnOk result (out.new.items ≡ out.old.items ++ ending_text text.now located.now still task) }
{
    let (phase, core) = (task.phase.0, task.core.0);
    match task.end {
        EndShown::Finished => Ok(()),
        EndShown::Fuel => {
            push_task(out, &located.places, phase, core)?;
            push_fuel(out, text, spans, located, still.pc, task.retired)
        }
        EndShown::Trap {
            kind,
            pc: at,
            value,
        } => {
            push_task(out, &located.places, phase, core)?;
            push_end(out, text, spans, code_place_at(&located.places, at))?;
            push_trap(out, text, effects, located, (phase, core), kind, at, value)
        }
        EndShown::Waits { lock } => {
            let Standstill {
                pc,
                holder,
                acquired,
            } = still;
            push_task(out, &located.places, phase, core)?;
            push_wait(out, &located.program, lock.0)?;
            push_wait_place(out, text, spans, located, pc)?;
            push_holder(out, text, spans, located, phase, holder, acquired)?;
            push_wait_remedy(out)
        }
    }
}
