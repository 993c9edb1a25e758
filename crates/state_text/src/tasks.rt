//! The lines of a core's task: how it stands, where it is, how many instructions it has retired, and which locks it holds.
ghost use Rattle.std.specs.Prelude.{◌≡◌, ◌<◌, ◌≤◌, ◌++◌, flat_map, length, OnOk};
ghost use Rattle.std.specs.List.{range_with_len};
ghost use Rattle.rv_core.specs.Access.{is_held};
ghost use Rattle.state_text.specs.Cores.{no_task_line, running_line, ended_line, standing_line, code_number, at_code_line, no_code_line, at_line_by, at_line_of, retired_line, task_facts, holds_line, held_line, held_lines};

use crate::called::push_core;
use dn_base::{CoreId, Memory};
use region_table::{FIRST_CODE_ADDRESS, Program};
use registration_protocol::Node;
use run_report::push_end;
use rv_core::{End, EndShown};
use rv_listing::push_code_word;
use text_pieces::{push, push_decimal, push_hexadecimal};
use text_places::{CodePlace, Places, push_code_place, push_lock};

#[tactic(auto, unfolding(crate::specs::Cores::no_task_line))]
fn push_no_task(out: &mut Vec<u8>, core: CoreId) -> Result<(), Memory>
    ensures { OnOk result (out.new.items ≡ out.old.items ++ no_task_line core.0) }
{
    push_core(out, core)?;
    push(out, b" no task")?;
    push(out, b"\n")
}

#[tactic(auto, unfolding(crate::specs::Cores::running_line))]
fn push_running(out: &mut Vec<u8>, core: CoreId) -> Result<(), Memory>
    ensures { OnOk result (out.new.items ≡ out.old.items ++ running_line core.0) }
{
    push_core(out, core)?;
    push(out, b" task goes on")?;
    push(out, b"\n")
}

#[tactic(auto, unfolding(crate::specs::Cores::ended_line))]
fn push_ended(out: &mut Vec<u8>, core: CoreId, end: End) -> Result<(), Memory>
    ensures { OnOk result (out.new.items ≡ out.old.items ++ ended_line core.0 end) }
{
    push_core(out, core)?;
    push(out, b" task ")?;
    push_end(out, EndShown::from(end))?;
    push(out, b"\n")
}

/// Adds whether a task is running, or how it has ended.
fn push_standing(out: &mut Vec<u8>, core: CoreId, end: Option<End>) -> Result<(), Memory>
    ensures { OnOk result (out.new.items ≡ out.old.items ++ standing_line core.0 end) }
{
    match end {
        None => push_running(out, core),
        Some(end) => push_ended(out, core, end),
    }
}

/// The number of the code word that has an address.
fn code_number(address: u32) -> Option<usize>
    ensures { result ≡ code_number address }
{
    if FIRST_CODE_ADDRESS <= address && address % 4 == 0 {
        Some(((address - FIRST_CODE_ADDRESS) / 4) as usize)
    } else {
        None
    }
}

#[tactic(auto, unfolding(crate::specs::Cores::at_code_line))]
fn push_at_code(
    out: &mut Vec<u8>,
    core: CoreId,
    address: u32,
    place: CodePlace,
    word: u32,
) -> Result<(), Memory>
    ensures { OnOk result (out.new.items ≡ out.old.items ++ at_code_line core.0 address place word) }
{
    push_core(out, core)?;
    push(out, b" at ")?;
    push_hexadecimal(out, address)?;
    push(out, b", ")?;
    push_code_place(out, place)?;
    push(out, b": ")?;
    push_code_word(out, word)?;
    push(out, b"\n")
}

#[tactic(auto, unfolding(crate::specs::Cores::no_code_line))]
fn push_no_code(out: &mut Vec<u8>, core: CoreId, address: u32) -> Result<(), Memory>
    ensures { OnOk result (out.new.items ≡ out.old.items ++ no_code_line core.0 address) }
{
    push_core(out, core)?;
    push(out, b" at ")?;
    push_hexadecimal(out, address)?;
    push(out, b", no code")?;
    push(out, b"\n")
}

/// Adds the origin of the code word at an address, if it is one of the program's and has one.
fn push_at_place(
    out: &mut Vec<u8>,
    core: CoreId,
    address: u32,
    place: Option<CodePlace>,
    word: Option<u32>,
) -> Result<(), Memory>
    ensures { OnOk result (out.new.items ≡ out.old.items ++ at_line_by core.0 address place word) }
{
    match (place, word) {
        (Some(place), Some(word)) => push_at_code(out, core, address, place, word),
        _ => push_no_code(out, core, address),
    }
}

/// Adds where a task is: the address, the line that the code word comes from, and its instruction.
fn push_at(
    out: &mut Vec<u8>,
    program: &Program,
    places: &Places,
    core: CoreId,
    address: u32,
) -> Result<(), Memory>
    ensures { OnOk result (out.new.items ≡ out.old.items ++ at_line_of program.now places.now core.0 address (code_number address)) }
{
    match code_number(address) {
        Some(number) => {
            let word = program.code.get(number).copied();
            push_at_place(out, core, address, places.code_word(number), word)
        }
        None => push_no_code(out, core, address),
    }
}

#[tactic(auto, unfolding(crate::specs::Cores::retired_line))]
fn push_retired(out: &mut Vec<u8>, core: CoreId, retired: u32) -> Result<(), Memory>
    ensures { OnOk result (out.new.items ≡ out.old.items ++ retired_line core.0 retired) }
{
    push_core(out, core)?;
    push(out, b" retired ")?;
    push_decimal(out, retired)?;
    push(out, b"\n")
}

/// Adds how a core's task stands, where it is, and how many instructions it has retired.
pub(crate) fn push_task(
    out: &mut Vec<u8>,
    program: &Program,
    places: &Places,
    node: &Node,
) -> Result<(), Memory>
    ensures { OnOk result (out.new.items ≡ out.old.items ++ task_facts program.now places.now node.now.core node.now.task) }
{
    let core = node.core();
    match node.task() {
        None => push_no_task(out, core),
        Some(task) => {
            push_standing(out, core, task.end)?;
            push_at(out, program, places, core, task.pc)?;
            push_retired(out, core, task.retired)
        }
    }
}

/// Whether a lock is among those that are held.
fn is_held(held: u32, lock: u32) -> bool
    requires { lock < 32 }
    ensures { result ≡ is_held held lock }
{
    held & (1 << lock) != 0
}

#[tactic(auto, unfolding(crate::specs::Cores::holds_line))]
fn push_holds(out: &mut Vec<u8>, program: &Program, core: CoreId, lock: u32) -> Result<(), Memory>
    ensures { OnOk result (out.new.items ≡ out.old.items ++ holds_line program.now core.0 lock) }
{
    push_core(out, core)?;
    push(out, b" holds ")?;
    push_lock(out, program.locks.as_slice(), lock as usize)?;
    push(out, b"\n")
}

/// Adds that a core's task holds a lock, if it does.
fn push_if_held(
    out: &mut Vec<u8>,
    program: &Program,
    core: CoreId,
    held: u32,
    lock: u32,
) -> Result<(), Memory>
    requires { lock < 32 }
    ensures { OnOk result (out.new.items ≡ out.old.items ++ held_line program.now core.0 held lock) }
{
    if is_held(held, lock) {
        push_holds(out, program, core, lock)?;
    }
    Ok(())
}

/// How many locks a program has.
pub(crate) fn lock_count(program: &Program) -> u32
    ensures count { result ≡ length program.now.locks }
    ensures few { result ≤ 32 }
{
    program.locks.len() as u32
}

/// Adds the locks among the program's that are held.
fn push_all_held(
    out: &mut Vec<u8>,
    program: &Program,
    core: CoreId,
    held: u32,
) -> Result<(), Memory>
    ensures { OnOk result (out.new.items ≡ out.old.items ++ flat_map (held_line program.now core.0 held) (range_with_len 0 (length program.now.locks))) }
{
    for lock in 0..lock_count(program) {
        push_if_held(out, program, core, held, lock)?;
    }
    Ok(())
}

/// Adds the locks that a core's task holds.
pub(crate) fn push_held(out: &mut Vec<u8>, program: &Program, node: &Node) -> Result<(), Memory>
    ensures { OnOk result (out.new.items ≡ out.old.items ++ held_lines program.now node.now.core node.now.task) }
{
    match node.task() {
        None => Ok(()),
        Some(task) => push_all_held(out, program, node.core(), task.held),
    }
}
