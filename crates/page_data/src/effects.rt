//! Which words each task declares to use.
ghost use Rattle.std.specs.Prelude.{true, ◌≡◌, ◌++◌, ◌∷◌, ◌≤◌, [], length, OnOk};
ghost use Rattle.page_data.specs.Json.{gap, item_texts};
ghost use Rattle.page_data.specs.Data.{reads_text, writes_text, guarded_reads_text, guarded_writes_text, effects_text, effects_item, is_still_first, effects_items, effects_list, effects_field};

use crate::json::push_gap;
use crate::lists::push_named_list;
use dn_base::Memory;
use region_table::{Effects, Phase, Program, TaskDecl};
use text_pieces::Piece::{Bytes, Number};
use text_pieces::{push, push_pieces};

#[tactic(auto, unfolding(crate::specs::Data::reads_text))]
fn push_reads(out: &mut Vec<u8>, effects: &Effects) -> Result<(), Memory>
    ensures { OnOk result (out.new.items ≡ out.old.items ++ reads_text effects.now) }
{
    push_named_list(out, b",", effects.reads.intervals())
}

#[tactic(auto, unfolding(crate::specs::Data::writes_text))]
fn push_writes(out: &mut Vec<u8>, effects: &Effects) -> Result<(), Memory>
    ensures { OnOk result (out.new.items ≡ out.old.items ++ writes_text effects.now) }
{
    push_named_list(out, b",", effects.writes.intervals())
}

#[tactic(auto, unfolding(crate::specs::Data::guarded_reads_text))]
fn push_guarded_reads(out: &mut Vec<u8>, effects: &Effects) -> Result<(), Memory>
    ensures { OnOk result (out.new.items ≡ out.old.items ++ guarded_reads_text effects.now) }
{
    push_named_list(out, b",", effects.guarded_reads.as_slice())
}

#[tactic(auto, unfolding(crate::specs::Data::guarded_writes_text))]
fn push_guarded_writes(out: &mut Vec<u8>, effects: &Effects) -> Result<(), Memory>
    ensures { OnOk result (out.new.items ≡ out.old.items ++ guarded_writes_text effects.now) }
{
    push_named_list(out, b",", effects.guarded_writes.as_slice())
}

/// Adds the words that a task may load, and those that it may store too; then the same by lock, of the words that it may use
/// while it holds the lock.
#[tactic(auto, unfolding(crate::specs::Data::effects_text))]
fn push_effects(out: &mut Vec<u8>, effects: &Effects) -> Result<(), Memory>
    ensures { OnOk result (out.new.items ≡ out.old.items ++ effects_text effects.now) }
{
    push_reads(out, effects)?;
    push_writes(out, effects)?;
    push_guarded_reads(out, effects)?;
    push_guarded_writes(out, effects)
}

/// Adds what a task of a phase declares.
#[tactic(auto, unfolding(crate::specs::Json::further_all, crate::specs::Data::effects_item))]
fn push_task(out: &mut Vec<u8>, phase: u32, task: &TaskDecl) -> Result<(), Memory>
    ensures { OnOk result (out.new.items ≡ out.old.items ++ effects_item phase task.now) }
{
    push_pieces(
        out,
        &[Bytes(b"["), Number(phase), Bytes(b","), Number(task.core.0)],
    )?;
    push_effects(out, &task.effects)?;
    push(out, b"]")
}

/// Adds what the tasks of a phase declare, before which there may be tasks of earlier phases.
fn push_tasks(out: &mut Vec<u8>, begins: bool, phase: u32, tasks: &[TaskDecl]) -> Result<(), Memory>
    ensures { OnOk result (out.new.items ≡ out.old.items ++ item_texts (effects_item phase) begins tasks.now) }
{
    let mut first = begins;
    for task in tasks {
        push_gap(out, first)?;
        push_task(out, phase, task)?;
        first = false;
    }
    Ok(())
}

/// Whether the next task is the first one, after these.
fn is_still_first(first: bool, tasks: &[TaskDecl]) -> bool
    ensures { result ≡ is_still_first first tasks.now }
{
    first && tasks.is_empty()
}

/// Adds what the tasks of phases declare, of which there are at most 64.
fn push_effects_items(out: &mut Vec<u8>, phases: &[Phase]) -> Result<(), Memory>
    requires { length phases.now ≤ 64 }
    ensures { OnOk result (out.new.items ≡ out.old.items ++ effects_items true 0 phases.now) }
{
    let mut first = true;
    let mut number = 0;
    for phase in phases {
        let tasks = phase.tasks.as_slice();
        push_tasks(out, first, number, tasks)?;
        first = is_still_first(first, tasks);
        number += 1;
    }
    Ok(())
}

#[tactic(auto, unfolding(crate::specs::Data::effects_list))]
fn push_effects_list(out: &mut Vec<u8>, phases: &[Phase]) -> Result<(), Memory>
    requires { length phases.now ≤ 64 }
    ensures { OnOk result (out.new.items ≡ out.old.items ++ effects_list phases.now) }
{
    push(out, b"[")?;
    push_effects_items(out, phases)?;
    push(out, b"]")
}

/// Adds what each task of a program declares.
#[tactic(auto, unfolding(crate::specs::Data::effects_field))]
pub(crate) fn push_effects_field(out: &mut Vec<u8>, program: &Program) -> Result<(), Memory>
    requires { length program.now.phases ≤ 64 }
    ensures { OnOk result (out.new.items ≡ out.old.items ++ effects_field program.now) }
{
    push(out, b",\"effects\":")?;
    push_effects_list(out, program.phases.as_slice())
}
