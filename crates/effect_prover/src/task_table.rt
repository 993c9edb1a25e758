//! The least table of a task. It is kept for the next tasks with the same entry and argument.
ghost use Rattle.std.specs.Prelude.{◌≡◌, true, length, IfOk};
ghost use Rattle.region_table.specs.Program.{ProgramParts, IsProgram};
ghost use Rattle.effect_prover.specs.Sweep.{HasHeads};
ghost use Rattle.effect_prover.specs.Kept.{IsTaskTable, IsTableKept, IsTableReady};

use crate::blocks::leaders;
use crate::row::Row;
use crate::sweep::least_table;
use dn_base::Memory;
use region_table::{Program, TaskDecl};
use std::alloc::Global;

/// The least table of all tasks with this entry and argument, by its rows at the leaders.
#[derive(Drop)]
pub(crate) struct TaskTable {
    pub(crate) entry: u32,
    pub(crate) arg: u32,
    pub(crate) leaders: Vec<bool>,
    pub(crate) rows: Vec<Option<Row>>,
}

/// The least table of a task.
fn table_of(
    alloc: Global,
    program: &Program,
    task: &TaskDecl,
    heads: &[bool],
) -> Result<TaskTable, Memory>
    requires program { IsProgram program.now }
    requires heads { HasHeads program.now.code heads.now }
    ensures table { IfOk result (IsTaskTable program.now) }
    ensures entry { IfOk result (λ table. table.entry ≡ task.now.entry) }
    ensures argument { IfOk result (λ table. table.arg ≡ task.now.arg) }
{
    let leaders = leaders(alloc, program, task)?;
    let rows = least_table(alloc, program, task, heads, leaders.as_slice())?;
    Ok(TaskTable {
        entry: task.entry,
        arg: task.arg,
        leaders,
        rows,
    })
}

/// Whether the kept table is the task's.
fn is_ready(kept: &Option<TaskTable>, task: &TaskDecl) -> bool
    ensures { result ≡ true → (P : ProgramParts) → IsTableKept P kept.now → IsTableReady P task.now kept.now }
{
    match kept {
        Some(kept) => kept.entry == task.entry && kept.arg == task.arg,
        None => false,
    }
}

/// Keeps the table of a task. A table for another entry or argument is given back before this one is made.
///
/// # Errors
/// `Memory` where there is no room for the table.
pub(crate) fn keep(
    alloc: Global,
    program: &Program,
    task: &TaskDecl,
    heads: &[bool],
    kept: &mut Option<TaskTable>,
) -> Result<(), Memory>
    requires program { IsProgram program.now }
    requires heads { HasHeads program.now.code heads.now }
    requires kept { IsTableKept program.now kept.old }
    ensures kept { IsTableKept program.now kept.new }
    ensures ready { IfOk result (λ _. IsTableReady program.now task.now kept.new) }
{
    if is_ready(kept, task) {
        return Ok(());
    }
    *kept = None;
    *kept = Some(table_of(alloc, program, task, heads)?);
    Ok(())
}
