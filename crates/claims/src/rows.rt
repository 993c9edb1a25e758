ghost use Rattle.std.specs.Prelude.{◌≡◌, ℕ, List, [], IfSome, IfNone, IfOk, IfErr};
ghost use Rattle.text_pieces.specs.Field.{Stands, NoneStands};
ghost use Rattle.claims.specs.Claim.{IsGrant, grant_row, IsTaskHead, task_head_row, IsLoad, load_row, IsLoadsHead, loads_head_row, IsTask, task_rows};
ghost use Rattle.claims.specs.Rows.{StandThree, AreCounted, IsTaskMore, FailsGrants, FailsLoads, FailsTask, FailsTasks};

use crate::claim::ClaimFault;
use dn_base::{CoreId, Grant, LoadSeen, LockId, PhaseId, Sequence, WordId};
use flat_machine::TaskLoads;
use std::alloc::Global;
use text_pieces::{behind, field, hexadecimal};

/// A task, and how many loads of it follow.
#[derive(Clone, Copy)]
pub(crate) struct TaskHead {
    pub(crate) phase: PhaseId,
    pub(crate) core: CoreId,
    pub(crate) count: u32,
}

/// The three numbers that stand at the start of some bytes after a name, and end a line; and what follows them.
fn three_numbers<'a>(bytes: &'a [u8], name: &[u8]) -> Option<(u32, u32, u32, &'a [u8])>
    ensures some { IfSome result (λ f. StandThree name.now bytes.now f.0 f.1 f.2 f.3.now) }
    ensures none { IfNone result ((first second third : ℕ) (rest : List ℕ) → StandThree name.now bytes.now first second third rest → ⊥) }
{
    let (first, bytes) = field(bytes, name, 0, u32::MAX, b' ')?;
    let (second, bytes) = field(bytes, b"", 0, u32::MAX, b' ')?;
    let (third, rest) = field(bytes, b"", 0, u32::MAX, b'\n')?;
    Some((first, second, third, rest))
}

/// The grant whose line stands at the start of some bytes, and what follows that.
fn grant(bytes: &[u8]) -> Option<(Grant, &[u8])>
    ensures some { IfSome result (λ f. Stands IsGrant grant_row bytes.now f.0 f.1.now) }
    ensures none { IfNone result (NoneStands IsGrant grant_row bytes.now) }
{
    let (phase, core, lock, rest) = three_numbers(bytes, b"grant ")?;
    let grant = Grant {
        phase: PhaseId(phase),
        core: CoreId(core),
        lock: LockId(lock),
    };
    Some((grant, rest))
}

/// The task whose line stands at the start of some bytes, and what follows that.
fn task_head(bytes: &[u8]) -> Option<(TaskHead, &[u8])>
    ensures some { IfSome result (λ f. Stands IsTaskHead task_head_row bytes.now f.0 f.1.now) }
    ensures none { IfNone result (NoneStands IsTaskHead task_head_row bytes.now) }
{
    let (phase, core, count, rest) = three_numbers(bytes, b"task ")?;
    let head = TaskHead {
        phase: PhaseId(phase),
        core: CoreId(core),
        count,
    };
    Some((head, rest))
}

/// The load whose line stands at the start of some bytes, and what follows that.
fn load(bytes: &[u8]) -> Option<(LoadSeen, &[u8])>
    ensures some { IfSome result (λ f. Stands IsLoad load_row bytes.now f.0 f.1.now) }
    ensures none { IfNone result (NoneStands IsLoad load_row bytes.now) }
{
    let (word, bytes) = field(bytes, b"", 0, u32::MAX, b' ')?;
    let (value, bytes) = hexadecimal(bytes)?;
    let rest = behind(bytes, b"\n")?;
    let word = WordId(word);
    Some((LoadSeen { word, value }, rest))
}

/// The line at the start of some bytes that says of how many tasks the loads are claimed, and what follows it.
pub(crate) fn loads_head(bytes: &[u8]) -> Option<(Option<u32>, &[u8])>
    ensures some { IfSome result (λ f. Stands IsLoadsHead loads_head_row bytes.now f.0 f.1.now) }
    ensures none { IfNone result (NoneStands IsLoadsHead loads_head_row bytes.now) }
{
    if let Some(rest) = behind(bytes, b"loads none\n") {
        return Some((None, rest));
    }
    let (count, rest) = field(bytes, b"loads ", 0, u32::MAX, b'\n')?;
    Some((Some(count), rest))
}

/// Adds this many grants, whose lines stand at the start of some bytes. The answer is what follows these.
///
/// # Errors
/// `Grant` where a line isn't there whole in its form, and `Memory`.
pub(crate) fn push_grants<'a>(
    grants: &mut Sequence<Grant>,
    count: u32,
    bytes: &'a [u8],
) -> Result<&'a [u8], ClaimFault>
    requires { grants.old ≡ [] }
    ensures ok { IfOk result (λ rest. AreCounted IsGrant grant_row bytes.now count grants.new rest.now) }
    ensures err { IfErr result (FailsGrants bytes.now count) }
{
    let mut rest = bytes;
    for number in 0..count {
        let Some((found, behind)) = grant(rest) else {
            return Err(ClaimFault::Grant { number });
        };
        grants.push(found)?;
        rest = behind;
    }
    Ok(rest)
}

/// Adds this many loads of this task, whose lines stand at the start of some bytes. The answer is what follows these.
///
/// # Errors
/// `Load` where a line isn't there whole in its form, and `Memory`.
fn push_loads<'a>(
    loads: &mut Sequence<LoadSeen>,
    task: u32,
    count: u32,
    bytes: &'a [u8],
) -> Result<&'a [u8], ClaimFault>
    requires { loads.old ≡ [] }
    ensures ok { IfOk result (λ rest. AreCounted IsLoad load_row bytes.now count loads.new rest.now) }
    ensures err { IfErr result (FailsLoads bytes.now count task) }
{
    let mut rest = bytes;
    for number in 0..count {
        let Some((found, behind)) = load(rest) else {
            return Err(ClaimFault::Load { task, number });
        };
        loads.push(found)?;
        rest = behind;
    }
    Ok(rest)
}

/// Adds the task of this number whose line and loads stand at the start of some bytes. The answer is what follows these.
///
/// # Errors
/// `Task` or `Load` where a line isn't there whole in its form, and `Memory`.
fn push_task<'a>(
    alloc: Global,
    tasks: &mut Sequence<TaskLoads>,
    number: u32,
    bytes: &'a [u8],
) -> Result<&'a [u8], ClaimFault>
    ensures ok { IfOk result (λ rest. IsTaskMore bytes.now tasks.old tasks.new rest.now) }
    ensures err { IfErr result (FailsTask bytes.now number) }
{
    let Some((head, behind)) = task_head(bytes) else {
        return Err(ClaimFault::Task { number });
    };
    let mut loads = Sequence::new(alloc);
    let rest = push_loads(&mut loads, number, head.count, behind)?;
    tasks.push(TaskLoads {
        phase: head.phase,
        core: head.core,
        loads,
    })?;
    Ok(rest)
}

/// Adds this many tasks, which stand at the start of some bytes. The answer is what follows these.
///
/// # Errors
/// `Task` or `Load` where a line isn't there whole in its form, and `Memory`.
pub(crate) fn push_tasks<'a>(
    alloc: Global,
    tasks: &mut Sequence<TaskLoads>,
    count: u32,
    bytes: &'a [u8],
) -> Result<&'a [u8], ClaimFault>
    requires { tasks.old ≡ [] }
    ensures ok { IfOk result (λ rest. AreCounted IsTask task_rows bytes.now count tasks.new rest.now) }
    ensures err { IfErr result (FailsTasks bytes.now count) }
{
    let mut rest = bytes;
    for number in 0..count {
        rest = push_task(alloc, tasks, number, rest)?;
    }
    Ok(rest)
}
