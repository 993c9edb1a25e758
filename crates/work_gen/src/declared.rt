//! The regions, and the phases with their tasks.
ghost use Rattle.std.specs.Prelude.{◌≡◌, ◌+◌, ◌*◌, ◌++◌, ◌<◌, ◌≤◌, OnOk};
ghost use Rattle.work_gen.specs.Work.{region_line, task_line, reads_line, writes_line, filling_task, adding_task, filling_phase, adding_phase, declared_lines};

use crate::pieces::push;
use dn_base::Memory;

#[tactic(auto, unfolding(crate::specs::Work::region_line))]
fn push_region(out: &mut Vec<u8>, name: &str, words: u32) -> Result<(), Memory>
    ensures { OnOk result (out.new.items ≡ out.old.items ++ region_line name.now words) }
{
    let line = format!(in *out.allocator(); ".region {name}, {words}\n")?;
    push(out, line.as_str())
}

#[tactic(auto, unfolding(crate::specs::Work::task_line))]
fn push_task(out: &mut Vec<u8>, label: &str, part: u32, core: u32) -> Result<(), Memory>
    requires part { part ≤ 2048 }
    requires core { core < 4 }
    ensures { OnOk result (out.new.items ≡ out.old.items ++ task_line label.now part core) }
{
    let first = core * part;
    let line = format!(in *out.allocator(); ".task {core}, {label}, {first}\n")?;
    push(out, line.as_str())
}

#[tactic(auto, unfolding(crate::specs::Work::reads_line))]
fn push_reads(out: &mut Vec<u8>, region: &str) -> Result<(), Memory>
    ensures { OnOk result (out.new.items ≡ out.old.items ++ reads_line region.now) }
{
    let line = format!(in *out.allocator(); ".reads {region}\n")?;
    push(out, line.as_str())
}

#[tactic(auto, unfolding(crate::specs::Work::writes_line))]
fn push_writes(out: &mut Vec<u8>, region: &str, part: u32, core: u32) -> Result<(), Memory>
    requires part { part ≤ 2048 }
    requires core { core < 4 }
    ensures { OnOk result (out.new.items ≡ out.old.items ++ writes_line region.now part core) }
{
    let first = core * part;
    let behind = (core + 1) * part;
    let line = format!(in *out.allocator(); ".writes {region}, {first}, {behind}\n")?;
    push(out, line.as_str())
}

/// A task that fills its part of a.
#[tactic(auto, unfolding(crate::specs::Work::filling_task))]
fn push_filling_task(out: &mut Vec<u8>, part: u32, core: u32) -> Result<(), Memory>
    requires part { part ≤ 2048 }
    requires core { core < 4 }
    ensures { OnOk result (out.new.items ≡ out.old.items ++ filling_task part core) }
{
    push_task(out, "init", part, core)?;
    push_writes(out, "a", part, core)
}

/// A task that writes to its part of one region the sums of neighbours of the other.
#[tactic(auto, unfolding(crate::specs::Work::adding_task))]
fn push_adding_task(
    out: &mut Vec<u8>,
    label: &str,
    from: &str,
    to: &str,
    part: u32,
    core: u32,
) -> Result<(), Memory>
    requires part { part ≤ 2048 }
    requires core { core < 4 }
    ensures { OnOk result (out.new.items ≡ out.old.items ++ adding_task label.now from.now to.now part core) }
{
    push_task(out, label, part, core)?;
    push_reads(out, from)?;
    push_writes(out, to, part, core)
}

/// The phase that fills a.
#[tactic(auto, unfolding(crate::specs::Work::filling_phase))]
fn push_filling_phase(out: &mut Vec<u8>, part: u32) -> Result<(), Memory>
    requires { part ≤ 2048 }
    ensures { OnOk result (out.new.items ≡ out.old.items ++ filling_phase part) }
{
    push(out, ".phase\n")?;
    for core in 0..4 {
        push_filling_task(out, part, core)?;
    }
    Ok(())
}

/// A phase that sets the words of one region to sums of words of the other.
#[tactic(auto, unfolding(crate::specs::Work::adding_phase))]
fn push_adding_phase(
    out: &mut Vec<u8>,
    label: &str,
    from: &str,
    to: &str,
    part: u32,
) -> Result<(), Memory>
    requires { part ≤ 2048 }
    ensures { OnOk result (out.new.items ≡ out.old.items ++ adding_phase label.now from.now to.now part) }
{
    push(out, ".phase\n")?;
    for core in 0..4 {
        push_adding_task(out, label, from, to, part, core)?;
    }
    Ok(())
}

/// The two regions and the three phases.
#[tactic(auto, unfolding(crate::specs::Work::declared_lines))]
pub(crate) fn push_declared(out: &mut Vec<u8>, part: u32, words: u32) -> Result<(), Memory>
    requires { part ≤ 2048 }
    ensures { OnOk result (out.new.items ≡ out.old.items ++ declared_lines part words) }
{
    push_region(out, "a", words)?;
    push_region(out, "b", words)?;
    push_filling_phase(out, part)?;
    push_adding_phase(out, "first", "a", "b", part)?;
    push_adding_phase(out, "second", "b", "a", part)
}
