//! Where a family of tasks stands among the lines before it.
ghost use Rattle.std.specs.Prelude.{◌≡◌, ◌≤◌, length, map, IfOk};
ghost use Rattle.rv_assembler.specs.Reading.{reading_of};
ghost use Rattle.sentences.specs.Standing.{begins_below, share_core, taken_if, standing_behind, standing_with, standing_after, standing_in};

use dn_base::{MOST_OF_TEXT, Memory};
use rv_assembler::{Cores, Family, Reading, Statement, family_cores, read_line, version_line};
use src_text::{Line, tokens};
use std::alloc::Global;

/// Where a family of tasks stands.
#[derive(Clone, Copy)]
pub(crate) enum Standing {
    /// Before any phase.
    NoPhase,
    /// In a phase that has no task on its cores so far.
    Free,
    /// After a line of its phase that declares a task on one of its cores.
    Taken { line: u32 },
}

/// Whether the first of these cores is below the end of the others.
fn begins_below(cores: &Cores, others: &Cores) -> bool
    ensures { result ≡ begins_below cores.now others.now }
{
    u64::from(cores.first) < u64::from(others.first) + u64::from(others.count)
}

/// Whether two families have a core in common.
#[tactic(auto, unfolding(crate::specs::Standing::share_core))]
fn share_core(family: Family, other: Family) -> bool
    ensures { result ≡ share_core family other }
{
    let cores = family_cores(family);
    let others = family_cores(other);
    begins_below(&cores, &others) && begins_below(&others, &cores)
}

fn taken_if(taken: bool, line: u32) -> Standing
    ensures { result ≡ taken_if taken line }
{
    if taken {
        Standing::Taken { line }
    } else {
        Standing::Free
    }
}

/// Where the family stands after the statement of a line.
fn standing_behind(family: Family, line: u32, standing: Standing, statement: &Statement) -> Standing
    ensures { result ≡ standing_behind family line standing statement.now }
{
    match (standing, *statement) {
        (_, Statement::Phase) => Standing::Free,
        (Standing::Free, Statement::Tasks(other)) => taken_if(share_core(family, other), line),
        _ => standing,
    }
}

/// Where the family stands after one more line, if that stands before the family's line.
fn standing_with(family: Family, line: u32, standing: Standing, reading: &Reading) -> Standing
    ensures { result ≡ standing_with family line standing reading.now }
{
    match reading {
        Reading::Bad(_) => standing,
        Reading::Good(saying) => {
            if saying.line < line {
                standing_behind(family, saying.line, standing, &saying.statement)
            } else {
                standing
            }
        }
    }
}

fn standing_among(text: &[u8], version: u32, lines: &[Line], line: u32, family: Family) -> Standing
    ensures { result ≡ standing_after family line Standing.NoPhase (map (reading_of version text.now) lines.now) }
{
    let mut standing = Standing::NoPhase;
    for earlier in lines {
        standing = standing_with(family, line, standing, &read_line(version, text, earlier));
    }
    standing
}

/// Where the family of tasks of a line stands.
#[tactic(auto, unfolding(crate::specs::Standing::standing_in))]
pub(crate) fn standing_in(
    alloc: Global,
    text: &[u8],
    line: u32,
    family: Family,
) -> Result<Standing, Memory>
    requires { length text.now ≤ MOST_OF_TEXT }
    ensures { IfOk result (λ standing. standing ≡ standing_in text.now line family) }
{
    let tokenized = tokens(alloc, text)?;
    let lines = tokenized.as_slice();
    let version = version_line(text, lines);
    Ok(standing_among(text, version, lines, line, family))
}
