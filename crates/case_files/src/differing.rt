ghost use Rattle.std.specs.Prelude.{◌↔◌, IsTrue};
ghost use Rattle.case_files.specs.Verdict.{IsAsWanted};

use crate::Case;
use crate::agreement::stand_in;
use crate::written::Written;
use std::alloc::{AllocError, Global};

/// Whether the exit code and the output are those that a case wants.
pub(crate) fn is_as_wanted(case: &Case, got: &Written) -> bool
    ensures { IsTrue result ↔ IsAsWanted case.now got.now }
{
    case.exit == got.exit && stand_in(case.output.as_slice(), got.bytes.as_slice())
}

/// The lines that say how a case differs from what it wants, one for its exit code and one for its output.
pub(crate) fn differences(
    alloc: Global,
    name: &str,
    case: &Case,
    got: &Written,
) -> Result<String, AllocError> {
    let mut lines = String::new(alloc);
    if case.exit != got.exit {
        lines.push_str(exit_line(alloc, name, case.exit, got.exit)?.as_str())?;
    }
    if !stand_in(case.output.as_slice(), got.bytes.as_slice()) {
        lines.push_str(output_line(alloc, name, case, got)?.as_str())?;
    }
    Ok(lines)
}

/// The line that says that the exit code is another one.
fn exit_line(alloc: Global, name: &str, wanted: u8, got: u8) -> Result<String, AllocError> {
    format!(in alloc; "{name}: exit code {got}, not {wanted}\n")
}

/// Names the first line in which the output leaves what is wanted.
fn output_line(
    alloc: Global,
    name: &str,
    case: &Case,
    got: &Written,
) -> Result<String, AllocError> {
    let wanted: &[u8] = match case.output.first() {
        Some(part) => part.as_slice(),
        None => b"",
    };
    let mut wanted = wanted.split(|byte| *byte == b'\n');
    let mut number = 0_u64;
    for line in got.bytes.split(|byte| *byte == b'\n') {
        number = number.saturating_add(1);
        let other = wanted.next();
        if other != Some(line) {
            return other_line(alloc, name, number, line, other.unwrap_or(b""));
        }
    }
    format!(in alloc; "{name}: the output has {number} lines, and not all that is wanted\n")
}

/// The line that says that a line of the output is another one.
fn other_line(
    alloc: Global,
    name: &str,
    number: u64,
    line: &[u8],
    other: &[u8],
) -> Result<String, AllocError> {
    let line = String::from_utf8_lossy(alloc, line)?;
    let other = String::from_utf8_lossy(alloc, other)?;
    format!(in alloc; "{name}: line {number} of the output is \"{line}\", not \"{other}\"\n")
}
