ghost use Rattle.std.specs.Prelude.{◌≡◌, IfOk, IfErr};
ghost use Rattle.std.specs.Int.{IsInRange};
ghost use Rattle.run_report.specs.Texts.{HasChecked, IsStop, IsUnfit};
ghost use Rattle.outcomes_top.specs.Answers.{IsOutcomesPrintable, outcomes_reply, IsOutcomeFound, IsOutcomesAnswer};

use crate::finding::outcomes;
use crate::status::OutcomesStatus;
use crate::text::{common_text, open_line};
use common_outcomes::Outcomes;
use dn_base::{Memory, Sequence};
use program_outside::Output;
use run_report::{Stop, checked_of};
use std::alloc::Global;

/// A status, and all bytes that are to be written.
pub type Reply = Output<OutcomesStatus>;

/// What is printed of an answer.
fn reply_of(alloc: Global, answer: &Outcomes) -> Result<Reply, Memory>
    requires { IsOutcomesPrintable answer.now }
    ensures { IfOk result (λ reply. reply ≡ outcomes_reply answer.now) }
{
    match answer {
        Outcomes::Settled { common } => Ok(Output {
            status: OutcomesStatus::Settled,
            bytes: Sequence::from_vec(common_text(alloc, common)?),
        }),
        Outcomes::Open { open } => Ok(Output {
            status: OutcomesStatus::Open,
            bytes: Sequence::from_vec(open_line(alloc, *open)?),
        }),
    }
}

/// What the runs of a text's program have in common.
fn found(alloc: Global, fuel: u32, text: &[u8]) -> Result<Reply, Stop>
    requires { IsInRange 1 32768 fuel }
    ensures done { IfOk result (λ reply. HasChecked text.now (λ P. IsOutcomeFound P fuel reply)) }
    ensures stop { IfErr result (IsStop (IsUnfit text.now)) }
{
    let checked = checked_of(alloc, text)?;
    let answer = outcomes(alloc, &checked, fuel)?;
    Ok(reply_of(alloc, &answer)?)
}

/// The answer to a fuel, from 1 to 32,768, and a text: what all runs of its program have in common, or why that is open. A text
/// that has no checked program is refused as denovo refuses it, with the same line.
///
/// # Errors
/// `Memory` where there is no room for the program, what is known of its words, or the answer.
pub fn answer(alloc: Global, fuel: u32, text: &[u8]) -> Result<Reply, Memory>
    requires { IsInRange 1 32768 fuel }
    ensures { IfOk result (IsOutcomesAnswer fuel text.now) }
{
    match found(alloc, fuel, text) {
        Ok(reply) => Ok(reply),
        Err(Stop::Refused(line)) => Ok(Output {
            status: OutcomesStatus::Refused,
            bytes: line,
        }),
        Err(Stop::Memory) => Err(Memory),
    }
}
