ghost use Rattle.std.specs.Prelude.{◌≡◌, ◌≤◌, ◌<◌, Bool, true, false, ◌++◌, length, is_some, IfOk, OnOk};
ghost use Rattle.claims.specs.Claim.{title};
ghost use Rattle.referee_top.specs.Answers.{IsAnswer as IsReplyTo};
ghost use Rattle.referee_top.specs.Batch.{ends_claim, first_claim, later_claims, is_refused, ends_batch, claim_part, status_after, IsBatch, IsAnswerTo};
ghost use Rattle.referee_top.specs.Settled.{behind_prefix};

use crate::answering::{Reply, answer};
use crate::mode::{RefereeMode, RefereeOptions};
use crate::status::RefereeStatus;
use dn_base::{MOST_OF_DOCUMENT, Memory, Sequence};
use program_outside::Output;
use std::alloc::Global;
use text_pieces::{behind, push, push_field};

/// Whether a claim begins here.
#[tactic(auto, unfolding(claims::specs::Claim::title))]
fn begins_claim(bytes: &[u8]) -> bool
    ensures { result ≡ is_some (behind_prefix title bytes.now) }
{
    behind(bytes, b"denovo-claim 1\n").is_some()
}

/// Whether a claim ends with this byte, as these follow it.
fn ends_claim(byte: u8, behind: &[u8]) -> bool
    ensures { result ≡ ends_claim byte behind.now }
{
    byte == b'\n' && begins_claim(behind)
}

/// The first claim of some bytes, and the claims behind it.
fn cut(bytes: &[u8]) -> (&[u8], &[u8])
    ensures first { result.0.now ≡ first_claim bytes.now }
    ensures later { result.1.now ≡ later_claims bytes.now }
{
    for place in 0..bytes.len() {
        let (front, behind) = bytes.split_at(place + 1);
        if ends_claim(bytes[place], behind) {
            return (front, behind);
        }
    }
    (bytes, &[])
}

/// Whether a run log was refused.
fn is_refused(status: RefereeStatus) -> bool
    ensures { result ≡ is_refused status }
{
    matches!(status, RefereeStatus::Refused)
}

/// The status after one more claim.
fn status_after(before: RefereeStatus, now: RefereeStatus) -> RefereeStatus
    ensures { result ≡ status_after before now }
{
    match now {
        RefereeStatus::Agrees => before,
        _ => now,
    }
}

/// Adds the line with the number of a claim, and what is said of it.
#[tactic(auto, unfolding(crate::specs::Batch::claim_part))]
fn push_claim(out: &mut Vec<u8>, number: u32, reply: &Reply) -> Result<(), Memory>
    ensures { OnOk result (out.new.items ≡ out.old.items ++ claim_part number reply.now) }
{
    push_field(out, b"claim ", number, b"\n")?;
    push(out, reply.bytes.as_slice())
}

/// The answers to claims that follow each other, of at most 536,870,912 bytes together.
///
/// # Errors
/// `Memory` where there is no room for one of them.
fn answer_each(alloc: Global, mode: RefereeMode, claims: &[u8]) -> Result<Reply, Memory>
    requires { length claims.now ≤ MOST_OF_DOCUMENT }
    ensures { IfOk result (IsBatch mode claims.now) }
{
    let mut bytes = Vec::new(alloc);
    let mut status = RefereeStatus::Agrees;
    let mut number = 0;
    let mut rest = claims;
    'claims: loop {
        let (claim, later) = cut(rest);
        let reply = answer(alloc, mode, claim)?;
        push_claim(&mut bytes, number, &reply)?;
        status = status_after(status, reply.status);
        if is_refused(reply.status) || later.is_empty() {
            let bytes = Sequence::from_vec(bytes);
            return Ok(Output { status, bytes });
        }
        rest = later;
        number += 1;
    }
}

/// The answers to claims that follow each other: each begins with its first line, and is answered as it is alone, behind a line with
/// its number, from 0. A claim that is refused is the last that is answered. If there are more than 536,870,912 bytes, they are refused
/// as one claim. The status is that of the last claim that doesn't agree.
///
/// # Errors
/// `Memory` where there is no room for one of the answers.
fn answer_batch(alloc: Global, mode: RefereeMode, claims: &[u8]) -> Result<Reply, Memory>
    ensures { IfOk result (IsBatch mode claims.now) }
{
    if claims.len() <= MOST_OF_DOCUMENT {
        return answer_each(alloc, mode, claims);
    }
    let reply = answer(alloc, mode, claims)?;
    let mut bytes = Vec::new(alloc);
    push_claim(&mut bytes, 0, &reply)?;
    Ok(Output {
        status: reply.status,
        bytes: Sequence::from_vec(bytes),
    })
}

/// The answer to what is asked for and a run log, or to several that follow each other.
///
/// # Errors
/// `Memory` where there is no room for what a run log tells, its run or the answer.
pub fn answer_to(alloc: Global, asked: RefereeOptions, document: &[u8]) -> Result<Reply, Memory>
    ensures { IfOk result (IsAnswerTo asked document.now) }
{
    if asked.batch {
        answer_batch(alloc, asked.mode, document)
    } else {
        answer(alloc, asked.mode, document)
    }
}
