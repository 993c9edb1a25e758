//! The words that a lock guards and a signature may hold.
ghost use Rattle.std.specs.Prelude.{◌≡◌, ◌-◌, ◌++◌, [], flat_map, slice_get, option_copied, OnOk};
ghost use Rattle.std.specs.Option.{unwrap_or};
ghost use Rattle.std.specs.List.{range_with_len};
ghost use Rattle.registration_protocol.specs.Messages.{guarded_by};
ghost use Rattle.state_text.specs.Parts.{lock_name_text, signed_text, may_hold_line, signed_line, interval_lines_of, signature_lines};

use crate::called::{push_data_word, push_mail};
use crate::signed::Signed;
use dn_base::{LockId, Memory, PhaseId, WordId};
use dn_machine::Machine;
use region_table::{Interval, Program, WordSet};
use text_pieces::push;
use text_places::push_lock;
use write_signature::Signature;

/// Adds a lock by its name and number, as its lines begin.
pub(crate) fn push_lock_name(
    out: &mut Vec<u8>,
    program: &Program,
    lock: LockId,
) -> Result<(), Memory>
    ensures { OnOk result (out.new.items ≡ out.old.items ++ lock_name_text program.now lock.0) }
{
    push(out, b"lock ")?;
    push_lock(out, program.locks.as_slice(), lock.0 as usize)
}

#[tactic(auto, unfolding(crate::specs::Parts::signed_text))]
fn push_signed(out: &mut Vec<u8>, program: &Program, signed: Signed) -> Result<(), Memory>
    ensures { OnOk result (out.new.items ≡ out.old.items ++ signed_text program.now signed) }
{
    match signed {
        Signed::Lock(lock) => push_lock_name(out, program, LockId(lock)),
        Signed::Mail(id) => push_mail(out, id),
    }
}

#[tactic(auto, unfolding(crate::specs::Parts::may_hold_line))]
fn push_may_hold(
    out: &mut Vec<u8>,
    program: &Program,
    signed: Signed,
    word: WordId,
) -> Result<(), Memory>
    ensures { OnOk result (out.new.items ≡ out.old.items ++ may_hold_line program.now signed word.0) }
{
    push_signed(out, program, signed)?;
    push(out, b": may hold ")?;
    push_data_word(out, program, word)?;
    push(out, b"\n")
}

/// Adds a word, if the signature may hold it.
fn push_if_signed(
    out: &mut Vec<u8>,
    program: &Program,
    signed: Signed,
    signature: Signature,
    phase: PhaseId,
    word: WordId,
) -> Result<(), Memory>
    ensures { OnOk result (out.new.items ≡ out.old.items ++ signed_line program.now signed signature phase.0 word.0) }
{
    if signature.may_hold(word, phase) {
        push_may_hold(out, program, signed, word)?;
    }
    Ok(())
}

/// Adds the words of an interval that the signature may hold.
fn push_interval(
    out: &mut Vec<u8>,
    program: &Program,
    signed: Signed,
    signature: Signature,
    phase: PhaseId,
    interval: Interval,
) -> Result<(), Memory>
    ensures { OnOk result (out.new.items ≡ out.old.items ++ interval_lines_of program.now signed signature phase.0 interval) }
{
    for word in interval.lo..interval.hi {
        push_if_signed(out, program, signed, signature, phase, WordId(word))?;
    }
    Ok(())
}

fn push_intervals(
    out: &mut Vec<u8>,
    program: &Program,
    signed: Signed,
    signature: Signature,
    phase: PhaseId,
    intervals: &[Interval],
) -> Result<(), Memory>
    ensures { OnOk result (out.new.items ≡ out.old.items ++ flat_map (interval_lines_of program.now signed signature phase.0) intervals.now) }
{
    for interval in intervals {
        push_interval(out, program, signed, signature, phase, *interval)?;
    }
    Ok(())
}

/// The words that a lock guards in the barrier controller's phase, if it has a plan and the plan the lock.
fn words_guarded<'a>(machine: &'a Machine, lock: LockId) -> Option<&'a WordSet>
    ensures { unwrap_or (option_copied result) [] ≡ guarded_by (slice_get machine.now.state.setting.plans machine.now.state.keeper.phase) lock.0 }
{
    match machine.plans().get(machine.keeper().phase().0 as usize) {
        Some(plan) => plan.guarded.as_slice().get(lock.0 as usize),
        None => None,
    }
}

/// Adds the words that a lock guards in the barrier controller's phase and that a signature may hold in it.
pub(crate) fn push_signature(
    out: &mut Vec<u8>,
    machine: &Machine,
    signed: Signed,
    signature: Signature,
    lock: LockId,
) -> Result<(), Memory>
    ensures { OnOk result (out.new.items ≡ out.old.items ++ signature_lines machine.now.state signed signature lock.0) }
{
    let phase = machine.keeper().phase();
    match words_guarded(machine, lock) {
        Some(words) => push_intervals(
            out,
            machine.program(),
            signed,
            signature,
            phase,
            words.intervals(),
        ),
        None => Ok(()),
    }
}
