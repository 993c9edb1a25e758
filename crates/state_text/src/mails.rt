//! The lines of the messages in flight.
ghost use Rattle.std.specs.Prelude.{◌≡◌, ◌++◌, [], flat_map, codes, if◌then◌else◌, OnOk};
ghost use Rattle.state_text.specs.Parts.{of_word, of_core, of_value, of_lock, of_phase, message_parts, in_flight_line, carried_lines, mail_lines};

use crate::called::{push_core, push_data_word, push_mail, push_receiver};
use crate::signed::Signed;
use crate::signing::push_signature;
use dn_base::{CoreId, LockId, Memory, PhaseId, WordId};
use dn_machine::Machine;
use message_net::{Mail, MailId, Message};
use region_table::Program;
use run_report::event_name;
use text_pieces::{push, push_decimal, push_hexadecimal};
use text_places::push_lock;

#[tactic(auto, unfolding(crate::specs::Parts::of_word))]
fn push_of_word(out: &mut Vec<u8>, program: &Program, word: WordId) -> Result<(), Memory>
    ensures { OnOk result (out.new.items ≡ out.old.items ++ of_word program.now word.0) }
{
    push(out, b" ")?;
    push_data_word(out, program, word)
}

#[tactic(auto, unfolding(crate::specs::Parts::of_core))]
fn push_of_core(out: &mut Vec<u8>, core: CoreId) -> Result<(), Memory>
    ensures { OnOk result (out.new.items ≡ out.old.items ++ of_core core.0) }
{
    push(out, b" ")?;
    push_core(out, core)
}

#[tactic(auto, unfolding(crate::specs::Parts::of_value))]
fn push_of_value(out: &mut Vec<u8>, value: u32) -> Result<(), Memory>
    ensures { OnOk result (out.new.items ≡ out.old.items ++ of_value value) }
{
    push(out, b" value ")?;
    push_hexadecimal(out, value)
}

#[tactic(auto, unfolding(crate::specs::Parts::of_lock))]
fn push_of_lock(out: &mut Vec<u8>, program: &Program, lock: LockId) -> Result<(), Memory>
    ensures { OnOk result (out.new.items ≡ out.old.items ++ of_lock program.now lock.0) }
{
    push(out, b" ")?;
    push_lock(out, program.locks.as_slice(), lock.0 as usize)
}

#[tactic(auto, unfolding(crate::specs::Parts::of_phase))]
fn push_of_phase(out: &mut Vec<u8>, phase: PhaseId) -> Result<(), Memory>
    ensures { OnOk result (out.new.items ≡ out.old.items ++ of_phase phase.0) }
{
    push(out, b" phase ")?;
    push_decimal(out, phase.0)
}

fn push_word_and_core(
    out: &mut Vec<u8>,
    program: &Program,
    word: WordId,
    core: CoreId,
) -> Result<(), Memory>
    ensures { OnOk result (out.new.items ≡ out.old.items ++ (of_word program.now word.0 ++ of_core core.0)) }
{
    push_of_word(out, program, word)?;
    push_of_core(out, core)
}

fn push_word_and_value(
    out: &mut Vec<u8>,
    program: &Program,
    word: WordId,
    value: u32,
) -> Result<(), Memory>
    ensures { OnOk result (out.new.items ≡ out.old.items ++ (of_word program.now word.0 ++ of_value value)) }
{
    push_of_word(out, program, word)?;
    push_of_value(out, value)
}

/// Adds a word, the value that its owner gives back, and the owner.
fn push_given_back(
    out: &mut Vec<u8>,
    program: &Program,
    word: WordId,
    value: u32,
    core: CoreId,
) -> Result<(), Memory>
    ensures { OnOk result (out.new.items ≡ out.old.items ++ (of_word program.now word.0 ++ (of_value value ++ of_core core.0))) }
{
    push_word_and_value(out, program, word, value)?;
    push_of_core(out, core)
}

fn push_lock_and_core(
    out: &mut Vec<u8>,
    program: &Program,
    lock: LockId,
    core: CoreId,
) -> Result<(), Memory>
    ensures { OnOk result (out.new.items ≡ out.old.items ++ (of_lock program.now lock.0 ++ of_core core.0)) }
{
    push_of_lock(out, program, lock)?;
    push_of_core(out, core)
}

/// Adds a core that has arrived, and whether its task was bad.
fn push_arrival(out: &mut Vec<u8>, core: CoreId, bad: bool) -> Result<(), Memory>
    ensures { OnOk result (out.new.items ≡ out.old.items ++ (of_core core.0 ++ (if bad then codes " bad" else []))) }
{
    push_of_core(out, core)?;
    if bad { push(out, b" bad") } else { Ok(()) }
}

/// Adds what follows the word for a message's kind.
fn push_parts(out: &mut Vec<u8>, program: &Program, message: Message) -> Result<(), Memory>
    ensures { OnOk result (out.new.items ≡ out.old.items ++ message_parts program.now message) }
{
    match message {
        Message::ReadReq { word, reader: core }
        | Message::ReadFwd { word, reader: core }
        | Message::RegReq { word, core }
        | Message::RegFwd { word, core } => push_word_and_core(out, program, word, core),
        Message::DataReply { word, value } => push_word_and_value(out, program, word, value),
        Message::RegAck { word } | Message::WbAck { word } => push_of_word(out, program, word),
        Message::WriteBack { word, value, core } => push_given_back(
            out, program, word, value, core,
        ),
        Message::Acquire { lock, core } | Message::Release { lock, core, .. } => {
            push_lock_and_core(out, program, lock, core)
        }
        Message::Grant { lock, .. } => push_of_lock(out, program, lock),
        Message::Arrived { core, bad } => push_arrival(out, core, bad),
        Message::Go { phase } => push_of_phase(out, phase),
        Message::Halt => Ok(()),
    }
}

#[tactic(auto, unfolding(crate::specs::Parts::in_flight_line))]
fn push_mail_line(out: &mut Vec<u8>, program: &Program, mail: Mail) -> Result<(), Memory>
    ensures { OnOk result (out.new.items ≡ out.old.items ++ in_flight_line program.now mail) }
{
    push_mail(out, mail.id)?;
    push(out, b" to ")?;
    push_receiver(out, mail.to)?;
    push(out, b": ")?;
    push(out, event_name(mail.message.kind()))?;
    push_parts(out, program, mail.message)?;
    push(out, b"\n")
}

/// Adds the words of the signature that a message carries, if it carries one.
fn push_carried(
    out: &mut Vec<u8>,
    machine: &Machine,
    id: MailId,
    message: Message,
) -> Result<(), Memory>
    ensures { OnOk result (out.new.items ≡ out.old.items ++ carried_lines machine.now.state id message) }
{
    match message {
        Message::Release {
            lock,
            signature,
            ..
        } => push_signature(out, machine, Signed::Mail(id), signature, lock),
        Message::Grant { lock, signature } => {
            push_signature(out, machine, Signed::Mail(id), signature, lock)
        }
        _ => Ok(()),
    }
}

fn push_mail_lines(out: &mut Vec<u8>, machine: &Machine, mail: Mail) -> Result<(), Memory>
    ensures { OnOk result (out.new.items ≡ out.old.items ++ mail_lines machine.now.state mail) }
{
    push_mail_line(out, machine.program(), mail)?;
    push_carried(out, machine, mail.id, mail.message)
}

/// Adds the lines of all messages in flight.
pub(crate) fn push_mails(out: &mut Vec<u8>, machine: &Machine) -> Result<(), Memory>
    ensures { OnOk result (out.new.items ≡ out.old.items ++ flat_map (mail_lines machine.now.state) machine.now.state.mails) }
{
    let pool = machine.pool();
    for place in 0..pool.count() {
        push_mail_lines(out, machine, pool.at(place))?;
    }
    Ok(())
}
