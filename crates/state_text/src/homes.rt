//! The lines of the words whose homes don't hold the initial value.
ghost use Rattle.std.specs.Prelude.{◌≡◌, ℕ, ◌<◌, ◌++◌, flat_map, length, OnOk};
ghost use Rattle.std.specs.List.{range_with_len};
ghost use Rattle.machine_rules.specs.State.{home_at};
ghost use Rattle.state_text.specs.Parts.{home_text, registrant_line, home_value_line, home_line, home_lines};

use crate::called::{push_core, push_data_word};
use dn_base::{BankId, CoreId, Memory, WordId, remainder};
use dn_machine::{Machine, a_machine_is_kept};
use region_table::Program;
use registry_bank::BankWord;
use text_pieces::{push, push_hexadecimal};

/// What the home of a word holds for it.
pub(crate) fn home_of(machine: &Machine, word: WordId) -> Option<BankWord>
    ensures { result ≡ home_at machine.now.state word.0 }
{
    // for the proof alone: there is a bank
    a_machine_is_kept(machine);
    let bank = BankId(remainder(word.0, machine.shape().banks));
    machine.bank(bank).word(word)
}

#[tactic(auto, unfolding(crate::specs::Parts::home_text))]
fn push_home_text(out: &mut Vec<u8>, program: &Program, word: WordId) -> Result<(), Memory>
    ensures { OnOk result (out.new.items ≡ out.old.items ++ home_text program.now word.0) }
{
    push(out, b"home ")?;
    push_data_word(out, program, word)
}

#[tactic(auto, unfolding(crate::specs::Parts::registrant_line))]
fn push_registrant(
    out: &mut Vec<u8>,
    program: &Program,
    word: WordId,
    core: CoreId,
) -> Result<(), Memory>
    ensures { OnOk result (out.new.items ≡ out.old.items ++ registrant_line program.now word.0 core.0) }
{
    push_home_text(out, program, word)?;
    push(out, b": registrant ")?;
    push_core(out, core)?;
    push(out, b"\n")
}

#[tactic(auto, unfolding(crate::specs::Parts::home_value_line))]
fn push_value(out: &mut Vec<u8>, program: &Program, word: WordId, value: u32) -> Result<(), Memory>
    ensures { OnOk result (out.new.items ≡ out.old.items ++ home_value_line program.now word.0 value) }
{
    push_home_text(out, program, word)?;
    push(out, b": value ")?;
    push_hexadecimal(out, value)?;
    push(out, b"\n")
}

/// Adds what the home of a word holds for it, if that isn't the word's initial value.
fn push_home(
    out: &mut Vec<u8>,
    program: &Program,
    word: WordId,
    content: Option<BankWord>,
) -> Result<(), Memory>
    requires { word.0 < length program.now.memory }
    ensures { OnOk result (out.new.items ≡ out.old.items ++ home_line program.now word.0 content) }
{
    match content {
        None => Ok(()),
        Some(BankWord::Reg(core)) => push_registrant(out, program, word, core),
        Some(BankWord::Home(value)) => {
            if value == program.memory.as_slice()[word.0 as usize] {
                Ok(())
            } else {
                push_value(out, program, word, value)
            }
        }
    }
}

/// How many data words a program has.
fn word_count(program: &Program) -> u32
    ensures { result ≡ length program.now.memory }
{
    program.memory.len() as u32
}

/// Adds the homes that don't hold the initial value of their word.
pub(crate) fn push_homes(out: &mut Vec<u8>, machine: &Machine) -> Result<(), Memory>
    ensures { OnOk result (out.new.items ≡ out.old.items ++ home_lines machine.now.state) }
{
    let program = machine.program();
    for word in 0..word_count(program) {
        push_home(out, program, WordId(word), home_of(machine, WordId(word)))?;
    }
    Ok(())
}
