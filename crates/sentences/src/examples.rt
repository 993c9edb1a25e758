//! The forms of operands, each with an example, and the first form that a word takes.
ghost use Rattle.std.specs.Prelude.{◌≡◌, IfOk, find};
ghost use Rattle.sentences.specs.Examples.{is_taken, operands_as, takes, forms, form_for};

use dn_base::Memory;
use rv_assembler::{Reading, read_line};
use src_text::tokens;
use std::alloc::Global;
use text_pieces::push;

/// The greatest number of bytes of a line.
const MOST_OF_LINE: usize = 1024;

/// A form of operands, as its example in `operands_as` has it.
#[derive(Clone, Copy)]
pub(crate) enum Form {
    Nothing,
    Interval,
    Guarded,
    Words,
    Name,
    Register,
    Number,
    RegisterName,
    RegisterNumber,
    TwoRegisters,
    TwoRegistersName,
    TwoRegistersNumber,
    ThreeRegisters,
    Based,
    Task,
    Family,
}

const FORMS: &[Form] = &[
    Form::Nothing,
    Form::Interval,
    Form::Guarded,
    Form::Words,
    Form::Name,
    Form::Register,
    Form::Number,
    Form::RegisterName,
    Form::RegisterNumber,
    Form::TwoRegisters,
    Form::TwoRegistersName,
    Form::TwoRegistersNumber,
    Form::ThreeRegisters,
    Form::Based,
    Form::Task,
    Form::Family,
];

fn forms() -> &'static [Form]
    ensures { result.now ≡ forms }
{
    FORMS
}

/// Operands of a form, as an example.
pub(crate) fn operands_as(form: Form) -> &'static [u8]
    ensures { result.now ≡ operands_as form }
{
    match form {
        Form::Nothing => b"",
        Form::Interval => b"name, 0, 2",
        Form::Guarded => b"lock, name, 0, 2",
        Form::Words => b"name, 4",
        Form::Name => b"name",
        Form::Register => b"t0",
        Form::Number => b"7",
        Form::RegisterName => b"t0, name",
        Form::RegisterNumber => b"t0, 7",
        Form::TwoRegisters => b"t0, t1",
        Form::TwoRegistersName => b"t0, t1, name",
        Form::TwoRegistersNumber => b"t0, t1, 7",
        Form::ThreeRegisters => b"t0, t1, t2",
        Form::Based => b"t0, 4(t1)",
        Form::Task => b"0, name, 7",
        Form::Family => b"0, 4, name, 7, 1",
    }
}

/// Whether the bytes by themselves are a line of good form. The version is 0 for version 1.
#[tactic(auto, unfolding(crate::specs::Examples::is_taken))]
pub(crate) fn is_taken(alloc: Global, version: u32, bytes: &[u8]) -> Result<bool, Memory>
    ensures { IfOk result (λ taken. taken ≡ is_taken version bytes.now) }
{
    if MOST_OF_LINE < bytes.len() {
        return Ok(false);
    }
    let tokenized = tokens(alloc, bytes)?;
    match tokenized.first() {
        Some(line) => Ok(matches!(read_line(version, bytes, line), Reading::Good(_))),
        None => Ok(false),
    }
}

/// Whether a word takes operands of the form.
#[tactic(auto, unfolding(crate::specs::Examples::takes))]
fn takes(alloc: Global, version: u32, word: &[u8], form: Form) -> Result<bool, Memory>
    ensures { IfOk result (λ taken. taken ≡ takes version word.now form) }
{
    let mut line = Vec::new(alloc);
    push(&mut line, word)?;
    push(&mut line, b" ")?;
    push(&mut line, operands_as(form))?;
    is_taken(alloc, version, line.as_slice())
}

/// The first of these forms that a word takes.
fn first_taken(
    alloc: Global,
    version: u32,
    word: &[u8],
    forms: &[Form],
) -> Result<Option<Form>, Memory>
    ensures { IfOk result (λ form. form ≡ find (takes version word.now) forms.now) }
{
    for form in forms {
        if takes(alloc, version, word, *form)? {
            return Ok(Some(*form));
        }
    }
    Ok(None)
}

/// The first form that a word takes.
#[tactic(auto, unfolding(crate::specs::Examples::form_for))]
pub(crate) fn form_for(alloc: Global, version: u32, word: &[u8]) -> Result<Option<Form>, Memory>
    ensures { IfOk result (λ form. form ≡ form_for version word.now) }
{
    first_taken(alloc, version, word, forms())
}
