ghost use Rattle.std.specs.Prelude.{◌≡◌, ◌++◌, ◌<◌, codes, Some, OnOk};
ghost use Rattle.text_pieces.specs.Field.{field};
ghost use Rattle.text_pieces.specs.Pieces.{newline};
ghost use Rattle.claims.specs.Diagnosis.{load_by};
ghost use Rattle.claims.specs.Verdict.{load_line};
ghost use Rattle.claims.specs.DiagnosisText.{load_place, line_text_of, line_of_code, place_of_code, at_text, name_text, claimed_text, stored_text, line_of_held, holds_text, wrong_text, fault_text, because_text, task_line, earliest_text, claimed_line, diagnosis_text};

use crate::diagnosis::{Diagnosis, TaskName, WrongLoad};
use crate::verdict_writing::push_load;
use dn_base::{LoadSeen, Memory, Sequence};
use flat_machine::{FlatAccess, GrantFault};
use region_table::{FIRST_CODE_ADDRESS, Program};
use text_pieces::{push, push_decimal, push_field, push_hexadecimal, push_long};
use text_places::{CodePlace, Places, line_text, push_word};

/// Adds a line of a text, after its number.
#[tactic(auto, unfolding(crate::specs::DiagnosisText::line_text_of))]
fn push_line_of(out: &mut Vec<u8>, text: &[u8], line: u32) -> Result<(), Memory>
    ensures { OnOk result (out.new.items ≡ out.old.items ++ line_text_of text.now line) }
{
    push(out, b" line ")?;
    push_decimal(out, line)?;
    push(out, b": ")?;
    push(out, line_text(text, line as usize).unwrap_or(b""))
}

fn push_line_of_code(out: &mut Vec<u8>, text: &[u8], place: Option<CodePlace>) -> Result<(), Memory>
    ensures { OnOk result (out.new.items ≡ out.old.items ++ line_of_code text.now place) }
{
    match place {
        None => Ok(()),
        Some(place) => push_line_of(out, text, place.line),
    }
}

/// The place in the text of the instruction at an address.
fn place_of_code(places: &Places, pc: u32) -> Option<CodePlace>
    ensures { result ≡ place_of_code places.now pc }
{
    places.code_word((pc.saturating_sub(FIRST_CODE_ADDRESS) / 4) as usize)
}

/// Adds an instruction by its address, and by the line of the text that it comes from.
#[tactic(auto, unfolding(crate::specs::DiagnosisText::at_text))]
fn push_at(out: &mut Vec<u8>, text: &[u8], places: &Places, pc: u32) -> Result<(), Memory>
    ensures { OnOk result (out.new.items ≡ out.old.items ++ at_text text.now places.now pc) }
{
    push(out, b"at ")?;
    push_hexadecimal(out, pc)?;
    push_line_of_code(out, text, place_of_code(places, pc))?;
    push(out, b"\n")
}

#[tactic(auto, unfolding(crate::specs::DiagnosisText::name_text))]
fn push_name(out: &mut Vec<u8>, program: &Program, word: u32) -> Result<(), Memory>
    ensures { OnOk result (out.new.items ≡ out.old.items ++ name_text program.now.regions word) }
{
    push(out, b"name ")?;
    push_word(out, program, word)?;
    push(out, b"\n")
}

#[tactic(auto, unfolding(crate::specs::DiagnosisText::claimed_text))]
fn push_claimed(out: &mut Vec<u8>, claimed: Option<LoadSeen>) -> Result<(), Memory>
    ensures { OnOk result (out.new.items ≡ out.old.items ++ claimed_text claimed) }
{
    push(out, b"claimed ")?;
    push_load(out, claimed)?;
    push(out, b"\n")
}

#[tactic(auto, unfolding(crate::specs::DiagnosisText::stored_text))]
fn push_stored(
    out: &mut Vec<u8>,
    text: &[u8],
    places: &Places,
    stored: &Option<FlatAccess>,
) -> Result<(), Memory>
    ensures { OnOk result (out.new.items ≡ out.old.items ++ stored_text text.now places.now stored.now) }
{
    match stored {
        None => push(out, b"stored never\n"),
        Some(store) => {
            push_field(out, b"stored phase ", store.phase.0, b" ")?;
            push_field(out, b"core ", store.core.0, b" ")?;
            push_at(out, text, places, store.pc)
        }
    }
}

#[tactic(auto, unfolding(crate::specs::DiagnosisText::line_of_held))]
fn push_holds(out: &mut Vec<u8>, held: u32, lock: u32) -> Result<(), Memory>
    requires { lock < 32 }
    ensures { OnOk result (out.new.items ≡ out.old.items ++ line_of_held held lock) }
{
    if held & (1 << lock) != 0 {
        push_field(out, b"holds ", lock, b"\n")
    } else {
        Ok(())
    }
}

/// Adds a line for each lock that is held.
fn push_all_holds(out: &mut Vec<u8>, held: u32) -> Result<(), Memory>
    ensures { OnOk result (out.new.items ≡ out.old.items ++ holds_text held) }
{
    for lock in 0..32 {
        push_holds(out, held, lock)?;
    }
    Ok(())
}

/// Adds the line that tells a load by its place.
#[tactic(auto, unfolding(crate::specs::Verdict::load_line, crate::specs::Verdict::place_text))]
fn push_earliest(out: &mut Vec<u8>, load: &FlatAccess) -> Result<(), Memory>
    ensures { OnOk result (out.new.items ≡ out.old.items ++ load_line (codes "earliest ") (load_place load.now) (Some (load_by load.now))) }
{
    push(out, b"earliest ")?;
    push_decimal(out, load.phase.0)?;
    push(out, b" ")?;
    push_decimal(out, load.core.0)?;
    push(out, b" ")?;
    push_long(out, load.number as u64)?;
    push(out, b" ")?;
    let seen = LoadSeen {
        word: load.word,
        value: load.value,
    };
    push_load(out, Some(seen))?;
    push(out, b"\n")
}

/// Adds a line with a count.
#[tactic(auto, unfolding(text_pieces::specs::Field::field))]
fn push_count(out: &mut Vec<u8>, name: &[u8], count: usize) -> Result<(), Memory>
    ensures { OnOk result (out.new.items ≡ out.old.items ++ field name.now newline count) }
{
    push(out, name)?;
    push_long(out, count as u64)?;
    push(out, b"\n")
}

/// Adds the lines of the earliest wrong load.
#[tactic(auto, unfolding(crate::specs::DiagnosisText::wrong_text))]
fn push_wrong(
    out: &mut Vec<u8>,
    text: &[u8],
    program: &Program,
    places: &Places,
    wrong: &WrongLoad,
) -> Result<(), Memory>
    ensures { OnOk result (out.new.items ≡ out.old.items ++ wrong_text text.now program.now.regions places.now wrong.now) }
{
    push_earliest(out, &wrong.load)?;
    push_claimed(out, wrong.claimed)?;
    push_name(out, program, wrong.load.word.0)?;
    push_at(out, text, places, wrong.load.pc)?;
    push_count(out, b"after grants ", wrong.grants)?;
    push_stored(out, text, places, &wrong.stored)?;
    push_all_holds(out, wrong.load.held)
}

#[tactic(auto, unfolding(crate::specs::DiagnosisText::fault_text))]
fn push_fault(out: &mut Vec<u8>, fault: GrantFault) -> Result<(), Memory>
    ensures { OnOk result (out.new.items ≡ out.old.items ++ fault_text fault) }
{
    match fault {
        GrantFault::Over => push(out, b"over"),
        GrantFault::Phase { current } => {
            push(out, b"phase ")?;
            push_decimal(out, current.0)
        }
        GrantFault::NoTask => push(out, b"no-task"),
        GrantFault::Ended => push(out, b"ended"),
        GrantFault::Waits { lock } => {
            push(out, b"waits ")?;
            push_decimal(out, lock.0)
        }
        GrantFault::Held { core } => {
            push(out, b"held-by ")?;
            push_decimal(out, core.0)
        }
        GrantFault::Unfinished { core, lock } => {
            push(out, b"unfinished ")?;
            push_decimal(out, core.0)?;
            push(out, b" ")?;
            push_decimal(out, lock.0)
        }
    }
}

#[tactic(auto, unfolding(crate::specs::DiagnosisText::because_text))]
fn push_because(out: &mut Vec<u8>, because: Option<GrantFault>) -> Result<(), Memory>
    ensures { OnOk result (out.new.items ≡ out.old.items ++ because_text because) }
{
    match because {
        None => Ok(()),
        Some(fault) => {
            push(out, b"because ")?;
            push_fault(out, fault)?;
            push(out, b"\n")
        }
    }
}

#[tactic(auto, unfolding(crate::specs::DiagnosisText::task_line))]
fn push_task(out: &mut Vec<u8>, task: Option<TaskName>) -> Result<(), Memory>
    ensures { OnOk result (out.new.items ≡ out.old.items ++ task_line task) }
{
    match task {
        None => Ok(()),
        Some(task) => {
            push_field(out, b"task ", task.phase.0, b" ")?;
            push_field(out, b"", task.core.0, b"\n")
        }
    }
}

fn push_first(
    out: &mut Vec<u8>,
    text: &[u8],
    program: &Program,
    places: &Places,
    first: &Option<WrongLoad>,
) -> Result<(), Memory>
    ensures { OnOk result (out.new.items ≡ out.old.items ++ earliest_text text.now program.now.regions places.now first.now) }
{
    match first {
        None => push(out, b"earliest none\n"),
        Some(wrong) => push_wrong(out, text, program, places, wrong),
    }
}

#[tactic(auto, unfolding(crate::specs::DiagnosisText::claimed_line))]
fn push_claimed_line(out: &mut Vec<u8>, claimed: &Option<Sequence<u8>>) -> Result<(), Memory>
    ensures { OnOk result (out.new.items ≡ out.old.items ++ claimed_line claimed.now) }
{
    match claimed {
        None => push(out, b"claimed nothing\n"),
        Some(line) => {
            push(out, b"claimed ")?;
            push(out, line.as_slice())?;
            push(out, b"\n")
        }
    }
}

/// Adds the lines that lead from a verdict to the fault. It isn't checked that the program and the places are those of the text.
///
/// # Errors
/// `Memory` where there is no room for them.
#[tactic(auto, unfolding(crate::specs::DiagnosisText::diagnosis_text))]
pub fn push_diagnosis(
    out: &mut Vec<u8>,
    text: &[u8],
    program: &Program,
    places: &Places,
    diagnosis: &Diagnosis,
) -> Result<(), Memory>
    ensures { OnOk result (out.new.items ≡ out.old.items ++ diagnosis_text text.now program.now.regions places.now diagnosis.now) }
{
    match diagnosis {
        Diagnosis::Agrees => Ok(()),
        Diagnosis::Grants(because) => push_because(out, *because),
        Diagnosis::Tasks { started, first } => {
            push_count(out, b"tasks ", *started)?;
            push_task(out, *first)
        }
        Diagnosis::Load(first) => push_first(out, text, program, places, first),
        Diagnosis::Answer(claimed) => push_claimed_line(out, claimed),
    }
}
