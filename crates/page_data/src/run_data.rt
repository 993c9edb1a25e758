//! The data of a run for other programs.
ghost use Rattle.std.specs.Prelude.{◌≡◌, ◌++◌, ◌≤◌, length, take, drop, IfOk, OnOk};
ghost use Rattle.std.specs.Fmt.{decimal};
ghost use Rattle.machine_rules.specs.Runs.{IsRun};
ghost use Rattle.machine_rules.specs.State.{initial_state};
ghost use Rattle.page_data.specs.Data.{machine_code_field, line_item, lines_field, page_finishes, finishes_field, data_title, data_head, tool_part, run_data_text};

use crate::effects::push_effects_field;
use crate::events::pass;
use crate::head::{push_run, push_timing};
use crate::json::push_named_string;
use crate::lists::{Item, push_named_list};
use crate::page::{Page, part, push_states};
use crate::program::{push_program, push_sizes};
use dn_base::{MOST_EVENTS, Memory, Sequence};
use dn_machine::Machine;
use message_net::Event;
use region_table::{Program, a_program_is_well_formed};
use std::alloc::Global;
use text_pieces::push_decimal;
use text_places::CodePlace;

/// What the data of a run tell, besides the program and the events: what a page tells of it, from which line of the text each
/// code word comes, and when each event of the run finishes, by the page's ticks. The page may have any number of events.
#[derive(Clone, Copy)]
pub struct RunData<'a> {
    pub page: Page<'a>,
    pub places: &'a [CodePlace],
    pub finishes: &'a [u64],
}

/// Adds how the data begin.
#[tactic(auto, unfolding(crate::specs::Data::data_title))]
fn push_data_title(out: &mut Vec<u8>, name: &[u8]) -> Result<(), Memory>
    ensures { OnOk result (out.new.items ≡ out.old.items ++ data_title name.now) }
{
    push_named_string(out, b"{\"format\":\"denovo-data 1\",\"name\":", name)
}

/// Adds what a page has too, of what doesn't change in the run.
#[tactic(auto, unfolding(crate::specs::Data::data_head))]
fn push_data_head(
    alloc: Global,
    out: &mut Vec<u8>,
    machine: &Machine,
    page: &Page<'_>,
    events: usize,
) -> Result<(), Memory>
    ensures { OnOk result (out.new.items ≡ out.old.items ++ data_head machine.now.state.setting page.now events) }
{
    push_data_title(out, page.name)?;
    push_sizes(out, machine)?;
    push_program(alloc, out, machine, page.source)?;
    push_run(out, page, events)?;
    push_timing(out, page)
}

#[tactic(auto, unfolding(crate::specs::Data::machine_code_field))]
fn push_machine_code(out: &mut Vec<u8>, program: &Program) -> Result<(), Memory>
    ensures { OnOk result (out.new.items ≡ out.old.items ++ machine_code_field program.now) }
{
    push_named_list(out, b",\"machine_code\":", program.code.as_slice())
}

/// The line from which a code word comes.
impl Item for CodePlace {
    ghost written = { line_item };

    fn push_item(&self, out: &mut Vec<u8>) -> Result<(), Memory> {
        push_decimal(out, self.line)
    }
}

#[tactic(auto, unfolding(crate::specs::Data::lines_field))]
fn push_lines(out: &mut Vec<u8>, places: &[CodePlace]) -> Result<(), Memory>
    ensures { OnOk result (out.new.items ≡ out.old.items ++ lines_field places.now) }
{
    push_named_list(out, b",\"lines\":", places)
}

/// The finishes of the page's events.
#[tactic(auto, using(std::proofs::lemmas::List::take_all, std::proofs::lemmas::List::drop_all))]
fn page_finishes<'a>(finishes: &'a [u64], page: &Page<'_>) -> &'a [u64]
    ensures { result.now ≡ page_finishes finishes.now page.now }
{
    let rest = match finishes.split_at_checked(page.first as usize) {
        Some((_, rest)) => rest,
        None => &[],
    };
    match rest.split_at_checked(page.most as usize) {
        Some((front, _)) => front,
        None => rest,
    }
}

#[tactic(auto, unfolding(crate::specs::Data::finishes_field))]
fn push_finishes(out: &mut Vec<u8>, finishes: &[u64], page: &Page<'_>) -> Result<(), Memory>
    ensures { OnOk result (out.new.items ≡ out.old.items ++ finishes_field finishes.now page.now) }
{
    push_named_list(out, b",\"finishes\":", page_finishes(finishes, page))
}

/// Adds what a page doesn't have.
#[tactic(auto, unfolding(crate::specs::Data::tool_part))]
fn push_tool_part(out: &mut Vec<u8>, machine: &Machine, told: &RunData<'_>) -> Result<(), Memory>
    ensures { OnOk result (out.new.items ≡ out.old.items ++ tool_part machine.now.state.setting told.now) }
{
    let program = machine.program();
    a_program_is_well_formed(program);
    push_machine_code(out, program)?;
    push_lines(out, told.places)?;
    push_effects_field(out, program)?;
    push_finishes(out, told.finishes, &told.page)
}

/// Adds the data of a machine's run.
#[tactic(auto, using(crate::proofs::Runs::run_front, crate::proofs::Runs::run_back), unfolding(crate::specs::Data::run_data_text))]
fn push_data(
    alloc: Global,
    out: &mut Vec<u8>,
    machine: &mut Machine,
    events: &[Event],
    told: &RunData<'_>,
) -> Result<(), Memory>
    requires initial { machine.old.state ≡ initial_state machine.old.state.setting }
    requires made { machine.old.made ≡ 0 }
    requires run { IsRun machine.old.state events.now }
    requires few { length events.now ≤ MOST_EVENTS }
    ensures text { OnOk result (out.new.items ≡ out.old.items ++ run_data_text machine.old.state.setting events.now told.now) }
    ensures setting { OnOk result (machine.new.state.setting ≡ machine.old.state.setting) }
{
    push_data_head(alloc, out, machine, &told.page, events.len())?;
    push_tool_part(out, machine, told)?;
    let (before, rest) = part(events, told.page.first);
    pass(machine, before)?;
    let (wanted, _) = part(rest, told.page.most);
    push_states(alloc, out, machine, wanted)
}

/// The data of a run for other programs, as one JSON text in ASCII without `<`: what the data of its page have, with the code words
/// as numbers and the line of each, the words that each task declares to use, and the tick at which each event finishes.
///
/// The premises are those of `page_text`, but there may be as many events as a run has. The text grows with them.
///
/// # Errors
/// `Memory` if there is no room for the messages or the text.
pub fn run_data_text(
    alloc: Global,
    machine: &mut Machine,
    events: &[Event],
    told: &RunData<'_>,
) -> Result<Sequence<u8>, Memory>
    requires initial { machine.old.state ≡ initial_state machine.old.state.setting }
    requires made { machine.old.made ≡ 0 }
    requires run { IsRun machine.old.state events.now }
    requires few { length events.now ≤ MOST_EVENTS }
    ensures text { IfOk result (λ text. text ≡ run_data_text machine.old.state.setting events.now told.now) }
    ensures setting { OnOk result (machine.new.state.setting ≡ machine.old.state.setting) }
{
    let mut out = Vec::new(alloc);
    push_data(alloc, &mut out, machine, events, told)?;
    Ok(Sequence::from_vec(out))
}
