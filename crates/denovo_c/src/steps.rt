//! What the calls of a machine do.
ghost use Rattle.std.specs.Prelude.{◌≡◌, ◌↔◌, IsTrue, map, IfOk, IfErr, IsErr};
ghost use Rattle.machine_rules.specs.Runs.{IsOver};
ghost use Rattle.machine_rules.specs.Sound.{IsReady};
ghost use Rattle.state_text.specs.Coming.{enabled_events};
ghost use Rattle.dn_machine.specs.Kept.{IsInitialMachine};
ghost use Rattle.denovo_c.specs.Codes.{event_code};
ghost use Rattle.denovo_c.specs.Steps.{FitsSizes, sized_shape, IsOpened, IsUnopened, IsCodeTried, result_code, why_code};

use crate::codes::{EventCode, coded_event, codes_of};
use dn_base::{Memory, Shape};
use dn_machine::Machine;
use effect_checker::Checked;
use run_report::{Stop, checked_of};
use state_text::{a_machine_is_ready, enabled_events, none_is_listed_where_none_is_enabled};
use std::alloc::{AllocFailed, Global};

/// The most events of one machine.
const MOST_STEPS: u64 = 4_000_000_000;

/// The size of a machine, and how many instructions a task may retire. Its program says how many cores there are.
#[derive(Clone, Copy)]
pub(crate) struct Sizes {
    pub(crate) banks: u32,
    pub(crate) sets: u32,
    pub(crate) ways: u32,
    pub(crate) fuel: u32,
}

/// Why there is no machine of a text.
#[derive(Clone, Copy)]
pub(crate) enum Unopened {
    /// A size or the fuel is out of its range.
    Usage = 1,
    /// The text is refused.
    Refused = 2,
    /// There isn't enough memory.
    Memory = 8,
}

impl From<Memory> for Unopened {
    ghost use Rattle.denovo_c.specs.declared.steps.Unopened.TheVariants.{Memory as NoRoom};

    ghost from_gives = { λ _ why. why ≡ NoRoom };

    fn from(_memory: Memory) -> Unopened {
        Unopened::Memory
    }
}

impl From<Stop> for Unopened {
    ghost use Rattle.denovo_c.specs.Steps.{why_stopped};

    ghost from_gives = { λ stop why. why ≡ why_stopped stop };

    fn from(stop: Stop) -> Unopened {
        match stop {
            Stop::Refused(_) => Unopened::Refused,
            Stop::Memory => Unopened::Memory,
        }
    }
}

/// What became of an event.
#[derive(Clone, Copy)]
pub(crate) enum StepResult {
    /// It was made.
    Made = 0,
    /// There is no such event, or the machine has made as many as it can.
    Usage = 1,
    /// It isn't enabled.
    Disabled = 3,
    /// It is enabled, and there isn't enough memory to make it.
    Memory = 8,
}

impl Unopened {
    /// The result of a call: 1, 2 or 8.
    pub(crate) fn code(self) -> i32
        ensures { result ≡ why_code self }
    {
        self as i32
    }
}

impl StepResult {
    /// The result of a call: 0, 1, 3 or 8.
    pub(crate) fn code(self) -> i32
        ensures { result ≡ result_code self }
    {
        self as i32
    }
}

/// Whether the sizes and the fuel are in their ranges.
fn fits(sizes: Sizes) -> bool
    ensures { IsTrue result ↔ FitsSizes sizes }
{
    (1..=16).contains(&sizes.banks)
        && (1..=256).contains(&sizes.sets)
        && (1..=16).contains(&sizes.ways)
        && (1..=32768).contains(&sizes.fuel)
}

/// The machine of a checked program when a run begins, in a box.
fn start_machine(alloc: Global, checked: Checked, sizes: Sizes) -> Result<Box<Machine>, Memory>
    requires { FitsSizes sizes }
    ensures initial { IfOk result (λ m. IsInitialMachine checked (sized_shape checked sizes) sizes.fuel m.value) }
    ensures ready { IfOk result (λ m. IsReady m.value.state.setting) }
{
    let shape = Shape {
        cores: checked.program().cores(),
        banks: sizes.banks,
        sets: sizes.sets,
        ways: sizes.ways,
    };
    let machine = Machine::start(alloc, checked, shape, sizes.fuel)?;
    // for the proof alone: its setting is within the limits of the code
    a_machine_is_ready(&machine);
    Ok(Box::new(alloc, machine)?)
}

/// The machine of a text when a run begins.
///
/// # Errors
/// `Usage` if a size or the fuel is out of its range, `Refused` if the text has a fault or its tasks conflict, and `Memory` if there
/// is no room. Without room it may stay unknown whether the text is refused.
pub(crate) fn open_machine(
    alloc: Global,
    text: &[u8],
    sizes: Sizes,
) -> Result<Box<Machine>, Unopened>
    ensures opened { IfOk result (λ m. IsOpened text.now sizes m.value) }
    ensures why { IfErr result (IsUnopened text.now sizes) }
{
    if !fits(sizes) {
        return Err(Unopened::Usage);
    }
    let checked = checked_of(alloc, text)?;
    Ok(start_machine(alloc, checked, sizes)?)
}

/// Makes the event of a code, if it is enabled. If it isn't, that is the result even without memory.
pub(crate) fn step(machine: &mut Machine, code: EventCode) -> StepResult
    ensures { IsCodeTried machine.old machine.new code result }
{
    if machine.made() >= MOST_STEPS {
        return StepResult::Usage;
    }
    let Some(event) = coded_event(code) else {
        return StepResult::Usage;
    };
    match machine.try_step(event) {
        Ok(Some(_)) => StepResult::Made,
        Ok(None) => StepResult::Disabled,
        Err(_) if machine.enabled(&event) => StepResult::Memory,
        Err(_) => StepResult::Disabled,
    }
}

/// The codes of the enabled events, in their order.
///
/// # Errors
/// `Memory` if there is no room for them. Where the run is over there is none, and no room is needed.
pub(crate) fn enabled_codes(alloc: Global, machine: &Machine) -> Result<Vec<EventCode>, Memory>
    ensures listed { IfOk result (λ codes. codes.items ≡ map event_code (enabled_events machine.now.state)) }
    ensures err { IsErr result → IsOver machine.now.state → ⊥ }
{
    let Some(_next) = machine.pick(0) else {
        none_is_listed_where_none_is_enabled(machine);
        return Ok(Vec::new(alloc));
    };
    let events = enabled_events(alloc, machine)?;
    codes_of(alloc, events.as_slice())
}
