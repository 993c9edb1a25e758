ghost use Rattle.std.specs.Prelude.{◌≡◌, ℕ, ◌+◌, List, length};
ghost use Rattle.message_net.specs.declared.event.Event.{Event};
ghost use Rattle.registration_protocol.specs.Node.{Setting};
ghost use Rattle.machine_rules.specs.State.{State, initial_state};
ghost use Rattle.machine_rules.specs.Runs.{after, IsRun};
ghost use Rattle.machine_rules.specs.Sound.{IsReady};
ghost use Rattle.rv_core.specs.Decoded.{IsDecoded};
ghost use Rattle.dn_machine.specs.Kept.{IsKept, IsLeftByRun};
ghost use Rattle.dn_machine.specs.Parts.{made_in, AreLeftByRun, IsReordered};

use crate::content::Content;
use crate::machine::{Machine, context_of};
use crate::starting::own_events;
use dn_base::{Sequence, Shape};
use effect_checker::Checked;
use message_net::Pool;
use phase_barrier::Keeper;
use region_table::PhasePlan;
use registration_protocol::Node;
use registry_bank::Bank;
use rv_core::{DecodedCode, DecodedProgram};

/// The parts of a machine, for callers that let its actors work side by side: nodes and banks stand in the order of their
/// numbers, and `next` has the number of each actor's next message, of cores, then banks, then the barrier controller. `code` is
/// the program's code words, decoded.
#[derive(Drop)]
pub struct MachineParts {
    pub checked: Checked,
    pub plans: Vec<PhasePlan>,
    pub shape: Shape,
    pub fuel: u32,
    pub nodes: Vec<Node>,
    pub banks: Vec<Bank>,
    pub keeper: Keeper,
    pub pool: Pool,
    pub next: Vec<u32>,
    pub made: u64,
    pub code: DecodedCode,
}

impl Machine {
    /// The parts of the machine. Takes no memory.
    pub fn split(self) -> MachineParts
        ensures parts { made_in result ≡ self }
        ensures kept { IsKept (made_in result).state result.made }
        ensures code { IsDecoded result.checked result.code }
    {
        let Machine {
            decoded,
            plans,
            shape,
            fuel,
            content,
            made,
        } = self;
        let Content {
            nodes,
            banks,
            keeper,
            pool,
            numbers,
            own: _,
        } = content;
        let (program, code) = decoded.into_parts();
        MachineParts {
            checked: Checked::of_program(program),
            plans,
            shape,
            fuel,
            nodes,
            banks,
            keeper,
            pool,
            next: numbers.into_vec(),
            made,
            code,
        }
    }

    /// The machine of these parts. They must be what a run of `made` events leaves of the initial machine of a checked program,
    /// with the messages in any order, and the program's code words decoded. The theorem `what_a_run_leaves_is_kept` says what
    /// follows from that. Takes no memory.
    pub fn join(parts: MachineParts) -> Machine
        requires { AreLeftByRun parts }
        ensures { result ≡ made_in parts }
    {
        let MachineParts {
            checked,
            plans,
            shape,
            fuel,
            nodes,
            banks,
            keeper,
            pool,
            next,
            made,
            code,
        } = parts;
        let decoded = DecodedProgram::of_parts(checked.into_program(), code);
        let context = context_of(&decoded, &plans, shape, fuel);
        let own = own_events(nodes.as_slice(), &context);
        let content = Content {
            nodes,
            banks,
            keeper,
            pool,
            numbers: Sequence::from_vec(next),
            own,
        };
        Machine {
            decoded,
            plans,
            shape,
            fuel,
            content,
            made,
        }
    }
}

/// What a run leaves, with its messages in any order, has all that holds of machines: it is sound and coherent. The same holds
/// after every further run, and for any order of its messages.
pub fn what_a_run_leaves_is_kept()
    ensures left { (S : State) (made : ℕ) → IsLeftByRun S made → IsKept S made }
    ensures initial { (C : Setting) → IsReady C → IsKept (initial_state C) 0 }
    ensures run { (S : State) (made : ℕ) (events : List Event) → IsKept S made → IsRun S events → IsKept (after S events) (made + length events) }
    ensures reordered { (S T : State) (made : ℕ) → IsKept S made → IsReordered S T → IsKept T made }
{}
