//! What a machine's state is, part by part, for programs that show it. No call takes memory, and none takes the machine apart.
ghost use Rattle.std.specs.Prelude.{◌≡◌, ◌<◌, Some, slice_get};
ghost use Rattle.registration_protocol.specs.Fit.{Fits};

use crate::machine::Machine;
use dn_base::{BankId, CoreId, Shape};
use message_net::Pool;
use phase_barrier::Keeper;
use region_table::{PhasePlan, Program};
use registration_protocol::Node;
use registry_bank::Bank;

impl Machine {
    /// The node of a core, which is below the cores of the machine's shape. The node fits the machine: its cache has the
    /// sets and ways of the shape, and its phase is one of the program's unless it is halted.
    pub fn node(&self, core: CoreId) -> &Node
        requires { core.0 < self.now.state.setting.shape.cores }
        ensures node { slice_get self.now.state.nodes core.0 ≡ Some result.now }
        ensures fits { Fits self.now.state.setting result.now }
    {
        &self.content.nodes[core.0 as usize]
    }

    /// The bank of this number, which is below the banks of the machine's shape.
    pub fn bank(&self, bank: BankId) -> &Bank
        requires { bank.0 < self.now.state.setting.shape.banks }
        ensures { slice_get self.now.state.banks bank.0 ≡ Some result.now }
    {
        &self.content.banks[bank.0 as usize]
    }

    /// The barrier controller of the barrier.
    pub fn keeper(&self) -> &Keeper
        ensures { result.now ≡ self.now.state.keeper }
    {
        &self.content.keeper
    }

    /// The messages in flight.
    pub fn pool(&self) -> &Pool
        ensures { result.now.mails ≡ self.now.state.mails }
    {
        &self.content.pool
    }

    /// The number of each actor's next message: of the cores, then of the banks, then of the barrier controller.
    pub fn numbers(&self) -> &[u32]
        ensures { result.now ≡ self.now.state.numbers }
    {
        self.content.numbers.as_slice()
    }

    /// The program that the machine runs.
    pub fn program(&self) -> &Program
        ensures { result.now ≡ self.now.state.setting.program }
    {
        self.decoded.program()
    }

    /// The plans of the program's phases, in the order of the phases.
    pub fn plans(&self) -> &[PhasePlan]
        ensures { result.now ≡ self.now.state.setting.plans }
    {
        self.plans.as_slice()
    }

    /// The machine's size.
    pub fn shape(&self) -> Shape
        ensures { result ≡ self.now.state.setting.shape }
    {
        self.shape
    }

    /// How many instructions a task may retire.
    pub fn fuel(&self) -> u32
        ensures { result ≡ self.now.state.setting.fuel }
    {
        self.fuel
    }
}
