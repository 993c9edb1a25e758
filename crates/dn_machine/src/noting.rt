//! For callers that step a machine themselves: the empty log, and the final `Ending`.
ghost use Rattle.std.specs.Prelude.{◌≡◌, length, IfOk};
ghost use Rattle.dn_machine.specs.Ends.{noted_ending};
ghost use Rattle.dn_machine.specs.Log.{no_log};

use crate::log::Log;
use crate::machine::{Machine, context_of};
use dn_base::Memory;
use rv_core::Ending;
use std::alloc::Global;

impl Machine {
    /// The log without events, for a run of the machine. Reserves room for 65,536 events at once.
    ///
    /// # Errors
    /// `Memory` where there is no room.
    pub fn log(&self, alloc: Global) -> Result<Log, Memory>
        ensures { IfOk result (λ log. log ≡ no_log (length self.now.state.setting.program.phases)) }
    {
        let program = self.decoded.program();
        Log::new(alloc, program.phases.len())
    }

    /// The ending of a run, from the machine's last state and the ends in its log.
    ///
    /// # Errors
    /// `Memory` where there is no room.
    pub fn ending(&self, alloc: Global, log: &Log) -> Result<Ending, Memory>
        ensures { IfOk result (λ ending. ending ≡ noted_ending log.now.ends self.now.state) }
    {
        let context = context_of(&self.decoded, &self.plans, self.shape, self.fuel);
        self.content.ending(alloc, &context, &log.ends)
    }
}
