//! What a node is, for programs that show it. No call takes memory.
ghost use Rattle.std.specs.Prelude.{◌≡◌, option_copied};
ghost use Rattle.registration_protocol.specs.Node.{Setting, need_now};

use crate::node::{Node, NodeWait};
use dn_base::{CoreId, PhaseId};
use region_table::Program;
use rv_core::{Need, TaskState};
use word_cache::WordCache;
use write_signature::Signature;

impl Node {
    /// The core.
    pub fn core(&self) -> CoreId
        ensures { result.0 ≡ self.now.core }
    {
        self.core
    }

    /// The phase that the node is in.
    pub fn phase(&self) -> PhaseId
        ensures { result.0 ≡ self.now.phase }
    {
        self.phase
    }

    /// The state of the core's task in the phase; None where the program declares none.
    pub fn task(&self) -> Option<&TaskState>
        ensures { option_copied result ≡ self.now.task }
    {
        self.task.as_ref()
    }

    /// The private cache.
    pub fn cache(&self) -> &WordCache
        ensures { result.now ≡ self.now.cache }
    {
        &self.cache
    }

    /// What the node waits for.
    pub fn wait(&self) -> NodeWait
        ensures { result ≡ self.now.waiting }
    {
        self.wait
    }

    /// The signature that the core has for each lock, in the order of the locks.
    pub fn signatures(&self) -> &[Signature]
        ensures { result.now ≡ self.now.signatures }
    {
        self.signatures.as_slice()
    }

    /// Whether the core has arrived at the barrier, and waits there.
    pub fn has_arrived(&self) -> bool
        ensures { result ≡ self.now.arrived }
    {
        self.arrived
    }

    /// Whether the run is over for the core.
    pub fn has_halted(&self) -> bool
        ensures { result ≡ self.now.halted }
    {
        self.halted
    }

    /// What the next instruction of the node's task needs, in a machine of this program and fuel; None if the node has no
    /// running task.
    pub fn needs(&self, program: &Program, fuel: u32) -> Option<Need>
        ensures { (C : Setting) → C.program ≡ program.now → C.fuel ≡ fuel → result ≡ need_now C self.now }
    {
        let task = self.task.as_ref()?;
        if task.end.is_some() {
            return None;
        }
        let declared = program.task(self.phase, self.core)?;
        Some(task.need(program, declared, fuel))
    }
}
