ghost use Rattle.std.specs.Prelude.{◌≡◌, slice_get};
ghost use Rattle.registration_protocol.specs.Setting.{setting};
ghost use Rattle.dn_machine.specs.Content.{KnowsOwn};
ghost use Rattle.dn_machine.specs.Ends.{end_at};

use crate::content::Content;
use dn_base::CoreId;
use registration_protocol::Context;
use rv_core::TaskEnd;

impl Content {
    /// How the task of a core stands; None where it has none, and where it hasn't ended and waits for no lock.
    #[inline(always)]
    pub(crate) fn task_end(&self, core: CoreId) -> Option<TaskEnd>
        ensures { result ≡ end_at (slice_get self.now.nodes.items core.0) }
    {
        match self.nodes.as_slice().get(core.0 as usize) {
            Some(node) => node.task_end(),
            None => None,
        }
    }

    /// The same as `task_end`. If the core's own event is its instruction, its task goes on and waits for no lock, and the node
    /// isn't looked at. The context is there for the clauses alone.
    #[inline(always)]
    pub(crate) fn end_known(&self, context: &Context<'_>, core: CoreId) -> Option<TaskEnd>
        requires known { KnowsOwn (setting context.now) self.now }
        ensures { result ≡ end_at (slice_get self.now.nodes.items core.0) }
    {
        if self.own.has_instr(core) {
            return None;
        }
        self.task_end(core)
    }
}
