use crate::own_row::OwnRow;
use dn_base::Sequence;
use message_net::Pool;
use phase_barrier::Keeper;
use registration_protocol::Node;
use registry_bank::Bank;

/// What events change in a machine: the nodes, the banks, the barrier controller, the messages in flight, the number of each
/// actor's next message, and the own event of each core, if it has one.
#[derive(Drop)]
pub(crate) struct Content {
    pub(crate) nodes: Vec<Node>,
    pub(crate) banks: Vec<Bank>,
    pub(crate) keeper: Keeper,
    pub(crate) pool: Pool,
    pub(crate) numbers: Sequence<u32>,
    pub(crate) own: OwnRow,
}
