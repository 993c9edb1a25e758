ghost use Rattle.std.specs.Prelude.{◌≡◌};
ghost use Rattle.dn_base.specs.Status.{status_of};
ghost use Rattle.dn_top.specs.Answers.{answered};

use dn_base::{Outcome, Sequence, Status};
use dn_machine::RunRecord;

/// A status, all bytes that are to be written, and the run of the multicore machine, if there was one.
#[derive(Drop)]
pub struct Output {
    pub status: Status,
    pub bytes: Sequence<u8>,
    pub run: Option<RunRecord>,
}

/// The output of an outcome with this text, without a run of the machine.
pub(crate) fn output_of(outcome: Outcome, text: Vec<u8>) -> Output
    ensures { result ≡ answered (status_of outcome) text.items }
{
    Output {
        status: Status::from(outcome),
        bytes: Sequence::from_vec(text),
        run: None,
    }
}
