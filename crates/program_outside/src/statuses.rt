ghost use Rattle.dn_base.specs.Status.{exit_code_of};
ghost use Rattle.program_outside.specs.Statuses.{status_told};

use crate::ends::{EndStatus, Failure};
use dn_base::Status;

impl EndStatus for Status {
    ghost told = { status_told };

    ghost code_of = { exit_code_of };

    fn of(failure: Failure) -> Status {
        match failure {
            Failure::Usage => Status::Usage,
            Failure::ReadFault => Status::ReadFault,
            Failure::WriteFault => Status::WriteFault,
            Failure::Memory => Status::Memory,
        }
    }

    fn exit_code(&self) -> u8 {
        self.code()
    }
}
