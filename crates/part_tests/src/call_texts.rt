//! The texts that the tests run, their machines, and what follows from the rules by hand.
ghost use Rattle.std.specs.Prelude.{◌≡◌, IfOk};

use dn_base::{BankId, CoreId, Memory, Shape};
use dn_machine::Machine;
use effect_checker::{Checked, check};
use grant_log::Stamped;
use message_net::{Actor, Event, EventKind, MailId};
use rv_assembler::assemble;
use std::alloc::Global;

/// This many banks each machine has.
pub(crate) const BANKS: u32 = 4;

/// A task stores 5 into the only word.
pub(crate) const STORE_FIVE: &[u8] = b"\
.region m, 1
.phase
.task 0, go, 0
.writes m
go: lui t0, 0x10000
 addi t1, x0, 5
 sw t1, 0(t0)
 addi a7, x0, 0
 ecall
";

/// Four tasks raise a word by 1 a hundred times each, under a lock.
pub(crate) const LOCKED_COUNTER: &[u8] = b"\
.region c, 1
.lock k
.phase
.task 0, go, 100
.gwrites k, c
.task 1, go, 100
.gwrites k, c
.task 2, go, 100
.gwrites k, c
.task 3, go, 100
.gwrites k, c
go: mv s0, a0
 la t0, c
l: li a0, 0
 li a7, 1
 ecall
 lw t1, 0(t0)
 addi t1, t1, 1
 sw t1, 0(t0)
 li a7, 2
 ecall
 addi s0, s0, -1
 bnez s0, l
 li a7, 0
 ecall
";

/// The program of a text.
pub(crate) fn checked_of(alloc: Global, text: &[u8]) -> Result<Checked, Memory> {
    let Ok(program) = assemble(alloc, text) else {
        return Err(Memory);
    };
    check(program).map_err(|_fault| Memory)
}

/// The machine of a text, with four banks, whose caches have 64 sets of four places.
pub(crate) fn machine_of(alloc: Global, text: &[u8]) -> Result<Machine, Memory>
    ensures { IfOk result (λ m. m.made ≡ 0) }
{
    let checked = checked_of(alloc, text)?;
    let shape = Shape {
        cores: checked.program().cores(),
        banks: BANKS,
        sets: 64,
        ways: 4,
    };
    Machine::start(alloc, checked, shape, 32_768)
}

fn noted(stamp: u64, actor: Actor, event: Event, kind: EventKind) -> Stamped {
    Stamped {
        stamp,
        actor,
        event,
        kind,
        granted: None,
    }
}

fn handled(sender: Actor, number: u32) -> Event {
    Event::Handle(MailId { sender, number })
}

/// The events of `STORE_FIVE` by one worker.
pub(crate) fn events_of_store_five() -> [Stamped; 10] {
    let core = Actor::Core(CoreId(0));
    let home = Actor::Bank(BankId(0));
    let own = Event::Instr(CoreId(0));
    [
        noted(1, core, own, EventKind::Instr),
        noted(2, core, own, EventKind::Instr),
        noted(3, core, own, EventKind::Instr),
        noted(4, home, handled(core, 0), EventKind::RegReq),
        noted(5, core, handled(home, 0), EventKind::RegAck),
        noted(6, core, own, EventKind::Instr),
        noted(7, core, own, EventKind::Instr),
        noted(8, core, Event::Arrive(CoreId(0)), EventKind::Arrive),
        noted(9, Actor::Keeper, handled(core, 1), EventKind::Arrived),
        noted(10, core, handled(Actor::Keeper, 0), EventKind::Halt),
    ]
}
