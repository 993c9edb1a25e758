ghost use Rattle.std.specs.Prelude.{◌≡◌, ◌↔◌, ℕ, ◌+◌, ◌%◌, ◌^◌, ◌<◌, ◌≤◌, Bool, Option, None, option_map, length};
ghost use Rattle.region_table.specs.Program.{AreEffects};
ghost use Rattle.rv_core.specs.Need.{need_of, traps, when_aligned, address_of, jump_target, register_target, jump_need, load_need, store_need, call_need, instr_need, word_need};
ghost use Rattle.rv_core.specs.Kinds.{Allowed, EndsByFuel};
ghost use Rattle.rv_core.specs.Next.{IsNextOf};
ghost use Rattle.rv_core.specs.Address.{data_at, is_whole};

use crate::access::{is_held, is_readable, is_writable, least_lock};
use crate::address::{code_word, data_word, size};
use crate::registers::read;
use crate::task::{A0, End, TaskState, TrapKind};
use dn_base::{LockId, WordId};
use region_table::{Program, TaskDecl};
use rv_isa::{Instr, Reg, Width, decode, taken};

/// What a task's next instruction needs before it can retire.
#[derive(Clone, Copy, PartialEq, Eq)]
pub enum Need {
    /// Nothing besides the task's own registers.
    Local,
    /// The value of a data word.
    Load { word: WordId },
    /// The right to write a data word. `whole` says that the store gives all four bytes.
    Store { word: WordId, whole: bool },
    /// A lock that the task doesn't hold.
    Acquire { lock: LockId },
    /// To give up a lock that the task holds.
    Release { lock: LockId },
    /// The task ends with this cause.
    End { cause: End },
}

/// What a task's next instruction needs, and the instruction itself. So `TaskState::complete`, `complete_load` and `merged_by`
/// needn't look for it again.
#[derive(Clone, Copy, PartialEq, Eq)]
pub struct Next {
    pub need: Need,
    /// None if the task ends before it reaches an instruction: it is out of fuel, or there is no instruction at its pc.
    pub instr: Option<Instr>,
}

/// The number of register a7, which holds the number of an ECALL.
pub(crate) const A7: usize = 17;

/// The trap of this kind at the task's instruction.
#[inline(always)]
fn trap(state: &TaskState, kind: TrapKind, value: u32) -> Need
    ensures { result ≡ traps state.now kind value }
{
    Need::End {
        cause: End::Trap {
            kind,
            pc: state.pc,
            value,
        },
    }
}

/// The address that is a register's value and an offset.
#[inline(always)]
pub(crate) fn address(state: &TaskState, base: Reg, offset: i32) -> u32
    ensures { result ≡ address_of state.now base offset }
{
    read(&state.regs, base).wrapping_add(offset.cast_unsigned())
}

/// Where a jump to an offset from the instruction goes.
#[inline(always)]
pub(crate) fn target(state: &TaskState, offset: i32) -> u32
    ensures { result ≡ jump_target state.now offset }
{
    state.pc.wrapping_add(offset.cast_unsigned())
}

/// Where a jump to a register and an offset goes.
#[inline(always)]
pub(crate) fn register_jump(state: &TaskState, base: Reg, offset: i32) -> u32
    ensures { result ≡ register_target state.now base offset }
{
    address(state, base, offset) / 2 * 2
}

/// A jump to this address.
#[inline(always)]
fn jump(state: &TaskState, target: u32) -> Need
    ensures { result ≡ jump_need state.now target }
{
    if target % 4 == 0 {
        Need::Local
    } else {
        trap(state, TrapKind::Target, target)
    }
}

/// A load of this width at this address.
#[inline(always)]
fn load(program: &Program, task: &TaskDecl, state: &TaskState, width: Width, address: u32) -> Need
    ensures { result ≡ when_aligned state.now width address
        (load_need task.now state.now address (data_at (length program.now.memory) address)) }
{
    if address % size(width) != 0 {
        return trap(state, TrapKind::Misaligned, address);
    }
    match data_word(program.memory.len(), address) {
        Some(word) if is_readable(task, state.held, WordId(word)) => Need::Load {
            word: WordId(word),
        },
        _ => trap(state, TrapKind::Outside, address),
    }
}

/// A store of this width at this address.
#[inline(always)]
fn store(program: &Program, task: &TaskDecl, state: &TaskState, width: Width, address: u32) -> Need
    ensures { result ≡ when_aligned state.now width address
        (store_need task.now state.now (is_whole width) address (data_at (length program.now.memory) address)) }
{
    if address % size(width) != 0 {
        return trap(state, TrapKind::Misaligned, address);
    }
    match data_word(program.memory.len(), address) {
        Some(word) if is_writable(task, state.held, WordId(word)) => Need::Store {
            word: WordId(word),
            whole: width == Width::W,
        },
        _ => trap(state, TrapKind::Outside, address),
    }
}

/// An ECALL with this number in a7 and this lock in a0.
fn call(program: &Program, state: &TaskState, number: u32, lock: u32) -> Need
    ensures { result ≡ call_need program.now state.now number lock }
{
    match number {
        0 if state.held == 0 => Need::End {
            cause: End::Finished,
        },
        0 => trap(state, TrapKind::HeldEnd, least_lock(state.held)),
        1 | 2 if lock as usize >= program.locks.len() => trap(state, TrapKind::NoLock, lock),
        1 if is_held(state.held, lock) => trap(state, TrapKind::Held, lock),
        1 => Need::Acquire { lock: LockId(lock) },
        2 if is_held(state.held, lock) => Need::Release { lock: LockId(lock) },
        2 => trap(state, TrapKind::NotHeld, lock),
        _ => trap(state, TrapKind::Call, number),
    }
}

/// What an instruction needs.
#[inline(always)]
pub(crate) fn instruction(
    program: &Program,
    task: &TaskDecl,
    state: &TaskState,
    instr: &Instr,
) -> Need
    ensures { result ≡ instr_need program.now task.now state.now instr.now }
{
    match *instr {
        Instr::Jal { rd: _, offset } => jump(state, target(state, offset)),
        Instr::Jalr { base, offset, .. } => jump(state, register_jump(state, base, offset)),
        Instr::Branch { cond, a, b, offset } => {
            if taken(cond, read(&state.regs, a), read(&state.regs, b)) {
                jump(state, target(state, offset))
            } else {
                Need::Local
            }
        }
        Instr::Load {
            width,
            rd: _,
            base,
            offset,
        } => load(program, task, state, width, address(state, base, offset)),
        Instr::Store {
            width,
            src: _,
            base,
            offset,
        } => store(program, task, state, width, address(state, base, offset)),
        Instr::Ebreak => trap(state, TrapKind::Break, 0),
        Instr::Ecall => call(program, state, state.regs[A7], state.regs[A0]),
        Instr::Lui { .. }
        | Instr::Auipc { .. }
        | Instr::OpImm { .. }
        | Instr::Op { .. }
        | Instr::Fence => Need::Local,
    }
}

/// What a word needs that is this instruction, if it is one.
fn word_needs(
    program: &Program,
    task: &TaskDecl,
    state: &TaskState,
    word: u32,
    instr: &Option<Instr>,
) -> Need
    ensures { result ≡ word_need program.now task.now state.now word instr.now }
{
    match instr {
        Some(instr) => instruction(program, task, state, instr),
        None => trap(state, TrapKind::Illegal, word),
    }
}

/// A look at an instruction that isn't there, as the task ends.
fn ends(need: Need) -> Next
    ensures { result ≡ record { need = need; instr = None } }
{
    Next { need, instr: None }
}

impl TaskState {
    /// The look, case by case. Out of line, so that a look at a known instruction stays short.
    #[cold]
    #[inline(never)]
    #[tactic(auto, unfolding(crate::specs::Need::need_of))]
    pub(crate) fn look(&self, program: &Program, task: &TaskDecl, fuel: u32) -> Next
        ensures { IsNextOf program.now task.now fuel self.now result }
    {
        if self.retired == fuel {
            return ends(Need::End { cause: End::Fuel });
        }
        let Some(word) = code_word(program.code.as_slice(), self.pc) else {
            return ends(trap(self, TrapKind::Fetch, self.pc));
        };
        let instr = decode(word);
        let need = word_needs(program, task, self, word, &instr);
        Next { need, instr }
    }

    /// What the task's next instruction needs. The first of these cases that fits decides: the fuel is used up, the program
    /// counter is no code word's address, the word is no instruction, and then what the instruction asks for.
    ///
    /// The answer depends only on the task's own state, its declaration and the program. `fuel` is how many instructions the
    /// task may retire. The task must not have ended.
    pub fn need(&self, program: &Program, task: &TaskDecl, fuel: u32) -> Need
        requires { self.now.end ≡ None }
        ensures value { result ≡ need_of program.now task.now fuel self.now }

        // a task ends by Fuel exactly if it has retired as many instructions as it may
        ensures fuel { EndsByFuel result ↔ (self.now.retired ≡ fuel) }

        // the task may use the word or lock of the need in that way
        ensures allowed { Allowed program.now task.now self.now result }
    {
        self.look(program, task, fuel).need
    }

    /// What the task's next instruction needs, as `need` says, and the instruction.
    ///
    /// A caller that has what it needs completes the instruction by `complete`, or a load by `complete_load`, without a second
    /// look. The task must not have ended.
    pub fn next(&self, program: &Program, task: &TaskDecl, fuel: u32) -> Next
        requires { self.now.end ≡ None }
        ensures value { IsNextOf program.now task.now fuel self.now result }
        ensures fuel { EndsByFuel result.need ↔ (self.now.retired ≡ fuel) }
        ensures allowed { Allowed program.now task.now self.now result.need }
    {
        self.look(program, task, fuel)
    }
}
