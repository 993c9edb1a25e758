ghost use Rattle.std.specs.Prelude.{◌≡◌, ◌≢◌, ◌↔◌, ◌+◌, ◌%◌, ◌<◌, ◌≤◌, true, false, Some, None, length, slice_index, if◌then◌else◌};
ghost use Rattle.region_table.specs.Program.{ProgramParts};
ghost use Rattle.region_table.specs.declared.declared.TaskDecl.{TaskDecl as ATask};
ghost use Rattle.rv_isa.specs.Meaning.{taken_of};
ghost use Rattle.rv_isa.specs.declared.instr.Instr.TheVariants.{Ecall, Branch as ABranch};
ghost use Rattle.rv_core.specs.Registers.{value_in};
ghost use Rattle.rv_core.specs.Need.{need_of, instr_need, jump_target};
ghost use Rattle.rv_core.specs.declared.need.Need.TheVariants.{Local as NeedsNothing};
ghost use Rattle.rv_core.specs.Step.{instr_at, next_pc, with_result, jumped_to, after_call, after_instr, after_load, after_store, advanced, loaded_of, merged_of};
ghost use Rattle.rv_core.specs.Kinds.{IsLoad, IsStore, IsAdvance, IsAligned, KeepsOthers};
ghost use Rattle.rv_core.specs.Next.{IsNextOf};

use crate::address::{code_word, part, replace};
use crate::need::{A7, Next, address, register_jump, target};
use crate::registers::{read, write};
use crate::task::{A0, TaskState};
use region_table::{Program, TaskDecl};
use rv_isa::{Cond, Instr, Reg, alu, decode, taken};

/// The instruction at the task's program counter, if there is one.
fn instruction(program: &Program, state: &TaskState) -> Option<Instr>
    ensures value { result ≡ instr_at program.now state.now }
    ensures locks { length program.now.locks ≤ 32 }
{
    match code_word(program.code.as_slice(), state.pc) {
        Some(word) => decode(word),
        None => None,
    }
}

impl TaskState {
    /// The address of the instruction behind this one.
    #[inline(always)]
    fn behind(&self) -> u32
        ensures { result ≡ next_pc self.now }
    {
        self.pc.wrapping_add(4)
    }

    /// The instruction retires, and the task goes on at `pc`.
    #[inline(always)]
    fn go(&mut self, pc: u32)
        requires { self.old.retired < 4294967295 }
        ensures { self.new ≡ jumped_to self.old pc }
    {
        self.pc = pc;
        self.retired += 1;
    }

    /// The instruction retires: the value goes to the register, and the task goes on at `pc`.
    #[inline(always)]
    fn retire(&mut self, rd: Reg, value: u32, pc: u32)
        requires { self.old.retired < 4294967295 }
        ensures { self.new ≡ with_result self.old rd value pc }
    {
        write(&mut self.regs, rd, value);
        self.go(pc);
    }

    /// An ECALL retires: with 1 in a7 it acquires the lock in a0, otherwise it releases it.
    fn call(&mut self)
        requires retired { self.old.retired < 4294967295 }
        requires lock { slice_index self.old.regs 10 < 32 }
        ensures { self.new ≡ after_call self.old (slice_index self.old.regs 17) (slice_index self.old.regs 10) }
    {
        let lock = self.regs[A0];
        if self.regs[A7] == 1 {
            self.held |= 1 << lock;
        } else {
            self.held ^= 1 << lock;
        }
        let next = self.behind();
        self.go(next);
    }

    /// Where the task goes on behind a branch.
    #[inline(always)]
    fn branch(&self, cond: Cond, a: Reg, b: Reg, offset: i32) -> u32
        ensures { result ≡ (if taken_of cond (value_in self.now.regs a) (value_in self.now.regs b)
            then jump_target self.now offset else next_pc self.now) }
    {
        if taken(cond, read(&self.regs, a), read(&self.regs, b)) {
            target(self, offset)
        } else {
            self.behind()
        }
    }

    /// Completes an instruction that loads nothing.
    #[inline(always)]
    pub(crate) fn advance_by(&mut self, instr: Instr)
        requires retired { self.old.retired < 4294967295 }
        requires lock { instr ≡ Ecall → slice_index self.old.regs 10 < 32 }
        ensures { self.new ≡ after_instr self.old instr }
    {
        let next = self.behind();
        match instr {
            Instr::Lui { rd, imm } => self.retire(rd, imm.wrapping_mul(4096), next),
            Instr::Auipc { rd, imm } => {
                let sum = self.pc.wrapping_add(imm.wrapping_mul(4096));
                self.retire(rd, sum, next);
            }
            Instr::Jal { rd, offset } => {
                let to = target(self, offset);
                self.retire(rd, next, to);
            }
            Instr::Jalr { rd, base, offset } => {
                let to = register_jump(self, base, offset);
                self.retire(rd, next, to);
            }
            Instr::Branch { cond, a, b, offset } => {
                let to = self.branch(cond, a, b, offset);
                self.go(to);
            }
            Instr::OpImm { op, rd, a, imm } => {
                let left = read(&self.regs, a);
                self.retire(rd, alu(op, left, imm.cast_unsigned()), next);
            }
            Instr::Op { op, rd, a, b } => {
                let left = read(&self.regs, a);
                let right = read(&self.regs, b);
                self.retire(rd, alu(op, left, right), next);
            }
            Instr::Store { .. } | Instr::Fence => self.go(next),
            Instr::Ecall => self.call(),
            Instr::Load { .. } | Instr::Ebreak => {}
        }
    }

    /// The instruction retires as a jump to this address, if that is a multiple of 4, and writes a register. Returns whether it did.
    #[inline(always)]
    fn leap(&mut self, rd: Reg, value: u32, pc: u32) -> bool
        requires { self.old.retired < 4294967295 }
        ensures goes { result ≡ true → (pc % 4 ≡ 0) × (self.new ≡ with_result self.old rd value pc) }
        ensures stays { result ≡ false → (pc % 4 ≢ 0) × (self.new ≡ self.old) }
    {
        if pc % 4 != 0 {
            return false;
        }
        self.retire(rd, value, pc);
        true
    }

    /// The instruction retires: the value goes to the register, and the task goes on behind the instruction. Returns true.
    #[inline(always)]
    fn put(&mut self, rd: Reg, value: u32) -> bool
        requires { self.old.retired < 4294967295 }
        ensures state { self.new ≡ with_result self.old rd value (next_pc self.old) }
        ensures done { result ≡ true }
    {
        let next = self.behind();
        self.retire(rd, value, next);
        true
    }

    /// Completes a branch, unless it goes to an address that is no multiple of 4. Returns whether it did.
    #[inline(always)]
    fn branch_by(&mut self, cond: Cond, a: Reg, b: Reg, offset: i32) -> bool
        requires { self.old.retired < 4294967295 }
        ensures local { (P : ProgramParts) (d : ATask) → (result ≡ true) ↔ (instr_need P d self.old (ABranch cond a b offset) ≡ NeedsNothing) }
        ensures done { result ≡ true → self.new ≡ after_instr self.old (ABranch cond a b offset) }
        ensures left { result ≡ false → self.new ≡ self.old }
    {
        let goes = taken(cond, read(&self.regs, a), read(&self.regs, b));
        let to = if goes {
            target(self, offset)
        } else {
            self.behind()
        };
        if goes && to % 4 != 0 {
            return false;
        }
        self.go(to);
        true
    }

    /// Whether an instruction needs nothing besides the task's registers.
    #[inline(always)]
    pub(crate) fn computes_by(&self, instr: &Instr) -> bool
        ensures { (P : ProgramParts) (d : ATask) → (result ≡ true) ↔ (instr_need P d self.now instr.now ≡ NeedsNothing) }
    {
        match *instr {
            Instr::Jal { rd: _, offset } => target(self, offset) % 4 == 0,
            Instr::Jalr {
                rd: _,
                base,
                offset,
            } => register_jump(self, base, offset) % 4 == 0,
            Instr::Branch { cond, a, b, offset } => {
                target(self, offset) % 4 == 0
                    || !taken(cond, read(&self.regs, a), read(&self.regs, b))
            }
            Instr::Load { .. } | Instr::Store { .. } | Instr::Ecall | Instr::Ebreak => false,
            Instr::Lui { .. }
            | Instr::Auipc { .. }
            | Instr::OpImm { .. }
            | Instr::Op { .. }
            | Instr::Fence => true,
        }
    }

    /// Completes an instruction that needs nothing besides the task's registers, and leaves any other. Returns whether it did.
    #[inline(always)]
    pub(crate) fn compute_by(&mut self, instr: &Instr) -> bool
        requires { self.old.retired < 4294967295 }
        ensures local { (P : ProgramParts) (d : ATask) → (result ≡ true) ↔ (instr_need P d self.old instr.now ≡ NeedsNothing) }
        ensures done { result ≡ true → self.new ≡ after_instr self.old instr.now }
        ensures counted { result ≡ true → self.new.retired ≡ self.old.retired + 1 }
        ensures left { result ≡ false → self.new ≡ self.old }
    {
        match *instr {
            Instr::Jal { rd, offset } => self.leap(rd, self.behind(), target(self, offset)),
            Instr::Jalr { rd, base, offset } => {
                self.leap(rd, self.behind(), register_jump(self, base, offset))
            }
            Instr::Branch { cond, a, b, offset } => self.branch_by(cond, a, b, offset),
            Instr::Load { .. } | Instr::Store { .. } | Instr::Ecall | Instr::Ebreak => false,
            Instr::Lui { rd, imm } => self.put(rd, imm.wrapping_mul(4096)),
            Instr::Auipc { rd, imm } => {
                self.put(rd, self.pc.wrapping_add(imm.wrapping_mul(4096)))
            }
            Instr::OpImm { op, rd, a, imm } => {
                let left = read(&self.regs, a);
                self.put(rd, alu(op, left, imm.cast_unsigned()))
            }
            Instr::Op { op, rd, a, b } => {
                let left = read(&self.regs, a);
                let right = read(&self.regs, b);
                self.put(rd, alu(op, left, right))
            }
            Instr::Fence => {
                let next = self.behind();
                self.go(next);
                true
            }
        }
    }

    /// Completes a load, whose word has this value; any other instruction does nothing.
    #[inline(always)]
    pub(crate) fn load_by(&mut self, instr: Instr, value: u32)
        requires retired { self.old.retired < 4294967295 }
        requires aligned { IsAligned self.old instr }
        ensures { self.new ≡ after_load self.old value (Some instr) }
    {
        if let Instr::Load {
            width,
            rd,
            base,
            offset,
        } = instr
        {
            let lane = address(self, base, offset) % 4;
            let next = self.behind();
            self.retire(rd, part(width, value, lane), next);
        }
    }

    /// The word after a store, where the word's value was `old`; any other instruction leaves it.
    #[inline(always)]
    pub(crate) fn store_by(&self, instr: Instr, old: u32) -> u32
        requires { IsAligned self.now instr }
        ensures { result ≡ after_store self.now old (Some instr) }
    {
        if let Instr::Store {
            width,
            src,
            base,
            offset,
        } = instr
        {
            let lane = address(self, base, offset) % 4;
            let value = read(&self.regs, src);
            replace(width, old, lane, value)
        } else {
            old
        }
    }

    /// Completes an instruction that needs nothing, a store, an acquire or a release: its registers, the program counter and
    /// the locks that are held. One more instruction has retired then.
    ///
    /// The task must not have ended, and its need must be one of these.
    #[tactic(auto, unfolding(crate::specs::Step::advanced))]
    pub fn advance(&mut self, program: &Program, task: &TaskDecl, fuel: u32)
        requires open { self.old.end ≡ None }
        requires retired { self.old.retired ≤ fuel }
        requires kind { IsAdvance (need_of program.now task.now fuel self.old) }
        ensures value { self.new ≡ advanced program.now self.old }
        ensures retired { self.new.retired ≡ self.old.retired + 1 }
        ensures within { self.new.retired ≤ fuel }
        ensures others { KeepsOthers (instr_at program.now self.old) self.old self.new }
        ensures zero { slice_index self.new.regs 0 ≡ slice_index self.old.regs 0 }
        ensures open { self.new.end ≡ None }
    {
        match instruction(program, self) {
            Some(instr) => self.advance_by(instr),
            None => {}
        }
    }

    /// Completes a load of a word with this value: its register and the program counter. One more instruction has retired then.
    ///
    /// The task must not have ended, and its need must be a load.
    #[tactic(auto, unfolding(crate::specs::Step::loaded_of))]
    pub fn loaded(&mut self, program: &Program, task: &TaskDecl, fuel: u32, value: u32)
        requires open { self.old.end ≡ None }
        requires retired { self.old.retired ≤ fuel }
        requires kind { IsLoad (need_of program.now task.now fuel self.old) }
        ensures value { self.new ≡ loaded_of program.now value self.old }
        ensures retired { self.new.retired ≡ self.old.retired + 1 }
        ensures within { self.new.retired ≤ fuel }
        ensures others { KeepsOthers (instr_at program.now self.old) self.old self.new }
        ensures zero { slice_index self.new.regs 0 ≡ slice_index self.old.regs 0 }
        ensures open { self.new.end ≡ None }
        ensures locks { self.new.held ≡ self.old.held }
    {
        match instruction(program, self) {
            Some(instr) => self.load_by(instr, value),
            None => {}
        }
    }

    /// The word after the task's store, where `old` is its value before.
    ///
    /// The task must not have ended, and its need must be a store.
    #[tactic(auto, unfolding(crate::specs::Step::merged_of))]
    pub fn merged(&self, program: &Program, task: &TaskDecl, fuel: u32, old: u32) -> u32
        requires open { self.now.end ≡ None }
        requires retired { self.now.retired ≤ fuel }
        requires kind { IsStore (need_of program.now task.now fuel self.now) }
        ensures { result ≡ merged_of program.now old self.now }
    {
        match instruction(program, self) {
            Some(instr) => self.store_by(instr, old),
            None => old,
        }
    }

    /// Completes the instruction that this look found, as `advance` does, without a second look.
    ///
    /// The task must not have ended, the look must be the one that `next` gives now, and its need one that `advance` completes.
    #[tactic(auto, unfolding(crate::specs::Step::advanced))]
    pub fn complete(&mut self, program: &Program, task: &TaskDecl, fuel: u32, next: &Next)
        requires open { self.old.end ≡ None }
        requires retired { self.old.retired ≤ fuel }
        requires next { IsNextOf program.now task.now fuel self.old next.now }
        requires kind { IsAdvance next.now.need }
        ensures value { self.new ≡ advanced program.now self.old }
        ensures retired { self.new.retired ≡ self.old.retired + 1 }
        ensures within { self.new.retired ≤ fuel }
        ensures others { KeepsOthers (instr_at program.now self.old) self.old self.new }
        ensures zero { slice_index self.new.regs 0 ≡ slice_index self.old.regs 0 }
        ensures open { self.new.end ≡ None }
    {
        // for the proof alone: the read brings the program's invariant, by which it has at most 32 locks
        let _locks = &program.locks;
        match next.instr {
            Some(instr) => self.advance_by(instr),
            None => {}
        }
    }

    /// Completes the load that this look found of a word with this value, as `loaded` does, without a second look.
    ///
    /// The task must not have ended, the look must be the one that `next` gives now, and its need a load.
    #[tactic(auto, unfolding(crate::specs::Step::loaded_of))]
    pub fn complete_load(
        &mut self,
        program: &Program,
        task: &TaskDecl,
        fuel: u32,
        next: &Next,
        value: u32,
    )
        requires open { self.old.end ≡ None }
        requires retired { self.old.retired ≤ fuel }
        requires next { IsNextOf program.now task.now fuel self.old next.now }
        requires kind { IsLoad next.now.need }
        ensures value { self.new ≡ loaded_of program.now value self.old }
        ensures retired { self.new.retired ≡ self.old.retired + 1 }
        ensures within { self.new.retired ≤ fuel }
        ensures others { KeepsOthers (instr_at program.now self.old) self.old self.new }
        ensures zero { slice_index self.new.regs 0 ≡ slice_index self.old.regs 0 }
        ensures open { self.new.end ≡ None }
        ensures locks { self.new.held ≡ self.old.held }
    {
        match next.instr {
            Some(instr) => self.load_by(instr, value),
            None => {}
        }
    }

    /// The word after the store that this look found, where `old` is its value before, as `merged` says, without a second look.
    ///
    /// The task must not have ended, the look must be the one that `next` gives now, and its need a store.
    #[tactic(auto, unfolding(crate::specs::Step::merged_of))]
    pub fn merged_by(
        &self,
        program: &Program,
        task: &TaskDecl,
        fuel: u32,
        next: &Next,
        old: u32,
    ) -> u32
        requires open { self.now.end ≡ None }
        requires retired { self.now.retired ≤ fuel }
        requires next { IsNextOf program.now task.now fuel self.now next.now }
        requires kind { IsStore next.now.need }
        ensures { result ≡ merged_of program.now old self.now }
    {
        match next.instr {
            Some(instr) => self.store_by(instr, old),
            None => old,
        }
    }
}
