ghost use Rattle.std.specs.Prelude.{◌≡◌, ◌↔◌, ◌≤◌, ◌+◌, true, false, None, length, slice_get, option_copied, IfOk};
ghost use Rattle.region_table.specs.declared.declared.TaskDecl.{TaskDecl as ATask};
ghost use Rattle.rv_core.specs.Decoded.{decoded_entry, found_at, IsDecoded};
ghost use Rattle.rv_core.specs.Kinds.{Allowed, EndsByFuel, IsAdvance, IsLoad, IsStore};
ghost use Rattle.rv_core.specs.Need.{need_of};
ghost use Rattle.rv_core.specs.declared.need.Need.TheVariants.{Local as NeedsNothing};
ghost use Rattle.rv_core.specs.Next.{IsNextOf};
ghost use Rattle.rv_core.specs.Step.{instr_at, advanced, loaded_of, merged_of};

use crate::address::code_place;
use crate::need::{Need, Next, instruction};
use crate::task::TaskState;
use dn_base::Memory;
use region_table::{Program, TaskDecl};
use rv_isa::{Instr, decode};
use std::alloc::Global;
use std::marker::Model;

/// The instructions of a program's code words, each decoded once.
#[derive(Drop)]
pub struct DecodedCode {
    instrs: Vec<Option<Instr>>,
}

impl Model for DecodedCode {
    ghost use Rattle.std.specs.Prelude.{List, Option};
    ghost use Rattle.rv_isa.specs.declared.instr.Instr.{Instr};

    ghost Value = { List (Option Instr) };

    ghost view = { λ d. d.instrs.items };
}

impl DecodedCode {
    /// Decodes the program's code words.
    ///
    /// # Errors
    /// `Memory` if there is no room for the instructions.
    pub fn new(alloc: Global, program: &Program) -> Result<DecodedCode, Memory>
        ensures { IfOk result (IsDecoded program.now) }
    {
        let mut instrs = Vec::new(alloc);
        for word in program.code.as_slice() {
            instrs.push(decode(*word))?;
        }
        Ok(DecodedCode { instrs })
    }

    /// The instruction at a place, or None if the word there is no instruction. From the length on there is none.
    #[inline(always)]
    fn entry(&self, place: usize) -> Option<&Instr>
        ensures { option_copied result ≡ decoded_entry (slice_get self.now place) }
    {
        match self.instrs.as_slice().get(place) {
            Some(instr) => instr.as_ref(),
            None => None,
        }
    }

    /// The instruction at an address, or None if no code word is there or the word is no instruction.
    #[inline(always)]
    pub(crate) fn at(&self, pc: u32) -> Option<&Instr>
        requires { length self.now ≤ 16384 }
        ensures { option_copied result ≡ found_at self.now pc }
    {
        self.entry(code_place(pc) as usize)
    }
}

impl TaskState {
    /// The look, where the instruction at the program counter is known.
    #[inline(always)]
    fn look_known(
        &self,
        program: &Program,
        task: &TaskDecl,
        fuel: u32,
        instr: Option<&Instr>,
    ) -> Next
        requires { option_copied instr ≡ instr_at program.now self.now }
        ensures { IsNextOf program.now task.now fuel self.now result }
    {
        match instr {
            Some(instr) if self.retired != fuel => Next {
                need: instruction(program, task, self, instr),
                instr: Some(*instr),
            },
            _ => self.look(program, task, fuel),
        }
    }

    /// What the task's next instruction needs, as `next` says, from the decoded code of the program.
    #[inline(always)]
    pub fn next_in(&self, program: &Program, task: &TaskDecl, fuel: u32, code: &DecodedCode) -> Next
        requires open { self.now.end ≡ None }
        requires code { IsDecoded program.now code.now }
        ensures value { IsNextOf program.now task.now fuel self.now result }
        ensures fuel { EndsByFuel result.need ↔ (self.now.retired ≡ fuel) }
        ensures allowed { Allowed program.now task.now self.now result.need }
    {
        // for the proof alone: the read brings the program's invariant, by which it has at most 16,384 code words
        let _code = &program.code;
        self.look_known(program, task, fuel, code.at(self.pc))
    }

    /// Completes the task's next instruction by the decoded code of the program, if it needs nothing besides the task's own
    /// registers. Otherwise it does nothing. Returns whether it completed one.
    ///
    /// Such an instruction depends on no declaration, and its need needn't be asked for. The task must not have ended.
    #[inline(always)]
    pub fn compute_in(&mut self, program: &Program, fuel: u32, code: &DecodedCode) -> bool
        requires open { self.old.end ≡ None }
        requires retired { self.old.retired ≤ fuel }
        requires code { IsDecoded program.now code.now }
        ensures local { (d : ATask) → (result ≡ true) ↔ (need_of program.now d fuel self.old ≡ NeedsNothing) }
        ensures done { result ≡ true → self.new ≡ advanced program.now self.old }
        ensures counted { result ≡ true → self.new.retired ≡ self.old.retired + 1 }
        ensures left { result ≡ false → self.new ≡ self.old }
        ensures within { self.new.retired ≤ fuel }
        ensures open { self.new.end ≡ None }
    {
        // for the proof alone: the read brings the program's invariant, by which it has at most 16,384 code words
        let _code = &program.code;
        match code.at(self.pc) {
            Some(instr) if self.retired != fuel => self.compute_by(instr),
            _ => false,
        }
    }
}

/// A program with its code words decoded, for a caller that owns it and runs it instruction by instruction.
///
/// Contracts see only the program. The decoded code of every `DecodedProgram` is the program's.
#[derive(Drop)]
pub struct DecodedProgram {
    program: Program,
    code: DecodedCode,
}

impl Model for DecodedProgram {
    ghost use Rattle.region_table.specs.Program.{ProgramParts};
    ghost use Rattle.rv_core.specs.Decoded.{IsDecoded};

    ghost Value = { ProgramParts };

    ghost view = { λ d. d.program };

    ghost invariant = { λ d. IsDecoded d.program d.code };
}

impl DecodedProgram {
    /// Decodes the code words of the program.
    ///
    /// # Errors
    /// `Memory` if there is no room for the instructions; the program is dropped then.
    pub fn new(alloc: Global, program: Program) -> Result<DecodedProgram, Memory>
        ensures { IfOk result (λ decoded. decoded ≡ program) }
    {
        let code = DecodedCode::new(alloc, &program)?;
        Ok(DecodedProgram { program, code })
    }

    /// The program. Takes no memory.
    pub fn program(&self) -> &Program
        ensures { result.now ≡ self.now }
    {
        &self.program
    }

    /// Puts a program and its decoded code words together. Takes no memory.
    pub fn of_parts(program: Program, code: DecodedCode) -> DecodedProgram
        requires { IsDecoded program code }
        ensures { result ≡ program }
    {
        DecodedProgram { program, code }
    }

    /// Gives the program and its decoded code words back. Takes no memory.
    pub fn into_parts(self) -> (Program, DecodedCode)
        ensures program { result.0 ≡ self }
        ensures code { IsDecoded result.0 result.1 }
    {
        let DecodedProgram { program, code } = self;
        (program, code)
    }

    /// The same as `TaskState::next`, without decoding the word again: what the next instruction of a task needs, and the
    /// instruction. The task must not have ended, and may retire `fuel` instructions. Takes no memory.
    pub fn next(&self, state: &TaskState, task: &TaskDecl, fuel: u32) -> Next
        requires { state.now.end ≡ None }
        ensures value { IsNextOf self.now task.now fuel state.now result }
        ensures fuel { EndsByFuel result.need ↔ (state.now.retired ≡ fuel) }
        ensures allowed { Allowed self.now task.now state.now result.need }
    {
        state.next_in(&self.program, task, fuel, &self.code)
    }

    /// The instruction at a task's program counter, if there is one.
    #[inline(always)]
    fn instr(&self, state: &TaskState) -> Option<&Instr>
        ensures { option_copied result ≡ instr_at self.now state.now }
    {
        // for the proof alone: the read brings the program's invariant, by which it has at most 16,384 code words
        let _code = &self.program.code;
        self.code.at(state.pc)
    }

    /// The same as `TaskState::need`, without decoding the word again: what the next instruction of a task needs. The task must
    /// not have ended, and may retire `fuel` instructions. Takes no memory.
    // Out of line: inlined, the compiler takes the need apart in the callers, which costs several times more.
    #[inline(never)]
    pub fn need(&self, state: &TaskState, task: &TaskDecl, fuel: u32) -> Need
        requires { state.now.end ≡ None }
        ensures value { result ≡ need_of self.now task.now fuel state.now }
        ensures fuel { EndsByFuel result ↔ (state.now.retired ≡ fuel) }
        ensures allowed { Allowed self.now task.now state.now result }
    {
        match self.instr(state) {
            Some(instr) if state.retired != fuel => instruction(&self.program, task, state, instr),
            _ => state.need(&self.program, task, fuel),
        }
    }

    /// Whether the next instruction of a task needs nothing besides the task's own registers: `compute` would complete it then. The
    /// task must not have ended. Takes no memory.
    #[inline(always)]
    pub fn computes(&self, state: &TaskState, fuel: u32) -> bool
        requires { state.now.end ≡ None }
        ensures { (d : ATask) → (result ≡ true) ↔ (need_of self.now d fuel state.now ≡ NeedsNothing) }
    {
        match self.instr(state) {
            Some(instr) if state.retired != fuel => state.computes_by(instr),
            _ => false,
        }
    }

    /// Completes the next instruction of a task, if it needs nothing besides the task's own registers. Otherwise it does nothing.
    /// Returns whether it completed one. So a caller needn't ask for the need of such an instruction, nor for the task's declaration,
    /// on which such a need doesn't depend. The task must not have ended. Takes no memory.
    // Out of line, so that the callers stay short: they are inlined where each event comes.
    #[inline(never)]
    pub fn compute(&self, state: &mut TaskState, fuel: u32) -> bool
        requires open { state.old.end ≡ None }
        requires retired { state.old.retired ≤ fuel }
        ensures local { (d : ATask) → (result ≡ true) ↔ (need_of self.now d fuel state.old ≡ NeedsNothing) }
        ensures done { result ≡ true → state.new ≡ advanced self.now state.old }
        ensures left { result ≡ false → state.new ≡ state.old }
    {
        state.compute_in(&self.program, fuel, &self.code)
    }

    /// The same as `TaskState::advance`, without decoding the word again: completes the next instruction of a task. The task
    /// must not have ended, and its need must be one that `advance` completes. Takes no memory.
    #[tactic(auto, unfolding(crate::specs::Step::advanced))]
    pub fn advance(&self, state: &mut TaskState, task: &TaskDecl, fuel: u32)
        requires open { state.old.end ≡ None }
        requires retired { state.old.retired ≤ fuel }
        requires kind { IsAdvance (need_of self.now task.now fuel state.old) }
        ensures { state.new ≡ advanced self.now state.old }
    {
        // for the proof alone: the read brings the program's invariant, by which it has at most 32 locks
        let _locks = &self.program.locks;
        match self.instr(state) {
            Some(instr) => state.advance_by(*instr),
            None => {}
        }
    }

    /// The same as `TaskState::loaded`, without decoding the word again: completes a task's load of a word with this value. The
    /// task must not have ended, and its need must be a load. Takes no memory.
    #[tactic(auto, unfolding(crate::specs::Step::loaded_of))]
    pub fn loaded(&self, state: &mut TaskState, task: &TaskDecl, fuel: u32, value: u32)
        requires open { state.old.end ≡ None }
        requires retired { state.old.retired ≤ fuel }
        requires kind { IsLoad (need_of self.now task.now fuel state.old) }
        ensures { state.new ≡ loaded_of self.now value state.old }
    {
        match self.instr(state) {
            Some(instr) => state.load_by(*instr, value),
            None => {}
        }
    }

    /// The same as `TaskState::merged`, without decoding the word again: the word after a task's store, where `old` is the
    /// value before. The task must not have ended, and its need must be a store. Takes no memory.
    #[tactic(auto, unfolding(crate::specs::Step::merged_of))]
    pub fn merged(&self, state: &TaskState, task: &TaskDecl, fuel: u32, old: u32) -> u32
        requires open { state.now.end ≡ None }
        requires retired { state.now.retired ≤ fuel }
        requires kind { IsStore (need_of self.now task.now fuel state.now) }
        ensures { result ≡ merged_of self.now old state.now }
    {
        match self.instr(state) {
            Some(instr) => state.store_by(*instr, old),
            None => old,
        }
    }
}

/// Compiles only if the type may be sent to another thread and shared with it.
fn crosses<T: Send + Sync>(_value: &T) {}

/// A decoded program may be sent to another thread, and shared with it. Nobody calls this; the check of its body proves it.
pub(crate) fn decoded_crosses(decoded: &DecodedProgram) {
    crosses(decoded);
}
