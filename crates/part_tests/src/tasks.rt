//! A task of a few instructions, each of which gets what it needs of a memory of one word.
use crate::texts::program;
use region_table::{Program, TaskDecl};
use rv_core::{End, Need, TaskState};
use std::test::Fail;

const TEXT: &[u8] = b".region m, 1
.lock k
.phase
.task 0, go, 0
.writes m
go: lui t0, 0x10000
 lw t1, 0(t0)
 sb t1, 1(t0)
 li a7, 1
 ecall
 li a7, 2
 ecall
 li a7, 0
 ecall
";

/// The next instruction, if the task has made fewer than 99 and goes on. What the word is then.
fn step(state: &mut TaskState, program: &Program, task: &TaskDecl, word: u32) -> u32 {
    if state.end.is_some() || state.retired > 99 {
        return word;
    }
    match state.need(program, task, 99) {
        Need::Load { .. } => state.loaded(program, task, 99, word),
        Need::Store { .. } => {
            let merged = state.merged(program, task, 99, word);
            state.advance(program, task, 99);
            return merged;
        }
        Need::Local | Need::Acquire { .. } | Need::Release { .. } => {
            state.advance(program, task, 99);
        }
        Need::End { cause } => state.stop(cause),
    }
    word
}

/// How the task's state and the word are after 16 instructions, or when it has ended.
fn run(program: &Program, task: &TaskDecl, first: u32) -> (TaskState, u32) {
    let (mut state, mut word) = (TaskState::new(task), first);
    for _step in 0..16 {
        word = step(&mut state, program, task, word);
    }
    (state, word)
}

#[test]
fn a_task_gets_what_it_needs(rt: HostRuntime) -> Result<(), Fail> {
    let program = program(rt.alloc(), TEXT)?;
    let Some(phase) = program.phases.get(0) else {
        panic!(rt; "no phase")
    };
    for task in phase.tasks.as_slice() {
        let (state, word) = run(&program, task, 0x1122_3344);
        assert_eq!(rt; (state.end, state.retired), (Some(End::Finished), 12));
        assert_eq!(rt; (state.regs[6], word), (0x1122_3344, 0x1122_4444));
    }
    Ok(())
}
