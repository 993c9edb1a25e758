//! The code of the tasks.
ghost use Rattle.std.specs.Prelude.{◌≡◌, ◌++◌, OnOk};
ghost use Rattle.work_gen.specs.Work.{number_line, filling_start, filling_loop, filling_code, starting_code, adding_loop, adding_code};

use crate::pieces::push;
use dn_base::Memory;

/// A task that fills its part begins with the address of the part's first word in t0.
const FILLING_START: &str = "init:
la t0, a
slli t1, a0, 2
add t0, t0, t1
";

/// It has the number of words to fill in t2, and the value of the next in t3.
const FILLING_LOOP: &str = "slli t3, a0, 1
add t3, t3, a0
addi t3, t3, 1
i1:
sw t3, 0(t0)
addi t3, t3, 3
addi t0, t0, 4
addi t2, t2, -1
bnez t2, i1
li a7, 0
ecall
";

/// Where the tasks of the second and the third phase begin.
const STARTING: &str = "first:
la s0, a
la s1, b
j body
second:
la s0, b
la s1, a
";

/// A task that adds has the number of words to make in t2, the length of a region in t4, and the word to make in t1.
const ADDING_LOOP: &str = "mv t1, a0
b1:
slli t5, t1, 2
add t6, s0, t5
lw a1, 0(t6)
addi t3, t1, 1
bne t3, t4, b2
mv t3, zero
b2:
slli a2, t3, 2
add a2, s0, a2
lw a3, 0(a2)
add a1, a1, a3
add t6, s1, t5
sw a1, 0(t6)
addi t1, t1, 1
addi t2, t2, -1
bnez t2, b1
li a7, 0
ecall
";

/// Adds the line that puts a number into a register.
#[tactic(auto, unfolding(crate::specs::Work::number_line))]
fn push_number(out: &mut Vec<u8>, register: &str, number: u32) -> Result<(), Memory>
    ensures { OnOk result (out.new.items ≡ out.old.items ++ number_line register.now number) }
{
    let line = format!(in *out.allocator(); "li {register}, {number}\n")?;
    push(out, line.as_str())
}

#[tactic(auto, unfolding(crate::specs::Work::filling_start))]
fn push_filling_start(out: &mut Vec<u8>) -> Result<(), Memory>
    ensures { OnOk result (out.new.items ≡ out.old.items ++ filling_start) }
{
    push(out, FILLING_START)
}

#[tactic(auto, unfolding(crate::specs::Work::filling_loop))]
fn push_filling_loop(out: &mut Vec<u8>) -> Result<(), Memory>
    ensures { OnOk result (out.new.items ≡ out.old.items ++ filling_loop) }
{
    push(out, FILLING_LOOP)
}

#[tactic(auto, unfolding(crate::specs::Work::adding_loop))]
fn push_adding_loop(out: &mut Vec<u8>) -> Result<(), Memory>
    ensures { OnOk result (out.new.items ≡ out.old.items ++ adding_loop) }
{
    push(out, ADDING_LOOP)
}

/// Adds the code of the tasks that fill a.
#[tactic(auto, unfolding(crate::specs::Work::filling_code))]
pub(crate) fn push_filling(out: &mut Vec<u8>, part: u32) -> Result<(), Memory>
    ensures { OnOk result (out.new.items ≡ out.old.items ++ filling_code part) }
{
    push_filling_start(out)?;
    push_number(out, "t2", part)?;
    push_filling_loop(out)
}

/// Adds where the tasks of the second and the third phase begin.
#[tactic(auto, unfolding(crate::specs::Work::starting_code))]
pub(crate) fn push_starting(out: &mut Vec<u8>) -> Result<(), Memory>
    ensures { OnOk result (out.new.items ≡ out.old.items ++ starting_code) }
{
    push(out, STARTING)
}

/// Adds the code that makes each word of a part the sum of two neighbours.
#[tactic(auto, unfolding(crate::specs::Work::adding_code))]
pub(crate) fn push_adding(out: &mut Vec<u8>, part: u32, words: u32) -> Result<(), Memory>
    ensures { OnOk result (out.new.items ≡ out.old.items ++ adding_code part words) }
{
    push(out, "body:\n")?;
    push_number(out, "t2", part)?;
    push_number(out, "t4", words)?;
    push_adding_loop(out)
}
