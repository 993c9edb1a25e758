use std::test::Fail;
use work_gen::work;

/// The text of the smallest work, written down from the description of the format.
const SMALLEST: &str = ".region a, 64
.region b, 64
.phase
.task 0, init, 0
.writes a, 0, 16
.task 1, init, 16
.writes a, 16, 32
.task 2, init, 32
.writes a, 32, 48
.task 3, init, 48
.writes a, 48, 64
.phase
.task 0, first, 0
.reads a
.writes b, 0, 16
.task 1, first, 16
.reads a
.writes b, 16, 32
.task 2, first, 32
.reads a
.writes b, 32, 48
.task 3, first, 48
.reads a
.writes b, 48, 64
.phase
.task 0, second, 0
.reads b
.writes a, 0, 16
.task 1, second, 16
.reads b
.writes a, 16, 32
.task 2, second, 32
.reads b
.writes a, 32, 48
.task 3, second, 48
.reads b
.writes a, 48, 64
init:
la t0, a
slli t1, a0, 2
add t0, t0, t1
li t2, 16
slli t3, a0, 1
add t3, t3, a0
addi t3, t3, 1
i1:
sw t3, 0(t0)
addi t3, t3, 3
addi t0, t0, 4
addi t2, t2, -1
bnez t2, i1
li a7, 0
ecall
first:
la s0, a
la s1, b
j body
second:
la s0, b
la s1, a
body:
li t2, 16
li t4, 64
mv t1, a0
b1:
slli t5, t1, 2
add t6, s0, t5
lw a1, 0(t6)
addi t3, t1, 1
bne t3, t4, b2
mv t3, zero
b2:
slli a2, t3, 2
add a2, s0, a2
lw a3, 0(a2)
add a1, a1, a3
add t6, s1, t5
sw a1, 0(t6)
addi t1, t1, 1
addi t2, t2, -1
bnez t2, b1
li a7, 0
ecall
";

#[test]
fn the_smallest_work(rt: HostRuntime) -> Result<(), Fail> {
    let text = work(rt.alloc(), 1)?;
    assert_eq!(rt; text.as_slice(), SMALLEST.as_bytes());
    Ok(())
}
