//! The instructions of RV32I: their names, their encodings, and what they compute.
//!
//! The source is the RISC-V unprivileged manual, chapters "RV32I Base Integer Instruction Set" and "RV32/64G Instruction Set
//! Listings". An instruction is a value of `Instr`. `encode` gives its word of 32 bits, and `decode` reads a word. `alu` is the
//! arithmetic on two register values, and `taken` the test of a branch.
#![tactic(auto)]

mod decoding;
mod encoding;
mod fields;
mod instr;
mod meaning;
mod ranges;
mod reg;

pub use decoding::decode;
pub use encoding::{encode, encoding_is_unique};
pub use instr::{AluOp, Cond, Instr, Width};
pub use meaning::{alu, taken};
pub use ranges::fits;
pub use reg::Reg;
