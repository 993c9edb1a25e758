//! How a code word is written.
ghost use Rattle.std.specs.Prelude.{◌≡◌, [], ◌∷◌, ◌++◌, OnOk};
ghost use Rattle.src_text.specs.Laws.{ended};
ghost use Rattle.rv_listing.specs.Statement.{register, address, statement};
ghost use Rattle.rv_listing.specs.Instruction.{branch_word, load_word, store_word, immediate_word, operation_word, instruction_line, raw_line, code_line, addressed_line};

use crate::statement::{Operand, push_statement};
use dn_base::Memory;
use rv_isa::{AluOp, Cond, Instr, Reg, Width, decode, encode};
use text_pieces::{push, push_hexadecimal};

fn branch_word(cond: Cond) -> &'static [u8]
    ensures { result.now ≡ branch_word cond }
{
    match cond {
        Cond::Eq => b"beq",
        Cond::Ne => b"bne",
        Cond::Lt => b"blt",
        Cond::Ge => b"bge",
        Cond::Ltu => b"bltu",
        Cond::Geu => b"bgeu",
    }
}

fn load_word(width: Width) -> &'static [u8]
    ensures { result.now ≡ load_word width }
{
    match width {
        Width::B => b"lb",
        Width::H => b"lh",
        Width::W => b"lw",
        Width::Bu => b"lbu",
        Width::Hu => b"lhu",
    }
}

/// No code word is a store of the last two widths.
fn store_word(width: Width) -> &'static [u8]
    ensures { result.now ≡ store_word width }
{
    match width {
        Width::B => b"sb",
        Width::H => b"sh",
        Width::W => b"sw",
        Width::Bu => b"sbu",
        Width::Hu => b"shu",
    }
}

/// No code word subtracts an immediate.
fn immediate_word(op: AluOp) -> &'static [u8]
    ensures { result.now ≡ immediate_word op }
{
    match op {
        AluOp::Add => b"addi",
        AluOp::Sub => b"subi",
        AluOp::Sll => b"slli",
        AluOp::Slt => b"slti",
        AluOp::Sltu => b"sltiu",
        AluOp::Xor => b"xori",
        AluOp::Srl => b"srli",
        AluOp::Sra => b"srai",
        AluOp::Or => b"ori",
        AluOp::And => b"andi",
    }
}

fn operation_word(op: AluOp) -> &'static [u8]
    ensures { result.now ≡ operation_word op }
{
    match op {
        AluOp::Add => b"add",
        AluOp::Sub => b"sub",
        AluOp::Sll => b"sll",
        AluOp::Slt => b"slt",
        AluOp::Sltu => b"sltu",
        AluOp::Xor => b"xor",
        AluOp::Srl => b"srl",
        AluOp::Sra => b"sra",
        AluOp::Or => b"or",
        AluOp::And => b"and",
    }
}

/// Adds an instruction that has a register and an address.
fn push_access(
    out: &mut Vec<u8>,
    word: &[u8],
    reg: Reg,
    offset: i32,
    base: Reg,
) -> Result<(), Memory>
    ensures { OnOk result (out.new.items ≡ out.old.items ++ statement word.now (register reg ∷ address offset base ∷ [])) }
{
    let operands = [Operand::Register(reg), Operand::Address(offset, base)];
    push_statement(out, word, &operands)
}

/// Adds an instruction.
#[tactic(auto, unfolding(crate::specs::Instruction::instruction_line))]
fn push_instruction(out: &mut Vec<u8>, instr: Instr) -> Result<(), Memory>
    ensures { OnOk result (out.new.items ≡ out.old.items ++ instruction_line instr) }
{
    use Operand::{Number, Offset, Register};
    match instr {
        Instr::Lui { rd, imm } => push_statement(out, b"lui", &[Register(rd), Number(imm)]),
        Instr::Auipc { rd, imm } => push_statement(out, b"auipc", &[Register(rd), Number(imm)]),
        Instr::Jal { rd, offset } => push_statement(out, b"jal", &[Register(rd), Offset(offset)]),
        Instr::Jalr { rd, base, offset } => push_access(out, b"jalr", rd, offset, base),
        Instr::Branch { cond, a, b, offset } => push_statement(
            out,
            branch_word(cond),
            &[Register(a), Register(b), Offset(offset)],
        ),
        Instr::Load {
            width,
            rd,
            base,
            offset,
        } => push_access(out, load_word(width), rd, offset, base),
        Instr::Store {
            width,
            src,
            base,
            offset,
        } => push_access(out, store_word(width), src, offset, base),
        Instr::OpImm { op, rd, a, imm } => push_statement(
            out,
            immediate_word(op),
            &[Register(rd), Register(a), Offset(imm)],
        ),
        Instr::Op { op, rd, a, b } => push_statement(
            out,
            operation_word(op),
            &[Register(rd), Register(a), Register(b)],
        ),
        Instr::Fence => push_statement(out, b"fence", &[]),
        Instr::Ecall => push_statement(out, b"ecall", &[]),
        Instr::Ebreak => push_statement(out, b"ebreak", &[]),
    }
}

/// Adds a word as a number.
fn push_raw(out: &mut Vec<u8>, word: u32) -> Result<(), Memory>
    ensures { OnOk result (out.new.items ≡ out.old.items ++ raw_line word) }
{
    push_statement(out, b".raw", &[Operand::Word(word)])
}

/// Appends a code word as the listing writes it: its instruction, as `lw x6, 0(x5)`, if that is encoded as this word, otherwise
/// the word as a number.
///
/// # Errors
/// `Memory` where there is no room.
#[tactic(auto, unfolding(crate::specs::Instruction::code_line))]
pub fn push_code_word(out: &mut Vec<u8>, word: u32) -> Result<(), Memory>
    ensures { OnOk result (out.new.items ≡ out.old.items ++ code_line word) }
{
    match decode(word) {
        None => push_raw(out, word),
        Some(instr) => {
            if encode(&instr) == word {
                push_instruction(out, instr)
            } else {
                push_raw(out, word)
            }
        }
    }
}

/// Adds the line of a code word.
pub(crate) fn push_code(out: &mut Vec<u8>, word: u32) -> Result<(), Memory>
    ensures { OnOk result (out.new.items ≡ out.old.items ++ ended (code_line word)) }
{
    push_code_word(out, word)?;
    push(out, b"\n")
}

/// Adds the line of a code word, with its address as a comment.
#[tactic(auto, unfolding(crate::specs::Instruction::addressed_line))]
pub(crate) fn push_addressed_code(out: &mut Vec<u8>, address: u32, word: u32) -> Result<(), Memory>
    ensures { OnOk result (out.new.items ≡ out.old.items ++ ended (addressed_line address word)) }
{
    push_code_word(out, word)?;
    push(out, b"  # ")?;
    push_hexadecimal(out, address)?;
    push(out, b"\n")
}
