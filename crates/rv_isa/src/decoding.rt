//! From words to instructions.
ghost use Rattle.std.specs.Prelude.{◌≡◌, ◌↔◌, ◌⊎◌, IfSome, ◌==◌, if◌then◌else◌};
ghost use Rattle.rv_isa.specs.Row.{opcode, IsWordOf};
ghost use Rattle.rv_isa.specs.Table.{cond_of, load_width, store_width, op_of, op_imm_of};
ghost use Rattle.rv_isa.specs.Encoding.{decoded, encoded, operation_imm};
ghost use Rattle.rv_isa.specs.Range.{IsEncodable, HasRegisters};
ghost use Rattle.rv_isa.specs.declared.instr.Instr.{Instr};
ghost use Rattle.rv_isa.specs.declared.instr.Instr.TheVariants.{Fence};

use crate::fields::{
    amount, b_immediate, funct3, funct7, i_immediate, j_immediate, opcode, rd, rs1, rs2,
    s_immediate, u_immediate,
};
use crate::instr::{AluOp, Cond, Instr, Width};

/// The instruction that a word encodes, or `None` if no row of RV32I has the word.
///
/// Every word with the opcode and funct3 of FENCE is a FENCE.
pub fn decode(word: u32) -> Option<Instr>
    ensures value { result ≡ decoded word }

    // an instruction is decoded exactly if the word is in its row
    ensures row { (i : Instr) → (result ≡ Some i) ↔ IsWordOf i word }

    // a decoded instruction fits, and is encoded as this word, unless it is a FENCE
    ensures fitting { IfSome result (λ i. HasRegisters i × IsEncodable i) }
    ensures same { IfSome result (λ i. (i ≡ Fence) ⊎ (encoded i ≡ word)) }
{
    read(word)
}

#[tactic(auto, unfolding(crate::specs::Encoding::decoded))]
fn read(word: u32) -> Option<Instr>
    ensures { result ≡ decoded word }
{
    match opcode(word) {
        0b0110111 => Some(Instr::Lui {
            rd: rd(word),
            imm: u_immediate(word),
        }),
        0b0010111 => Some(Instr::Auipc {
            rd: rd(word),
            imm: u_immediate(word),
        }),
        0b1101111 => Some(Instr::Jal {
            rd: rd(word),
            offset: j_immediate(word),
        }),
        0b1100111 => jalr(word),
        0b1100011 => branch(word),
        0b0000011 => load(word),
        0b0100011 => store(word),
        0b0010011 => operation_with_immediate(word),
        0b0110011 => operation(word),
        0b0001111 => fence(word),
        _ => system(word),
    }
}

#[tactic(auto, unfolding(crate::specs::Encoding::decoded))]
fn jalr(word: u32) -> Option<Instr>
    requires { opcode word ≡ 0b1100111 }
    ensures { result ≡ decoded word }
{
    if funct3(word) != 0b000 {
        return None;
    }
    Some(Instr::Jalr {
        rd: rd(word),
        base: rs1(word),
        offset: i_immediate(word),
    })
}

fn cond_of(funct3: u32) -> Option<Cond>
    ensures { result ≡ cond_of funct3 }
{
    match funct3 {
        0b000 => Some(Cond::Eq),
        0b001 => Some(Cond::Ne),
        0b100 => Some(Cond::Lt),
        0b101 => Some(Cond::Ge),
        0b110 => Some(Cond::Ltu),
        0b111 => Some(Cond::Geu),
        _ => None,
    }
}

#[tactic(auto, unfolding(crate::specs::Encoding::decoded))]
fn branch(word: u32) -> Option<Instr>
    requires { opcode word ≡ 0b1100011 }
    ensures { result ≡ decoded word }
{
    let cond = cond_of(funct3(word))?;
    Some(Instr::Branch {
        cond,
        a: rs1(word),
        b: rs2(word),
        offset: b_immediate(word),
    })
}

fn load_width(funct3: u32) -> Option<Width>
    ensures { result ≡ load_width funct3 }
{
    match funct3 {
        0b000 => Some(Width::B),
        0b001 => Some(Width::H),
        0b010 => Some(Width::W),
        0b100 => Some(Width::Bu),
        0b101 => Some(Width::Hu),
        _ => None,
    }
}

#[tactic(auto, unfolding(crate::specs::Encoding::decoded))]
fn load(word: u32) -> Option<Instr>
    requires { opcode word ≡ 0b0000011 }
    ensures { result ≡ decoded word }
{
    let width = load_width(funct3(word))?;
    Some(Instr::Load {
        width,
        rd: rd(word),
        base: rs1(word),
        offset: i_immediate(word),
    })
}

fn store_width(funct3: u32) -> Option<Width>
    ensures { result ≡ store_width funct3 }
{
    match funct3 {
        0b000 => Some(Width::B),
        0b001 => Some(Width::H),
        0b010 => Some(Width::W),
        _ => None,
    }
}

#[tactic(auto, unfolding(crate::specs::Encoding::decoded))]
fn store(word: u32) -> Option<Instr>
    requires { opcode word ≡ 0b0100011 }
    ensures { result ≡ decoded word }
{
    let width = store_width(funct3(word))?;
    Some(Instr::Store {
        width,
        src: rs2(word),
        base: rs1(word),
        offset: s_immediate(word),
    })
}

fn immediate_op(funct3: u32, funct7: u32) -> Option<AluOp>
    ensures { result ≡ op_imm_of funct3 funct7 }
{
    match (funct3, funct7) {
        (0b000, _) => Some(AluOp::Add),
        (0b010, _) => Some(AluOp::Slt),
        (0b011, _) => Some(AluOp::Sltu),
        (0b100, _) => Some(AluOp::Xor),
        (0b110, _) => Some(AluOp::Or),
        (0b111, _) => Some(AluOp::And),
        (0b001, 0b0000000) => Some(AluOp::Sll),
        (0b101, 0b0000000) => Some(AluOp::Srl),
        (0b101, 0b0100000) => Some(AluOp::Sra),
        _ => None,
    }
}

/// The immediate of an operation: a shift has five bits of amount.
fn immediate_of(op: AluOp, word: u32) -> i32
    ensures { result ≡ operation_imm op word }
{
    match op {
        AluOp::Sll | AluOp::Srl | AluOp::Sra => amount(word),
        _ => i_immediate(word),
    }
}

#[tactic(auto, unfolding(crate::specs::Encoding::decoded))]
fn operation_with_immediate(word: u32) -> Option<Instr>
    requires { opcode word ≡ 0b0010011 }
    ensures { result ≡ decoded word }
{
    let op = immediate_op(funct3(word), funct7(word))?;
    Some(Instr::OpImm {
        op,
        rd: rd(word),
        a: rs1(word),
        imm: immediate_of(op, word),
    })
}

fn register_op(funct3: u32, funct7: u32) -> Option<AluOp>
    ensures { result ≡ op_of funct3 funct7 }
{
    match (funct3, funct7) {
        (0b000, 0b0000000) => Some(AluOp::Add),
        (0b000, 0b0100000) => Some(AluOp::Sub),
        (0b001, 0b0000000) => Some(AluOp::Sll),
        (0b010, 0b0000000) => Some(AluOp::Slt),
        (0b011, 0b0000000) => Some(AluOp::Sltu),
        (0b100, 0b0000000) => Some(AluOp::Xor),
        (0b101, 0b0000000) => Some(AluOp::Srl),
        (0b101, 0b0100000) => Some(AluOp::Sra),
        (0b110, 0b0000000) => Some(AluOp::Or),
        (0b111, 0b0000000) => Some(AluOp::And),
        _ => None,
    }
}

#[tactic(auto, unfolding(crate::specs::Encoding::decoded))]
fn operation(word: u32) -> Option<Instr>
    requires { opcode word ≡ 0b0110011 }
    ensures { result ≡ decoded word }
{
    let op = register_op(funct3(word), funct7(word))?;
    Some(Instr::Op {
        op,
        rd: rd(word),
        a: rs1(word),
        b: rs2(word),
    })
}

#[tactic(auto, unfolding(crate::specs::Encoding::decoded))]
fn fence(word: u32) -> Option<Instr>
    requires { opcode word ≡ 0b0001111 }
    ensures { result ≡ decoded word }
{
    match funct3(word) {
        0b000 => Some(Instr::Fence),
        _ => None,
    }
}

fn system(word: u32) -> Option<Instr>
    ensures { result ≡ (if word == 0x00000073 then Some Instr.Ecall
        else if word == 0x00100073 then Some Instr.Ebreak else None) }
{
    match word {
        0x0000_0073 => Some(Instr::Ecall),
        0x0010_0073 => Some(Instr::Ebreak),
        _ => None,
    }
}
