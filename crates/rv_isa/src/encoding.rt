//! From instructions to words.
ghost use Rattle.std.specs.Prelude.{◌≡◌, ◌*◌, ◌+◌, ◌^◌, ◌<◌, if◌then◌else◌};
ghost use Rattle.rv_isa.specs.Word.{bits, pattern};
ghost use Rattle.rv_isa.specs.Range.{IsEncodable, HasRegisters};
ghost use Rattle.rv_isa.specs.Row.{IsWordOf};
ghost use Rattle.rv_isa.specs.Table.{branch_funct3, width_funct3, alu_funct3, alu_funct7, is_shift};
ghost use Rattle.rv_isa.specs.Encoding.{word, word_i, word_s, word_b, word_u, word_j, encoded, decoded};
ghost use Rattle.rv_isa.specs.declared.instr.Instr.{Instr};

use crate::fields::bits;
use crate::instr::{AluOp, Cond, Instr, Width};
use crate::reg::Reg;

/// The word of an instruction that fits.
///
/// FENCE has the one word 0x0ff0000f, which orders all accesses.
pub fn encode(instr: &Instr) -> u32
    requires { IsEncodable instr.now }
    ensures value { result ≡ encoded instr.now }
    ensures row { IsWordOf instr.now result }

    // decoding the word gives the instruction again
    ensures again { decoded result ≡ Some instr.now }
{
    word_of(instr)
}

/// Two instructions that fit have the same word only if they are equal.
pub fn encoding_is_unique()
    ensures { (i j : Instr) → HasRegisters i → IsEncodable i → HasRegisters j → IsEncodable j
        → encoded i ≡ encoded j → i ≡ j }
{}

#[tactic(auto, unfolding(crate::specs::Encoding::encoded))]
fn word_of(instr: &Instr) -> u32
    ensures value { result ≡ encoded instr.now }
    ensures registers { HasRegisters instr.now }
{
    match *instr {
        Instr::Lui { rd, imm } => u_word(0b0110111, rd, imm),
        Instr::Auipc { rd, imm } => u_word(0b0010111, rd, imm),
        Instr::Jal { rd, offset } => j_word(0b1101111, rd, offset),
        Instr::Jalr { rd, base, offset } => i_word(0b1100111, rd, 0b000, base, offset),
        Instr::Branch { cond, a, b, offset } => b_word(
            0b1100011,
            branch_funct3(cond),
            a,
            b,
            offset,
        ),
        Instr::Load {
            width,
            rd,
            base,
            offset,
        } => i_word(0b0000011, rd, width_funct3(width), base, offset),
        Instr::Store {
            width,
            src,
            base,
            offset,
        } => s_word(0b0100011, width_funct3(width), base, src, offset),
        Instr::OpImm { op, rd, a, imm } => immediate_word(op, rd, a, imm),
        Instr::Op { op, rd, a, b } => register_word(op, rd, a, b),
        Instr::Fence => 0x0ff0_000f,
        Instr::Ecall => 0x0000_0073,
        Instr::Ebreak => 0x0010_0073,
    }
}

fn branch_funct3(cond: Cond) -> u32
    ensures value { result ≡ branch_funct3 cond }
    ensures below { result < 8 }
{
    match cond {
        Cond::Eq => 0b000,
        Cond::Ne => 0b001,
        Cond::Lt => 0b100,
        Cond::Ge => 0b101,
        Cond::Ltu => 0b110,
        Cond::Geu => 0b111,
    }
}

fn width_funct3(width: Width) -> u32
    ensures value { result ≡ width_funct3 width }
    ensures below { result < 8 }
{
    match width {
        Width::B => 0b000,
        Width::H => 0b001,
        Width::W => 0b010,
        Width::Bu => 0b100,
        Width::Hu => 0b101,
    }
}

fn alu_funct3(op: AluOp) -> u32
    ensures value { result ≡ alu_funct3 op }
    ensures below { result < 8 }
{
    match op {
        AluOp::Add | AluOp::Sub => 0b000,
        AluOp::Sll => 0b001,
        AluOp::Slt => 0b010,
        AluOp::Sltu => 0b011,
        AluOp::Xor => 0b100,
        AluOp::Srl | AluOp::Sra => 0b101,
        AluOp::Or => 0b110,
        AluOp::And => 0b111,
    }
}

fn alu_funct7(op: AluOp) -> u32
    ensures value { result ≡ alu_funct7 op }
    ensures below { result < 128 }
{
    match op {
        AluOp::Sub | AluOp::Sra => 0b0100000,
        _ => 0b0000000,
    }
}

fn is_shift(op: AluOp) -> bool
    ensures { result ≡ is_shift op }
{
    match op {
        AluOp::Sll | AluOp::Srl | AluOp::Sra => true,
        _ => false,
    }
}

/// The word of the six fields of the R format.
#[tactic(auto, unfolding(crate::specs::Encoding::word))]
fn join(opcode: u32, rd: u32, funct3: u32, rs1: u32, rs2: u32, funct7: u32) -> u32
    requires opcode { opcode < 2 ^ 7 }
    requires rd { rd < 2 ^ 5 }
    requires funct3 { funct3 < 2 ^ 3 }
    requires rs1 { rs1 < 2 ^ 5 }
    requires rs2 { rs2 < 2 ^ 5 }
    requires funct7 { funct7 < 2 ^ 7 }
    ensures { result ≡ word opcode rd funct3 rs1 rs2 funct7 }
{
    opcode + (rd << 7) + (funct3 << 12) + (rs1 << 15) + (rs2 << 20) + (funct7 << 25)
}

fn i_word(opcode: u32, rd: Reg, funct3: u32, rs1: Reg, imm: i32) -> u32
    requires opcode { opcode < 2 ^ 7 }
    requires funct3 { funct3 < 2 ^ 3 }
    ensures value { result ≡ word_i opcode rd funct3 rs1 (pattern imm) }
    ensures registers { (rd < 32) × (rs1 < 32) }
{
    let imm = imm.cast_unsigned();
    join(
        opcode,
        number(rd),
        funct3,
        number(rs1),
        bits(imm, 0, 5),
        bits(imm, 5, 7),
    )
}

fn s_word(opcode: u32, funct3: u32, rs1: Reg, rs2: Reg, imm: i32) -> u32
    requires opcode { opcode < 2 ^ 7 }
    requires funct3 { funct3 < 2 ^ 3 }
    ensures value { result ≡ word_s opcode funct3 rs1 rs2 (pattern imm) }
    ensures registers { (rs1 < 32) × (rs2 < 32) }
{
    let imm = imm.cast_unsigned();
    join(
        opcode,
        bits(imm, 0, 5),
        funct3,
        number(rs1),
        number(rs2),
        bits(imm, 5, 7),
    )
}

fn b_word(opcode: u32, funct3: u32, rs1: Reg, rs2: Reg, imm: i32) -> u32
    requires opcode { opcode < 2 ^ 7 }
    requires funct3 { funct3 < 2 ^ 3 }
    ensures value { result ≡ word_b opcode funct3 rs1 rs2 (pattern imm) }
    ensures registers { (rs1 < 32) × (rs2 < 32) }
{
    let imm = imm.cast_unsigned();
    let low = (bits(imm, 1, 4) << 1) + bits(imm, 11, 1);
    let high = (bits(imm, 12, 1) << 6) + bits(imm, 5, 6);
    join(opcode, low, funct3, number(rs1), number(rs2), high)
}

fn u_word(opcode: u32, rd: Reg, imm: u32) -> u32
    requires opcode { opcode < 2 ^ 7 }
    ensures value { result ≡ word_u opcode rd imm }
    ensures registers { rd < 32 }
{
    join(
        opcode,
        number(rd),
        bits(imm, 0, 3),
        bits(imm, 3, 5),
        bits(imm, 8, 5),
        bits(imm, 13, 7),
    )
}

fn j_word(opcode: u32, rd: Reg, imm: i32) -> u32
    requires opcode { opcode < 2 ^ 7 }
    ensures value { result ≡ word_j opcode rd (pattern imm) }
    ensures registers { rd < 32 }
{
    let imm = imm.cast_unsigned();
    let low = (bits(imm, 1, 4) << 1) + bits(imm, 11, 1);
    let high = (bits(imm, 20, 1) << 6) + bits(imm, 5, 6);
    join(
        opcode,
        number(rd),
        bits(imm, 12, 3),
        bits(imm, 15, 5),
        low,
        high,
    )
}

#[tactic(auto, unfolding(crate::specs::Encoding::encoded))]
fn immediate_word(op: AluOp, rd: Reg, a: Reg, imm: i32) -> u32
    ensures value { result ≡ encoded (Instr.OpImm op rd a imm) }
    ensures registers { (rd < 32) × (a < 32) }
{
    if is_shift(op) {
        let amount = bits(imm.cast_unsigned(), 0, 5);
        join(
            0b0010011,
            number(rd),
            alu_funct3(op),
            number(a),
            amount,
            alu_funct7(op),
        )
    } else {
        i_word(0b0010011, rd, alu_funct3(op), a, imm)
    }
}

#[tactic(auto, unfolding(crate::specs::Encoding::encoded))]
fn register_word(op: AluOp, rd: Reg, a: Reg, b: Reg) -> u32
    ensures value { result ≡ encoded (Instr.Op op rd a b) }
    ensures registers { (rd < 32) × (a < 32) × (b < 32) }
{
    join(
        0b0110011,
        number(rd),
        alu_funct3(op),
        number(a),
        number(b),
        alu_funct7(op),
    )
}

fn number(reg: Reg) -> u32
    ensures value { result ≡ reg }
    ensures below { result < 2 ^ 5 }
{
    u32::from(reg.number())
}
