//! The code of a mnemonic and its operands. An operand is named by the index of its token: between two operands there is a
//! comma or a parenthesis.
ghost use Rattle.std.specs.Prelude.{◌≡◌, pos};
ghost use Rattle.rv_isa.specs.declared.instr.AluOp.TheVariants.{Add};
ghost use Rattle.rv_assembler.specs.declared.statement.Code.TheVariants.{Upper, Jump, JumpRegister, Branch, Load, Store, OpImm, Op, LoadNumber, LoadAddress};
ghost use Rattle.rv_assembler.specs.Operand.{register_at, number_at, token_at};
ghost use Rattle.rv_assembler.specs.Reading.{code_for};

use crate::kind::Mnemonic;
use crate::operand::{number_at, register_at, register_numbered, token_at};
use crate::statement::Code;
use rv_isa::{AluOp, Cond, Reg, Width};
use src_text::Token;

/// `rd, number`: LUI, or AUIPC where the program counter is added.
fn upper(text: &[u8], operands: &[Token], adds_pc: bool) -> Code
    ensures { result ≡ Upper adds_pc (register_at text.now operands.now 0) (number_at operands.now 2) }
{
    Code::Upper {
        adds_pc,
        rd: register_at(text, operands, 0),
        number: number_at(operands, 2),
    }
}

/// A jump to a target.
fn jump(rd: Reg, target: Token) -> Code
    ensures { result ≡ Jump rd target }
{
    Code::Jump { rd, target }
}

/// A jump to a register and an offset.
fn jump_register(rd: Reg, base: Reg, offset: i64) -> Code
    ensures { result ≡ JumpRegister rd base offset }
{
    Code::JumpRegister { rd, base, offset }
}

/// `rd, offset(base)`: a jump.
fn jump_at(text: &[u8], operands: &[Token]) -> Code
    ensures { result ≡ JumpRegister (register_at text.now operands.now 0) (register_at text.now operands.now 4) (number_at operands.now 2) }
{
    let rd = register_at(text, operands, 0);
    let base = register_at(text, operands, 4);
    jump_register(rd, base, number_at(operands, 2))
}

/// `a, b, target`: a branch.
fn branch(text: &[u8], operands: &[Token], cond: Cond) -> Code
    ensures { result ≡ Branch cond (register_at text.now operands.now 0) (register_at text.now operands.now 2) (token_at operands.now 4) }
{
    Code::Branch {
        cond,
        a: register_at(text, operands, 0),
        b: register_at(text, operands, 2),
        target: token_at(operands, 4),
    }
}

/// `a, target`: a branch by a register and x0.
fn branch_zero(text: &[u8], operands: &[Token], cond: Cond) -> Code
    ensures { result ≡ Branch cond (register_at text.now operands.now 0) 0 (token_at operands.now 2) }
{
    Code::Branch {
        cond,
        a: register_at(text, operands, 0),
        b: register_numbered(0),
        target: token_at(operands, 2),
    }
}

/// `rd, offset(base)`: a load.
fn load(text: &[u8], operands: &[Token], width: Width) -> Code
    ensures { result ≡ Load width (register_at text.now operands.now 0) (register_at text.now operands.now 4) (number_at operands.now 2) }
{
    Code::Load {
        width,
        rd: register_at(text, operands, 0),
        base: register_at(text, operands, 4),
        offset: number_at(operands, 2),
    }
}

/// `src, offset(base)`: a store.
fn store(text: &[u8], operands: &[Token], width: Width) -> Code
    ensures { result ≡ Store width (register_at text.now operands.now 0) (register_at text.now operands.now 4) (number_at operands.now 2) }
{
    Code::Store {
        width,
        src: register_at(text, operands, 0),
        base: register_at(text, operands, 4),
        offset: number_at(operands, 2),
    }
}

/// `rd, a`: an operation on a register and a number.
fn on_number(text: &[u8], operands: &[Token], op: AluOp, imm: i64) -> Code
    ensures { result ≡ OpImm op (register_at text.now operands.now 0) (register_at text.now operands.now 2) imm }
{
    Code::OpImm {
        op,
        rd: register_at(text, operands, 0),
        a: register_at(text, operands, 2),
        imm,
    }
}

/// `rd, a, b`: an operation on two registers.
fn on_registers(text: &[u8], operands: &[Token], op: AluOp) -> Code
    ensures { result ≡ Op op (register_at text.now operands.now 0) (register_at text.now operands.now 2) (register_at text.now operands.now 4) }
{
    Code::Op {
        op,
        rd: register_at(text, operands, 0),
        a: register_at(text, operands, 2),
        b: register_at(text, operands, 4),
    }
}

/// `rd, b`: an operation on x0 and a register.
fn on_zero(text: &[u8], operands: &[Token], op: AluOp) -> Code
    ensures { result ≡ Op op (register_at text.now operands.now 0) 0 (register_at text.now operands.now 2) }
{
    Code::Op {
        op,
        rd: register_at(text, operands, 0),
        a: register_numbered(0),
        b: register_at(text, operands, 2),
    }
}

/// The operation that changes nothing: 0 is added to x0.
fn nothing() -> Code
    ensures { result ≡ OpImm Add 0 0 (pos 0) }
{
    Code::OpImm {
        op: AluOp::Add,
        rd: register_numbered(0),
        a: register_numbered(0),
        imm: 0,
    }
}

/// `rd, number`: two words that load a number.
fn load_number(text: &[u8], operands: &[Token]) -> Code
    ensures { result ≡ LoadNumber (register_at text.now operands.now 0) (number_at operands.now 2) }
{
    Code::LoadNumber {
        rd: register_at(text, operands, 0),
        number: number_at(operands, 2),
    }
}

/// `rd, name`: two words that load an address.
fn load_address(text: &[u8], operands: &[Token]) -> Code
    ensures { result ≡ LoadAddress (register_at text.now operands.now 0) (token_at operands.now 2) }
{
    Code::LoadAddress {
        rd: register_at(text, operands, 0),
        name: token_at(operands, 2),
    }
}

/// The code of a mnemonic and its operands.
pub(crate) fn code_for(text: &[u8], operands: &[Token], mnemonic: Mnemonic) -> Code
    ensures { result ≡ code_for text.now operands.now mnemonic }
{
    match mnemonic {
        Mnemonic::Lui => upper(text, operands, false),
        Mnemonic::Auipc => upper(text, operands, true),
        Mnemonic::Jal => jump(register_at(text, operands, 0), token_at(operands, 2)),
        Mnemonic::Jalr => jump_at(text, operands),
        Mnemonic::Branch(cond) => branch(text, operands, cond),
        Mnemonic::Load(width) => load(text, operands, width),
        Mnemonic::Store(width) => store(text, operands, width),
        Mnemonic::OpImm(op) => on_number(text, operands, op, number_at(operands, 4)),
        Mnemonic::Op(op) => on_registers(text, operands, op),
        Mnemonic::Fence => Code::Fence,
        Mnemonic::Ecall => Code::Ecall,
        Mnemonic::Ebreak => Code::Ebreak,
        Mnemonic::Nop => nothing(),
        Mnemonic::Mv => on_number(text, operands, AluOp::Add, 0),
        Mnemonic::Not => on_number(text, operands, AluOp::Xor, -1),
        Mnemonic::Neg => on_zero(text, operands, AluOp::Sub),
        Mnemonic::Seqz => on_number(text, operands, AluOp::Sltu, 1),
        Mnemonic::Snez => on_zero(text, operands, AluOp::Sltu),
        Mnemonic::BranchZero(cond) => branch_zero(text, operands, cond),
        Mnemonic::J => jump(register_numbered(0), token_at(operands, 0)),
        Mnemonic::Jr => jump_register(register_numbered(0), register_at(text, operands, 0), 0),
        Mnemonic::Ret => jump_register(register_numbered(0), register_numbered(1), 0),
        Mnemonic::Li => load_number(text, operands),
        Mnemonic::La => load_address(text, operands),
        Mnemonic::Raw => Code::Raw {
            number: number_at(operands, 0),
        },
    }
}
