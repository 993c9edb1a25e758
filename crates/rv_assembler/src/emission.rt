//! The code words of a statement.
ghost use Rattle.std.specs.Prelude.{◌≡◌, ◌+◌, ◌*◌, ◌%◌, ◌^◌, ◌<◌, ◌≤◌, pos, Some, None, Option, IsTrue};
ghost use Rattle.rv_isa.specs.Range.{IsEncodable, IsSigned};
ghost use Rattle.rv_isa.specs.Table.{is_stored};
ghost use Rattle.rv_assembler.specs.Lookup.{name_lookup};
ghost use Rattle.rv_assembler.specs.Number.{is_upper, is_jump, is_branch, is_immediate, is_operand};
ghost use Rattle.rv_assembler.specs.Operand.{bytes_of};
ghost use Rattle.rv_assembler.specs.Emission.{one_if, upper, jump, branch, store, high, low, loaded, region_address, label_address, distance, offset_of, loaded_address, emission};
ghost use Rattle.rv_assembler.specs.AddedLine.{emission_at};
ghost use Rattle.rv_isa.specs.declared.instr.Instr.TheVariants.{Lui, Auipc, Jal, Jalr, Branch, Load, Store, OpImm, Op};

use crate::names::{Meaning, Names};
use crate::number::{is_branch, is_immediate, is_jump, is_operand, is_upper, wrap};
use crate::operand::bytes;
use crate::statement::{Code, Statement};
use region_table::{FIRST_CODE_ADDRESS, FIRST_DATA_ADDRESS};
use rv_isa::{AluOp, Cond, Instr, Reg, Width, encode};
use src_text::{Token, TokenKind};

/// The code words of a statement, or why it has none.
#[derive(Clone, Copy)]
pub enum Emission {
    One(u32),
    Two(u32, u32),
    /// A number is outside the range of its row.
    OutOfRange,
    /// A name isn't declared as what is wanted.
    Unknown,
}

fn upper(adds_pc: bool, rd: Reg, number: i64) -> Emission
    ensures { result ≡ upper adds_pc rd number }
{
    if !is_upper(number) {
        return Emission::OutOfRange;
    }
    let imm = wrap(number);
    if adds_pc {
        Emission::One(encode(&Instr::Auipc { rd, imm }))
    } else {
        Emission::One(encode(&Instr::Lui { rd, imm }))
    }
}

fn jump_register(rd: Reg, base: Reg, offset: i64) -> Emission
    ensures { result ≡ one_if (is_immediate offset) (Jalr rd base offset) }
{
    if is_immediate(offset) {
        Emission::One(encode(&Instr::Jalr {
            rd,
            base,
            offset: offset as i32,
        }))
    } else {
        Emission::OutOfRange
    }
}

fn load(width: Width, rd: Reg, base: Reg, offset: i64) -> Emission
    ensures { result ≡ one_if (is_immediate offset) (Load width rd base offset) }
{
    if is_immediate(offset) {
        Emission::One(encode(&Instr::Load {
            width,
            rd,
            base,
            offset: offset as i32,
        }))
    } else {
        Emission::OutOfRange
    }
}

fn is_stored(width: Width) -> bool
    ensures { result ≡ is_stored width }
{
    match width {
        Width::B | Width::H | Width::W => true,
        Width::Bu | Width::Hu => false,
    }
}

fn store(width: Width, src: Reg, base: Reg, offset: i64) -> Emission
    ensures { result ≡ store width src base offset }
{
    if is_stored(width) && is_immediate(offset) {
        Emission::One(encode(&Instr::Store {
            width,
            src,
            base,
            offset: offset as i32,
        }))
    } else {
        Emission::OutOfRange
    }
}

fn immediate(op: AluOp, rd: Reg, a: Reg, imm: i64) -> Emission
    ensures { result ≡ one_if (is_operand op imm) (OpImm op rd a imm) }
{
    if is_operand(op, imm) {
        Emission::One(encode(&Instr::OpImm {
            op,
            rd,
            a,
            imm: imm as i32,
        }))
    } else {
        Emission::OutOfRange
    }
}

fn jump(rd: Reg, offset: i64) -> Emission
    ensures { result ≡ one_if (is_jump offset) (Jal rd offset) }
{
    if is_jump(offset) {
        Emission::One(encode(&Instr::Jal {
            rd,
            offset: offset as i32,
        }))
    } else {
        Emission::OutOfRange
    }
}

fn branch(cond: Cond, a: Reg, b: Reg, offset: i64) -> Emission
    ensures { result ≡ one_if (is_branch offset) (Branch cond a b offset) }
{
    if is_branch(offset) {
        Emission::One(encode(&Instr::Branch {
            cond,
            a,
            b,
            offset: offset as i32,
        }))
    } else {
        Emission::OutOfRange
    }
}

/// The number for LUI: the upper twenty bits of the value, plus one if the low twelve bits are negative as a signed number.
fn high(value: u32) -> u32
    ensures value { result ≡ high value }
    ensures fits { result < 2 ^ 20 }
{
    value.wrapping_add(2048) / 4096
}

/// The low twelve bits of a value, as a signed number.
fn low(value: u32) -> i32
    ensures value { result ≡ low value }
    ensures fits { IsSigned 12 result }
{
    let bits = (value % 4096) as i32;
    if bits < 2048 { bits } else { bits - 4096 }
}

/// Two words that load a value: LUI, and ADDI, which adds the low bits as a signed number.
fn load_value(rd: Reg, value: u32) -> Emission
    ensures { result ≡ loaded rd value }
{
    let first = Instr::Lui {
        rd,
        imm: high(value),
    };
    let second = Instr::OpImm {
        op: AluOp::Add,
        rd,
        a: rd,
        imm: low(value),
    };
    Emission::Two(encode(&first), encode(&second))
}

/// The address of the code word of this number, modulo 2^32.
pub(crate) fn label_address(place: u32) -> u32
    ensures { result ≡ label_address place % 2 ^ 32 }
{
    place.wrapping_mul(4).wrapping_add(FIRST_CODE_ADDRESS)
}

/// The address of the data word of this number, modulo 2^32.
fn region_address(word: u32) -> u32
    ensures { result ≡ region_address word % 2 ^ 32 }
{
    word.wrapping_mul(4).wrapping_add(FIRST_DATA_ADDRESS)
}

/// The distance of a code word from the one with the number `here`, in bytes.
fn distance(here: u32, place: u32) -> i64
    ensures { result ≡ distance here place }
{
    (i64::from(place) - i64::from(here)) * 4
}

/// The distance of a target from the code word number `here`, in bytes; None if it is no label.
fn offset<'a>(text: &'a [u8], names: &Names<'a>, here: u32, target: Token) -> Option<i64>
    ensures { result ≡ offset_of text.now (name_lookup names.now) here target }
{
    if let TokenKind::Number(number) = target.kind {
        return Some(number);
    }
    match names.meaning(bytes(text, target)) {
        Some(Meaning::Label { place, .. }) => Some(distance(here, place)),
        _ => None,
    }
}

/// The words that load the address of a name.
fn loaded_address<'a>(text: &'a [u8], names: &Names<'a>, rd: Reg, name: Token) -> Emission
    ensures { result ≡ loaded_address rd (name_lookup names.now (bytes_of text.now name)) }
{
    match names.meaning(bytes(text, name)) {
        Some(Meaning::Label { place, .. }) => load_value(rd, label_address(place)),
        Some(Meaning::Region { start, .. }) => load_value(rd, region_address(start)),
        _ => Emission::Unknown,
    }
}

/// The code words of a statement whose first code word has the number `here`.
fn emit<'a>(text: &'a [u8], names: &Names<'a>, here: u32, code: Code) -> Emission
    ensures { result ≡ emission text.now (name_lookup names.now) here code }
{
    match code {
        Code::Upper {
            adds_pc,
            rd,
            number,
        } => upper(adds_pc, rd, number),
        Code::Jump { rd, target } => match offset(text, names, here, target) {
            Some(offset) => jump(rd, offset),
            None => Emission::Unknown,
        },
        Code::JumpRegister { rd, base, offset } => jump_register(rd, base, offset),
        Code::Branch { cond, a, b, target } => match offset(text, names, here, target) {
            Some(offset) => branch(cond, a, b, offset),
            None => Emission::Unknown,
        },
        Code::Load {
            width,
            rd,
            base,
            offset,
        } => load(width, rd, base, offset),
        Code::Store {
            width,
            src,
            base,
            offset,
        } => store(width, src, base, offset),
        Code::OpImm { op, rd, a, imm } => immediate(op, rd, a, imm),
        Code::Op { op, rd, a, b } => Emission::One(encode(&Instr::Op { op, rd, a, b })),
        Code::Fence => Emission::One(encode(&Instr::Fence)),
        Code::Ecall => Emission::One(encode(&Instr::Ecall)),
        Code::Ebreak => Emission::One(encode(&Instr::Ebreak)),
        Code::LoadNumber { rd, number } => load_value(rd, wrap(number)),
        Code::LoadAddress { rd, name } => loaded_address(text, names, rd, name),
        Code::Raw { number } => Emission::One(wrap(number)),
    }
}

/// The code words of a statement whose first code word has the number `here`; None if it is no instruction.
pub(crate) fn emission_at<'a>(
    text: &'a [u8],
    names: &Names<'a>,
    here: u32,
    statement: &Statement,
) -> Option<Emission>
    ensures { result ≡ emission_at text.now (name_lookup names.now) here statement.now }
{
    match *statement {
        Statement::Instruction(code) => Some(emit(text, names, here, code)),
        _ => None,
    }
}
