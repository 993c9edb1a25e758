use rv_isa::{AluOp, Cond, Reg, Width};
use src_text::Token;

/// A statement that gives code words. A target is a number, the offset in bytes, or the name of a label.
#[derive(Clone, Copy)]
pub enum Code {
    /// LUI, or AUIPC where the program counter is added.
    Upper {
        adds_pc: bool,
        rd: Reg,
        number: i64,
    },
    Jump {
        rd: Reg,
        target: Token,
    },
    JumpRegister {
        rd: Reg,
        base: Reg,
        offset: i64,
    },
    Branch {
        cond: Cond,
        a: Reg,
        b: Reg,
        target: Token,
    },
    Load {
        width: Width,
        rd: Reg,
        base: Reg,
        offset: i64,
    },
    Store {
        width: Width,
        src: Reg,
        base: Reg,
        offset: i64,
    },
    OpImm {
        op: AluOp,
        rd: Reg,
        a: Reg,
        imm: i64,
    },
    Op {
        op: AluOp,
        rd: Reg,
        a: Reg,
        b: Reg,
    },
    Fence,
    Ecall,
    Ebreak,
    /// Two words that load a number.
    LoadNumber {
        rd: Reg,
        number: i64,
    },
    /// Two words that load the address of a region or of a label.
    LoadAddress {
        rd: Reg,
        name: Token,
    },
    /// The word itself.
    Raw {
        number: i64,
    },
}

/// Tasks of the current phase on `count` cores from `core` on: their entry, which is an address or the name of a label, the
/// argument of the first task, and by how much the argument grows from task to task.
#[derive(Clone, Copy)]
pub struct Family {
    pub core: i64,
    pub count: i64,
    pub entry: Token,
    pub arg: u32,
    pub step: u32,
}

/// Which words of a region a task uses.
#[derive(Clone, Copy)]
pub enum Extent {
    /// All words.
    Whole,
    /// Those from `lo` up to, but not including, `hi`.
    Part { lo: i64, hi: i64 },
    /// Those from `lo` up to `hi` for the family's first task; for each next task they are `step` words further.
    Stepped { lo: i64, hi: i64, step: i64 },
}

/// Words of a region that the current tasks use: they only read them, or write them too, under a lock or without one.
#[derive(Clone, Copy)]
pub struct Effect {
    pub writes: bool,
    pub lock: Option<Token>,
    pub region: Token,
    pub extent: Extent,
}

/// What a line says after its label.
#[derive(Clone, Copy)]
pub enum Statement {
    Nothing,
    Instruction(Code),
    Region {
        name: Token,
        len: i64,
    },
    /// The first value of a word of a region.
    Word {
        region: Token,
        index: i64,
        value: u32,
    },
    Lock {
        name: Token,
    },
    Phase,
    Tasks(Family),
    Uses(Effect),
}
