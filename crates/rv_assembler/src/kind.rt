use rv_isa::{AluOp, Cond, Width};

/// What a token of a statement may be.
#[derive(Clone, Copy)]
pub enum Piece {
    /// The name of a register.
    Register,
    Number,
    /// A name that doesn't begin with `.`.
    Name,
    /// A number or such a name.
    Target,
    Comma,
    Left,
    Right,
}

/// The mnemonics, and the directive `.raw`.
#[derive(Clone, Copy)]
pub enum Mnemonic {
    Lui,
    Auipc,
    Jal,
    Jalr,
    Branch(Cond),
    Load(Width),
    Store(Width),
    OpImm(AluOp),
    Op(AluOp),
    Fence,
    Ecall,
    Ebreak,
    Nop,
    Mv,
    Not,
    Neg,
    Seqz,
    Snez,
    BranchZero(Cond),
    J,
    Jr,
    Ret,
    Li,
    La,
    Raw,
}

/// How the words of an effect are given.
#[derive(Clone, Copy)]
pub enum Form {
    Whole,
    Part,
    Stepped,
}

/// The other directives.
#[derive(Clone, Copy)]
pub enum Directive {
    Region,
    Word,
    Lock,
    Phase,
    Task,
    Forall,
    Uses { writes: bool, form: Form },
    Guarded { writes: bool, form: Form },
}

/// What a statement is by its first word and the shape of its operands.
#[derive(Clone, Copy)]
pub enum Kind {
    Code(Mnemonic),
    Table(Directive),
}
