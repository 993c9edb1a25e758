//! The table of statements: their words, the shapes of their operands, and the row that a statement fits.
ghost use Rattle.std.specs.Prelude.{◌≡◌, map, option_map, find, slice_index};
ghost use Rattle.rv_assembler.specs.Shape.{knows_word, kind_for, is_name, is_number, is_comma, is_left, is_right, is_plain, piece_fits, fits, shape_has_word, knows, is_row, kind_in_rows};
ghost use Rattle.rv_assembler.specs.ShapeRow.{shape_of, rows_from};

use crate::kind::Piece::{Comma, Left, Name, Number, Register, Right, Target};
use crate::kind::{Directive, Form, Kind, Mnemonic, Piece};
use crate::operand::bytes;
use rv_isa::{AluOp, Cond, Width};
use src_text::{Token, TokenKind, register};

/// A word, the pieces of its operands, what the statement is, and whether only version 2 has it.
type Row = (&'static [u8], &'static [Piece], Kind, bool);

const NONE: &[Piece] = &[];

const R: &[Piece] = &[Register];

const T: &[Piece] = &[Target];

const N: &[Piece] = &[Number];

const NAME: &[Piece] = &[Name];

const R_N: &[Piece] = &[Register, Comma, Number];

const R_T: &[Piece] = &[Register, Comma, Target];

const R_R: &[Piece] = &[Register, Comma, Register];

const R_NAME: &[Piece] = &[Register, Comma, Name];

const R_R_T: &[Piece] = &[Register, Comma, Register, Comma, Target];

const R_R_N: &[Piece] = &[Register, Comma, Register, Comma, Number];

const R_R_R: &[Piece] = &[Register, Comma, Register, Comma, Register];

const R_AT: &[Piece] = &[Register, Comma, Number, Left, Register, Right];

const NAME_N: &[Piece] = &[Name, Comma, Number];

const NAME_N_N: &[Piece] = &[Name, Comma, Number, Comma, Number];

const NAME_N_N_N: &[Piece] = &[Name, Comma, Number, Comma, Number, Comma, Number];

const NAME_NAME: &[Piece] = &[Name, Comma, Name];

const NAME_NAME_N_N: &[Piece] = &[Name, Comma, Name, Comma, Number, Comma, Number];

const NAME_NAME_N_N_N: &[Piece] = &[
    Name, Comma, Name, Comma, Number, Comma, Number, Comma, Number,
];

const N_T_N: &[Piece] = &[Number, Comma, Target, Comma, Number];

const N_N_T_N_N: &[Piece] = &[
    Number, Comma, Number, Comma, Target, Comma, Number, Comma, Number,
];

const DOT_ROWS: &[Row] = &[
    (b".raw", N, Kind::Code(Mnemonic::Raw), false),
    (b".region", NAME_N, Kind::Table(Directive::Region), false),
    (b".word", NAME_N_N, Kind::Table(Directive::Word), false),
    (b".lock", NAME, Kind::Table(Directive::Lock), false),
    (b".phase", NONE, Kind::Table(Directive::Phase), false),
    (b".task", N_T_N, Kind::Table(Directive::Task), false),
    (
        b".reads",
        NAME,
        Kind::Table(Directive::Uses {
            writes: false,
            form: Form::Whole,
        }),
        false,
    ),
    (
        b".reads",
        NAME_N_N,
        Kind::Table(Directive::Uses {
            writes: false,
            form: Form::Part,
        }),
        false,
    ),
    (
        b".writes",
        NAME,
        Kind::Table(Directive::Uses {
            writes: true,
            form: Form::Whole,
        }),
        false,
    ),
    (
        b".writes",
        NAME_N_N,
        Kind::Table(Directive::Uses {
            writes: true,
            form: Form::Part,
        }),
        false,
    ),
    (
        b".greads",
        NAME_NAME,
        Kind::Table(Directive::Guarded {
            writes: false,
            form: Form::Whole,
        }),
        false,
    ),
    (
        b".greads",
        NAME_NAME_N_N,
        Kind::Table(Directive::Guarded {
            writes: false,
            form: Form::Part,
        }),
        false,
    ),
    (
        b".gwrites",
        NAME_NAME,
        Kind::Table(Directive::Guarded {
            writes: true,
            form: Form::Whole,
        }),
        false,
    ),
    (
        b".gwrites",
        NAME_NAME_N_N,
        Kind::Table(Directive::Guarded {
            writes: true,
            form: Form::Part,
        }),
        false,
    ),
    (b".forall", N_N_T_N_N, Kind::Table(Directive::Forall), true),
    (
        b".reads",
        NAME_N_N_N,
        Kind::Table(Directive::Uses {
            writes: false,
            form: Form::Stepped,
        }),
        true,
    ),
    (
        b".writes",
        NAME_N_N_N,
        Kind::Table(Directive::Uses {
            writes: true,
            form: Form::Stepped,
        }),
        true,
    ),
    (
        b".greads",
        NAME_NAME_N_N_N,
        Kind::Table(Directive::Guarded {
            writes: false,
            form: Form::Stepped,
        }),
        true,
    ),
    (
        b".gwrites",
        NAME_NAME_N_N_N,
        Kind::Table(Directive::Guarded {
            writes: true,
            form: Form::Stepped,
        }),
        true,
    ),
];

const A_ROWS: &[Row] = &[
    (b"auipc", R_N, Kind::Code(Mnemonic::Auipc), false),
    (
        b"addi",
        R_R_N,
        Kind::Code(Mnemonic::OpImm(AluOp::Add)),
        false,
    ),
    (
        b"andi",
        R_R_N,
        Kind::Code(Mnemonic::OpImm(AluOp::And)),
        false,
    ),
    (b"add", R_R_R, Kind::Code(Mnemonic::Op(AluOp::Add)), false),
    (b"and", R_R_R, Kind::Code(Mnemonic::Op(AluOp::And)), false),
];

const B_ROWS: &[Row] = &[
    (b"beq", R_R_T, Kind::Code(Mnemonic::Branch(Cond::Eq)), false),
    (b"bne", R_R_T, Kind::Code(Mnemonic::Branch(Cond::Ne)), false),
    (b"blt", R_R_T, Kind::Code(Mnemonic::Branch(Cond::Lt)), false),
    (b"bge", R_R_T, Kind::Code(Mnemonic::Branch(Cond::Ge)), false),
    (
        b"bltu",
        R_R_T,
        Kind::Code(Mnemonic::Branch(Cond::Ltu)),
        false,
    ),
    (
        b"bgeu",
        R_R_T,
        Kind::Code(Mnemonic::Branch(Cond::Geu)),
        false,
    ),
    (
        b"beqz",
        R_T,
        Kind::Code(Mnemonic::BranchZero(Cond::Eq)),
        false,
    ),
    (
        b"bnez",
        R_T,
        Kind::Code(Mnemonic::BranchZero(Cond::Ne)),
        false,
    ),
];

const E_ROWS: &[Row] = &[
    (b"ecall", NONE, Kind::Code(Mnemonic::Ecall), false),
    (b"ebreak", NONE, Kind::Code(Mnemonic::Ebreak), false),
];

const F_ROWS: &[Row] = &[(b"fence", NONE, Kind::Code(Mnemonic::Fence), false)];

const J_ROWS: &[Row] = &[
    (b"jal", R_T, Kind::Code(Mnemonic::Jal), false),
    (b"jalr", R_AT, Kind::Code(Mnemonic::Jalr), false),
    (b"j", T, Kind::Code(Mnemonic::J), false),
    (b"jr", R, Kind::Code(Mnemonic::Jr), false),
];

const L_ROWS: &[Row] = &[
    (b"lui", R_N, Kind::Code(Mnemonic::Lui), false),
    (b"lb", R_AT, Kind::Code(Mnemonic::Load(Width::B)), false),
    (b"lh", R_AT, Kind::Code(Mnemonic::Load(Width::H)), false),
    (b"lw", R_AT, Kind::Code(Mnemonic::Load(Width::W)), false),
    (b"lbu", R_AT, Kind::Code(Mnemonic::Load(Width::Bu)), false),
    (b"lhu", R_AT, Kind::Code(Mnemonic::Load(Width::Hu)), false),
    (b"li", R_N, Kind::Code(Mnemonic::Li), false),
    (b"la", R_NAME, Kind::Code(Mnemonic::La), false),
];

const M_ROWS: &[Row] = &[(b"mv", R_R, Kind::Code(Mnemonic::Mv), false)];

const N_ROWS: &[Row] = &[
    (b"nop", NONE, Kind::Code(Mnemonic::Nop), false),
    (b"not", R_R, Kind::Code(Mnemonic::Not), false),
    (b"neg", R_R, Kind::Code(Mnemonic::Neg), false),
];

const O_ROWS: &[Row] = &[
    (b"ori", R_R_N, Kind::Code(Mnemonic::OpImm(AluOp::Or)), false),
    (b"or", R_R_R, Kind::Code(Mnemonic::Op(AluOp::Or)), false),
];

const R_ROWS: &[Row] = &[(b"ret", NONE, Kind::Code(Mnemonic::Ret), false)];

const S_ROWS: &[Row] = &[
    (b"sb", R_AT, Kind::Code(Mnemonic::Store(Width::B)), false),
    (b"sh", R_AT, Kind::Code(Mnemonic::Store(Width::H)), false),
    (b"sw", R_AT, Kind::Code(Mnemonic::Store(Width::W)), false),
    (
        b"slti",
        R_R_N,
        Kind::Code(Mnemonic::OpImm(AluOp::Slt)),
        false,
    ),
    (
        b"sltiu",
        R_R_N,
        Kind::Code(Mnemonic::OpImm(AluOp::Sltu)),
        false,
    ),
    (
        b"slli",
        R_R_N,
        Kind::Code(Mnemonic::OpImm(AluOp::Sll)),
        false,
    ),
    (
        b"srli",
        R_R_N,
        Kind::Code(Mnemonic::OpImm(AluOp::Srl)),
        false,
    ),
    (
        b"srai",
        R_R_N,
        Kind::Code(Mnemonic::OpImm(AluOp::Sra)),
        false,
    ),
    (b"sub", R_R_R, Kind::Code(Mnemonic::Op(AluOp::Sub)), false),
    (b"sll", R_R_R, Kind::Code(Mnemonic::Op(AluOp::Sll)), false),
    (b"slt", R_R_R, Kind::Code(Mnemonic::Op(AluOp::Slt)), false),
    (b"sltu", R_R_R, Kind::Code(Mnemonic::Op(AluOp::Sltu)), false),
    (b"srl", R_R_R, Kind::Code(Mnemonic::Op(AluOp::Srl)), false),
    (b"sra", R_R_R, Kind::Code(Mnemonic::Op(AluOp::Sra)), false),
    (b"seqz", R_R, Kind::Code(Mnemonic::Seqz), false),
    (b"snez", R_R, Kind::Code(Mnemonic::Snez), false),
];

const X_ROWS: &[Row] = &[
    (
        b"xori",
        R_R_N,
        Kind::Code(Mnemonic::OpImm(AluOp::Xor)),
        false,
    ),
    (b"xor", R_R_R, Kind::Code(Mnemonic::Op(AluOp::Xor)), false),
];

/// The rows whose words begin with this byte.
fn rows_from(first: u8) -> &'static [Row]
    ensures { map shape_of result.now ≡ rows_from first }
{
    match first {
        b'.' => DOT_ROWS,
        b'a' => A_ROWS,
        b'b' => B_ROWS,
        b'e' => E_ROWS,
        b'f' => F_ROWS,
        b'j' => J_ROWS,
        b'l' => L_ROWS,
        b'm' => M_ROWS,
        b'n' => N_ROWS,
        b'o' => O_ROWS,
        b'r' => R_ROWS,
        b's' => S_ROWS,
        b'x' => X_ROWS,
        _ => &[],
    }
}

/// The first byte of a word; 0 where it has none.
fn first_byte(word: &[u8]) -> u8
    ensures { result ≡ slice_index word.now 0 }
{
    word.first().copied().unwrap_or(0)
}

/// A name that may be declared: it doesn't begin with `.`.
pub(crate) fn is_plain(text: &[u8], token: Token) -> bool
    ensures { result ≡ is_plain text.now token }
{
    is_name(token) && first_byte(bytes(text, token)) != b'.'
}

pub(crate) fn is_name(token: Token) -> bool
    ensures { result ≡ is_name token.kind }
{
    matches!(token.kind, TokenKind::Name)
}

fn is_number(token: Token) -> bool
    ensures { result ≡ is_number token.kind }
{
    matches!(token.kind, TokenKind::Number(_))
}

fn piece_fits(text: &[u8], piece: Piece, token: Token) -> bool
    ensures { result ≡ piece_fits text.now piece token }
{
    match piece {
        Piece::Register => is_name(token) && register(bytes(text, token)).is_some(),
        Piece::Number => is_number(token),
        Piece::Name => is_plain(text, token),
        Piece::Target => is_number(token) || is_plain(text, token),
        Piece::Comma => matches!(token.kind, TokenKind::Comma),
        Piece::Left => matches!(token.kind, TokenKind::Left),
        Piece::Right => matches!(token.kind, TokenKind::Right),
    }
}

/// Whether there is one token for each piece.
fn fits(text: &[u8], pieces: &[Piece], tokens: &[Token]) -> bool
    ensures { result ≡ fits text.now pieces.now tokens.now }
{
    match pieces {
        [] => match tokens {
            [] => true,
            [_, ..] => false,
        },
        [piece, more_pieces @ ..] => match tokens {
            [] => false,
            [token, more_tokens @ ..] => piece_fits(text, *piece, *token)
                && fits(text, more_pieces, more_tokens),
        },
    }
}

/// Whether the row is one of this version, and has this word.
fn has_word(version_2: bool, word: &[u8], row: &Row) -> bool
    ensures { result ≡ shape_has_word version_2 word.now (shape_of row.now) }
{
    row.0 == word && (version_2 || !row.3)
}

/// Whether some row has the word.
fn knows_in(version_2: bool, word: &[u8], rows: &[Row]) -> bool
    ensures { result ≡ knows version_2 word.now (map shape_of rows.now) }
{
    for row in rows {
        if has_word(version_2, word, row) {
            return true;
        }
    }
    false
}

/// Whether some statement of this version begins with the word.
pub(crate) fn knows(version_2: bool, word: &[u8]) -> bool
    ensures { result ≡ knows_word version_2 word.now }
{
    knows_in(version_2, word, rows_from(first_byte(word)))
}

/// What the first row of the word that the operands fit says.
fn kind_in(
    version_2: bool,
    text: &[u8],
    word: &[u8],
    operands: &[Token],
    rows: &[Row],
) -> Option<Kind>
    ensures { result ≡ kind_in_rows version_2 text.now word.now operands.now (map shape_of rows.now) }
{
    for row in rows {
        if has_word(version_2, word, row) && fits(text, row.1, operands) {
            return Some(row.2);
        }
    }
    None
}

/// What a statement of this word and these operands is, if there is such a one.
pub(crate) fn kind(version_2: bool, text: &[u8], word: &[u8], operands: &[Token]) -> Option<Kind>
    ensures { result ≡ kind_for version_2 text.now word.now operands.now }
{
    kind_in(version_2, text, word, operands, rows_from(first_byte(word)))
}
