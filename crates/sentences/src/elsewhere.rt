//! Words that other assemblers take, or that take other operands there, and what this language has in their place.
ghost use Rattle.std.specs.Prelude.{◌≡◌, bytes_eq, find};
ghost use Rattle.sentences.specs.Elsewhere.{spelling, instead, is_spelled, words_elsewhere, word_elsewhere};

/// A word that means something else, or more, in other assemblers.
#[derive(Clone, Copy)]
pub(crate) enum Elsewhere {
    Data,
    Bss,
    ReadOnlyData,
    Section,
    Text,
    Globl,
    Global,
    Equ,
    Set,
    Space,
    Zero,
    Byte,
    Half,
    Ascii,
    Asciz,
    StringWord,
    Align,
    Macro,
    CallWord,
    Tail,
    GreaterThan,
    LessOrEqual,
    GreaterUnsigned,
    LessUnsigned,
    GreaterThanZero,
    LessOrEqualZero,
    LessThanZero,
    GreaterOrEqualZero,
    SetGreaterZero,
    SetLessZero,
    SubtractNumber,
    Multiply,
    MultiplyHigh,
    Divide,
    DivideUnsigned,
    Remainder,
    RemainderUnsigned,
    ReadControl,
    WriteControl,
    LoadReserved,
    StoreConditional,
    AtomicAdd,
    AtomicSwap,
    WordLine,
    Reads,
    Writes,
    Li,
    Add,
    Sub,
    Load,
    Store,
    JumpAndLink,
    JumpRegister,
    FenceWord,
    Family,
}

const WORDS: &[Elsewhere] = &[
    Elsewhere::Data,
    Elsewhere::Bss,
    Elsewhere::ReadOnlyData,
    Elsewhere::Section,
    Elsewhere::Text,
    Elsewhere::Globl,
    Elsewhere::Global,
    Elsewhere::Equ,
    Elsewhere::Set,
    Elsewhere::Space,
    Elsewhere::Zero,
    Elsewhere::Byte,
    Elsewhere::Half,
    Elsewhere::Ascii,
    Elsewhere::Asciz,
    Elsewhere::StringWord,
    Elsewhere::Align,
    Elsewhere::Macro,
    Elsewhere::CallWord,
    Elsewhere::Tail,
    Elsewhere::GreaterThan,
    Elsewhere::LessOrEqual,
    Elsewhere::GreaterUnsigned,
    Elsewhere::LessUnsigned,
    Elsewhere::GreaterThanZero,
    Elsewhere::LessOrEqualZero,
    Elsewhere::LessThanZero,
    Elsewhere::GreaterOrEqualZero,
    Elsewhere::SetGreaterZero,
    Elsewhere::SetLessZero,
    Elsewhere::SubtractNumber,
    Elsewhere::Multiply,
    Elsewhere::MultiplyHigh,
    Elsewhere::Divide,
    Elsewhere::DivideUnsigned,
    Elsewhere::Remainder,
    Elsewhere::RemainderUnsigned,
    Elsewhere::ReadControl,
    Elsewhere::WriteControl,
    Elsewhere::LoadReserved,
    Elsewhere::StoreConditional,
    Elsewhere::AtomicAdd,
    Elsewhere::AtomicSwap,
    Elsewhere::WordLine,
    Elsewhere::Reads,
    Elsewhere::Writes,
    Elsewhere::Li,
    Elsewhere::Add,
    Elsewhere::Sub,
    Elsewhere::Load,
    Elsewhere::Store,
    Elsewhere::JumpAndLink,
    Elsewhere::JumpRegister,
    Elsewhere::FenceWord,
    Elsewhere::Family,
];

fn words_elsewhere() -> &'static [Elsewhere]
    ensures { result.now ≡ words_elsewhere }
{
    WORDS
}

/// How the word is spelled.
fn spelling(word: Elsewhere) -> &'static [u8]
    ensures { result.now ≡ spelling word }
{
    match word {
        Elsewhere::Data => b".data",
        Elsewhere::Bss => b".bss",
        Elsewhere::ReadOnlyData => b".rodata",
        Elsewhere::Section => b".section",
        Elsewhere::Text => b".text",
        Elsewhere::Globl => b".globl",
        Elsewhere::Global => b".global",
        Elsewhere::Equ => b".equ",
        Elsewhere::Set => b".set",
        Elsewhere::Space => b".space",
        Elsewhere::Zero => b".zero",
        Elsewhere::Byte => b".byte",
        Elsewhere::Half => b".half",
        Elsewhere::Ascii => b".ascii",
        Elsewhere::Asciz => b".asciz",
        Elsewhere::StringWord => b".string",
        Elsewhere::Align => b".align",
        Elsewhere::Macro => b".macro",
        Elsewhere::CallWord => b"call",
        Elsewhere::Tail => b"tail",
        Elsewhere::GreaterThan => b"bgt",
        Elsewhere::LessOrEqual => b"ble",
        Elsewhere::GreaterUnsigned => b"bgtu",
        Elsewhere::LessUnsigned => b"bleu",
        Elsewhere::GreaterThanZero => b"bgtz",
        Elsewhere::LessOrEqualZero => b"blez",
        Elsewhere::LessThanZero => b"bltz",
        Elsewhere::GreaterOrEqualZero => b"bgez",
        Elsewhere::SetGreaterZero => b"sgtz",
        Elsewhere::SetLessZero => b"sltz",
        Elsewhere::SubtractNumber => b"subi",
        Elsewhere::Multiply => b"mul",
        Elsewhere::MultiplyHigh => b"mulh",
        Elsewhere::Divide => b"div",
        Elsewhere::DivideUnsigned => b"divu",
        Elsewhere::Remainder => b"rem",
        Elsewhere::RemainderUnsigned => b"remu",
        Elsewhere::ReadControl => b"csrr",
        Elsewhere::WriteControl => b"csrw",
        Elsewhere::LoadReserved => b"lr.w",
        Elsewhere::StoreConditional => b"sc.w",
        Elsewhere::AtomicAdd => b"amoadd.w",
        Elsewhere::AtomicSwap => b"amoswap.w",
        Elsewhere::WordLine => b".word",
        Elsewhere::Reads => b".reads",
        Elsewhere::Writes => b".writes",
        Elsewhere::Li => b"li",
        Elsewhere::Add => b"add",
        Elsewhere::Sub => b"sub",
        Elsewhere::Load => b"lw",
        Elsewhere::Store => b"sw",
        Elsewhere::JumpAndLink => b"jal",
        Elsewhere::JumpRegister => b"jalr",
        Elsewhere::FenceWord => b"fence",
        Elsewhere::Family => b".forall",
    }
}

/// What to write in its place.
pub(crate) fn instead(word: Elsewhere) -> &'static [u8]
    ensures { result.now ≡ instead word }
{
    match word {
        Elsewhere::Data | Elsewhere::Bss | Elsewhere::ReadOnlyData | Elsewhere::Section =>
            b"This language has no sections: `.region NAME, N` declares N words of data, and `.word NAME, INDEX, VALUE` gives one its first value.",
        Elsewhere::Text => b"This language has no sections: leave the line out.",
        Elsewhere::Globl | Elsewhere::Global =>
            b"Leave the line out: `.task` names the label at which a task starts.",
        Elsewhere::Equ | Elsewhere::Set =>
            b"This language has no named constants: write the number.",
        Elsewhere::Space | Elsewhere::Zero =>
            b"Write `.region NAME, N` in its place, which declares N words.",
        Elsewhere::Byte
        | Elsewhere::Half
        | Elsewhere::Ascii
        | Elsewhere::Asciz
        | Elsewhere::StringWord =>
            b"Data are words of 32 bits: `.region NAME, N` declares N of them, and `.word NAME, INDEX, VALUE` gives one its first value.",
        Elsewhere::Align => b"Leave the line out: code and data are words at multiples of 4.",
        Elsewhere::Macro => b"This language has no macros: write the instructions.",
        Elsewhere::CallWord => b"Write `jal ra, LABEL` in its place.",
        Elsewhere::Tail => b"Write `j LABEL` in its place.",
        Elsewhere::GreaterThan =>
            b"Exchange the registers of `blt`: `blt t1, t0, LABEL` is `bgt t0, t1, LABEL`.",
        Elsewhere::LessOrEqual =>
            b"Exchange the registers of `bge`: `bge t1, t0, LABEL` is `ble t0, t1, LABEL`.",
        Elsewhere::GreaterUnsigned =>
            b"Exchange the registers of `bltu`: `bltu t1, t0, LABEL` is `bgtu t0, t1, LABEL`.",
        Elsewhere::LessUnsigned =>
            b"Exchange the registers of `bgeu`: `bgeu t1, t0, LABEL` is `bleu t0, t1, LABEL`.",
        Elsewhere::GreaterThanZero =>
            b"Compare with the register zero: `blt zero, t0, LABEL` is `bgtz t0, LABEL`.",
        Elsewhere::LessOrEqualZero =>
            b"Compare with the register zero: `bge zero, t0, LABEL` is `blez t0, LABEL`.",
        Elsewhere::LessThanZero =>
            b"Compare with the register zero: `blt t0, zero, LABEL` is `bltz t0, LABEL`.",
        Elsewhere::GreaterOrEqualZero =>
            b"Compare with the register zero: `bge t0, zero, LABEL` is `bgez t0, LABEL`.",
        Elsewhere::SetGreaterZero =>
            b"Compare with the register zero: `slt t0, zero, t1` is `sgtz t0, t1`.",
        Elsewhere::SetLessZero =>
            b"Compare with the register zero: `slt t0, t1, zero` is `sltz t0, t1`.",
        Elsewhere::SubtractNumber =>
            b"Write `addi` with the negative number: `addi t0, t1, -4` is `subi t0, t1, 4`.",
        Elsewhere::Multiply
        | Elsewhere::MultiplyHigh
        | Elsewhere::Divide
        | Elsewhere::DivideUnsigned
        | Elsewhere::Remainder
        | Elsewhere::RemainderUnsigned =>
            b"This language has no multiplication and no division: add in a loop, or shift by `slli` and `srli`.",
        Elsewhere::ReadControl | Elsewhere::WriteControl =>
            b"There are no control registers such as `mhartid`: `.task` gives a task its argument, for example its core's number, and the task finds it in a0.",
        Elsewhere::LoadReserved
        | Elsewhere::StoreConditional
        | Elsewhere::AtomicAdd
        | Elsewhere::AtomicSwap =>
            b"This language has no atomic instructions: acquire a lock by `ecall`, load and store, and release it.",
        Elsewhere::WordLine =>
            b"`.word NAME, INDEX, VALUE` gives a word of a region its first value, and `.region NAME, N` declares the region. Labels stand before instructions.",
        Elsewhere::Reads =>
            b"An interval has two ends, as in `.reads m, 0, 2`. If the first name is a lock, write `.greads`.",
        Elsewhere::Writes =>
            b"An interval has two ends, as in `.writes m, 0, 2`. If the first name is a lock, write `.gwrites`.",
        Elsewhere::Li =>
            b"`li` takes a number. `la` puts the address of a label or a region into a register.",
        Elsewhere::Add => b"`add` takes registers. `addi` takes a number at the end.",
        Elsewhere::Sub =>
            b"`sub` takes registers. `addi` with a negative number subtracts one: `addi t0, t1, -4`.",
        Elsewhere::Load =>
            b"`lw` takes an offset and a register, as in `lw t0, 4(t1)`. `la` puts the address of a region into the register first.",
        Elsewhere::Store =>
            b"`sw` takes an offset and a register, as in `sw t0, 4(t1)`. `la` puts the address of a region into the register first.",
        Elsewhere::JumpAndLink =>
            b"`jal` takes the register for the return address first: `jal ra, LABEL`.",
        Elsewhere::JumpRegister =>
            b"`jalr` takes the register for the return address, and then an offset with a register: `jalr ra, 0(t0)`. `jr t0` keeps no return address.",
        Elsewhere::FenceWord => b"Write `fence` alone: it has no operands here.",
        Elsewhere::Family =>
            b"`.forall` takes the first core, the number of tasks, their entry, the argument of the first one and its step, as in `.forall 0, 4, work, 7, 1`. All cores are from 0 to 15. It needs `.version 2` as the first line that isn't blank.",
    }
}

fn is_spelled(bytes: &[u8], word: Elsewhere) -> bool
    ensures { result ≡ is_spelled bytes.now word }
{
    bytes == spelling(word)
}

/// The word that is spelled so, if it is one of these.
pub(crate) fn word_elsewhere(bytes: &[u8]) -> Option<Elsewhere>
    ensures { result ≡ word_elsewhere bytes.now }
{
    let words = words_elsewhere();
    for word in words {
        if is_spelled(bytes, *word) {
            return Some(*word);
        }
    }
    None
}
