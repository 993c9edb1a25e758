//! What is known of registers, words and the results of instructions.
ghost use Rattle.std.specs.Prelude.{◌≡◌, [], map, slice_index_or};
ghost use Rattle.region_table.specs.Words.{has};
ghost use Rattle.common_outcomes.specs.Values.{is_known, is_add, is_sub, alu_kind, register_kind, with_kind, kinds_after, kinds_fetched, part_kind, kinds_loaded, whole_kind, merged_kind, kind_stored};
ghost use Rattle.common_outcomes.specs.Alone.{is_settled_call, is_control_settled, is_settled_if, left_by};
ghost use Rattle.region_table.specs.Plan.{task_guards};

use common_outcomes::Kind;
use dn_base::WordId;
use region_table::{TaskDecl, WordSet};
use rv_core::TaskState;
use rv_isa::{AluOp, Instr, Reg, Width};

/// Whether the number is the same for every order of grants.
#[inline(always)]
pub(crate) fn is_known(kind: Kind) -> bool
    ensures { result ≡ is_known kind }
{
    matches!(kind, Kind::Known)
}

/// What is known of the result of an operation.
#[inline(always)]
fn alu_kind(op: AluOp, a: Kind, b: Kind) -> Kind
    ensures { result ≡ alu_kind op a b }
{
    match (a, b) {
        (Kind::Known, Kind::Known) => Kind::Known,
        (Kind::Known, Kind::Offset { word }) if matches!(op, AluOp::Add) => Kind::Offset { word },
        (Kind::Offset { word }, Kind::Known) if matches!(op, AluOp::Add | AluOp::Sub) => {
            Kind::Offset { word }
        }
        _ => Kind::Varying,
    }
}

/// What is known of a register.
#[inline(always)]
pub(crate) fn register_kind(kinds: &[Kind; 32], register: Reg) -> Kind
    ensures { result ≡ register_kind kinds.now register }
{
    let number = register.number() as usize;
    if number == 0 {
        Kind::Known
    } else {
        kinds[number]
    }
}

/// Notes what is known of a register that is written.
#[inline(always)]
fn set_kind(kinds: &mut [Kind; 32], register: Reg, kind: Kind)
    ensures { kinds.new ≡ with_kind kinds.old register kind }
{
    let number = register.number() as usize;
    if number != 0 {
        kinds[number] = kind;
    }
}

/// Notes what is known of the registers after an instruction that loads nothing.
#[inline(always)]
pub(crate) fn fetch(kinds: &mut [Kind; 32], instr: &Option<Instr>)
    ensures { kinds.new ≡ kinds_fetched kinds.old instr.now }
{
    match *instr {
        Some(
            Instr::Lui { rd, .. }
            | Instr::Auipc { rd, .. }
            | Instr::Jal { rd, .. }
            | Instr::Jalr { rd, .. },
        ) => {
            set_kind(kinds, rd, Kind::Known);
        }
        Some(Instr::OpImm { op, rd, a, .. }) => {
            let kind = alu_kind(op, register_kind(kinds, a), Kind::Known);
            set_kind(kinds, rd, kind);
        }
        Some(Instr::Op { op, rd, a, b }) => {
            let kind = alu_kind(op, register_kind(kinds, a), register_kind(kinds, b));
            set_kind(kinds, rd, kind);
        }
        _ => {}
    }
}

/// What is known of the part of a word that a load of this width takes.
#[inline(always)]
fn part_kind(width: Width, kind: Kind) -> Kind
    ensures { result ≡ part_kind width kind }
{
    match (width, kind) {
        (Width::W, kind) => kind,
        (_, Kind::Known) => Kind::Known,
        _ => Kind::Varying,
    }
}

/// Notes what is known of the registers after a load of a word of which this is known.
#[inline(always)]
pub(crate) fn load(kinds: &mut [Kind; 32], kind: Kind, instr: &Option<Instr>)
    ensures { kinds.new ≡ kinds_loaded kinds.old kind instr.now }
{
    if let Some(Instr::Load { width, rd, .. }) = *instr {
        set_kind(kinds, rd, part_kind(width, kind));
    }
}

/// What is known of a word after a whole store.
#[inline(always)]
fn whole_kind(shared: bool, word: WordId, kind: Kind) -> Kind
    ensures { result ≡ whole_kind shared word.0 kind }
{
    match kind {
        Kind::Offset { word: of } if !(shared && of.0 == word.0) => Kind::Varying,
        kind => kind,
    }
}

/// What is known of a word after a store of a part.
#[inline(always)]
fn merged_kind(before: Kind, kind: Kind) -> Kind
    ensures { result ≡ merged_kind before kind }
{
    match (before, kind) {
        (Kind::Known, Kind::Known) => Kind::Known,
        _ => Kind::Varying,
    }
}

/// What is known of a word after a store, of which `before` was known before.
#[inline(always)]
pub(crate) fn value_stored(
    kinds: &[Kind; 32],
    shared: bool,
    word: WordId,
    before: Kind,
    instr: &Option<Instr>,
) -> Kind
    ensures { result ≡ kind_stored kinds.now shared word.0 before instr.now }
{
    match *instr {
        Some(
            Instr::Store {
                width: Width::W,
                src,
                ..
            },
        ) => { whole_kind(shared, word, register_kind(kinds, src)) }
        Some(Instr::Store { src, .. }) => merged_kind(before, register_kind(kinds, src)),
        _ => before,
    }
}

/// Whether what decides an ECALL besides its number is known.
fn is_settled_call(kinds: &[Kind; 32], number: u32) -> bool
    ensures { result ≡ is_settled_call kinds.now number }
{
    !(number == 1 || number == 2) || is_known(kinds[10])
}

/// Whether each register that decides what the next instruction needs, and where it leads, is known.
#[inline(always)]
pub(crate) fn is_settled(kinds: &[Kind; 32], state: &TaskState, instr: &Option<Instr>) -> bool
    ensures { result ≡ is_settled_if kinds.now state.now instr.now }
{
    match *instr {
        Some(Instr::Jalr { base, .. } | Instr::Load { base, .. } | Instr::Store { base, .. }) => {
            is_known(register_kind(kinds, base))
        }
        Some(Instr::Branch { a, b, .. }) => {
            a.number() == b.number()
                || (is_known(register_kind(kinds, a)) && is_known(register_kind(kinds, b)))
        }
        Some(Instr::Ecall) => is_known(kinds[17]) && is_settled_call(kinds, state.regs[17]),
        _ => true,
    }
}

/// Whether the lock's set of words has this word.
fn guards_by(sets: &[WordSet], lock: u32, word: WordId) -> bool
    ensures { result ≡ has (slice_index_or sets.now lock []) word.0 }
{
    match sets.get(lock as usize) {
        Some(set) => set.contains(word),
        None => false,
    }
}

/// Whether the lock guards the word for the task.
pub(crate) fn guards(task: &TaskDecl, lock: u32, word: WordId) -> bool
    ensures { result ≡ task_guards task.now lock word.0 }
{
    guards_by(task.effects.guarded_reads.as_slice(), lock, word)
        || guards_by(task.effects.guarded_writes.as_slice(), lock, word)
}

/// What is known of a register at the end of a section of the lock.
fn left_kind(task: &TaskDecl, lock: u32, kind: Kind) -> Kind
    ensures { result ≡ left_by task.now lock kind }
{
    match kind {
        Kind::Offset { word } if guards(task, lock, word) => Kind::Varying,
        kind => kind,
    }
}

/// Notes what is known of the registers at the end of a section of the lock.
pub(crate) fn leave(kinds: &mut [Kind; 32], task: &TaskDecl, lock: u32)
    ensures { kinds.new ≡ map (left_by task.now lock) kinds.old }
{
    for place in 0..32 {
        kinds[place] = left_kind(task, lock, kinds[place]);
    }
}
