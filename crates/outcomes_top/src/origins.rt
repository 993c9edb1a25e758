//! Where the values of registers come from, if the order of grants may decide them.
ghost use Rattle.std.specs.Prelude.{◌≡◌, ◌<◌, ◌≤◌};
ghost use Rattle.std.specs.List.{find, range_with_len};
ghost use Rattle.std.specs.Option.{option_or};
ghost use Rattle.outcomes_top.specs.Reasons.{is_guard, read_of, origin_read, written_origin, origins_fetched, origins_loaded, origins_by, if_open, first_open};

use crate::alone::TaskAlone;
use crate::cells::Place;
use crate::kinds::{guards, is_known, register_kind};
use crate::reasons::Read;
use crate::summary::has_lock;
use common_outcomes::Kind;
use dn_base::WordId;
use region_table::TaskDecl;
use rv_core::{Need, Next};
use rv_isa::{Instr, Reg};

/// Whether the lock is among those that are held, and guards the word for the task.
fn is_guard(decl: &TaskDecl, held: u32, word: WordId, lock: u32) -> bool
    requires { lock < 32 }
    ensures { result ≡ is_guard decl.now held word.0 lock }
{
    has_lock(held, lock) && guards(decl, lock, word)
}

/// The least such lock below `most`.
fn guard_below(decl: &TaskDecl, held: u32, word: WordId, most: u32) -> Option<u32>
    requires { most ≤ 32 }
    ensures { result ≡ find (is_guard decl.now held word.0) (range_with_len 0 most) }
{
    for lock in 0..most {
        if is_guard(decl, held, word, lock) {
            return Some(lock);
        }
    }
    None
}

/// The load of the word by the task's next instruction, if not all is known of the value.
fn read_of(place: &Place<'_>, task: &TaskAlone, word: WordId) -> Option<Read>
    ensures { result ≡ read_of place.now task.now word.0 }
{
    if is_known(place.value_seen(task.cells(), word).kind) {
        return None;
    }
    Some(Read {
        pc: task.state.pc,
        word,
        lock: guard_below(place.decl, task.state.held, word, 32),
    })
}

/// The load that the value of a register comes from, if not all is known of it.
pub(crate) fn origin(origins: &[Option<Read>; 32], register: u32) -> Option<Read>
    ensures { result ≡ origin_read origins.now register }
{
    if register == 0 {
        return None;
    }
    match origins.get(register as usize) {
        Some(read) => *read,
        None => None,
    }
}

/// Notes the load that the value of a register comes from, which is written.
fn set_origin(origins: &mut [Option<Read>; 32], register: Reg, read: Option<Read>)
    ensures { origins.new ≡ written_origin origins.old register read }
{
    let number = register.number() as usize;
    if number != 0 {
        origins[number] = read;
    }
}

/// Notes where the values of registers come from after an instruction that loads nothing.
fn fetch(origins: &mut [Option<Read>; 32], instr: &Option<Instr>)
    ensures { origins.new ≡ origins_fetched origins.old instr.now }
{
    match *instr {
        Some(
            Instr::Lui { rd, .. }
            | Instr::Auipc { rd, .. }
            | Instr::Jal { rd, .. }
            | Instr::Jalr { rd, .. },
        ) => {
            set_origin(origins, rd, None);
        }
        Some(Instr::OpImm { rd, a, .. }) => {
            let read = origin(origins, u32::from(a.number()));
            set_origin(origins, rd, read);
        }
        Some(Instr::Op { rd, a, b, .. }) => {
            let first = origin(origins, u32::from(a.number()));
            let second = origin(origins, u32::from(b.number()));
            set_origin(origins, rd, first.or(second));
        }
        _ => {}
    }
}

/// Notes where the value of a register comes from after this load.
fn load(origins: &mut [Option<Read>; 32], read: Option<Read>, instr: &Option<Instr>)
    ensures { origins.new ≡ origins_loaded origins.old read instr.now }
{
    if let Some(Instr::Load { rd, .. }) = *instr {
        set_origin(origins, rd, read);
    }
}

/// Notes where the values of registers come from after the instruction of this look.
pub(crate) fn note_origins(
    origins: &mut [Option<Read>; 32],
    place: &Place<'_>,
    task: &TaskAlone,
    next: &Next,
)
    ensures { origins.new ≡ origins_by place.now task.now origins.old next.now.need next.now.instr }
{
    match next.need {
        Need::Load { word } => load(origins, read_of(place, task, word), &next.instr),
        Need::End { .. } => {}
        Need::Local | Need::Store { .. } | Need::Acquire { .. } | Need::Release { .. } => {
            fetch(origins, &next.instr);
        }
    }
}

/// The register, if not all is known of it.
fn if_open(kinds: &[Kind; 32], register: Reg) -> Option<u32>
    ensures { result ≡ if_open kinds.now register }
{
    if is_known(register_kind(kinds, register)) {
        None
    } else {
        Some(u32::from(register.number()))
    }
}

/// The first of the registers of an ECALL of which not all is known.
fn first_of_call(kinds: &[Kind; 32]) -> Option<u32>
    ensures { result ≡ option_or (if_open kinds.now 17) (if_open kinds.now 10) }
{
    if !is_known(kinds[17]) {
        return Some(17);
    }
    if is_known(kinds[10]) { None } else { Some(10) }
}

/// The first register that decides what the instruction needs, or where it leads, and of which not all is known.
pub(crate) fn first_open(kinds: &[Kind; 32], instr: &Option<Instr>) -> Option<u32>
    ensures { result ≡ first_open kinds.now instr.now }
{
    match *instr {
        Some(Instr::Jalr { base, .. } | Instr::Load { base, .. } | Instr::Store { base, .. }) => {
            if_open(kinds, base)
        }
        Some(Instr::Branch { a, b, .. }) => if_open(kinds, a).or(if_open(kinds, b)),
        Some(Instr::Ecall) => first_of_call(kinds),
        _ => None,
    }
}
