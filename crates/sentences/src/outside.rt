//! Sentences on a load or store that a task may not do.
ghost use Rattle.std.specs.Prelude.{◌≡◌, ◌++◌, OnOk, slice_get};
ghost use Rattle.region_table.specs.Tasks.{declared};
ghost use Rattle.sentences.specs.Told.{AreTold};
ghost use Rattle.sentences.specs.Outside.{operands_of, plain_effect, guarded_effect, declare_it, or_mended, plain_remedy, family_text, own_words, step_remedy, shared_remedy, effect_remedy, guarded_remedy, held_remedy, acquire_remedy, guarding_text, same_phase, used_text, reading_text, nobody_text, others_text, free_text, undeclared_text, read_only_text, declares_it_under, under_text, read_under_text, own_text, word_sentences, first_region, before_text, region_line, last_region, counted, lacked_word, behind_text, is_stack, stack_if, region_said, site_sentences, outside_sentences};

use crate::conflicts::push_core;
use crate::effects::push_declared_effects;
use crate::families::{TaskFamily, family_of};
use crate::marks::first;
use crate::others_use::{Others, others_in};
use crate::sites::{Site, len_of, lock_name, name_of, site_of};
use crate::told::ToldEffects;
use crate::uses::{Access, OwnUse, own_use};
use dn_base::{CoreId, Memory, PhaseId};
use region_table::Program;
use text_pieces::Piece::{Bytes, Long, Number};
use text_pieces::{push, push_decimal, push_pieces};
use text_places::{Located, WordPlace, push_lock};

/// Adds a word as the operands of an effect.
#[tactic(auto, unfolding(crate::specs::Outside::operands_of))]
fn push_operands(out: &mut Vec<u8>, program: &Program, place: WordPlace) -> Result<(), Memory>
    ensures { OnOk result (out.new.items ≡ out.old.items ++ operands_of program.now place) }
{
    push_pieces(
        out,
        &[
            Bytes(name_of(program.regions.as_slice(), place.region)),
            Bytes(b", "),
            Number(place.index),
            Bytes(b", "),
            Long(u64::from(place.index) + 1),
        ],
    )
}

fn plain_effect(access: Access) -> &'static [u8]
    ensures { result.now ≡ plain_effect access }
{
    match access {
        Access::Load => b".reads ",
        Access::Store => b".writes ",
    }
}

fn guarded_effect(access: Access) -> &'static [u8]
    ensures { result.now ≡ guarded_effect access }
{
    match access {
        Access::Load => b".greads ",
        Access::Store => b".gwrites ",
    }
}

#[tactic(auto, unfolding(crate::specs::Outside::declare_it))]
fn push_declare_it(out: &mut Vec<u8>) -> Result<(), Memory>
    ensures { OnOk result (out.new.items ≡ out.old.items ++ declare_it) }
{
    push(out, b"  Declare it behind the task's line by `")
}

#[tactic(auto, unfolding(crate::specs::Outside::or_mended))]
fn push_or_mended(out: &mut Vec<u8>) -> Result<(), Memory>
    ensures { OnOk result (out.new.items ≡ out.old.items ++ or_mended) }
{
    push(out, b"`, or correct the address.\n")
}

/// Adds that a plain effect fixes the access.
#[tactic(auto, unfolding(crate::specs::Outside::plain_remedy))]
fn push_plain_remedy(
    out: &mut Vec<u8>,
    program: &Program,
    access: Access,
    place: WordPlace,
) -> Result<(), Memory>
    ensures { OnOk result (out.new.items ≡ out.old.items ++ plain_remedy program.now access place) }
{
    push_declare_it(out)?;
    push(out, plain_effect(access))?;
    push_operands(out, program, place)?;
    push_or_mended(out)
}

#[tactic(auto, unfolding(crate::specs::Outside::family_text))]
fn push_family(out: &mut Vec<u8>, family: TaskFamily) -> Result<(), Memory>
    ensures { OnOk result (out.new.items ≡ out.old.items ++ family_text family) }
{
    push_pieces(
        out,
        &[
            Bytes(b"  Line "),
            Number(family.line),
            Bytes(b" declares "),
            Long(family.tasks as u64),
            Bytes(b" tasks, and an effect behind it is one of each of them.\n"),
        ],
    )
}

#[tactic(auto, unfolding(crate::specs::Outside::own_words))]
fn push_own_words(out: &mut Vec<u8>) -> Result<(), Memory>
    ensures { OnOk result (out.new.items ≡ out.old.items ++ own_words) }
{
    push(
        out,
        b"  Two tasks that may store to the same word conflict: give each a word of its own by a step, as in `.writes ",
    )
}

/// Adds how the tasks of a family may store to words of a region.
#[tactic(auto, unfolding(crate::specs::Outside::step_remedy, crate::specs::Outside::by_step))]
fn push_step_remedy(out: &mut Vec<u8>, program: &Program, place: WordPlace) -> Result<(), Memory>
    ensures { OnOk result (out.new.items ≡ out.old.items ++ step_remedy program.now place) }
{
    push_own_words(out)?;
    push(out, name_of(program.regions.as_slice(), place.region))?;
    push(out, b", 0, 1, 1`, or correct the address.\n")
}

/// Adds which effect of a family's tasks fixes the access of one of them.
fn push_shared_remedy(
    out: &mut Vec<u8>,
    program: &Program,
    access: Access,
    place: WordPlace,
) -> Result<(), Memory>
    ensures { OnOk result (out.new.items ≡ out.old.items ++ shared_remedy program.now access place) }
{
    match access {
        Access::Load => push_plain_remedy(out, program, access, place),
        Access::Store => push_step_remedy(out, program, place),
    }
}

/// Adds which effect without a lock fixes the access of a task, which is one of a family or alone on its line.
fn push_effect_remedy(
    out: &mut Vec<u8>,
    program: &Program,
    access: Access,
    place: WordPlace,
    family: Option<TaskFamily>,
) -> Result<(), Memory>
    ensures { OnOk result (out.new.items ≡ out.old.items ++ effect_remedy program.now access place family) }
{
    match family {
        Some(family) => {
            push_family(out, family)?;
            push_shared_remedy(out, program, access, place)
        }
        None => push_plain_remedy(out, program, access, place),
    }
}

/// Adds that an effect by a lock fixes the access, and what else is to be done.
#[tactic(auto, unfolding(crate::specs::Outside::guarded_remedy))]
fn push_guarded_remedy(
    out: &mut Vec<u8>,
    program: &Program,
    access: Access,
    lock: usize,
    place: WordPlace,
    further: &[u8],
) -> Result<(), Memory>
    ensures { OnOk result (out.new.items ≡ out.old.items ++ guarded_remedy program.now access lock place further.now) }
{
    push_declare_it(out)?;
    push(out, guarded_effect(access))?;
    push(out, lock_name(program.locks.as_slice(), lock))?;
    push(out, b", ")?;
    push_operands(out, program, place)?;
    push(out, further)
}

/// Adds that an effect by a lock, while that is held, fixes the access.
#[tactic(auto, unfolding(crate::specs::Outside::held_remedy))]
fn push_held_remedy(
    out: &mut Vec<u8>,
    program: &Program,
    access: Access,
    lock: usize,
    place: WordPlace,
) -> Result<(), Memory>
    ensures { OnOk result (out.new.items ≡ out.old.items ++ held_remedy program.now access lock place) }
{
    let further = b"`, and store to it only while the task holds the lock.\n";
    push_guarded_remedy(out, program, access, lock, place, further)
}

#[tactic(auto, unfolding(crate::specs::Outside::acquire_remedy))]
fn push_acquire_remedy(out: &mut Vec<u8>, lock: usize) -> Result<(), Memory>
    ensures { OnOk result (out.new.items ≡ out.old.items ++ acquire_remedy lock) }
{
    push_pieces(
        out,
        &[
            Bytes(b"  Acquire the lock first, by `li a0, "),
            Long(lock as u64),
            Bytes(b"`, `li a7, 1` and `ecall`; or correct the address.\n"),
        ],
    )
}

/// Adds for which task the lock guards the word.
#[tactic(auto, unfolding(crate::specs::Outside::guarding_text))]
fn push_guarding(
    out: &mut Vec<u8>,
    located: &Located,
    phase: u32,
    core: u32,
    lock: usize,
) -> Result<(), Memory>
    ensures { OnOk result (out.new.items ≡ out.old.items ++ guarding_text located.now phase core lock) }
{
    push(out, b"  ")?;
    push_lock(out, located.program.locks.as_slice(), lock)?;
    push(out, b" guards it for ")?;
    push_core(out, &located.places, phase, core)?;
    push(out, b".\n")
}

#[tactic(auto, unfolding(crate::specs::Outside::same_phase))]
fn push_same_phase(out: &mut Vec<u8>) -> Result<(), Memory>
    ensures { OnOk result (out.new.items ≡ out.old.items ++ same_phase) }
{
    push(out, b"  In the same phase, ")
}

/// Adds which task uses the word too, and how.
#[tactic(auto, unfolding(crate::specs::Outside::used_text))]
fn push_used(
    out: &mut Vec<u8>,
    located: &Located,
    phase: u32,
    core: u32,
    how: &[u8],
) -> Result<(), Memory>
    ensures { OnOk result (out.new.items ≡ out.old.items ++ used_text located.now phase core how.now) }
{
    push_same_phase(out)?;
    push_core(out, &located.places, phase, core)?;
    push(out, how)
}

/// Adds which task loads the word.
#[tactic(auto, unfolding(crate::specs::Outside::reading_text))]
fn push_reading(out: &mut Vec<u8>, located: &Located, phase: u32, core: u32) -> Result<(), Memory>
    ensures { OnOk result (out.new.items ≡ out.old.items ++ reading_text located.now phase core) }
{
    push_used(out, located, phase, core, b" may load it without a lock.\n")
}

#[tactic(auto, unfolding(crate::specs::Outside::nobody_text))]
fn push_nobody(out: &mut Vec<u8>) -> Result<(), Memory>
    ensures { OnOk result (out.new.items ≡ out.old.items ++ nobody_text) }
{
    push(out, b"  No other task of the phase declares it.\n")
}

/// Adds what the other tasks of the phase declare of the word, and the remedy.
#[tactic(auto, unfolding(crate::specs::Outside::apart_remedy))]
fn push_others(
    out: &mut Vec<u8>,
    located: &Located,
    phase: u32,
    core: u32,
    access: Access,
    place: WordPlace,
    others: Others,
) -> Result<(), Memory>
    ensures { OnOk result (out.new.items ≡ out.old.items ++ others_text located.now phase core access place others) }
{
    let program = &located.program;
    match others {
        Others::Guarding(guardian) => {
            push_guarding(out, located, phase, guardian.core, guardian.lock)?;
            let further = b"`, and acquire the lock first; or correct the address.\n";
            push_guarded_remedy(out, program, access, guardian.lock, place, further)
        }
        Others::Contending(other) => {
            push_used(out, located, phase, other, b" uses it without a lock.\n")?;
            push(
                out,
                b"  Use it in another phase, or have one lock guard it for both tasks by `.greads` and `.gwrites`; or correct the address.\n",
            )
        }
        Others::Reading(other) => {
            push_reading(out, located, phase, other)?;
            let family = family_of(&located.places, phase, core);
            push_effect_remedy(out, program, access, place, family)
        }
        Others::Nobody => {
            push_nobody(out)?;
            let family = family_of(&located.places, phase, core);
            push_effect_remedy(out, program, access, place, family)
        }
    }
}

#[tactic(auto, unfolding(crate::specs::Outside::declares_it_under))]
fn push_declares_it_under(out: &mut Vec<u8>) -> Result<(), Memory>
    ensures { OnOk result (out.new.items ≡ out.old.items ++ declares_it_under) }
{
    push(out, b"  It declares the word under ")
}

/// Adds that the task declares the word under a lock, and how.
#[tactic(auto, unfolding(crate::specs::Outside::under_text))]
fn push_under(out: &mut Vec<u8>, program: &Program, lock: usize, how: &[u8]) -> Result<(), Memory>
    ensures { OnOk result (out.new.items ≡ out.old.items ++ under_text program.now lock how.now) }
{
    push_declares_it_under(out)?;
    push_lock(out, program.locks.as_slice(), lock)?;
    push(out, how)
}

/// Adds that the task declares the word for loads under a lock alone.
#[tactic(auto, unfolding(crate::specs::Outside::read_under_text))]
fn push_read_under(out: &mut Vec<u8>, program: &Program, lock: usize) -> Result<(), Memory>
    ensures { OnOk result (out.new.items ≡ out.old.items ++ read_under_text program.now lock) }
{
    let how =
        b" by `.greads` alone: it may load it while it holds the lock, and not store to it.\n";
    push_under(out, program, lock, how)
}

#[tactic(auto, unfolding(crate::specs::Outside::read_only_text))]
fn push_read_only(out: &mut Vec<u8>) -> Result<(), Memory>
    ensures { OnOk result (out.new.items ≡ out.old.items ++ read_only_text) }
{
    push(
        out,
        b"  It declares the word in `.reads`: it may load it, and not store to it.\n",
    )
}

#[tactic(auto, unfolding(crate::specs::Outside::undeclared_text))]
fn push_undeclared(out: &mut Vec<u8>) -> Result<(), Memory>
    ensures { OnOk result (out.new.items ≡ out.old.items ++ undeclared_text) }
{
    push(out, b"  None of its effects has the word.\n")
}

#[tactic(auto, unfolding(crate::specs::Outside::free_text))]
fn push_free(out: &mut Vec<u8>) -> Result<(), Memory>
    ensures { OnOk result (out.new.items ≡ out.old.items ++ free_text) }
{
    push(
        out,
        b"  Its effects let it do so: no run of the text ends here like this.\n",
    )
}

/// A word that the task of a core in a phase accesses.
#[derive(Clone, Copy)]
pub(crate) struct Accessed {
    phase: u32,
    core: u32,
    access: Access,
    word: u32,
    place: WordPlace,
}

/// Adds what the task and the others declare of the word, and the remedy.
fn push_own(
    out: &mut Vec<u8>,
    located: &Located,
    accessed: Accessed,
    own: OwnUse,
) -> Result<(), Memory>
    ensures { OnOk result (out.new.items ≡ out.old.items ++ own_text located.now accessed.phase accessed.core accessed.access accessed.word accessed.place own) }
{
    let Accessed {
        phase,
        core,
        access,
        word,
        place,
    } = accessed;
    let program = &located.program;
    match own {
        OwnUse::Free => push_free(out),
        OwnUse::Guarded(lock) => {
            push_under(out, program, lock, b", which it doesn't hold here.\n")?;
            push_acquire_remedy(out, lock)
        }
        OwnUse::ReadUnder(lock) => {
            push_read_under(out, program, lock)?;
            push_held_remedy(out, program, access, lock, place)
        }
        OwnUse::ReadOnly => {
            push_read_only(out)?;
            let others = others_in(program, phase, access, core, word);
            push_others(out, located, phase, core, access, place, others)
        }
        OwnUse::Undeclared => {
            push_undeclared(out)?;
            let others = others_in(program, phase, access, core, word);
            push_others(out, located, phase, core, access, place, others)
        }
    }
}

/// Adds what is said of a word, by what its task declares.
fn push_word_sentences<'a>(
    out: &mut Vec<u8>,
    text: &[u8],
    effects: &ToldEffects<'a>,
    located: &'a Located,
    accessed: Accessed,
) -> Result<(), Memory>
    requires { AreTold text.now effects.now }
    ensures { OnOk result (out.new.items ≡ out.old.items ++ word_sentences text.now located.now accessed.phase accessed.core accessed.access accessed.word accessed.place
        (declared located.now.program accessed.phase accessed.core)) }
{
    match located
        .program
        .task(PhaseId(accessed.phase), CoreId(accessed.core))
    {
        Some(task) => {
            let place = located.places.task(accessed.phase as usize, accessed.core);
            let region = accessed.place.region;
            push_declared_effects(out, text, &located.program, place, region, effects)?;
            let own = own_use(accessed.access, &task.effects, accessed.word);
            push_own(out, located, accessed, own)
        }
        None => Ok(()),
    }
}

#[tactic(auto, unfolding(crate::specs::Outside::first_region))]
fn push_first_region(out: &mut Vec<u8>) -> Result<(), Memory>
    ensures { OnOk result (out.new.items ≡ out.old.items ++ first_region) }
{
    push(out, b"  The first region, ")
}

#[tactic(auto, unfolding(crate::specs::Outside::before_text, crate::specs::Outside::further_on))]
fn push_before(out: &mut Vec<u8>, program: &Program, bytes: u32) -> Result<(), Memory>
    ensures { OnOk result (out.new.items ≡ out.old.items ++ before_text program.now bytes) }
{
    push_first_region(out)?;
    push_pieces(
        out,
        &[
            Bytes(name_of(program.regions.as_slice(), 0)),
            Bytes(b", begins "),
            Number(bytes),
            Bytes(
                b" bytes further on, at 0x10000000.\n  Put the address of a word into the register first, by `la`.\n",
            ),
        ],
    )
}

fn push_region_line(out: &mut Vec<u8>, line: Option<u32>) -> Result<(), Memory>
    ensures { OnOk result (out.new.items ≡ out.old.items ++ region_line line) }
{
    match line {
        Some(line) => push_pieces(out, &[Bytes(b" (line "), Number(line), Bytes(b")")]),
        None => Ok(()),
    }
}

#[tactic(auto, unfolding(crate::specs::Outside::last_region))]
fn push_last_region(out: &mut Vec<u8>) -> Result<(), Memory>
    ensures { OnOk result (out.new.items ≡ out.old.items ++ last_region) }
{
    push(out, b"  The last region, ")
}

#[tactic(auto, unfolding(crate::specs::Outside::counted))]
fn push_counted(out: &mut Vec<u8>) -> Result<(), Memory>
    ensures { OnOk result (out.new.items ≡ out.old.items ++ counted) }
{
    push(
        out,
        b", counted from 0.\n  Correct the address, or give the region more words and declare them.\n",
    )
}

/// Adds the last region, which has this number, and a word that it hasn't.
#[tactic(auto, unfolding(crate::specs::Outside::lacked_word))]
fn push_lacked_word(
    out: &mut Vec<u8>,
    located: &Located,
    region: usize,
    index: u32,
) -> Result<(), Memory>
    ensures { OnOk result (out.new.items ≡ out.old.items ++ lacked_word located.now region index) }
{
    push_last_region(out)?;
    push(out, name_of(located.program.regions.as_slice(), region))?;
    push_region_line(out, located.places.region(region))?;
    push(out, b", has no word ")?;
    push_decimal(out, index)
}

#[tactic(auto, unfolding(crate::specs::Outside::behind_text))]
fn push_behind(
    out: &mut Vec<u8>,
    located: &Located,
    region: usize,
    index: u32,
) -> Result<(), Memory>
    ensures { OnOk result (out.new.items ≡ out.old.items ++ behind_text located.now region index) }
{
    push_lacked_word(out, located, region, index)?;
    push(out, b": it has ")?;
    push_decimal(out, len_of(located.program.regions.as_slice(), region))?;
    push_counted(out)
}

/// Whether a name begins as that of a stack.
#[tactic(auto, unfolding(crate::specs::Outside::is_stack))]
fn is_stack(name: &[u8]) -> bool
    ensures { result ≡ is_stack name.now }
{
    first(name, 6) == b"stack_".as_slice()
}

/// Adds what is said of a region that may be a stack.
#[tactic(auto, unfolding(crate::specs::Outside::stack_text))]
fn push_region_said(out: &mut Vec<u8>, program: &Program, region: usize) -> Result<(), Memory>
    ensures { OnOk result (out.new.items ≡ out.old.items ++ region_said program.now region) }
{
    if is_stack(name_of(program.regions.as_slice(), region)) {
        push(
            out,
            b"  If `tools/from_c.py` made the text, this is a stack: where a task's own stack ran over, the option `--stack` gives it more words.\n",
        )
    } else {
        Ok(())
    }
}

/// Adds what is said of an address, by where it is.
#[tactic(auto, unfolding(crate::specs::Outside::nowhere_text))]
fn push_site<'a>(
    out: &mut Vec<u8>,
    text: &[u8],
    effects: &ToldEffects<'a>,
    located: &'a Located,
    phase: u32,
    core: u32,
    access: Access,
    site: Site,
) -> Result<(), Memory>
    requires { AreTold text.now effects.now }
    ensures { OnOk result (out.new.items ≡ out.old.items ++ site_sentences text.now located.now phase core access site) }
{
    match site {
        Site::Within { word, place } => {
            let accessed = Accessed {
                phase,
                core,
                access,
                word,
                place,
            };
            push_word_sentences(out, text, effects, located, accessed)?;
            push_region_said(out, &located.program, place.region)
        }
        Site::Before { bytes } => {
            push_before(out, &located.program, bytes)?;
            push_region_said(out, &located.program, 0)
        }
        Site::Behind { region, index } => push_behind(out, located, region, index),
        Site::Nowhere => push(
            out,
            b"  The text declares no region.\n  Declare one by `.region`, and its words by an effect behind the task's line.\n",
        ),
    }
}

/// Adds why the task of a core in a phase may not access the address so, and how to fix it.
pub(crate) fn push_outside<'a>(
    out: &mut Vec<u8>,
    text: &[u8],
    effects: &ToldEffects<'a>,
    located: &'a Located,
    task: (u32, u32),
    access: Access,
    address: u32,
) -> Result<(), Memory>
    requires { AreTold text.now effects.now }
    ensures { OnOk result (out.new.items ≡ out.old.items ++ outside_sentences text.now located.now task.0 task.1 access address) }
{
    let site = site_of(&located.program, address);
    push_site(out, text, effects, located, task.0, task.1, access, site)
}
