//! The lines on which effects stand, and what a task declares of a region by them.
ghost use Rattle.std.specs.Prelude.{◌≡◌, ℕ, ◌≤◌, ◌++◌, List, length, map, is_none, slice_get, neg_ℤ, pos, ◌≤ℤ◌, ◌<ℤ◌, ◌+ℤ◌, IfOk, OnOk};
ghost use Rattle.rv_assembler.specs.Reading.{reading_of};
ghost use Rattle.text_places.specs.Texts.{indexed};
ghost use Rattle.sentences.specs.Effects.{effect_on, effects_said, effects_behind, readings_effects, task_effects, told_of_region, bound_of, interval_bounds, moved_between, bounds_of, last_word, interval_text, effect_word, lock_operand, line_declares, by_effect, given_words, effect_text, more_effects, declared_text};
ghost use Rattle.sentences.specs.Told.{told_of, AreTold, effect_if, told_text};

use crate::claims::{family_behind, moved_for, moved_to, token_bytes};
use crate::sites::{len_of, name_of};
use crate::told::{NOTHING, Told, ToldEffects};
use dn_base::{MOST_OF_TEXT, Memory, Sequence};
use region_table::Program;
use rv_assembler::{Effect, Extent, Reading, Statement, read_line, version_line};
use src_text::{Line, Token, tokens};
use std::alloc::Global;
use text_pieces::Piece::{Bytes, Number};
use text_pieces::{push, push_decimal, push_long, push_pieces};
use text_places::TaskPlace;

/// The greatest number of lines that are told of a task.
const MOST_TOLD: usize = 3;

/// A line with an effect, and the line of the tasks behind which it stands.
#[derive(Clone, Copy)]
pub(crate) struct EffectLine {
    pub(crate) family: u32,
    pub(crate) line: u32,
    pub(crate) effect: Effect,
}

/// Indices of a region, from `low` to before `high`.
#[derive(Clone, Copy)]
pub(crate) struct Bounds {
    pub(crate) low: u32,
    pub(crate) high: u32,
}

fn push_effect_on(
    lines: &mut Sequence<EffectLine>,
    family: u32,
    line: u32,
    statement: &Statement,
) -> Result<(), Memory>
    ensures { OnOk result (lines.new ≡ lines.old ++ effect_on family line statement.now) }
{
    match *statement {
        Statement::Uses(effect) => lines.push(EffectLine {
            family,
            line,
            effect,
        }),
        _ => Ok(()),
    }
}

/// Adds the line, if it has an effect.
fn push_said(lines: &mut Sequence<EffectLine>, family: u32, reading: &Reading) -> Result<(), Memory>
    ensures { OnOk result (lines.new ≡ lines.old ++ effects_said family reading.now) }
{
    match reading {
        Reading::Bad(_) => Ok(()),
        Reading::Good(saying) => push_effect_on(lines, family, saying.line, &saying.statement),
    }
}

fn effects_among(
    alloc: Global,
    text: &[u8],
    version: u32,
    lines: &[Line],
) -> Result<Sequence<EffectLine>, Memory>
    ensures { IfOk result (λ effects. effects ≡ effects_behind 0 (map (reading_of version text.now) lines.now)) }
{
    let mut effects = Sequence::new(alloc);
    let mut family = 0;
    for line in lines {
        let reading = read_line(version, text, line);
        push_said(&mut effects, family, &reading)?;
        family = family_behind(family, &reading);
    }
    Ok(effects)
}

#[tactic(auto, unfolding(crate::specs::Effects::readings_effects))]
fn effects_of(alloc: Global, text: &[u8]) -> Result<Sequence<EffectLine>, Memory>
    requires { length text.now ≤ MOST_OF_TEXT }
    ensures { IfOk result (λ effects. effects ≡ readings_effects text.now) }
{
    let tokenized = tokens(alloc, text)?;
    let lines = tokenized.as_slice();
    effects_among(alloc, text, version_line(text, lines), lines)
}

/// The lines of a text that have effects.
pub(crate) fn effect_lines(alloc: Global, text: &[u8]) -> Result<Sequence<EffectLine>, Memory>
    ensures { IfOk result (λ effects. effects ≡ task_effects text.now) }
{
    if MOST_OF_TEXT < text.len() {
        return Ok(Sequence::new(alloc));
    }
    effects_of(alloc, text)
}

fn bound_of(bound: i128) -> u32
    ensures { result ≡ bound_of bound }
{
    if bound < 0 {
        0
    } else if 65536 < bound {
        65537
    } else {
        bound as u32
    }
}

fn between(lo: i128, hi: i128) -> Bounds
    ensures { result ≡ interval_bounds lo hi }
{
    Bounds {
        low: bound_of(lo),
        high: bound_of(hi),
    }
}

fn moved_between(lo: i64, hi: i64, moved: i128) -> Bounds
    ensures { result ≡ moved_between lo hi moved }
{
    if -65536 <= moved && moved < 65537 {
        between(moved_to(lo, moved), moved_to(hi, moved))
    } else {
        Bounds { low: 0, high: 0 }
    }
}

/// The indices that an effect gives to the family's task of this number, in a region of so many words.
fn bounds_of(extent: Extent, part: u32, len: u32) -> Bounds
    ensures { result ≡ bounds_of extent part len }
{
    match extent {
        Extent::Whole => Bounds { low: 0, high: len },
        Extent::Part { lo, hi } => between(i128::from(lo), i128::from(hi)),
        Extent::Stepped { lo, hi, step } => moved_between(lo, hi, moved_for(part, step)),
    }
}

#[tactic(auto, unfolding(text_places::specs::Texts::indexed))]
fn push_indexed(out: &mut Vec<u8>, name: &[u8], index: u32) -> Result<(), Memory>
    ensures { OnOk result (out.new.items ≡ out.old.items ++ indexed name.now index) }
{
    push_pieces(out, &[Bytes(name), Bytes(b"["), Number(index), Bytes(b"]")])
}

#[tactic(auto, unfolding(crate::specs::Effects::last_word))]
fn push_last_word(out: &mut Vec<u8>, name: &[u8], bounds: Bounds) -> Result<(), Memory>
    ensures { OnOk result (out.new.items ≡ out.old.items ++ last_word name.now bounds) }
{
    if bounds.high.saturating_sub(bounds.low) == 1 {
        return Ok(());
    }
    push(out, b" to ")?;
    push_indexed(out, name, bounds.high.saturating_sub(1))
}

/// Adds the first and the last word of some indices.
#[tactic(auto, unfolding(crate::specs::Effects::interval_text))]
fn push_interval(out: &mut Vec<u8>, name: &[u8], bounds: Bounds) -> Result<(), Memory>
    ensures { OnOk result (out.new.items ≡ out.old.items ++ interval_text name.now bounds) }
{
    push_indexed(out, name, bounds.low)?;
    push_last_word(out, name, bounds)
}

/// The word of an effect.
fn effect_word(writes: bool, is_plain: bool) -> &'static [u8]
    ensures { result.now ≡ effect_word writes is_plain }
{
    match (writes, is_plain) {
        (false, true) => b".reads",
        (true, true) => b".writes",
        (false, false) => b".greads",
        (true, false) => b".gwrites",
    }
}

fn push_lock_operand(out: &mut Vec<u8>, text: &[u8], lock: Option<Token>) -> Result<(), Memory>
    ensures { OnOk result (out.new.items ≡ out.old.items ++ lock_operand text.now lock) }
{
    match lock {
        Some(token) => {
            push(out, b" ")?;
            push(out, token_bytes(text, token))
        }
        None => Ok(()),
    }
}

#[tactic(auto, unfolding(crate::specs::Effects::line_declares))]
fn push_line_declares(out: &mut Vec<u8>, line: u32) -> Result<(), Memory>
    ensures { OnOk result (out.new.items ≡ out.old.items ++ line_declares line) }
{
    push(out, b"  For this task, line ")?;
    push_decimal(out, line)?;
    push(out, b" declares ")
}

/// Adds by which effect words are declared.
#[tactic(auto, unfolding(crate::specs::Effects::by_effect))]
fn push_by_effect(out: &mut Vec<u8>, text: &[u8], effect: Effect) -> Result<(), Memory>
    ensures { OnOk result (out.new.items ≡ out.old.items ++ by_effect text.now effect) }
{
    push(out, b" by `")?;
    push(out, effect_word(effect.writes, effect.lock.is_none()))?;
    push_lock_operand(out, text, effect.lock)?;
    push(out, b"`.\n")
}

/// Adds the words of the region that an effect gives a task.
fn push_given_words(
    out: &mut Vec<u8>,
    program: &Program,
    task: TaskPlace,
    region: usize,
    effect: Effect,
) -> Result<(), Memory>
    ensures { OnOk result (out.new.items ≡ out.old.items ++ given_words program.now task region effect) }
{
    let regions = program.regions.as_slice();
    let bounds = bounds_of(effect.extent, task.part, len_of(regions, region));
    push_interval(out, name_of(regions, region), bounds)
}

/// Adds what a line declares for a task.
#[tactic(auto, unfolding(crate::specs::Effects::effect_text))]
fn push_effect(
    out: &mut Vec<u8>,
    text: &[u8],
    program: &Program,
    task: TaskPlace,
    region: usize,
    line: EffectLine,
) -> Result<(), Memory>
    ensures { OnOk result (out.new.items ≡ out.old.items ++ effect_text text.now program.now task region line) }
{
    push_line_declares(out, line.line)?;
    push_given_words(out, program, task, region, line.effect)?;
    push_by_effect(out, text, line.effect)
}

fn push_effect_if(
    out: &mut Vec<u8>,
    text: &[u8],
    program: &Program,
    task: TaskPlace,
    region: usize,
    line: Option<EffectLine>,
) -> Result<(), Memory>
    ensures { OnOk result (out.new.items ≡ out.old.items ++ effect_if text.now program.now task region line) }
{
    match line {
        Some(line) => push_effect(out, text, program, task, region, line),
        None => Ok(()),
    }
}

#[tactic(auto, unfolding(crate::specs::Effects::more_effects))]
fn push_more_effects(out: &mut Vec<u8>, number: usize) -> Result<(), Memory>
    ensures { OnOk result (out.new.items ≡ out.old.items ++ more_effects number) }
{
    if number == 0 {
        return Ok(());
    }
    push(out, b"  and ")?;
    push_long(out, number as u64)?;
    push(out, b" more\n")
}

/// Adds the lines that are told, and how many more there are.
fn push_told(
    out: &mut Vec<u8>,
    text: &[u8],
    program: &Program,
    task: TaskPlace,
    region: usize,
    told: Told,
) -> Result<(), Memory>
    ensures { OnOk result (out.new.items ≡ out.old.items ++ told_text text.now program.now task region told) }
{
    push_effect_if(out, text, program, task, region, told.first)?;
    push_effect_if(out, text, program, task, region, told.second)?;
    push_effect_if(out, text, program, task, region, told.third)?;
    push_more_effects(out, told.count.saturating_sub(MOST_TOLD))
}

/// What is told of the effects of a task on the region of this number.
fn told_of_region<'a>(
    program: &'a Program,
    task: TaskPlace,
    region: usize,
    effects: &ToldEffects<'a>,
) -> Told
    ensures { (text : List ℕ) → AreTold text effects.now → result ≡ told_of (told_of_region text program.now task region) }
{
    match program.regions.get(region) {
        Some(found) => effects.effects_of_family(task.line, found.name.bytes()),
        None => NOTHING,
    }
}

/// Adds what a task declares of the region of this number.
pub(crate) fn push_declared_effects<'a>(
    out: &mut Vec<u8>,
    text: &[u8],
    program: &'a Program,
    task: Option<TaskPlace>,
    region: usize,
    effects: &ToldEffects<'a>,
) -> Result<(), Memory>
    requires { AreTold text.now effects.now }
    ensures { OnOk result (out.new.items ≡ out.old.items ++ declared_text text.now program.now task region) }
{
    match task {
        Some(task) => {
            let told = told_of_region(program, task, region, effects);
            push_told(out, text, program, task, region, told)
        }
        None => Ok(()),
    }
}
