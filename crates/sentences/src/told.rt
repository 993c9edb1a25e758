//! The lines of effects by the tasks that they belong to and by their region.
ghost use Rattle.std.specs.Prelude.{◌≡◌, ℕ, ◌<◌, List, [], OnOk, IfOk};
ghost use Rattle.rv_assembler.specs.Operand.{bytes_of};
ghost use Rattle.sentences.specs.Told.{is_behind, told_of, found_at, told_or_none, told_by, AreToldOf, AreTold, slot, with_line, with_line_if};

use crate::effects::{EffectLine, effect_lines};
use crate::known::token_bytes;
use dn_base::Memory;
use std::alloc::Global;
use std::collections::BTreeMap;

/// The first three of some lines of effects, and how many lines there are.
#[derive(Clone, Copy)]
pub(crate) struct Told {
    pub(crate) first: Option<EffectLine>,
    pub(crate) second: Option<EffectLine>,
    pub(crate) third: Option<EffectLine>,
    pub(crate) count: usize,
}

/// What is told of no lines.
pub(crate) const NOTHING: Told = Told {
    first: None,
    second: None,
    third: None,
    count: 0,
};

fn slot(
    number: usize,
    count: usize,
    old: Option<EffectLine>,
    line: EffectLine,
) -> Option<EffectLine>
    ensures { result ≡ slot number count old line }
{
    if count == number { Some(line) } else { old }
}

impl Told {
    /// What is told of one line more.
    #[tactic(auto, unfolding(crate::specs::Told::with_line))]
    fn with_line(self, line: EffectLine) -> Told
        requires { self.count < 18446744073709551615 }
        ensures { result ≡ with_line self line }
    {
        Told {
            first: slot(0, self.count, self.first, line),
            second: slot(1, self.count, self.second, line),
            third: slot(2, self.count, self.third, line),
            count: self.count + 1,
        }
    }
}

/// What the tasks of a text declare, by the line of their family and the name of the region. So what is said of a task looks at
/// three lines at most, whatever the text declares.
#[derive(Drop)]
pub struct ToldEffects<'a> {
    pub(crate) by_task: BTreeMap<(u32, &'a [u8]), Told>,
}

impl<'a> ToldEffects<'a> {
    fn new(alloc: Global) -> ToldEffects<'a>
        ensures { (family : ℕ) (name : List ℕ) → told_by result family name ≡ told_of [] }
    {
        ToldEffects {
            by_task: BTreeMap::new(alloc),
        }
    }

    /// What is told of the effects of a family of tasks on the region of this name.
    pub(crate) fn effects_of_family(&self, family: u32, name: &'a [u8]) -> Told
        ensures { result ≡ told_by self.now family name.now }
    {
        match self.by_task.get(&(family, name)) {
            Some(told) => *told,
            None => NOTHING,
        }
    }

    /// Adds a line.
    fn add(&mut self, text: &'a [u8], line: EffectLine) -> Result<(), Memory>
        requires { (told_by self.old line.family (bytes_of text.now line.effect.region)).count < 18446744073709551615 }
        ensures { OnOk result ((family : ℕ) (name : List ℕ)
            → told_by self.new family name ≡ with_line_if (is_behind text.now family name line) (told_by self.old family name) line) }
    {
        let region = token_bytes(text, line.effect.region);
        let told = self.effects_of_family(line.family, region).with_line(line);
        self.by_task.insert((line.family, region), told)?;
        Ok(())
    }
}

fn told_among<'a>(
    alloc: Global,
    text: &'a [u8],
    effects: &[EffectLine],
) -> Result<ToldEffects<'a>, Memory>
    ensures { IfOk result (AreToldOf text.now effects.now) }
{
    let mut told = ToldEffects::new(alloc);
    for line in effects {
        told.add(text, *line)?;
    }
    Ok(told)
}

/// What the tasks of a text declare: to be found once for all that is said of them.
///
/// # Errors
/// `Memory` if there is no room.
pub fn told_effects<'a>(alloc: Global, text: &'a [u8]) -> Result<ToldEffects<'a>, Memory>
    ensures { IfOk result (AreTold text.now) }
{
    let effects = effect_lines(alloc, text)?;
    told_among(alloc, text, effects.as_slice())
}
