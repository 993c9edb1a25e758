use crate::numeral::{number, positive};
use crate::trouble::{BadForm, Trouble};
use dn_base::{BankId, CoreId, LoadSeen, WordId};
use message_net::{Actor, Event, MailId};
use std::alloc::Global;

/// What a line of a script says.
#[derive(Clone, Copy)]
pub enum Said {
    /// An event comes, this many times.
    Comes(Event, u32),
    /// The event before it was the retirement of this load.
    Loads(LoadSeen),
    /// A data word has this value.
    Word(WordId, u32),
}

/// A line of a script, and its index among the lines of its case.
#[derive(Clone, Copy)]
pub struct ScriptLine {
    pub place: usize,
    pub said: Said,
}

/// The words of a line.
fn words<'a>(alloc: Global, line: &'a str) -> Result<Vec<&'a str>, Trouble> {
    Ok(line.split_whitespace().collect(alloc)?)
}

/// The message that these words name: who sent it, and its number among the messages of that sender, from 0.
fn mail(words: &[&str]) -> Result<MailId, Trouble> {
    let Some((count, sender)) = words.split_last() else {
        return Err(Trouble::Form(BadForm::NoEvent));
    };
    let sender = actor(sender)?;
    let number = number(count)?;
    Ok(MailId { sender, number })
}

/// The actor that these words name.
fn actor(words: &[&str]) -> Result<Actor, Trouble> {
    match words {
        ["core", core] => Ok(Actor::Core(CoreId(number(core)?))),
        ["bank", bank] => Ok(Actor::Bank(BankId(number(bank)?))),
        ["keeper"] => Ok(Actor::Keeper),
        _ => Err(Trouble::Form(BadForm::NoEvent)),
    }
}

/// The eviction of a word by a core.
fn eviction(core: &str, word: &str) -> Result<Event, Trouble> {
    Ok(Event::Evict(CoreId(number(core)?), WordId(number(word)?)))
}

/// The event that these words name.
fn event(words: &[&str]) -> Result<Event, Trouble> {
    match words {
        ["instr", core] => Ok(Event::Instr(CoreId(number(core)?))),
        ["evict", core, word] => eviction(core, word),
        ["arrive", core] => Ok(Event::Arrive(CoreId(number(core)?))),
        ["handle", words @ ..] => Ok(Event::Handle(mail(words)?)),
        _ => Err(Trouble::Form(BadForm::NoEvent)),
    }
}

/// The load of a value from a word.
fn load(word: &str, value: &str) -> Result<Said, Trouble> {
    let word = WordId(number(word)?);
    let value = number(value)?;
    Ok(Said::Loads(LoadSeen { word, value }))
}

/// The value of a word.
fn word_value(word: &str, value: &str) -> Result<Said, Trouble> {
    Ok(Said::Word(WordId(number(word)?), number(value)?))
}

/// The event that these words name, this many times.
fn times(words: &[&str], count: &str) -> Result<Said, Trouble> {
    Ok(Said::Comes(event(words)?, positive(count)?))
}

/// What these words say.
fn say(words: &[&str]) -> Result<Said, Trouble> {
    match words {
        ["loads", word, value] => load(word, value),
        ["word", word, value] => word_value(word, value),
        [front @ .., "times", count] => times(front, count),
        _ => Ok(Said::Comes(event(words)?, 1)),
    }
}

/// The line of a script at an index.
pub fn script_line(alloc: Global, place: usize, line: &str) -> Result<ScriptLine, Trouble> {
    let said = say(words(alloc, line)?.as_slice())?;
    Ok(ScriptLine { place, said })
}
