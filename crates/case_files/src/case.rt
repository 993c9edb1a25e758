ghost use Rattle.std.specs.Prelude.{◌<◌};

use crate::block::{copies, push_copies, push_grants, push_line};
use crate::event_kinds::{counts, push_counts};
use crate::numeral::{bytes, exit_code, number, numbers, positive};
use crate::script::{ScriptLine, script_line};
use crate::section::is_silent;
use crate::texts::{Texts, push_string};
use crate::trouble::{BadForm, Trouble};
use dn_base::{Memory, Sequence, TextSource, VecSink};
use std::alloc::{AllocError, Global};
use std::mem;

/// What the program is given, and what it has to answer.
#[derive(Drop)]
pub struct Case {
    /// The arguments.
    pub words: Vec<String>,
    /// What the source holds.
    pub text: Vec<u8>,
    /// How many bytes a read gives at most.
    pub per_read: u32,
    /// The numbers of the reads that fail.
    pub failing_reads: Vec<u32>,
    /// How many bytes the sink has room for.
    pub room: u32,
    /// How many bytes a write takes at most.
    pub per_write: u32,
    /// The numbers of the writes and flushes that fail.
    pub failing_writes: Vec<u32>,
    /// The events that the machine makes instead of a run, if they are given.
    pub script: Option<Vec<ScriptLine>>,
    /// The exit code.
    pub exit: u8,
    /// The parts of the output, between which any lines may stand.
    pub output: Vec<Sequence<u8>>,
    ghost reads_some: { 0 < per_read },
    ghost writes_some: { 0 < per_write },
}

/// What a case's lines add to.
#[derive(Clone, Copy)]
enum Open {
    Nothing,
    Text,
    Output,
    Script,
}

/// A case of which some lines were read.
#[derive(Drop)]
pub struct Draft {
    case: Case,
    /// The keywords that were given, each of which stands once.
    given: Vec<String>,
    open: Open,
    /// The part of the text or output that is open.
    part: Vec<u8>,
    /// How many lines were taken.
    lines: usize,
    alloc: Global,
}

impl Case {
    /// A case without words and text that wants no output.
    fn new(alloc: Global) -> Case {
        Case {
            words: Vec::new(alloc),
            text: Vec::new(alloc),
            per_read: 4_096,
            failing_reads: Vec::new(alloc),
            room: 4_194_304,
            per_write: 4_096,
            failing_writes: Vec::new(alloc),
            script: None,
            exit: 0,
            output: Vec::new(alloc),
        }
    }

    /// Sets the words, the exit code, or what the source or the sink does.
    fn set(&mut self, alloc: Global, keyword: &str, rest: &str) -> Result<(), Trouble> {
        match keyword {
            "words" => self.words = words(alloc, rest)?,
            "failing-reads" => self.failing_reads = numbers(alloc, rest)?,
            "failing-writes" => self.failing_writes = numbers(alloc, rest)?,
            _ => return self.set_number(keyword, rest),
        }
        Ok(())
    }

    /// Sets a number.
    fn set_number(&mut self, keyword: &str, rest: &str) -> Result<(), Trouble> {
        match keyword {
            "exit" => self.exit = exit_code(rest)?,
            "reads" => self.per_read = positive(rest)?,
            "writes" => self.per_write = positive(rest)?,
            "room" => self.room = number(rest)?,
            _ => return Err(Trouble::Form(BadForm::NoKeyword)),
        }
        Ok(())
    }

    /// What the program reads.
    pub fn source(&self, alloc: Global) -> Result<TextSource, Memory> {
        let (text, failing) = (self.text.as_slice(), self.failing_reads.as_slice());
        TextSource::new(alloc, text, self.per_read, failing)
    }

    /// What the program writes to.
    pub fn sink(&self, alloc: Global) -> Result<VecSink, Memory> {
        let failing = self.failing_writes.as_slice();
        VecSink::new(alloc, self.room, self.per_write, failing)
    }
}

impl Draft {
    /// A case of no lines.
    pub fn new(alloc: Global) -> Draft {
        Draft {
            case: Case::new(alloc),
            given: Vec::new(alloc),
            open: Open::Nothing,
            part: Vec::new(alloc),
            lines: 0,
            alloc,
        }
    }

    /// Takes the next line.
    pub fn take(&mut self, texts: &Texts, line: &str) -> Result<(), Trouble> {
        let place = self.lines;
        self.lines = place.saturating_add(1);
        if is_silent(line) {
            return Ok(());
        }
        match line.strip_prefix("  ") {
            Some(content) => self.take_content(place, content),
            None => self.take_keyword(texts, line),
        }
    }

    /// Takes a line that begins with a keyword.
    fn take_keyword(&mut self, texts: &Texts, line: &str) -> Result<(), Trouble> {
        let (keyword, rest) = line.split_once(' ').unwrap_or((line, ""));
        match keyword {
            "repeat" | "part" | "bytes" | "times" | "front" | "grants" | "counts" | "..." => {
                self.add(keyword, rest)
            }
            _ => self.begin(texts, keyword, rest),
        }
    }

    /// Ends what is open, and takes what stands once in a case.
    fn begin(&mut self, texts: &Texts, keyword: &str, rest: &str) -> Result<(), Trouble> {
        self.close()?;
        self.give(keyword)?;
        self.set(texts, keyword, rest)
    }

    /// Takes a line of a text, an output or a script.
    fn take_content(&mut self, place: usize, content: &str) -> Result<(), Trouble> {
        match &mut self.case.script {
            Some(script) if self.open == Open::Script => {
                script.push(script_line(self.alloc, place, content)?)?;
            }
            _ => {
                self.is_open()?;
                push_line(&mut self.part, content)?;
            }
        }
        Ok(())
    }

    /// Notes a keyword, which wasn't given before.
    fn give(&mut self, keyword: &str) -> Result<(), Trouble> {
        if self.has(keyword) {
            return Err(Trouble::Form(BadForm::Twice));
        }
        Ok(push_string(self.alloc, &mut self.given, keyword)?)
    }

    /// Whether a keyword was given.
    fn has(&self, keyword: &str) -> bool {
        self.given.iter().any(|word| word.as_str() == keyword)
    }

    /// That a text or an output is open.
    fn is_open(&self) -> Result<(), Trouble> {
        match self.open {
            Open::Text | Open::Output => Ok(()),
            Open::Nothing | Open::Script => Err(Trouble::Form(BadForm::NoBlock)),
        }
    }

    /// Ends the text or output that is open.
    fn close(&mut self) -> Result<(), Trouble> {
        let part = mem::replace(&mut self.part, Vec::new(self.alloc));
        match self.open {
            Open::Nothing | Open::Script => {}
            Open::Text => self.case.text = part,
            Open::Output => self.case.output.push(Sequence::from_vec(part))?,
        }
        self.open = Open::Nothing;
        Ok(())
    }

    /// Adds to the text or output that is open.
    fn add(&mut self, keyword: &str, rest: &str) -> Result<(), Trouble> {
        self.is_open()?;
        match keyword {
            "times" => self.repeat_all(number(rest)?),
            "front" => self.cut(number(rest)?),
            "..." => self.leave_out(),
            _ => push_piece(self.alloc, &mut self.part, keyword, rest),
        }
    }

    /// Repeats all lines so far.
    fn repeat_all(&mut self, count: u32) -> Result<(), Trouble> {
        self.part = copies(self.alloc, self.part.as_slice(), count)?;
        Ok(())
    }

    /// Keeps only the first bytes.
    fn cut(&mut self, length: u32) -> Result<(), Trouble> {
        if self.part.len() < length as usize {
            return Err(Trouble::Form(BadForm::Short));
        }
        self.part.truncate(length as usize);
        Ok(())
    }

    /// Ends a part of the output, after which any lines may stand.
    fn leave_out(&mut self) -> Result<(), Trouble> {
        if self.open != Open::Output {
            return Err(Trouble::Form(BadForm::NoGap));
        }
        self.close()?;
        self.open = Open::Output;
        Ok(())
    }

    /// Sets what stands once in a case.
    fn set(&mut self, texts: &Texts, keyword: &str, rest: &str) -> Result<(), Trouble> {
        match keyword {
            "text" => {
                self.open = Open::Text;
                self.begin_with(texts, rest)
            }
            "output" => {
                self.open = Open::Output;
                self.begin_with(texts, rest)
            }
            "script" if rest.is_empty() => {
                self.open = Open::Script;
                self.case.script = Some(Vec::new(self.alloc));
                Ok(())
            }
            _ => self.case.set(self.alloc, keyword, rest),
        }
    }

    /// Begins with nothing, or with the bytes of a file or of the text of an earlier case.
    fn begin_with(&mut self, texts: &Texts, rest: &str) -> Result<(), Trouble> {
        if rest.is_empty() {
            return Ok(());
        }
        let Some(name) = rest.strip_prefix("as ") else {
            return Err(Trouble::Form(BadForm::NoKeyword));
        };
        match texts.find(name) {
            Some(text) => self.part.extend_from_slice(text)?,
            None => return Err(Trouble::Form(BadForm::UnknownText)),
        }
        Ok(())
    }

    /// The case of the lines that were taken.
    pub fn finish(mut self) -> Result<Case, Trouble> {
        self.close()?;
        if !self.has("exit") {
            return Err(Trouble::Form(BadForm::NoExit));
        }
        if !self.has("output") {
            return Err(Trouble::Form(BadForm::NoOutput));
        }
        Ok(self.case)
    }
}

/// Adds what a line says that isn't itself a line of the text or output.
fn push_piece(alloc: Global, out: &mut Vec<u8>, keyword: &str, rest: &str) -> Result<(), Trouble> {
    match keyword {
        "repeat" => push_repeated(alloc, out, rest),
        "bytes" => push_bytes(alloc, out, rest),
        "grants" => Ok(push_grants(alloc, out, rest)?),
        "counts" => Ok(push_counts(alloc, out, &counts(rest)?)?),
        _ => Ok(out.extend_from_slice(rest.as_bytes())?),
    }
}

/// Adds the bytes that are given as numbers.
fn push_bytes(alloc: Global, out: &mut Vec<u8>, text: &str) -> Result<(), Trouble> {
    let bytes = bytes(alloc, text)?;
    out.extend_from_slice(bytes.as_slice())?;
    Ok(())
}

/// Adds copies of a line, which stands after their number.
fn push_repeated(alloc: Global, out: &mut Vec<u8>, text: &str) -> Result<(), Trouble> {
    let (count, line) = text.split_once(' ').unwrap_or((text, ""));
    push_copies(alloc, out, number(count)?, line)?;
    Ok(())
}

/// Words with blanks between them.
fn words(alloc: Global, text: &str) -> Result<Vec<String>, AllocError> {
    let mut all = Vec::new(alloc);
    for word in text.split_whitespace() {
        push_string(alloc, &mut all, word)?;
    }
    Ok(all)
}
