use crate::case::{Case, Draft};
use crate::row::{fill, rows};
use crate::section::{Section, behind, sections};
use crate::texts::{Named, Texts};
use crate::trouble::{BadForm, Stop, Trouble};
use dn_base::Memory;
use std::alloc::{AllocError, Global};
use std::str;

/// What is done with the cases of the files.
pub trait CaseRunner {
    /// A condition on the types with which a case is run, such as that threads may share them.
    ghost can_run: { Type 0 };

    /// Runs a case, which the label names by its file, its line, its name and its columns.
    fn run(&mut self, alloc: Global, label: &str, case: &Case) -> Result<(), Stop>
        requires { can_run };

    /// Notes that a line of a file isn't of the required form.
    fn refuse(
        &mut self,
        alloc: Global,
        file: &str,
        line: usize,
        why: BadForm,
    ) -> Result<(), Memory>;
}

/// Where a case stands: its file, the number of its first line, and its name.
#[derive(Clone, Copy)]
struct CasePosition<'a> {
    file: &'a str,
    first: usize,
    name: &'a str,
}

/// The walk over the cases: who runs them, and the texts that they may begin with.
#[derive(Drop)]
struct Walk<'a, C: CaseRunner> {
    runner: &'a mut C,
    texts: Texts,
    alloc: Global,
}

/// The bytes of these files, as texts that a case may begin with.
fn texts_of(alloc: Global, files: &[Named]) -> Result<Texts, Memory> {
    let mut texts = Texts::new(alloc);
    for file in files {
        texts.add(alloc, file.name.as_str(), file.bytes.as_slice())?;
    }
    Ok(texts)
}

/// Runs the cases of all files whose names end in `.cases`.
pub fn run_all<C: CaseRunner>(alloc: Global, files: &[Named], runner: &mut C) -> Result<(), Memory>
    requires { C.can_run }
{
    let texts = texts_of(alloc, files)?;
    let mut walk = Walk {
        runner,
        texts,
        alloc,
    };
    for file in files {
        if file.name.ends_with(".cases") {
            walk.run_file(file)?;
        }
    }
    Ok(())
}

impl<C: CaseRunner> Walk<'_, C> {
    /// Notes that a line isn't of the required form.
    fn refuse(&mut self, file: &str, line: usize, why: BadForm) -> Result<(), Memory> {
        self.runner.refuse(self.alloc, file, line, why)
    }

    /// Runs the cases of a file.
    fn run_file(&mut self, file: &Named) -> Result<(), Memory>
        requires { C.can_run }
    {
        let name = file.name.as_str();
        match str::from_utf8(file.bytes.as_slice()) {
            Ok(text) => {
                let sections = sections(self.alloc, text)?;
                self.run_sections(name, sections.as_slice())
            }
            Err(_) => self.refuse(name, 0, BadForm::NoText),
        }
    }

    /// Runs the cases of these sections of a file.
    fn run_sections(&mut self, file: &str, sections: &[Section<'_>]) -> Result<(), Memory>
        requires { C.can_run }
    {
        for section in sections {
            self.run_section(file, section)?;
        }
        Ok(())
    }

    /// Runs the case of a section, once or for each of its rows. A section without a case is skipped.
    fn run_section(&mut self, file: &str, section: &Section<'_>) -> Result<(), Memory>
        requires { C.can_run }
    {
        let first = section.first;
        match self.new_name(section) {
            Ok(Some(name)) => self.run_rows(
                &CasePosition { file, first, name },
                section.lines.as_slice(),
            ),
            Ok(None) => Ok(()),
            Err(why) => self.refuse(file, first, why),
        }
    }

    /// The name of a section's case, which no text has so far. A section without a case has none.
    fn new_name<'s>(&self, section: &Section<'s>) -> Result<Option<&'s str>, BadForm> {
        match section.case_name()? {
            Some(name) if self.texts.find(name).is_some() => Err(BadForm::TakenName),
            name => Ok(name),
        }
    }

    /// Runs a case once or for each of its rows. Its text is known from then on; of rows it is the last one's.
    fn run_rows(&mut self, position: &CasePosition<'_>, lines: &[&str]) -> Result<(), Memory>
        requires { C.can_run }
    {
        let (lines, rest) = split_rows(lines);
        match rows(self.alloc, rest) {
            Ok(rows) => self.run_each(position, lines, rows.as_slice()),
            Err(why) => {
                let place = lines.len();
                self.note(position, Stop { place, why })?;
                self.add_text(position, &[])
            }
        }
    }

    /// Adds the text of a case.
    fn add_text(&mut self, position: &CasePosition<'_>, text: &[u8]) -> Result<(), Memory> {
        Ok(self.texts.add(self.alloc, position.name, text)?)
    }

    /// Runs a case for each of these rows, and adds the last one's text.
    fn run_each(
        &mut self,
        position: &CasePosition<'_>,
        lines: &[&str],
        rows: &[Vec<String>],
    ) -> Result<(), Memory>
        requires { C.can_run }
    {
        let mut text = Vec::new(self.alloc);
        for row in rows {
            text = self.run_case(position, lines, row.as_slice())?;
        }
        self.add_text(position, text.as_slice())
    }

    /// Runs a case with these columns, and gives its text.
    fn run_case(
        &mut self,
        position: &CasePosition<'_>,
        lines: &[&str],
        row: &[String],
    ) -> Result<Vec<u8>, Memory>
        requires { C.can_run }
    {
        let case = match read_case(self.alloc, lines, row, &self.texts) {
            Ok(case) => case,
            Err(stop) => {
                self.note(position, stop)?;
                return Ok(Vec::new(self.alloc));
            }
        };
        self.run_read(position, row, &case)?;
        Ok(case.text)
    }

    /// Runs a case that was read with these columns.
    fn run_read(
        &mut self,
        position: &CasePosition<'_>,
        row: &[String],
        case: &Case,
    ) -> Result<(), Memory>
        requires { C.can_run }
    {
        let label = label(self.alloc, position, row)?;
        match self.runner.run(self.alloc, label.as_str(), case) {
            Ok(()) => Ok(()),
            Err(stop) => self.note(position, stop),
        }
    }

    /// Notes that a case wasn't run to its end.
    fn note(&mut self, position: &CasePosition<'_>, stop: Stop) -> Result<(), Memory> {
        match stop.why {
            Trouble::Form(why) => {
                let line = position.first.saturating_add(stop.place).saturating_add(1);
                self.refuse(position.file, line, why)
            }
            Trouble::Memory => Err(Memory),
        }
    }
}

/// The case of these lines, with these columns filled in.
fn read_case(alloc: Global, lines: &[&str], row: &[String], texts: &Texts) -> Result<Case, Stop> {
    let mut draft = Draft::new(alloc);
    for (place, line) in lines.iter().enumerate() {
        if let Err(why) = take_filled(alloc, &mut draft, line, row, texts) {
            return Err(Stop { place, why });
        }
    }
    match draft.finish() {
        Ok(case) => Ok(case),
        Err(why) => Err(Stop {
            place: lines.len().saturating_sub(1),
            why,
        }),
    }
}

/// Takes a line, with these columns filled in where there are any.
fn take_filled(
    alloc: Global,
    draft: &mut Draft,
    line: &str,
    row: &[String],
    texts: &Texts,
) -> Result<(), Trouble> {
    if row.is_empty() {
        return draft.take(texts, line);
    }
    let line = fill(alloc, line, row)?;
    draft.take(texts, line.as_str())
}

/// What a case is called in the report: its file, its line and its name, and its columns.
fn label(alloc: Global, position: &CasePosition<'_>, row: &[String]) -> Result<String, Memory> {
    let CasePosition { file, first, name } = *position;
    let mut out = format!(in alloc; "{file}:{first}: {name}")?;
    push_columns(&mut out, row)?;
    Ok(out)
}

/// Adds the columns of a row to what a case is called.
fn push_columns(out: &mut String, row: &[String]) -> Result<(), AllocError> {
    for column in row {
        out.push_str(" | ")?;
        out.push_str(column.as_str())?;
    }
    Ok(())
}

/// The lines of a case, and behind them those of its rows.
fn split_rows<'a, 's>(lines: &'a [&'s str]) -> (&'a [&'s str], &'a [&'s str]) {
    let each = lines
        .iter()
        .position(|line| behind(line, "each").is_some())
        .unwrap_or(lines.len());
    lines.split_at(each)
}
