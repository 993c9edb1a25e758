use crate::trouble::BadForm;
use std::alloc::{AllocError, Global};

/// The lines of a case, or those before the first case.
#[derive(Drop)]
pub struct Section<'a> {
    /// The number of the first line.
    pub first: usize,
    /// What follows the word `case` on the first line, if it begins a case.
    head: Option<&'a str>,
    /// All lines, without one that begins a case.
    pub lines: Vec<&'a str>,
}

/// What follows a keyword on a line that begins with it.
pub fn behind<'a>(line: &'a str, keyword: &str) -> Option<&'a str> {
    match line.strip_prefix(keyword) {
        Some("") => Some(""),
        Some(rest) => rest.strip_prefix(" "),
        None => None,
    }
}

/// Whether a line says nothing.
pub fn is_silent(line: &str) -> bool {
    line.is_empty() || line.starts_with('#')
}

/// Whether no line says anything.
pub fn are_silent(lines: &[&str]) -> bool {
    lines.iter().all(|line| is_silent(line))
}

impl<'a> Section<'a> {
    /// A section of no lines so far.
    fn new(alloc: Global, first: usize, head: Option<&'a str>) -> Section<'a> {
        Section {
            first,
            head,
            lines: Vec::new(alloc),
        }
    }

    /// The name of the section's case. The lines before the first case have none, and say nothing.
    pub fn case_name(&self) -> Result<Option<&'a str>, BadForm> {
        match self.head {
            Some("") => Err(BadForm::NoName),
            Some(name) => Ok(Some(name)),
            None if are_silent(self.lines.as_slice()) => Ok(None),
            None => Err(BadForm::NoKeyword),
        }
    }
}

/// Adds a line to the last section, or begins one where it begins a case.
fn add_line<'a>(
    alloc: Global,
    sections: &mut Vec<Section<'a>>,
    number: usize,
    line: &'a str,
) -> Result<(), AllocError> {
    if let Some(name) = behind(line, "case") {
        sections.push(Section::new(alloc, number, Some(name)))?;
    } else if let Some(open) = sections.last_mut() {
        open.lines.push(line)?;
    }
    Ok(())
}

/// A text cut before each line that begins a case. The first section has the lines before the first case.
pub fn sections(alloc: Global, text: &str) -> Result<Vec<Section<'_>>, AllocError> {
    let mut all = Vec::new(alloc);
    all.push(Section::new(alloc, 1, None))?;
    for (index, line) in text.split('\n').enumerate() {
        add_line(alloc, &mut all, index.saturating_add(1), line)?;
    }
    Ok(all)
}
