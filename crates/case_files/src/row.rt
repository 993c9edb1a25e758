use crate::numeral::number;
use crate::section::{are_silent, behind, is_silent};
use crate::texts::push_string;
use crate::trouble::{BadForm, Trouble};
use std::alloc::{AllocError, Global};

/// The rows of a case, as lists of columns: a single row without columns if there are no lines.
pub fn rows(alloc: Global, lines: &[&str]) -> Result<Vec<Vec<String>>, Trouble> {
    let Some((first, others)) = lines.split_first() else {
        return one_row(alloc);
    };
    match behind(first, "each") {
        Some("") => rows_listed(alloc, others),
        Some(range) => rows_counted(alloc, range, others),
        None => Err(Trouble::Form(BadForm::NoRow)),
    }
}

/// One row of no columns.
fn one_row(alloc: Global) -> Result<Vec<Vec<String>>, Trouble> {
    let mut rows = Vec::new(alloc);
    rows.push(Vec::new(alloc))?;
    Ok(rows)
}

/// A row for each line.
fn rows_listed(alloc: Global, lines: &[&str]) -> Result<Vec<Vec<String>>, Trouble> {
    let mut rows = Vec::new(alloc);
    for line in lines {
        if !is_silent(line) {
            match line.strip_prefix("  ") {
                Some(row) => rows.push(columns(alloc, row)?)?,
                None => return Err(Trouble::Form(BadForm::NoRow)),
            }
        }
    }
    if rows.is_empty() {
        return Err(Trouble::Form(BadForm::NoRow));
    }
    Ok(rows)
}

/// The columns of a row.
fn columns(alloc: Global, row: &str) -> Result<Vec<String>, Trouble> {
    let mut columns = Vec::new(alloc);
    for column in row.split('|') {
        push_string(alloc, &mut columns, column.trim_ascii())?;
    }
    Ok(columns)
}

/// A row for each number of a range.
fn rows_counted(alloc: Global, range: &str, others: &[&str]) -> Result<Vec<Vec<String>>, Trouble> {
    let Some((from, to)) = range.split_once(" to ") else {
        return Err(Trouble::Form(BadForm::NoRow));
    };
    if !are_silent(others) {
        return Err(Trouble::Form(BadForm::NoRow));
    }
    let (from, to) = (number(from)?, number(to)?);
    if to < from {
        return Err(Trouble::Form(BadForm::NoRow));
    }
    Ok(number_rows(alloc, from, to)?)
}

/// A row for each number between these, which are the first and the last.
fn number_rows(alloc: Global, from: u32, to: u32) -> Result<Vec<Vec<String>>, AllocError> {
    let mut rows = Vec::new(alloc);
    for number in from..=to {
        rows.push(one_column(alloc, number)?)?;
    }
    Ok(rows)
}

/// A row whose one column is a number.
fn one_column(alloc: Global, number: u32) -> Result<Vec<String>, AllocError> {
    let mut columns = Vec::new(alloc);
    columns.push(number.to_string(alloc)?)?;
    Ok(columns)
}

/// A line with its columns in place of `$1`, `$2` and so on.
pub fn fill(alloc: Global, line: &str, columns: &[String]) -> Result<String, Trouble> {
    let mut out = String::new(alloc);
    let mut pieces = line.split('$');
    if let Some(front) = pieces.next() {
        out.push_str(front)?;
    }
    for piece in pieces {
        push_filled(&mut out, piece, columns)?;
    }
    Ok(out)
}

/// Adds a piece that follows a `$`; its first byte is the number of a column.
fn push_filled(out: &mut String, piece: &str, columns: &[String]) -> Result<(), Trouble> {
    let mut rest = piece.chars();
    let column = match rest.next() {
        Some(digit @ '1'..='9') => columns.get(digit as usize - '1' as usize),
        _ => None,
    };
    match column {
        Some(column) => out.push_str(column.as_str())?,
        None => return Err(Trouble::Form(BadForm::NoColumn)),
    }
    out.push_str(rest.as_str())?;
    Ok(())
}
