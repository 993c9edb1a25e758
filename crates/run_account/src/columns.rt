ghost use Rattle.std.specs.Prelude.{◌≡◌, ◌++◌, replicate, flat_map, OnOk};
ghost use Rattle.std.specs.List.{range_with_len};
ghost use Rattle.std.specs.Fmt.{decimal};
ghost use Rattle.run_account.specs.Forms.{left_cell, right_cell, name_cell, tally_cell, names_row, tallies_row, table_text};

use crate::names::{grouping_name, measure_name, measures, region_bytes};
use crate::{AccountTable, Grouping, Measure};
use dn_base::Memory;
use itoa::Buffer;
use region_table::Program;
use text_pieces::push;

/// Adds this many spaces.
fn push_spaces(out: &mut Vec<u8>, count: usize) -> Result<(), Memory>
    ensures { OnOk result (out.new.items ≡ out.old.items ++ replicate count 32) }
{
    for space in 0..count {
        out.push(b' ')?;
    }
    Ok(())
}

#[tactic(auto, unfolding(crate::specs::Forms::left_cell))]
pub(crate) fn push_left(out: &mut Vec<u8>, text: &[u8]) -> Result<(), Memory>
    ensures { OnOk result (out.new.items ≡ out.old.items ++ left_cell text.now) }
{
    push(out, text)?;
    push_spaces(out, 22usize.saturating_sub(text.len()))
}

#[tactic(auto, unfolding(crate::specs::Forms::right_cell))]
pub(crate) fn push_right(out: &mut Vec<u8>, text: &[u8]) -> Result<(), Memory>
    ensures { OnOk result (out.new.items ≡ out.old.items ++ right_cell text.now) }
{
    push(out, b" ")?;
    push_spaces(out, 11usize.saturating_sub(text.len()))?;
    push(out, text)
}

/// Adds a number's cell.
pub(crate) fn push_number(out: &mut Vec<u8>, number: u64) -> Result<(), Memory>
    ensures { OnOk result (out.new.items ≡ out.old.items ++ right_cell (decimal number)) }
{
    let mut digits = Buffer::new();
    push_right(out, digits.format(number).as_bytes())
}

/// Adds the cell with the name of a group.
pub(crate) fn push_group(
    out: &mut Vec<u8>,
    program: &Program,
    by: Grouping,
    group: usize,
) -> Result<(), Memory>
    ensures { OnOk result (out.new.items ≡ out.old.items ++ name_cell program.now by group) }
{
    match by {
        Grouping::Run => push_right(out, b"run"),
        Grouping::Phase | Grouping::Core => push_number(out, group as u64),
        Grouping::Region => push_right(out, region_bytes(program.regions.as_slice(), group)),
    }
}

/// Adds the names of this many groups.
fn push_groups(
    out: &mut Vec<u8>,
    program: &Program,
    by: Grouping,
    groups: usize,
) -> Result<(), Memory>
    ensures { OnOk result (out.new.items ≡ out.old.items ++ flat_map (name_cell program.now by) (range_with_len 0 groups)) }
{
    for group in 0..groups {
        push_group(out, program, by, group)?;
    }
    Ok(())
}

/// Adds the number of a measure in a group.
pub(crate) fn push_tally(
    out: &mut Vec<u8>,
    table: &AccountTable,
    measure: Measure,
    group: usize,
) -> Result<(), Memory>
    ensures { OnOk result (out.new.items ≡ out.old.items ++ tally_cell table.now measure group) }
{
    push_number(out, table.number(measure, group))
}

/// Adds the numbers of a measure in this many groups.
pub(crate) fn push_numbers(
    out: &mut Vec<u8>,
    table: &AccountTable,
    measure: Measure,
    groups: usize,
) -> Result<(), Memory>
    ensures { OnOk result (out.new.items ≡ out.old.items ++ flat_map (tally_cell table.now measure) (range_with_len 0 groups)) }
{
    for group in 0..groups {
        push_tally(out, table, measure, group)?;
    }
    Ok(())
}

#[tactic(auto, unfolding(crate::specs::Forms::names_row))]
pub(crate) fn push_head(
    out: &mut Vec<u8>,
    program: &Program,
    table: &AccountTable,
) -> Result<(), Memory>
    ensures { OnOk result (out.new.items ≡ out.old.items ++ names_row program.now table.now) }
{
    push_left(out, grouping_name(table.by()))?;
    push_groups(out, program, table.by(), table.groups())?;
    push(out, b"\n")
}

#[tactic(auto, unfolding(crate::specs::Forms::tallies_row))]
fn push_row(out: &mut Vec<u8>, table: &AccountTable, measure: Measure) -> Result<(), Memory>
    ensures { OnOk result (out.new.items ≡ out.old.items ++ tallies_row table.now measure) }
{
    push_left(out, measure_name(measure))?;
    push_numbers(out, table, measure, table.groups())?;
    push(out, b"\n")
}

/// Adds the rows of these measures.
fn push_rows(out: &mut Vec<u8>, table: &AccountTable, measures: &[Measure]) -> Result<(), Memory>
    ensures { OnOk result (out.new.items ≡ out.old.items ++ flat_map (tallies_row table.now) measures.now) }
{
    for measure in measures {
        push_row(out, table, *measure)?;
    }
    Ok(())
}

/// Adds the table.
#[tactic(auto, unfolding(crate::specs::Forms::table_text))]
pub(crate) fn push_table(
    out: &mut Vec<u8>,
    program: &Program,
    table: &AccountTable,
) -> Result<(), Memory>
    ensures { OnOk result (out.new.items ≡ out.old.items ++ table_text program.now table.now) }
{
    push_head(out, program, table)?;
    push_rows(out, table, &measures())
}
