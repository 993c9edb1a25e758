//! The table of a run beside lists of sharers.
ghost use Rattle.std.specs.Prelude.{◌≡◌, ◌++◌, flat_map, OnOk};
ghost use Rattle.std.specs.List.{range_with_len};
ghost use Rattle.run_account.specs.Forms.{group_cells, row_cells, groups_row, list_row_text, lists_table_text};

use crate::columns::{push_group, push_left, push_right, push_tally};
use crate::list_row::ListRow;
use crate::names::{grouping_name, row_name, rows_beside_lists};
use crate::{AccountTable, Grouping};
use dn_base::Memory;
use region_table::Program;
use text_pieces::push;

/// Adds the heads of a group's two columns.
fn push_heads(
    out: &mut Vec<u8>,
    program: &Program,
    by: Grouping,
    group: usize,
) -> Result<(), Memory>
    ensures { OnOk result (out.new.items ≡ out.old.items ++ group_cells program.now by group) }
{
    push_group(out, program, by, group)?;
    push_right(out, b"lists")
}

/// Adds the heads of the columns of this many groups.
fn push_all_heads(
    out: &mut Vec<u8>,
    program: &Program,
    by: Grouping,
    groups: usize,
) -> Result<(), Memory>
    ensures { OnOk result (out.new.items ≡ out.old.items ++ flat_map (group_cells program.now by) (range_with_len 0 groups)) }
{
    for group in 0..groups {
        push_heads(out, program, by, group)?;
    }
    Ok(())
}

/// Adds a row's two cells of a group.
fn push_cells(
    out: &mut Vec<u8>,
    table: &AccountTable,
    row: ListRow,
    group: usize,
) -> Result<(), Memory>
    ensures { OnOk result (out.new.items ≡ out.old.items ++ row_cells table.now row group) }
{
    match row {
        ListRow::Pair { here, lists } => {
            push_tally(out, table, here, group)?;
            push_tally(out, table, lists, group)
        }
        ListRow::Single(measure) => {
            push_right(out, b"")?;
            push_tally(out, table, measure, group)
        }
    }
}

/// Adds a row's cells of this many groups.
fn push_all_cells(
    out: &mut Vec<u8>,
    table: &AccountTable,
    row: ListRow,
    groups: usize,
) -> Result<(), Memory>
    ensures { OnOk result (out.new.items ≡ out.old.items ++ flat_map (row_cells table.now row) (range_with_len 0 groups)) }
{
    for group in 0..groups {
        push_cells(out, table, row, group)?;
    }
    Ok(())
}

#[tactic(auto, unfolding(crate::specs::Forms::groups_row))]
fn push_head(out: &mut Vec<u8>, program: &Program, table: &AccountTable) -> Result<(), Memory>
    ensures { OnOk result (out.new.items ≡ out.old.items ++ groups_row program.now table.now) }
{
    push_left(out, grouping_name(table.by()))?;
    push_all_heads(out, program, table.by(), table.groups())?;
    push(out, b"\n")
}

#[tactic(auto, unfolding(crate::specs::Forms::list_row_text))]
fn push_row(out: &mut Vec<u8>, table: &AccountTable, row: ListRow) -> Result<(), Memory>
    ensures { OnOk result (out.new.items ≡ out.old.items ++ list_row_text table.now row) }
{
    push_left(out, row_name(row))?;
    push_all_cells(out, table, row, table.groups())?;
    push(out, b"\n")
}

/// Adds these rows.
fn push_rows(out: &mut Vec<u8>, table: &AccountTable, rows: &[ListRow]) -> Result<(), Memory>
    ensures { OnOk result (out.new.items ≡ out.old.items ++ flat_map (list_row_text table.now) rows.now) }
{
    for row in rows {
        push_row(out, table, *row)?;
    }
    Ok(())
}

/// Adds the table.
#[tactic(auto, unfolding(crate::specs::Forms::lists_table_text))]
pub(crate) fn push_lists_table(
    out: &mut Vec<u8>,
    program: &Program,
    table: &AccountTable,
) -> Result<(), Memory>
    ensures { OnOk result (out.new.items ≡ out.old.items ++ lists_table_text program.now table.now) }
{
    push_head(out, program, table)?;
    push_rows(out, table, &rows_beside_lists())
}
