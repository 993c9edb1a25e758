ghost use Rattle.std.specs.Prelude.{◌≡◌, ◌++◌, flat_map, OnOk};
ghost use Rattle.std.specs.List.{range_with_len};
ghost use Rattle.run_account.specs.Forms.{csv_head, csv_fields, has_csv_line, csv_line, csv_lines, csv_text};
ghost use Rattle.run_account.specs.Names.{group_name};

use crate::names::{measure_name, region_bytes};
use crate::{AccountTable, Grouping, Measure};
use dn_base::Memory;
use itoa::Buffer;
use region_table::Program;
use text_pieces::{push, push_long};

#[tactic(auto, unfolding(crate::specs::Forms::csv_head))]
pub(crate) fn push_csv_head(out: &mut Vec<u8>) -> Result<(), Memory>
    ensures { OnOk result (out.new.items ≡ out.old.items ++ csv_head) }
{
    push(out, b"measure,group,count")?;
    push(out, b"\n")
}

#[tactic(auto, unfolding(crate::specs::Forms::csv_fields))]
fn push_fields(out: &mut Vec<u8>, measure: &[u8], group: &[u8], count: u64) -> Result<(), Memory>
    ensures { OnOk result (out.new.items ≡ out.old.items ++ csv_fields measure.now group.now count) }
{
    push(out, measure)?;
    push(out, b",")?;
    push(out, group)?;
    push(out, b",")?;
    push_long(out, count)?;
    push(out, b"\n")
}

/// Whether a number has a line.
pub(crate) fn has_line(by: Grouping, count: u64) -> bool
    ensures { result ≡ has_csv_line by count }
{
    match by {
        Grouping::Run | Grouping::Phase | Grouping::Core => true,
        Grouping::Region => count > 0,
    }
}

/// Adds the line of a measure, a group and a count.
pub(crate) fn push_named(
    out: &mut Vec<u8>,
    program: &Program,
    by: Grouping,
    measure: &[u8],
    group: usize,
    count: u64,
) -> Result<(), Memory>
    ensures { OnOk result (out.new.items ≡ out.old.items ++ csv_fields measure.now (group_name program.now by group) count) }
{
    let mut digits = Buffer::new();
    match by {
        Grouping::Run => push_fields(out, measure, b"run", count),
        Grouping::Phase | Grouping::Core => {
            push_fields(out, measure, digits.format(group as u64).as_bytes(), count)
        }
        Grouping::Region => {
            let name = region_bytes(program.regions.as_slice(), group);
            push_fields(out, measure, name, count)
        }
    }
}

/// Adds the line of a measure in a group, if it has one.
fn push_line(
    out: &mut Vec<u8>,
    program: &Program,
    table: &AccountTable,
    measure: Measure,
    group: usize,
) -> Result<(), Memory>
    ensures { OnOk result (out.new.items ≡ out.old.items ++ csv_line program.now table.now measure group) }
{
    let count = table.number(measure, group);
    if has_line(table.by(), count) {
        push_named(
            out,
            program,
            table.by(),
            measure_name(measure),
            group,
            count,
        )?;
    }
    Ok(())
}

/// Adds the lines of a measure in this many groups.
fn push_measure(
    out: &mut Vec<u8>,
    program: &Program,
    table: &AccountTable,
    measure: Measure,
    groups: usize,
) -> Result<(), Memory>
    ensures { OnOk result (out.new.items ≡ out.old.items ++ flat_map (csv_line program.now table.now measure) (range_with_len 0 groups)) }
{
    for group in 0..groups {
        push_line(out, program, table, measure, group)?;
    }
    Ok(())
}

/// Adds the lines of these measures.
fn push_measures(
    out: &mut Vec<u8>,
    program: &Program,
    table: &AccountTable,
    measures: &[Measure],
) -> Result<(), Memory>
    ensures { OnOk result (out.new.items ≡ out.old.items ++ flat_map (csv_lines program.now table.now) measures.now) }
{
    for measure in measures {
        push_measure(out, program, table, *measure, table.groups())?;
    }
    Ok(())
}

/// Adds the head line, and the lines of these measures.
#[tactic(auto, unfolding(crate::specs::Forms::csv_text))]
pub(crate) fn push_csv(
    out: &mut Vec<u8>,
    program: &Program,
    table: &AccountTable,
    measures: &[Measure],
) -> Result<(), Memory>
    ensures { OnOk result (out.new.items ≡ out.old.items ++ csv_text measures.now program.now table.now) }
{
    push_csv_head(out)?;
    push_measures(out, program, table, measures)
}
