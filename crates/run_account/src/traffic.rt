//! The traffic of a run, as it is printed: how many messages of each kind, and how many bytes.
ghost use Rattle.std.specs.Prelude.{◌≡◌, ◌++◌, [], ◌∷◌, flat_map, IfOk, OnOk};
ghost use Rattle.std.specs.List.{range_with_len};
ghost use Rattle.run_account.specs.Forms.{csv_head, names_row, traffic_cell, traffic_row_text, traffic_table_text, traffic_line, traffic_lines, traffic_csv_text};
ghost use Rattle.run_account.specs.declared.measure.Measure.TheVariants as measure;
ghost use Rattle.run_account.specs.Tallies.{capped};
ghost use Rattle.run_account.specs.Traffic.{sum_of_measures, bytes_with, row_number, traffic_word, traffic_rows};

use crate::columns::{push_head, push_left, push_number};
use crate::csv::{has_line, push_csv_head, push_named};
use crate::names::measure_name;
use crate::traffic_row::TrafficRow;
use crate::{AccountTable, Measure};
use dn_base::Memory;
use region_table::Program;
use std::alloc::Global;
use text_pieces::push;

/// The sum of the numbers of these measures in a group; it stays at its type's end.
fn sum_of(table: &AccountTable, group: usize, measures: &[Measure]) -> u64
    ensures { result ≡ capped (sum_of_measures table.now group measures.now) }
{
    let mut sum = 0u64;
    for measure in measures {
        sum = sum.saturating_add(table.number(*measure, group));
    }
    sum
}

/// The bytes of these messages, of which some have a value and some a signature.
fn bytes(
    table: &AccountTable,
    group: usize,
    messages: &[Measure],
    values: &[Measure],
    signatures: &[Measure],
) -> u64
    ensures { result ≡ bytes_with table.now group messages.now values.now signatures.now }
{
    let all = sum_of(table, group, messages).saturating_mul(8);
    let with_values = all.saturating_add(sum_of(table, group, values).saturating_mul(4));
    with_values.saturating_add(sum_of(table, group, signatures).saturating_mul(33))
}

/// The bytes of the messages about locks.
fn lock_bytes(table: &AccountTable, group: usize, signatures: &[Measure]) -> u64
    ensures { result ≡ bytes_with table.now group (measure.Acquires ∷ measure.Releases ∷ measure.Grants ∷ []) [] signatures.now }
{
    let messages = [Measure::Acquires, Measure::Releases, Measure::Grants];
    bytes(table, group, &messages, &[], signatures)
}

/// The number of a row in a group.
fn number(table: &AccountTable, group: usize, row: TrafficRow) -> u64
    ensures { result ≡ row_number table.now group row }
{
    match row {
        TrafficRow::Count(measure) => table.number(measure, group),
        TrafficRow::BytesOf(measure) => bytes(table, group, &[measure], &[], &[]),
        TrafficRow::ValueBytesOf(measure) => bytes(table, group, &[measure], &[measure], &[]),
        TrafficRow::SignedBytesOf(measure) => bytes(table, group, &[measure], &[], &[measure]),
        TrafficRow::WordBytes => {
            let values = [Measure::DataReplies, Measure::WriteBacks];
            bytes(table, group, &[Measure::Messages], &values, &[])
        }
        TrafficRow::LockBytes => { lock_bytes(table, group, &[Measure::Releases, Measure::Grants]) }
        TrafficRow::BarrierBytes => {
            let messages = [Measure::Arrivals, Measure::Gos, Measure::Halts];
            bytes(table, group, &messages, &[], &[])
        }
        TrafficRow::ListBytes => {
            let values = [Measure::ListReplyValues, Measure::ListPutBacks];
            bytes(table, group, &[Measure::ListMessages], &values, &[])
        }
        TrafficRow::ListLockBytes => lock_bytes(table, group, &[]),
    }
}

/// The rows in the order in which they are printed.
#[tactic(auto, unfolding(crate::specs::Traffic::traffic_rows))]
fn rows() -> [TrafficRow; 35]
    ensures { result ≡ traffic_rows }
{
    [
        TrafficRow::Count(Measure::ReadReqs),
        TrafficRow::BytesOf(Measure::ReadReqs),
        TrafficRow::Count(Measure::ReadFwds),
        TrafficRow::BytesOf(Measure::ReadFwds),
        TrafficRow::Count(Measure::DataReplies),
        TrafficRow::ValueBytesOf(Measure::DataReplies),
        TrafficRow::Count(Measure::RegReqs),
        TrafficRow::BytesOf(Measure::RegReqs),
        TrafficRow::Count(Measure::RegFwds),
        TrafficRow::BytesOf(Measure::RegFwds),
        TrafficRow::Count(Measure::RegAcks),
        TrafficRow::BytesOf(Measure::RegAcks),
        TrafficRow::Count(Measure::WriteBacks),
        TrafficRow::ValueBytesOf(Measure::WriteBacks),
        TrafficRow::Count(Measure::WbAcks),
        TrafficRow::BytesOf(Measure::WbAcks),
        TrafficRow::Count(Measure::Acquires),
        TrafficRow::BytesOf(Measure::Acquires),
        TrafficRow::Count(Measure::Releases),
        TrafficRow::SignedBytesOf(Measure::Releases),
        TrafficRow::Count(Measure::Grants),
        TrafficRow::SignedBytesOf(Measure::Grants),
        TrafficRow::Count(Measure::Arrivals),
        TrafficRow::BytesOf(Measure::Arrivals),
        TrafficRow::Count(Measure::Gos),
        TrafficRow::BytesOf(Measure::Gos),
        TrafficRow::Count(Measure::Halts),
        TrafficRow::BytesOf(Measure::Halts),
        TrafficRow::Count(Measure::Messages),
        TrafficRow::WordBytes,
        TrafficRow::LockBytes,
        TrafficRow::BarrierBytes,
        TrafficRow::Count(Measure::ListMessages),
        TrafficRow::ListBytes,
        TrafficRow::ListLockBytes,
    ]
}

/// Adds what a row is called.
fn push_name(out: &mut Vec<u8>, row: TrafficRow) -> Result<(), Memory>
    ensures { OnOk result (out.new.items ≡ out.old.items ++ traffic_word row) }
{
    match row {
        TrafficRow::Count(measure) => push(out, measure_name(measure)),
        TrafficRow::BytesOf(measure)
        | TrafficRow::ValueBytesOf(measure)
        | TrafficRow::SignedBytesOf(measure) => {
            push(out, measure_name(measure))?;
            push(out, b"-bytes")
        }
        TrafficRow::WordBytes => push(out, b"bytes"),
        TrafficRow::LockBytes => push(out, b"lock-bytes"),
        TrafficRow::BarrierBytes => push(out, b"barrier-bytes"),
        TrafficRow::ListBytes => push(out, b"list-bytes"),
        TrafficRow::ListLockBytes => push(out, b"list-lock-bytes"),
    }
}

/// What a row is called.
fn name_of(alloc: Global, row: TrafficRow) -> Result<Vec<u8>, Memory>
    ensures { IfOk result (λ name. name.items ≡ traffic_word row) }
{
    let mut name = Vec::new(alloc);
    push_name(&mut name, row)?;
    Ok(name)
}

// ---- the table

/// Adds the numbers of a row in this many groups.
fn push_cells(
    out: &mut Vec<u8>,
    table: &AccountTable,
    row: TrafficRow,
    groups: usize,
) -> Result<(), Memory>
    ensures { OnOk result (out.new.items ≡ out.old.items ++ flat_map (traffic_cell table.now row) (range_with_len 0 groups)) }
{
    for group in 0..groups {
        push_number(out, number(table, group, row))?;
    }
    Ok(())
}

#[tactic(auto, unfolding(crate::specs::Forms::traffic_row_text))]
fn push_row(out: &mut Vec<u8>, table: &AccountTable, row: TrafficRow) -> Result<(), Memory>
    ensures { OnOk result (out.new.items ≡ out.old.items ++ traffic_row_text table.now row) }
{
    let name = name_of(*out.allocator(), row)?;
    push_left(out, name.as_slice())?;
    push_cells(out, table, row, table.groups())?;
    push(out, b"\n")
}

/// Adds these rows.
fn push_rows(out: &mut Vec<u8>, table: &AccountTable, rows: &[TrafficRow]) -> Result<(), Memory>
    ensures { OnOk result (out.new.items ≡ out.old.items ++ flat_map (traffic_row_text table.now) rows.now) }
{
    for row in rows {
        push_row(out, table, *row)?;
    }
    Ok(())
}

/// Adds the table.
#[tactic(auto, unfolding(crate::specs::Forms::traffic_table_text))]
pub(crate) fn push_traffic_table(
    out: &mut Vec<u8>,
    program: &Program,
    table: &AccountTable,
) -> Result<(), Memory>
    ensures { OnOk result (out.new.items ≡ out.old.items ++ traffic_table_text program.now table.now) }
{
    push_head(out, program, table)?;
    push_rows(out, table, &rows())
}

// ---- the lines

/// Adds the line of a row with this name in a group, if it has one.
fn push_line(
    out: &mut Vec<u8>,
    program: &Program,
    table: &AccountTable,
    row: TrafficRow,
    name: &[u8],
    group: usize,
) -> Result<(), Memory>
    requires { name.now ≡ traffic_word row }
    ensures { OnOk result (out.new.items ≡ out.old.items ++ traffic_line program.now table.now row group) }
{
    let count = number(table, group, row);
    if has_line(table.by(), count) {
        push_named(out, program, table.by(), name, group, count)?;
    }
    Ok(())
}

/// Adds the lines of a row with this name in this many groups.
fn push_groups(
    out: &mut Vec<u8>,
    program: &Program,
    table: &AccountTable,
    row: TrafficRow,
    name: &[u8],
    groups: usize,
) -> Result<(), Memory>
    requires { name.now ≡ traffic_word row }
    ensures { OnOk result (out.new.items ≡ out.old.items ++ flat_map (traffic_line program.now table.now row) (range_with_len 0 groups)) }
{
    for group in 0..groups {
        push_line(out, program, table, row, name, group)?;
    }
    Ok(())
}

/// Adds the lines of a row.
fn push_row_lines(
    out: &mut Vec<u8>,
    program: &Program,
    table: &AccountTable,
    row: TrafficRow,
) -> Result<(), Memory>
    ensures { OnOk result (out.new.items ≡ out.old.items ++ traffic_lines program.now table.now row) }
{
    let name = name_of(*out.allocator(), row)?;
    push_groups(out, program, table, row, name.as_slice(), table.groups())
}

/// Adds the lines of these rows.
fn push_all_lines(
    out: &mut Vec<u8>,
    program: &Program,
    table: &AccountTable,
    rows: &[TrafficRow],
) -> Result<(), Memory>
    ensures { OnOk result (out.new.items ≡ out.old.items ++ flat_map (traffic_lines program.now table.now) rows.now) }
{
    for row in rows {
        push_row_lines(out, program, table, *row)?;
    }
    Ok(())
}

/// Adds the head line, and the lines of all rows.
#[tactic(auto, unfolding(crate::specs::Forms::traffic_csv_text))]
pub(crate) fn push_traffic_csv(
    out: &mut Vec<u8>,
    program: &Program,
    table: &AccountTable,
) -> Result<(), Memory>
    ensures { OnOk result (out.new.items ≡ out.old.items ++ traffic_csv_text program.now table.now) }
{
    push_csv_head(out)?;
    push_all_lines(out, program, table, &rows())
}
