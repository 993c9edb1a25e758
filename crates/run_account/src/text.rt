ghost use Rattle.std.specs.Prelude.{◌≡◌, ◌++◌, OnOk};
ghost use Rattle.run_account.specs.Forms.{account_text, lists_text, traffic_text};

use crate::AccountTable;
use crate::beside::push_lists_table;
use crate::columns::push_table;
use crate::csv::push_csv;
use crate::form::Form;
use crate::names::{measures, measures_beside_lists};
use crate::traffic::{push_traffic_csv, push_traffic_table};
use dn_base::Memory;
use region_table::Program;

/// Appends an account in one of its forms: the numbers of a table, whose groups are those of this program.
///
/// The table has a row with the names of the groups, and then a row for each measure, in order. The csv lines have the measure,
/// the group and the count, after a head line; by region, a measure without items has no line there.
///
/// # Errors
/// `Memory` where there is no room for the text.
pub fn push_account(
    out: &mut Vec<u8>,
    form: Form,
    program: &Program,
    table: &AccountTable,
) -> Result<(), Memory>
    ensures { OnOk result (out.new.items ≡ out.old.items ++ account_text form program.now table.now) }
{
    match form {
        Form::Text => push_table(out, program, table),
        Form::Csv => push_csv(out, program, table, &measures()),
    }
}

/// Appends a run beside lists of sharers in one of its forms: the numbers of a table, whose groups are those of this program.
///
/// The table has two columns for each group, the run and the same with lists; a measure without a partner has its number in the
/// second. The csv lines are as those of an account, of the measures of a run beside lists.
///
/// # Errors
/// `Memory` where there is no room for the text.
pub fn push_lists(
    out: &mut Vec<u8>,
    form: Form,
    program: &Program,
    table: &AccountTable,
) -> Result<(), Memory>
    ensures { OnOk result (out.new.items ≡ out.old.items ++ lists_text form program.now table.now) }
{
    match form {
        Form::Text => push_lists_table(out, program, table),
        Form::Csv => push_csv(out, program, table, &measures_beside_lists()),
    }
}

/// Appends the traffic of a run in one of its forms: the numbers of a table, whose groups are those of this program.
///
/// The table has a row for the number of messages of each kind and one for their bytes, and then the sums; the csv lines are as those of
/// an account.
///
/// # Errors
/// `Memory` where there is no room for the text.
pub fn push_traffic(
    out: &mut Vec<u8>,
    form: Form,
    program: &Program,
    table: &AccountTable,
) -> Result<(), Memory>
    ensures { OnOk result (out.new.items ≡ out.old.items ++ traffic_text form program.now table.now) }
{
    match form {
        Form::Text => push_traffic_table(out, program, table),
        Form::Csv => push_traffic_csv(out, program, table),
    }
}
