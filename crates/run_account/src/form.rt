/// How an account is printed.
#[derive(Clone, Copy)]
pub enum Form {
    /// A table for readers: a row for each measure and a column for each group.
    Text,
    /// Csv lines for other programs: the measure, the group and the count.
    Csv,
}
