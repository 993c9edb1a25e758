/// How much of an answer was taken.
#[derive(Clone, Copy)]
pub enum Taken {
    /// All of it: it is the text's, and was explained.
    Whole,
    /// It begins as the text's answer. The line of this number, from 1, is the first that differs.
    Stops { line: usize },
    /// Nothing: its first line differs.
    Other,
}
