/// In which base data words are written.
#[derive(Clone, Copy)]
pub enum Base {
    /// Decimal digits, without leading zeros.
    Decimal,
    /// `0x` and eight hexadecimal digits.
    Hexadecimal,
}
