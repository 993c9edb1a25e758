/// The data words from `lo` up to, but not including, `hi`.
#[derive(Clone, Copy, PartialEq, Eq)]
pub struct Interval {
    pub lo: u32,
    pub hi: u32,
}
