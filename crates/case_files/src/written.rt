/// What the program answered: its exit code, and what it wrote.
#[derive(Drop)]
pub struct Written {
    pub exit: u8,
    pub bytes: Vec<u8>,
}
