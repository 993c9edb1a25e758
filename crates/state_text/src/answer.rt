/// The state before an event, as text.
#[derive(Drop)]
pub struct StateAnswer {
    /// The number of the event, from 0, before which the state is: the one that was asked for, or the first that is not enabled.
    pub event: u32,
    /// The lines.
    pub text: Vec<u8>,
}
