//! What a pass knows. These types are for the proofs alone: no value of them is made.

use std::collections::LinkedList;

/// Where a pass stands: it waits with a ticket, or it has the turn and knows the longest history, or it was taken in by another.
pub enum Stage<E> {
    Idle,
    Waiting(u64),
    Inside(u64, LinkedList<E>),
    Gone,
}

/// What is known of one pass: its number, the history that it has seen, and its own calls.
pub struct Claim<E> {
    pub number: u32,
    pub seen: LinkedList<E>,
    pub mine: LinkedList<E>,
}

/// What a seat knows: the object at the start, its own claim, how many more passes it may deal out and the number of the
/// next, where it stands, and the claims of the passes that it has taken in.
pub struct View<X, E> {
    pub opening: Option<X>,
    pub own: Claim<E>,
    pub next: u32,
    pub spare: u32,
    pub stage: Stage<E>,
    pub joined: LinkedList<Claim<E>>,
}
