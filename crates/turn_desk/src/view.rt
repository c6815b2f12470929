//! What a seat of the table knows. These types are for the proofs alone: no value of them is made.

use std::collections::LinkedList;

/// What was done by a number: its steps, and the story as the last of them left it.
pub struct Past<C, R, E> {
    pub number: u32,
    pub steps: LinkedList<(C, R)>,
    pub log: LinkedList<E>,
}

/// What a seat of the table knows.
pub enum View<C, R, E, M> {
    /// It made the numbers: how many, and the story that each begins with.
    NumberMaker(u32, LinkedList<E>),
    /// It makes steps: what it has done, and while it has the turn the content in hand.
    LiveSeat(Past<C, R, E>, Option<M>),
    /// It keeps what was done by seats that have ended.
    EndedSeats(LinkedList<Past<C, R, E>>),
    /// Another seat keeps what it did.
    SpentSeat,
}
