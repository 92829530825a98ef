//! An era of an object.

/// An era: its number, how many updates were made before it, and the state in which it began. Era 0 begins in an object's first state.
#[derive(Drop)]
pub struct Era<O> {
    pub number: u64,
    pub place: u64,
    pub state: O,
}
