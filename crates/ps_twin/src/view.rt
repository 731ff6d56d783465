// What a seat knows. No value of this type is made: these are the views of the table, which proofs alone see.
use ps_turn::{Place, View};
use std::collections::LinkedList;

/// What one seat knows.
pub struct TwinView<I> {
    /// Of the state, as a seat of a turn does.
    pub base: View<I>,
    /// Its place in the journal's line.
    pub journal: Place,
    /// So many items are firm at least: no journal that comes out has fewer.
    pub known: u64,
    /// How many items are firm, of the journal in its hand.
    pub firm: u64,
    /// The mark of what is in its hand.
    pub mark: (u64, u64),
    /// The list of the journal in its hand.
    pub list: LinkedList<I>,
}
