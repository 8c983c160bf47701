// What a pass knows.
use std::collections::LinkedList;

/// What a pass knows: `E` are the entries of histories, and `O` is what a value opens with. No value of it is made.
pub struct View<E, O> {
    /// What the value opened with, which stays. A pass that was joined has none.
    pub opening: Option<O>,
    /// The rights that it has: its own, and on the first pass one for each pass that may be split off. A pass that was joined has none.
    pub rights: u64,
    /// The number that its entries carry.
    pub number: u64,
    /// Whether it is the first pass, which alone splits, joins and closes.
    pub first: bool,
    /// Of the first pass, the number that the next one gets.
    pub given: u64,
    /// The ticket that it drew, until it leaves.
    pub ticket: Option<u64>,
    /// Whether it has the value.
    pub inside: bool,
    /// The history as it was when the pass saw it last, each entry with the number of its pass.
    pub seen: LinkedList<(u64, E)>,
    /// Of the first pass, what the one had seen that it joined last.
    pub told: LinkedList<(u64, E)>,
    /// Its own entries, in order.
    pub mine: LinkedList<(u64, E)>,
}
