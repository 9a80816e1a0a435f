use std::collections::LinkedList;

/// What a token knows: whether it is the writer's, a prefix of the history, another one that it was told
/// of, and the entries that were made for it, each with its place. No value of it is made.
pub struct View<E> {
    pub keeps: bool,
    pub seen: LinkedList<E>,
    pub told: LinkedList<E>,
    pub mine: LinkedList<(u64, E)>,
}
