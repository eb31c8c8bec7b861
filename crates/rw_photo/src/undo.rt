use crate::counters::Counters;
use rw_ripq::Change;

/// What takes one event back (reverse computation: Carothers, Perumalla and Fujimoto 1999): the marks that undo what
/// it did, and only those numbers that it destroyed.
#[derive(Drop)]
pub struct Undo {
    /// What the event did to the queue, and what it counted.
    pub change: Change<Counters>,
    /// How many events it sent.
    pub sent: u64,
    /// How many requests waited for its object before the event, where it was awaited.
    pub waiting: Option<u64>,
}
