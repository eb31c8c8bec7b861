// What an operation did to a queue.
ghost use Rattle.std.specs.Prelude.{◌≡◌, []};

use crate::Trail;
use std::alloc::Global;

/// What an operation did to a queue: the marks that take it back, and its counts. An insertion has a [`crate::Tally`]
/// of counts; a model that keeps a queue has counts of its own, and keeps the change in its undo record.
#[derive(Drop)]
pub struct Change<C, M = Trail> {
    /// The marks of its primitives, which take it back, where they are kept.
    pub trail: M,
    /// Its counts.
    pub counts: C,
}

impl<C> Change<C, Trail> {
    /// The change of an operation that left the queue alone and counted `counts`. Takes no memory.
    pub fn new(alloc: Global, counts: C) -> Change<C>
        ensures trail { result.trail ≡ [] }
        ensures counts { result.counts ≡ counts }
    {
        Change {
            trail: Trail::new(alloc),
            counts,
        }
    }
}
