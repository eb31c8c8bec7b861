use rw_vt::Model;

/// What a run begins with.
#[derive(Drop)]
pub struct Start<M: Model, I> {
    /// The model.
    pub model: M,
    /// The state of each process, in the order of their numbers, from 0.
    pub states: Vec<M::State>,
    /// The events from outside: a list of them in any order, or a [`Source`](crate::Source).
    pub initial: I,
}
