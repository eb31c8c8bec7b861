use crate::sends::Sends;
use rw_vt::Event;

/// What takes one execution back: what it sent, and the model's own record of what it destroyed.
#[derive(Drop)]
pub struct UndoRecord<B, U> {
    /// The messages that the execution sent.
    pub sends: Sends<B>,
    /// The model's undo record.
    pub undo: U,
}

/// An event that was taken back.
#[derive(Drop)]
pub struct Undone<B> {
    /// The event.
    pub event: Event<B>,
    /// The messages that its execution had sent.
    pub sends: Sends<B>,
}
