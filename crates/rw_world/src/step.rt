/// One step of the world.
#[derive(Clone, Copy, PartialEq, Eq)]
pub enum Step {
    /// The process of that number executes its least pending event.
    Execute(u32),
    /// The process of that number takes its last processed event back.
    Undo(u32),
    /// The process of that number takes its last processed event back, and holds what that had sent.
    UndoLazily(u32),
    /// The letter of that number, from 0, comes to its process.
    Deliver(u64),
    /// All events of time below that, in ticks, are committed.
    Collect(u64),
}
