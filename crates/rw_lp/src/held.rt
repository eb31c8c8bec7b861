use rw_vt::Event;

/// A message that an undone event sent and that is not cancelled yet (lazy cancellation).
#[derive(Clone, Copy)]
pub struct Held<B> {
    /// The event that was undone, which is pending again.
    pub undone: Event<B>,
    /// The message that it had sent.
    pub message: Event<B>,
}
