/// How a process takes an event back: what the event had sent is cancelled at once, or held.
#[derive(Clone, Copy, PartialEq, Eq)]
pub enum Way {
    /// Aggressive cancellation (Jefferson 1985): anti-messages are sent at once.
    Aggressive,
    /// Lazy cancellation (Gafni 1988): what was sent is held until the event is executed again or cancelled.
    Lazy,
}
