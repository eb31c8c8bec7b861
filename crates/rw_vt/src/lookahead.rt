ghost use Rattle.std.specs.Prelude.{◌≡◌, ◌+◌, ◌≤◌, true, All};
ghost use Rattle.rw_vt.specs.Words.{Process, Time};
ghost use Rattle.rw_vt.specs.declared.event.Event.{Event};

use crate::event::Event;
use crate::model::Model;

/// A model that tells how far ahead of an event all that it sends is at least: its lookahead (Chandy and Misra 1979).
///
/// Processes that have executed all events before some time are then told nothing of times before that and the lookahead, so
/// that each may go on so far without hearing of the others. One tick is a lookahead of every model.
pub trait Lookahead: Model {
    /// The least time from an event to what it sends, in ticks.
    ghost lookahead_of: { Self → Time };

    /// The least time from an event to what it sends, in ticks: 1 or more is of use. Takes no memory.
    fn lookahead(&self) -> u64
        ensures { result ≡ lookahead_of self.now };

    /// How many events a worker has to execute between two meetings with the others, so that these are worth it: the fewer,
    /// the more work an event is. No theorem rests on it. Takes no memory.
    fn grain(&self) -> u64 {
        64
    }

    /// All that is sent is as far ahead.
    ghost ahead: { (m : Self) (p : Process) (s : Self.State) (e : Event Self.Body)
        → Self.IsWellFormed m p s → Self.is_valid m e ≡ true → e.to ≡ p
        → All (λ f. e.time + lookahead_of m ≤ f.time) (Self.step m p s e).1 };
}
