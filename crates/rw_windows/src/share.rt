ghost use Rattle.std.specs.Prelude.{◌≡◌, ◌≤◌, true};

use crate::domain::Domain;
use rw_vt::{Event, Model as VtModel};
use std::marker::Model;

/// A worker's share of a run, with which it begins, and which it leaves: the processes whose number is its own modulo the
/// number of workers, what is to be executed at them, and its port.
///
/// A contract sees it as it sees the worker (`ShareState`).
#[derive(Drop)]
pub struct Share<M: VtModel> {
    /// What it has of the run beside that.
    pub(crate) domain: Domain<M>,
    /// What is still to be executed at its processes, in any order.
    pub(crate) events: Vec<Event<M::Body>>,
}

impl<M: VtModel> Model for Share<M> {
    ghost use Rattle.std.specs.Prelude.{map};
    ghost use Rattle.rw_windows.specs.Working.{ShareState};

    ghost Value = { ShareState M M.State M.Body };

    ghost view = { λ w. record {
      number = w.domain.number;
      workers = w.domain.workers;
      end = w.domain.end;
      lookahead = w.domain.lookahead;
      starts = w.domain.starts.value.value.items;
      given = w.domain.given.value.items;
      states = w.domain.states.items;
      waiting = w.events.items;
      reached = 0;
      port = w.domain.port;
      outbox = map (λ list. list.items) w.domain.outbox.items;
      until = w.domain.until;
      bound_in = w.domain.bound_in;
      bound_out = w.domain.bound_out;
    } };
}

impl<M: VtModel> Share<M> {
    /// Whether all that is before the end is executed.
    pub(crate) fn is_done(&self) -> bool
        ensures done { result ≡ true → self.now.end ≤ self.now.until }
    {
        self.domain.until >= self.domain.end
    }
}
