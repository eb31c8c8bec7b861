ghost use Rattle.std.specs.Prelude.{◌≡◌, ◌≤◌, ◌+◌, ◌-◌, ◌^◌, [], true, All, length};
ghost use Rattle.rw_vt.specs.System.{map_from};
ghost use Rattle.rw_trace.specs.Laws.{IsRow};
ghost use Rattle.rw_photo.specs.Events.{event_of, is_valid};
ghost use Rattle.rw_photo.specs.Rows.{AreInOrder};

use crate::body::Body;
use crate::config::Config;
use crate::rows::event_of;
use rw_pending::Source;
use rw_trace::Row;
use rw_vt::Event;
use std::alloc::Global;
use std::marker::Model;
use std::vec::IntoIter;

/// The requests and purges of a piece of a trace, whose rows stand in order of time, each made when it is taken. It owns the
/// rows. Contracts see the events that are left.
#[derive(Drop)]
pub struct PieceRequests {
    /// The rows that are left.
    rows: IntoIter<Row>,
    /// The number of the first row that is left.
    number: u64,
}

impl Model for PieceRequests {
    ghost use Rattle.std.specs.Prelude.{◌<◌, ◌+◌, ◌^◌, List, length};
    ghost use Rattle.std.specs.Vec.Iter.{into_iter_items};
    ghost use Rattle.rw_vt.specs.declared.event.Event.{Event};
    ghost use Rattle.rw_vt.specs.System.{map_from};
    ghost use Rattle.rw_photo.specs.declared.body.Body.{Body};
    ghost use Rattle.rw_photo.specs.Events.{event_of};
    ghost use Rattle.rw_photo.specs.Rows.{AreInOrder};

    ghost Value = { List (Event Body) };

    ghost view = { λ r. map_from r.number event_of (into_iter_items r.rows) };

    ghost invariant = { λ r. AreInOrder (into_iter_items r.rows)
        × (r.number + length (into_iter_items r.rows) < 2 ^ 64) };
}

impl PieceRequests {
    /// No requests. Takes no memory.
    pub fn none(alloc: Global) -> PieceRequests
        ensures { result ≡ [] }
    {
        let rows = Vec::new(alloc);
        PieceRequests {
            rows: rows.into_iter(),
            number: 0,
        }
    }

    /// The requests of a piece of a trace, of which the first row is row `first`.
    ///
    /// Rows in the ranges of a trace of the configuration's edges give valid events. Takes no memory.
    pub fn new(first: u64, rows: Vec<Row>) -> PieceRequests
        requires few { first + length rows.items ≤ 2 ^ 64 - 1 }
        requires order { AreInOrder rows.items }
        ensures events { result ≡ map_from first event_of rows.items }
        ensures valid { (c : Config)
            → All (IsRow c.edges) rows.items → All (λ e. is_valid c e ≡ true) result }
    {
        PieceRequests {
            rows: rows.into_iter(),
            number: first,
        }
    }
}

impl Source<Body> for PieceRequests {
    ghost left = { λ events. events };

    #[inline]
    fn next(&mut self) -> Option<Event<Body>> {
        let row = self.rows.next()?;
        let event = event_of(self.number, &row);
        self.number += 1;
        Some(event)
    }
}
