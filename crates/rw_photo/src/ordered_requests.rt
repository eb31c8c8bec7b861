ghost use Rattle.std.specs.Prelude.{◌≡◌, ◌↔◌, ◌+◌, ◌++◌, ◌≤◌, true, All, IfNone, IfSome, List, length};
ghost use Rattle.rw_vt.specs.System.{map_from};
ghost use Rattle.rw_trace.specs.Laws.{IsRow};
ghost use Rattle.rw_trace.specs.Limits.{most_rows};
ghost use Rattle.rw_trace.specs.declared.Row.{Row};
ghost use Rattle.rw_photo.specs.Events.{event_of, is_valid};
ghost use Rattle.rw_photo.specs.Rows.{AreInOrder, AreInOrderFrom};

use crate::body::Body;
use crate::config::Config;
use crate::rows::event_of;
use rw_pending::Source;
use rw_trace::Row;
use rw_vt::Event;
use std::marker::Model;

/// The requests and purges of rows that stand in order of time, each made when it is taken: row n is event number n from
/// outside. Contracts see the events that are left.
#[derive(Drop)]
pub struct OrderedRequests<'a> {
    /// The rows that are left of the first part.
    rows: &'a [Row],
    /// The rows that are left of the second part.
    others: &'a [Row],
    /// The number of the first row that is left.
    number: u64,
}

impl<'a> Model for OrderedRequests<'a> {
    ghost use Rattle.std.specs.Prelude.{◌<◌, ◌+◌, ◌++◌, ◌^◌, List, length};
    ghost use Rattle.rw_vt.specs.declared.event.Event.{Event};
    ghost use Rattle.rw_vt.specs.System.{map_from};
    ghost use Rattle.rw_photo.specs.declared.body.Body.{Body};
    ghost use Rattle.rw_photo.specs.Events.{event_of};
    ghost use Rattle.rw_photo.specs.Rows.{AreInOrder, AreInOrderFrom};

    ghost Value = { List (Event Body) };

    ghost view = { λ r. map_from r.number event_of (r.rows.now ++ r.others.now) };

    ghost invariant = { λ r. AreInOrder (r.rows.now ++ r.others.now)
        × (r.number + length (r.rows.now ++ r.others.now) < 2 ^ 64) };
}

impl<'a> OrderedRequests<'a> {
    /// The requests of these rows. `None` exactly where they do not stand in order of time. Takes no memory.
    ///
    /// Rows in the ranges of a trace of the configuration's edges give valid events.
    pub fn new(rows: &'a [Row]) -> Option<OrderedRequests<'a>>
        ensures events { IfSome result (λ events. events ≡ map_from 0 event_of rows.now) }
        ensures valid { IfSome result (λ events. (c : Config)
            → All (IsRow c.edges) rows.now → All (λ e. is_valid c e ≡ true) events) }
        ensures none { IfNone result (AreInOrder rows.now → ⊥) }
    {
        let Some(_) = latest_in_order(0, rows) else {
            return None;
        };
        Some(OrderedRequests {
            rows,
            others: &[],
            number: 0,
        })
    }

    /// The requests of rows in two parts, as [`new`](Self::new) gives those of rows that stand one behind the other.
    pub fn of_parts(rows: &'a [Row], others: &'a [Row]) -> Option<OrderedRequests<'a>>
        requires few { length rows.now + length others.now ≤ most_rows }
        ensures events { IfSome result (λ events.
            events ≡ map_from 0 event_of (rows.now ++ others.now)) }
        ensures valid { IfSome result (λ events. (c : Config)
            → All (IsRow c.edges) (rows.now ++ others.now)
            → All (λ e. is_valid c e ≡ true) events) }
        ensures none { IfNone result (AreInOrder (rows.now ++ others.now) → ⊥) }
    {
        let Some(latest) = latest_in_order(0, rows) else {
            return None;
        };
        let Some(_) = latest_in_order(latest, others) else {
            return None;
        };
        Some(OrderedRequests {
            rows,
            others,
            number: 0,
        })
    }
}

impl<'a> Source<Body> for OrderedRequests<'a> {
    ghost left = { λ events. events };

    fn next(&mut self) -> Option<Event<Body>> {
        if self.rows.is_empty() {
            self.rows = self.others;
            self.others = &[];
        }
        let (row, rows) = self.rows.split_first()?;
        let event = event_of(self.number, row);
        self.rows = rows;
        self.number += 1;
        Some(event)
    }
}

/// The latest time, of `from` and that of the last row. `None` exactly where the rows do not stand in order of time from then on.
fn latest_in_order(from: u64, rows: &[Row]) -> Option<u64>
    ensures some { IfSome result (λ latest. (more : List Row)
        → AreInOrderFrom from (rows.now ++ more) ↔ AreInOrderFrom latest more) }
    ensures none { IfNone result ((more : List Row)
        → AreInOrderFrom from (rows.now ++ more) → ⊥) }
{
    let mut left = rows;
    let mut latest = from;
    while let Some((row, rest)) = left.split_first() {
        if row.time < latest {
            return None;
        }
        latest = row.time;
        left = rest;
    }
    Some(latest)
}
