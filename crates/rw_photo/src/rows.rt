ghost use Rattle.std.specs.Prelude.{◌≡◌, ◌≤◌, ◌+◌, ◌-◌, ◌^◌, ℕ, true, All, IfOk, length};
ghost use Rattle.rw_vt.specs.System.{map_from};
ghost use Rattle.rw_trace.specs.Laws.{IsRow};
ghost use Rattle.rw_photo.specs.Events.{body_of, event_of, is_valid};

use crate::body::Body;
use crate::config::Config;
use rw_trace::{Kind, Row};
use rw_vt::{Event, NoMemory};
use std::alloc::Global;

/// The requests of a trace, and its purges, in its order: row n is event number n from outside.
///
/// Rows in the ranges of a trace of the configuration's edges give valid events.
///
/// # Errors
///
/// `NoMemory` only where memory was refused.
pub fn requests(alloc: Global, rows: &[Row]) -> Result<Vec<Event<Body>>, NoMemory>
    ensures events { IfOk result (λ es. es.items ≡ map_from 0 event_of rows.now) }
    ensures valid { IfOk result (λ es. (c : Config)
        → All (IsRow c.edges) rows.now → All (λ e. is_valid c e ≡ true) es.items) }
{
    requests_from(alloc, 0, rows)
}

/// The requests and purges of a piece of a trace, of which the first row is row `first`; otherwise as [`requests`].
pub fn requests_from(alloc: Global, first: u64, rows: &[Row]) -> Result<Vec<Event<Body>>, NoMemory>
    requires { first + length rows.now ≤ 2 ^ 64 - 1 }
    ensures events { IfOk result (λ es. es.items ≡ map_from first event_of rows.now) }
    ensures valid { IfOk result (λ es. (c : Config)
        → All (IsRow c.edges) rows.now → All (λ e. is_valid c e ≡ true) es.items) }
{
    let mut events = Vec::with_capacity(alloc, rows.len())?;
    for (index, row) in rows.iter().enumerate() {
        events.push(event_of(first + index as u64, row))?;
    }
    Ok(events)
}

/// Row `number` of a trace, as an event from outside.
pub(crate) fn event_of(number: u64, row: &Row) -> Event<Body>
    ensures { result ≡ event_of number row.now }
{
    let Row {
        time,
        edge,
        object,
        size,
        kind,
    } = *row;
    Event {
        time,
        source: 0,
        number,
        to: edge,
        body: body_of(kind, object, size),
    }
}

/// What a row of a kind has happen to an object.
fn body_of(kind: Kind, object: u64, size: u64) -> Body
    ensures { result ≡ body_of kind object size }
{
    match kind {
        Kind::Get => Body::Request { object, size },
        Kind::Purge => Body::Purge { object },
    }
}
