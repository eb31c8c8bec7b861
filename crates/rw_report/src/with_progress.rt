// Progress of runs that take events or rows from a source.
ghost use Rattle.std.specs.Prelude.{◌≡◌};

use rw_photo::Body;
use rw_progress::Progress;
use rw_serial::Source;
use rw_trace::{Row, RowSource, RowsFault};
use rw_vt::Event;

/// Progress is reported for one in so many events or rows, since reading the clock for each would cost as much as executing it.
const STEP: u64 = 256;

/// A source that gives what another one gives, in the same order, and reports progress: of events, the time of the one that it
/// gives; of rows, how many it has given before. It reports for the first of every 256.
#[derive(Drop)]
pub struct WithProgress<'a, S, P> {
    /// The source of the events or rows.
    pub source: S,
    /// Where progress is reported.
    pub progress: &'a mut P,
    /// How many it has given, modulo 2^64.
    pub given: u64,
}

impl<'a, S, P> WithProgress<'a, S, P> {
    /// A source that has given nothing so far.
    pub fn new(source: S, progress: &'a mut P) -> WithProgress<'a, S, P>
        ensures { result.source ≡ source }
    {
        WithProgress {
            source,
            progress,
            given: 0,
        }
    }
}

impl<'a, S: Source<Body>, P: Progress> Source<Body> for WithProgress<'a, S, P> {
    ghost left = { λ t. S.left t.source };

    fn next(&mut self) -> Option<Event<Body>> {
        let event = self.source.next()?;
        if self.given % STEP == 0 {
            self.progress.reach(event.time);
        }
        self.given = self.given.wrapping_add(1);
        Some(event)
    }
}

impl<'a, S: RowSource, P: Progress> RowSource for WithProgress<'a, S, P> {
    ghost rest = { λ t. S.rest t.source };

    fn next_row(&mut self) -> Result<Option<Row>, RowsFault> {
        let row = self.source.next_row()?;
        if self.given % STEP == 0 {
            self.progress.reach(self.given);
        }
        self.given = self.given.wrapping_add(1);
        Ok(row)
    }
}

/// Begins the progress of a run of rows that stand in order of time, from the time of the first to that of the last. `others` follow
/// `rows`. Reports nothing where `rows` is empty.
pub fn begin_rows<P: Progress>(rows: &[Row], others: &[Row], progress: &mut P) {
    if let (Some(first), Some(last)) = (rows.first(), others.last().or(rows.last())) {
        progress.begin(first.time, last.time);
    }
}

/// Begins the progress of a run of events, which may stand in any order, from the least of their times to the greatest. Reports
/// nothing where there are none.
pub fn begin_events<P: Progress>(events: &[Event<Body>], progress: &mut P) {
    let Some(first) = events.first() else {
        return;
    };
    let mut from = first.time;
    let mut to = first.time;
    for event in events {
        from = from.min(event.time);
        to = to.max(event.time);
    }
    progress.begin(from, to);
}
