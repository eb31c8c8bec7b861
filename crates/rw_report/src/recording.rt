ghost use Rattle.std.specs.Prelude.{◌≡◌, ◌≤◌, ◌<◌, ◌+◌, ◌*◌, ◌-◌, ◌^◌, ◌++◌, ◌↔◌, [], false, All, IfErr, IfOk, IsTrue, List, length};
ghost use Rattle.rw_vt.specs.Limits.{end_of_time};
ghost use Rattle.rw_vt.specs.System.{Meets};
ghost use Rattle.rw_trace.specs.Laws.{IsRow};
ghost use Rattle.rw_trace.specs.Limits.{latest_time};
ghost use Rattle.rw_trace.specs.Pieces.{RiseFrom, last_time};
ghost use Rattle.rw_trace.specs.declared.Row.{Row};
ghost use Rattle.rw_photo.specs.Cache.{is_exhausted};
ghost use Rattle.rw_photo.specs.Simulation.{simulation};
ghost use Rattle.rw_report.specs.History.{AreMomentsFrom, IsHistory, IsRecordingOf, next_mark};
ghost use Rattle.rw_report.specs.Run.{IsRunOn};

use crate::moments::{Marks, Moment, counters_of};
use crate::run::Run;
use rw_photo::{Config, NoMemory};
use rw_trace::Row;
use rw_vt::Refusal;
use std::alloc::Global;
use std::marker::Model;

/// A run of rows that are taken in as they come, and what its caches have counted by each mark that it has passed.
#[derive(Drop)]
pub struct Recording {
    run: Run,
    marks: Marks,
    moments: Vec<Moment>,
    /// The mark that comes next, in ticks.
    next: u64,
}

impl Model for Recording {
    ghost use Rattle.std.specs.Prelude.{◌≡◌, ◌≤◌, ◌+◌, ◌*◌, ◌⊎◌, [], length};
    ghost use Rattle.rw_report.specs.History.{RecordingState};

    ghost Value = { RecordingState };

    ghost view = { λ r. record {
      run = r.run;
      start = r.marks.start;
      every = r.marks.every;
      moments = r.moments.items;
    } };

    ghost invariant = { λ r. (r.next ≡ r.marks.start + length r.moments.items * r.marks.every)
        × (r.run.time ≤ r.next)
        × ((r.moments.items ≡ []) ⊎ (r.next ≤ r.run.time + r.marks.every)) };
}

impl Recording {
    /// A run of these caches that has taken in no row and passed no mark.
    ///
    /// # Errors
    ///
    /// `NoMemory` only where memory was refused.
    pub fn new(alloc: Global, config: &Config, marks: Marks) -> Result<Recording, NoMemory>
        ensures config { IfOk result (λ r. r.run.config ≡ config.now) }
        ensures time { IfOk result (λ r. r.run.time ≡ 0) }
        ensures marks { IfOk result (λ r. (r.start ≡ marks.start) × (r.every ≡ marks.every)) }
        ensures none { IfOk result (λ r. IsRecordingOf [] r) }
    {
        let run = Run::new(alloc, config)?;
        Ok(Recording {
            run,
            marks,
            moments: Vec::new(alloc),
            next: marks.start,
        })
    }

    /// Takes in more rows, in any order, none of which is before the time that the run has reached. Nothing is executed.
    ///
    /// # Errors
    ///
    /// `NoMemory` only where memory was refused. The recording is gone then.
    pub fn take(self, alloc: Global, rows: &[Row]) -> Result<Recording, NoMemory>
        requires ranges { All (IsRow self.run.config.edges) rows.now }
        requires late { All (λ row. self.run.time ≤ row.time) rows.now }
        requires few { self.run.taken + length rows.now ≤ 2 ^ 64 - 1 }
        ensures config { IfOk result (λ r. r.run.config ≡ self.run.config) }
        ensures time { IfOk result (λ r. r.run.time ≡ self.run.time) }
        ensures count { IfOk result (λ r.
            r.run.taken ≡ self.run.taken + length rows.now) }
        ensures marks { IfOk result (λ r. (r.start ≡ self.start) × (r.every ≡ self.every)) }
        ensures same { IfOk result (λ r. r.moments ≡ self.moments) }
        ensures taken { IfOk result (λ r. (before : List Row) → IsRecordingOf before self
            → IsRecordingOf (before ++ rows.now) r) }
    {
        let Recording {
            run,
            marks,
            moments,
            next,
        } = self;
        let run = run.take(alloc, rows)?;
        Ok(Recording {
            run,
            marks,
            moments,
            next,
        })
    }

    /// Takes in more rows as [`take`](Self::take), where they stand in order of time.
    ///
    /// # Errors
    ///
    /// Those of `take`.
    fn take_in_order(self, alloc: Global, rows: Vec<Row>) -> Result<Recording, NoMemory>
        requires ranges { All (IsRow self.run.config.edges) rows.items }
        requires rising { RiseFrom self.run.time rows.items }
        requires few { self.run.taken + length rows.items ≤ 2 ^ 64 - 1 }
        ensures config { IfOk result (λ r. r.run.config ≡ self.run.config) }
        ensures time { IfOk result (λ r. r.run.time ≡ self.run.time) }
        ensures count { IfOk result (λ r.
            r.run.taken ≡ self.run.taken + length rows.items) }
        ensures marks { IfOk result (λ r. (r.start ≡ self.start) × (r.every ≡ self.every)) }
        ensures same { IfOk result (λ r. r.moments ≡ self.moments) }
        ensures taken { IfOk result (λ r. (before : List Row) → IsRecordingOf before self
            → IsRecordingOf (before ++ rows.items) r) }
    {
        let Recording {
            run,
            marks,
            moments,
            next,
        } = self;
        let run = run.take_in_order(alloc, rows)?;
        Ok(Recording {
            run,
            marks,
            moments,
            next,
        })
    }

    /// Takes in rows that stand in order of time, none before the time that the run has reached, and goes on to the time of the last
    /// one. Each mark up to that one is passed on the way.
    ///
    /// # Errors
    ///
    /// `Exhausted` only where some cache, on the way, would execute an event in a state that can take no further one, and `Memory`
    /// only where memory was refused. The recording is gone then.
    pub fn feed(self, alloc: Global, rows: &[Row]) -> Result<Recording, Refusal>
        requires ranges { All (IsRow self.run.config.edges) rows.now }
        requires rising { RiseFrom self.run.time rows.now }
        requires few { self.run.taken + length rows.now ≤ 2 ^ 64 - 1 }
        ensures config { IfOk result (λ r. r.run.config ≡ self.run.config) }
        ensures marks { IfOk result (λ r. (r.start ≡ self.start) × (r.every ≡ self.every)) }
        ensures time { IfOk result (λ r. r.run.time ≡ last_time self.run.time rows.now) }
        ensures fed { IfOk result (λ r. (before : List Row) → IsRecordingOf before self
            → IsRecordingOf (before ++ rows.now) r) }
        ensures exhausted { IfErr result (λ e. e ≡ Refusal.Exhausted
            → (before : List Row) → IsRecordingOf before self
            → Meets (simulation self.run.config (before ++ rows.now))
            (last_time self.run.time rows.now) is_exhausted) }
    {
        let piece = Vec::from_slice(alloc, rows)?;
        self.feed_piece(alloc, piece)
    }

    /// Takes in rows as [`feed`](Self::feed), which are not copied.
    ///
    /// # Errors
    ///
    /// Those of `feed`.
    pub fn feed_piece(self, alloc: Global, rows: Vec<Row>) -> Result<Recording, Refusal>
        requires ranges { All (IsRow self.run.config.edges) rows.items }
        requires rising { RiseFrom self.run.time rows.items }
        requires few { self.run.taken + length rows.items ≤ 2 ^ 64 - 1 }
        ensures config { IfOk result (λ r. r.run.config ≡ self.run.config) }
        ensures marks { IfOk result (λ r. (r.start ≡ self.start) × (r.every ≡ self.every)) }
        ensures time { IfOk result (λ r. r.run.time ≡ last_time self.run.time rows.items) }
        ensures fed { IfOk result (λ r. (before : List Row) → IsRecordingOf before self
            → IsRecordingOf (before ++ rows.items) r) }
        ensures exhausted { IfErr result (λ e. e ≡ Refusal.Exhausted
            → (before : List Row) → IsRecordingOf before self
            → Meets (simulation self.run.config (before ++ rows.items))
            (last_time self.run.time rows.items) is_exhausted) }
    {
        let piece = rows.as_slice();
        if piece.is_empty() {
            return Ok(self);
        }
        let until = latest(piece, self.run.time());
        let mut recording = self.take_in_order(alloc, rows)?;
        'marks: while recording.next() <= until {
            recording = recording.record(alloc)?;
        }
        recording.run_until(alloc, until)
    }

    /// Goes on until nothing waits, and gives what the caches have counted by each mark, up to the first one at which nothing
    /// waits: at least by the first of all. The run has not gone past the latest time of a row.
    ///
    /// # Errors
    ///
    /// Those of [`feed`](Self::feed).
    pub fn finish(self, alloc: Global) -> Result<Vec<Moment>, Refusal>
        requires { self.run.time ≤ latest_time }
        ensures history { IfOk result (λ moments. (rows : List Row) → IsRecordingOf rows self
            → IsHistory (simulation self.run.config rows) self.start self.every moments.items) }
        ensures exhausted { IfErr result (λ e. e ≡ Refusal.Exhausted
            → (rows : List Row) → IsRecordingOf rows self
            → Meets (simulation self.run.config rows) end_of_time is_exhausted) }
    {
        let mut recording = self.record(alloc)?;
        'marks: while !recording.is_done() {
            recording = recording.record(alloc)?;
        }
        let Recording {
            run: _,
            marks: _,
            moments,
            next: _,
        } = recording;
        Ok(moments)
    }

    /// Whether nothing waits.
    fn is_done(&self) -> bool
        ensures done { IsTrue result ↔ (self.now.run.waiting ≡ []) }
        ensures soon { result ≡ false → self.now.run.time < end_of_time }
    {
        self.run.is_done()
    }

    /// The mark that comes next, in ticks.
    fn next(&self) -> u64
        ensures mark { result ≡ next_mark self.now }
        ensures later { self.now.run.time ≤ next_mark self.now }
    {
        self.next
    }

    /// Goes on to the mark that comes next, and records what the caches have counted by then.
    fn record(self, alloc: Global) -> Result<Recording, Refusal>
        requires { self.run.time ≤ 2 ^ 41 }
        ensures config { IfOk result (λ r. r.run.config ≡ self.run.config) }
        ensures marks { IfOk result (λ r. (r.start ≡ self.start) × (r.every ≡ self.every)) }
        ensures time { IfOk result (λ r. r.run.time ≡ next_mark self) }
        ensures later { IfOk result (λ r. next_mark self < next_mark r) }
        ensures near { IfOk result (λ r. next_mark r ≤ r.run.time + end_of_time) }
        ensures taken { IfOk result (λ r. r.run.taken ≡ self.run.taken) }
        ensures run { IfOk result (λ r. (rows : List Row) → IsRunOn rows self.run
            → IsRunOn rows r.run) }
        ensures count { IfOk result (λ r. length r.moments ≡ length self.moments + 1) }
        ensures moments { IfOk result (λ r. (rows : List Row) → IsRunOn rows self.run
            → AreMomentsFrom (simulation self.run.config rows) self.every self.start self.moments
            → AreMomentsFrom (simulation self.run.config rows) self.every self.start r.moments) }
        ensures exhausted { IfErr result (λ e. e ≡ Refusal.Exhausted
            → (rows : List Row) → IsRunOn rows self.run
            → Meets (simulation self.run.config rows) (next_mark self) is_exhausted) }
    {
        let Recording {
            run,
            marks,
            mut moments,
            next,
        } = self;
        let run = run.run_until(alloc, next)?;
        let counters = counters_of(alloc, run.states())?;
        moments.push(Moment {
            time: next,
            counters,
        })?;
        Ok(Recording {
            run,
            marks,
            moments,
            next: next + marks.every,
        })
    }

    /// Goes on to a time that is not past the mark that comes next, in ticks.
    fn run_until(self, alloc: Global, until: u64) -> Result<Recording, Refusal>
        requires later { self.run.time ≤ until }
        requires before { until ≤ next_mark self }
        ensures config { IfOk result (λ r. r.run.config ≡ self.run.config) }
        ensures marks { IfOk result (λ r. (r.start ≡ self.start) × (r.every ≡ self.every)) }
        ensures time { IfOk result (λ r. r.run.time ≡ until) }
        ensures same { IfOk result (λ r. r.moments ≡ self.moments) }
        ensures run { IfOk result (λ r. (rows : List Row) → IsRunOn rows self.run
            → IsRunOn rows r.run) }
        ensures exhausted { IfErr result (λ e. e ≡ Refusal.Exhausted
            → (rows : List Row) → IsRunOn rows self.run
            → Meets (simulation self.run.config rows) until is_exhausted) }
    {
        let Recording {
            run,
            marks,
            moments,
            next,
        } = self;
        let run = run.run_until(alloc, until)?;
        Ok(Recording {
            run,
            marks,
            moments,
            next,
        })
    }
}

/// The time of the last of some rows, or else this one.
fn latest(rows: &[Row], time: u64) -> u64
    ensures { result ≡ last_time time rows.now }
{
    match rows.last() {
        Some(row) => row.time,
        None => time,
    }
}
