// Rows that are run as they are read.
ghost use Rattle.std.specs.Prelude.{◌≡◌, ◌≤◌, ◌^◌, ◌↔◌, [], All, IfErr, IfOk, IsTrue, OnOk, length};
ghost use Rattle.rw_vt.specs.Limits.{end_of_time};
ghost use Rattle.rw_vt.specs.System.{IsReady, Meets};
ghost use Rattle.rw_trace.specs.Laws.{IsRow};
ghost use Rattle.rw_trace.specs.Pieces.{RiseFrom};
ghost use Rattle.rw_photo.specs.contracts.photo.PhotoVtModel.TheImpl as model;
ghost use Rattle.rw_photo.specs.Cache.{is_exhausted};
ghost use Rattle.rw_photo.specs.Simulation.{simulation};
ghost use Rattle.rw_report.specs.History.{IsHistory, IsRecordingOf, RecordingState};
ghost use Rattle.rw_report.specs.Streams.{IsStreamFault, IsStreamed};

use crate::moments::{Marks, Moment};
use crate::recording::Recording;
use crate::sim_fault::SimFault;
use crate::with_progress::begin_rows;
use rw_photo::Config;
use rw_progress::Progress;
use rw_trace::{Row, RowSource, next_piece};
use rw_vt::{NoMemory, Refusal};
use std::alloc::Global;

/// How many rows are read at a time.
const PIECE: usize = 1 << 12;

/// What the caches have counted by each mark of a run of rows that are read as the run goes on. However many rows there are, it needs
/// the memory of a few thousand of them, of the caches and of what is on its way. Reports to `progress` the time of the first row of
/// each piece, in ticks.
///
/// # Errors
///
/// `Trace` with the first fault of the rows, in the order of reading, and `Read` where a reader underneath answers an error;
/// `Exhausted` only where the run of the rows read so far comes to a cache that can take no further event; and `Memory` only where
/// memory was refused.
pub fn record_stream<S: RowSource, P: Progress>(
    alloc: Global,
    rows: &mut S,
    config: &Config,
    marks: Marks,
    progress: &mut P,
) -> Result<Vec<Moment>, SimFault>
    requires edges { (S.rest rows.old).edges ≡ config.now.edges }
    requires begins { (S.rest rows.old).latest ≡ 0 }
    requires few { (S.rest rows.old).most ≤ 2 ^ 63 }
    ensures streamed { IfOk result (λ moments. IsStreamed config.now marks.start marks.every
        (S.rest rows.old).ahead moments.items) }
    ensures fault { IfErr result (IsStreamFault config.now (S.rest rows.old).ahead) }
{
    let mut recording = Recording::new(alloc, config, marks)?;
    'pieces: loop {
        let mut piece = room_for_piece(alloc)?;
        next_piece(rows, PIECE, &mut piece)?;
        reach(piece.as_slice(), progress);
        let count = piece.len();
        recording = recording.feed_piece(alloc, piece)?;
        if count < PIECE {
            return Ok(recording.finish(alloc)?);
        }
    }
}

/// Room for a piece.
fn room_for_piece(alloc: Global) -> Result<Vec<Row>, NoMemory> {
    Ok(Vec::with_capacity(alloc, PIECE)?)
}

/// What the caches have counted by each mark of a run of these rows, which are in the ranges of a trace of the configuration's edges.
/// Where the rows stand in order of time, reports to `progress` how far the run has come, in ticks of virtual time.
///
/// # Errors
///
/// `Exhausted` only where the run comes to a cache that can take no further event, and `Memory` only where memory was refused.
pub fn record_rows<P: Progress>(
    alloc: Global,
    rows: &[Row],
    config: &Config,
    marks: Marks,
    progress: &mut P,
) -> Result<Vec<Moment>, Refusal>
    requires ranges { All (IsRow config.now.edges) rows.now }
    requires few { length rows.now ≤ 2 ^ 63 }
    ensures ready { OnOk result (IsReady model.ghosts (record { config = config.now })
        (simulation config.now rows.now).starts (simulation config.now rows.now).initial) }
    ensures history { IfOk result (λ moments.
        IsHistory (simulation config.now rows.now) marks.start marks.every moments.items) }
    ensures exhausted { IfErr result (λ r. r ≡ Refusal.Exhausted
        → Meets (simulation config.now rows.now) end_of_time is_exhausted) }
{
    let recording = Recording::new(alloc, config, marks)?;
    if is_rising(rows) {
        begin_rows(rows, &[], progress);
        return record_in_order(alloc, recording, rows, progress);
    }
    let recording = recording.take(alloc, rows)?;
    recording.finish(alloc)
}

/// The same, from a recording that has taken in no row, of rows that stand in order of time.
fn record_in_order<P: Progress>(
    alloc: Global,
    recording: Recording,
    rows: &[Row],
    progress: &mut P,
) -> Result<Vec<Moment>, Refusal>
    requires none { IsRecordingOf [] recording }
    requires time { recording.run.time ≡ 0 }
    requires ranges { All (IsRow recording.run.config.edges) rows.now }
    requires rising { RiseFrom 0 rows.now }
    requires few { length rows.now ≤ 2 ^ 63 }
    ensures recorded { OnOk result ((after : RecordingState)
        × IsRecordingOf rows.now after × (after.run.config ≡ recording.run.config)) }
    ensures history { IfOk result (λ moments. IsHistory (simulation recording.run.config rows.now)
        recording.start recording.every moments.items) }
    ensures exhausted { IfErr result (λ r. r ≡ Refusal.Exhausted
        → Meets (simulation recording.run.config rows.now) end_of_time is_exhausted) }
{
    let mut recorded = recording;
    let mut rest = rows;
    'pieces: while !rest.is_empty() {
        let (piece, later) = rest.split_at(PIECE.min(rest.len()));
        recorded = recorded.feed(alloc, piece)?;
        rest = later;
        reach(rest, progress);
    }
    recorded.finish(alloc)
}

/// Reports that a run has come to the first of these rows, if there is one.
fn reach<P: Progress>(rest: &[Row], progress: &mut P) {
    if let Some(row) = rest.first() {
        progress.reach(row.time);
    }
}

/// Whether rows stand in order of time.
fn is_rising(rows: &[Row]) -> bool
    ensures { IsTrue result ↔ RiseFrom 0 rows.now }
{
    let mut latest = 0;
    for row in rows {
        if row.time < latest {
            return false;
        }
        latest = row.time;
    }
    true
}
