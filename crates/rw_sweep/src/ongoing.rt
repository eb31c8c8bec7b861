// Runs of configurations that take rows as they are read.
ghost use Rattle.std.specs.Prelude.{◌≡◌, ◌<◌, [], All, IfErr, IfOk, List, OnOk, map, unwrap_or};
ghost use Rattle.std.specs.List.{Any};
ghost use Rattle.rw_vt.specs.Limits.{end_of_time};
ghost use Rattle.rw_vt.specs.System.{Meets};
ghost use Rattle.rw_trace.specs.declared.Row.{Row};
ghost use Rattle.rw_photo.specs.Cache.{is_exhausted};
ghost use Rattle.rw_photo.specs.Simulation.{simulation};
ghost use Rattle.rw_sweep.specs.Facts.{facts_of};
ghost use Rattle.rw_sweep.specs.Ongoing.{AreFed, HasNotEnded, HasTakenPiece, HasTexts, IsFed, IsGoingOn, IsToTell, MayFinish, MayTake, TakesPiece};
ghost use Rattle.rw_sweep.specs.Working.{IsTextOfPoint};

use crate::facts::Facts;
use crate::point::Point;
use crate::point_text::told_of_point;
use rw_photo::NoMemory;
use rw_report::{Marks, Outlook, Recording};
use rw_trace::Row;
use rw_vt::Refusal;
use std::alloc::Global;
use std::mem::replace;
use std::thread::{Threads, for_each_mut};

/// How many rows of a piece a run takes in at a time.
const PART: usize = 1 << 14;

/// A configuration whose run takes rows as they are read.
#[derive(Drop)]
pub(crate) struct OngoingRun {
    pub(crate) point: Point,
    /// Where it stands, or why it has ended.
    pub(crate) recording: Result<Recording, Refusal>,
}

/// A run of each configuration that has taken no row, and is recorded at these marks.
pub(crate) fn begin_all(
    alloc: Global,
    points: &[Point],
    marks: Marks,
) -> Result<Vec<OngoingRun>, NoMemory>
    ensures points { IfOk result (λ runs. map (λ g. g.point) runs.items ≡ points.now) }
    ensures going { IfOk result (λ runs. All (IsGoingOn
        (record { start = marks.start; every = marks.every }) []) runs.items) }
    ensures not_ended { IfOk result (λ runs. All HasNotEnded runs.items) }
{
    let mut runs = Vec::with_capacity(alloc, points.len())?;
    for point in points {
        let recording = Recording::new(alloc, &point.config, marks)?;
        runs.push(OngoingRun {
            point: *point,
            recording: Ok(recording),
        })?;
    }
    Ok(runs)
}

/// Feeds a piece to each run, side by side in at most so many threads; with one, none is started.
pub(crate) fn feed_all<R: Threads + Sync>(
    rt: &R,
    alloc: Global,
    runs: &mut [OngoingRun],
    piece: &[Row],
    workers: usize,
)
    requires workers { 0 < workers }
    requires may { All (MayTake piece.now) runs.old }
    ensures { AreFed piece.now runs.old runs.new }
{
    for_each_mut(rt, runs, workers, &|_index, run| feed(alloc, run, piece));
}

/// Feeds a piece to a run, which goes on to the time of its last row.
fn feed(alloc: Global, run: &mut OngoingRun, piece: &[Row])
    requires { MayTake piece.now run.old }
    ensures { IsFed piece.now run.old run.new }
{
    let recording = replace(&mut run.recording, Err(Refusal::Memory));
    run.recording = match recording {
        Ok(recording) => feed_in_parts(alloc, recording, piece),
        Err(refusal) => Err(refusal),
    };
}

/// Feeds a piece to a recording, a part at a time, so that few of its events wait at once.
///
/// # Errors
///
/// Those of [`Recording::feed`].
fn feed_in_parts(alloc: Global, recording: Recording, piece: &[Row]) -> Result<Recording, Refusal>
    requires { TakesPiece piece.now recording }
    ensures { HasTakenPiece piece.now recording result }
{
    let mut recording = recording;
    let mut rest = piece;
    'parts: while rest.len() > PART {
        let (part, more) = rest.split_at(PART);
        recording = recording.feed(alloc, part)?;
        rest = more;
    }
    recording.feed(alloc, rest)
}

/// The error of the first of these runs that has ended with one, if any has.
pub(crate) fn first_refusal(runs: &[OngoingRun]) -> Result<(), Refusal>
    ensures not_ended { OnOk result (All HasNotEnded runs.now) }
    ensures ended { IfErr result (λ e. Any (λ g. g.recording ≡ Err e) runs.now) }
{
    for run in runs {
        if let Err(refusal) = &run.recording {
            return Err(*refusal);
        }
    }
    Ok(())
}

/// A header, and behind it what an outlook asks for of each run, in order, once it has gone on to its end. `facts` are those of the
/// trace.
pub(crate) fn text_of_runs(
    alloc: Global,
    runs: Vec<OngoingRun>,
    outlook: Outlook,
    facts: Facts,
    header: &[u8],
) -> Result<Vec<u8>, Refusal>
    requires may_finish { All MayFinish runs.items }
    requires to_tell { All (λ g. IsToTell outlook g.point) runs.items }
    ensures told { IfOk result (λ text. (rows : List Row) → facts ≡ facts_of rows
        → All (IsGoingOn (record {
          start = unwrap_or outlook.warm_up 0;
          every = unwrap_or outlook.every end_of_time;
        }) rows) runs.items
        → HasTexts rows (map (λ g. g.point) runs.items) header.now text.items) }
    ensures exhausted { IfErr result (λ e. e ≡ Refusal.Exhausted → (rows : List Row)
        → All (IsGoingOn (record {
          start = unwrap_or outlook.warm_up 0;
          every = unwrap_or outlook.every end_of_time;
        }) rows) runs.items
        → Any (λ g. Meets (simulation g.point.config rows) end_of_time is_exhausted)
        runs.items) }
{
    let mut text = Vec::from_slice(alloc, header)?;
    for run in runs {
        let lines = finish(alloc, run, outlook, facts)?;
        text.extend_from_slice(lines.as_slice())?;
    }
    Ok(text)
}

/// Goes on with a run to its end, and returns what an outlook asks for of it. `facts` are those of the trace.
fn finish(
    alloc: Global,
    run: OngoingRun,
    outlook: Outlook,
    facts: Facts,
) -> Result<Vec<u8>, Refusal>
    requires may_finish { MayFinish run }
    requires to_tell { IsToTell outlook run.point }
    ensures told { IfOk result (λ text. (rows : List Row) → facts ≡ facts_of rows
        → IsGoingOn (record {
          start = unwrap_or outlook.warm_up 0;
          every = unwrap_or outlook.every end_of_time;
        }) rows run
        → IsTextOfPoint rows run.point text.items) }
    ensures exhausted { IfErr result (λ e. e ≡ Refusal.Exhausted → (rows : List Row)
        → IsGoingOn (record {
          start = unwrap_or outlook.warm_up 0;
          every = unwrap_or outlook.every end_of_time;
        }) rows run
        → Meets (simulation run.point.config rows) end_of_time is_exhausted) }
{
    let OngoingRun { point, recording } = run;
    let Ok(recording) = recording else {
        unreachable!()
    };
    let moments = recording.finish(alloc)?;
    let point = Point { facts, ..point };
    let text = told_of_point(alloc, &point, outlook, moments.as_slice())?;
    Ok(text)
}
