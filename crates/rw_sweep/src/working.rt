ghost use Rattle.std.specs.Prelude.{◌≡◌, All, None, replicate, length, IfOk, OnOk};
ghost use Rattle.std.specs.Thread.{IsSync};
ghost use Rattle.rw_sweep.specs.Working.{AreSlots, CanRun, IsEntryOf};

use crate::batch::Batch;
use crate::entry::{Entry, Lines};
use crate::point::Point;
use crate::running::run_one;
use rw_progress::{Progress, Silent};
use rw_trace::Row;
use rw_vt::NoMemory;
use std::alloc::{AllocError, Global};
use std::sync::atomic::{AtomicU64, AtomicUsize, Ordering};
use std::thread::{Threads, join, map_indices};

/// How far all workers have come. No proof rests on it: a configuration that no worker takes up is run in the end, and of one
/// that two take up, one result is kept.
#[derive(Drop)]
struct Pace {
    next: AtomicUsize,
    done: AtomicU64,
}

/// Runs the configurations side by side by so many workers, of which the calling thread is one, and returns what became of each
/// that was taken up. Where a thread cannot be started there are fewer workers.
pub(crate) fn run_all<P: Progress, R: Threads + Sync>(
    rt: &R,
    alloc: Global,
    batch: Batch<'_>,
    progress: &mut P,
) -> Result<Vec<Option<Lines>>, NoMemory>
    requires { All (CanRun batch.rows.now) batch.points.now }
    ensures { IfOk result (λ slots.
        AreSlots batch.entry.rows.now batch.entry.points.now slots.items) }
{
    let Batch {
        rows,
        points,
        before,
        workers,
    } = batch;
    let pace = Pace {
        next: AtomicUsize::new(0),
        done: AtomicU64::new(before),
    };
    let mut slots = empty_slots(alloc, points.len())?;
    let others = workers.saturating_sub(1);
    if others == 0 {
        let own = work(alloc, rows, points, &pace, progress)?;
        place_all(rows, points, &mut slots, own);
        return Ok(slots);
    }
    let shared = &pace;
    let (others, own) = join(
        rt,
        move || -> Result<Vec<Result<Vec<Entry>, NoMemory>>, AllocError>
            requires { IsSync R.row × All (CanRun rows.now) points.now }
            ensures { IfOk result (λ all.
                All (λ r. IfOk r (λ es. All (IsEntryOf rows.entry.now points.entry.now) es.items))
                all.items) }
        { work_beside(rt, alloc, rows, points, shared, others) },
        move || -> Result<Vec<Entry>, NoMemory>
            requires { All (CanRun rows.now) points.now }
            ensures { IfOk result (λ es.
                All (IsEntryOf rows.entry.now points.entry.now) es.items) }
        { work(alloc, rows, points, shared, progress) },
    );
    place_all(rows, points, &mut slots, own?);
    place_others(rows, points, &mut slots, others?)?;
    Ok(slots)
}

/// Runs configurations in so many threads, which report no progress.
fn work_beside<R: Threads + Sync>(
    rt: &R,
    alloc: Global,
    rows: &[Row],
    points: &[Point],
    pace: &Pace,
    workers: usize,
) -> Result<Vec<Result<Vec<Entry>, NoMemory>>, AllocError>
    requires { All (CanRun rows.now) points.now }
    ensures { IfOk result (λ all.
        All (λ r. IfOk r (λ es. All (IsEntryOf rows.now points.now) es.items)) all.items) }
{
    map_indices(
        rt,
        alloc,
        workers,
        &|_worker| { work(alloc, rows, points, pace, &mut Silent) },
    )
}

/// Takes up configurations until none is left, and returns what became of each.
fn work<P: Progress>(
    alloc: Global,
    rows: &[Row],
    points: &[Point],
    pace: &Pace,
    progress: &mut P,
) -> Result<Vec<Entry>, NoMemory>
    requires { All (CanRun rows.now) points.now }
    ensures { IfOk result (λ es. All (IsEntryOf rows.now points.now) es.items) }
{
    let mut entries = Vec::new(alloc);
    for _ in 0..points.len() {
        let index = pace.next.fetch_add(1, Ordering::SeqCst);
        if index >= points.len() {
            break;
        }
        let lines = run_one(alloc, rows, &points[index]);
        entries.push(Entry { index, lines })?;
        let done = pace.done.fetch_add(1, Ordering::SeqCst);
        progress.reach(done.saturating_add(1));
    }
    Ok(entries)
}

/// A slot for each configuration, with nothing in it.
fn empty_slots(alloc: Global, count: usize) -> Result<Vec<Option<Lines>>, NoMemory>
    ensures { IfOk result (λ slots. slots.items ≡ replicate count None) }
{
    let mut slots = Vec::with_capacity(alloc, count)?;
    for _ in 0..count {
        slots.push(None)?;
    }
    Ok(slots)
}

/// Puts what became of configurations into their slots.
fn place_all(_rows: &[Row], _points: &[Point], slots: &mut Vec<Option<Lines>>, entries: Vec<Entry>)
    requires slots { AreSlots _rows.now _points.now slots.old.items }
    requires entries { All (IsEntryOf _rows.now _points.now) entries.items }
    ensures { AreSlots _rows.now _points.now slots.new.items }
{
    for entry in entries {
        place(_rows, _points, slots, entry);
    }
}

/// Puts what became of a configuration into its slot.
fn place(_rows: &[Row], _points: &[Point], slots: &mut Vec<Option<Lines>>, entry: Entry)
    requires slots { AreSlots _rows.now _points.now slots.old.items }
    requires entry { IsEntryOf _rows.now _points.now entry }
    ensures { AreSlots _rows.now _points.now slots.new.items }
{
    let Entry { index, lines } = entry;
    if index >= slots.len() {
        return;
    }
    slots[index] = Some(lines);
}

/// Puts into their slots what became of the configurations that other workers took up.
fn place_others(
    rows: &[Row],
    points: &[Point],
    slots: &mut Vec<Option<Lines>>,
    others: Vec<Result<Vec<Entry>, NoMemory>>,
) -> Result<(), NoMemory>
    requires slots { AreSlots rows.now points.now slots.old.items }
    requires others { All (λ r. IfOk r (λ es. All (IsEntryOf rows.now points.now) es.items))
        others.items }
    ensures { OnOk result (AreSlots rows.now points.now slots.new.items) }
{
    for entries in others {
        let entries = entries?;
        place_all(rows, points, slots, entries);
    }
    Ok(())
}
