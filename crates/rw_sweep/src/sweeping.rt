// What a sweep runs, and the table that it writes.
ghost use Rattle.std.specs.Prelude.{◌≡◌, ◌≢◌, ◌↔◌, ◌⊎◌, true, false, Err, All, IfErr, IfSome, OnOk};
ghost use Rattle.rw_trace.specs.declared.TraceFault.{TraceFault};
ghost use Rattle.rw_report.specs.Intervals.{AreMarks};
ghost use Rattle.rw_sweep.specs.Limits.{most_configurations, most_workers};
ghost use Rattle.rw_sweep.specs.Points.{IsOfGrid};
ghost use Rattle.rw_sweep.specs.Working.{HasTaken, HasTakenFirst, IsAcceptedWith, IsFaultOfPoints};

use crate::batch::Batch;
use crate::chosen::points_of_trace;
use crate::facts::facts_of;
use crate::grid::{Grid, MAX_CONFIGURATIONS};
use crate::part::Part;
use crate::point::Point;
use crate::waves::write_all;
use rw_progress::Progress;
use rw_report::{Out, Outlook, SimFault};
use rw_trace::read;
use std::alloc::Global;
use std::io::Write;
use std::thread::Threads;

/// The most workers of a sweep.
pub const MAX_WORKERS: u32 = 64;

/// What a sweep runs, and what it reports.
#[derive(Clone, Copy)]
pub struct Sweeping<'a> {
    /// The configurations.
    pub grid: &'a Grid,
    /// The part of the grid to run. `None` runs all of it. Each line of a part begins with the place of its configuration in the
    /// grid, from 0, in a column `place`.
    pub part: Option<Part>,
    /// How many configurations run side by side, 1 to [`MAX_WORKERS`]; any other number is taken for the nearest of these.
    pub workers: u32,
    /// What is reported of each configuration.
    pub outlook: Outlook,
}

/// A table of some configurations of a grid: a header, and behind it the lines of each.
#[derive(Clone, Copy)]
pub(crate) struct Table<'a> {
    /// The grid.
    pub(crate) grid: &'a Grid,
    /// Those of its configurations that are run, in order.
    pub(crate) points: &'a [Point],
    /// What stands before all lines.
    pub(crate) header: &'a [u8],
    /// How many configurations run side by side.
    pub(crate) workers: u32,
}

/// Reads a trace, and writes a table of what some configurations make of it.
pub(crate) fn sweep_points<W: Write, P: Progress, R: Threads + Sync>(
    rt: &R,
    alloc: Global,
    bytes: &[u8],
    table: Table<'_>,
    progress: &mut P,
    out: &mut Out<W>,
) -> Result<(), SimFault>
    requires of_grid { All (IsOfGrid table.grid.now) table.points.now }
    requires marks { All (λ p. IfSome p.outlook AreMarks) table.points.now }
    ensures table { OnOk result (IsAcceptedWith table.entry.grid.now bytes.now
        (λ rows. HasTaken true rows table.entry.points.now table.entry.header.now
        (W.contents out.old.writer) (W.contents out.new.writer))) }
    ensures fault { IfErr result
        (IsFaultOfPoints table.entry.grid.now bytes.now table.entry.points.now) }
    ensures output { (result ≡ Err SimFault.Output) ↔ (out.new.failures ≢ out.old.failures) }
    ensures cut_off { result ≡ Err SimFault.Output → IsAcceptedWith table.entry.grid.now bytes.now
        (λ rows. HasTakenFirst false rows table.entry.points.now table.entry.header.now
        (W.contents out.old.writer) (W.contents out.new.writer)) }
    ensures nothing { (fault : TraceFault) → result ≡ Err (SimFault.Trace fault)
        → out.new ≡ out.old }
    ensures whole_lines { IfErr result (λ e. e ≢ SimFault.Output
        → (out.new ≡ out.old) ⊎ IsAcceptedWith table.entry.grid.now bytes.now
        (λ rows. HasTakenFirst true rows table.entry.points.now table.entry.header.now
        (W.contents out.old.writer) (W.contents out.new.writer))) }
{
    let all = read(alloc, bytes, table.grid.edges())?;
    let rows = all.as_slice();
    let points = points_of_trace(alloc, table.points, facts_of(rows))?;
    let points = points.as_slice();
    let batch = Batch {
        rows,
        points,
        before: 0,
        workers: table.workers.clamp(1, MAX_WORKERS) as usize,
    };
    if write_all(rt, alloc, batch, table.header, progress, out)? {
        Ok(())
    } else {
        Err(SimFault::Output)
    }
}

/// Each of the constants of a sweep is the limit that stands in `specs/Limits.antt`, which the definitions cite. The call
/// itself does nothing.
pub fn every_limit()
    ensures configurations { MAX_CONFIGURATIONS ≡ most_configurations }
    ensures workers { MAX_WORKERS ≡ most_workers }
{}
