// Sweeps over time, and sweeps of rows that are run as they come.
ghost use Rattle.std.specs.Prelude.{◌≡◌, ◌≢◌, ◌≤◌, ◌^◌, ◌↔◌, ◌⊎◌, Err, IfErr, IfOk, OnOk};
ghost use Rattle.rw_trace.specs.declared.TraceFault.{TraceFault};
ghost use Rattle.rw_sweep.specs.Grids.{least_edges};
ghost use Rattle.rw_sweep.specs.OverTime.{HasBegunOverTime, HasSweptFirstOverTime, HasSweptOverTime, IsOverTimeFault};
ghost use Rattle.rw_sweep.specs.Streams.{HasBegunStream, HasBegunToSweepRows, HasSweptRows, HasSweptStream, IsRowsSweepFault, IsStreamSweepFault, TellsOfSweptRows};

use crate::chosen::points_under;
use crate::ongoing::text_of_runs;
use crate::streaming::run_all_streamed;
use crate::sweeping::{MAX_WORKERS, Sweeping, Table, sweep_points};
use crate::table::header_told;
use rw_progress::Progress;
use rw_report::{Out, SimFault, WithProgress};
use rw_trace::{MAX_STREAMED_ROWS, OrderedRows, RowSource};
use std::alloc::Global;
use std::io::{Read, Write};
use std::thread::Threads;

/// Runs a trace in memory, and writes what the outlook asks for; where it asks for no more than the three lines of each
/// configuration, those.
pub(crate) fn sweep_over_time<W: Write, P: Progress, R: Threads + Sync>(
    rt: &R,
    alloc: Global,
    bytes: &[u8],
    sweeping: &Sweeping<'_>,
    progress: &mut P,
    out: &mut Out<W>,
) -> Result<(), SimFault>
    ensures table { OnOk result (HasSweptOverTime sweeping.now.grid.now sweeping.now.part
        sweeping.now.outlook bytes.now (W.contents out.old.writer) (W.contents out.new.writer)) }
    ensures fault { IfErr result (IsOverTimeFault sweeping.now.grid.now sweeping.now.part
        sweeping.now.outlook bytes.now) }
    ensures output { (result ≡ Err SimFault.Output) ↔ (out.new.failures ≢ out.old.failures) }
    ensures cut_off { result ≡ Err SimFault.Output
        → HasBegunOverTime sweeping.now.grid.now sweeping.now.part sweeping.now.outlook bytes.now
        (W.contents out.old.writer) (W.contents out.new.writer) }
    ensures nothing { (fault : TraceFault) → result ≡ Err (SimFault.Trace fault)
        → out.new ≡ out.old }
    ensures early { result ≡ Err SimFault.Plan → out.new ≡ out.old }
    ensures whole_lines { IfErr result (λ e. e ≢ SimFault.Output
        → (out.new ≡ out.old) ⊎ HasSweptFirstOverTime sweeping.now.grid.now sweeping.now.part
        sweeping.now.outlook bytes.now (W.contents out.old.writer) (W.contents out.new.writer)) }
{
    let Sweeping {
        grid,
        part,
        workers,
        outlook,
    } = *sweeping;
    let Some(_) = outlook.marks() else {
        return Err(SimFault::Plan);
    };
    let header = header_told(alloc, part, outlook)?;
    let points = points_under(alloc, grid.points(), part, outlook)?;
    let table = Table {
        grid,
        points: points.as_slice(),
        header: header.as_slice(),
        workers,
    };
    sweep_points(rt, alloc, bytes, table, progress, out)
}

/// Runs a trace in order of time, as it is read, under each configuration of a grid, or of a part of it, and writes the table that
/// [`sweep`](crate::sweep) writes.
///
/// The trace is read once, piece by piece. All configurations run a piece before the next one is read, by so many workers side by
/// side, of which the calling thread is one. Reports to `progress` how many rows are read.
///
/// # Errors
///
/// `Trace` with the trace's first fault, in the order of reading, where `Order` is that a row is before the one in front of it, and
/// `Read` where the reader answers an error. `Exhausted` only where a configuration comes to a cache that can take no further event,
/// and `Memory` only where memory was refused. `Plan` where a number of the outlook is out of its range. Nothing was written with any
/// of these. `Output` exactly where the writer failed, and what went out is then a beginning of the text.
pub fn sweep_stream<D: Read + Drop, W: Write, P: Progress, R: Threads + Sync>(
    rt: &R,
    alloc: Global,
    bytes: D,
    sweeping: &Sweeping<'_>,
    progress: &mut P,
    out: &mut Out<W>,
) -> Result<(), SimFault>
    ensures table { OnOk result (HasSweptStream sweeping.now.grid.now sweeping.now.part
        sweeping.now.outlook (D.remaining bytes)
        (W.contents out.old.writer) (W.contents out.new.writer)) }
    ensures fault { IfErr result (IsStreamSweepFault sweeping.now.grid.now sweeping.now.part
        sweeping.now.outlook (D.remaining bytes)) }
    ensures output { (result ≡ Err SimFault.Output) ↔ (out.new.failures ≢ out.old.failures) }
    ensures cut_off { result ≡ Err SimFault.Output
        → HasBegunStream sweeping.now.grid.now sweeping.now.part sweeping.now.outlook
        (D.remaining bytes) (W.contents out.old.writer) (W.contents out.new.writer) }
    ensures nothing { IfErr result (λ e. e ≢ SimFault.Output → out.new ≡ out.old) }
{
    let rows = OrderedRows::open(alloc, bytes, sweeping.grid.edges(), MAX_STREAMED_ROWS)?;
    let mut source = WithProgress::new(rows, progress);
    sweep_rows(rt, alloc, &mut source, sweeping, out)
}

/// Runs rows in order of time, as their source gives them, under each configuration of a grid, or of a part of it, and writes what
/// [`sweep_stream`] writes of a trace. Reports how many rows it has taken; how many there are is not known.
///
/// # Errors
///
/// Those of the source, and otherwise those of [`sweep_stream`].
pub fn sweep_rows<S: RowSource, W: Write, P: Progress, R: Threads + Sync>(
    rt: &R,
    alloc: Global,
    rows: &mut WithProgress<'_, S, P>,
    sweeping: &Sweeping<'_>,
    out: &mut Out<W>,
) -> Result<(), SimFault>
    requires edges { (S.rest rows.old.source).edges ≡ least_edges sweeping.now.grid.now }
    requires begins { (S.rest rows.old.source).latest ≡ 0 }
    requires few { (S.rest rows.old.source).most ≤ 2 ^ 63 }
    ensures table { OnOk result (HasSweptRows sweeping.now.grid.now sweeping.now.part
        sweeping.now.outlook (S.rest rows.old.source).ahead
        (W.contents out.old.writer) (W.contents out.new.writer)) }
    ensures fault { IfErr result (IsRowsSweepFault sweeping.now.grid.now sweeping.now.part
        sweeping.now.outlook (S.rest rows.old.source).ahead) }
    ensures output { (result ≡ Err SimFault.Output) ↔ (out.new.failures ≢ out.old.failures) }
    ensures cut_off { result ≡ Err SimFault.Output
        → HasBegunToSweepRows sweeping.now.grid.now sweeping.now.part sweeping.now.outlook
        (S.rest rows.old.source).ahead (W.contents out.old.writer) (W.contents out.new.writer) }
    ensures nothing { IfErr result (λ e. e ≢ SimFault.Output → out.new ≡ out.old) }
{
    rows.progress.begin(0, u64::MAX);
    let text = table_of_rows(rt, alloc, rows, sweeping)?;
    rows.progress.about_to_write();
    if out.write_text(text.as_slice()) {
        Ok(())
    } else {
        Err(SimFault::Output)
    }
}

/// The table of rows in order of time, which a source gives.
fn table_of_rows<S: RowSource, R: Threads + Sync>(
    rt: &R,
    alloc: Global,
    rows: &mut S,
    sweeping: &Sweeping<'_>,
) -> Result<Vec<u8>, SimFault>
    requires edges { (S.rest rows.old).edges ≡ least_edges sweeping.now.grid.now }
    requires begins { (S.rest rows.old).latest ≡ 0 }
    requires few { (S.rest rows.old).most ≤ 2 ^ 63 }
    ensures table { IfOk result (λ text. TellsOfSweptRows sweeping.now.grid.now sweeping.now.part
        sweeping.now.outlook (S.rest rows.old).ahead text.items) }
    ensures fault { IfErr result (IsRowsSweepFault sweeping.now.grid.now sweeping.now.part
        sweeping.now.outlook (S.rest rows.old).ahead) }
    ensures unwritten { IfErr result (λ e. e ≢ SimFault.Output) }
{
    let Sweeping {
        grid,
        part,
        workers,
        outlook,
    } = *sweeping;
    let Some(marks) = outlook.marks() else {
        return Err(SimFault::Plan);
    };
    let header = header_told(alloc, part, outlook)?;
    let points = points_under(alloc, grid.points(), part, outlook)?;
    let workers = workers.clamp(1, MAX_WORKERS) as usize;
    let streamed = run_all_streamed(rt, alloc, rows, points.as_slice(), marks, workers)?;
    let (runs, facts) = streamed;
    Ok(text_of_runs(alloc, runs, outlook, facts, header.as_slice())?)
}
