// Sweeps of a trace in memory.
ghost use Rattle.std.specs.Prelude.{◌≡◌, ◌≢◌, ◌↔◌, ◌⊎◌, Err, IfErr, OnOk};
ghost use Rattle.rw_trace.specs.declared.TraceFault.{TraceFault};
ghost use Rattle.rw_sweep.specs.InMemory.{HasBegunUnder, HasBegunCounts, HasSweptUnder, HasSweptFirstUnder, HasSweptFirstCounts, HasSweptCounts, IsFaultUnder, IsCountsFault};

use crate::chosen::chosen_points;
use crate::over_time::sweep_over_time;
use crate::sweeping::{Sweeping, Table, sweep_points};
use crate::table::header_under;
use rw_progress::Progress;
use rw_report::{Out, SimFault};
use std::alloc::Global;
use std::io::Write;
use std::thread::Threads;

/// Runs one trace under each configuration of a grid, or of a part of it, and writes a table of what the outlook asks for.
///
/// The table is a header, then some lines for each configuration, in the order of the grid:
///
/// - Three lines, for the edges, the origins and all caches: what they have counted together, from `warm_up` on where the outlook
///   says so.
/// - With `every`, three such lines for each interval, behind the columns that say which configuration.
///
/// As text and as CSV it is the same. As JSON each line is an object on a line of its own, which names its columns, and there is no
/// header.
///
/// The trace is read once. The workers take up configurations side by side; the calling thread is one of them, and with one worker
/// no thread is started. Where a thread cannot be started there are fewer. The table does not depend on any of that.
///
/// The header goes out once the trace is accepted. The lines of a configuration go out when it, all before it and those that run
/// beside it are done: as one text, written by a loop over `write`, then flushed. So a sweep that is ended from outside leaves no
/// half line, where the writer takes a text whole.
///
/// # Errors
///
/// `Trace` with the trace's own fault, and `Plan` where a number of the outlook is out of its range: nothing was written then.
/// `Exhausted` only where a configuration comes to a cache that can take no further event, and `Memory` only where memory was
/// refused. What went out then is nothing, or the header and the lines of the first configurations, whole. Where several
/// configurations fail, the fault is that of the first in order. `Output` exactly where the writer failed, and what went out is
/// then a beginning of the header and the lines of the first configurations.
pub fn sweep<W: Write, P: Progress, R: Threads + Sync>(
    rt: &R,
    alloc: Global,
    bytes: &[u8],
    sweeping: &Sweeping<'_>,
    progress: &mut P,
    out: &mut Out<W>,
) -> Result<(), SimFault>
    ensures table { OnOk result (HasSweptUnder sweeping.now.grid.now sweeping.now.part
        sweeping.now.outlook bytes.now (W.contents out.old.writer) (W.contents out.new.writer)) }
    ensures fault { IfErr result (IsFaultUnder sweeping.now.grid.now sweeping.now.part
        sweeping.now.outlook bytes.now) }
    ensures output { (result ≡ Err SimFault.Output) ↔ (out.new.failures ≢ out.old.failures) }
    ensures cut_off { result ≡ Err SimFault.Output
        → HasBegunUnder sweeping.now.grid.now sweeping.now.part sweeping.now.outlook bytes.now
        (W.contents out.old.writer) (W.contents out.new.writer) }
    ensures nothing { (fault : TraceFault) → result ≡ Err (SimFault.Trace fault)
        → out.new ≡ out.old }
    ensures early { result ≡ Err SimFault.Plan → out.new ≡ out.old }
    ensures whole_lines { IfErr result (λ e. e ≢ SimFault.Output
        → (out.new ≡ out.old) ⊎ HasSweptFirstUnder sweeping.now.grid.now sweeping.now.part
        sweeping.now.outlook bytes.now (W.contents out.old.writer) (W.contents out.new.writer)) }
{
    if sweeping.outlook.is_plain() {
        sweep_plainly(rt, alloc, bytes, sweeping, progress, out)
    } else {
        sweep_over_time(rt, alloc, bytes, sweeping, progress, out)
    }
}

/// Runs the trace, and writes the three lines of each configuration, whatever the outlook.
fn sweep_plainly<W: Write, P: Progress, R: Threads + Sync>(
    rt: &R,
    alloc: Global,
    bytes: &[u8],
    sweeping: &Sweeping<'_>,
    progress: &mut P,
    out: &mut Out<W>,
) -> Result<(), SimFault>
    ensures table { OnOk result (HasSweptCounts sweeping.now.grid.now sweeping.now.part bytes.now
        (W.contents out.old.writer) (W.contents out.new.writer)) }
    ensures fault { IfErr result
        (IsCountsFault sweeping.now.grid.now sweeping.now.part bytes.now) }
    ensures output { (result ≡ Err SimFault.Output) ↔ (out.new.failures ≢ out.old.failures) }
    ensures cut_off { result ≡ Err SimFault.Output
        → HasBegunCounts sweeping.now.grid.now sweeping.now.part bytes.now
        (W.contents out.old.writer) (W.contents out.new.writer) }
    ensures nothing { (fault : TraceFault) → result ≡ Err (SimFault.Trace fault)
        → out.new ≡ out.old }
    ensures whole_lines { IfErr result (λ e. e ≢ SimFault.Output
        → (out.new ≡ out.old)
        ⊎ HasSweptFirstCounts sweeping.now.grid.now sweeping.now.part bytes.now
        (W.contents out.old.writer) (W.contents out.new.writer)) }
{
    let Sweeping {
        grid,
        part,
        workers,
        ..
    } = *sweeping;
    let header = header_under(alloc, part.is_some(), None)?;
    let points = chosen_points(alloc, grid.points(), part)?;
    let table = Table {
        grid,
        points: points.as_slice(),
        header: header.as_slice(),
        workers,
    };
    sweep_points(rt, alloc, bytes, table, progress, out)
}
