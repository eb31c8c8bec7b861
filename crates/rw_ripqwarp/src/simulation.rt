ghost use Rattle.std.specs.Prelude.{◌≡◌, ◌≢◌, ◌↔◌, Err, IfOk, IfErr, OnOk};
ghost use Rattle.std.specs.Io.KnownBytes.{Appends};
ghost use Rattle.rw_report.specs.Sink.{AppendsBeginning};
ghost use Rattle.rw_engine.specs.Runs.{no_traffic};
ghost use Rattle.rw_ripqwarp.specs.Simulate.{CountsOneWorker, HasGoodPlan, IsRunFault, IsTextOf, IsWarp};
ghost use Rattle.rw_ripqwarp.specs.Headline.{HasWritten, HasWrittenBeginning};

use crate::mode::Mode;
use crate::rounds::rounds_text;
use crate::steps::steps_text;
use rw_engine::Traffic;
use rw_photo::Config;
use rw_progress::{Progress, Silent};
use rw_report::{Out, SimFault, report_of_trace};
use std::alloc::Global;
use std::io::Write;
use std::sync::Wait;
use std::thread::Threads;
use std::time::Clock;

/// Runs a trace and writes its report, or its journal: what the mode says. Tells what the rounds of a run in mode `Warp`
/// did; in the other modes all counts are 0, and no thread is started. One worker executes each event once and undoes none.
///
/// The report of a run in rounds is the one that the run on one thread has: [`one_report`](crate::one_report).
///
/// The text is made whole, then written by a loop over `write`, then flushed. `Output` is answered exactly where the
/// writer failed in the call, and what went out is then a beginning of the text; with any other fault nothing was written.
/// The trace is tested before the plan. One worker starts no thread, and its rounds are never used up.
pub fn simulate<W: Write, R: Threads + Wait + Clock + Sync>(
    rt: &R,
    alloc: Global,
    bytes: &[u8],
    config: &Config,
    mode: Mode,
    out: &mut Out<W>,
) -> Result<Traffic, SimFault>
    ensures report { OnOk result (HasWritten mode config.now bytes.now
        (W.contents out.old.writer) (W.contents out.new.writer)) }
    ensures still { IfOk result (λ traffic. (IsWarp mode → ⊥) → traffic ≡ no_traffic) }
    ensures alone { IfOk result (CountsOneWorker mode config.now bytes.now) }
    ensures in_range { OnOk result (HasGoodPlan mode) }
    ensures fault { IfErr result (IsRunFault mode config.now bytes.now) }
    ensures output { (result ≡ Err SimFault.Output) ↔ (out.new.failures ≢ out.old.failures) }
    ensures cut_off { result ≡ Err SimFault.Output
        → HasWrittenBeginning mode config.now bytes.now
        (W.contents out.old.writer) (W.contents out.new.writer) }
    ensures nothing { IfErr result (λ e. e ≢ SimFault.Output → out.new ≡ out.old) }
{
    let run = TraceRun {
        bytes,
        config,
        mode,
    };
    simulate_with_progress(rt, alloc, run, &mut Silent, out)
}

/// A run of a trace, which is yet to come.
#[derive(Drop)]
pub struct TraceRun<'a> {
    /// The text of the trace.
    pub bytes: &'a [u8],
    /// The caches.
    pub config: &'a Config,
    /// How it is run.
    pub mode: Mode,
}

/// [`simulate`], which tells `progress` how far it has come, in ticks of the trace's virtual time: up to which time all is final.
/// By a schedule, and of a trace on one thread whose rows do not stand in order of time, nothing is told.
pub fn simulate_with_progress<W: Write, P: Progress, R: Threads + Wait + Clock + Sync>(
    rt: &R,
    alloc: Global,
    run: TraceRun<'_>,
    progress: &mut P,
    out: &mut Out<W>,
) -> Result<Traffic, SimFault>
    ensures report { OnOk result (HasWritten run.entry.mode run.entry.config.now run.entry.bytes.now
        (W.contents out.old.writer) (W.contents out.new.writer)) }
    ensures still { IfOk result (λ traffic. (IsWarp run.entry.mode → ⊥) → traffic ≡ no_traffic) }
    ensures alone { IfOk result
        (CountsOneWorker run.entry.mode run.entry.config.now run.entry.bytes.now) }
    ensures in_range { OnOk result (HasGoodPlan run.entry.mode) }
    ensures fault { IfErr result
        (IsRunFault run.entry.mode run.entry.config.now run.entry.bytes.now) }
    ensures output { (result ≡ Err SimFault.Output) ↔ (out.new.failures ≢ out.old.failures) }
    ensures cut_off { result ≡ Err SimFault.Output
        → HasWrittenBeginning run.entry.mode run.entry.config.now run.entry.bytes.now
        (W.contents out.old.writer) (W.contents out.new.writer) }
    ensures nothing { IfErr result (λ e. e ≢ SimFault.Output → out.new ≡ out.old) }
{
    let (text, traffic) = text_of(rt, alloc, run, progress)?;
    progress.about_to_write();
    if out.write_text(text.as_slice()) {
        Ok(traffic)
    } else {
        Err(SimFault::Output)
    }
}

/// The text of a run, and what its rounds did.
fn text_of<P: Progress, R: Threads + Wait + Clock + Sync>(
    rt: &R,
    alloc: Global,
    run: TraceRun<'_>,
    progress: &mut P,
) -> Result<(Vec<u8>, Traffic), SimFault>
    ensures text { IfOk result (λ r.
        IsTextOf run.entry.mode run.entry.config.now run.entry.bytes.now r.0.items) }
    ensures still { IfOk result (λ r. (IsWarp run.entry.mode → ⊥) → r.1 ≡ no_traffic) }
    ensures alone { IfOk result (λ r.
        CountsOneWorker run.entry.mode run.entry.config.now run.entry.bytes.now r.1) }
    ensures in_range { OnOk result (HasGoodPlan run.entry.mode) }
    ensures fault { IfErr result
        (IsRunFault run.entry.mode run.entry.config.now run.entry.bytes.now) }
    ensures unwritten { IfErr result (λ e. e ≢ SimFault.Output) }
{
    let TraceRun {
        bytes,
        config,
        mode,
    } = run;
    match mode {
        Mode::Serial => {
            let text = report_of_trace(alloc, bytes, config, progress)?;
            Ok((text, Traffic::default()))
        }
        Mode::Warp(plan) => rounds_text(rt, alloc, bytes, config, plan, progress),
        Mode::Journal(steps) => {
            let text = steps_text(alloc, bytes, config, steps, progress)?;
            Ok((text, Traffic::default()))
        }
    }
}
