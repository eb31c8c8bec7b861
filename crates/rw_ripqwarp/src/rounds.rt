ghost use Rattle.std.specs.Prelude.{◌≡◌, ◌≢◌, ◌≤◌, ◌+◌, ◌++◌, All, IfOk, IfErr, OnOk, length};
ghost use Rattle.rw_photo.specs.Cache.{is_exhausted};
ghost use Rattle.rw_photo.specs.Simulation.{simulation};
ghost use Rattle.rw_trace.specs.Laws.{IsRow};
ghost use Rattle.rw_trace.specs.Limits.{most_rows};
ghost use Rattle.rw_engine.specs.Alone.{IsTrafficOfRun};
ghost use Rattle.rw_engine.specs.Runs.{AreLastStates};
ghost use Rattle.rw_engine.specs.Segments.{MayStopInRounds};
ghost use Rattle.rw_ripqwarp.specs.Faults.{sim_stop_of};
ghost use Rattle.rw_report.specs.Replay.{IsReportOf};
ghost use Rattle.rw_ripqwarp.specs.Simulate.{CountsOneWorker, HasGoodPlan, IsRunFault};

use crate::mode::Mode;
use rw_engine::{
    Plan, Start, Stop, Traffic, run_alone, run_alone_from, run_in_rounds, run_in_rounds_from,
};
use rw_photo::{CacheState, Config, OrderedRequests, Photo, Policy};
use rw_progress::Progress;
use rw_report::{
    SimFault, WithProgress, begin_events, begin_rows, beginning_of_rows, report_of_states, starts,
};
use rw_trace::{Row, read_in_parts};
use std::alloc::{AllocError, Global};
use std::sync::Wait;
use std::thread::Threads;
use std::time::Clock;

/// The report of a run in rounds, and what the rounds did. As on one thread, the requests of a trace whose rows stand in order
/// of time are not there all at once.
pub(crate) fn rounds_text<P: Progress, R: Threads + Wait + Clock + Sync>(
    rt: &R,
    alloc: Global,
    bytes: &[u8],
    config: &Config,
    plan: Plan,
    progress: &mut P,
) -> Result<(Vec<u8>, Traffic), SimFault>
    ensures text { IfOk result (λ r. IsReportOf config.now bytes.now r.0.items) }
    ensures alone { IfOk result (λ r.
        CountsOneWorker (Mode.Warp plan) config.now bytes.now r.1) }
    ensures in_range { OnOk result (HasGoodPlan (Mode.Warp plan)) }
    ensures fault { IfErr result (IsRunFault (Mode.Warp plan) config.now bytes.now) }
    ensures unwritten { IfErr result (λ e. e ≢ SimFault.Output) }
{
    let (rows, others) = read_in_parts(rt, alloc, bytes, config.edges(), plan.workers)?;
    let parts = RowParts {
        rows: rows.as_slice(),
        others: others.as_slice(),
    };
    match run_rows_in_rounds(rt, alloc, parts, config, plan, progress) {
        Ok((states, traffic)) => {
            let text = report_of_states(alloc, config, states.as_slice())?;
            Ok((text, traffic))
        }
        Err(stop) => Err(why_it_stopped(stop)),
    }
}

/// Why a run whose rounds stopped for this has no text. Takes no memory.
pub fn why_it_stopped(stop: Stop) -> SimFault
    ensures { result ≡ sim_stop_of stop }
{
    match stop {
        Stop::Memory => SimFault::Memory,
        Stop::Exhausted => SimFault::Exhausted,
        Stop::RoundsUsed => SimFault::Rounds,
        Stop::BadPlan => SimFault::Plan,
        Stop::NoThread => SimFault::NoThread,
    }
}

/// Whether one worker goes on alone, however many the plan has: caches that admit nothing only look up what a request names,
/// which is too little to hand over to another thread.
fn goes_alone(config: &Config, plan: &Plan) -> bool {
    plan.workers == 1 || matches!(config.policy, Policy::Off)
}

/// The rows of a trace in two parts, as [`read_in_parts`] gives them.
#[derive(Clone, Copy)]
struct RowParts<'a> {
    rows: &'a [Row],
    /// The rows that follow those.
    others: &'a [Row],
}

/// The state of each cache once the requests of these rows, and all that follows from them, are executed in rounds, and what the
/// rounds did. Tells `progress` how far it has come, but where one worker runs rows that do not stand in order of time.
///
/// # Errors
///
/// Those of [`run_in_rounds_from`].
fn run_rows_in_rounds<P: Progress, R: Threads + Wait + Clock + Sync>(
    rt: &R,
    alloc: Global,
    parts: RowParts<'_>,
    config: &Config,
    plan: Plan,
    progress: &mut P,
) -> Result<(Vec<CacheState>, Traffic), Stop>
    requires ranges { All (IsRow config.now.edges) (parts.rows.now ++ parts.others.now) }
    requires few { length parts.rows.now + length parts.others.now ≤ most_rows }
    ensures outcome { IfOk result (λ r. AreLastStates
        (simulation config.now (parts.entry.rows.now ++ parts.entry.others.now)) r.0.items) }
    ensures alone { plan.workers ≡ 1 → IfOk result (λ r. IsTrafficOfRun plan
        (simulation config.now (parts.entry.rows.now ++ parts.entry.others.now)) r.1) }
    ensures in_range { OnOk result (HasGoodPlan (Mode.Warp plan)) }
    ensures stops { IfErr result (MayStopInRounds
        (simulation config.now (parts.entry.rows.now ++ parts.entry.others.now))
        is_exhausted plan) }
{
    let RowParts { rows, others } = parts;
    let photo = Photo::new(*config);
    let alone = goes_alone(config, &plan);
    let Some(source) = OrderedRequests::of_parts(rows, others) else {
        let rows = joined(alloc, rows, others)?;
        let (starts, initial) = beginning_of_rows(alloc, rows.as_slice(), config)?;
        if alone {
            return run_alone(alloc, &photo, starts, initial, plan);
        }
        begin_events(initial.as_slice(), progress);
        let start = Start {
            model: photo,
            states: starts,
            initial,
        };
        return run_in_rounds(rt, alloc, start, plan, progress);
    };
    let starts = starts(alloc, &photo)?;
    begin_rows(rows, others, progress);
    if alone {
        let source = WithProgress {
            source,
            progress,
            given: 0,
        };
        return run_alone_from(alloc, &photo, starts, source, plan);
    }
    let start = Start {
        model: photo,
        states: starts,
        initial: source,
    };
    run_in_rounds_from(rt, alloc, start, plan, progress)
}

/// Rows in two parts, in one list.
fn joined(alloc: Global, rows: &[Row], others: &[Row]) -> Result<Vec<Row>, AllocError>
    ensures { IfOk result (λ all. all.items ≡ rows.now ++ others.now) }
{
    let mut all = Vec::with_capacity(alloc, rows.len().saturating_add(others.len()))?;
    all.extend_from_slice(rows)?;
    all.extend_from_slice(others)?;
    Ok(all)
}
