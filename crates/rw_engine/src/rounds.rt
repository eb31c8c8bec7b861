ghost use Rattle.std.specs.Prelude.{◌≡◌, ◌≢◌, ◌↔◌, [], true, Err, IfErr, IfOk, OnOk};
ghost use Rattle.rw_vt.specs.System.{IsReady, system};
ghost use Rattle.rw_rounds.specs.Plans.{IsInRanges};
ghost use Rattle.rw_rounds.specs.declared.stop.Stop.TheVariants.{BadPlan};
ghost use Rattle.rw_engine.specs.Alone.{IsTrafficOfRun};
ghost use Rattle.rw_engine.specs.Runs.{AreLastStates};
ghost use Rattle.rw_engine.specs.Segments.{GoesOn, MayStopInRounds};

use crate::alone::run_alone_from;
use crate::controller::Controller;
use crate::run::Run;
use crate::start::Start;
use crate::workers;
use crate::workers::Workers;
use rw_pool::Executor;
use rw_progress::Progress;
use rw_rounds::{Open, Plan, RoundWork, Stop, Throttle, Traffic, Worker};
use rw_serial::{Pending, Sorted, Source};
use rw_vt::{Event, Lookahead};
use rw_windows::{Share, Work};
use std::alloc::Global;
use std::sync::Wait;
use std::thread;
use std::thread::{Scope, Threads};
use std::time::Clock;

/// Runs a model with workers under a plan: the last state of each process, and what the rounds did. See [`run_in_rounds_from`].
///
/// # Errors
///
/// Those of `run_in_rounds_from`.
pub fn run_in_rounds<M, P, R>(
    rt: &R,
    alloc: Global,
    start: Start<M, Vec<Event<M::Body>>>,
    plan: Plan,
    progress: &mut P,
) -> Result<(Vec<M::State>, Traffic), Stop>
where
    M: Lookahead + Drop + Send + Sync,
    M::State: Send,
    M::Body: Send,
    M::Undo: Send,
    P: Progress,
    R: Threads + Wait + Clock + Sync,
    requires ready { IsReady M.Model start.model start.states.items start.initial.items }
    ensures states { IfOk result (λ r. AreLastStates
        (system M.Model M.Body.cmp start.model start.states.items start.initial.items) r.0.items) }
    ensures alone { plan.workers ≡ 1 → IfOk result (λ r. IsTrafficOfRun plan
        (system M.Model M.Body.cmp start.model start.states.items start.initial.items) r.1) }
    ensures plan { (result ≡ Err BadPlan) ↔ (IsInRanges plan → ⊥) }
    ensures stops { IfErr result (MayStopInRounds
        (system M.Model M.Body.cmp start.model start.states.items start.initial.items)
        (M.is_exhausted start.model) plan) }
{
    if !plan.is_valid() {
        return Err(Stop::BadPlan);
    }
    let Start {
        model,
        states,
        initial,
    } = start;
    let source = Sorted::new(initial)?;
    let start = Start {
        model,
        states,
        initial: source,
    };
    run_in_rounds_from(rt, alloc, start, plan, progress)
}

/// [`run_in_rounds`] where the events from outside come from a source, so that they need not be there all at once.
///
/// The run is made of segments, each of which goes on from the states and the events that the one before has left:
///
/// - windows of the model's lookahead, where events are dense: all workers execute for good, window by window, with no undo
///   records; such a segment takes in the next initial events and ends with them, or where they are apart by many windows;
/// - rounds, in which the workers run ahead and roll back: such a segment takes in the next initial events too, and commits
///   nothing from the first other one's time on;
/// - a run in order, on the calling thread.
///
/// Which of them comes next is measured: the one in which an event costs the least time. A segment takes in twice as many events as
/// the one before, if that was of its kind. What is committed is dropped at the end of a segment. One worker runs in order from
/// the beginning.
///
/// `progress` is told up to which time all is final.
///
/// # Errors
///
/// `BadPlan` exactly where a field of the plan is out of its range; else `Memory`, `Exhausted`, `RoundsUsed` or `NoThread`.
/// `RoundsUsed` comes where the plan's rounds were made and there is no other way to choose: by a plan of one round, or of a model
/// whose grain is 0 or 1. Nothing is handed back then. One worker stops as [`run_alone_from`] does, and so never for `RoundsUsed` or
/// `NoThread`, and it tells the same counts.
pub fn run_in_rounds_from<M, S, P, R>(
    rt: &R,
    alloc: Global,
    start: Start<M, S>,
    plan: Plan,
    progress: &mut P,
) -> Result<(Vec<M::State>, Traffic), Stop>
where
    M: Lookahead + Drop + Send + Sync,
    M::State: Send,
    M::Body: Send,
    M::Undo: Send,
    S: Source<M::Body>,
    P: Progress,
    R: Threads + Wait + Clock + Sync,
    requires ready { IsReady M.Model start.model start.states.items (S.left start.initial) }
    ensures states { IfOk result (λ r. AreLastStates
        (system M.Model M.Body.cmp start.model start.states.items (S.left start.initial))
        r.0.items) }
    ensures alone { plan.workers ≡ 1 → IfOk result (λ r. IsTrafficOfRun plan
        (system M.Model M.Body.cmp start.model start.states.items (S.left start.initial)) r.1) }
    ensures plan { (result ≡ Err BadPlan) ↔ (IsInRanges plan → ⊥) }
    ensures stops { IfErr result (MayStopInRounds
        (system M.Model M.Body.cmp start.model start.states.items (S.left start.initial))
        (M.is_exhausted start.model) plan) }
{
    let Start {
        model,
        states,
        initial,
    } = start;
    if plan.workers == 1 {
        return run_alone_from(alloc, &model, states, initial, plan);
    }
    if !plan.is_valid() {
        return Err(Stop::BadPlan);
    }
    let run = Run {
        alloc,
        plan,
        model,
        states,
        traffic: Traffic::default(),
        throttle: Throttle::new(),
    };
    thread::scope(
        thread::scope_env(),
        rt,
        move |scope| -> Result<(Vec<M::State>, Traffic), Stop>
            requires ready { IsReady M.Model run.model run.states.items (S.left initial) }
            requires plan { IsInRanges run.plan }
            ensures states { IfOk result (λ r. AreLastStates
                (system M.Model M.Body.cmp run.model run.states.items (S.left initial))
                r.0.items) }
            ensures stops { IfErr result (λ stop. stop ≢ BadPlan) }
        { run_in_scope(rt, scope, run, initial, progress) },
    )
}

/// Runs segment by segment, in the scope of the threads that it starts.
fn run_in_scope<'s, E, M, S, P, R>(
    rt: &'s R,
    scope: &Scope<'s, E>,
    run: Run<M>,
    initial: S,
    progress: &mut P,
) -> Result<(Vec<M::State>, Traffic), Stop>
where
    M: Lookahead + Drop + Send + Sync + 's,
    M::State: Send,
    M::Body: Send,
    M::Undo: Send,
    S: Source<M::Body>,
    P: Progress,
    R: Threads + Wait + Clock + Sync,
    requires ready { IsReady M.Model run.model run.states.items (S.left initial) }
    requires plan { IsInRanges run.plan }
    ensures states { IfOk result (λ r. AreLastStates
        (system M.Model M.Body.cmp run.model run.states.items (S.left initial)) r.0.items) }
    ensures stops { IfErr result (λ stop. stop ≢ BadPlan) }
{
    let mut pending = Pending::new(run.alloc, initial);
    let mut workers = workers::alone(rt, run.alloc);
    let ran = run_by_workers(rt, scope, &mut workers, run, &mut pending, progress);
    workers::end(workers);
    ran
}

/// Runs segment by segment. The threads are started before the first segment that needs them.
fn run_by_workers<'s, E, M, S, P, R>(
    rt: &'s R,
    scope: &Scope<'s, E>,
    workers: &mut Workers<'s, M, R>,
    run: Run<M>,
    pending: &mut Pending<M::Body, S>,
    progress: &mut P,
) -> Result<(Vec<M::State>, Traffic), Stop>
where
    M: Lookahead + Drop + Send + Sync + 's,
    M::State: Send,
    M::Body: Send,
    M::Undo: Send,
    S: Source<M::Body>,
    P: Progress,
    R: Threads + Wait + Clock + Sync,
    requires ready { IsReady M.Model run.model run.states.items pending.old.events }
    requires plan { IsInRanges run.plan }
    ensures states { IfOk result (λ r. AreLastStates
        (system M.Model M.Body.cmp run.model run.states.items pending.old.events) r.0.items) }
    ensures stops { IfErr result (λ stop. stop ≢ BadPlan) }
{
    let alloc = run.alloc;
    let count = run.plan.workers as usize;
    let processes = run.states.len();
    let controller = Controller::new(
        &run.plan,
        run.model.lookahead(),
        run.model.grain(),
        processes,
    );
    let (run, controller) = run_segments(rt, workers, run, pending, controller, progress)?;
    let Some(_time) = pending.least_time() else {
        return Ok((run.states, run.traffic));
    };
    workers::start(workers, scope, alloc, count)?;
    let controller = controller.with_threads();
    let (run, _controller) = run_segments(rt, workers, run, pending, controller, progress)?;
    Ok((run.states, run.traffic))
}

/// Runs segment by segment, until nothing waits, or until a segment needs threads and there are none.
fn run_segments<'r, M, S, P, R, H>(
    rt: &'r R,
    workers: &mut H,
    run: Run<M>,
    pending: &mut Pending<M::Body, S>,
    controller: Controller,
    progress: &mut P,
) -> Result<(Run<M>, Controller), Stop>
where
    M: Lookahead + Drop,
    S: Source<M::Body>,
    P: Progress,
    R: Wait + Clock,
    H: Executor<RoundWork<M, Open>, Worker<M>> + Executor<Work<'r, M, R>, Share<M>>,
    requires ready { IsReady M.Model run.model run.states.items pending.old.events }
    requires plan { IsInRanges run.plan }
    ensures onward { IfOk result (λ r. GoesOn M.Model M.Body.cmp
        run.model run.states.items pending.old.events
        r.0.model r.0.states.items pending.new.events) }
    ensures plan { IfOk result (λ r. r.0.plan ≡ run.plan) }
    ensures all { controller.has_threads ≡ true → OnOk result (pending.new.events ≡ []) }
    ensures stops { IfErr result (λ stop. stop ≢ BadPlan) }
{
    let mut run = run;
    let mut controller = controller;
    controller.begin(rt);
    for _segment in 0..u64::MAX {
        let Some(segment) = controller.next() else {
            return Err(Stop::RoundsUsed);
        };
        if segment.has_workers() && !controller.has_threads {
            return Ok((run, controller));
        }
        let before = run.traffic;
        run = run.by(rt, workers, pending, segment, progress)?;
        let Some(time) = pending.least_time() else {
            return Ok((run, controller));
        };
        progress.reach(time);
        controller.note(rt, segment, time, &before, &run.traffic);
    }
    Err(Stop::Memory)
}
