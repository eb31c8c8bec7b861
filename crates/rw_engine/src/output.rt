ghost use Rattle.std.specs.Prelude.{◌≡◌, ◌↔◌, Err, IfErr, IfOk, OnErr, OnOk};
ghost use Rattle.rw_vt.specs.Limits.{end_of_time};
ghost use Rattle.rw_vt.specs.declared.event.Event.{Event};
ghost use Rattle.rw_vt.specs.System.{IsReady, system};
ghost use Rattle.rw_models.specs.Committed.{executed_below};
ghost use Rattle.rw_models.specs.Recorded.{states_of};
ghost use Rattle.rw_engine.specs.Outputs.{TookEach};
ghost use Rattle.rw_engine.specs.Runs.{AreLastStates, IsByBadPlan, MayStopFor, no_traffic};

use crate::how::How;
use crate::running::run_in;
use crate::start::Start;
use rw_models::{Record, Recorded};
use rw_progress::Progress;
use rw_rounds::{Stop, Traffic};
use rw_vt::{Event, Lookahead};
use std::alloc::{AllocError, Global};
use std::sync::Wait;
use std::thread::Threads;
use std::time::Clock;

/// Takes the events that a run commits, one after another.
pub trait Output<B> {
    /// What taking an event makes of it.
    ghost Takes: { Self → Event B → Self → Type 0 };

    /// Takes the next event that is committed.
    fn commit(&mut self, event: &Event<B>)
        ensures { Takes self.old event.now self.new };
}

/// [`run_in`], which also calls [`Output::commit`] once for each event of the run, in order: by time, then by source, number, process
/// and body. An event that was rolled back is not among them, and whichever way the model is run, the calls are the same.
///
/// The calls come once the run has ended, so it holds all its events until then: 24 bytes and the size of a body for each.
///
/// # Errors
///
/// Those of `run_in`. `commit` is not called then.
pub fn run_with_output<M, O, P, R>(
    rt: &R,
    alloc: Global,
    start: Start<M, Vec<Event<M::Body>>>,
    how: How,
    output: &mut O,
    progress: &mut P,
) -> Result<(Vec<M::State>, Traffic), Stop>
where
    M: Lookahead + Drop + Send + Sync,
    M::State: Send,
    M::Body: Send,
    M::Undo: Send,
    O: Output<M::Body>,
    P: Progress,
    R: Threads + Wait + Clock + Sync,
    requires { IsReady M.Model start.model start.states.items start.initial.items }
    ensures states { IfOk result (λ r. AreLastStates
        (system M.Model M.Body.cmp start.model start.states.items start.initial.items) r.0.items) }
    ensures output { OnOk result (TookEach O.Takes output.old (executed_below
        (system M.Model M.Body.cmp start.model start.states.items start.initial.items)
        end_of_time) output.new) }
    ensures nothing { OnErr result (output.new ≡ output.old) }
    ensures still { how ≡ How.InOrder → IfOk result (λ r. r.1 ≡ no_traffic) }
    ensures plan { (result ≡ Err Stop.BadPlan) ↔ IsByBadPlan how }
    ensures stops { IfErr result (MayStopFor
        (system M.Model M.Body.cmp start.model start.states.items start.initial.items)
        (M.is_exhausted start.model) how) }
{
    how.check()?;
    let Start {
        model,
        states,
        initial,
    } = start;
    let records = Recorded::<M>::new_records(alloc, states)?;
    let recorded = Recorded::new(model);
    let start = Start {
        model: recorded,
        states: records,
        initial,
    };
    let (mut records, traffic) = run_in(rt, alloc, start, how, progress)?;
    let events = Recorded::<M>::take_executed(alloc, &mut records)?;
    let states = into_states(alloc, records)?;
    commit_all(output, &events);
    Ok((states, traffic))
}

/// The states in these records.
fn into_states<S: Drop, B: Copy>(
    alloc: Global,
    records: Vec<Record<S, B>>,
) -> Result<Vec<S>, AllocError>
    ensures { IfOk result (λ states. states.items ≡ states_of records.items) }
{
    let mut states = Vec::with_capacity(alloc, records.len())?;
    for record in records {
        let Record { state, executed: _ } = record;
        states.push(state)?;
    }
    Ok(states)
}

/// Commits these events, in order.
fn commit_all<B, O: Output<B>>(output: &mut O, events: &[Event<B>])
    ensures { TookEach O.Takes output.old events.now output.new }
{
    for event in events {
        output.commit(event);
    }
}
