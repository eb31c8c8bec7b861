ghost use Rattle.std.specs.Prelude.{◌≡◌, ◌↔◌, Err, IfErr, IfOk};
ghost use Rattle.rw_vt.specs.System.{IsReady, system};
ghost use Rattle.rw_engine.specs.Runs.{AreLastStates, IsByBadPlan, CountsAlone, IsSteppedTo, MayStopBySteps, MayStopFor, MayStopInOrder, no_traffic};

use crate::how::How;
use crate::rounds::run_in_rounds;
use crate::start::Start;
use rw_progress::Progress;
use rw_rounds::{Stop, Traffic};
use rw_serial::last_states;
use rw_vt::{Event, Lookahead, Model as VtModel};
use rw_world::{Answer, Step, World};
use std::alloc::Global;
use std::sync::Wait;
use std::thread::Threads;
use std::time::Clock;

/// Runs a model on one thread or with workers: the last state of each process, and what the workers did. What comes of it is the
/// serial outcome: the states that executing all events in order of time leaves. [`run_by_steps`] runs one by the steps of a
/// schedule.
///
/// With workers `progress` is told up to which time all is final, as [`run_in_rounds`](crate::run_in_rounds) does; in order it is
/// told nothing. `rw_progress::Silent` ignores it.
///
/// # Errors
///
/// `BadPlan` exactly where a field of the plan is out of its range; `Exhausted` only where a process was to execute an event
/// in a state that can take no further one; `RoundsUsed` and `NoThread` only of several workers; `Memory` where memory was refused.
/// Nothing is handed back then.
pub fn run_in<M, P, R>(
    rt: &R,
    alloc: Global,
    start: Start<M, Vec<Event<M::Body>>>,
    how: How,
    progress: &mut P,
) -> Result<(Vec<M::State>, Traffic), Stop>
where
    M: Lookahead + Drop + Send + Sync,
    M::State: Send,
    M::Body: Send,
    M::Undo: Send,
    P: Progress,
    R: Threads + Wait + Clock + Sync,
    requires { IsReady M.Model start.model start.states.items start.initial.items }
    ensures states { IfOk result (λ r. AreLastStates
        (system M.Model M.Body.cmp start.model start.states.items start.initial.items) r.0.items) }
    ensures still { how ≡ How.InOrder → IfOk result (λ r. r.1 ≡ no_traffic) }
    ensures alone { IfOk result (λ r. CountsAlone
        (system M.Model M.Body.cmp start.model start.states.items start.initial.items) how r.1) }
    ensures plan { (result ≡ Err Stop.BadPlan) ↔ IsByBadPlan how }
    ensures stops { IfErr result (MayStopFor
        (system M.Model M.Body.cmp start.model start.states.items start.initial.items)
        (M.is_exhausted start.model) how) }
{
    match how {
        How::InOrder => {
            let states = run_in_order(alloc, start)?;
            Ok((states, Traffic::default()))
        }
        How::InRounds(plan) => run_in_rounds(rt, alloc, start, plan, progress),
    }
}

/// The states after all events, executed in order of time on the calling thread.
fn run_in_order<M: VtModel + Drop>(
    alloc: Global,
    start: Start<M, Vec<Event<M::Body>>>,
) -> Result<Vec<M::State>, Stop>
    requires { IsReady M.Model start.model start.states.items start.initial.items }
    ensures states { IfOk result (λ states. AreLastStates
        (system M.Model M.Body.cmp start.model start.states.items start.initial.items)
        states.items) }
    ensures stops { IfErr result (MayStopInOrder
        (system M.Model M.Body.cmp start.model start.states.items start.initial.items)
        (M.is_exhausted start.model)) }
{
    let Start {
        model,
        states,
        initial,
    } = start;
    let states = last_states(alloc, &model, states, initial)?;
    Ok(states)
}

/// Makes these steps from the start, refused ones included: the world to which they lead, and what each answered. See
/// [`World::run_steps`].
///
/// # Errors
///
/// `Exhausted` only where a step would execute an event in a state that can take no further one, and `Memory` only where memory was
/// refused.
pub fn run_by_steps<M: VtModel + Drop>(
    alloc: Global,
    start: Start<M, Vec<Event<M::Body>>>,
    steps: &[Step],
) -> Result<(World<M>, Vec<Answer>), Stop>
    requires { IsReady M.Model start.model start.states.items start.initial.items }
    ensures stepped { IfOk result (λ r. IsSteppedTo M.Model M.Body.cmp
        start.model start.states.items start.initial.items steps.now r.0 r.1.items) }
    ensures stops { IfErr result (MayStopBySteps
        (system M.Model M.Body.cmp start.model start.states.items start.initial.items)
        (M.is_exhausted start.model) steps.now) }
{
    let Start {
        model,
        states,
        initial,
    } = start;
    let world = World::open(alloc, model, states, initial)?;
    let (world, answers) = world.run_steps(alloc, steps)?;
    Ok((world, answers))
}
