ghost use Rattle.std.specs.Prelude.{◌≡◌, ◌≢◌, ◌≤◌, ◌↔◌, ◌^◌, IfErr, IfOk, map, min};
ghost use Rattle.rw_vt.specs.Limits.{end_of_time};
ghost use Rattle.rw_vt.specs.System.{IsOutcome};
ghost use Rattle.rw_world.specs.Calls.{system_of};
ghost use Rattle.rw_world.specs.WorldState.{floor};
ghost use Rattle.rw_rounds.specs.Plans.{IsInRanges};
ghost use Rattle.rw_rounds.specs.Rounds.{Rounded};
ghost use Rattle.rw_rounds.specs.Stops.{EndsRound};

use crate::plan::Plan;
use crate::round::Gate;
use crate::segment::{Bounds, Segment, make_rounds};
use crate::sim::Sim;
use crate::stop::Stop;
use crate::throttle::Throttle;
use crate::traffic::Traffic;
use rw_exchange::Port;
use rw_lp::Lp;
use rw_pool::{Halt, Job, Pool, may_move, shut_down};
use rw_progress::Silent;
use rw_vt::{END, Letter, Model as VtModel, NoMemory, Outcome};
use rw_world::{World, every_sound_world};
use std::alloc::Global;
use std::sync::Wait;
use std::thread;
use std::thread::{Scope, Threads};

/// Makes one round by the plan as it is: each worker takes its turns in a thread of its own, the last one in the calling
/// thread, and when all are done, what is final is committed.
///
/// What is final is before the round's floor, the least of all times that the workers noted. Nothing outstanding after the
/// round is before it, and it is not before the least of what was outstanding when the round began: the floor never goes
/// back (global virtual time: Jefferson 1985).
///
/// # Errors
///
/// `Memory` where memory was refused, `Exhausted` where a process was to execute an event in a state that can take no
/// further one, and `NoThread` where the start of a thread was refused. Nothing is handed back then: the world is
/// gone.
pub fn run_round<M, G, R>(rt: &R, alloc: Global, sim: Sim<M>, gate: &G) -> Result<Sim<M>, Stop>
where
    M: VtModel + Drop + Send + Sync,
    M::State: Send,
    M::Body: Send,
    M::Undo: Send,
    G: Gate + Sync,
    R: Threads + Wait + Sync,
    ensures round { IfOk result (λ next. Rounded M.Model M.Body.cmp sim next) }
    ensures others { IfErr result (λ stop. EndsRound stop) }
{
    thread::scope(
        thread::scope_env(),
        rt,
        move |scope| -> Result<Sim<M>, Stop>
            ensures round { IfOk result (λ next. Rounded M.Model M.Body.cmp sim next) }
            ensures others { IfErr result (λ stop. EndsRound stop) }
        { run_round_in(rt, scope, alloc, sim, gate) },
    )
}

/// [`run_round`] in the scope of the threads that it starts.
fn run_round_in<'s, E, M, G, R>(
    rt: &'s R,
    scope: &Scope<'s, E>,
    alloc: Global,
    sim: Sim<M>,
    gate: &'s G,
) -> Result<Sim<M>, Stop>
where
    M: VtModel + Drop + Send + Sync + 's,
    M::State: Send,
    M::Body: Send,
    M::Undo: Send,
    G: Gate + Sync,
    R: Threads + Wait + Sync,
    ensures round { IfOk result (λ next. Rounded M.Model M.Body.cmp sim next) }
    ensures others { IfErr result (λ stop. EndsRound stop) }
{
    // On this rests that a worker may move.
    may_move::<Port<Letter<M::Body>>>();
    let Sim {
        world,
        plan,
        floor: _,
        mut traffic,
    } = sim;
    let bounds = Bounds {
        plan,
        until: END,
        rounds: 1,
        gate,
    };
    let mut pool = start_pool(rt, scope, alloc, plan.workers as usize)?;
    let mut throttle = Throttle::new();
    let made = make_rounds(&mut pool, alloc, world, bounds, &mut throttle, &mut Silent);
    shut_down(pool);
    let Segment {
        world,
        floor,
        traffic: done,
    } = made?;
    traffic.add(&done);
    Ok(Sim {
        world,
        plan,
        floor,
        traffic,
    })
}

/// A pool of `count` threads, the calling one among them.
fn start_pool<'s, E, R, J, T>(
    rt: &'s R,
    scope: &Scope<'s, E>,
    alloc: Global,
    count: usize,
) -> Result<Pool<'s, R, J, T>, Halt>
where
    R: Threads + Wait + Sync,
    J: Job<T> + Send + Sync + Drop + 's,
    T: Send + Drop + 's,
{
    let mut pool = rw_pool::alone(rt, alloc);
    match rw_pool::grow(&mut pool, scope, alloc, count) {
        Ok(()) => Ok(pool),
        Err(halt) => {
            shut_down(pool);
            Err(halt)
        }
    }
}

/// Makes rounds until nothing is outstanding, and gives what each process has then executed and its state, and what the
/// rounds did in counts. The first round is by the plan as it is; the plan bounds the later ones, which have as large a
/// batch and as wide a window as the rounds before have shown to pay. The threads of the workers stay for the whole run; a
/// plan of one worker starts none. The run is one segment: its events are committed at its end, so memory grows with the
/// number of events executed.
///
/// Whatever the plan is and however the threads interleave, a result is what executing all events in order of time
/// leaves (Jefferson 1985).
///
/// # Errors
///
/// `BadPlan` exactly where a field of the plan is out of its range. `Memory` where memory was refused, and `NoThread`
/// where the start of a thread was. `Exhausted` where a process was to execute an event in a state that can take no
/// further one; a past that is then undone may bring that about too, so a run may be exhausted where the run on one
/// thread is not. `RoundsUsed` after `max_rounds` rounds none of which had the end of time as its floor: events are
/// outstanding, or the last round still passed letters on, whose times its floor counts too. Nothing is handed back
/// after a stop.
pub fn run<M, G, R>(
    rt: &R,
    alloc: Global,
    world: World<M>,
    plan: Plan,
    gate: &G,
) -> Result<(Outcome<M>, Traffic), Stop>
where
    M: VtModel + Drop + Send + Sync,
    M::State: Send,
    M::Body: Send,
    M::Undo: Send,
    G: Gate + Sync,
    R: Threads + Wait + Sync,
    ensures outcome { IfOk result (λ r. IsOutcome (system_of M.Model M.Body.cmp world) end_of_time
        (map (λ j. j.items) r.0.journals.items) r.0.states.items) }
    ensures plan { (result ≡ Err Stop.BadPlan) ↔ (IsInRanges plan → ⊥) }
{
    thread::scope(
        thread::scope_env(),
        rt,
        move |scope| -> Result<(Outcome<M>, Traffic), Stop>
            ensures outcome { IfOk result (λ r.
                IsOutcome (system_of M.Model M.Body.cmp world) end_of_time
                (map (λ j. j.items) r.0.journals.items) r.0.states.items) }
            ensures plan { (result ≡ Err Stop.BadPlan) ↔ (IsInRanges plan → ⊥) }
        { run_in(rt, scope, alloc, world, plan, gate) },
    )
}

/// [`run`] in the scope of the threads that it starts.
fn run_in<'s, E, M, G, R>(
    rt: &'s R,
    scope: &Scope<'s, E>,
    alloc: Global,
    world: World<M>,
    plan: Plan,
    gate: &'s G,
) -> Result<(Outcome<M>, Traffic), Stop>
where
    M: VtModel + Drop + Send + Sync + 's,
    M::State: Send,
    M::Body: Send,
    M::Undo: Send,
    G: Gate + Sync,
    R: Threads + Wait + Sync,
    ensures outcome { IfOk result (λ r. IsOutcome (system_of M.Model M.Body.cmp world) end_of_time
        (map (λ j. j.items) r.0.journals.items) r.0.states.items) }
    ensures plan { (result ≡ Err Stop.BadPlan) ↔ (IsInRanges plan → ⊥) }
{
    // On this rests that a worker may move.
    may_move::<Port<Letter<M::Body>>>();
    let Sim {
        world,
        plan,
        floor: _,
        traffic: _,
    } = Sim::open(world, plan)?;
    let bounds = Bounds {
        plan,
        until: END,
        rounds: plan.max_rounds,
        gate,
    };
    let mut pool = start_pool(rt, scope, alloc, plan.workers as usize)?;
    let mut throttle = Throttle::new();
    let ran = make_rounds(&mut pool, alloc, world, bounds, &mut throttle, &mut Silent);
    shut_down(pool);
    finish(alloc, ran?)
}

/// What a run comes to, once its rounds are made: the committed events and the state of each process, and what the rounds did.
///
/// # Errors
///
/// `RoundsUsed` where the last round's floor is before the end of time, and `Memory`.
fn finish<M: VtModel + Drop>(
    alloc: Global,
    segment: Segment<M>,
) -> Result<(Outcome<M>, Traffic), Stop>
    requires floor { segment.floor ≤ floor segment.world.world }
    requires collected { min segment.floor end_of_time ≤ segment.world.world.collected }
    ensures outcome { IfOk result (λ r. IsOutcome (system_of M.Model M.Body.cmp segment.world)
        end_of_time (map (λ j. j.items) r.0.journals.items) r.0.states.items) }
    ensures others { IfErr result (λ stop. stop ≢ Stop.BadPlan) }
{
    let Segment {
        world,
        floor,
        traffic,
    } = segment;
    if floor < END {
        return Err(Stop::RoundsUsed);
    }
    let outcome = outcome(alloc, world)?;
    Ok((outcome, traffic))
}

/// The committed events and the state of each process, where nothing is outstanding and all is collected.
fn outcome<M: VtModel + Drop>(alloc: Global, world: World<M>) -> Result<Outcome<M>, NoMemory>
    requires floor { end_of_time ≤ floor world.world }
    requires collected { end_of_time ≤ world.world.collected }
    ensures outcome { IfOk result (λ o. IsOutcome (system_of M.Model M.Body.cmp world) end_of_time
        (map (λ j. j.items) o.journals.items) o.states.items) }
{
    // What the world promises of every world of the model.
    every_sound_world::<M>();
    let parts = world.take();
    outcomes(alloc, parts.processes)
}

/// The committed events and the state of each of the processes.
fn outcomes<M: VtModel>(alloc: Global, processes: Vec<Lp<M>>) -> Result<Outcome<M>, NoMemory>
    ensures { IfOk result (λ o.
        (map (λ j. j.items) o.journals.items ≡ map (λ x. x.process.committed) processes.items)
        × (o.states.items ≡ map (λ x. x.process.state) processes.items)) }
{
    let count = processes.len();
    let mut journals = Vec::with_capacity(alloc, count)?;
    let mut states = Vec::with_capacity(alloc, count)?;
    for process in processes {
        let (journal, state) = process.into_outcome();
        journals.push_reserved(journal);
        states.push_reserved(state);
    }
    Ok(Outcome { journals, states })
}
