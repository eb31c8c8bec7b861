ghost use Rattle.std.specs.Prelude.{◌≡◌, ◌*◌, ◌↔◌, Err, IfErr, IfOk, OnOk};
ghost use Rattle.rw_vt.specs.Limits.{end_of_time};
ghost use Rattle.rw_vt.specs.System.{IsReady, Meets, system};
ghost use Rattle.rw_serial.specs.Counts.{events_below};
ghost use Rattle.rw_rounds.specs.Plans.{IsInRanges};
ghost use Rattle.rw_rounds.specs.declared.stop.Stop.TheVariants.{BadPlan};
ghost use Rattle.rw_engine.specs.Runs.{AreLastStates};
ghost use Rattle.rw_engine.specs.Alone.{IsTrafficAlone, MayStopAlone};

use rw_rounds::{Plan, Stop, Traffic};
use rw_serial::{Source, last_states_within, last_states_within_from};
use rw_vt::{Event, Model};
use std::alloc::Global;

/// Runs a model as rounds of one worker do, however many workers the plan has: the last state of each process, and what the
/// rounds did. One worker always executes the least pending event of all, so nothing comes late and nothing is undone: it is
/// the run in order, of which a round gets as many events as its turns have room for. So the plan's number of rounds is no bound. It
/// starts no thread and keeps no undo record.
///
/// # Errors
///
/// `BadPlan` exactly where a field of the plan is out of its range; `Exhausted` only where some process, in order of time,
/// would execute an event in a state that can take no further one; `Memory` where memory was refused, or where there are 2^64
/// events, which cannot be counted. Nothing is handed back then.
pub fn run_alone<M: Model>(
    alloc: Global,
    model: &M,
    starts: Vec<M::State>,
    initial: Vec<Event<M::Body>>,
    plan: Plan,
) -> Result<(Vec<M::State>, Traffic), Stop>
    requires ready { IsReady M.Model model.now starts.items initial.items }
    ensures states { IfOk result (λ r. AreLastStates
        (system M.Model M.Body.cmp model.now starts.items initial.items) r.0.items) }
    ensures traffic { IfOk result (λ r. IsTrafficAlone plan (events_below
        (system M.Model M.Body.cmp model.now starts.items initial.items) end_of_time) r.1) }
    ensures plan { (result ≡ Err BadPlan) ↔ (IsInRanges plan → ⊥) }
    ensures exhausted { result ≡ Err Stop.Exhausted
        → Meets (system M.Model M.Body.cmp model.now starts.items initial.items) end_of_time
        (M.is_exhausted model.now) }
    ensures stops { IfErr result (MayStopAlone plan) }
{
    check(&plan)?;
    let ran = last_states_within(alloc, model, starts, initial, u64::MAX)?;
    let (states, executed) = ran.ok_or(Stop::Memory)?;
    Ok((states, traffic_of(&plan, executed)))
}

/// [`run_alone`] where the initial events come from a source, so that they need not be there all at once.
///
/// # Errors
///
/// Those of `run_alone`.
pub fn run_alone_from<M: Model, S: Source<M::Body>>(
    alloc: Global,
    model: &M,
    starts: Vec<M::State>,
    source: S,
    plan: Plan,
) -> Result<(Vec<M::State>, Traffic), Stop>
    requires ready { IsReady M.Model model.now starts.items (S.left source) }
    ensures states { IfOk result (λ r. AreLastStates
        (system M.Model M.Body.cmp model.now starts.items (S.left source)) r.0.items) }
    ensures traffic { IfOk result (λ r. IsTrafficAlone plan (events_below
        (system M.Model M.Body.cmp model.now starts.items (S.left source)) end_of_time) r.1) }
    ensures plan { (result ≡ Err BadPlan) ↔ (IsInRanges plan → ⊥) }
    ensures exhausted { result ≡ Err Stop.Exhausted
        → Meets (system M.Model M.Body.cmp model.now starts.items (S.left source)) end_of_time
        (M.is_exhausted model.now) }
    ensures stops { IfErr result (MayStopAlone plan) }
{
    check(&plan)?;
    let ran = last_states_within_from(alloc, model, starts, source, u64::MAX)?;
    let (states, executed) = ran.ok_or(Stop::Memory)?;
    Ok((states, traffic_of(&plan, executed)))
}

/// Refuses a plan of which a field is out of its range.
pub(crate) fn check(plan: &Plan) -> Result<(), Stop>
    ensures ok { OnOk result (IsInRanges plan.now) }
    ensures plan { IfErr result (λ stop. (stop ≡ BadPlan) × (IsInRanges plan.now → ⊥)) }
{
    if plan.is_valid() {
        Ok(())
    } else {
        Err(Stop::BadPlan)
    }
}

/// How many events a round of one worker has room for.
pub(crate) fn events_of_round(plan: &Plan) -> u64
    requires { IsInRanges plan.now }
    ensures { result ≡ plan.now.turns * plan.now.batch }
{
    u64::from(plan.turns) * u64::from(plan.batch)
}

/// What rounds of one worker do where they execute so many events.
fn traffic_of(plan: &Plan, executed: u64) -> Traffic
    requires { IsInRanges plan.now }
    ensures { IsTrafficAlone plan.now executed result }
{
    let rounds = executed.saturating_sub(1) / events_of_round(plan) + 1;
    Traffic {
        rounds,
        executed,
        undone: 0,
        ring: 0,
        kept: 0,
    }
}
