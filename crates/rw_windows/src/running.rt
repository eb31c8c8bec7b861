ghost use Rattle.std.specs.Prelude.{◌≡◌, ◌≤◌, All, IfOk, true};
ghost use Rattle.rw_vt.specs.System.{IsReady};
ghost use Rattle.rw_windows.specs.Running.{IsLeftOfRun};
ghost use Rattle.rw_windows.specs.Working.{IsAhead};

use crate::beginning::begin;
use crate::ending::gather;
use crate::share::Share;
use crate::work::Work;
use rw_pool::{Executor, Halt};
use rw_vt::{Event, Model as VtModel};
use std::alloc::Global;
use std::sync::Wait;

/// A run at some stage, from which it goes on.
#[derive(Drop)]
pub struct Stage<M: VtModel> {
    /// The model.
    pub model: M,
    /// The state of each process.
    pub states: Vec<M::State>,
    /// The events that are still to be executed, in any order.
    pub events: Vec<Event<M::Body>>,
}

/// How a run goes on in windows.
#[derive(Clone, Copy)]
pub struct Windows {
    /// By how many workers, 1 to 16.
    pub workers: u32,
    /// How far ahead of an event all is that it sends, in ticks, 1 or more.
    pub lookahead: u64,
    /// Up to which time, in ticks: all events before it are executed.
    pub end: u64,
}

/// What windows leave of a run, and what was done in them.
#[derive(Drop)]
pub struct Left<M: VtModel> {
    /// The run at their end. The model is as it was.
    pub stage: Stage<M>,
    /// How many events were executed.
    pub executed: u64,
    /// How many of them another worker sent.
    pub received: u64,
}

/// Goes on with a run from this stage, until all events before the end of the windows are executed, each worker in a thread of
/// its own. `executor` has the threads, the calling one among them.
///
/// Workers execute for good, so that nothing is ever undone (conservative synchronization: Chandy and Misra 1979). All that the
/// model sends is at least the lookahead after the event that it is sent for. So again and again a worker can promise that it
/// sends nothing more before some time: the lookahead after the first event that it has or may still receive. It sends this
/// bound to each other worker, with the events for that one, and receives theirs. It may go on up to the least of all bounds, or
/// up to the end.
///
/// A window of the lookahead costs up to three batches from each worker to each other one, also where nothing waits, and behind
/// the last event: so the end should not be far behind that.
///
/// What comes back is the model, and what is left of the run: no event before the end, and from the states with the events that
/// are left the run ends as it does from where it began, whatever more comes from outside, none of it before the end.
///
/// # Errors
///
/// `Memory` where memory was refused, `Exhausted` where a process was to execute an event in a state that can take no
/// further one, and `NoThread` where there are fewer threads than workers, or a thread or worker is gone although none was
/// refused. Nothing is handed back then: the model, the states and the events are gone.
pub fn run_in_windows<'r, M, R, H>(
    rt: &'r R,
    executor: &mut H,
    alloc: Global,
    stage: Stage<M>,
    windows: Windows,
) -> Result<Left<M>, Halt>
where
    M: VtModel + Drop,
    R: Wait,
    H: Executor<Work<'r, M, R>, Share<M>>,
    requires ready { IsReady M.Model stage.model stage.states.items stage.events.items }
    requires workers { (1 ≤ windows.workers) × (windows.workers ≤ 16) }
    requires lookahead { 1 ≤ windows.lookahead }
    requires ahead { IsAhead M.Model stage.model windows.lookahead }
    ensures model { IfOk result (λ r. r.stage.model ≡ stage.model) }
    ensures left { IfOk result (λ r. IsLeftOfRun M.Model M.Body.cmp stage.model windows.end
        stage.states.items stage.events.items r.stage.states.items r.stage.events.items) }
{
    let Stage {
        model,
        states,
        events,
    } = stage;
    let count = states.len();
    let shares = begin(alloc, &model, states, events, windows)?;
    let work = Work { rt, alloc, model };
    let (work, shares) = executor.run_each(alloc, work, shares)?;
    if !all_done(&shares) {
        return Err(Halt::NoThread);
    }
    let left = gather(alloc, count, work.model, shares)?;
    Ok(left)
}

/// Whether each worker has come to the end.
fn all_done<M: VtModel>(shares: &[Share<M>]) -> bool
    ensures done { result ≡ true → All (λ w. w.end ≤ w.until) shares.now }
{
    for share in shares {
        if !share.is_done() {
            return false;
        }
    }
    true
}
