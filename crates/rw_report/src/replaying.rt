ghost use Rattle.std.specs.Prelude.{◌≡◌, List, Some, All, IfOk, IfErr, slice_get};
ghost use Rattle.rw_vt.specs.Words.{Process};
ghost use Rattle.rw_photo.specs.Cache.{Cache, IsWellFormed, is_exhausted};
ghost use Rattle.rw_photo.specs.Simulation.{simulation, starts_of};
ghost use Rattle.rw_photo.specs.contracts.photo.PhotoVtModel.TheImpl as model;
ghost use Rattle.rw_trace.specs.Laws.{IsRow};
ghost use Rattle.rw_vt.specs.Limits.{end_of_time};
ghost use Rattle.rw_vt.specs.System.{IsOutcome, IsReady, Meets};
ghost use Rattle.rw_vt.specs.declared.event.Event.{Event};
ghost use Rattle.rw_report.specs.Beginning.{IsBeginningOf, IsBeginningFault};

use crate::sim_fault::SimFault;
use crate::with_progress::{WithProgress, begin_rows};
use rw_photo::{Body, CacheState, Config, OrderedRequests, Photo, requests};
use rw_progress::Progress;
use rw_serial::{last_states, last_states_from};
use rw_trace::{Row, read};
use rw_vt::{Event, Model as VtModel, NoMemory, Refusal};
use std::alloc::Global;

/// What a run of a trace begins with: each cache as it starts, and the requests.
pub fn beginning(
    alloc: Global,
    bytes: &[u8],
    config: &Config,
) -> Result<(Vec<CacheState>, Vec<Event<Body>>), SimFault>
    ensures beginning { IfOk result (λ r. IsBeginningOf config.now bytes.now r.0.items r.1.items) }
    ensures fault { IfErr result (IsBeginningFault config.now bytes.now) }
{
    let rows = read(alloc, bytes, config.edges())?;
    Ok(beginning_of_rows(alloc, rows.as_slice(), config)?)
}

/// What a run of these rows begins with: each cache as it starts, and the requests. The rows are in the ranges of a trace of
/// the configuration's edges, as those are that [`rw_trace::read`] gives; many configurations may run the same rows.
pub fn beginning_of_rows(
    alloc: Global,
    rows: &[Row],
    config: &Config,
) -> Result<(Vec<CacheState>, Vec<Event<Body>>), NoMemory>
    requires { All (IsRow config.now.edges) rows.now }
    ensures starts { IfOk result (λ r. r.0.items ≡ (simulation config.now rows.now).starts) }
    ensures initial { IfOk result (λ r. r.1.items ≡ (simulation config.now rows.now).initial) }
    ensures ready { IfOk result (λ r.
        IsReady model.ghosts (record { config = config.now }) r.0.items r.1.items) }
{
    let initial = requests(alloc, rows)?;
    let starts = starts(alloc, &Photo::new(*config))?;
    Ok((starts, initial))
}

/// The state of each cache once the requests of these rows, and all that follows from them, are executed in order of time. The
/// rows are in the ranges of a trace of the configuration's edges.
///
/// Where the rows stand in order of time, each request is made when its turn comes, so that they are not all in memory at once, and
/// the run reports to `progress` how far it has come, in ticks of virtual time.
///
/// # Errors
///
/// `Exhausted` only where that comes to a cache that can take no further event, and `Memory` only where memory was refused.
pub fn last_states_of_rows<P: Progress>(
    alloc: Global,
    rows: &[Row],
    config: &Config,
    progress: &mut P,
) -> Result<Vec<CacheState>, Refusal>
    requires { All (IsRow config.now.edges) rows.now }
    ensures outcome { IfOk result (λ states. (journals : List (List (Event Body)))
        × IsOutcome (simulation config.now rows.now) end_of_time journals states.items) }
    ensures exhausted { IfErr result (λ r. r ≡ Refusal.Exhausted
        → Meets (simulation config.now rows.now) end_of_time is_exhausted) }
{
    let photo = Photo::new(*config);
    let Some(source) = OrderedRequests::new(rows) else {
        let (starts, initial) = beginning_of_rows(alloc, rows, config)?;
        return last_states(alloc, &photo, starts, initial);
    };
    let starts = starts(alloc, &photo)?;
    begin_rows(rows, &[], progress);
    let source = WithProgress {
        source,
        progress,
        given: 0,
    };
    last_states_from(alloc, &photo, starts, source)
}

/// Each cache of a model as it starts, the edges before the origins.
pub fn starts(alloc: Global, photo: &Photo) -> Result<Vec<CacheState>, NoMemory>
    ensures states { IfOk result (λ states. states.items ≡ starts_of photo.now.config) }
    ensures well_formed { IfOk result (λ states.
        (p : Process) (s : Cache) → slice_get states.items p ≡ Some s
        → IsWellFormed photo.now.config p s) }
{
    let count = photo.processes();
    let mut states = Vec::with_capacity(alloc, count as usize)?;
    for process in 0..count {
        states.push(photo.start(alloc, process)?)?;
    }
    Ok(states)
}
