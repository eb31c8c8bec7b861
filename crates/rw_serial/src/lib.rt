#![tactic(auto)]
//! A sequential run: always executes the least pending event. Initial events come from a [`Source`],
//! which can create each of them on demand. Pending events are in [`Pending`], from `rw_pending`.
//!
//! Each process executes its events in order, and nothing is ever rolled back. This is the sequential
//! execution that Time Warp (Jefferson 1985) is measured against: whatever its schedule, a parallel run
//! has to end with the journals and states of this one.
//!
//! A run can be made in pieces: [`go_on`] continues a run from any point, executes a given number of
//! events, and returns where the run then is, so that this engine or another one can continue it.
//!
//! Worked examples: `rw_program_tests/src/reports.rt`, and the cases of `rw_cases`.

mod ledger;
mod sorted;

ghost use Rattle.std.specs.Prelude.{◌≡◌, ◌+◌, ◌<◌, ◌≤◌, ◌++◌, ℕ, false, true, [], ◌∷◌, All, List, IfNone, IfOk, IfErr, IfSome, OnOk, length, map, replicate, slice_get, slice_index_or, slice_set};
ghost use Rattle.rw_vt.specs.Limits.{end_of_time};
ghost use Rattle.rw_vt.specs.Moments.{HasReached};
ghost use Rattle.rw_vt.specs.Rest.{EndsAs, IsRestOf};
ghost use Rattle.rw_vt.specs.Words.{Time};
ghost use Rattle.rw_vt.specs.System.{system, IsOutcome, IsReady, Meets};
ghost use Rattle.rw_vt.specs.declared.event.Event.{Event};
ghost use Rattle.rw_serial.specs.Counts.{events_below};

use ledger::{Count, Ledger, NoJournals};
pub use rw_pending::{Pending, Source};
use rw_vt::empty_lists;
pub use rw_vt::{Event, Model, Outcome, Refusal};
pub use sorted::Sorted;
use std::alloc::Global;

/// Executes all events in order, the initial ones and those that are sent, and gives what each process has then executed
/// and the state that it is in.
///
/// There is one start for each process, and `initial` may be in any order; an event that stands there twice is executed
/// twice. Every event is earlier than [`rw_vt::END`], and what an event sends is later than the event, so a run ends.
///
/// It costs the executions, one sort of the initial events (linear in their number where they are sorted already), and
/// for each event a number of comparisons logarithmic in how many sent events are pending at the time. There are no undo
/// records.
///
/// # Errors
///
/// [`Refusal::Exhausted`] only where some process, on the way to the outcome, would execute an event in a state that can
/// take no further one, and [`Refusal::Memory`] only where memory was refused. Nothing is handed back then.
pub fn run<M: Model>(
    alloc: Global,
    model: &M,
    starts: Vec<M::State>,
    initial: Vec<Event<M::Body>>,
) -> Result<Outcome<M>, Refusal>
    requires ready { IsReady M.Model model.now starts.items initial.items }
    ensures outcome { IfOk result (λ o.
        IsOutcome (system M.Model M.Body.cmp model.now starts.items initial.items) end_of_time
        (map (λ j. j.items) o.journals.items) o.states.items) }
    ensures exhausted { IfErr result (λ r. r ≡ Refusal.Exhausted
        → Meets (system M.Model M.Body.cmp model.now starts.items initial.items) end_of_time
        (M.is_exhausted model.now)) }
{
    let mut journals = empty_lists(alloc, starts.len())?;
    let mut states = starts;
    let source = Sorted::new(initial)?;
    execute_all(alloc, model, &mut states, &mut journals, source)?;
    Ok(Outcome { journals, states })
}

/// The states of [`run`] alone: what each process is in once all events are executed in order.
///
/// No journal is kept, so what it needs of memory is the states and the pending events. Otherwise it costs what `run`
/// costs, and is refused as `run` is.
pub fn last_states<M: Model>(
    alloc: Global,
    model: &M,
    starts: Vec<M::State>,
    initial: Vec<Event<M::Body>>,
) -> Result<Vec<M::State>, Refusal>
    requires ready { IsReady M.Model model.now starts.items initial.items }
    ensures outcome { IfOk result (λ states. (journals : List (List (Event M.Body)))
        × IsOutcome (system M.Model M.Body.cmp model.now starts.items initial.items) end_of_time
        journals states.items) }
    ensures exhausted { IfErr result (λ r. r ≡ Refusal.Exhausted
        → Meets (system M.Model M.Body.cmp model.now starts.items initial.items) end_of_time
        (M.is_exhausted model.now)) }
{
    last_states_from(alloc, model, starts, Sorted::new(initial)?)
}

/// [`last_states`] where the initial events come from a source, so that they need not be there all at once.
///
/// None of them is sorted here. Otherwise it costs what `last_states` costs, and is refused as that is.
pub fn last_states_from<M: Model, S: Source<M::Body>>(
    alloc: Global,
    model: &M,
    starts: Vec<M::State>,
    source: S,
) -> Result<Vec<M::State>, Refusal>
    requires ready { IsReady M.Model model.now starts.items (S.left source) }
    ensures outcome { IfOk result (λ states. (journals : List (List (Event M.Body)))
        × IsOutcome (system M.Model M.Body.cmp model.now starts.items (S.left source)) end_of_time
        journals states.items) }
    ensures exhausted { IfErr result (λ r. r ≡ Refusal.Exhausted
        → Meets (system M.Model M.Body.cmp model.now starts.items (S.left source)) end_of_time
        (M.is_exhausted model.now)) }
{
    let mut states = starts;
    execute_all(alloc, model, &mut states, &mut NoJournals, source)?;
    Ok(states)
}

/// [`last_states`] of a run that may be given up: it executes at most `limit` events, and tells how many they were. `None`
/// exactly where all events are more than that.
///
/// It costs a counter more than `last_states`, and is refused as that is; where the limit is used up, no later refusal comes
/// about.
pub fn last_states_within<M: Model>(
    alloc: Global,
    model: &M,
    starts: Vec<M::State>,
    initial: Vec<Event<M::Body>>,
    limit: u64,
) -> Result<Option<(Vec<M::State>, u64)>, Refusal>
    requires ready { IsReady M.Model model.now starts.items initial.items }
    ensures outcome { IfOk result (λ ran. IfSome ran (λ done.
        (journals : List (List (Event M.Body)))
        × IsOutcome (system M.Model M.Body.cmp model.now starts.items initial.items) end_of_time
        journals done.0.items)) }
    ensures count { IfOk result (λ ran. IfSome ran (λ done.
        (done.1 ≡ events_below
        (system M.Model M.Body.cmp model.now starts.items initial.items) end_of_time)
        × (done.1 ≤ limit))) }
    ensures used_up { IfOk result (λ ran. IfNone ran (limit < events_below
        (system M.Model M.Body.cmp model.now starts.items initial.items) end_of_time)) }
    ensures exhausted { IfErr result (λ r. r ≡ Refusal.Exhausted
        → Meets (system M.Model M.Body.cmp model.now starts.items initial.items) end_of_time
        (M.is_exhausted model.now)) }
{
    last_states_within_from(alloc, model, starts, Sorted::new(initial)?, limit)
}

/// [`last_states_within`] where the initial events come from a source, so that they need not be there all at once.
///
/// None of them is sorted here. Otherwise it costs what `last_states_within` costs, and is refused as that is.
pub fn last_states_within_from<M: Model, S: Source<M::Body>>(
    alloc: Global,
    model: &M,
    starts: Vec<M::State>,
    source: S,
    limit: u64,
) -> Result<Option<(Vec<M::State>, u64)>, Refusal>
    requires ready { IsReady M.Model model.now starts.items (S.left source) }
    ensures outcome { IfOk result (λ ran. IfSome ran (λ done.
        (journals : List (List (Event M.Body)))
        × IsOutcome (system M.Model M.Body.cmp model.now starts.items (S.left source)) end_of_time
        journals done.0.items)) }
    ensures count { IfOk result (λ ran. IfSome ran (λ done.
        (done.1 ≡ events_below
        (system M.Model M.Body.cmp model.now starts.items (S.left source)) end_of_time)
        × (done.1 ≤ limit))) }
    ensures used_up { IfOk result (λ ran. IfNone ran (limit < events_below
        (system M.Model M.Body.cmp model.now starts.items (S.left source)) end_of_time)) }
    ensures exhausted { IfErr result (λ r. r ≡ Refusal.Exhausted
        → Meets (system M.Model M.Body.cmp model.now starts.items (S.left source)) end_of_time
        (M.is_exhausted model.now)) }
{
    let mut states = starts;
    let mut count = Count::up_to(limit);
    if execute_all(alloc, model, &mut states, &mut count, source)? {
        Ok(Some((states, count.entered)))
    } else {
        Ok(None)
    }
}

/// Goes on with a run from where it stands: executes the pending events and those that are sent, in order, at most `limit` of
/// them, and answers how many they were.
///
/// `states` has the state of each process. What is then left, the states and what is still pending, ends as the run itself:
/// whatever engine goes on with it, this one among them, leaves the same states. Nothing is left pending where fewer than
/// `limit` were executed. [`Pending::take_out`] hands over to another engine, and [`Pending::put_back`] takes what it left.
///
/// It costs what [`last_states_from`] costs. There are no journals and no undo records.
///
/// # Errors
///
/// [`Refusal::Exhausted`] only where some process, on the way to the outcome of all events, would execute an event in a state
/// that can take no further one, and [`Refusal::Memory`] only where memory was refused. Nothing is said of `states` and
/// `pending` then.
pub fn go_on<M: Model, S: Source<M::Body>>(
    alloc: Global,
    model: &M,
    states: &mut Vec<M::State>,
    pending: &mut Pending<M::Body, S>,
    limit: u64,
) -> Result<u64, Refusal>
    requires ready { IsReady M.Model model.now states.old.items pending.old.events }
    ensures rest { OnOk result (EndsAs
        (system M.Model M.Body.cmp model.now states.new.items pending.new.events)
        (system M.Model M.Body.cmp model.now states.old.items pending.old.events)) }
    ensures ready { OnOk result
        (IsReady M.Model model.now states.new.items pending.new.events) }
    ensures count { IfOk result (λ n.
        (n ≤ limit)
        × (n + events_below
        (system M.Model M.Body.cmp model.now states.new.items pending.new.events) end_of_time
        ≡ events_below
        (system M.Model M.Body.cmp model.now states.old.items pending.old.events) end_of_time)) }
    ensures all { IfOk result (λ n. n < limit → pending.new.events ≡ []) }
    ensures exhausted { IfErr result (λ r.
        r ≡ Refusal.Exhausted
        → Meets (system M.Model M.Body.cmp model.now states.old.items pending.old.events)
        end_of_time (M.is_exhausted model.now)) }
{
    let mut sent = Vec::new(alloc);
    let mut next = None;
    for executed in 0..limit {
        pending.pop(&mut next)?;
        let Some(event) = &next else {
            return Ok(executed);
        };
        execute(alloc, model, states, event, &mut sent)?;
        pending.extend(&sent)?;
    }
    Ok(limit)
}

/// Goes on with a run to a time: executes the pending events of times below `until`, in ticks, and those of such times that are
/// sent, in order, and no other.
///
/// `states` has the state of each process. Where a run had reached some time with these states and pending events, it has then
/// reached `until`; so the states are those that the run has when all its events of times below `until` are executed. What is
/// left goes on as the run, whatever more comes from outside, none of it before `until`.
///
/// It costs what [`last_states_from`] costs for the events that it executes. There are no journals and no undo records.
///
/// # Errors
///
/// [`Refusal::Exhausted`] only where some process, on the way to `until`, would execute an event in a state that can take no
/// further one, and [`Refusal::Memory`] only where memory was refused. Nothing is said of `states` and `pending` then.
pub fn run_until<M: Model, S: Source<M::Body>>(
    alloc: Global,
    model: &M,
    states: &mut Vec<M::State>,
    pending: &mut Pending<M::Body, S>,
    until: u64,
) -> Result<(), Refusal>
    requires ready { IsReady M.Model model.now states.old.items pending.old.events }
    ensures reached { OnOk result (HasReached
        (system M.Model M.Body.cmp model.now states.old.items pending.old.events) until
        states.new.items pending.new.events) }
    ensures further { OnOk result ((starts : List M.State) (initial : List (Event M.Body))
        (t : Time) → t ≤ until
        → IsReady M.Model model.now starts initial
        → HasReached (system M.Model M.Body.cmp model.now starts initial) t
        states.old.items pending.old.events
        → HasReached (system M.Model M.Body.cmp model.now starts initial) until
        states.new.items pending.new.events) }
    ensures rest { OnOk result (IsRestOf
        (system M.Model M.Body.cmp model.now states.old.items pending.old.events) until
        states.new.items pending.new.events) }
    ensures ready { OnOk result
        (IsReady M.Model model.now states.new.items pending.new.events) }
    ensures late { OnOk result (All (λ e. until ≤ e.time) pending.new.events) }
    ensures before { OnOk result (pending.old.time < until → pending.new.time < until) }
    ensures exhausted { IfErr result (λ r.
        r ≡ Refusal.Exhausted
        → Meets (system M.Model M.Body.cmp model.now states.old.items pending.old.events)
        until (M.is_exhausted model.now)) }
{
    let mut sent = Vec::new(alloc);
    let mut next = None;
    'events: loop {
        pending.pop_before(until, &mut next)?;
        let Some(event) = &next else {
            return Ok(());
        };
        execute(alloc, model, states, event, &mut sent)?;
        pending.extend(&sent)?;
    }
}

/// Executes all events in order, from the states given, and enters each in `ledger`. Answers whether it had room for all; an
/// event that it had no room for is not executed.
///
/// After a refusal nothing is said of `states` and `ledger`.
fn execute_all<M: Model, L: Ledger<M::Body>, S: Source<M::Body>>(
    alloc: Global,
    model: &M,
    states: &mut Vec<M::State>,
    ledger: &mut L,
    source: S,
) -> Result<bool, Refusal>
    requires ready { IsReady M.Model model.now states.old.items (S.left source) }
    requires none { (limit : ℕ)
        × L.StandsFor ledger.old limit (replicate (length states.old.items) []) }
    ensures outcome { IfOk result (λ all. all ≡ true → (limit : ℕ)
        → L.StandsFor ledger.old limit (replicate (length states.old.items) [])
        → (journals : List (List (Event M.Body))) × L.StandsFor ledger.new limit journals
        × IsOutcome (system M.Model M.Body.cmp model.now states.old.items (S.left source))
        end_of_time journals states.new.items) }
    ensures used_up { IfOk result (λ all. all ≡ false → (limit : ℕ)
        → L.StandsFor ledger.old limit (replicate (length states.old.items) [])
        → limit < events_below
        (system M.Model M.Body.cmp model.now states.old.items (S.left source)) end_of_time) }
    ensures exhausted { IfErr result (λ r.
        r ≡ Refusal.Exhausted
        → Meets (system M.Model M.Body.cmp model.now states.old.items (S.left source)) end_of_time
        (M.is_exhausted model.now)) }
{
    let mut pending = Pending::new(alloc, source);
    execute_pending(alloc, model, states, ledger, &mut pending)
}

/// Executes all events that are pending, and those that are sent, in order, from the states given, and enters each in `ledger`.
/// Answers whether it had room for all; an event that it had no room for is not executed.
///
/// After a refusal nothing is said of `states`, `ledger` and `pending`.
fn execute_pending<M: Model, L: Ledger<M::Body>, S: Source<M::Body>>(
    alloc: Global,
    model: &M,
    states: &mut Vec<M::State>,
    ledger: &mut L,
    pending: &mut Pending<M::Body, S>,
) -> Result<bool, Refusal>
    requires ready { IsReady M.Model model.now states.old.items pending.old.events }
    requires none { (limit : ℕ)
        × L.StandsFor ledger.old limit (replicate (length states.old.items) []) }
    ensures outcome { IfOk result (λ all. all ≡ true → (limit : ℕ)
        → L.StandsFor ledger.old limit (replicate (length states.old.items) [])
        → (journals : List (List (Event M.Body))) × L.StandsFor ledger.new limit journals
        × IsOutcome (system M.Model M.Body.cmp model.now states.old.items pending.old.events)
        end_of_time journals states.new.items) }
    ensures used_up { IfOk result (λ all. all ≡ false → (limit : ℕ)
        → L.StandsFor ledger.old limit (replicate (length states.old.items) [])
        → limit < events_below
        (system M.Model M.Body.cmp model.now states.old.items pending.old.events) end_of_time) }
    ensures exhausted { IfErr result (λ r.
        r ≡ Refusal.Exhausted
        → Meets (system M.Model M.Body.cmp model.now states.old.items pending.old.events)
        end_of_time (M.is_exhausted model.now)) }
{
    let mut sent = Vec::new(alloc);
    let mut next = None;
    'events: loop {
        pending.pop(&mut next)?;
        let Some(event) = &next else {
            return Ok(true);
        };
        if !ledger.enter(*event)? {
            return Ok(false);
        }
        execute(alloc, model, states, event, &mut sent)?;
        pending.extend(&sent)?;
    }
}

/// Executes an event for good at its process, and leaves in `sent` what it sends, in order.
///
/// After a refusal nothing is said of `states` and `sent`.
fn execute<M: Model>(
    alloc: Global,
    model: &M,
    states: &mut Vec<M::State>,
    event: &Event<M::Body>,
    sent: &mut Vec<Event<M::Body>>,
) -> Result<(), Refusal>
    requires process { event.now.to < M.process_count model.now }
    requires enough { length states.old.items ≡ M.process_count model.now }
    requires well_formed { (s : M.State) → slice_get states.old.items event.now.to ≡ Some s
        → M.IsWellFormed model.now event.now.to s }
    requires valid { M.is_valid model.now event.now ≡ true }
    ensures states { OnOk result ((s : M.State) → slice_get states.old.items event.now.to ≡ Some s
        → states.new.items ≡ slice_set states.old.items event.now.to
        (M.step model.now event.now.to s event.now).0) }
    ensures sends { OnOk result ((s : M.State) → slice_get states.old.items event.now.to ≡ Some s
        → sent.new.items ≡ (M.step model.now event.now.to s event.now).1) }
    ensures exhausted { IfErr result (λ r. r ≡ Refusal.Exhausted
        → (s : M.State) → slice_get states.old.items event.now.to ≡ Some s
        → M.is_exhausted model.now s ≡ true) }
{
    sent.clear();
    model.advance(alloc, event.to, &mut states[event.to as usize], event, sent)
}
