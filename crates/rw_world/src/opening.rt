ghost use Rattle.std.specs.Prelude.{◌≡◌, ◌<◌, ◌==◌, ◌∷◌, ◌++◌, true, [], IfOk, IfErr, OnOk, All, filter, length, map, slice_index_or};
ghost use Rattle.rw_vt.specs.Words.{Process};
ghost use Rattle.rw_vt.specs.Order.{event_cmp};
ghost use Rattle.rw_vt.specs.System.{IsReady, map_from, system};
ghost use Rattle.rw_vt.specs.declared.refusal.Refusal.TheVariants.{Memory};
ghost use Rattle.rw_lp.specs.Calls.{new_process};
ghost use Rattle.rw_world.specs.WorldState.{opening_process};

use rw_lp::Lp;
use rw_vt::{Event, Model as VtModel, Refusal, empty_lists};
use std::alloc::{AllocError, Global};

/// A process for each start, numbered from 0, with those of `events` pending that go to it. Refused only as `Memory`.
pub fn open_processes<M: VtModel>(
    alloc: Global,
    model: &M,
    starts: Vec<M::State>,
    events: &[Event<M::Body>],
) -> Result<Vec<Lp<M>>, Refusal>
    requires ready { IsReady M.Model model.now starts.items events.now }
    ensures opened { IfOk result (λ v. v.items ≡ map_from 0 (λ q s. record {
      model = model.now;
      number = q;
      process = opening_process (system M.Model M.Body.cmp model.now starts.items events.now) q s;
    }) starts.items) }
    ensures memory { IfErr result (λ e. e ≡ Memory) }
{
    let count = model.processes();
    let inboxes = by_destination(alloc, count as usize, events)?;
    let mut processes = Vec::with_capacity(alloc, count as usize)?;
    let mut number = 0;
    for (start, inbox) in starts.into_iter().zip(inboxes) {
        open_process(alloc, model, number, start, inbox, &mut processes)?;
        number += 1;
    }
    Ok(processes)
}

/// Appends process `number` in its start state, with the events of `inbox` pending. Refused only as
/// `Memory`.
fn open_process<M: VtModel>(
    alloc: Global,
    model: &M,
    number: u32,
    start: M::State,
    inbox: Vec<Event<M::Body>>,
    processes: &mut Vec<Lp<M>>,
) -> Result<(), Refusal>
    requires number { number < M.process_count model.now }
    requires start { M.IsWellFormed model.now number start }
    requires initial { All (λ e.
        (M.is_valid model.now e ≡ true) × (e.to ≡ number)) inbox.items }
    ensures opened { OnOk result (processes.new.items ≡ processes.old.items ++ (record {
      model = model.now;
      number = number;
      process = new_process (event_cmp M.Body.cmp) start inbox.items;
    }) ∷ []) }
    ensures memory { IfErr result (λ e. e ≡ Memory) }
{
    processes.push(Lp::new(alloc, model, number, start, inbox)?)?;
    Ok(())
}

/// For each of `count` processes the events that go to it, in the order of `events`.
fn by_destination<B: Copy>(
    alloc: Global,
    count: usize,
    events: &[Event<B>],
) -> Result<Vec<Vec<Event<B>>>, AllocError>
    requires inside { All (λ e. e.to < count) events.now }
    ensures len { IfOk result (λ v. length v.items ≡ count) }
    ensures each { IfOk result (λ v. (q : Process) → q < count
        → slice_index_or (map (λ l. l.items) v.items) q []
        ≡ filter (λ e. e.to == q) events.now) }
{
    let mut lists = empty_lists(alloc, count)?;
    for event in events {
        lists[event.to as usize].push(*event)?;
    }
    Ok(lists)
}
