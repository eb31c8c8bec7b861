ghost use Rattle.std.specs.Prelude.{◌≡◌, ◌≤◌, ◌+◌, ◌∷◌, ◌++◌, ℕ, IfOk, List, OnOk, [], length, map};
ghost use Rattle.rw_vt.specs.Words.{Time};
ghost use Rattle.rw_vt.specs.declared.event.Event.{Event};
ghost use Rattle.rw_vt.specs.Order.{weigh};
ghost use Rattle.rw_vt.specs.System.{flatten};
ghost use Rattle.rw_windows.specs.Batches.{events_in, batch_events};
ghost use Rattle.rw_windows.specs.Running.{HaveEnded, IsLeftOfRun};

use crate::batch::{Batch, InTime};
use crate::running::{Left, Stage};
use crate::share::Share;
use rw_exchange::Port;
use rw_pool::join;
use rw_vt::{Event, Model as VtModel, NoMemory};
use std::alloc::Global;
use std::collections::VecDeque;

/// Joins what the workers of a run leave, once all have come to the end: the states of the `count` processes, in order, and
/// what is still to be executed, which is not before the end. The model comes back.
pub(crate) fn gather<M: VtModel + Drop>(
    alloc: Global,
    count: usize,
    model: M,
    shares: Vec<Share<M>>,
) -> Result<Left<M>, NoMemory>
    requires some { 1 ≤ length shares.items }
    requires ended { (end : Time) × (states : List M.State) × (events : List (Event M.Body))
        × (length states ≡ count)
        × HaveEnded M.Model M.Body.cmp model (length shares.items) end states events
        shares.items }
    ensures model { IfOk result (λ r. r.stage.model ≡ model) }
    ensures left { IfOk result (λ r.
        (end : Time) (states : List M.State) (events : List (Event M.Body))
        → length states ≡ count
        → HaveEnded M.Model M.Body.cmp model (length shares.items) end states events
        shares.items
        → IsLeftOfRun M.Model M.Body.cmp model end states events
        r.stage.states.items r.stage.events.items) }
{
    let EndingParts {
        shares,
        ports,
        mut events,
        executed,
        received,
    } = take_apart(alloc, shares)?;
    let left = rw_exchange::settle(alloc, ports)?;
    add_left(&mut events, &left.into_lists())?;
    let states = join(alloc, count, shares)?;
    Ok(Left {
        stage: Stage {
            model,
            states,
            events,
        },
        executed,
        received,
    })
}

/// What the workers of a run leave at its end.
#[derive(Drop)]
struct EndingParts<M: VtModel> {
    /// The states of the processes of each.
    shares: VecDeque<VecDeque<M::State>>,
    /// The port of each, from whose rings the last batches are still to be taken.
    ports: Vec<Port<Batch<M>, InTime>>,
    /// What still waits at each, and what each was to hand over.
    events: Vec<Event<M::Body>>,
    /// How many events all executed.
    executed: u64,
    /// How many of them another worker sent.
    received: u64,
}

impl<M: VtModel> EndingParts<M> {
    /// Adds what one more worker leaves.
    fn add(&mut self, share: Share<M>) -> Result<(), NoMemory>
        ensures shares { OnOk result (map (λ h. h.items) self.new.shares.items
            ≡ map (λ h. h.items) self.old.shares.items ++ share.states ∷ []) }
        ensures ports { OnOk result
            (self.new.ports.items ≡ self.old.ports.items ++ share.port ∷ []) }
        ensures events { OnOk result ((h : Event M.Body → ℕ) → weigh h self.new.events.items
            ≡ weigh h self.old.events.items + weigh h (share.waiting ++ flatten share.outbox)) }
    {
        let Share { domain, events } = share;
        self.executed = self.executed.wrapping_add(domain.executed);
        self.received = self.received.wrapping_add(domain.received);
        add_events(&mut self.events, events, domain.outbox)?;
        self.ports.push(domain.port)?;
        self.shares.push_back(VecDeque::from(domain.states))?;
        Ok(())
    }
}

/// Adds what still waits at a worker, and what it was to hand over.
fn add_events<B: Copy>(
    events: &mut Vec<Event<B>>,
    waiting: Vec<Event<B>>,
    outbox: Vec<Vec<Event<B>>>,
) -> Result<(), NoMemory>
    ensures more { OnOk result (events.new.items ≡ events.old.items
        ++ waiting.items ++ flatten (map (λ l. l.items) outbox.items)) }
{
    events.extend_from_slice(&waiting)?;
    add_lists(events, &outbox)
}

/// Takes the shares apart.
fn take_apart<M: VtModel>(alloc: Global, shares: Vec<Share<M>>) -> Result<EndingParts<M>, NoMemory>
    ensures shares { IfOk result (λ l.
        map (λ h. h.items) l.shares.items ≡ map (λ w. w.states) shares.items) }
    ensures ports { IfOk result (λ l. l.ports.items ≡ map (λ w. w.port) shares.items) }
    ensures events { IfOk result (λ l. (h : Event M.Body → ℕ) → weigh h l.events.items
        ≡ weigh h (flatten (map (λ w. w.waiting ++ flatten w.outbox) shares.items))) }
{
    let mut parts = EndingParts {
        shares: VecDeque::new(alloc),
        ports: Vec::new(alloc),
        events: Vec::new(alloc),
        executed: 0,
        received: 0,
    };
    for share in shares {
        parts.add(share)?;
    }
    Ok(parts)
}

/// Adds the events of all `lists`.
fn add_lists<B: Copy>(events: &mut Vec<Event<B>>, lists: &[Vec<Event<B>>]) -> Result<(), NoMemory>
    ensures more { OnOk result (events.new.items
        ≡ events.old.items ++ flatten (map (λ l. l.items) lists.now)) }
{
    for list in lists {
        events.extend_from_slice(list)?;
    }
    Ok(())
}

/// Adds the events of the batches that are left in the rings, by sender and receiver.
fn add_left<M: VtModel>(
    events: &mut Vec<Event<M::Body>>,
    rows: &[Vec<Vec<Batch<M>>>],
) -> Result<(), NoMemory>
    ensures more { OnOk result (events.new.items ≡ events.old.items
        ++ flatten (map (λ row. events_in (map (λ ring. ring.items) row.items)) rows.now)) }
{
    for row in rows {
        add_row(events, row)?;
    }
    Ok(())
}

/// Adds the events of the batches that are left in the rings of one sender.
fn add_row<M: VtModel>(
    events: &mut Vec<Event<M::Body>>,
    rings: &[Vec<Batch<M>>],
) -> Result<(), NoMemory>
    ensures more { OnOk result (events.new.items
        ≡ events.old.items ++ events_in (map (λ ring. ring.items) rings.now)) }
{
    for ring in rings {
        add_ring(events, ring)?;
    }
    Ok(())
}

/// Adds the events of the batches that are left in one ring.
fn add_ring<M: VtModel>(
    events: &mut Vec<Event<M::Body>>,
    batches: &[Batch<M>],
) -> Result<(), NoMemory>
    ensures more { OnOk result (events.new.items ≡ events.old.items ++ batch_events batches.now) }
{
    for batch in batches {
        events.extend_from_slice(&batch.events)?;
    }
    Ok(())
}
