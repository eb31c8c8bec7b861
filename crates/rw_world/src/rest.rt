ghost use Rattle.std.specs.Prelude.{◌≡◌, ◌≤◌, ◌+◌, ◌++◌, IfOk, OnOk, map};
ghost use Rattle.rw_vt.specs.Order.{event_cmp, copies};
ghost use Rattle.rw_vt.specs.Letters.{messages, antis};
ghost use Rattle.rw_vt.specs.System.{flatten};
ghost use Rattle.rw_vt.specs.declared.event.Event.{Event};
ghost use Rattle.rw_world.specs.Leaving.{owed_at};

use rw_bag::Bag;
use rw_lp::Lp;
use rw_vt::{Event, Letter, Model as VtModel};
use std::alloc::{AllocError, Global};

/// What a world that was left off leaves: from these states, with these events, its run goes on. See
/// [`World::into_rest`](crate::World::into_rest).
#[derive(Drop)]
pub struct Rest<M: VtModel> {
    /// The model that every process runs.
    pub model: M,
    /// The state of each process, in the order of their numbers, from 0.
    pub states: Vec<M::State>,
    /// What is still to be executed, in no particular order.
    pub events: Vec<Event<M::Body>>,
}

/// Takes processes apart: gives the state of each, and appends what is pending at them to `there`, and what is owed or held to
/// `owed`.
pub(crate) fn take_apart<M: VtModel>(
    alloc: Global,
    processes: Vec<Lp<M>>,
    there: &mut Vec<Event<M::Body>>,
    owed: &mut Vec<Event<M::Body>>,
) -> Result<Vec<M::State>, AllocError>
    ensures states { IfOk result (λ v.
        v.items ≡ map (λ l. l.process.state) processes.items) }
    ensures there { OnOk result (there.new.items
        ≡ there.old.items ++ flatten (map (λ l. l.process.pending) processes.items)) }
    ensures owed { OnOk result (owed.new.items
        ≡ owed.old.items ++ flatten (map owed_at processes.items)) }
{
    let mut states = Vec::with_capacity(alloc, processes.len())?;
    for process in processes {
        states.push(process.into_left(there, owed)?)?;
    }
    Ok(states)
}

/// Appends the events of messages to `there`, and those of anti-messages to `owed`.
pub(crate) fn sort_letters<B: Ord + Copy>(
    letters: &[Letter<B>],
    there: &mut Vec<Event<B>>,
    owed: &mut Vec<Event<B>>,
) -> Result<(), AllocError>
    ensures there { OnOk result ((e : Event B) → copies (event_cmp B.cmp) e there.new.items
        ≡ copies (event_cmp B.cmp) e there.old.items + messages (event_cmp B.cmp) e letters.now) }
    ensures owed { OnOk result ((e : Event B) → copies (event_cmp B.cmp) e owed.new.items
        ≡ copies (event_cmp B.cmp) e owed.old.items + antis (event_cmp B.cmp) e letters.now) }
{
    for letter in letters {
        if letter.anti {
            owed.push(letter.event)?;
        } else {
            there.push(letter.event)?;
        }
    }
    Ok(())
}

/// The events that are there without those that are owed, each of which is there. Where nothing is owed that is one test.
pub(crate) fn without_owed<M: VtModel>(
    alloc: Global,
    there: Vec<Event<M::Body>>,
    owed: Vec<Event<M::Body>>,
) -> Result<Vec<Event<M::Body>>, AllocError>
    requires there { (e : Event M.Body) → copies (event_cmp M.Body.cmp) e owed.items
        ≤ copies (event_cmp M.Body.cmp) e there.items }
    ensures left { IfOk result (λ left. (e : Event M.Body)
        → copies (event_cmp M.Body.cmp) e left.items + copies (event_cmp M.Body.cmp) e owed.items
        ≡ copies (event_cmp M.Body.cmp) e there.items) }
{
    if owed.is_empty() {
        return Ok(there);
    }
    let mut owed = Bag::<M>::from_events(owed)?;
    let mut left = Vec::new(alloc);
    for event in there {
        if !owed.take(event) {
            left.push(event)?;
        }
    }
    Ok(left)
}
