ghost use Rattle.std.specs.Prelude.{◌≡◌, ◌≤◌, ◌<◌, Bool, true, List, ◌++◌, OnOk, IfOk, IsTrue, ◌↔◌, All};
ghost use Rattle.std.specs.declared.cmp.Ordering.TheVariants.{Equal};
ghost use Rattle.std.specs.Cmp.{IsTotalOrder};
ghost use Rattle.rw_vt.specs.Words.{Count, Process};
ghost use Rattle.rw_vt.specs.Order.{event_cmp, AtMost};
ghost use Rattle.rw_vt.specs.Valid.{IsInRange, IsSentBy};
ghost use Rattle.rw_vt.specs.declared.event.Event.{Event};

use crate::event::Event;
use crate::refusal::{NoMemory, Refusal};
use std::alloc::Global;

/// Processes, numbered from 0, that execute events and can take them back by reverse computation (Carothers, Perumalla
/// and Fujimoto 1999).
///
/// Each implementation proves the five laws that optimistic execution rests on:
///
/// - an accepted `execute` is the model's `step`;
/// - every send is valid and strictly later (`future`);
/// - `reverse` gives back the very state (its clause `before`);
/// - well-formedness is kept (`keeps`), and bodies that compare as equal are the same (`same`);
/// - an undo record is no larger than its bound (`light`).
pub trait Model {
    /// What one process keeps.
    type State: Drop;

    /// What an event says.
    type Body: Ord + Copy;

    /// What takes one execution back.
    type Undo: Drop;

    /// How many processes there are.
    ghost process_count: { Self → Count };

    /// The events that may be handed to the process that they name.
    ghost is_valid: { Self → Event Self.Body → Bool };

    /// The states that process p may be in.
    ghost IsWellFormed: { Self → Process → Self.State → Type 0 };

    /// The states that can take no further event.
    ghost is_exhausted: { Self → Self.State → Bool };

    /// The state of process p after an event, and what it sends, in order.
    ghost step: { Self → Process → Self.State → Event Self.Body
        → Self.State × List (Event Self.Body) };

    /// An undo record links the state of process p before an event, the event, and the state after it.
    ghost Links: { Self → Process → Self.State → Event Self.Body → Self.Undo → Self.State
        → Type 0 };

    /// How many entries an undo record has.
    ghost weight: { Self.Undo → Count };

    /// How many it may have, by the states before and after.
    ghost weight_bound: { Self → Process → Self.State → Self.State → Count };

    /// How many processes there are. Takes no memory.
    fn processes(&self) -> u32
        ensures { result ≡ process_count self.now };

    /// Whether an event may be handed to the process that it names. Takes no memory.
    fn valid(&self, event: &Event<Self::Body>) -> bool
        ensures { result ≡ is_valid self.now event.now };

    /// Whether a state can take no further event. Takes no memory.
    fn exhausted(&self, state: &Self::State) -> bool
        ensures { result ≡ is_exhausted self.now state.now };

    /// Executes an event at the process that it names, and appends what it sends to `out`, in order.
    ///
    /// Refused as `Exhausted` exactly where `exhausted` holds of the state, which is tested first; as `Memory` only
    /// where memory was refused. After a refusal nothing is said of `state` and `out`: drop them.
    fn execute(
        &self,
        alloc: Global,
        process: u32,
        state: &mut Self::State,
        event: &Event<Self::Body>,
        out: &mut Vec<Event<Self::Body>>,
    ) -> Result<Self::Undo, Refusal>
        requires process { process < process_count self.now }
        requires well_formed { IsWellFormed self.now process state.old }
        requires valid { is_valid self.now event.now ≡ true }
        requires here { event.now.to ≡ process }
        ensures state { OnOk result (state.new ≡ (step self.now process state.old event.now).0) }
        ensures sends { OnOk result
            (out.new.items ≡ out.old.items ++ (step self.now process state.old event.now).1) }
        ensures links { IfOk result (λ undo.
            Links self.now process state.old event.now undo state.new) }
        ensures exhausted { (result ≡ Err Refusal.Exhausted)
            ↔ (is_exhausted self.now state.old ≡ true) };

    /// Executes an event for good: as [`Model::execute`], but of an execution that is never taken back, so that there is no
    /// record. A model that can do so for less than a record costs has a body of its own.
    ///
    /// Refused where `execute` is. After a refusal nothing is said of `state` and `out`: drop them.
    fn advance(
        &self,
        alloc: Global,
        process: u32,
        state: &mut Self::State,
        event: &Event<Self::Body>,
        out: &mut Vec<Event<Self::Body>>,
    ) -> Result<(), Refusal>
        requires process { process < process_count self.now }
        requires well_formed { IsWellFormed self.now process state.old }
        requires valid { is_valid self.now event.now ≡ true }
        requires here { event.now.to ≡ process }
        ensures state { OnOk result (state.new ≡ (step self.now process state.old event.now).0) }
        ensures sends { OnOk result
            (out.new.items ≡ out.old.items ++ (step self.now process state.old event.now).1) }
        ensures exhausted { (result ≡ Err Refusal.Exhausted)
            ↔ (is_exhausted self.now state.old ≡ true) }
    {
        let _undo = self.execute(alloc, process, state, event, out)?;
        Ok(())
    }

    /// Takes an execution back: given the state after it, the event and its undo record, gives the very state before.
    ///
    /// After a refusal nothing is said of `state`: drop it.
    fn reverse(
        &self,
        alloc: Global,
        process: u32,
        state: &mut Self::State,
        event: &Event<Self::Body>,
        undo: Self::Undo,
    ) -> Result<(), NoMemory>
        requires process { process < process_count self.now }
        requires linked { (before : Self.State) × IsWellFormed self.now process before
            × Links self.now process before event.now undo state.old }
        requires valid { is_valid self.now event.now ≡ true }
        requires here { event.now.to ≡ process }
        ensures before { OnOk result ((before : Self.State) → IsWellFormed self.now process before
            → Links self.now process before event.now undo state.old → state.new ≡ before) };

    /// A valid event's fields are in their ranges, its time is before the end, and it goes to a process.
    ghost ranges: { (m : Self) (e : Event Self.Body) → is_valid m e ≡ true
        → IsInRange (process_count m) e };

    /// A step keeps a state well formed.
    ghost keeps: { (m : Self) (p : Process) (s : Self.State) (e : Event Self.Body)
        → IsWellFormed m p s → is_valid m e ≡ true → e.to ≡ p
        → IsWellFormed m p (step m p s e).0 };

    /// Each send is valid, comes from the process, and is strictly later.
    ghost future: { (m : Self) (p : Process) (s : Self.State) (e : Event Self.Body)
        → IsWellFormed m p s → is_valid m e ≡ true → e.to ≡ p
        → All (λ f. IsSentBy p e f × (is_valid m f ≡ true)) (step m p s e).1 };

    /// Bodies that compare as equal are the same.
    ghost same: { (a b : Self.Body) → Self.Body.cmp a b ≡ Equal → a ≡ b };

    /// An undo record that links has no more entries than its bound.
    ghost light: { (m : Self) (p : Process) (before after : Self.State) (e : Event Self.Body)
        (u : Self.Undo) → Links m p before e u after
        → weight u ≤ weight_bound m p before after };
}

/// Executes an event at the process that it names, and takes that back: the state is the very one from before. So it is for
/// every model, from every well-formed state and for every valid event (reverse computation: Carothers, Perumalla and
/// Fujimoto 1999). Hands back what the event sent, in order, which is not cancelled here.
///
/// Refused as `Exhausted` only where `exhausted` holds of the state, and as `Memory` only where memory was refused. After a
/// refusal nothing is said of `state`: drop it.
pub fn execute_and_reverse<M: Model>(
    alloc: Global,
    model: &M,
    process: u32,
    state: &mut M::State,
    event: &Event<M::Body>,
) -> Result<Vec<Event<M::Body>>, Refusal>
    requires process { process < M.process_count model.now }
    requires well_formed { M.IsWellFormed model.now process state.old }
    requires valid { M.is_valid model.now event.now ≡ true }
    requires here { event.now.to ≡ process }
    ensures exact { OnOk result (state.new ≡ state.old) }
    ensures sends { IfOk result (λ sent.
        sent.items ≡ (M.step model.now process state.old event.now).1) }
    ensures exhausted { result ≡ Err Refusal.Exhausted → M.is_exhausted model.now state.old ≡ true }
{
    let mut sent = Vec::new(alloc);
    let undo = model.execute(alloc, process, state, event, &mut sent)?;
    model.reverse(alloc, process, state, event, undo)?;
    Ok(sent)
}

/// What a whole run leaves: for each process the events that it executed, in order, and its state.
#[derive(Drop)]
pub struct Outcome<M: Model> {
    /// The executed events of each process.
    pub journals: Vec<Vec<Event<M::Body>>>,
    /// The last state of each process.
    pub states: Vec<M::State>,
}

/// Whether two events of a model stand in order: `a` is not greater than `b`. Takes no memory.
///
/// Its contract states what is known of that order for every model: it is total, and events that compare as equal are
/// the same event.
pub fn in_order<M: Model>(_model: &M, a: &Event<M::Body>, b: &Event<M::Body>) -> bool
    ensures answer { IsTrue result ↔ AtMost (event_cmp M.Body.cmp) a.now b.now }
    ensures total { IsTotalOrder (event_cmp M.Body.cmp) }
    ensures exact { (e f : Event M.Body) → event_cmp M.Body.cmp e f ≡ Equal → e ≡ f }
{
    a.cmp(b).is_le()
}
