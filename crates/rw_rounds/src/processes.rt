// The processes of a worker, with the least of what is next at them at hand.
ghost use Rattle.std.specs.Prelude.{◌≡◌, ◌≢◌, ◌<◌, ◌+◌, ◌++◌, [], true, OnOk, IfOk, IfSome, IfNone, Some, length, slice_get};
ghost use Rattle.rw_vt.specs.Words.{Time};
ghost use Rattle.rw_vt.specs.Order.{event_cmp};
ghost use Rattle.rw_vt.specs.System.{rules};
ghost use Rattle.rw_bag.specs.Bags.{IsNextOf};
ghost use Rattle.rw_lp.specs.Arrival.{ArrivedBy};
ghost use Rattle.rw_lp.specs.Calls.{LogicalProcess, GivesOut};
ghost use Rattle.rw_lp.specs.Sound.{HasCollected};
ghost use Rattle.rw_rounds.specs.Processes.{ChangesOne, TellsNext};
ghost use Rattle.rw_rounds.specs.Working.{Advances, HeldBack, IsNext};

use crate::inner::Context;
use crate::tournament::Tournament;
use rw_lp::{Answer, Lp, Way, put_back};
use rw_vt::{Event, Letter, Model as VtModel, Refusal};
use std::alloc::{AllocError, Global};
use std::marker::Model;
use std::mem;

/// The processes of a worker, by their places. Contracts see them as a list.
///
/// Once the least of all pending events was asked for, what is next at each process is at hand: to ask again, and to change one
/// process, costs the logarithm of their number.
#[derive(Drop)]
pub(crate) struct Processes<M: VtModel> {
    items: Vec<Lp<M>>,
    /// What is next at each process; no place as long as nobody asked.
    next: Tournament<M>,
}

impl<M: VtModel> Model for Processes<M> {
    ghost use Rattle.rw_vt.specs.Order.{event_cmp};
    ghost use Rattle.rw_rounds.specs.Processes.{ProcessList, TellsNext};

    ghost Value = { ProcessList M M.State M.Body };

    ghost view = { λ p. record { items = p.items.items } };

    ghost invariant = { λ p. TellsNext (event_cmp M.Body.cmp) p.items.items p.next };
}

impl<M: VtModel> Processes<M> {
    /// These processes. Takes no memory.
    pub(crate) fn of(alloc: Global, items: Vec<Lp<M>>) -> Processes<M>
        ensures { result ≡ record { items = items.items } }
    {
        Processes {
            items,
            next: Tournament::none(alloc),
        }
    }

    /// The processes as a list.
    pub(crate) fn as_slice(&self) -> &[Lp<M>]
        ensures { result.now ≡ self.now.items }
    {
        &self.items
    }

    /// The processes as a list. Takes no memory.
    pub(crate) fn into_list(self) -> Vec<Lp<M>>
        ensures { result.items ≡ self.items }
    {
        let Processes { items, next: _ } = self;
        items
    }

    /// The place of the process with the least pending event, if that event is before `bound`.
    pub(crate) fn next_before(
        &mut self,
        alloc: Global,
        bound: u64,
    ) -> Result<Option<usize>, AllocError>
        ensures same { self.new ≡ self.old }
        ensures some { IfOk result (λ next. IfSome next (λ place. (m : M)
            → IsNext (rules M.Model M.Body.cmp m) bound self.old.items place)) }
        ensures none { IfOk result (λ next. IfNone next ((m : M)
            → HeldBack (rules M.Model M.Body.cmp m) bound self.old.items)) }
    {
        look_at_each(alloc, &self.items, &mut self.next)?;
        Ok(least_before(&self.items, &self.next, bound))
    }

    /// The letter arrives at the process at `place`; what has to be undone is undone that way. What is given out is
    /// appended to `out`. Gives how many events were undone.
    ///
    /// # Errors
    ///
    /// As [`Lp::arrive_by`]. Some processes are then gone.
    pub(crate) fn arrive(
        &mut self,
        context: &Context<'_, M>,
        way: Way,
        place: usize,
        letter: Letter<M::Body>,
        out: &mut Vec<Letter<M::Body>>,
    ) -> Result<usize, Refusal>
        requires place { place < length self.old.items }
        requires model { (l : LogicalProcess M M.State M.Body)
            → slice_get self.old.items place ≡ Some l → l.model ≡ context.now.model.now }
        requires valid { M.is_valid context.now.model.now letter.event ≡ true }
        requires here { (l : LogicalProcess M M.State M.Body)
            → slice_get self.old.items place ≡ Some l → letter.event.to ≡ l.number }
        ensures arrived { OnOk result (ChangesOne self.old.items self.new.items place (λ l z.
            GivesOut out.old.items out.new.items (ArrivedBy way
            (rules M.Model M.Body.cmp l.model) l.number letter l.process z.process))) }
    {
        let mut next = mem::replace(&mut self.next, Tournament::none(context.alloc));
        let process = self.items.swap_remove(place);
        let before = process.processed().len();
        let process = process.arrive_by(context.alloc, context.model, way, letter, out)?;
        let undone = before.saturating_sub(process.processed().len());
        next.set(place, next_of(&process));
        put_back(&mut self.items, place, process)?;
        self.next = next;
        Ok(undone)
    }

    /// The process at `place` executes what is next, or undoes its last event, that way, where that is a straggler. What it
    /// gives out is appended to `out`. Answers whether it executed.
    ///
    /// # Errors
    ///
    /// As [`Lp::execute_next`]. Some processes are then gone.
    pub(crate) fn advance(
        &mut self,
        context: &Context<'_, M>,
        way: Way,
        place: usize,
        out: &mut Vec<Letter<M::Body>>,
    ) -> Result<bool, Refusal>
        requires place { place < length self.old.items }
        requires model { (l : LogicalProcess M M.State M.Body)
            → slice_get self.old.items place ≡ Some l → l.model ≡ context.now.model.now }
        requires pending { (l : LogicalProcess M M.State M.Body)
            → slice_get self.old.items place ≡ Some l → l.process.pending ≢ [] }
        requires undoable { (l : LogicalProcess M M.State M.Body)
            → slice_get self.old.items place ≡ Some l
            → (g : Time) × HasCollected (event_cmp M.Body.cmp) g l.process }
        ensures moved { IfOk result (λ executed.
            ChangesOne self.old.items self.new.items place (λ l z. Advances M.Model M.Body.cmp
            way l z executed out.old.items out.new.items)) }
    {
        let mut next = mem::replace(&mut self.next, Tournament::none(context.alloc));
        let process = self.items.swap_remove(place);
        let (process, executed) = execute_or_undo(context, way, process, out)?;
        next.set(place, next_of(&process));
        put_back(&mut self.items, place, process)?;
        self.next = next;
        Ok(executed)
    }
}

/// Sees to it that what is next at each of the processes is at hand.
fn look_at_each<M: VtModel>(
    alloc: Global,
    processes: &[Lp<M>],
    next: &mut Tournament<M>,
) -> Result<(), AllocError>
    requires tells { TellsNext (event_cmp M.Body.cmp) processes.now next.old }
    ensures all { OnOk result (length next.new ≡ length processes.now) }
    ensures tells { TellsNext (event_cmp M.Body.cmp) processes.now next.new }
{
    if next.len() == processes.len() {
        return Ok(());
    }
    let mut anew = Tournament::new(alloc, processes.len())?;
    for (place, process) in processes.iter().enumerate() {
        anew.set(place, next_of(process));
    }
    *next = anew;
    Ok(())
}

/// What is next at the process.
fn next_of<M: VtModel>(process: &Lp<M>) -> Option<Event<M::Body>>
    ensures { IsNextOf (event_cmp M.Body.cmp) process.now.process.pending result }
{
    process.next().copied()
}

/// The place of the least of what is `next` at the processes, if that is before `bound`.
fn least_before<M: VtModel>(processes: &[Lp<M>], next: &Tournament<M>, bound: u64) -> Option<usize>
    requires all { length next.now ≡ length processes.now }
    requires tells { TellsNext (event_cmp M.Body.cmp) processes.now next.now }
    ensures some { IfSome result (λ place. (m : M)
        → IsNext (rules M.Model M.Body.cmp m) bound processes.now place) }
    ensures none { IfNone result ((m : M)
        → HeldBack (rules M.Model M.Body.cmp m) bound processes.now) }
{
    let first = next.least()?;
    if bound <= first.event.time {
        return None;
    }
    Some(first.place)
}

/// The process executes what is next, or undoes its last event, that way, where that is a straggler. What it gives
/// out is appended to `out`. Answers whether it executed.
fn execute_or_undo<M: VtModel>(
    context: &Context<'_, M>,
    way: Way,
    process: Lp<M>,
    out: &mut Vec<Letter<M::Body>>,
) -> Result<(Lp<M>, bool), Refusal>
    requires model { context.now.model.now ≡ process.model }
    requires pending { process.process.pending ≢ [] }
    requires undoable { (g : Time) × HasCollected (event_cmp M.Body.cmp) g process.process }
    ensures same { IfOk result (λ r.
        (r.0.model ≡ process.model) × (r.0.number ≡ process.number)) }
    ensures moved { IfOk result (λ r.
        Advances M.Model M.Body.cmp way process r.0 r.1 out.old.items out.new.items) }
{
    let (process, answer) = process.execute_next(context.alloc, context.model, out)?;
    if let Answer::Done = answer {
        return Ok((process, true));
    }
    let (process, _answer) = process.undo_by(context.alloc, context.model, way, out)?;
    Ok((process, false))
}
