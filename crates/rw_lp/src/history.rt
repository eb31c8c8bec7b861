ghost use Rattle.std.specs.Prelude.{◌≡◌, ◌<◌, ◌≤◌, ◌++◌, ◌∷◌, ◌↔◌, true, false, List, [], IfOk, IfErr, OnOk, filter, nat_lt, nat_le, length};
ghost use Rattle.std.specs.List.{position_or_len};
ghost use Rattle.std.specs.List.Sorted.{IsPartitionedBy};
ghost use Rattle.rw_vt.specs.Order.{event_cmp, has, Each, IsAscending};
ghost use Rattle.rw_vt.specs.System.{state_after};
ghost use Rattle.rw_vt.specs.declared.event.Letter.{Letter};
ghost use Rattle.rw_vt.specs.declared.refusal.Refusal.TheVariants.{Memory};
ghost use Rattle.rw_lp.specs.Process.{is_less_than_last, split_last};
ghost use Rattle.rw_lp.specs.HeldBack.{letters_given, held_after};
ghost use Rattle.rw_lp.specs.Past.{HistoryState, IsFor, TookBack, IsFolded, done_in, history_of};
ghost use Rattle.rw_lp.specs.Cut.{IsKept, seen_of};

use crate::held_back::HeldBack;
use crate::runs::Runs;
use crate::sends::Sends;
use crate::undo_record::{UndoRecord, Undone};
use rw_vt::{Event, Letter, Model as VtModel, Refusal};
use std::alloc::{AllocError, Global};
use std::snapshot::Snapshot;

/// What a process has done: the committed events, which stay, and then the processed ones, each with the record that
/// takes it back, and the state that they lead to. Contracts see it by `seen_of`; a call that is refused breaks it.
pub struct Past<M: VtModel> {
    model: Snapshot<M>,
    number: u32,
    start: Snapshot<M::State>,
    /// All done events, in order: the committed ones stand before the cut, the processed ones behind it.
    done: Vec<Event<M::Body>>,
    cut: usize,
    /// What takes the processed events back, one record for each.
    records: Runs<UndoRecord<M::Body, M::Undo>>,
    state: M::State,
    /// Where the model puts the sends of an execution; empty in between.
    sends: Vec<Event<M::Body>>,
}

// By hand, so that it is proved here, and not in each crate above whose values have one.
impl<M: VtModel> Drop for Past<M> {
    fn drop(self) {
        let Past {
            model: _,
            number: _,
            start: _,
            done: _,
            cut: _,
            records: _,
            state: _,
            sends: _,
        } = self;
    }
}

impl<M: VtModel> Past<M> {
    /// Process `number` of the model, in its start state, with room for `room` events.
    pub fn new(
        alloc: Global,
        model: &M,
        number: u32,
        start: M::State,
        room: usize,
    ) -> Result<Box<Past<M>>, AllocError>
        requires number { number < M.process_count model.now }
        requires start { M.IsWellFormed model.now number start }
        ensures kept { IfOk result (λ p. IsKept M.Model (event_cmp M.Body.cmp) p.value) }
        ensures is { IfOk result (λ p.
            seen_of p.value ≡ history_of model.now number start [] [] start) }
    {
        let past = Past {
            model: Snapshot::of(model),
            number,
            start: Snapshot::of(&start),
            done: Vec::with_capacity(alloc, room)?,
            cut: 0,
            records: Runs::new(alloc),
            state: start,
            sends: Vec::new(alloc),
        };
        Ok(Box::new(alloc, past)?)
    }

    /// Whether the event is less than the last done one: a straggler.
    pub fn is_past(&self, event: &Event<M::Body>) -> bool
        ensures { result ≡ is_less_than_last (event_cmp M.Body.cmp) event.now
            (split_last (done_in (seen_of self.now))) }
    {
        ends_after(&self.done, event)
    }

    /// Executes an event that is not a straggler. Its sends are given out by [`HeldBack::resend`].
    pub fn execute(
        &mut self,
        alloc: Global,
        model: &M,
        event: Event<M::Body>,
        held: &mut HeldBack<M>,
        out: &mut Vec<Letter<M::Body>>,
    ) -> Result<(), Refusal>
        requires kept { IsKept M.Model (event_cmp M.Body.cmp) self.old }
        requires model { model.now ≡ self.old.model.value }
        requires valid { M.is_valid model.now event ≡ true }
        requires here { event.to ≡ self.old.number }
        requires late { is_less_than_last (event_cmp M.Body.cmp) event
            (split_last (done_in (seen_of self.old))) ≡ false }
        ensures kept { OnOk result (IsKept M.Model (event_cmp M.Body.cmp) self.new) }
        ensures after { OnOk result (seen_of self.new ≡ record (seen_of self.old) {
          processed = (seen_of self.old).processed ++ event ∷ [];
          state = (M.step model.now self.old.number self.old.state event).0;
        }) }
        ensures sent { OnOk result (out.new.items ≡ out.old.items ++ letters_given
            (event_cmp M.Body.cmp) event
            (M.step model.now self.old.number self.old.state event).1 held.old) }
        ensures held { OnOk result (held.new ≡ held_after (event_cmp M.Body.cmp) event
            (M.step model.now self.old.number self.old.state event).1 held.old) }
        ensures exhausted { (result ≡ Err Refusal.Exhausted)
            ↔ (M.is_exhausted model.now self.old.state ≡ true) }
    {
        let undo = model.execute(alloc, self.number, &mut self.state, &event, &mut self.sends)?;
        held.resend(event, self.sends.as_slice(), out)?;
        self.note(alloc, event, undo)?;
        Ok(())
    }

    /// Notes an event that was executed, with the record that takes it back: the sends that wait, and what the model gave.
    fn note(
        &mut self,
        alloc: Global,
        event: Event<M::Body>,
        undo: M::Undo,
    ) -> Result<(), AllocError>
        ensures done { OnOk result (self.new.done.items ≡ self.old.done.items ++ event ∷ []) }
        ensures records { OnOk result (self.new.records ≡ self.old.records ++ record {
          sends = self.old.sends.items;
          undo = undo;
        } ∷ []) }
        ensures nothing_waits { OnOk result (self.new.sends.items ≡ []) }
        ensures others { OnOk result (self.new ≡ record self.old {
          done = self.new.done;
          records = self.new.records;
          sends = self.new.sends;
        }) }
    {
        let sends = Sends::take_from(alloc, &mut self.sends);
        self.records.push(UndoRecord { sends, undo })?;
        self.done.push(event)?;
        Ok(())
    }

    /// Takes the last processed event back. Where no event is processed, nothing changes.
    pub fn undo(&mut self, alloc: Global, model: &M) -> Result<Option<Undone<M::Body>>, Refusal>
        requires kept { IsKept M.Model (event_cmp M.Body.cmp) self.old }
        requires model { model.now ≡ self.old.model.value }
        ensures kept { OnOk result (IsKept M.Model (event_cmp M.Body.cmp) self.new) }
        ensures back { IfOk result (λ undone. TookBack M.Model (event_cmp M.Body.cmp)
            (seen_of self.old) (seen_of self.new) undone) }
        ensures memory { IfErr result (λ e. e ≡ Memory) }
    {
        let Some(UndoRecord { sends, undo }) = self.records.pop() else {
            return Ok(None);
        };
        let Some(event) = self.done.pop() else {
            unreachable!();
        };
        model.reverse(alloc, self.number, &mut self.state, &event, undo)?;
        Ok(Some(Undone { event, sends }))
    }

    /// Commits the processed events of time below `time`, and drops the records that would take them back. Takes no memory.
    pub fn commit(&mut self, time: u64)
        requires kept { IsKept M.Model (event_cmp M.Body.cmp) self.old }
        ensures kept { IsKept M.Model (event_cmp M.Body.cmp) self.new }
        ensures committed { seen_of self.new ≡ record (seen_of self.old) {
          committed = (seen_of self.old).committed
              ++ filter (λ e. nat_lt e.time time) (seen_of self.old).processed;
          processed = filter (λ e. nat_le time e.time) (seen_of self.old).processed;
        } }
        ensures done { done_in (seen_of self.new) ≡ done_in (seen_of self.old) }
    {
        let count = count_before(&self.done[self.cut..], time);
        self.records.drop_front(count);
        self.cut += count;
    }

    /// Whether a copy of the event is processed. Searches by halves.
    pub fn holds(&self, event: Event<M::Body>) -> bool
        requires kept { IsKept M.Model (event_cmp M.Body.cmp) self.now }
        ensures { result ≡ has (event_cmp M.Body.cmp) event (seen_of self.now).processed }
    {
        self.processed().binary_search(&event).is_ok()
    }

    /// The committed events. Takes no memory.
    pub fn committed(&self) -> &[Event<M::Body>]
        requires kept { IsKept M.Model (event_cmp M.Body.cmp) self.now }
        ensures { result.now ≡ (seen_of self.now).committed }
    {
        &self.done[..self.cut]
    }

    /// The processed events that are not committed. Takes no memory.
    pub fn processed(&self) -> &[Event<M::Body>]
        requires kept { IsKept M.Model (event_cmp M.Body.cmp) self.now }
        ensures { result.now ≡ (seen_of self.now).processed }
    {
        &self.done[self.cut..]
    }

    /// The state after all of them. Takes no memory.
    pub fn state(&self) -> &M::State
        ensures { result.now ≡ self.now.state }
    {
        &self.state
    }

    /// The committed events and the state. Takes no memory.
    pub fn into_outcome(self) -> (Vec<Event<M::Body>>, M::State)
        ensures { (result.0.items ≡ (seen_of self).committed) × (result.1 ≡ self.state) }
    {
        let Past {
            model: _,
            number: _,
            start: _,
            mut done,
            cut,
            records: _,
            state,
            sends: _,
        } = self;
        done.truncate(cut);
        (done, state)
    }
}

/// How many events at the front have times below `time`, where the times rise.
fn count_before<B>(events: &[Event<B>], time: u64) -> usize
    requires order { IsPartitionedBy (λ e. nat_lt e.time time) events.now }
    ensures first { result ≡ position_or_len (λ e. nat_le time e.time) events.now }
    ensures within { result ≤ length events.now }
{
    events.partition_point(|event| event.time < time)
}

/// Whether the last of the events is greater than this one.
pub fn ends_after<B: Ord + Copy>(events: &[Event<B>], event: &Event<B>) -> bool
    ensures { result ≡ is_less_than_last (event_cmp B.cmp) event.now (split_last events.now) }
{
    if let Some((last, _front)) = events.split_last() {
        return last.cmp(event).is_gt();
    }
    false
}
