ghost use Rattle.std.specs.Prelude.{◌≡◌, ◌↔◌, List, [], IfOk, OnErr, OnOk};
ghost use Rattle.rw_vt.specs.declared.event.Event.{Event};
ghost use Rattle.rw_vt.specs.Order.{event_cmp, in_order};
ghost use Rattle.rw_vt.specs.System.{IsReady, flatten, rules, system};
ghost use Rattle.rw_models.specs.declared.recorded.Record.{Record};
ghost use Rattle.rw_models.specs.declared.recorded.Recorded.{Recorded};
ghost use Rattle.rw_models.specs.Committed.{HasCommitted, RunsOnAfter};
ghost use Rattle.rw_models.specs.Recorded.{CommitsInOrder, KeepsRecords, executed_of, new_records, states_of};

use crate::executed::Executed;
use rw_vt::{Event, Lookahead, Model as VtModel, NoMemory, Refusal};
use std::alloc::{AllocError, Global};

/// What a process of a [`Recorded`] model keeps: the state of the model inside, and the events that it has executed.
#[derive(Drop)]
pub struct Record<S, B> {
    /// What the process of the model inside keeps.
    pub state: S,
    /// The events that the process has executed since its record was last taken, in order.
    pub executed: Executed<B>,
}

/// A model whose processes keep a record of the events that they execute.
///
/// Bodies, undo records, lookahead and grain are those of the model inside. Each run is the run of that model with a record
/// (`KeepsRecords`): the same events are executed and lead to the same states, and each process has appended the events
/// that it executed to its record. What is taken back leaves the record again, so an optimistic engine leaves the
/// records that a sequential one does.
///
/// Use it to learn what a run executed from an engine that gives its last states alone. Of a long run take the records out
/// between segments ([`take_executed`](Recorded::take_executed)): the model inside never reads them.
///
/// A record grows by one event with each execution, until it is taken. Where that needs memory that is refused, the
/// execution is refused as [`Refusal::Memory`].
#[derive(Clone, Copy, Drop)]
pub struct Recorded<M> {
    /// The model whose events are recorded.
    pub model: M,
}

impl<M: VtModel> Recorded<M> {
    /// The model whose processes keep a record. A run may begin with any events in the records; what it executes depends on
    /// the states alone. Takes no memory.
    pub fn new(model: M) -> Recorded<M>
        ensures model { result.model ≡ model }
        ensures ready { (records : List (Record M.State M.Body)) (initial : List (Event M.Body))
            → IsReady ⟦<Recorded<M> as VtModel>⟧ result records initial
            ↔ IsReady M.Model model (states_of records) initial }
        ensures runs { (records : List (Record M.State M.Body)) (initial : List (Event M.Body))
            → KeepsRecords
            (system ⟦<Recorded<M> as VtModel>⟧ M.Body.cmp result records initial)
            (system M.Model M.Body.cmp model (states_of records) initial) }
    {
        Recorded { model }
    }

    /// New records of processes in these states, which hold no event: where a run begins. None of its events is executed
    /// then, and all of them are left.
    ///
    /// # Errors
    ///
    /// [`AllocError`] where memory was refused.
    pub fn new_records(
        alloc: Global,
        states: Vec<M::State>,
    ) -> Result<Vec<Record<M::State, M::Body>>, AllocError>
        ensures records { IfOk result (λ records. records.items ≡ new_records states.items) }
        ensures states { IfOk result (λ records. states_of records.items ≡ states.items) }
        ensures begins { IfOk result (λ records. (m : M) (initial : List (Event M.Body))
            → IsReady M.Model m states.items initial
            → HasCommitted (system M.Model M.Body.cmp m states.items initial)
            0 (states_of records.items) initial []) }
        ensures left { IfOk result (λ records. (m : M) (initial : List (Event M.Body))
            → RunsOnAfter (system M.Model M.Body.cmp m states.items initial)
            [] (states_of records.items) initial) }
    {
        empty_records(alloc, states)
    }

    /// Takes the events out of all records, and gives them in the order of events: by time, source, number, process and body.
    /// The processes keep their states, and the records are new.
    ///
    /// At the end of a run these are all events that it executed. Between two segments they go on with those of the segments
    /// before (`CommitsInOrder`): where the segment has reached some time, so that all events before it are executed and no
    /// other, or else where none of them is greater than any event that is left.
    ///
    /// It takes memory for the events and for sorting them, and O(n log n) comparisons at most for n events: each record stands
    /// in order already, so there are fewer where few processes have executed many. The records keep their memory for the events
    /// to come.
    ///
    /// # Errors
    ///
    /// [`AllocError`] where memory was refused. The records are unchanged then.
    pub fn take_executed(
        alloc: Global,
        records: &mut Vec<Record<M::State, M::Body>>,
    ) -> Result<Vec<Event<M::Body>>, AllocError>
        ensures events { IfOk result (λ events. events.items
            ≡ in_order (event_cmp M.Body.cmp) (flatten (executed_of records.old.items))) }
        ensures emptied { OnOk result
            (records.new.items ≡ new_records (states_of records.old.items)) }
        ensures states { states_of records.new.items ≡ states_of records.old.items }
        ensures err { OnErr result (records.new.items ≡ records.old.items) }
        ensures ready { (m : Recorded M) (initial : List (Event M.Body))
            → IsReady ⟦<Recorded<M> as VtModel>⟧ m records.old.items initial
            → IsReady ⟦<Recorded<M> as VtModel>⟧ m records.new.items initial }
        ensures commits { IfOk result (λ events.
            (m : M) (starts : List M.State) (initial : List (Event M.Body))
            → IsReady M.Model m starts initial
            → CommitsInOrder M.Model M.Body.cmp m starts initial
            (rules ⟦<Recorded<M> as VtModel>⟧ M.Body.cmp (record { model = m }))
            records.old.items events.items) }
    {
        let mut events = all_executed(alloc, records)?;
        events.sort()?;
        clear_all(records);
        Ok(events)
    }
}

/// Records of these states that hold no event.
fn empty_records<S: Drop, B: Copy>(
    alloc: Global,
    states: Vec<S>,
) -> Result<Vec<Record<S, B>>, AllocError>
    ensures { IfOk result (λ records. records.items ≡ new_records states.items) }
{
    let mut records = Vec::with_capacity(alloc, states.len())?;
    for state in states {
        records.push(Record {
            state,
            executed: Executed::new(alloc),
        })?;
    }
    Ok(records)
}

/// The events in all records, process by process.
fn all_executed<S, B: Copy>(
    alloc: Global,
    records: &[Record<S, B>],
) -> Result<Vec<Event<B>>, AllocError>
    ensures { IfOk result (λ events. events.items ≡ flatten (executed_of records.now)) }
{
    let mut events = Vec::new(alloc);
    for record in records {
        events.extend_from_slice(record.executed.events())?;
    }
    Ok(events)
}

/// Takes all events off all records.
fn clear_all<S, B: Copy>(records: &mut Vec<Record<S, B>>)
    ensures { records.new.items ≡ new_records (states_of records.old.items) }
{
    for record in records.iter_mut() {
        record.executed.clear();
    }
}

impl<M: VtModel> VtModel for Recorded<M> {
    type State = Record<M::State, M::Body>;

    type Body = M::Body;

    type Undo = M::Undo;

    ghost use Rattle.rw_models.specs.Recorded.{IsOneMore, step_recorded};

    ghost process_count = { λ m. M.process_count m.model };

    ghost is_valid = { λ m e. M.is_valid m.model e };

    ghost IsWellFormed = { λ m p r. M.IsWellFormed m.model p r.state };

    ghost is_exhausted = { λ m r. M.is_exhausted m.model r.state };

    ghost step = { λ m p. step_recorded (M.step m.model p) };

    ghost Links = { λ m p before e u after. M.Links m.model p before.state e u after.state
        × IsOneMore before e after };

    ghost weight = { λ u. M.weight u };

    ghost weight_bound = { λ m p before after. M.weight_bound m.model p before.state after.state };

    fn processes(&self) -> u32 {
        self.model.processes()
    }

    fn valid(&self, event: &Event<M::Body>) -> bool {
        self.model.valid(event)
    }

    fn exhausted(&self, state: &Record<M::State, M::Body>) -> bool {
        self.model.exhausted(&state.state)
    }

    fn execute(
        &self,
        alloc: Global,
        process: u32,
        state: &mut Record<M::State, M::Body>,
        event: &Event<M::Body>,
        out: &mut Vec<Event<M::Body>>,
    ) -> Result<M::Undo, Refusal> {
        let undo = self
            .model
            .execute(alloc, process, &mut state.state, event, out)?;
        state.executed.push(*event)?;
        Ok(undo)
    }

    fn advance(
        &self,
        alloc: Global,
        process: u32,
        state: &mut Record<M::State, M::Body>,
        event: &Event<M::Body>,
        out: &mut Vec<Event<M::Body>>,
    ) -> Result<(), Refusal> {
        self.model
            .advance(alloc, process, &mut state.state, event, out)?;
        state.executed.push(*event)?;
        Ok(())
    }

    fn reverse(
        &self,
        alloc: Global,
        process: u32,
        state: &mut Record<M::State, M::Body>,
        event: &Event<M::Body>,
        undo: M::Undo,
    ) -> Result<(), NoMemory> {
        self.model
            .reverse(alloc, process, &mut state.state, event, undo)?;
        state.executed.take_last();
        Ok(())
    }

    ghost ranges = { λ m e h. M.ranges m.model e h };

    ghost keeps = { λ m p r e w h t. M.keeps m.model p r.state e w h t };

    ghost future = { λ m p r e w h t. M.future m.model p r.state e w h t };

    ghost same = { M.same };

    ghost light = { λ m p before after e u h. M.light m.model p before.state after.state e u h.0 };
}

impl<M: Lookahead> Lookahead for Recorded<M> {
    ghost lookahead_of = { λ m. M.lookahead_of m.model };

    fn lookahead(&self) -> u64 {
        self.model.lookahead()
    }

    fn grain(&self) -> u64 {
        self.model.grain()
    }

    ghost ahead = { λ m p r e w h t. M.ahead m.model p r.state e w h t };
}
