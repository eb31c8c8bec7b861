ghost use Rattle.std.specs.Prelude.{◌≡◌, List};
ghost use Rattle.rw_vt.specs.System.{IsReady, system};
ghost use Rattle.rw_models.specs.Until.{events_before, EndsAt};

use crate::cut::drop_late;
use rw_vt::{Event, Lookahead, Model as VtModel, NoMemory, Refusal};
use std::alloc::Global;

/// A model whose runs end at a time: it takes no event of that time or later, and sends none.
///
/// States, bodies, undo records, lookahead and grain are those of the model inside. Each run is the run of that model up to
/// the end (`EndsAt`): the same events are executed, in the same order, and lead to the same states. With an end of
/// [`END`](rw_vt::END) or later nothing is left out.
///
/// Use it to end a run of a model that has no end of its own, by whatever engine. Drop what comes from outside too late by
/// [`events_before`](Until::events_before): such events are not valid for this model.
///
/// An execution costs one comparison more for each event that is sent, and takes no memory of its own.
#[derive(Clone, Copy, Drop)]
pub struct Until<M> {
    /// The model whose runs end.
    pub model: M,
    /// The end, in ticks.
    pub end: u64,
}

impl<M: VtModel> Until<M> {
    /// The model whose runs end at this time, in ticks. Takes no memory.
    pub fn new(model: M, end: u64) -> Until<M>
        ensures model { result.model ≡ model }
        ensures end { result.end ≡ end }
    {
        Until { model, end }
    }

    /// Keeps those of these events from outside that are before the end, in their order. A run of this model that begins with
    /// them is the run of the model inside that begins with all, up to the end (`EndsAt`). Takes no memory.
    pub fn events_before(&self, events: Vec<Event<M::Body>>) -> Vec<Event<M::Body>>
        ensures events { result.items ≡ events_before self.now.end events.items }
        ensures ready { (starts : List M.State) → IsReady M.Model self.now.model starts events.items
            → IsReady ⟦<Until<M> as VtModel>⟧ self.now starts result.items }
        ensures runs { (starts : List M.State) → EndsAt self.now.end
            (system ⟦<Until<M> as VtModel>⟧ M.Body.cmp self.now starts result.items)
            (system M.Model M.Body.cmp self.now.model starts events.items) }
    {
        let mut events = events;
        drop_late(&mut events, 0, self.end);
        events
    }
}

impl<M: VtModel> VtModel for Until<M> {
    type State = M::State;

    type Body = M::Body;

    type Undo = M::Undo;

    ghost use Rattle.std.specs.Prelude.{◌&&◌, nat_lt};
    ghost use Rattle.rw_vt.specs.Valid.{IsSentBy};
    ghost use Rattle.rw_models.specs.Until.{step_until};
    ghost use Rattle.rw_models.specs.Laws.{first_test, future_before};

    ghost process_count = { λ m. M.process_count m.model };

    ghost is_valid = { λ m e. M.is_valid m.model e && nat_lt e.time m.end };

    ghost IsWellFormed = { λ m p s. M.IsWellFormed m.model p s };

    ghost is_exhausted = { λ m s. M.is_exhausted m.model s };

    ghost step = { λ m p. step_until m.end (M.step m.model p) };

    ghost Links = { λ m p s e u s'. M.Links m.model p s e u s' };

    ghost weight = { λ u. M.weight u };

    ghost weight_bound = { λ m p before after. M.weight_bound m.model p before after };

    fn processes(&self) -> u32 {
        self.model.processes()
    }

    fn valid(&self, event: &Event<M::Body>) -> bool {
        self.model.valid(event) && event.time < self.end
    }

    fn exhausted(&self, state: &M::State) -> bool {
        self.model.exhausted(state)
    }

    fn execute(
        &self,
        alloc: Global,
        process: u32,
        state: &mut M::State,
        event: &Event<M::Body>,
        out: &mut Vec<Event<M::Body>>,
    ) -> Result<M::Undo, Refusal> {
        let sent_before = out.len();
        let undo = self.model.execute(alloc, process, state, event, out)?;
        drop_late(out, sent_before, self.end);
        Ok(undo)
    }

    fn advance(
        &self,
        alloc: Global,
        process: u32,
        state: &mut M::State,
        event: &Event<M::Body>,
        out: &mut Vec<Event<M::Body>>,
    ) -> Result<(), Refusal> {
        let sent_before = out.len();
        self.model.advance(alloc, process, state, event, out)?;
        drop_late(out, sent_before, self.end);
        Ok(())
    }

    fn reverse(
        &self,
        alloc: Global,
        process: u32,
        state: &mut M::State,
        event: &Event<M::Body>,
        undo: M::Undo,
    ) -> Result<(), NoMemory> {
        self.model.reverse(alloc, process, state, event, undo)
    }

    ghost ranges = { λ m e h. M.ranges m.model e
        (first_test (M.is_valid m.model e) (nat_lt e.time m.end) h) };

    ghost keeps = { λ m p s e w h t. M.keeps m.model p s e w
        (first_test (M.is_valid m.model e) (nat_lt e.time m.end) h) t };

    ghost future = { λ m p s e w h t.
        future_before (IsSentBy p e) (M.is_valid m.model) m.end (M.step m.model p s e).1
        (M.future m.model p s e w
        (first_test (M.is_valid m.model e) (nat_lt e.time m.end) h) t) };

    ghost same = { M.same };

    ghost light = { λ m p before after e u h. M.light m.model p before after e u h };
}

impl<M: Lookahead> Lookahead for Until<M> {
    ghost use Rattle.std.specs.Prelude.{◌+◌, ◌≤◌, nat_lt};
    ghost use Rattle.std.proofs.lemmas.List.Elements.{All-filter};
    ghost use Rattle.rw_models.specs.Laws.{first_test};

    ghost lookahead_of = { λ m. M.lookahead_of m.model };

    fn lookahead(&self) -> u64 {
        self.model.lookahead()
    }

    fn grain(&self) -> u64 {
        self.model.grain()
    }

    ghost ahead = { λ m p s e w h t.
        All-filter (λ f. nat_lt f.time m.end) (λ f. e.time + M.lookahead_of m.model ≤ f.time)
        (M.step m.model p s e).1 (M.ahead m.model p s e w
        (first_test (M.is_valid m.model e) (nat_lt e.time m.end) h) t) };
}
