ghost use Rattle.std.specs.Prelude.{◌≡◌, ◌↔◌, ◌<◌, ◌≤◌, ◌^◌, true, IfOk, IfErr, map, filter, nat_lt, slice_get, Some};
ghost use Rattle.rw_vt.specs.Words.{Process, Time};
ghost use Rattle.rw_vt.specs.Limits.{end_of_time};
ghost use Rattle.rw_vt.specs.Order.{event_cmp};
ghost use Rattle.rw_vt.specs.System.{state_after, journal_below, system, IsOutcome, IsReady};
ghost use Rattle.rw_vt.specs.Rest.{IsRestOf};
ghost use Rattle.rw_vt.specs.declared.refusal.Refusal.TheVariants.{Memory};
ghost use Rattle.rw_lp.specs.Process.{done};
ghost use Rattle.rw_lp.specs.declared.answer.Answer.TheVariants.{Refused};
ghost use Rattle.rw_lp.specs.declared.answer.StepFault.{StepFault};
ghost use Rattle.rw_world.specs.WorldState.{opening_world, floor, is_finished};
ghost use Rattle.rw_world.specs.Steps.{apply, run, answers};
ghost use Rattle.rw_world.specs.Faults.{Applies};
ghost use Rattle.rw_world.specs.Sound.{Sound, IsInOrder, committed_of, done_of};
ghost use Rattle.rw_world.specs.Calls.{Simulation, system_of, with_world, simulation_of, IsWhole, ExecutesAt, MeetsAt, IsSound, step_from};

use crate::opening::open_processes;
use crate::parts::Parts;
use crate::rest::{Rest, sort_letters, take_apart, without_owed};
use crate::step::Step;
use rw_lp::Answer;
use rw_vt::{END, Event, Model as VtModel, Refusal};
use std::alloc::Global;
use std::marker::Model;
use std::snapshot::Snapshot;

/// All processes of a model, and the letters on their way between them (Jefferson 1985).
///
/// Every world is sound: what was sent, less what was cancelled, is done, pending or on its way, and each state is the
/// fold of what its process has done. A call that is refused with a [`Refusal`] hands nothing back.
#[derive(Drop)]
pub struct World<M: VtModel> {
    parts: Parts<M>,
}

impl<M: VtModel> Model for World<M> {
    ghost Value = { Simulation M M.State M.Body };

    ghost view = { λ x. simulation_of x.parts };

    ghost invariant = { λ x. IsWhole M.Model M.Body.cmp x.parts };
}

impl<M: VtModel + Drop> World<M> {
    /// A world in which nothing was done yet: each initial event is pending at its destination, no letter is on its way,
    /// and the greatest time collected is 0. There is one start a process; `initial` may be in any order, and an event
    /// that stands there twice is pending twice.
    ///
    /// Refused only as `Memory`.
    pub fn open(
        alloc: Global,
        model: M,
        starts: Vec<M::State>,
        initial: Vec<Event<M::Body>>,
    ) -> Result<World<M>, Refusal>
        requires ready { IsReady M.Model model starts.items initial.items }
        ensures opened { IfOk result (λ w. w ≡ record {
          model = model;
          starts = starts.items;
          initial = initial.items;
          world = opening_world (system M.Model M.Body.cmp model starts.items initial.items);
        }) }
        ensures sound { IfOk result (λ w. IsSound M.Model M.Body.cmp w) }
        ensures memory { IfErr result (λ e. e ≡ Memory) }
    {
        let named_starts = Snapshot::of(&starts);
        let named_initial = Snapshot::of(&initial);
        let processes = open_processes(alloc, &model, starts, &initial)?;
        let parts = Parts {
            model,
            processes,
            letters: Vec::new(alloc),
            collected: 0,
            starts: named_starts,
            initial: named_initial,
        };
        Ok(World { parts })
    }

    /// Makes `step`, or refuses it with the first [`StepFault`](crate::StepFault) that applies; a refused step leaves the
    /// very world.
    ///
    /// # Errors
    ///
    /// `Exhausted` only where the step would execute an event, which is pending and no straggler, in a state that can take
    /// no further one, and `Memory` only where memory was refused.
    pub fn apply(self, alloc: Global, step: Step) -> Result<(World<M>, Answer), Refusal>
        ensures world { IfOk result (λ r.
            r.0 ≡ with_world self (step_from M.Model M.Body.cmp self step).0) }
        ensures answer { IfOk result (λ r. r.1 ≡ (step_from M.Model M.Body.cmp self step).1) }
        ensures refused { IfOk result (λ r.
            (fault : StepFault) → r.1 ≡ Refused fault → r.0 ≡ self) }
        ensures exactly { IfOk result (λ r.
            (fault : StepFault)
            → (r.1 ≡ Refused fault) ↔ Applies (event_cmp M.Body.cmp) self.world step fault) }
        ensures sound { IfOk result (λ r. IsSound M.Model M.Body.cmp r.0) }
        ensures exhausted { result ≡ Err Refusal.Exhausted
            → ExecutesAt (event_cmp M.Body.cmp) self.world (M.is_exhausted self.model) step }
    {
        let mut parts = self.parts;
        let answer = parts.make(alloc, step)?;
        Ok((World { parts }, answer))
    }

    /// Makes `steps` one after another, refused ones included, and gives what each answered.
    ///
    /// Whatever the steps are, the world is sound after them, and all that is done before its floor is what executing all
    /// events in order of time would have done (Jefferson 1985).
    ///
    /// # Errors
    ///
    /// `Exhausted` only where a step, when its turn comes, would execute an event, which is pending and no straggler, in a
    /// state that can take no further one, and `Memory` only where memory was refused.
    pub fn run_steps(
        self,
        alloc: Global,
        steps: &[Step],
    ) -> Result<(World<M>, Vec<Answer>), Refusal>
        ensures world { IfOk result (λ r.
            r.0 ≡ with_world self (run (system_of M.Model M.Body.cmp self) self.world steps.now)) }
        ensures answers { IfOk result (λ r.
            r.1.items ≡ answers (system_of M.Model M.Body.cmp self) self.world steps.now) }
        ensures sound { IfOk result (λ r. IsSound M.Model M.Body.cmp r.0) }
        ensures in_order { IfOk result (λ r.
            IsInOrder (system_of M.Model M.Body.cmp r.0) r.0.world) }
        ensures exhausted { result ≡ Err Refusal.Exhausted
            → MeetsAt (system_of M.Model M.Body.cmp self) self.world
            (M.is_exhausted self.model) steps.now }
    {
        let mut parts = self.parts;
        let mut answers = Vec::with_capacity(alloc, steps.len())?;
        for step in steps {
            answers.push(parts.make(alloc, *step)?)?;
        }
        Ok((World { parts }, answers))
    }

    /// The least time of pending events, debts, held messages and letters on their way, in ticks, or [`END`](rw_vt::END)
    /// if there is none: global virtual time (Jefferson 1985). What is done before it stays done. Takes no memory.
    pub fn floor(&self) -> u64
        ensures least { result ≡ floor self.now.world }
        ensures before { (t : Time) (q : Process) → t ≤ result
            → filter (λ e. nat_lt e.time t) (done_of self.now.world.processes q)
            ≡ journal_below (system_of M.Model M.Body.cmp self.now) t q }
    {
        self.parts.floor()
    }

    /// Whether no event is pending or owed, no message is held and no letter is on its way. The world is then the outcome
    /// of executing all events in order of time. Takes no memory.
    pub fn finished(&self) -> bool
        ensures is { result ≡ is_finished self.now.world }
        ensures outcome { result ≡ true
            → IsOutcome (system_of M.Model M.Body.cmp self.now) end_of_time
            (map done self.now.world.processes) (map (λ x. x.state) self.now.world.processes) }
    {
        self.parts.floor() == END
    }

    /// The committed events of process `p`, in order: the events to it before the greatest time collected, in order of
    /// time. Takes no memory.
    pub fn journal(&self, p: u32) -> &[Event<M::Body>]
        requires process { p < M.process_count self.now.model }
        ensures is { result.now ≡ committed_of self.now.world.processes p }
        ensures in_order { result.now
            ≡ journal_below (system_of M.Model M.Body.cmp self.now) self.now.world.collected p }
    {
        self.parts.processes[p as usize].journal()
    }

    /// The state of process `p`: the fold of what it has done. Takes no memory.
    pub fn state(&self, p: u32) -> &M::State
        requires process { p < M.process_count self.now.model }
        ensures is { slice_get (map (λ x. x.state) self.now.world.processes) p ≡ Some result.now }
        ensures fold { (start : M.State) → slice_get self.now.starts p ≡ Some start
            → result.now ≡ state_after (M.step self.now.model p) start
            (done_of self.now.world.processes p) }
    {
        self.parts.processes[p as usize].state()
    }

    /// Leaves the run off: takes back what is processed and not committed, and hands over from where it goes on, by whatever
    /// engine. It ends as it would have, also with further initial events, where none is before the greatest time collected.
    /// The committed events are dropped.
    ///
    /// Refused only as `Memory`.
    pub fn into_rest(self, alloc: Global) -> Result<Rest<M>, Refusal>
        ensures rest { IfOk result (λ r. IsRestOf (system_of M.Model M.Body.cmp self)
            self.world.collected r.states.items r.events.items) }
        ensures ready { IfOk result (λ r. IsReady M.Model r.model r.states.items r.events.items) }
        ensures model { IfOk result (λ r. r.model ≡ self.model) }
        ensures memory { IfErr result (λ e. e ≡ Memory) }
    {
        let mut parts = self.parts;
        parts.undo_all(alloc)?;
        let mut there = Vec::new(alloc);
        let mut owed = Vec::new(alloc);
        sort_letters(parts.letters.as_slice(), &mut there, &mut owed)?;
        let states = take_apart(alloc, parts.processes, &mut there, &mut owed)?;
        let events = without_owed::<M>(alloc, there, owed)?;
        Ok(Rest {
            model: parts.model,
            states,
            events,
        })
    }

    /// The world's parts: the model, the processes, the letters on their way, and the greatest time collected. Takes no
    /// memory.
    pub fn take(self) -> Parts<M>
        ensures is { simulation_of result ≡ self }
        ensures whole { IsWhole M.Model M.Body.cmp result }
    {
        self.parts
    }

    /// The world of `parts`, which make up a sound world of the model, the starts and the initial events that they name,
    /// with processes numbered from 0. Takes no memory.
    pub fn put(parts: Parts<M>) -> World<M>
        requires whole { IsWhole M.Model M.Body.cmp parts }
        ensures is { result ≡ simulation_of parts }
        ensures sound { IsSound M.Model M.Body.cmp result }
    {
        Self { parts }
    }
}
