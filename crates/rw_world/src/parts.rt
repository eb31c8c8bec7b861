ghost use Rattle.std.specs.Prelude.{◌≡◌, ◌<◌, ◌≤◌, true, List, IfOk, IfErr, OnOk, length, map, slice_get, slice_set, Some};
ghost use Rattle.std.specs.List.{swap_remove};
ghost use Rattle.rw_vt.specs.Words.{Process};
ghost use Rattle.rw_vt.specs.Order.{event_cmp, Each};
ghost use Rattle.rw_vt.specs.declared.refusal.Refusal.TheVariants.{Memory};
ghost use Rattle.rw_lp.specs.Calls.{LogicalProcess};
ghost use Rattle.rw_world.specs.WorldState.{floor};
ghost use Rattle.rw_world.specs.Calls.{after_collecting, world_of, IsWhole, ExecutesAt, Made};
ghost use Rattle.rw_world.specs.Leaving.{AreOfOneRun, HasNothingProcessed, KeepsOthersUndone};
ghost use Rattle.rw_world.specs.Steps.{undoing};

use crate::least::least_of_letters;
use crate::step::Step;
use rw_lp::{Answer, Lp, StepFault, Way, least_of_processes, put_back};
use rw_vt::{Event, Letter, Model as VtModel, Refusal};
use std::alloc::Global;
use std::snapshot::Snapshot;

/// What a world consists of: see [`World::take`](crate::World::take).
#[derive(Drop)]
pub struct Parts<M: VtModel> {
    /// The model that every process runs.
    pub model: M,
    /// The processes, in the order of their numbers, from 0.
    pub processes: Vec<Lp<M>>,
    /// The letters on their way, in order.
    pub letters: Vec<Letter<M::Body>>,
    /// The greatest time collected, in ticks; at first 0.
    pub collected: u64,
    /// The states in which the processes started, one a process. For contracts alone.
    pub starts: Snapshot<Vec<M::State>>,
    /// The initial events. For contracts alone.
    pub initial: Snapshot<Vec<Event<M::Body>>>,
}

impl<M: VtModel> Parts<M> {
    /// Makes one step, or answers why it does not apply. On `Err` the parts are only good for dropping.
    pub(crate) fn make(&mut self, alloc: Global, step: Step) -> Result<Answer, Refusal>
        requires whole { IsWhole M.Model M.Body.cmp self.old }
        ensures made { IfOk result (λ a. Made M.Model M.Body.cmp self.old self.new step a) }
        ensures exhausted { result ≡ Err Refusal.Exhausted
            → ExecutesAt (event_cmp M.Body.cmp) (world_of self.old)
            (M.is_exhausted self.old.model) step }
    {
        match step {
            Step::Execute(p) => self.execute(alloc, p),
            Step::Undo(p) => self.undo(alloc, p, Way::Aggressive),
            Step::UndoLazily(p) => self.undo(alloc, p, Way::Lazy),
            Step::Deliver(number) => self.deliver(number),
            Step::Collect(time) => self.collect(time),
        }
    }

    /// Process `p` executes its least pending event. On `Err` the parts are only good for dropping.
    fn execute(&mut self, alloc: Global, p: u32) -> Result<Answer, Refusal>
        requires whole { IsWhole M.Model M.Body.cmp self.old }
        ensures made { IfOk result (λ a.
            Made M.Model M.Body.cmp self.old self.new (Step.Execute p) a) }
        ensures exhausted { result ≡ Err Refusal.Exhausted
            → ExecutesAt (event_cmp M.Body.cmp) (world_of self.old) (M.is_exhausted self.old.model)
            (Step.Execute p) }
    {
        let place = p as usize;
        if self.processes.len() <= place {
            return Ok(Answer::Refused(StepFault::NoSuchProcess));
        }
        let process = self.processes.swap_remove(place);
        let (process, answer) = process.execute_next(alloc, &self.model, &mut self.letters)?;
        give_back(&mut self.processes, place, process)?;
        Ok(answer)
    }

    /// Process `p` takes its last processed event back, that way. On `Err` the parts are only good for dropping.
    fn undo(&mut self, alloc: Global, p: u32, way: Way) -> Result<Answer, Refusal>
        requires whole { IsWhole M.Model M.Body.cmp self.old }
        ensures made { IfOk result (λ a.
            Made M.Model M.Body.cmp self.old self.new (undoing way p) a) }
        ensures memory { IfErr result (λ e. e ≡ Memory) }
    {
        let place = p as usize;
        if self.processes.len() <= place {
            return Ok(Answer::Refused(StepFault::NoSuchProcess));
        }
        let process = self.processes.swap_remove(place);
        let (process, answer) = process.undo_by(alloc, &self.model, way, &mut self.letters)?;
        give_back(&mut self.processes, place, process)?;
        Ok(answer)
    }

    /// Letter `number`, from 0, comes to its process, and what that gives out is appended. On `Err` the parts are only good for
    /// dropping.
    fn deliver(&mut self, number: u64) -> Result<Answer, Refusal>
        requires whole { IsWhole M.Model M.Body.cmp self.old }
        ensures made { IfOk result (λ a.
            Made M.Model M.Body.cmp self.old self.new (Step.Deliver number) a) }
        ensures memory { IfErr result (λ e. e ≡ Memory) }
    {
        if self.letters.len() as u64 <= number {
            return Ok(Answer::Refused(StepFault::NoSuchLetter));
        }
        let letter = self.letters[number as usize];
        let place = letter.event.to as usize;
        let process = self.processes.swap_remove(place);
        let (process, answer) = process.deliver(letter, &mut self.letters)?;
        give_back(&mut self.processes, place, process)?;
        if let Answer::Done = answer {
            let _delivered = self.letters.remove(number as usize);
        }
        Ok(answer)
    }

    /// Commits what was done before `time`, in ticks, if nothing earlier is outstanding. On `Err` the parts are only good
    /// for dropping.
    fn collect(&mut self, time: u64) -> Result<Answer, Refusal>
        requires whole { IsWhole M.Model M.Body.cmp self.old }
        ensures made { IfOk result (λ a.
            Made M.Model M.Body.cmp self.old self.new (Step.Collect time) a) }
        ensures memory { IfErr result (λ e. e ≡ Memory) }
    {
        if self.floor() < time {
            return Ok(Answer::Refused(StepFault::AboveFloor));
        }
        collect_all(&mut self.processes, time)?;
        self.collected = self.collected.max(time);
        Ok(Answer::Done)
    }

    /// Every process takes back what is processed. On `Err` the parts are only good for dropping.
    pub(crate) fn undo_all(&mut self, alloc: Global) -> Result<(), Refusal>
        requires whole { IsWhole M.Model M.Body.cmp self.old }
        ensures whole { OnOk result (IsWhole M.Model M.Body.cmp self.new) }
        ensures run { OnOk result (AreOfOneRun self.old self.new) }
        ensures none { OnOk result ((p : Process) → HasNothingProcessed p self.new) }
        ensures memory { IfErr result (λ e. e ≡ Memory) }
    {
        for number in 0..self.model.processes() {
            self.undo_process(alloc, number)?;
        }
        Ok(())
    }

    /// Process `p`, which is there, takes back what is processed. On `Err` the parts are only good for dropping.
    fn undo_process(&mut self, alloc: Global, p: u32) -> Result<(), Refusal>
        requires whole { IsWhole M.Model M.Body.cmp self.old }
        requires there { p < length self.old.processes.items }
        ensures whole { OnOk result (IsWhole M.Model M.Body.cmp self.new) }
        ensures run { OnOk result (AreOfOneRun self.old self.new) }
        ensures others { OnOk result (KeepsOthersUndone p self.old self.new) }
        ensures none { OnOk result (HasNothingProcessed p self.new) }
        ensures memory { IfErr result (λ e. e ≡ Memory) }
    {
        'undoing: while !self.processes[p as usize].processed().is_empty() {
            let _answer = self.undo(alloc, p, Way::Aggressive)?;
        }
        Ok(())
    }

    /// The least time of all that is outstanding, or the end of time.
    pub(crate) fn floor(&self) -> u64
        ensures { result ≡ floor (world_of self.now) }
    {
        least_of_letters(least_of_processes(&self.processes), &self.letters)
    }
}

/// Each process commits what it did before `time`, in ticks: nothing that is pending or owed is earlier. Refused only as
/// `Memory`; the processes are then only good for dropping.
fn collect_all<M: VtModel>(processes: &mut Vec<Lp<M>>, time: u64) -> Result<(), Refusal>
    requires quiet { (q : Process) (x : LogicalProcess M M.State M.Body)
        → slice_get processes.old.items q ≡ Some x
        → Each (event_cmp M.Body.cmp) (λ e. time ≤ e.time) x.process.pending
        × Each (event_cmp M.Body.cmp) (λ e. time ≤ e.time) x.process.debts }
    ensures collected { OnOk result
        (processes.new.items ≡ map (after_collecting time) processes.old.items) }
    ensures memory { IfErr result (λ e. e ≡ Memory) }
{
    for place in 0..processes.len() {
        let process = processes.swap_remove(place);
        give_back(processes, place, process.collect(time)?)?;
    }
    Ok(())
}

/// Puts `process` where `swap_remove(place)` has just taken one out; all others stand as they did
/// before. Refused only as `Memory`; the processes are then only good for dropping.
fn give_back<M: VtModel>(
    processes: &mut Vec<Lp<M>>,
    place: usize,
    process: Lp<M>,
) -> Result<(), Refusal>
    requires place { place ≤ length processes.old.items }
    ensures back { OnOk result ((before : List (LogicalProcess M M.State M.Body))
        (taken : LogicalProcess M M.State M.Body) → place < length before
        → processes.old.items ≡ swap_remove before place taken
        → processes.new.items ≡ slice_set before place process) }
    ensures memory { IfErr result (λ e. e ≡ Memory) }
{
    put_back(processes, place, process)?;
    Ok(())
}
