ghost use Rattle.std.specs.Prelude.{◌≡◌, ◌≢◌, ◌<◌, ◌≤◌, ◌+◌, ◌∷◌, ◌++◌, [], true, false, if◌then◌else◌, length, map, OnOk, IfOk};
ghost use Rattle.rw_vt.specs.Words.{Time};
ghost use Rattle.rw_vt.specs.System.{rules};
ghost use Rattle.rw_exchange.specs.Ports.{IsWide};
ghost use Rattle.rw_rounds.specs.Deeds.{IsFair};
ghost use Rattle.rw_rounds.specs.Turns.{is_own, owner, is_accepted, IsFit, TookTurns};
ghost use Rattle.rw_rounds.specs.Working.{role_of, with_inbox, CanWork, Deals, DealsWithAll, AreFair, HoldsBackRest, ClosesInner, IsNext, done_count, work_left};

use crate::plan::Plan;
use crate::processes::Processes;
use crate::round::Gate;
use crate::traffic::Traffic;
use rw_board::{Board, Seat};
use rw_exchange::Port;
use rw_lp::least_of_processes;
use rw_vt::{Letter, Model as VtModel, Refusal};
use std::alloc::Global;
use std::mem;

/// What a worker works on, and what it does in a turn: see [`Worker`](crate::Worker).
#[derive(Drop)]
pub(crate) struct Inner<M: VtModel> {
    /// The worker's number, from 0.
    pub(crate) number: u32,
    pub(crate) plan: Plan,
    /// The greatest time collected, in ticks.
    pub(crate) collected: u64,
    /// The worker's processes in the order of their numbers.
    pub(crate) processes: Processes<M>,
    /// Letters to other workers that a ring had no room for.
    pub(crate) kept: Vec<Letter<M::Body>>,
    /// Received letters that failed the test.
    pub(crate) aside: Vec<Letter<M::Body>>,
    pub(crate) port: Port<Letter<M::Body>>,
    pub(crate) seat: Seat,
    pub(crate) traffic: Traffic,
}

/// What each part of a turn works with.
#[derive(Drop)]
pub(crate) struct Context<'a, M: VtModel> {
    pub(crate) alloc: Global,
    pub(crate) model: &'a M,
    /// The board of the round.
    pub(crate) board: &'a Board,
}

impl<M: VtModel> Inner<M> {
    /// Takes so many turns, each through the gate.
    pub(crate) fn turns<G: Gate>(
        &mut self,
        context: &Context<'_, M>,
        at_hand: &mut Vec<Letter<M::Body>>,
        gate: &G,
        turns: u32,
    ) -> Result<(), Refusal>
        requires ready { CanWork M.Model M.Body.cmp context.now self.old }
        requires fit { IsFit M.Model M.Body.cmp context.now.model.now
            (with_inbox self.old at_hand.old.items) }
        ensures took { OnOk result (TookTurns (rules M.Model M.Body.cmp context.now.model.now) turns
            (with_inbox self.old at_hand.old.items) (with_inbox self.new at_hand.new.items)) }
        ensures fit { OnOk result (IsFit M.Model M.Body.cmp context.now.model.now
            (with_inbox self.new at_hand.new.items)) }
        ensures board { OnOk result (self.new.seat.board ≡ context.now.board.now.board) }
    {
        for turn in 0..turns {
            gate.pass(self.number, turn);
            let _executed = self.turn(context, at_hand)?;
        }
        Ok(())
    }

    /// Takes one turn: the letters at hand arrive, kept ones are offered to their rings again, those that the others
    /// sent are taken up, and events are executed. Gives how many events were executed.
    ///
    /// `at_hand` has the letters that are to be dealt with next. Whatever comes up in the turn is put there and dealt
    /// with at once, so it is empty between the parts of a turn, and after it.
    pub(crate) fn turn(
        &mut self,
        context: &Context<'_, M>,
        at_hand: &mut Vec<Letter<M::Body>>,
    ) -> Result<u64, Refusal>
        requires ready { CanWork M.Model M.Body.cmp context.now self.old }
        requires fair { AreFair M.Model M.Body.cmp context.now self.old at_hand.old.items }
        ensures works { IfOk result (λ n. DealsWithAll M.Model M.Body.cmp context.now
            self.old self.new at_hand.old.items at_hand.new.items n) }
        ensures within { IfOk result (λ n. n ≤ self.old.plan.batch) }
        ensures held_back { IfOk result (λ n.
            HoldsBackRest M.Model M.Body.cmp context.now self.old self.new n) }
    {
        self.deal(context, at_hand)?;
        self.offer_kept(context)?;
        self.receive_all(context, at_hand)?;
        self.execute_some(context, at_hand)
    }

    // Dealing with letters.

    /// Deals with the letters at hand in order: one to an own process arrives there, and what that gives out is dealt
    /// with before the next, its last one first; one to another worker is posted. None is left at hand.
    fn deal(
        &mut self,
        context: &Context<'_, M>,
        at_hand: &mut Vec<Letter<M::Body>>,
    ) -> Result<(), Refusal>
        requires ready { CanWork M.Model M.Body.cmp context.now self.old }
        requires fair { AreFair M.Model M.Body.cmp context.now self.old at_hand.old.items }
        ensures works { OnOk result (DealsWithAll M.Model M.Body.cmp context.now
            self.old self.new at_hand.old.items at_hand.new.items 0) }
        ensures fewer { OnOk result (done_count self.new ≤ done_count self.old) }
    {
        // What is next stands last, so that it can be popped.
        at_hand.reverse();
        while let Some(letter) = at_hand.pop() {
            let to = self.owner(&letter);
            if to == self.number {
                self.arrive(context, letter, at_hand)?;
            } else {
                self.post(context, to, letter)?;
            }
        }
        Ok(())
    }

    /// The worker of the process that the letter goes to.
    fn owner(&self, letter: &Letter<M::Body>) -> u32
        requires workers { 0 < self.now.plan.workers }
        ensures owner { result ≡ owner (role_of self.now) letter.now }
    {
        letter.event.to % self.plan.workers
    }

    /// A letter arrives at the own process that it goes to. What that gives out is appended to `out`.
    fn arrive(
        &mut self,
        context: &Context<'_, M>,
        letter: Letter<M::Body>,
        out: &mut Vec<Letter<M::Body>>,
    ) -> Result<(), Refusal>
        requires ready { CanWork M.Model M.Body.cmp context.now self.old }
        requires fair { IsFair (rules M.Model M.Body.cmp context.now.model.now)
            self.old.collected letter }
        requires own { is_own (role_of self.old) letter ≡ true }
        ensures works { OnOk result (
            Deals M.Model M.Body.cmp context.now self.old self.new
            (out.old.items ++ letter ∷ []) out.new.items 0) }
        ensures ready { OnOk result (CanWork M.Model M.Body.cmp context.now self.new) }
        ensures fair { OnOk result (
            AreFair M.Model M.Body.cmp context.now self.old out.old.items
            → AreFair M.Model M.Body.cmp context.now self.old out.new.items) }
        ensures falls { OnOk result (
            work_left M.Model M.Body.cmp context.now self.new out.new.items
            ≤ work_left M.Model M.Body.cmp context.now self.old out.old.items) }
        ensures fewer { OnOk result (done_count self.new ≤ done_count self.old) }
    {
        let place = (letter.event.to / self.plan.workers) as usize;
        let way = self.plan.way();
        let undone = self.processes.arrive(context, way, place, letter, out)?;
        self.traffic.undone = self.traffic.undone.wrapping_add(undone as u64);
        Ok(())
    }

    // What goes out to other workers.

    /// Sends a letter to worker `to`, that of its process, and notes its time, or keeps it where the ring has no room.
    fn post(
        &mut self,
        context: &Context<'_, M>,
        to: u32,
        letter: Letter<M::Body>,
    ) -> Result<(), Refusal>
        requires workers { self.old.number < self.old.plan.workers }
        requires port { (self.old.port.worker ≡ self.old.number)
            × IsWide self.old.plan.workers self.old.port }
        requires to { to ≡ owner (role_of self.old) letter }
        requires other { to ≢ self.old.number }
        requires board { self.old.seat.board ≡ context.now.board.now.board }
        ensures works { OnOk result (
            Deals M.Model M.Body.cmp context.now self.old self.new (letter ∷ []) [] 0) }
        ensures processes { OnOk result (self.new.processes ≡ self.old.processes) }
    {
        match self.port.send(to as usize, letter) {
            Ok(()) => context.board.note(&mut self.seat, letter.event.time),
            Err(back) => self.kept.push(back)?,
        }
        Ok(())
    }

    /// Offers the kept letters to their rings again, in order. Those that are refused stay kept.
    fn offer_kept(&mut self, context: &Context<'_, M>) -> Result<(), Refusal>
        requires ready { CanWork M.Model M.Body.cmp context.now self.old }
        ensures works { OnOk result (
            Deals M.Model M.Body.cmp context.now self.old self.new [] [] 0) }
        ensures ready { OnOk result (CanWork M.Model M.Body.cmp context.now self.new) }
    {
        let kept = mem::replace(&mut self.kept, Vec::new(context.alloc));
        for letter in kept {
            let to = self.owner(&letter);
            self.post(context, to, letter)?;
        }
        Ok(())
    }

    // What comes in from other workers.

    /// Takes up at most as many letters from each other worker as a ring has room for, by rising number.
    fn receive_all(
        &mut self,
        context: &Context<'_, M>,
        at_hand: &mut Vec<Letter<M::Body>>,
    ) -> Result<(), Refusal>
        requires ready { CanWork M.Model M.Body.cmp context.now self.old }
        requires none { at_hand.old.items ≡ [] }
        ensures works { OnOk result (DealsWithAll M.Model M.Body.cmp context.now
            self.old self.new [] at_hand.new.items 0) }
    {
        for from in 0..self.plan.workers {
            if from == self.number {
                continue;
            }
            self.receive_from(context, from, at_hand)?;
        }
        Ok(())
    }

    /// Takes up at most as many letters from worker `from` as the ring has room for.
    fn receive_from(
        &mut self,
        context: &Context<'_, M>,
        from: u32,
        at_hand: &mut Vec<Letter<M::Body>>,
    ) -> Result<(), Refusal>
        requires ready { CanWork M.Model M.Body.cmp context.now self.old }
        requires none { at_hand.old.items ≡ [] }
        requires other { (from < self.old.plan.workers) × (from ≢ self.old.number) }
        ensures works { OnOk result (DealsWithAll M.Model M.Body.cmp context.now
            self.old self.new [] at_hand.new.items 0) }
    {
        for _ in 0..self.plan.ring {
            let found = self.receive_one(context, from, at_hand)?;
            if !found {
                return Ok(());
            }
        }
        Ok(())
    }

    /// Takes up the next letter from worker `from`, and answers whether there was one. A letter that passes the test is
    /// dealt with at once; another one is set aside.
    fn receive_one(
        &mut self,
        context: &Context<'_, M>,
        from: u32,
        at_hand: &mut Vec<Letter<M::Body>>,
    ) -> Result<bool, Refusal>
        requires ready { CanWork M.Model M.Body.cmp context.now self.old }
        requires none { at_hand.old.items ≡ [] }
        requires other { (from < self.old.plan.workers) × (from ≢ self.old.number) }
        ensures works { OnOk result (DealsWithAll M.Model M.Body.cmp context.now
            self.old self.new [] at_hand.new.items 0) }
    {
        let Some(letter) = self.port.receive(from as usize) else {
            return Ok(false);
        };
        self.traffic.ring = self.traffic.ring.wrapping_add(1);
        if self.passes(context.model, &letter) {
            self.arrive(context, letter, at_hand)?;
            self.deal(context, at_hand)?;
        } else {
            self.aside.push(letter)?;
        }
        Ok(true)
    }

    /// The test of a received letter: whether it is valid, goes to an own process, and is not before the greatest time
    /// collected.
    fn passes(&self, model: &M, letter: &Letter<M::Body>) -> bool
        requires workers { 0 < self.now.plan.workers }
        ensures passes { result
            ≡ is_accepted (rules M.Model M.Body.cmp model.now) (role_of self.now) letter.now }
    {
        model.valid(&letter.event)
            && self.owner(letter) == self.number
            && self.collected <= letter.event.time
    }

    // Executing.

    /// Executes events until the batch is used up or all that is pending is held back, and gives how many it executed.
    ///
    /// It is always the least pending event that comes next. Where that is a straggler, the last processed event of its
    /// process is undone, and the worker looks again.
    fn execute_some(
        &mut self,
        context: &Context<'_, M>,
        at_hand: &mut Vec<Letter<M::Body>>,
    ) -> Result<u64, Refusal>
        requires ready { CanWork M.Model M.Body.cmp context.now self.old }
        requires none { at_hand.old.items ≡ [] }
        ensures works { IfOk result (λ n. DealsWithAll M.Model M.Body.cmp context.now
            self.old self.new [] at_hand.new.items n) }
        ensures within { IfOk result (λ n. n ≤ self.old.plan.batch) }
        ensures held_back { IfOk result (λ n.
            HoldsBackRest M.Model M.Body.cmp context.now self.old self.new n) }
    {
        let batch = u64::from(self.plan.batch);
        let mut executed = 0;
        while executed < batch {
            let bound = context.board.floor(&mut self.seat) + self.plan.window;
            let Some(place) = self.processes.next_before(context.alloc, bound)? else {
                return Ok(executed);
            };
            let done = self.advance(context, place, at_hand)?;
            if done {
                executed += 1;
            }
        }
        Ok(executed)
    }

    /// The process at `place` executes what is next, or undoes its last event where that is a straggler; then what was
    /// given out is dealt with. Answers whether it executed.
    fn advance(
        &mut self,
        context: &Context<'_, M>,
        place: usize,
        at_hand: &mut Vec<Letter<M::Body>>,
    ) -> Result<bool, Refusal>
        requires ready { CanWork M.Model M.Body.cmp context.now self.old }
        requires none { at_hand.old.items ≡ [] }
        requires next { (bound : Time)
            × IsNext (rules M.Model M.Body.cmp context.now.model.now) bound
            self.old.processes.items place }
        ensures works { IfOk result (λ executed. DealsWithAll M.Model M.Body.cmp context.now
            self.old self.new [] at_hand.new.items (if executed then 1 else 0)) }
        ensures executed { IfOk result (λ executed.
            executed ≡ true → done_count self.new ≤ done_count self.old + 1) }
        ensures undone { IfOk result (λ executed.
            executed ≡ false → done_count self.new < done_count self.old) }
    {
        let way = self.plan.way();
        let executed = self.processes.advance(context, way, place, at_hand)?;
        self.traffic.executed = self.traffic.executed.wrapping_add(u64::from(executed));
        self.traffic.undone = self.traffic.undone.wrapping_add(u64::from(!executed));
        self.deal(context, at_hand)?;
        Ok(executed)
    }

    // The end of a round.

    /// Notes the least time of the processes, and the time of each kept letter. Takes no memory.
    pub(crate) fn close(&mut self, board: &Board)
        requires board { self.old.seat.board ≡ board.now.board }
        ensures closes { ClosesInner self.old self.new }
    {
        let least = least_of_processes(self.processes.as_slice());
        board.note(&mut self.seat, least);
        note_all(board, &mut self.seat, &self.kept);
    }
}

/// Notes the time of each of the letters.
fn note_all<B>(board: &Board, seat: &mut Seat, letters: &[Letter<B>])
    requires board { seat.old.board ≡ board.now.board }
    ensures noted { seat.new ≡ record seat.old {
      noted = seat.old.noted ++ map (λ l. l.event.time) letters.now;
    } }
{
    for letter in letters {
        board.note(seat, letter.event.time);
    }
}
