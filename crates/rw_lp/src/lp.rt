ghost use Rattle.std.specs.Prelude.{◌≡◌, ◌<◌, ◌≤◌, ◌++◌, ◌∷◌, ◌↔◌, ◌^◌, true, false, List, [], IfOk, IfErr, OnOk, MatchOption, Some, All};
ghost use Rattle.rw_vt.specs.Limits.{end_of_time};
ghost use Rattle.rw_vt.specs.Order.{copies, event_cmp, has, AtMost, Each, Has, IsAscending, IsFirst, IsLeastOf};
ghost use Rattle.rw_vt.specs.System.{state_after, rules};
ghost use Rattle.rw_vt.specs.Letters.{letters_of};
ghost use Rattle.rw_vt.specs.declared.event.Event.{Event};
ghost use Rattle.rw_vt.specs.declared.event.Letter.{Letter};
ghost use Rattle.rw_vt.specs.declared.refusal.Refusal.TheVariants.{Memory};
ghost use Rattle.rw_lp.specs.HeldMessages.{held_messages};
ghost use Rattle.rw_lp.specs.Process.{ProcessState, done, deliver, execute_next, undo_one, collect};
ghost use Rattle.rw_lp.specs.Calls.{LogicalProcess, process_of, new_process, MeetsNext, Took, letters_taken, IsSameProcess, GivesOut, execution_by, undoing_by, lazy_undoing_by, IsDelivered, least_outstanding};
ghost use Rattle.rw_lp.specs.Past.{IsFor};
ghost use Rattle.rw_lp.specs.Cut.{IsKept, seen_of};
ghost use Rattle.rw_lp.specs.PendingAgain.{IsPendingAgain, sent_by, held_by};
ghost use Rattle.rw_lp.specs.declared.undo_record.Undone.{Undone};
ghost use Rattle.rw_lp.specs.Own.{AreFor};
ghost use Rattle.rw_lp.specs.HeldBack.{antis_unless, held_unless};
ghost use Rattle.rw_lp.specs.Sound.{Balance, IsSoundOnceCollected, KeepsBalance, StartsWell};
ghost use Rattle.rw_lp.specs.Arrival.{Arrived, ArrivedBy, ArrivedLazily, is_barred, undo_by};

use crate::answer::{Answer, StepFault};
use crate::held_back::HeldBack;
use crate::history::{Past, ends_after};
use crate::undo_record::Undone;
use crate::way::Way;
use rw_bag::Bag;
use rw_vt::{Event, Letter, Model as VtModel, Refusal};
use std::alloc::{AllocError, Global};
use std::marker::Model;

/// A logical process of a model (Jefferson 1985): it executes its pending events in order, ahead of the other
/// processes, and takes back what it did too early.
///
/// Its events are done, first those committed and then those processed, or pending. A debt is an anti-message that
/// came before its message. A held message is one that a pending event had sent before it was undone lazily. Contracts see a
/// process with its model and its number, and name its start, which no running code reads. Each call that takes a model takes
/// the one that `new` took. A call that is refused with a [`Refusal`] hands nothing back, and nothing is then said of `out`.
#[derive(Drop)]
pub struct Lp<M: VtModel> {
    history: Box<Past<M>>,
    pending: Bag<M>,
    debts: Bag<M>,
    held: Box<HeldBack<M>>,
}

impl<M: VtModel> Model for Lp<M> {
    ghost Value = { LogicalProcess M M.State M.Body };

    ghost view = { λ x. process_of (seen_of x.history.value) x.pending x.debts x.held.value };

    ghost invariant = { λ x. IsKept M.Model (event_cmp M.Body.cmp) x.history.value
        × AreFor M.Model M.Body.cmp (seen_of x.history.value) x.pending x.debts x.held.value };
}

impl<M: VtModel> Lp<M> {
    /// Process `number` of the model in its start state, with these events pending. Refused only as `Memory`.
    pub fn new(
        alloc: Global,
        model: &M,
        number: u32,
        start: M::State,
        initial: Vec<Event<M::Body>>,
    ) -> Result<Lp<M>, Refusal>
        requires number { number < M.process_count model.now }
        requires start { M.IsWellFormed model.now number start }
        requires initial { All (λ e.
            (M.is_valid model.now e ≡ true) × (e.to ≡ number)) initial.items }
        ensures opened { IfOk result (λ lp. lp ≡ record {
          model = model.now;
          number = number;
          process = new_process (event_cmp M.Body.cmp) start initial.items;
        }) }
        ensures memory { IfErr result (λ e. e ≡ Memory) }
    {
        let history = Past::new(alloc, model, number, start, initial.len())?;
        let pending = Bag::from_events(initial)?;
        let debts = Bag::new(alloc)?;
        let held = Box::new(alloc, HeldBack::new(alloc))?;
        Ok(Lp {
            history,
            pending,
            debts,
            held,
        })
    }

    /// A letter comes: a message and its anti-message annihilate, whichever comes first (Jefferson 1985).
    ///
    /// Whole events are compared, and equal copies count. A message takes one equal debt away, or else its event becomes
    /// pending. An anti-message takes one equal pending event away, and with the last copy what is held with it: anti-messages
    /// of that are appended to `out`. Or else `StillDone` is answered where its event is processed, and the process and `out`
    /// are as they were; or else it becomes a debt. Refused only as `Memory`.
    pub fn deliver(
        self,
        letter: Letter<M::Body>,
        out: &mut Vec<Letter<M::Body>>,
    ) -> Result<(Lp<M>, Answer), Refusal>
        requires valid { M.is_valid self.model letter.event ≡ true }
        requires here { letter.event.to ≡ self.number }
        ensures same { IfOk result (λ r. IsSameProcess self r.0) }
        ensures turn { IfOk result (λ r. GivesOut out.old.items out.new.items
            (IsDelivered (event_cmp M.Body.cmp) letter r.1 self r.0)) }
        ensures balance { IfOk result (λ r. GivesOut out.old.items out.new.items
            (KeepsBalance M.Model M.Body.cmp self r.0 (letters_taken r.1 letter))) }
        ensures memory { IfErr result (λ e. e ≡ Memory) }
    {
        let mut lp = self;
        let answer = meet(
            &lp.history,
            &mut lp.pending,
            &mut lp.debts,
            &mut lp.held,
            letter,
            out,
        )?;
        Ok((lp, answer))
    }

    /// Executes the least pending event, and appends messages of its sends to `out`, in order.
    ///
    /// Answers `NothingPending`, or `Straggler` where that event is less than the last done one; the process and `out` are
    /// then as they were. Refused as `Exhausted` only where it would execute that event, in a state that can take no
    /// further one.
    pub fn execute_next(
        self,
        alloc: Global,
        model: &M,
        out: &mut Vec<Letter<M::Body>>,
    ) -> Result<(Lp<M>, Answer), Refusal>
        requires model { model.now ≡ self.model }
        ensures same { IfOk result (λ r. IsSameProcess self r.0) }
        ensures turn { IfOk result (λ r. GivesOut out.old.items out.new.items (λ given.
            Took self.process r.0.process r.1 given (execution_by M.Model M.Body.cmp self))) }
        ensures balance { IfOk result (λ r. GivesOut out.old.items out.new.items
            (KeepsBalance M.Model M.Body.cmp self r.0 [])) }
        ensures exhausted { result ≡ Err Refusal.Exhausted
            → MeetsNext (event_cmp M.Body.cmp) self.process (M.is_exhausted self.model) }
    {
        let mut lp = self;
        let next = lp.pending.first().copied();
        let Some(event) = next else {
            return Ok((lp, Answer::Refused(StepFault::NothingPending)));
        };
        if lp.history.is_past(&event) {
            return Ok((lp, Answer::Refused(StepFault::Straggler)));
        }
        let _taken = lp.pending.take(event);
        lp.history.execute(alloc, model, event, &mut lp.held, out)?;
        Ok((lp, Answer::Done))
    }

    /// Takes the last processed event back: it is pending again, and anti-messages of its sends are appended to `out`, in
    /// order.
    ///
    /// Answers `NothingToUndo` where no event is processed that is not committed; the process and `out` are then as they
    /// were. By reverse computation (Carothers, Perumalla and Fujimoto 1999). Refused only as `Memory`.
    pub fn undo_one(
        self,
        alloc: Global,
        model: &M,
        out: &mut Vec<Letter<M::Body>>,
    ) -> Result<(Lp<M>, Answer), Refusal>
        requires model { model.now ≡ self.model }
        ensures same { IfOk result (λ r. IsSameProcess self r.0) }
        ensures turn { IfOk result (λ r. GivesOut out.old.items out.new.items (λ given.
            Took self.process r.0.process r.1 given (undoing_by M.Model M.Body.cmp self))) }
        ensures balance { IfOk result (λ r. GivesOut out.old.items out.new.items
            (KeepsBalance M.Model M.Body.cmp self r.0 [])) }
        ensures memory { IfErr result (λ e. e ≡ Memory) }
    {
        let mut lp = self;
        let undone = lp.history.undo(alloc, model)?;
        let answer = cancel_undone(undone, &mut lp.pending, out)?;
        Ok((lp, answer))
    }

    /// Takes the last processed event back as [`undo_one`](Self::undo_one) does, but sends no anti-messages: what it had sent is
    /// held with it, in order, until the process has executed it again or an anti-message has cancelled it (lazy cancellation).
    ///
    /// Answers `NothingToUndo` where `undo_one` does. Refused only as `Memory`.
    pub fn undo_lazily(self, alloc: Global, model: &M) -> Result<(Lp<M>, Answer), Refusal>
        requires model { model.now ≡ self.model }
        ensures same { IfOk result (λ r. IsSameProcess self r.0) }
        ensures turn { IfOk result (λ r.
            Took self.process r.0.process r.1 [] (lazy_undoing_by M.Model M.Body.cmp self)) }
        ensures balance { IfOk result (λ r. KeepsBalance M.Model M.Body.cmp self r.0 [] []) }
        ensures memory { IfErr result (λ e. e ≡ Memory) }
    {
        let mut lp = self;
        let undone = lp.history.undo(alloc, model)?;
        let answer = hold_undone(undone, &mut lp.pending, &mut lp.held)?;
        Ok((lp, answer))
    }

    /// Takes the last processed event back: as [`undo_one`](Self::undo_one) does, or as
    /// [`undo_lazily`](Self::undo_lazily) does. Refused only as `Memory`.
    pub fn undo_by(
        self,
        alloc: Global,
        model: &M,
        way: Way,
        out: &mut Vec<Letter<M::Body>>,
    ) -> Result<(Lp<M>, Answer), Refusal>
        requires model { model.now ≡ self.model }
        ensures same { IfOk result (λ r. IsSameProcess self r.0) }
        ensures turn { IfOk result (λ r. GivesOut out.old.items out.new.items (λ given.
            Took self.process r.0.process r.1 given
            (undo_by way (rules M.Model M.Body.cmp self.model) self.number self.process))) }
        ensures balance { IfOk result (λ r. GivesOut out.old.items out.new.items
            (KeepsBalance M.Model M.Body.cmp self r.0 [])) }
        ensures memory { IfErr result (λ e. e ≡ Memory) }
    {
        match way {
            Way::Aggressive => self.undo_one(alloc, model, out),
            Way::Lazy => self.undo_lazily(alloc, model),
        }
    }

    /// A letter arrives: the fewest undoings are made after which it is accepted and, if it is a message, no processed event
    /// is greater than it; then it is delivered (Jefferson 1985: rollback). Anti-messages of what the undone events sent
    /// are appended to `out`, in the order of the undoings. Refused only as `Memory`.
    pub fn arrive(
        self,
        alloc: Global,
        model: &M,
        letter: Letter<M::Body>,
        out: &mut Vec<Letter<M::Body>>,
    ) -> Result<Lp<M>, Refusal>
        requires model { model.now ≡ self.model }
        requires valid { M.is_valid self.model letter.event ≡ true }
        requires here { letter.event.to ≡ self.number }
        ensures same { IfOk result (IsSameProcess self) }
        ensures arrived { IfOk result (λ lp. GivesOut out.old.items out.new.items
            (Arrived (rules M.Model M.Body.cmp self.model) self.number letter
            self.process lp.process)) }
        ensures balance { IfOk result (λ lp. GivesOut out.old.items out.new.items
            (KeepsBalance M.Model M.Body.cmp self lp (letter ∷ []))) }
        ensures memory { IfErr result (λ e. e ≡ Memory) }
    {
        self.arrive_by(alloc, model, Way::Aggressive, letter, out)
    }

    /// A letter arrives as by [`arrive`](Self::arrive), but each undoing is one of [`undo_lazily`](Self::undo_lazily). Refused
    /// only as `Memory`.
    pub fn arrive_lazily(
        self,
        alloc: Global,
        model: &M,
        letter: Letter<M::Body>,
        out: &mut Vec<Letter<M::Body>>,
    ) -> Result<Lp<M>, Refusal>
        requires model { model.now ≡ self.model }
        requires valid { M.is_valid self.model letter.event ≡ true }
        requires here { letter.event.to ≡ self.number }
        ensures same { IfOk result (IsSameProcess self) }
        ensures arrived { IfOk result (λ lp. GivesOut out.old.items out.new.items
            (ArrivedLazily (rules M.Model M.Body.cmp self.model) self.number letter
            self.process lp.process)) }
        ensures balance { IfOk result (λ lp. GivesOut out.old.items out.new.items
            (KeepsBalance M.Model M.Body.cmp self lp (letter ∷ []))) }
        ensures memory { IfErr result (λ e. e ≡ Memory) }
    {
        self.arrive_by(alloc, model, Way::Lazy, letter, out)
    }

    /// A letter arrives as by [`arrive`](Self::arrive), but each undoing is one of [`undo_by`](Self::undo_by), that way.
    /// Refused only as `Memory`.
    pub fn arrive_by(
        self,
        alloc: Global,
        model: &M,
        way: Way,
        letter: Letter<M::Body>,
        out: &mut Vec<Letter<M::Body>>,
    ) -> Result<Lp<M>, Refusal>
        requires model { model.now ≡ self.model }
        requires valid { M.is_valid self.model letter.event ≡ true }
        requires here { letter.event.to ≡ self.number }
        ensures same { IfOk result (IsSameProcess self) }
        ensures arrived { IfOk result (λ lp. GivesOut out.old.items out.new.items
            (ArrivedBy way (rules M.Model M.Body.cmp self.model) self.number letter
            self.process lp.process)) }
        ensures balance { IfOk result (λ lp. GivesOut out.old.items out.new.items
            (KeepsBalance M.Model M.Body.cmp self lp (letter ∷ []))) }
        ensures memory { IfErr result (λ e. e ≡ Memory) }
    {
        let mut lp = self;
        'undoing: while lp.is_barred(&letter) {
            let (undone, _answer) = lp.undo_by(alloc, model, way, out)?;
            lp = undone;
        }
        let (lp, _answer) = lp.deliver(letter, out)?;
        Ok(lp)
    }

    /// Whether the letter cannot come before the last processed event is undone.
    fn is_barred(&self, letter: &Letter<M::Body>) -> bool
        ensures is { result ≡ is_barred (event_cmp M.Body.cmp) letter.now self.now.process }
        ensures order { IsAscending (event_cmp M.Body.cmp) self.now.process.processed }
    {
        let processed = self.history.processed();
        if letter.anti {
            self.history.holds(letter.event) && !self.pending.holds(letter.event)
        } else {
            ends_after(processed, &letter.event)
        }
    }

    /// Commits the processed events of time below `time`, in ticks, and drops what would take them back: fossil collection
    /// (Jefferson 1985). No pending event and no debt may be earlier than `time`. It takes no memory as it is now, and is never
    /// refused; callers hear of `Memory` as from the other calls that change a process.
    pub fn collect(self, time: u64) -> Result<Lp<M>, Refusal>
        requires pending { Each (event_cmp M.Body.cmp) (λ e. time ≤ e.time) self.process.pending }
        requires debts { Each (event_cmp M.Body.cmp) (λ e. time ≤ e.time) self.process.debts }
        ensures collected { IfOk result (λ lp.
            lp ≡ record self { process = collect time self.process }) }
        ensures done { IfOk result (λ lp. done lp.process ≡ done self.process) }
        ensures memory { IfErr result (λ e. e ≡ Memory) }
    {
        let mut lp = self;
        lp.history.commit(time);
        Ok(lp)
    }

    /// A process is one of its model's and starts well formed. Where it has collected up to some time it is sound: what it
    /// has done is in order and leads to its state, and all its events are valid and go to it. This is a law of every
    /// process; the call itself does nothing.
    pub fn soundness(&self)
        ensures starts { StartsWell M.Model self.now }
        ensures sound { IsSoundOnceCollected M.Model M.Body.cmp self.now }
    {
        self.pending.order();
        self.debts.order();
    }

    /// The least time of pending events, debts and held messages, in ticks, or [`END`](rw_vt::END) if there is none. Takes no
    /// memory.
    pub fn least(&self) -> u64
        ensures is { result ≡ least_outstanding end_of_time self.now.process }
        ensures pending { Each (event_cmp M.Body.cmp) (λ e.
            result ≤ e.time) self.now.process.pending }
        ensures debts { Each (event_cmp M.Body.cmp) (λ e. result ≤ e.time) self.now.process.debts }
    {
        self.pending.least_time().min(self.debts.least_time())
    }

    /// The least pending event, which `execute_next` would execute. Takes no memory.
    pub fn next(&self) -> Option<&Event<M::Body>>
        ensures first { MatchOption result (self.now.process.pending ≡ [])
            (λ e. IsFirst self.now.process.pending e.now) }
        ensures least { MatchOption result (self.now.process.pending ≡ [])
            (λ e. IsLeastOf (event_cmp M.Body.cmp) self.now.process.pending e.now) }
    {
        self.pending.first()
    }

    /// How many equal copies of the event are pending. Takes no memory.
    pub fn pending_copies(&self, event: &Event<M::Body>) -> u64
        ensures { result ≡ copies (event_cmp M.Body.cmp) event.now self.now.process.pending }
    {
        self.pending.copies(event)
    }

    /// How many equal anti-messages of the event came before their messages. Takes no memory.
    pub fn debt_copies(&self, event: &Event<M::Body>) -> u64
        ensures { result ≡ copies (event_cmp M.Body.cmp) event.now self.now.process.debts }
    {
        self.debts.copies(event)
    }

    /// The committed events, in order. Takes no memory.
    pub fn journal(&self) -> &[Event<M::Body>]
        ensures { result.now ≡ self.now.process.committed }
    {
        self.history.committed()
    }

    /// The processed events that are not committed, in order. Takes no memory.
    pub fn processed(&self) -> &[Event<M::Body>]
        ensures { result.now ≡ self.now.process.processed }
    {
        self.history.processed()
    }

    /// The state, which is the fold of the done events from the start. Takes no memory.
    pub fn state(&self) -> &M::State
        ensures is { result.now ≡ self.now.process.state }
        ensures fold { self.now.process.state
            ≡ state_after (M.step self.now.model self.now.number) self.now.process.start
            (done self.now.process) }
    {
        self.history.state()
    }

    /// The state, by value, of a process that is left off. What is pending is appended to `there`, in order, and what is owed or
    /// held, and so is not to be executed, to `owed`.
    pub fn into_left(
        self,
        there: &mut Vec<Event<M::Body>>,
        owed: &mut Vec<Event<M::Body>>,
    ) -> Result<M::State, AllocError>
        ensures state { IfOk result (λ s. s ≡ self.process.state) }
        ensures there { OnOk result
            (there.new.items ≡ there.old.items ++ self.process.pending) }
        ensures owed { OnOk result (owed.new.items
            ≡ owed.old.items ++ (self.process.debts ++ held_messages self.process.held)) }
    {
        let mut lp = self;
        move_left(&mut lp.pending, &mut lp.debts, &lp.held, there, owed)?;
        let (_journal, state) = Box::into_inner(lp.history).into_outcome();
        Ok(state)
    }

    /// The committed events and the state, by value. Takes no memory.
    pub fn into_outcome(self) -> (Vec<Event<M::Body>>, M::State)
        ensures journal { result.0.items ≡ self.process.committed }
        ensures state { result.1 ≡ self.process.state }
    {
        Box::into_inner(self.history).into_outcome()
    }
}

/// Appends what is pending, in order, to `there`; and to `owed` what is owed, in order, and then what is held.
fn move_left<M: VtModel>(
    pending: &mut Bag<M>,
    debts: &mut Bag<M>,
    held: &HeldBack<M>,
    there: &mut Vec<Event<M::Body>>,
    owed: &mut Vec<Event<M::Body>>,
) -> Result<(), AllocError>
    ensures there { OnOk result (there.new.items ≡ there.old.items ++ pending.old) }
    ensures owed { OnOk result
        (owed.new.items ≡ owed.old.items ++ (debts.old ++ held_messages held.now)) }
{
    pending.move_to(there)?;
    debts.move_to(owed)?;
    held.give_to(owed)
}

/// The event that was taken back, if there is one, is pending again, and what it had sent is cancelled: see
/// [`Lp::undo_one`].
fn cancel_undone<M: VtModel>(
    undone: Option<Undone<M::Body>>,
    pending: &mut Bag<M>,
    out: &mut Vec<Letter<M::Body>>,
) -> Result<Answer, AllocError>
    ensures pending { IfOk result (λ a.
        IsPendingAgain (event_cmp M.Body.cmp) undone pending.old a pending.new) }
    ensures out { OnOk result
        (out.new.items ≡ out.old.items ++ letters_of true (sent_by undone)) }
{
    let Some(Undone { event, sends }) = undone else {
        return Ok(Answer::Refused(StepFault::NothingToUndo));
    };
    sends.cancel(out)?;
    pending.put(event)?;
    Ok(Answer::Done)
}

/// The event that was taken back, if there is one, is pending again, and what it had sent is held: see
/// [`Lp::undo_lazily`].
fn hold_undone<M: VtModel>(
    undone: Option<Undone<M::Body>>,
    pending: &mut Bag<M>,
    held: &mut HeldBack<M>,
) -> Result<Answer, AllocError>
    requires last { (u : Undone M.Body) → undone ≡ Some u
        → All (λ h. AtMost (event_cmp M.Body.cmp) u.event h.undone) held.old }
    ensures pending { IfOk result (λ a.
        IsPendingAgain (event_cmp M.Body.cmp) undone pending.old a pending.new) }
    ensures held { OnOk result (held.new ≡ held.old ++ held_by undone) }
{
    let Some(Undone { event, sends }) = undone else {
        return Ok(Answer::Refused(StepFault::NothingToUndo));
    };
    held.hold(event, sends)?;
    pending.put(event)?;
    Ok(Answer::Done)
}

/// A letter comes to what is pending, owed and held beside this history: see [`Lp::deliver`].
fn meet<M: VtModel>(
    history: &Past<M>,
    pending: &mut Bag<M>,
    debts: &mut Bag<M>,
    held: &mut HeldBack<M>,
    letter: Letter<M::Body>,
    out: &mut Vec<Letter<M::Body>>,
) -> Result<Answer, AllocError>
    requires kept { IsKept M.Model (event_cmp M.Body.cmp) history.now }
    requires own { AreFor M.Model M.Body.cmp
        (seen_of history.now) pending.old debts.old held.old }
    requires here { IsFor M.Model history.now.model.value history.now.number letter.event }
    ensures own { OnOk result (AreFor M.Model M.Body.cmp
        (seen_of history.now) pending.new debts.new held.new) }
    ensures turn { IfOk result (λ a. GivesOut out.old.items out.new.items
        (IsDelivered (event_cmp M.Body.cmp) letter a
        (process_of (seen_of history.now) pending.old debts.old held.old)
        (process_of (seen_of history.now) pending.new debts.new held.new))) }
    ensures balance { IfOk result (λ a. GivesOut out.old.items out.new.items
        (KeepsBalance M.Model M.Body.cmp
        (process_of (seen_of history.now) pending.old debts.old held.old)
        (process_of (seen_of history.now) pending.new debts.new held.new)
        (letters_taken a letter))) }
{
    let event = letter.event;
    if letter.anti {
        if pending.take(event) {
            annihilate(pending, held, event, out)?;
            return Ok(Answer::Done);
        }
        if history.holds(event) {
            return Ok(Answer::Refused(StepFault::StillDone));
        }
        debts.put(event)?;
        return Ok(Answer::Done);
    }
    if debts.take(event) {
        return Ok(Answer::Done);
    }
    pending.put(event)?;
    Ok(Answer::Done)
}

/// A copy of the event has left what is pending. With the last copy, what is held with it is cancelled: see [`Lp::deliver`].
/// With nothing held that is one test.
fn annihilate<M: VtModel>(
    pending: &Bag<M>,
    held: &mut HeldBack<M>,
    event: Event<M::Body>,
    out: &mut Vec<Letter<M::Body>>,
) -> Result<(), AllocError>
    ensures out { OnOk result (out.new.items ≡ out.old.items
        ++ antis_unless (has (event_cmp M.Body.cmp) event pending.now)
        (event_cmp M.Body.cmp) event held.old) }
    ensures left { OnOk result (held.new
        ≡ held_unless (has (event_cmp M.Body.cmp) event pending.now)
        (event_cmp M.Body.cmp) event held.old) }
{
    if held.is_empty() {
        return Ok(());
    }
    if pending.holds(event) {
        return Ok(());
    }
    held.cancel(event, out)
}
