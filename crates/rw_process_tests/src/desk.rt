// A logical process with its model, led through a table of calls.
ghost use Rattle.std.specs.Prelude.{◌≡◌, ◌<◌, true, IfOk};
ghost use Rattle.rw_lp.specs.Sound.{IsSoundOnceCollected};

use rw_lp::{Answer, Lp, StepFault};
use rw_vt::{END, Event, Letter, Model, Refusal};
use std::alloc::Global;
use std::test::Fail;

/// A process with its model and its number.
#[derive(Drop)]
pub struct Desk<M: Model + Copy> {
    model: M,
    number: u32,
    lp: Lp<M>,
    ghost model_is: { lp.model ≡ model },
    ghost number_is: { lp.number ≡ number },
}

/// A call on a process.
#[derive(Drop)]
pub enum Call<B> {
    ExecuteNext,
    UndoOne,
    UndoLazily,
    Deliver(Letter<B>),
    Arrive(Letter<B>),
    ArriveLazily(Letter<B>),
    Collect(u64),
}

/// What is done with a process, and what is then expected.
#[derive(Drop)]
pub enum Line<'a, B> {
    /// The call is accepted and gives out these letters.
    Gives(Call<B>, &'a [Letter<B>]),
    /// The call is refused like this and gives out nothing.
    Refuses(Call<B>, StepFault),
    /// Nothing is committed, these events are processed, this one is the next, and nothing outstanding is earlier
    /// than this time.
    Ahead(&'a [Event<B>], Option<Event<B>>, u64),
    /// These events are committed, and nothing is left to do.
    Settled(&'a [Event<B>]),
    /// The first events are committed, the second processed, and so on.
    Shows(&'a [Event<B>], &'a [Event<B>], Option<Event<B>>, u64),
    /// So many copies of the event are pending, and so many anti-messages of it are owed a message.
    Copies(Event<B>, u64, u64),
}

impl<M: Model + Copy> Desk<M> {
    /// Process `number` in its start state with these events pending.
    pub fn open(
        alloc: Global,
        model: M,
        number: u32,
        start: M::State,
        initial: Vec<Event<M::Body>>,
    ) -> Result<Desk<M>, Fail>
        requires number { number < M.process_count model }
        requires start { M.IsWellFormed model number start }
    {
        let is_here = |event: &Event<M::Body>| model.valid(event) && event.to == number;
        if !initial.iter().all(is_here) {
            return Err(Fail::from("an event that is not valid here"));
        }
        let lp = Lp::new(alloc, &model, number, start, initial)?;
        Ok(Desk { model, number, lp })
    }

    /// Goes through these lines, up to the first that does not hold.
    pub fn does(self, alloc: Global, lines: &[Line<'_, M::Body>]) -> Result<Desk<M>, Fail> {
        let mut desk = self;
        for line in lines {
            desk = desk.follows(alloc, line)?;
        }
        Ok(desk)
    }

    fn follows(self, alloc: Global, line: &Line<'_, M::Body>) -> Result<Desk<M>, Fail> {
        let no_letters = [];
        let (desk, holds) = match *line {
            Line::Gives(ref call, given) => self.answers(alloc, call, Answer::Done, given)?,
            Line::Refuses(ref call, fault) => {
                self.answers(alloc, call, Answer::Refused(fault), &no_letters)?
            }
            _ => {
                let holds = self.is(line);
                (self, holds)
            }
        };
        if holds {
            Ok(desk)
        } else {
            Err(Fail::from("a line does not hold"))
        }
    }

    /// Makes a call, and whether it has this answer and gives out these letters.
    fn answers(
        self,
        alloc: Global,
        call: &Call<M::Body>,
        want: Answer,
        given: &[Letter<M::Body>],
    ) -> Result<(Desk<M>, bool), Refusal> {
        let mut out = Vec::new(alloc);
        let Desk { model, number, lp } = self;
        let (lp, answer) = make(alloc, &model, number, lp, call, &mut out)?;
        let holds = answer == want && out.as_slice() == given;
        Ok((Desk { model, number, lp }, holds))
    }

    /// Whether the process is as a line says that makes no call.
    fn is(&self, line: &Line<'_, M::Body>) -> bool {
        let no_events = [];
        match *line {
            Line::Ahead(processed, next, least) => self.shows(&no_events, processed, next, least),
            Line::Settled(committed) => self.shows(committed, &no_events, None, END),
            Line::Shows(committed, processed, next, least) => {
                self.shows(committed, processed, next, least)
            }
            Line::Copies(event, pending, debts) => {
                let lp = &self.lp;
                lp.pending_copies(&event) == pending && lp.debt_copies(&event) == debts
            }
            _ => false,
        }
    }

    fn shows(
        &self,
        committed: &[Event<M::Body>],
        processed: &[Event<M::Body>],
        next: Option<Event<M::Body>>,
        least: u64,
    ) -> bool {
        let lp = &self.lp;
        lp.journal() == committed
            && lp.processed() == processed
            && lp.next().copied() == next
            && lp.least() == least
    }

    /// The law of a process that has collected.
    pub fn soundness(&self)
        ensures { IsSoundOnceCollected M.Model M.Body.cmp self.now.lp }
    {
        self.lp.soundness();
    }

    /// The state.
    pub fn state(&self) -> &M::State {
        self.lp.state()
    }

    /// What it leaves.
    pub fn into_outcome(self) -> (Vec<Event<M::Body>>, M::State) {
        self.lp.into_outcome()
    }
}

/// Makes a call. A letter that is not valid here is answered as of no process, and a collection above what is
/// outstanding as above the floor.
fn make<M: Model + Copy>(
    alloc: Global,
    model: &M,
    number: u32,
    lp: Lp<M>,
    call: &Call<M::Body>,
    out: &mut Vec<Letter<M::Body>>,
) -> Result<(Lp<M>, Answer), Refusal>
    requires model { model.now ≡ lp.model }
    requires number { number ≡ lp.number }
    ensures same { IfOk result (λ r. (r.0.model ≡ lp.model) × (r.0.number ≡ lp.number)) }
{
    match *call {
        Call::ExecuteNext => lp.execute_next(alloc, model, out),
        Call::UndoOne => lp.undo_one(alloc, model, out),
        Call::UndoLazily => lp.undo_lazily(alloc, model),
        Call::Deliver(letter) if is_here(model, number, &letter) => lp.deliver(letter, out),
        Call::Arrive(letter) if is_here(model, number, &letter) => {
            Ok((lp.arrive(alloc, model, letter, out)?, Answer::Done))
        }
        Call::ArriveLazily(letter) if is_here(model, number, &letter) => {
            Ok((lp.arrive_lazily(alloc, model, letter, out)?, Answer::Done))
        }
        Call::Collect(time) if time <= lp.least() => Ok((lp.collect(time)?, Answer::Done)),
        Call::Collect(_) => Ok((lp, Answer::Refused(StepFault::AboveFloor))),
        _ => Ok((lp, Answer::Refused(StepFault::NoSuchProcess))),
    }
}

/// Whether a letter may be handed to the process.
fn is_here<M: Model>(model: &M, number: u32, letter: &Letter<M::Body>) -> bool
    ensures valid { result ≡ true → M.is_valid model.now letter.now.event ≡ true }
    ensures here { result ≡ true → letter.now.event.to ≡ number }
{
    model.valid(&letter.event) && letter.event.to == number
}
