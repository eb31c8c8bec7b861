ghost use Rattle.std.specs.Prelude.{◌≡◌, ◌≤◌, IfOk, IfSome};
ghost use Rattle.rtrb.specs.Ring.{sent, known_free};
ghost use Rattle.rw_pool.specs.Notes.{IsAsked, may_answer_with};
ghost use Rattle.rw_pool.specs.declared.note.Note.TheVariants.{Done};

use crate::job::Job;
use crossbeam_channel::Receiver;
use rtrb::{Consumer, Producer, Protocol, RingBuffer};
use rw_vt::{NoMemory, Refusal};
use std::alloc::Global;
use std::marker::Model;
use std::snapshot::Snapshot;
use std::sync::Wait;

/// What goes through the ring of an answer: what was asked, for contracts alone, and then what it came to.
#[derive(Drop)]
pub enum Note<J, T> {
    Asked(Snapshot<J>, Snapshot<T>),
    Done(Result<T, Refusal>),
}

/// The protocol of an answer: what comes is what the job gives for what was asked.
pub struct Kept;

impl<J: Job<T>, T> Protocol<Note<J, T>> for Kept {
    ghost use Rattle.rw_pool.specs.Notes.{may_answer_with};

    ghost allows = { may_answer_with J.Gives };
}

/// The end of an answer's ring at which it is given, once.
pub type Answer<J, T> = Producer<Note<J, T>, Global, Kept>;

/// The end of an answer's ring at which it is awaited. A contract sees what came out of it.
#[derive(Drop)]
pub(crate) struct Awaited<J: Job<T>, T> {
    ring: Consumer<Note<J, T>, Global, Kept>,
}

impl<J: Job<T>, T> Model for Awaited<J, T> {
    ghost use Rattle.rtrb.specs.Ring.{received};
    ghost use Rattle.rw_pool.specs.Notes.{AwaitedState};

    ghost Value = { AwaitedState J T };

    ghost view = { λ a. record { notes = received a.ring } };
}

impl<J: Job<T>, T: Drop> Awaited<J, T> {
    /// Waits until the thread has answered, and takes the answer. `None` where the thread is gone.
    pub(crate) fn wait<R: Wait>(self, rt: &R, done: &Receiver<()>) -> Option<Result<T, Refusal>>
        ensures answer { IfSome result (λ r. may_answer_with J.Gives self.notes (Done r)) }
    {
        let Awaited { mut ring } = self;
        done.recv(rt).ok()?;
        match ring.pop().ok()? {
            Note::Done(result) => Some(result),
            Note::Asked(_, _) => None,
        }
    }
}

/// The ends of an answer's ring, for what this job gives for this input: both know what was asked.
pub(crate) fn ends_of<J: Job<T>, T: Drop>(
    alloc: Global,
    job: &J,
    input: &T,
) -> Result<(Answer<J, T>, Awaited<J, T>), NoMemory>
    ensures given { IfOk result (λ r. IsAsked job.now input.now (sent r.0)) }
    ensures room { IfOk result (λ r. 1 ≤ known_free r.0) }
    ensures awaited { IfOk result (λ r. IsAsked job.now input.now r.1.notes) }
{
    let (mut answer, mut awaited) = RingBuffer::with_protocol::<Global, Kept>(alloc, 2)?;
    answer.push_reserved(Note::Asked(Snapshot::of(job), Snapshot::of(input)));
    awaited.slots_beside(&mut answer);
    let _asked = awaited.pop_known();
    Ok((answer, Awaited { ring: awaited }))
}
