ghost use Rattle.std.specs.Prelude.{◌≡◌, IfOk};
ghost use Rattle.std.specs.Arc.{arc_value};
ghost use Rattle.rw_pool.specs.Notes.{IsAsked};
ghost use Rattle.rw_pool.specs.Tasks.{IsTask};

use crate::job::Job;
use crate::note::{Answer, Awaited, Note, ends_of};
use rtrb::Protocol;
use rw_vt::NoMemory;
use std::alloc::Global;
use std::sync::Arc;

/// What is submitted to a thread of a pool, to be run once.
pub trait Runnable {
    /// Which may be run.
    ghost MayRun: { Self → Type 0 };

    /// Runs it.
    fn run(self)
        requires fits { MayRun self };
}

/// The protocol of submitted tasks: each may be run.
pub(crate) struct OnlyRunnable;

impl<X: Runnable> Protocol<X> for OnlyRunnable {
    ghost allows = { λ _. X.MayRun };
}

/// What a pool is submitted, where tasks of type `K` are among it.
pub trait FromTask<K: Runnable>: Runnable {
    /// This task.
    fn from_task(task: K) -> Self
        requires fits { K.MayRun task }
        ensures fits { Self.MayRun result };
}

impl<K: Runnable> FromTask<K> for K {
    fn from_task(task: K) -> K {
        task
    }
}

/// A job to do with an input, and where the answer goes: an [`Answer`], which is a parameter since a struct may move where its
/// parameters may.
#[derive(Drop)]
pub struct Task<J, T, A> {
    job: Arc<J>,
    input: T,
    answer: A,
}

impl<J: Job<T> + Drop, T: Drop> Runnable for Task<J, T, Answer<J, T>> {
    ghost use Rattle.rw_pool.specs.Tasks.{IsTask};

    ghost MayRun = { IsTask J.Takes };

    /// Does the job, and answers.
    fn run(self) {
        let Task {
            job,
            input,
            mut answer,
        } = self;
        let result = job.run(input);
        // The owner of the pool has the only other handle then.
        drop(job);
        answer.push_reserved(Note::Done(result));
    }
}

/// A task of this job.
pub type JobTask<J, T> = Task<J, T, Answer<J, T>>;

/// A task, and where its answer comes.
pub(crate) fn ask<J: Job<T> + Drop, T: Drop>(
    alloc: Global,
    job: Arc<J>,
    input: T,
) -> Result<(JobTask<J, T>, Awaited<J, T>), NoMemory>
    requires takes { J.Takes (arc_value job) input }
    ensures task { IfOk result (λ r. IsTask J.Takes r.0) }
    ensures asked { IfOk result (λ r. IsAsked (arc_value job) input r.1.notes) }
{
    let (answer, awaited) = ends_of(alloc, &*job, &input)?;
    Ok((Task { job, input, answer }, awaited))
}
