ghost use Rattle.std.specs.Prelude.{◌≡◌, ◌<◌, All, IfOk, length, slice_index_or};
ghost use Rattle.std.specs.List.{AllZip};
ghost use Rattle.std.specs.Vec.{vec_capacity, vec_len};
ghost use Rattle.std.specs.Arc.{arc_value};
ghost use Rattle.rw_vt.specs.Words.{Position};
ghost use Rattle.rw_pool.specs.Notes.{IsAsked, may_answer_with};
ghost use Rattle.rw_pool.specs.declared.note.Note.TheVariants.{Done};

use crate::executor::Executor;
use crate::halt::Halt;
use crate::job::{Job, outputs_of};
use crate::note::Awaited;
use crate::task::{FromTask, JobTask, OnlyRunnable, Runnable, ask};
use crossbeam_channel::{Receiver, Sender};
use rtrb::{Consumer, Producer, RingBuffer};
use rw_vt::Refusal;
use std::alloc::Global;
use std::sync::{Arc, Wait};
use std::thread::{Scope, Threads};

/// What a thread of a pool does: a task whenever it is woken, until the pool is gone.
fn run_tasks<X: Runnable + Drop, R: Wait>(
    rt: &R,
    wake: Receiver<()>,
    tasks: Consumer<X, Global, OnlyRunnable>,
    done: Sender<()>,
) {
    let mut tasks = tasks;
    for _ in rt.forever() {
        if wake.recv(rt).is_err() {
            return;
        }
        let Ok(task) = tasks.pop() else {
            return;
        };
        task.run();
        if done.send(rt, ()).is_err() {
            return;
        }
    }
}

/// A thread of a pool, as the pool's owner sees it.
#[derive(Drop)]
struct PoolThread<X: Runnable> {
    /// Wakes the thread for each task.
    wake: Sender<()>,
    tasks: Producer<X, Global, OnlyRunnable>,
    /// Wakes the owner for each answer.
    done: Receiver<()>,
}

/// Threads that stay for one task after another, and end with the pool.
#[derive(Drop)]
pub struct TaskPool<'r, R, X: Runnable + Drop> {
    /// With what the calling thread waits.
    rt: &'r R,
    threads: Vec<PoolThread<X>>,
}

/// Threads that do one job after another, all of one kind.
pub type Pool<'r, R, J, T> = TaskPool<'r, R, JobTask<J, T>>;

/// A pool of the calling thread alone. Takes no memory.
pub fn alone<'r, R, J: Job<T> + Drop, T: Drop>(rt: &'r R, alloc: Global) -> Pool<'r, R, J, T> {
    alone_for_tasks(rt, alloc)
}

/// [`alone`] for a pool of tasks of several jobs. Takes no memory.
pub fn alone_for_tasks<'r, R, X: Runnable + Drop>(rt: &'r R, alloc: Global) -> TaskPool<'r, R, X> {
    TaskPool {
        rt,
        threads: Vec::new(alloc),
    }
}

/// Ends the threads of a pool, once they have done what they do.
///
/// A caller that is generic in these types calls this in place of dropping the pool, since what a drop requires of the lifetimes
/// is known here.
pub fn shut_down<'r, R, J: Job<T> + Drop, T: Drop>(_pool: Pool<'r, R, J, T>) {}

/// Starts threads of a scope until the pool has `count`, the calling one among them.
///
/// # Errors
///
/// `NoThread` where the start of a thread was refused, and `Memory` where memory was.
pub fn grow<'s, E, R, J, T>(
    pool: &mut Pool<'s, R, J, T>,
    scope: &Scope<'s, E>,
    alloc: Global,
    count: usize,
) -> Result<(), Halt>
where
    R: Threads + Wait + Sync,
    J: Job<T> + Send + Sync + Drop + 's,
    T: Send + Drop + 's,
{
    grow_for_tasks(pool, scope, alloc, count)
}

/// [`grow`] for a pool of tasks of several jobs.
///
/// # Errors
///
/// Those of `grow`.
pub fn grow_for_tasks<'s, E, R, X>(
    pool: &mut TaskPool<'s, R, X>,
    scope: &Scope<'s, E>,
    alloc: Global,
    count: usize,
) -> Result<(), Halt>
where
    R: Threads + Wait + Sync,
    X: Runnable + Send + Drop + 's,
{
    for _ in pool.threads.len() + 1..count {
        let thread = start_thread(pool.rt, scope, alloc)?;
        pool.threads.push(thread)?;
    }
    Ok(())
}

/// Starts a thread.
fn start_thread<'s, E, R, X>(
    rt: &'s R,
    scope: &Scope<'s, E>,
    alloc: Global,
) -> Result<PoolThread<X>, Halt>
where
    R: Threads + Wait + Sync,
    X: Runnable + Send + Drop + 's,
{
    let (wake, woken) = crossbeam_channel::bounded(alloc, 1)?;
    let (ready, done) = crossbeam_channel::bounded(alloc, 1)?;
    let (tasks, submitted) = RingBuffer::with_protocol::<Global, OnlyRunnable>(alloc, 1)?;
    if scope
        .spawn(move || run_tasks(rt, woken, submitted, ready))
        .is_err()
    {
        return Err(Halt::NoThread);
    }
    Ok(PoolThread { wake, tasks, done })
}

impl<'r, R: Wait, J: Job<T> + Drop, T: Drop> Executor<J, T> for TaskPool<'r, R, JobTask<J, T>> {
    fn run_each(&mut self, alloc: Global, job: J, inputs: Vec<T>) -> Result<(J, Vec<T>), Halt>
        requires takes { All (λ t. J.Takes job t) inputs.items }
        ensures job { IfOk result (λ r. r.0 ≡ job) }
        ensures count { IfOk result (λ r. length r.1.items ≡ length inputs.items) }
        ensures each { IfOk result (λ r. (i : Position) (d : _) (e : _) → i < length inputs.items
            → J.Gives job (slice_index_or inputs.items i d) (slice_index_or r.1.items i e)) }
    {
        run_each(self, alloc, job, inputs)
    }
}

/// [`Executor::run_each`] by a pool of tasks of several jobs, of which this is one.
///
/// # Errors
///
/// Those of [`Executor::run_each`].
pub fn run_each<'r, R: Wait, X: FromTask<JobTask<J, T>> + Drop, J: Job<T> + Drop, T: Drop>(
    pool: &mut TaskPool<'r, R, X>,
    alloc: Global,
    job: J,
    inputs: Vec<T>,
) -> Result<(J, Vec<T>), Halt>
    requires takes { All (λ t. J.Takes job t) inputs.items }
    ensures job { IfOk result (λ r. r.0 ≡ job) }
    ensures count { IfOk result (λ r. length r.1.items ≡ length inputs.items) }
    ensures each { IfOk result (λ r. (i : Position) (d : _) (e : _) → i < length inputs.items
        → J.Gives job (slice_index_or inputs.items i d) (slice_index_or r.1.items i e)) }
{
    let mut others = inputs;
    let Some(own) = others.pop() else {
        return Ok((job, Vec::new(alloc)));
    };
    let job = Arc::new(alloc, job)?;
    let awaited = submit_each(alloc, pool.rt, &mut pool.threads, &job, others)?;
    let result = job.run(own);
    let mut results = wait_for_each(alloc, pool.rt, &pool.threads, awaited)?;
    results.push_reserved(result);
    let Some(job) = Arc::into_inner(job) else {
        return Err(Halt::NoThread);
    };
    let done = outputs_of(alloc, results)?;
    Ok((job, done))
}

/// Submits the job with each of these inputs, and gives where the answers come, in order.
fn submit_each<X: FromTask<JobTask<J, T>> + Drop, J: Job<T> + Drop, T: Drop, R: Wait>(
    alloc: Global,
    rt: &R,
    threads: &mut [PoolThread<X>],
    job: &Arc<J>,
    inputs: Vec<T>,
) -> Result<Vec<Awaited<J, T>>, Halt>
    requires takes { All (λ t. J.Takes (arc_value job.now) t) inputs.items }
    ensures asked { IfOk result (λ r.
        AllZip (λ t a. IsAsked (arc_value job.now) t a.notes) inputs.items r.items) }
{
    let mut awaited = Vec::with_capacity(alloc, inputs.len())?;
    for input in inputs {
        let Some(thread) = threads.get_mut(awaited.len()) else {
            return Err(Halt::NoThread);
        };
        let answer = submit(alloc, thread, job, input)?;
        if thread.wake.send(rt, ()).is_err() {
            return Err(Halt::NoThread);
        }
        awaited.push_reserved(answer);
    }
    Ok(awaited)
}

/// Submits the job with an input to one thread, without waking it, and gives where the answer comes.
fn submit<X: FromTask<JobTask<J, T>> + Drop, J: Job<T> + Drop, T: Drop>(
    alloc: Global,
    thread: &mut PoolThread<X>,
    job: &Arc<J>,
    input: T,
) -> Result<Awaited<J, T>, Halt>
    requires takes { J.Takes (arc_value job.now) input }
    ensures asked { IfOk result (λ r. IsAsked (arc_value job.now) input r.notes) }
{
    let (task, answer) = ask(alloc, Arc::try_clone(job)?, input)?;
    if thread.tasks.push(X::from_task(task)).is_err() {
        return Err(Halt::NoThread);
    }
    Ok(answer)
}

/// Waits for the answers, and gives them in order, with room for one more.
fn wait_for_each<X: Runnable + Drop, J: Job<T> + Drop, T: Drop, R: Wait>(
    alloc: Global,
    rt: &R,
    threads: &[PoolThread<X>],
    awaited: Vec<Awaited<J, T>>,
) -> Result<Vec<Result<T, Refusal>>, Halt>
    ensures answers { IfOk result (λ r.
        AllZip (λ a done. may_answer_with J.Gives a.notes (Done done)) awaited.items r.items) }
    ensures room { IfOk result (λ r. vec_len r < vec_capacity r) }
{
    let mut results = Vec::with_capacity(alloc, awaited.len() + 1)?;
    for mut answer in awaited {
        let Some(thread) = threads.get(results.len()) else {
            return Err(Halt::NoThread);
        };
        let Some(result) = answer.wait(rt, &thread.done) else {
            return Err(Halt::NoThread);
        };
        results.push_reserved(result);
    }
    Ok(results)
}
