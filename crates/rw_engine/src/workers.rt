ghost use Rattle.std.specs.Prelude.{◌≡◌, ◌<◌, All, IfOk, length, slice_index_or};
ghost use Rattle.rw_vt.specs.Words.{Position};

use rw_exchange::Port;
use rw_pool::{
    Executor, FromTask, Halt, Job, JobTask, Runnable, TaskPool, alone_for_tasks, grow_for_tasks,
    may_move, run_each,
};
use rw_rounds::{Open, RoundWork, Worker};
use rw_vt::{Letter, Model as VtModel};
use rw_windows::{Share, Work};
use std::alloc::Global;
use std::sync::Wait;
use std::thread::{Scope, Threads};

/// A task of a worker in rounds or in windows. The types of both are parameters, since an enum may move where its parameters may.
#[derive(Drop)]
enum WorkerTask<A, B> {
    Rounds(A),
    Windows(B),
}

impl<A: Runnable, B: Runnable> Runnable for WorkerTask<A, B> {
    ghost use Rattle.rw_engine.specs.Tasks.{may_run};

    ghost MayRun = { may_run A.MayRun B.MayRun };

    fn run(self) {
        match self {
            WorkerTask::Rounds(task) => task.run(),
            WorkerTask::Windows(task) => task.run(),
        }
    }
}

/// A task of a worker in rounds.
type RoundsTask<M> = JobTask<RoundWork<M, Open>, Worker<M>>;

/// A task of a worker in windows.
type WindowsTask<'r, M, R> = JobTask<Work<'r, M, R>, Share<M>>;

impl<'r, M: VtModel + Drop, R: Wait> FromTask<RoundsTask<M>>
    for WorkerTask<RoundsTask<M>, WindowsTask<'r, M, R>> {
    fn from_task(task: RoundsTask<M>) -> WorkerTask<RoundsTask<M>, WindowsTask<'r, M, R>> {
        WorkerTask::Rounds(task)
    }
}

impl<'r, M: VtModel + Drop, R: Wait> FromTask<WindowsTask<'r, M, R>>
    for WorkerTask<RoundsTask<M>, WindowsTask<'r, M, R>> {
    fn from_task(task: WindowsTask<'r, M, R>) -> WorkerTask<RoundsTask<M>, WindowsTask<'r, M, R>> {
        WorkerTask::Windows(task)
    }
}

/// A pool of tasks of two jobs. What they consist of are the parameters, by which it is known how long each type lives.
type BothPool<'r, R, J, T, K, U> = TaskPool<'r, R, WorkerTask<JobTask<J, T>, JobTask<K, U>>>;

/// The calling thread alone. Takes no memory.
fn pool_for_both<'r, R, J, T, K, U>(rt: &'r R, alloc: Global) -> BothPool<'r, R, J, T, K, U>
where
    J: Job<T> + Drop,
    K: Job<U> + Drop,
    T: Drop,
    U: Drop,
{
    alone_for_tasks(rt, alloc)
}

/// Starts threads of a scope until there are `count`, the calling one among them.
///
/// # Errors
///
/// Those of [`start`].
fn grow_for_both<'s, E, R, J, T, K, U>(
    pool: &mut BothPool<'s, R, J, T, K, U>,
    scope: &Scope<'s, E>,
    alloc: Global,
    count: usize,
) -> Result<(), Halt>
where
    R: Threads + Wait + Sync,
    J: Job<T> + Send + Sync + Drop + 's,
    K: Job<U> + Send + Sync + Drop + 's,
    T: Send + Drop + 's,
    U: Send + Drop + 's,
{
    grow_for_tasks(pool, scope, alloc, count)
}

/// Ends the threads, once they have done what they do.
fn end_for_both<'r, R, J, T, K, U>(_pool: BothPool<'r, R, J, T, K, U>)
where
    J: Job<T> + Drop,
    K: Job<U> + Drop,
    T: Drop,
    U: Drop,
{}

/// Does a job, one of the two, as an [`Executor`] does.
///
/// # Errors
///
/// Those of [`Executor::run_each`].
fn run_for_both<'r, R, J, T, K, U, L, V>(
    pool: &mut BothPool<'r, R, J, T, K, U>,
    alloc: Global,
    job: L,
    inputs: Vec<V>,
) -> Result<(L, Vec<V>), Halt>
where
    R: Wait,
    J: Job<T> + Drop,
    K: Job<U> + Drop,
    T: Drop,
    U: Drop,
    L: Job<V> + Drop,
    V: Drop,
    WorkerTask<JobTask<J, T>, JobTask<K, U>>: FromTask<JobTask<L, V>>,
    requires takes { All (λ t. L.Takes job t) inputs.items }
    ensures job { IfOk result (λ r. r.0 ≡ job) }
    ensures count { IfOk result (λ r. length r.1.items ≡ length inputs.items) }
    ensures each { IfOk result (λ r. (i : Position) (d : _) (e : _) → i < length inputs.items
        → L.Gives job (slice_index_or inputs.items i d) (slice_index_or r.1.items i e)) }
{
    run_each(pool, alloc, job, inputs)
}

/// The threads of a run, the calling one among them, which do the work of its workers in rounds and in windows.
pub(crate) struct Workers<'r, M: VtModel + Drop, R: Wait> {
    pool: BothPool<'r, R, RoundWork<M, Open>, Worker<M>, Work<'r, M, R>, Share<M>>,
}

/// The calling thread alone. Takes no memory.
pub(crate) fn alone<'r, M: VtModel + Drop, R: Wait>(rt: &'r R, alloc: Global) -> Workers<'r, M, R> {
    Workers {
        pool: pool_for_both(rt, alloc),
    }
}

/// Starts threads of a scope until there are as many as there are workers, the calling thread among them.
///
/// # Errors
///
/// `NoThread` where the start of a thread was refused, and `Memory` where memory was.
pub(crate) fn start<'s, E, M, R>(
    workers: &mut Workers<'s, M, R>,
    scope: &Scope<'s, E>,
    alloc: Global,
    count: usize,
) -> Result<(), Halt>
where
    M: VtModel + Drop + Send + Sync + 's,
    M::State: Send,
    M::Body: Send,
    M::Undo: Send,
    R: Threads + Wait + Sync,
{
    // On this rests that a worker may move.
    may_move::<Port<Letter<M::Body>>>();
    grow_for_both(&mut workers.pool, scope, alloc, count)
}

/// Ends the threads, once they have done what they do.
pub(crate) fn end<'r, M: VtModel + Drop, R: Wait>(workers: Workers<'r, M, R>) {
    let Workers { pool } = workers;
    end_for_both(pool);
}

impl<'r, M: VtModel + Drop, R: Wait> Executor<RoundWork<M, Open>, Worker<M>> for Workers<'r, M, R> {
    fn run_each(
        &mut self,
        alloc: Global,
        job: RoundWork<M, Open>,
        inputs: Vec<Worker<M>>,
    ) -> Result<(RoundWork<M, Open>, Vec<Worker<M>>), Halt>
        requires takes { All (λ t. ⟦<RoundWork<M, Open> as Job<Worker<M>>>⟧.Takes job t)
            inputs.items }
        ensures job { IfOk result (λ r. r.0 ≡ job) }
        ensures count { IfOk result (λ r. length r.1.items ≡ length inputs.items) }
        ensures each { IfOk result (λ r. (i : Position) (d : _) (e : _) → i < length inputs.items
            → ⟦<RoundWork<M, Open> as Job<Worker<M>>>⟧.Gives job
            (slice_index_or inputs.items i d) (slice_index_or r.1.items i e)) }
    {
        run_for_both(&mut self.pool, alloc, job, inputs)
    }
}

impl<'r, M: VtModel + Drop, R: Wait> Executor<Work<'r, M, R>, Share<M>> for Workers<'r, M, R> {
    fn run_each(
        &mut self,
        alloc: Global,
        job: Work<'r, M, R>,
        inputs: Vec<Share<M>>,
    ) -> Result<(Work<'r, M, R>, Vec<Share<M>>), Halt>
        requires takes { All (λ t. ⟦<Work<'r, M, R> as Job<Share<M>>>⟧.Takes job t) inputs.items }
        ensures job { IfOk result (λ r. r.0 ≡ job.entry) }
        ensures count { IfOk result (λ r. length r.1.items ≡ length inputs.items) }
        ensures each { IfOk result (λ r. (i : Position) (d : _) (e : _) → i < length inputs.items
            → ⟦<Work<'r, M, R> as Job<Share<M>>>⟧.Gives job.entry
            (slice_index_or inputs.items i d) (slice_index_or r.1.items i e)) }
    {
        run_for_both(&mut self.pool, alloc, job, inputs)
    }
}
