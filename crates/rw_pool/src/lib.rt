#![tactic(auto)]
//! A thread pool: jobs that run in threads of their own, and lists that are split among workers and
//! joined again.

mod executor;
mod halt;
mod job;
mod note;
mod pool;
mod shares;
mod task;

pub use executor::Executor;
pub use halt::Halt;
pub use job::{Job, may_move};
pub use pool::{Pool, TaskPool, alone, alone_for_tasks, grow, grow_for_tasks, run_each, shut_down};
pub use shares::{deal_out, first_of, join};
pub use task::{FromTask, JobTask, Runnable};
