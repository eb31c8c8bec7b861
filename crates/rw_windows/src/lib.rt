#![tactic(auto)]
//! Workers that execute window by window: conservative synchronization (Chandy and Misra 1979).
//!
//! Nothing is ever rolled back, so there are no undo records. A window is at least as wide as the
//! model's lookahead, since no event sends a message nearer than that. A worker owns every process
//! whose number is the worker's own modulo the number of workers, and runs in a thread of the caller's
//! pool (`rw_pool::Executor`); its job is [`Work`] and its part of the run a [`Share`].
//!
//! A worker executes its events before some time, in order. Then it sends each other worker one batch:
//! the events for that worker, and a time before which it will send nothing more, the lookahead after
//! the first event that it has or may still receive. It waits for one batch from each other worker and
//! continues to the least time that it sent or received. A step is a third of the lookahead, and
//! batches are taken two steps behind, so a worker with much to do in one step does not hold up the
//! others until it is more than two steps behind. There is a ring for each ordered pair of workers,
//! with a flag to wake a receiver that sleeps. There is no barrier and no board.
//!
//! [`run_in_windows`] splits a run among the workers and joins what they leave. The caller continues
//! from there: in windows to a later end, or with another engine such as `rw_serial::go_on`.
//!
//! Proved, for any lawful model, any lookahead that it keeps, any number of workers and any timing of
//! threads: where a run in windows answers Ok, no event before the end is left, and what is left
//! continues to the same outcome as the run's beginning would, whatever else arrives from outside, none
//! of it before the end. That workers reach the end is only tested, since they wait for one another.
//! A worker that stops early stops the others too, so none waits for it.
//!
//! Worked examples: `rw_round_tests/src/windows.rt`.

mod batch;
mod beginning;
mod domain;
mod ending;
mod exchanging;
mod parkers;
mod running;
mod share;
mod waiting;
mod work;
mod worker;

pub use running::{Left, Stage, Windows, run_in_windows};
pub use rw_pool::Halt;
pub use share::Share;
pub use work::Work;
