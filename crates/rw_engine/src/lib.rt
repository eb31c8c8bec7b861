#![tactic(auto)]
//! The engines' entry points, for every lawful model: [`run_in`] runs it sequentially on one thread, or
//! with workers that run ahead and roll back (Time Warp: Jefferson 1985), and [`run_by_steps`] by the
//! steps of a schedule.
//!
//! Sequential runs and runs with workers end in the same states. In a run by steps, whatever the steps,
//! the committed events are those of executing all events in order of time. A model implements the
//! trait [`Model`].
//!
//! Worked examples: `rw_round_tests/src/phold_runs.rt` and `src/made_models.rt`, and the program `phold`.

mod alone;
mod controller;
mod how;
mod output;
mod rounds;
mod run;
mod running;
mod start;
mod workers;

pub use alone::{run_alone, run_alone_from};
pub use how::How;
pub use output::{Output, run_with_output};
pub use rounds::{run_in_rounds, run_in_rounds_from};
pub use running::{run_by_steps, run_in};
pub use rw_rounds::{Plan, Stop, Traffic};
pub use rw_serial::Source;
pub use rw_vt::{END, Event, Lookahead, Model, NoMemory, Refusal};
pub use rw_world::{Answer, Step, World};
pub use start::Start;
