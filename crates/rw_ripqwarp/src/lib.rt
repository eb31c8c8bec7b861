#![tactic(auto)]
//! The program as a library: from the bytes of a trace to the bytes of a report, or of a journal for a
//! schedule.
//!
//! [`simulate`] runs a trace in any mode: on one thread with [`rw_report::report_of_trace`], and with the
//! engine in rounds or by steps. Three calls have the main theorems: [`execute_and_reverse`], that rollback is
//! exact; [`any_schedule`], that the committed events are those of executing in order; and the clause
//! `report` of `simulate`, that a threaded run writes the report of the sequential run.
//!
//! Worked examples: `rw_program_tests/src/reports.rt`, and the cases of `rw_cases`.

mod headline;
mod mode;
mod rounds;
mod simulation;
mod steps;

pub use headline::{any_schedule, execute_and_reverse, one_report};
pub use mode::Mode;
pub use rounds::why_it_stopped;
pub use rw_engine::{Answer, Plan, Step, Traffic, World};
pub use rw_photo::{Body, CacheState, Config, Levels, Photo, Policy, Shape};
pub use rw_report::{
    Out, ScheduleFault, SimFault, beginning, beginning_of_rows, last_states_of_rows, report,
    schedule,
};
pub use rw_trace::TraceFault;
pub use rw_vt::{Event, NoMemory, Outcome, Refusal};
pub use simulation::{TraceRun, simulate, simulate_with_progress};
