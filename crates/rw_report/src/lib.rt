#![tactic(auto)]
//! What goes out of a run of a trace: the report, a table over time, or the journal; and the run on one
//! thread that the report speaks of.
//!
//! Text goes out through an [`Out`], which counts the writes that fail. A [`SimFault`] says why there is
//! no text, whichever engine ran the trace.
//!
//! [`replay`] reads a trace, runs it on one thread and writes its report. The other engines share its
//! parts: [`beginning`] reads a trace and returns the caches as they start and the requests,
//! [`beginning_of_rows`] does the same for rows already read, [`last_states_of_rows`] runs rows in order
//! of time, and [`report`] makes the text. `rw_ripqwarp::simulate` combines these parts with the engines.
//!
//! [`replay_stream`] reads a trace while it runs it, [`replay_rows`] runs the rows of any source, and
//! [`replay_over_time`] runs a trace in memory; an [`Outlook`] says what they report. Inside, a [`Run`]
//! takes rows as they come and can advance to any time, a [`Recording`] stores the [`Moment`]s at its
//! [`Marks`] on the way, and [`tell`] turns them into a report or a table, in a [`Format`].
//!
//! [`schedule`] parses the steps of a run by hand, and [`journal`] writes what they lead to.
//! [`World::run_steps`](rw_world::World::run_steps) makes the steps, so this crate needs no engine.
//!
//! Worked examples: `rw_program_tests/src/reports.rt`, and the cases of `rw_cases`.

mod cache_table;
mod columns;
mod format;
mod intervals;
mod journal_text;
mod moments;
mod output;
mod recording;
mod replaying;
mod report_text;
mod run;
mod running;
mod schedule_text;
mod sim_fault;
mod streaming;
mod sums;
mod with_progress;

pub use columns::{
    Caches, Measured, caches_name, totals, write_columns, write_counts, write_decimals,
    write_number, write_ratio,
};
pub use format::{Format, json_lines};
pub use intervals::{Outlook, counted_from, intervals_header, tell, write_intervals};
pub use journal_text::journal;
pub use moments::{Marks, Moment, counters_of};
pub use output::Out;
pub use recording::Recording;
pub use replaying::{beginning, beginning_of_rows, last_states_of_rows, starts};
pub use report_text::{report, report_of_counters, report_of_states, write_count};
pub use run::Run;
pub use running::{replay, replay_over_time, replay_rows, replay_stream, report_of_trace};
pub use rw_photo::{Body, CacheState, Config};
pub use rw_trace::{OrderedRows, Row, RowsFault, TraceFault};
pub use rw_vt::{Event, NoMemory, Outcome, Refusal};
pub use schedule_text::{ScheduleFault, schedule};
pub use sim_fault::SimFault;
pub use streaming::{record_rows, record_stream};
pub use with_progress::{WithProgress, begin_events, begin_rows};
