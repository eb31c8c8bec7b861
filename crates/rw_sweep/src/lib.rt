#![tactic(auto)]
//! Runs one trace under many configurations and writes a table with three lines for each.
//!
//! A [`Grid`] is every combination of the values of some [`Axes`]. [`sweep`] runs a trace under all of
//! them, or under a [`Part`], so that several machines can share a sweep; several run at a time. The table
//! tells what the edges, the origins and all caches have counted (`specs/Sweep.antt`, `specs/Parts.antt`,
//! `specs/Table.antt`), or what else an [`Outlook`] asks for: a table over time, the counts after a
//! warm-up, or either as JSON Lines (`specs/OverTime.antt`). [`list`] says which configurations a part has.
//!
//! Each line ends in what was run. `drive_writes_a_day` is how often a day the caches wrote as many bytes
//! as their flash has, from the end of the warm-up, or else from the earliest row, to the latest row; it
//! is empty where [`Axes`] do not say how many ticks a second has. `reclaim` is 0 or 1, `warm_up` the
//! tick from which was counted and `ticks_a_second` what was given, both 0 for none. `rows`, `span`
//! (from the earliest row to the latest, in ticks) and `digest` are those of the trace. The digest
//! tells traces apart and is no cryptographic one (`specs/Facts.antt`).
//!
//! [`sweep_stream`] reads the trace once, while it runs, in little memory (`specs/Streams.antt`), and
//! [`sweep_rows`] runs the rows of any source.
//!
//! [`join`] reads parts, and writes all lines in the order of their places, without the places.
//! `specs/Joining.antt` and `specs/Join.antt` define what a part means and what the parts become.
//!
//! Worked examples: `rw_program_tests/src/sweeps.rt` and `joins.rt`.

mod axes;
mod batch;
mod choice;
mod chosen;
mod entry;
mod facts;
mod grid;
mod in_memory;
mod joiner;
mod listing;
mod ongoing;
mod over_time;
mod part;
mod point;
mod point_text;
mod running;
mod sizing;
mod streaming;
mod sweeping;
mod table;
mod waves;
mod working;

pub use axes::Axes;
pub use choice::Choice;
pub use grid::{Grid, GridFault, MAX_CONFIGURATIONS};
pub use in_memory::sweep;
pub use joiner::{JoinFault, join, join_of_parts};
pub use listing::list;
pub use over_time::{sweep_rows, sweep_stream};
pub use part::{Part, parts_make_the_sweep};
pub use rw_report::{Caches, Outlook};
pub use sizing::{Answer, Search, Tier, Try, size};
pub use sweeping::{MAX_WORKERS, Sweeping, every_limit};
pub use table::header_text;
