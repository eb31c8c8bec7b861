#![tactic(auto)]
//! Converts a log of requests into a trace that `rw_trace` can read.
//!
//! - `specs/Log.antt` defines what a log means: what each row says, which rows are kept and in which
//!   order, and which row of the trace each of them becomes.
//! - `specs/Csv.antt` covers delimited text: where the columns are, and the number that stands for an
//!   object's text. `specs/Oracle.antt` covers the binary oracle-general format.
//! - `specs/Streamed.antt` and `specs/OracleRows.antt` cover logs that are converted or run while they
//!   are read.
//!
//! Worked examples: `rw_program_tests/src/imports.rt`.

mod csv_log;
mod csv_row;
mod csv_stream;
mod entry;
mod fault;
mod first;
mod format;
mod layout;
mod numbering;
mod options;
mod oracle;
mod oracle_rows;
mod oracle_stream;
mod reading;
mod sheet;
mod spreading;
mod stream;
mod text;

pub use csv_log::import_csv;
pub use csv_row::time_of;
pub use csv_stream::stream_csv;
pub use entry::{Counts, Entry, Imported, LeftOut};
pub use fault::{Flaw, ImportFault, Losses, Part};
pub use first::{Excerpt, FirstLeftOut, Spot, Wrong};
pub use format::{Format, Opened, format_of, open_log};
pub use layout::{Column, Layout, Quotes};
pub use options::{
    DEFAULT_MAX_LEFT_OUT, DEFAULT_TICKS, Dealing, MAX_EDGES, MAX_TICKS, Options, Streaming,
    every_limit,
};
pub use oracle::import_oracle;
pub use oracle_rows::OracleRows;
pub use oracle_stream::stream_oracle;
pub use spreading::{crowded, spread};
pub use text::write_trace;
