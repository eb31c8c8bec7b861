#![tactic(auto)]
//! The command line: from the program's words to its output and exit status.
//!
//! Each command has a module of its own, with its arguments, its examples and what it does; `caches.rt`,
//! `outlook.rt` and `logs.rt` have what several commands take. `entries.rt` is the table of commands, of
//! which `clap` reads the words, and the manual page and completions are made. A [`Fault`] says why a
//! command did not do what its words ask, and has an exit status; `hint.rt` says more of it.
//!
//! Which statuses [`command`] can answer, when it answers that the output failed, and what it has
//! written where it answers neither that nor 0 are its clauses. `specs/Status.antt` is the table of
//! faults and statuses, `specs/Left.antt` what a command that fails may have written, and
//! `specs/Written.antt` what [`run_serial`] has written. What numbers the options of a plan say is in
//! `specs/Said.antt`.
//!
//! Worked examples: `rw_program_tests/src/commands.rt`, and the cases of `rw_cases`.

mod arguments;
mod caches;
mod command_line;
mod completions;
mod entries;
mod fault;
mod files;
mod generate;
mod hint;
mod import;
mod inputs;
mod join;
mod journal;
mod lines;
mod logs;
mod manual;
mod options_file;
mod outlook;
mod plot;
mod program;
mod reader;
mod serial;
mod size;
mod source;
mod stderr;
mod sweep;
mod values;
mod warp;

pub use clap::ArgMatches;
pub use command_line::{command, command_at};
pub use fault::Fault;
pub use inputs::Inputs;
pub use program::words;
pub use reader::Reader;
pub use rw_report::{Out, ScheduleFault, SimFault};
pub use serial::run_serial;
pub use source::{Source, SourceFault};
pub use stderr::Stderr;
