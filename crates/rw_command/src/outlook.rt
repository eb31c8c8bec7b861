// The options that say how a trace is read and what is reported of its run.
ghost use Rattle.std.specs.Prelude.{◌≡◌, ◌≢◌, IfErr, IfOk, None, Ok, codes};
ghost use Rattle.rw_command.specs.Status.{status_of};
ghost use Rattle.rw_command.specs.Written.{HasNoValue};

use crate::arguments::{Argument, Given, Value};
use crate::caches::ticks_a_second;
use crate::fault::Fault;
use crate::values::{Quantity, number_if_given};
use clap::ArgMatches;
use rw_report::{Format, Outlook};
use rw_vt::END;
use std::alloc::Global;

/// The trace.
pub(crate) const TRACE: Argument = Argument {
    name: "trace",
    value: Value::File("TRACE"),
    given: Given::Always,
    help: TRACE_HELP,
};

/// What the help says of the trace.
pub(crate) const TRACE_HELP: &str =
    "The trace: CSV under time,edge,object,size and, for purges, kind; - is standard input";

/// Whether no progress is shown.
pub(crate) const QUIET: Argument = Argument {
    name: "quiet",
    value: Value::Flag,
    given: Given::Maybe,
    help: "Do not show progress on a terminal",
};

/// Whether the trace is read as it is run.
pub(crate) const STREAM: Argument = Argument {
    name: "stream",
    value: Value::Flag,
    given: Given::Maybe,
    help: "Read the trace as it runs, in little memory; its rows must be in order of time",
};

/// How long the intervals of a table are.
pub(crate) const EVERY: Argument = Argument {
    name: "every",
    value: Value::Text("TIME"),
    given: Given::Maybe,
    help: "Print a CSV table over time instead: what was counted in each interval of this many ticks",
};

/// The format of the output.
pub(crate) const FORMAT: Argument = Argument {
    name: "format",
    value: Value::Word("FORMAT", &["text", "csv", "json"]),
    given: Given::Maybe,
    help: "Output format: text, the default, in which tables are CSV; csv, with a header; json, an object a line",
};

/// When counting starts.
pub(crate) const WARM_UP: Argument = Argument {
    name: "warm-up",
    value: Value::Text("TIME"),
    given: Given::Maybe,
    help: "Count only from this tick on, when the caches are warm",
};

/// The names of these options, which `warp` and `journal` do not take.
pub(crate) const OUTLOOK: [&str; 4] = ["stream", "every", "warm-up", "format"];

/// What the options ask to be reported of a run.
///
/// # Errors
///
/// Those of [`number_if_given`].
pub(crate) fn outlook(alloc: Global, options: &ArgMatches<'_>) -> Result<Outlook, Fault>
    ensures warm_up { HasNoValue options.now (codes "warm-up")
        → IfOk result (λ o. o.warm_up ≡ None) }
    ensures every { HasNoValue options.now (codes "every") → IfOk result (λ o. o.every ≡ None) }
    ensures format { HasNoValue options.now (codes "format")
        → IfOk result (λ o. o.format ≡ Format.Text) }
    ensures unwritten { IfErr result (λ e. status_of e ≢ 8) }
{
    let time = Quantity::ticks(END, ticks_a_second(options));
    let warm_up = number_if_given(alloc, options, "warm-up", time)?;
    let every = number_if_given(alloc, options, "every", time)?;
    let format = format(options)?;
    Ok(Outlook {
        warm_up,
        every,
        format,
    })
}

/// The format that the options ask for.
///
/// # Errors
///
/// [`Fault::Plan`] where it is none of the words that the command line takes.
pub(crate) fn format(options: &ArgMatches<'_>) -> Result<Format, Fault>
    ensures text { HasNoValue options.now (codes "format") → result ≡ Ok Format.Text }
    ensures unwritten { IfErr result (λ e. status_of e ≢ 8) }
{
    match options.get_str("format") {
        None | Some("text") => Ok(Format::Text),
        Some("csv") => Ok(Format::Csv),
        Some("json") => Ok(Format::Json),
        Some(_) => Err(Fault::Plan),
    }
}
