// Logs in the oracle-general format that are run as they are read, with no trace between.
ghost use Rattle.std.specs.Prelude.{◌≡◌, ◌≢◌, IfErr, IfOk, codes, false};
ghost use Rattle.rw_trace.specs.Limits.{most_streamed_rows};
ghost use Rattle.rw_command.specs.Status.{status_of};
ghost use Rattle.rw_command.specs.Written.{IsUnset};

use crate::arguments::{Argument, Given, Value};
use crate::fault::Fault;
use crate::files::open;
use crate::source::Source;
use crate::values::invalid;
use clap::ArgMatches;
use rw_import::{
    Counts, DEFAULT_TICKS, Dealing, MAX_TICKS, Opened, Options, OracleRows, Streaming, time_of,
};
use std::alloc::Global;
use std::io::Read;

/// In which format a trace is.
pub(crate) const FROM: Argument = Argument {
    name: "from",
    value: Value::Word("FORMAT", &["trace", "oracle-general"]),
    given: Given::Or("trace"),
    help: "Its format: trace, or with --stream libCacheSim's binary oracle-general, read as import does",
};

/// How many ticks the binary log's unit of time has.
pub(crate) const TICKS: Argument = Argument {
    name: "ticks",
    value: Value::Number(MAX_TICKS as i64),
    given: Given::Maybe,
    help: "With oracle-general: ticks in a second of the log, 1 to 1000000000; 1000 by default",
};

/// How the rows of a binary log are dealt out.
pub(crate) const EDGE_BY: Argument = Argument {
    name: "edge-by",
    value: Value::Word("WHAT", &["row", "object"]),
    given: Given::Maybe,
    help: "With oracle-general: deal out row after row in turn, as by default, or each object to one edge",
};

/// When a binary log begins.
pub(crate) const EPOCH: Argument = Argument {
    name: "epoch",
    value: Value::Text("TIME"),
    given: Given::Maybe,
    help: "With oracle-general: the log's time that is tick 0, else that of the first row that has one",
};

/// Whether the options name a log in the oracle-general format, and no trace.
///
/// # Errors
///
/// [`Fault::OnlyWith`] where there is an option that goes only with one that is not there.
pub(crate) fn names_log(options: &ArgMatches<'_>) -> Result<bool, Fault>
    ensures stream { IsUnset options.now (codes "stream") → IfOk result (λ log. log ≡ false) }
    ensures unwritten { IfErr result (λ e. status_of e ≢ 8) }
{
    if options.get_str("from") == Some("oracle-general") {
        if options.get_flag("stream") {
            return Ok(true);
        }
        return Err(Fault::OnlyWith {
            option: "from oracle-general",
            with: "--stream",
        });
    }
    let ticks: Option<u64> = options.get_one("ticks");
    let option = if ticks.is_some() {
        "ticks"
    } else if options.get_str("edge-by").is_some() {
        "edge-by"
    } else if options.get_str("epoch").is_some() {
        "epoch"
    } else {
        return Ok(false);
    };
    Err(Fault::OnlyWith {
        option,
        with: "--from oracle-general",
    })
}

/// The rows of the log that the options name, dealt out to `edges` edges.
///
/// # Errors
///
/// Those of the source, [`Fault::CommandLine`] for an epoch that is no time of a log, and those of
/// [`open_log`](rw_import::open_log).
pub(crate) fn open_log<S: Source>(
    alloc: Global,
    options: &ArgMatches<'_>,
    edges: u32,
    source: &mut S,
) -> Result<OracleRows<Opened<S::Reader>>, Fault>
    ensures edges { IfOk result (λ rows. rows.edges ≡ edges) }
    ensures latest { IfOk result (λ rows. rows.latest ≡ 0) }
    ensures most { IfOk result (λ rows. rows.most ≡ most_streamed_rows) }
    ensures unwritten { IfErr result (λ e. status_of e ≢ 8) }
{
    let dealing = match options.get_str("edge-by") {
        Some("object") => Dealing::ByObject,
        _ => Dealing::ByRow,
    };
    let ticks = options.get_one("ticks").unwrap_or(DEFAULT_TICKS);
    let streaming = Streaming {
        options: Options::new(ticks, edges, dealing, false).ok_or(Fault::Plan)?,
        epoch: epoch(alloc, options)?,
    };
    let reader = open(options, "trace", source)?;
    let log = rw_import::open_log(alloc, reader)?;
    Ok(OracleRows::open(alloc, log, &streaming)?)
}

/// The log time that is tick 0, in billionths of its unit, where the options name one.
///
/// # Errors
///
/// [`Fault::CommandLine`] where it is no time of a log, and `Memory`.
pub(crate) fn epoch(alloc: Global, options: &ArgMatches<'_>) -> Result<Option<u128>, Fault>
    ensures unwritten { IfErr result (λ e. status_of e ≢ 8) }
{
    let Some(text) = options.get_str("epoch") else {
        return Ok(None);
    };
    match time_of(text.as_bytes()) {
        Some(time) => Ok(Some(time)),
        None => Err(invalid(
            alloc,
            text,
            "epoch",
            "a time as the log has them, with up to 9 decimals",
        )),
    }
}

/// How many records of a log were kept, and how many were left out.
pub(crate) fn counts_of<R: Read + Drop>(rows: &OracleRows<R>) -> Counts {
    Counts {
        kept: rows.kept(),
        clamped: 0,
        left_out: rows.left_out(),
    }
}
