// From a log to a trace.
ghost use Rattle.std.specs.Prelude.{◌≡◌, ◌≢◌, ◌↔◌, ◌⊎◌, IfErr, IfSome, IsErrAnd};
ghost use Rattle.rw_command.specs.Left.{LeavesNoTrace};
ghost use Rattle.rw_command.specs.Status.{status_of};

use crate::arguments::{Argument, Given, Value};
use crate::entries::{Entry, Hints};
use crate::fault::Fault;
use crate::files::{open, read, write};
use crate::logs::epoch;
use crate::options_file::OPTIONS;
use crate::outlook::QUIET;
use crate::source::Source;
use crate::stderr::Stderr;
use crate::values::invalid;
use clap::ArgMatches;
use rw_import::{
    Column, Counts, Dealing, ImportFault, Imported, Layout, MAX_TICKS, Options, Quotes, Streaming,
    format_of, import_csv, import_oracle, open_log, stream_csv, stream_oracle,
};
use rw_photo::Config;
use rw_progress::{Measure, Progress};
use rw_report::Out;
use rw_trace::MAX_SIZE;
use std::alloc::Global;
use std::hash::RandomState;
use std::io::Write;
use std::random::RandomSource;
use std::time::Clock;

/// The command.
static ENTRY: Entry = Entry {
    name: "import",
    about: "Reads a log and prints it as a trace",
    examples: "Examples:
  ripqwarp import --time ts --object url --size bytes access.csv > trace.csv
  ripqwarp import --delimiter tab --time 0 --object 2 --size 3 --edges 8 --edge-by object access.tsv
  zstd -dc log.zst | ripqwarp import --from oracle-general - > trace.csv",
    hints: Hints::Always,
    own: &LOG,
    shared: &[],
};

/// The command.
pub(crate) fn entry() -> &'static Entry {
    &ENTRY
}

/// The log, how to read it, and how its rows become those of a trace.
const LOG: [Argument; 21] = [
    Argument {
        name: "log",
        value: Value::File("LOG"),
        given: Given::Always,
        help: "The log; - is standard input",
    },
    Argument {
        name: "from",
        value: Value::Word("FORMAT", &["csv", "oracle-general"]),
        given: Given::Or("csv"),
        help: "The log's format: csv, or libCacheSim's binary oracle-general, which has no columns to name",
    },
    Argument {
        name: "delimiter",
        value: Value::Text("BYTE"),
        given: Given::Or(","),
        help: "What stands between two fields: one ASCII character, or tab",
    },
    Argument {
        name: "quotes",
        value: Value::Word("QUOTES", &["double", "none"]),
        given: Given::Or("double"),
        help: "double: a field may stand in double quotes; none: a quote is a character as any other",
    },
    Argument {
        name: "multiline",
        value: Value::Flag,
        given: Given::Maybe,
        help: "Accept line ends inside quoted fields; without it they are refused, as a quote that is not closed",
    },
    Argument {
        name: "time",
        value: Value::Text("COLUMN"),
        given: Given::Or("time"),
        help: "The column of times, by its name in the header or its number from 0",
    },
    Argument {
        name: "object",
        value: Value::Text("COLUMN"),
        given: Given::Or("object"),
        help: "The column of objects, which may be any text",
    },
    Argument {
        name: "size",
        value: Value::Text("COLUMN"),
        given: Given::Or("size"),
        help: "The column of sizes in bytes",
    },
    Argument {
        name: "missing-size",
        value: Value::Number(MAX_SIZE as i64),
        given: Given::Maybe,
        help: "The size of a row whose size is empty, - or 0, 1 to 4294967295; without it such a row is left out",
    },
    Argument {
        name: "edge",
        value: Value::Text("COLUMN"),
        given: Given::Maybe,
        help: "The column of edges, numbers from 0; without it requests are dealt out to --edges",
    },
    Argument {
        name: "kind",
        value: Value::Text("COLUMN"),
        given: Given::Maybe,
        help: "The column of kinds, get or purge; without it all rows are requests",
    },
    Argument {
        name: "edges",
        value: Value::Count(Config::MAX_EDGES as i64),
        given: Given::Or("1"),
        help: "Edges to which requests are dealt out, 1 to 256",
    },
    Argument {
        name: "edge-by",
        value: Value::Word("WHAT", &["row", "object"]),
        given: Given::Or("row"),
        help: "How requests are dealt out: row after row in turn, or each object to one edge",
    },
    Argument {
        name: "ticks",
        value: Value::Number(MAX_TICKS as i64),
        given: Given::Or("1000"),
        help: "Ticks in a unit of the log's times, 1 to 1000000000",
    },
    Argument {
        name: "spread",
        value: Value::Flag,
        given: Given::Maybe,
        help: "Spread the rows of one time over its unit, in their order; times have to be whole numbers",
    },
    Argument {
        name: "strict",
        value: Value::Flag,
        given: Given::Maybe,
        help: "Refuse the log at the first row that cannot be used; without it such a row is left out and counted",
    },
    Argument {
        name: "max-left-out",
        value: Value::Percent,
        given: Given::Or("1"),
        help: "Refuse the log where more than this many rows of a hundred are left out, 0 to 100",
    },
    Argument {
        name: "stream",
        value: Value::Flag,
        given: Given::Maybe,
        help: "Write the trace as the log is read: rows in order of time, as many as there are, in little memory",
    },
    Argument {
        name: "epoch",
        value: Value::Text("TIME"),
        given: Given::Maybe,
        help: "With --stream: the log's time that is tick 0; by default that of the first row that has one",
    },
    QUIET,
    OPTIONS,
];

/// Reads the log that the options name, writes its trace, and then reports on `err` what was left out. With `--stream` the trace is
/// written as the log is read.
///
/// # Errors
///
/// Those of the source, an [`ImportFault`], a value of an option that is none, `Random`, and `Memory`. Nothing was written then, or,
/// where the log is refused as it is read, a text that is no trace. `Output` exactly where the writer failed.
pub(crate) fn import<S: Source, W: Write, E: Write, R: Clock + RandomSource>(
    rt: &R,
    alloc: Global,
    options: &ArgMatches<'_>,
    source: &mut S,
    out: &mut Out<W>,
    err: &mut Stderr<E>,
) -> Result<(), Fault>
    ensures output { IsErrAnd result (λ e. status_of e ≡ 8)
        ↔ (out.new.failures ≢ out.old.failures) }
    ensures nothing { IfErr result (λ e. status_of e ≢ 8 → (out.new ≡ out.old)
        ⊎ LeavesNoTrace (status_of e)
        (W.contents out.old.writer) (W.contents out.new.writer)) }
{
    let measure = if options.get_flag("stream") {
        Measure::BytesSoFar
    } else {
        Measure::Bytes
    };
    let mut line = err.progress(rt, "import", measure, options.get_flag("quiet"));
    let converted = convert(rt, alloc, options, source, &mut line, out);
    drop(line);
    let Converted { counts, crowded } = converted?;
    tell("import", counts, err);
    advise(counts.kept, crowded, err);
    Ok(())
}

/// What has come of a log.
struct Converted {
    /// How many rows were kept, and how many left out.
    counts: Counts,
    /// How many kept rows have the time and the object of another one that they would not have if rows were spread.
    crowded: u64,
}

/// Writes the trace of the log that the options name.
fn convert<S: Source, W: Write, P: Progress, R: RandomSource>(
    rt: &R,
    alloc: Global,
    options: &ArgMatches<'_>,
    source: &mut S,
    progress: &mut P,
    out: &mut Out<W>,
) -> Result<Converted, Fault>
    ensures output { IsErrAnd result (λ e. status_of e ≡ 8)
        ↔ (out.new.failures ≢ out.old.failures) }
    ensures nothing { IfErr result (λ e. status_of e ≢ 8 → (out.new ≡ out.old)
        ⊎ LeavesNoTrace (status_of e)
        (W.contents out.old.writer) (W.contents out.new.writer)) }
{
    if options.get_flag("stream") {
        streamed(rt, alloc, options, source, progress, out)
    } else {
        imported(rt, alloc, options, source, progress, out)
    }
}

/// Reads the log that the options name, and then writes its trace.
fn imported<S: Source, W: Write, P: Progress, R: RandomSource>(
    rt: &R,
    alloc: Global,
    options: &ArgMatches<'_>,
    source: &mut S,
    progress: &mut P,
    out: &mut Out<W>,
) -> Result<Converted, Fault>
    ensures output { IsErrAnd result (λ e. status_of e ≡ 8)
        ↔ (out.new.failures ≢ out.old.failures) }
    ensures nothing { IfErr result (λ e. status_of e ≢ 8 → out.new ≡ out.old) }
{
    if options.get_str("epoch").is_some() {
        return Err(Fault::OnlyWith {
            option: "epoch",
            with: "--stream",
        });
    }
    let spread = options.get_flag("spread");
    let reading = reading(options, spread).ok_or(Fault::Plan)?;
    let layout = layout(rt, alloc, options, spread)?;
    let log = read(alloc, options, "log", source)?;
    if let Some(format) = format_of(log.as_slice()) {
        return Err(ImportFault::Format(format).into());
    }
    let imported = trace_of(alloc, options, log.as_slice(), &layout, &reading, progress)?;
    progress.about_to_write();
    write(imported.text.as_slice(), out)?;
    let counts = Counts {
        kept: imported.kept,
        clamped: imported.clamped,
        left_out: imported.left_out,
    };
    Ok(Converted {
        counts,
        crowded: imported.crowded,
    })
}

/// The trace of a log.
fn trace_of<P: Progress>(
    alloc: Global,
    options: &ArgMatches<'_>,
    log: &[u8],
    layout: &Layout,
    reading: &Options,
    progress: &mut P,
) -> Result<Imported, ImportFault>
    ensures unwritten { IfErr result (λ e. e ≢ ImportFault.Output) }
{
    match options.get_str("from") {
        Some("oracle-general") => import_oracle(alloc, log, reading, progress),
        _ => import_csv(alloc, log, layout, reading, progress),
    }
}

/// Writes the trace of the log that the options name as it reads the log.
fn streamed<S: Source, W: Write, P: Progress, R: RandomSource>(
    rt: &R,
    alloc: Global,
    options: &ArgMatches<'_>,
    source: &mut S,
    progress: &mut P,
    out: &mut Out<W>,
) -> Result<Converted, Fault>
    ensures output { IsErrAnd result (λ e. status_of e ≡ 8)
        ↔ (out.new.failures ≢ out.old.failures) }
    ensures nothing { IfErr result (λ e. status_of e ≢ 8 → (out.new ≡ out.old)
        ⊎ LeavesNoTrace (status_of e)
        (W.contents out.old.writer) (W.contents out.new.writer)) }
{
    if options.get_flag("spread") {
        return Err(Fault::NotWith {
            option: "spread",
            other: "--stream",
        });
    }
    let streaming = Streaming {
        options: reading(options, false).ok_or(Fault::Plan)?,
        epoch: epoch(alloc, options)?,
    };
    let layout = layout(rt, alloc, options, false)?;
    let log = open_log(alloc, open(options, "log", source)?)?;
    progress.begin(0, u64::MAX);
    let counts = match options.get_str("from") {
        Some("oracle-general") => stream_oracle(alloc, log, &streaming, progress, out)?,
        _ => stream_csv(alloc, log, &layout, &streaming, progress, out)?,
    };
    Ok(Converted { counts, crowded: 0 })
}

/// How rows become a trace's, those of one time spread or not; None where an option is missing or out of its range, which the command
/// line rules out.
fn reading(options: &ArgMatches<'_>, spread: bool) -> Option<Options>
    ensures { IfSome result (λ o. o.spread ≡ spread) }
{
    let dealing = match options.get_str("edge-by")? {
        "object" => Dealing::ByObject,
        _ => Dealing::ByRow,
    };
    let reading = Options::new(
        options.get_one("ticks")?,
        options.get_one("edges")?,
        dealing,
        options.get_flag("strict"),
    )?;
    let reading = reading.with_max_left_out(options.get_one("max-left-out")?)?;
    Some(reading.with_spread(spread))
}

/// What a double quote is in the log.
///
/// # Errors
///
/// [`Fault::OnlyWith`] where fields are to have line ends, and quotes are none.
fn quotes(options: &ArgMatches<'_>) -> Result<Quotes, Fault>
    ensures unwritten { IfErr result (λ e. status_of e ≢ 8) }
{
    match (options.get_str("quotes"), options.get_flag("multiline")) {
        (Some("none"), true) => Err(Fault::OnlyWith {
            option: "multiline",
            with: "--quotes double",
        }),
        (Some("none"), false) => Ok(Quotes::Plain),
        (_, true) => Ok(Quotes::Multiline),
        (_, false) => Ok(Quotes::OneLine),
    }
}

/// Refuses what a binary log has no use for, and what would change nothing there.
///
/// # Errors
///
/// [`Fault::OnlyWith`] for the first such option.
fn check_format(options: &ArgMatches<'_>) -> Result<(), Fault>
    ensures unwritten { IfErr result (λ e. status_of e ≢ 8) }
{
    let missing: Option<u64> = options.get_one("missing-size");
    let option = if options.get_str("from") != Some("oracle-general") {
        return Ok(());
    } else if missing.is_some() {
        "missing-size"
    } else if options.get_flag("multiline") {
        "multiline"
    } else if options.get_str("quotes") == Some("none") {
        "quotes none"
    } else {
        return Ok(());
    };
    Err(Fault::OnlyWith {
        option,
        with: "--from csv",
    })
}

/// How a log of fields is read, where times have to be whole or need not be. The keys of its hash are drawn anew.
fn layout<R: RandomSource>(
    rt: &R,
    alloc: Global,
    options: &ArgMatches<'_>,
    whole_times: bool,
) -> Result<Layout, Fault>
    ensures unwritten { IfErr result (λ e. status_of e ≢ 8) }
{
    check_format(options)?;
    Ok(Layout {
        delimiter: delimiter(alloc, options)?,
        quotes: quotes(options)?,
        time: needed_column(alloc, options, "time")?,
        whole_times,
        object: needed_column(alloc, options, "object")?,
        size: needed_column(alloc, options, "size")?,
        missing_size: options.get_one("missing-size"),
        edge: column(alloc, options, "edge")?,
        kind: column(alloc, options, "kind")?,
        keys: RandomState::new(rt).map_err(|_| Fault::Random)?,
    })
}

/// What stands between two fields.
///
/// # Errors
///
/// [`Fault::CommandLine`] where it is neither one ASCII character nor `tab`, [`Fault::Plan`] where the option has no value, and
/// `Memory`.
fn delimiter(alloc: Global, options: &ArgMatches<'_>) -> Result<u8, Fault>
    ensures unwritten { IfErr result (λ e. status_of e ≢ 8) }
{
    let text = options.get_str("delimiter").ok_or(Fault::Plan)?;
    match text.as_bytes() {
        b"tab" => Ok(b'\t'),
        [byte] if byte.is_ascii() => Ok(*byte),
        _ => {
            let expected = "one ASCII character, or tab";
            Err(invalid(alloc, text, "delimiter", expected))
        }
    }
}

/// A column that has a default.
fn needed_column(alloc: Global, options: &ArgMatches<'_>, name: &str) -> Result<Column, Fault>
    ensures unwritten { IfErr result (λ e. status_of e ≢ 8) }
{
    Ok(column(alloc, options, name)?.ok_or(Fault::Plan)?)
}

/// The column that an option names, by its number where that is one.
fn column(alloc: Global, options: &ArgMatches<'_>, name: &str) -> Result<Option<Column>, Fault>
    ensures unwritten { IfErr result (λ e. status_of e ≢ 8) }
{
    let Some(text) = options.get_str(name) else {
        return Ok(None);
    };
    let column = match rw_trace::number(text.as_bytes()) {
        Some(number) => Column::At(number),
        None => Column::Named(Vec::from_slice(alloc, text.as_bytes())?),
    };
    Ok(Some(column))
}

/// Says how many rows of a log a command kept, of how many of these the size was clamped, and how many were left out, by the reason.
pub(crate) fn tell<E: Write>(command: &str, counts: Counts, err: &mut Stderr<E>) {
    let Counts {
        kept,
        clamped,
        left_out,
    } = counts;
    err.tell(format_args!("{command} kept {kept} clamped {clamped} left out: {left_out}"));
}

/// Says how many of the kept rows have the time and the object of another one, and what parts them, where they are more than one in a
/// hundred.
fn advise<E: Write>(kept: u64, crowded: u64, err: &mut Stderr<E>) {
    if u128::from(crowded) * 100 > u128::from(kept) {
        err.tell(format_args!(
            "import: {crowded} of {kept} rows have the time and the object of another; --spread spreads the rows of a time over its unit"
        ));
    }
}
