// A trace on one thread.
ghost use Rattle.std.specs.Prelude.{◌≡◌, ◌≢◌, ◌↔◌, ◌⊎◌, IfErr, IsErrAnd, OnOk, codes};
ghost use Rattle.rw_command.specs.Status.{status_of};
ghost use Rattle.rw_command.specs.Written.{AsksForReport, HasWrittenOfLog, HasWrittenOfTrace, HasWrittenOverTime, HasWrittenReport, HasWrittenSome, HasWrittenStream, IsUnset};

use crate::caches::{CACHES, config};
use crate::entries::{Entry, Hints};
use crate::fault::Fault;
use crate::files::{open, read};
use crate::import::tell;
use crate::logs::{EDGE_BY, EPOCH, FROM, TICKS, counts_of, names_log, open_log};
use crate::outlook::{EVERY, FORMAT, QUIET, STREAM, TRACE, WARM_UP, outlook};
use crate::source::Source;
use crate::stderr::Stderr;
use clap::ArgMatches;
use rw_progress::{Measure, Progress};
use rw_report::{Out, WithProgress, replay, replay_over_time, replay_rows, replay_stream};
use std::alloc::Global;
use std::io::Write;
use std::time::Clock;

/// The command.
static ENTRY: Entry = Entry {
    name: "serial",
    about: "Runs a trace on one thread and prints the counters of each cache",
    examples: "Examples:
  ripqwarp serial trace.csv
  ripqwarp serial --edges 4 --policy lru --edge-flash 2G --origin-flash 8G trace.csv
  ripqwarp serial --ticks-a-second 1000 --every 1h --warm-up 1d trace.csv > hours.csv
  ripqwarp serial --format json trace.csv | jq 'select(.cache == \"all\").hit_ratio'
  zstd -dc log.zst | ripqwarp serial --stream --from oracle-general -",
    hints: Hints::OnTerminal,
    own: &[
        TRACE, QUIET, STREAM, EVERY, WARM_UP, FORMAT, FROM, TICKS, EDGE_BY, EPOCH,
    ],
    shared: &CACHES,
};

/// The command.
pub(crate) fn entry() -> &'static Entry {
    &ENTRY
}

/// Runs the trace that the options name on one thread, through the caches that they say, and writes the report, or a table over
/// time where they ask for one. A log in the oracle-general format is read as it is run; then a line on `err` says how many of its
/// records were left out.
///
/// # Errors
///
/// Those of the source, and a fault of a run, where that of a log is the fault of the trace which `import` writes of it, but that its
/// rows are numbered as they stand in the log; a value of an option that is none, or an option without the one that it needs.
/// Nothing was written then. `Output` exactly where the writer failed.
pub fn run_serial<S: Source, W: Write, E: Write, C: Clock>(
    clock: &C,
    alloc: Global,
    options: &ArgMatches<'_>,
    source: &mut S,
    out: &mut Out<W>,
    err: &mut Stderr<E>,
) -> Result<(), Fault>
    ensures report { OnOk result
        (HasWrittenSome (W.contents out.old.writer) (W.contents out.new.writer)) }
    ensures plain { IsUnset options.now (codes "stream") → AsksForReport options.now
        → OnOk result (HasWrittenReport (W.contents out.old.writer) (W.contents out.new.writer)) }
    ensures output { IsErrAnd result (λ e. status_of e ≡ 8)
        ↔ (out.new.failures ≢ out.old.failures) }
    ensures nothing { IfErr result (λ e. status_of e ≢ 8 → out.new ≡ out.old) }
{
    let is_quiet = options.get_flag("quiet");
    if names_log(options)? {
        return of_log(clock, alloc, options, source, out, err);
    }
    let measure = if options.get_flag("stream") {
        Measure::RowsSoFar
    } else {
        Measure::Time
    };
    let mut line = err.progress(clock, "serial", measure, is_quiet);
    of_trace(alloc, options, source, &mut line, out)
}

/// Runs the log in the oracle-general format that the options name.
fn of_log<S: Source, W: Write, E: Write, C: Clock>(
    clock: &C,
    alloc: Global,
    options: &ArgMatches<'_>,
    source: &mut S,
    out: &mut Out<W>,
    err: &mut Stderr<E>,
) -> Result<(), Fault>
    ensures report { OnOk result
        (HasWrittenOfLog (W.contents out.old.writer) (W.contents out.new.writer)) }
    ensures output { IsErrAnd result (λ e. status_of e ≡ 8)
        ↔ (out.new.failures ≢ out.old.failures) }
    ensures nothing { IfErr result (λ e. status_of e ≢ 8 → out.new ≡ out.old) }
{
    let config = config(alloc, options)?;
    let outlook = outlook(alloc, options)?;
    let log = open_log(alloc, options, config.edges(), source)?;
    let is_quiet = options.get_flag("quiet");
    let mut line = err.progress(clock, "serial", Measure::RowsSoFar, is_quiet);
    let mut rows = WithProgress::new(log, &mut line);
    let ran = replay_rows(alloc, &mut rows, &config, outlook, out);
    let counts = counts_of(&rows.source);
    drop(rows);
    drop(line);
    ran?;
    tell("serial", counts, err);
    Ok(())
}

/// Runs the trace that the options name.
fn of_trace<S: Source, P: Progress, W: Write>(
    alloc: Global,
    options: &ArgMatches<'_>,
    source: &mut S,
    progress: &mut P,
    out: &mut Out<W>,
) -> Result<(), Fault>
    ensures report { OnOk result
        (HasWrittenOfTrace (W.contents out.old.writer) (W.contents out.new.writer)) }
    ensures plain { IsUnset options.now (codes "stream") → AsksForReport options.now
        → OnOk result (HasWrittenReport (W.contents out.old.writer) (W.contents out.new.writer)) }
    ensures output { IsErrAnd result (λ e. status_of e ≡ 8)
        ↔ (out.new.failures ≢ out.old.failures) }
    ensures nothing { IfErr result (λ e. status_of e ≢ 8 → out.new ≡ out.old) }
{
    if options.get_flag("stream") {
        streamed(alloc, options, source, progress, out)
    } else {
        in_memory(alloc, options, source, progress, out)
    }
}

/// Runs the trace as it is read.
fn streamed<S: Source, P: Progress, W: Write>(
    alloc: Global,
    options: &ArgMatches<'_>,
    source: &mut S,
    progress: &mut P,
    out: &mut Out<W>,
) -> Result<(), Fault>
    ensures report { OnOk result
        (HasWrittenStream (W.contents out.old.writer) (W.contents out.new.writer)) }
    ensures output { IsErrAnd result (λ e. status_of e ≡ 8)
        ↔ (out.new.failures ≢ out.old.failures) }
    ensures nothing { IfErr result (λ e. status_of e ≢ 8 → out.new ≡ out.old) }
{
    let config = config(alloc, options)?;
    let outlook = outlook(alloc, options)?;
    let reader = open(options, "trace", source)?;
    Ok(replay_stream(alloc, reader, &config, outlook, progress, out)?)
}

/// Reads the trace, and then runs it.
fn in_memory<S: Source, P: Progress, W: Write>(
    alloc: Global,
    options: &ArgMatches<'_>,
    source: &mut S,
    progress: &mut P,
    out: &mut Out<W>,
) -> Result<(), Fault>
    ensures report { OnOk result
        (HasWrittenReport (W.contents out.old.writer) (W.contents out.new.writer)
        ⊎ HasWrittenOverTime (W.contents out.old.writer) (W.contents out.new.writer)) }
    ensures plain { AsksForReport options.now
        → OnOk result (HasWrittenReport (W.contents out.old.writer) (W.contents out.new.writer)) }
    ensures output { IsErrAnd result (λ e. status_of e ≡ 8)
        ↔ (out.new.failures ≢ out.old.failures) }
    ensures nothing { IfErr result (λ e. status_of e ≢ 8 → out.new ≡ out.old) }
{
    let config = config(alloc, options)?;
    let outlook = outlook(alloc, options)?;
    let bytes = read(alloc, options, "trace", source)?;
    if outlook.is_plain() {
        Ok(replay(alloc, bytes.as_slice(), &config, progress, out)?)
    } else {
        Ok(replay_over_time(alloc, bytes.as_slice(), &config, outlook, progress, out)?)
    }
}
