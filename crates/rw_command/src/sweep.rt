// One trace through many configurations.
ghost use Rattle.std.specs.Prelude.{◌≡◌, ◌≢◌, ◌↔◌, ◌⊎◌, IfErr, IsErrAnd, codes};
ghost use Rattle.rw_command.specs.Left.{LeavesLines};
ghost use Rattle.rw_command.specs.Said.{IsSaidCount};
ghost use Rattle.rw_command.specs.Status.{status_of};

use crate::arguments::{Argument, Given, Value};
use crate::caches::{
    EDGE_TIER, ORIGIN_TIER, RECLAIM, TICKS_A_SECOND, lists_of_blocks, policies, ticks_a_second,
};
use crate::entries::{Entry, Hints};
use crate::fault::Fault;
use crate::files::{open, read, write};
use crate::import::tell;
use crate::logs::{EDGE_BY, EPOCH, FROM, TICKS, counts_of, names_log, open_log};
use crate::options_file::OPTIONS;
use crate::outlook::{EVERY, FORMAT, QUIET, STREAM, TRACE_HELP, WARM_UP, outlook};
use crate::source::Source;
use crate::stderr::Stderr;
use crate::values::{Quantity, invalid, numbers};
use clap::ArgMatches;
use rw_photo::{Config, Shape};
use rw_progress::{Measure, Progress};
use rw_report::{Format, Out, WithProgress};
use rw_sweep::{
    Axes, Grid, GridFault, MAX_CONFIGURATIONS, MAX_WORKERS, Part, Sweeping, list, sweep_rows,
    sweep_stream,
};
use std::alloc::Global;
use std::io::Write;
use std::thread::{Threads, available_parallelism};
use std::time::Clock;

/// The command.
static ENTRY: Entry = Entry {
    name: "sweep",
    about: "Runs a trace through every combination of some settings and prints a table, as CSV",
    examples: "Examples:
  ripqwarp sweep --policy lru,slru3 --edge-blocks 64..1024x2 --edges 4 trace.csv > table.csv
  ripqwarp sweep --edge-flash 1G,2G,4G --origin-flash 16G trace.csv
  ripqwarp sweep --list --policy lru,slru3 --sections 2..16x2
  ripqwarp sweep --origins 1..8x2 --format json trace.csv | jq 'select(.caches == \"all\")'
  ripqwarp sweep --every 1h --ticks-a-second 1000 --policy lru,slru3 trace.csv > hours.csv",
    hints: Hints::Always,
    own: &GRID,
    shared: &[],
};

/// The command.
pub(crate) fn entry() -> &'static Entry {
    &ENTRY
}

/// What a sweep varies, as lists, and what all its runs share.
const GRID: [Argument; 28] = [
    Argument {
        name: "trace",
        value: Value::File("TRACE"),
        given: Given::Unless("list"),
        help: TRACE_HELP,
    },
    Argument {
        name: "policy",
        value: Value::Text("LIST"),
        given: Given::Or("slru3"),
        help: "Policies, commas between: off, lru, slru2 to slru8",
    },
    Argument {
        name: "sections",
        value: Value::Text("LIST"),
        given: Given::Or("8"),
        help: "Insertion points of each cache, 1 to 16: numbers and ranges such as 2..16x2",
    },
    Argument {
        name: "block",
        value: Value::Text("LIST"),
        given: Given::Or("1M"),
        help: "Bytes of a block, 1 to 256M; K, M and G are powers of 1024",
    },
    Argument {
        name: "edge-blocks",
        value: Value::Text("LIST"),
        given: Given::Or("64"),
        help: "Full blocks on each edge's flash, 1 to 65536: 16,32,64 or 16..1024x2",
    },
    Argument {
        name: "edge-flash",
        value: Value::Text("LIST"),
        given: Given::Maybe,
        help: "Bytes of each edge's flash, in place of --edge-blocks, of one --block: 1G,2G or 1G..64Gx2",
    },
    Argument {
        name: "origin-blocks",
        value: Value::Text("LIST"),
        given: Given::Or("64"),
        help: "Full blocks on each origin's flash, 1 to 65536",
    },
    Argument {
        name: "origin-flash",
        value: Value::Text("LIST"),
        given: Given::Maybe,
        help: "Bytes of each origin's flash, in place of --origin-blocks, of one --block",
    },
    Argument {
        name: "part",
        value: Value::Text("I/N"),
        given: Given::Maybe,
        help: "Only the combinations whose place, from 0, is I modulo N; join puts parts together",
    },
    Argument {
        name: "list",
        value: Value::Flag,
        given: Given::Maybe,
        help: "Print the combinations with their places instead, and run nothing",
    },
    Argument {
        name: "workers",
        value: Value::Count(64),
        given: Given::Maybe,
        help: "Runs side by side, 1 to 64; by default as many as there are processors",
    },
    QUIET,
    STREAM,
    EVERY,
    WARM_UP,
    FORMAT,
    FROM,
    TICKS,
    EDGE_BY,
    EPOCH,
    Argument {
        name: "edges",
        value: Value::Text("LIST"),
        given: Given::Or("1"),
        help: "Edge caches, 1 to 256; the trace may name as many as the least of them",
    },
    Argument {
        name: "origins",
        value: Value::Text("LIST"),
        given: Given::Or("1"),
        help: "Origin caches, 1 to 64",
    },
    Argument {
        name: "up",
        value: Value::Text("LIST"),
        given: Given::Or("3"),
        help: "Ticks from an edge to an origin, 1 to 1048576",
    },
    Argument {
        name: "down",
        value: Value::Text("LIST"),
        given: Given::Or("3"),
        help: "Ticks from an origin to an edge, 1 to 1048576",
    },
    Argument {
        name: "back",
        value: Value::Text("LIST"),
        given: Given::Or("10"),
        help: "Ticks from an origin to the backend and back, 1 to 1048576",
    },
    TICKS_A_SECOND,
    RECLAIM,
    OPTIONS,
];

/// Runs the trace that the options name through every combination of what they list, or through those of a part, and writes the
/// table, the lines of each combination as soon as they are done. With `--list` it writes the combinations and runs nothing. With
/// `--stream`, and of a log in the oracle-general format, the rows are read as they are run, and the table comes at the end.
///
/// # Errors
///
/// A list or a part that is none, too many combinations, those of the source, and a fault of a run
/// ([`SimFault`](rw_report::SimFault)). What went out then is nothing, or whole lines. `Output` exactly where the writer failed.
pub(crate) fn sweep<S: Source, W: Write, E: Write, R: Threads + Clock + Sync>(
    rt: &R,
    alloc: Global,
    options: &ArgMatches<'_>,
    source: &mut S,
    out: &mut Out<W>,
    err: &mut Stderr<E>,
) -> Result<(), Fault>
    ensures output { IsErrAnd result (λ e. status_of e ≡ 8)
        ↔ (out.new.failures ≢ out.old.failures) }
    ensures nothing { IfErr result (λ e. status_of e ≢ 8 → (out.new ≡ out.old)
        ⊎ LeavesLines (status_of e)
        (W.contents out.old.writer) (W.contents out.new.writer)) }
{
    let part = part(alloc, options)?;
    let outlook = outlook(alloc, options)?;
    if part.is_some() && matches!(outlook.format, Format::Json) {
        return Err(Fault::NotWith {
            option: "part",
            other: "--format json",
        });
    }
    let grid = Grid::new(alloc, axes(alloc, options)?).map_err(fault_of_grid)?;
    if options.get_flag("list") {
        return write_list(alloc, &grid, part.unwrap_or(Part::whole()), out);
    }
    let sweeping = Sweeping {
        grid: &grid,
        part,
        workers: workers(rt, options),
        outlook,
    };
    let measure = if options.get_flag("stream") {
        Measure::RowsSoFar
    } else {
        Measure::Pieces
    };
    let is_log = names_log(options)?;
    let is_quiet = options.get_flag("quiet");
    let mut line = err.progress(rt, "sweep", measure, is_quiet);
    if !is_log && options.get_flag("stream") {
        let reader = open(options, "trace", source)?;
        return Ok(sweep_stream(rt, alloc, reader, &sweeping, &mut line, out)?);
    }
    if !is_log {
        let trace = read(alloc, options, "trace", source)?;
        return in_memory(rt, alloc, trace.as_slice(), &sweeping, &mut line, out);
    }
    let log = open_log(alloc, options, grid.edges(), source)?;
    let mut rows = WithProgress::new(log, &mut line);
    let swept = sweep_rows(rt, alloc, &mut rows, &sweeping, out);
    let counts = counts_of(&rows.source);
    drop(rows);
    drop(line);
    swept?;
    tell("sweep", counts, err);
    Ok(())
}

/// Runs a trace in memory through the grid, or through a part of it.
fn in_memory<P: Progress, W: Write, R: Threads + Sync>(
    rt: &R,
    alloc: Global,
    trace: &[u8],
    sweeping: &Sweeping<'_>,
    progress: &mut P,
    out: &mut Out<W>,
) -> Result<(), Fault>
    ensures output { IsErrAnd result (λ e. status_of e ≡ 8)
        ↔ (out.new.failures ≢ out.old.failures) }
    ensures nothing { IfErr result (λ e. status_of e ≢ 8 → (out.new ≡ out.old)
        ⊎ LeavesLines (status_of e)
        (W.contents out.old.writer) (W.contents out.new.writer)) }
{
    Ok(rw_sweep::sweep(rt, alloc, trace, sweeping, progress, out)?)
}

/// Writes the configurations of a part as a list.
fn write_list<W: Write>(
    alloc: Global,
    grid: &Grid,
    part: Part,
    out: &mut Out<W>,
) -> Result<(), Fault>
    ensures output { IsErrAnd result (λ e. status_of e ≡ 8)
        ↔ (out.new.failures ≢ out.old.failures) }
    ensures nothing { IfErr result (λ e. status_of e ≢ 8 → out.new ≡ out.old) }
{
    let text = list(alloc, grid, part).map_err(|_| Fault::Memory)?;
    Ok(write(text.as_slice(), out)?)
}

/// The part that the options ask for, if they do.
fn part(alloc: Global, options: &ArgMatches<'_>) -> Result<Option<Part>, Fault>
    ensures unwritten { IfErr result (λ e. status_of e ≢ 8) }
{
    let Some(text) = options.get_str("part") else {
        return Ok(None);
    };
    match part_of(text) {
        Some(part) => Ok(Some(part)),
        None => Err(invalid(alloc, text, "part", "I/N with I below N, as 0/4")),
    }
}

/// The part that a text says, as `I/N`.
fn part_of(text: &str) -> Option<Part> {
    let (index, count) = text.split_once('/')?;
    Part::new(index.parse().ok()?, count.parse().ok()?)
}

/// What the options list, and what all runs share.
fn axes(alloc: Global, options: &ArgMatches<'_>) -> Result<Axes, Fault>
    ensures unwritten { IfErr result (λ e. status_of e ≢ 8) }
{
    let ticks_a_second = ticks_a_second(options);
    let delay = Quantity::ticks(Config::MAX_DELAY, ticks_a_second);
    let sections = Quantity::things(Shape::MAX_SECTIONS);
    let edges = Quantity::things(u64::from(Config::MAX_EDGES));
    let origins = Quantity::things(u64::from(Config::MAX_ORIGINS));
    let blocks = numbers(alloc, options, "block", Quantity::bytes(Shape::MAX_BLOCK))?;
    Ok(Axes {
        policies: policies(alloc, options, "policy")?,
        sections: numbers(alloc, options, "sections", sections)?,
        edge_blocks: lists_of_blocks(alloc, options, EDGE_TIER, &blocks)?,
        origin_blocks: lists_of_blocks(alloc, options, ORIGIN_TIER, &blocks)?,
        blocks,
        edges: numbers(alloc, options, "edges", edges)?,
        origins: numbers(alloc, options, "origins", origins)?,
        up: numbers(alloc, options, "up", delay)?,
        down: numbers(alloc, options, "down", delay)?,
        back: numbers(alloc, options, "back", delay)?,
        reclaim: options.get_flag("reclaim"),
        ticks_a_second,
    })
}

/// A grid that cannot be is a fault of the command line.
fn fault_of_grid(fault: GridFault) -> Fault
    ensures { status_of result ≢ 8 }
{
    match fault {
        GridFault::TooMany => Fault::Combinations(MAX_CONFIGURATIONS),
        GridFault::OutOfRange => Fault::Plan,
        GridFault::Memory => Fault::Memory,
    }
}

/// How many runs go side by side: as the options say, or as many as there are processors.
fn workers<R: Threads>(rt: &R, options: &ArgMatches<'_>) -> u32
    ensures said { IsSaidCount options.now (codes "workers") result }
{
    if let Some(workers) = options.get_one("workers") {
        return workers;
    }
    match available_parallelism(rt) {
        Ok(processors) => (processors.get() as u64).min(u64::from(MAX_WORKERS)) as u32,
        Err(_) => 1,
    }
}
