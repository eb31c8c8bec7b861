// A trace on several threads, optimistically.
ghost use Rattle.std.specs.Prelude.{◌≡◌, ◌≢◌, ◌↔◌, IfErr, IfOk, IsErrAnd, codes, false, true};
ghost use Rattle.rw_command.specs.Said.{IsSaidCount, IsSaidNumber, IsSet};
ghost use Rattle.rw_command.specs.Status.{status_of};
ghost use Rattle.rw_command.specs.Written.{IsUnset};

use crate::arguments::{Argument, Given, Value};
use crate::caches::{CACHES, config, ticks_a_second};
use crate::entries::{Entry, Hints};
use crate::fault::Fault;
use crate::files::read;
use crate::outlook::{QUIET, TRACE};
use crate::source::Source;
use crate::stderr::Stderr;
use crate::values::{Quantity, number};
use clap::ArgMatches;
use rw_progress::Measure;
use rw_report::Out;
use rw_ripqwarp::{Mode, Plan, TraceRun, Traffic, simulate_with_progress};
use rw_vt::END;
use std::alloc::Global;
use std::io::Write;
use std::sync::Wait;
use std::thread::Threads;
use std::time::Clock;

/// The command.
static ENTRY: Entry = Entry {
    name: "warp",
    about: "Runs a trace on several threads, optimistically, and prints the report that serial prints",
    examples: "Examples:
  ripqwarp warp --edges 4 trace.csv
  ripqwarp warp --edges 16 --workers 8 --policy lru --quiet trace.csv

The report goes to standard output. Then a line on standard error says what the rounds did:
executed and undone events, and messages through rings.",
    hints: Hints::OnTerminal,
    own: &ROUNDS,
    shared: &CACHES,
};

/// The command.
pub(crate) fn entry() -> &'static Entry {
    &ENTRY
}

/// The trace, how rounds share out their work, and how far they go.
const ROUNDS: [Argument; 9] = [
    TRACE,
    QUIET,
    Argument {
        name: "workers",
        value: Value::Count(16),
        given: Given::Or("2"),
        help: "Workers, each a thread with caches of its own, 1 to 16",
    },
    Argument {
        name: "turns",
        value: Value::Count(4096),
        given: Given::Or("16"),
        help: "Turns that a worker takes in a round, 1 to 4096",
    },
    Argument {
        name: "batch",
        value: Value::Count(4096),
        given: Given::Or("64"),
        help: "Events that a worker may execute in a turn, 1 to 4096",
    },
    Argument {
        name: "window",
        value: Value::Text("TIME"),
        given: Given::Or("1099511627776"),
        help: "Ticks that a worker may run ahead of the others, 1 to 1099511627776",
    },
    Argument {
        name: "ring",
        value: Value::Count(4096),
        given: Given::Or("64"),
        help: "Messages in transit from one worker to another, 1 to 4096",
    },
    Argument {
        name: "rounds",
        value: Value::Count(1_048_576),
        given: Given::Or("65536"),
        help: "The most rounds, after which one worker goes on alone, 1 to 1048576",
    },
    Argument {
        name: "lazy",
        value: Value::Flag,
        given: Given::Maybe,
        help: "Hold what an undone event had sent until it is sent again or cancelled",
    },
];

/// Runs the trace that the options name on several workers, writes the report, and then reports on `err` what the rounds did.
///
/// # Errors
///
/// Those of the source, and a fault of the run; a value of an option that is none. Nothing was written then. `Output` exactly where
/// the writer failed.
pub(crate) fn warp<S: Source, W: Write, E: Write, R: Threads + Wait + Clock + Sync>(
    rt: &R,
    alloc: Global,
    options: &ArgMatches<'_>,
    source: &mut S,
    out: &mut Out<W>,
    err: &mut Stderr<E>,
) -> Result<(), Fault>
    ensures output { IsErrAnd result (λ e. status_of e ≡ 8)
        ↔ (out.new.failures ≢ out.old.failures) }
    ensures nothing { IfErr result (λ e. status_of e ≢ 8 → out.new ≡ out.old) }
{
    let plan = plan(alloc, options)?;
    let config = config(alloc, options)?;
    let bytes = read(alloc, options, "trace", source)?;
    let run = TraceRun {
        bytes: bytes.as_slice(),
        config: &config,
        mode: Mode::Warp(plan),
    };
    let mut line = err.progress(rt, "warp", Measure::Time, options.get_flag("quiet"));
    let traffic = simulate_with_progress(rt, alloc, run, &mut line, out)?;
    drop(line);
    tell_traffic(&traffic, err);
    Ok(())
}

/// The plan that the options say.
fn plan(alloc: Global, options: &ArgMatches<'_>) -> Result<Plan, Fault>
    ensures workers { IfOk result (λ p. IsSaidCount options.now (codes "workers") p.workers) }
    ensures turns { IfOk result (λ p. IsSaidCount options.now (codes "turns") p.turns) }
    ensures batch { IfOk result (λ p. IsSaidCount options.now (codes "batch") p.batch) }
    ensures window { IfOk result (λ p. IsSaidNumber options.now (codes "window") p.window) }
    ensures ring { IfOk result (λ p. IsSaidCount options.now (codes "ring") p.ring) }
    ensures rounds { IfOk result (λ p. IsSaidCount options.now (codes "rounds") p.max_rounds) }
    ensures eager { IsUnset options.now (codes "lazy") → IfOk result (λ p. p.lazy ≡ false) }
    ensures lazy { IsSet options.now (codes "lazy") → IfOk result (λ p. p.lazy ≡ true) }
    ensures unwritten { IfErr result (λ e. status_of e ≢ 8) }
{
    let window = Quantity::ticks(END, ticks_a_second(options));
    Ok(Plan {
        workers: options.get_one("workers").ok_or(Fault::Plan)?,
        turns: options.get_one("turns").ok_or(Fault::Plan)?,
        batch: options.get_one("batch").ok_or(Fault::Plan)?,
        window: number(alloc, options, "window", window)?,
        ring: options.get_one("ring").ok_or(Fault::Plan)?,
        max_rounds: options.get_one("rounds").ok_or(Fault::Plan)?,
        lazy: options.get_flag("lazy"),
    })
}

/// Writes a line that says what the rounds of a run did.
fn tell_traffic<E: Write>(traffic: &Traffic, err: &mut Stderr<E>) {
    let Traffic {
        rounds,
        executed,
        undone,
        ring,
        kept,
    } = *traffic;
    err.tell(format_args!(
        "traffic rounds {rounds} executed {executed} undone {undone} ring {ring} kept {kept}"
    ));
}
