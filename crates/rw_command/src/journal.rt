// A trace by a schedule of steps.
ghost use Rattle.std.specs.Prelude.{◌≡◌, ◌≢◌, ◌↔◌, IfErr, IsErrAnd};
ghost use Rattle.rw_command.specs.Status.{status_of};

use crate::arguments::{Argument, Given, Value};
use crate::caches::{CACHES, config};
use crate::entries::{Entry, Hints};
use crate::fault::Fault;
use crate::files::read;
use crate::outlook::TRACE;
use crate::source::Source;
use clap::ArgMatches;
use rw_report::{Out, schedule};
use rw_ripqwarp::{Mode, simulate};
use std::alloc::Global;
use std::io::Write;
use std::sync::Wait;
use std::thread::Threads;
use std::time::Clock;

/// The command.
static ENTRY: Entry = Entry {
    name: "journal",
    about: "Runs a trace by a schedule of steps and prints what was refused and what is final",
    examples: "Steps of a schedule, with one space between two of them:
  Ep  process p executes its least pending event
  Up  process p undoes its last processed event, and sends anti-messages
  Lp  process p undoes its last processed event lazily: what it sent is held
  Dn  letter n of those in transit is delivered
  Ct  what is before time t, in ticks, is committed

Examples:
  ripqwarp journal --schedule 'E0 D0 E1 U1 E1' trace.csv",
    hints: Hints::OnTerminal,
    own: &[SCHEDULE, TRACE],
    shared: &CACHES,
};

/// The command.
pub(crate) fn entry() -> &'static Entry {
    &ENTRY
}

/// The steps by which the trace is run.
const SCHEDULE: Argument = Argument {
    name: "schedule",
    value: Value::Text("TEXT"),
    given: Given::Always,
    help: "The steps, one space between: E, U or L and a process, D and a letter, C and a time",
};

/// Runs the trace that the options name by their schedule, and writes the journal.
///
/// # Errors
///
/// [`Fault::Schedule`], those of the source, and a fault of the run; a value of an option that is none. Nothing was written then.
/// `Output` exactly where the writer failed.
pub(crate) fn journal<S: Source, W: Write, R: Threads + Wait + Clock + Sync>(
    rt: &R,
    alloc: Global,
    options: &ArgMatches<'_>,
    source: &mut S,
    out: &mut Out<W>,
) -> Result<(), Fault>
    ensures output { IsErrAnd result (λ e. status_of e ≡ 8)
        ↔ (out.new.failures ≢ out.old.failures) }
    ensures nothing { IfErr result (λ e. status_of e ≢ 8 → out.new ≡ out.old) }
{
    let config = config(alloc, options)?;
    let steps = schedule(alloc, options.get_str("schedule").ok_or(Fault::Plan)?)?;
    let bytes = read(alloc, options, "trace", source)?;
    let mode = Mode::Journal(steps);
    let _no_traffic = simulate(rt, alloc, bytes.as_slice(), &config, mode, out)?;
    Ok(())
}
