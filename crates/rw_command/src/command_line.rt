// From the words of the command line to output and an exit status.
ghost use Rattle.std.specs.Prelude.{◌≡◌, ◌≢◌, ◌↔◌, ◌⊎◌, IfErr, IfSome, IsErrAnd};
ghost use Rattle.rw_command.specs.Left.{LeavesSome};
ghost use Rattle.rw_command.specs.Status.{IsStatus, status_of};

use crate::entries::{always_hints, program};
use crate::fault::Fault;
use crate::generate::generate;
use crate::hint::hint;
use crate::import::import;
use crate::join::join;
use crate::journal::journal;
use crate::options_file::with_options_of_file;
use crate::outlook::OUTLOOK;
use crate::plot::plot;
use crate::program::answer;
use crate::serial::run_serial;
use crate::size::size;
use crate::source::Source;
use crate::stderr::Stderr;
use crate::sweep::sweep;
use crate::warp::warp;
use clap::ArgMatches;
use rw_report::Out;
use std::alloc::Global;
use std::io::Write;
use std::random::RandomSource;
use std::sync::Wait;
use std::thread::Threads;
use std::time::Clock;

/// Does what the program's words ask, its name first, and answers the exit status. Standard error is no terminal: see
/// [`command_at`].
pub fn command<S: Source, W: Write, E: Write, R: Threads + Wait + Clock + RandomSource + Sync>(
    rt: &R,
    alloc: Global,
    words: Vec<String>,
    source: &mut S,
    out: &mut Out<W>,
    err: &mut E,
) -> u8
    ensures status { IsStatus result }
    ensures output { (result ≡ 8) ↔ (out.new.failures ≢ out.old.failures) }
    ensures nothing { result ≢ 0 → result ≢ 8 → (out.new ≡ out.old)
        ⊎ LeavesSome result (W.contents out.old.writer) (W.contents out.new.writer) }
{
    let mut err = Stderr {
        writer: err,
        is_terminal: false,
    };
    command_at(rt, alloc, words, source, out, &mut err)
}

/// Does what the program's words ask, its name first, and answers the exit status.
///
/// The report, the journal, the trace, the table, the picture or help goes to `out`. A fault goes to `err` as one line. So does what
/// the rounds of `warp` did, after its report, and what `import` left out of a log. Write errors of `err` are ignored, and nothing is
/// tried again.
///
/// After a fault, a line `hint: ..` may name the file and the line, what was expected there and what was found: for `import`,
/// `sweep`, `size`, `join` and `plot` always, for the others on a terminal only. Where one of these five writes to a pipe that was
/// closed, nothing is said of it.
///
/// On a terminal one line shows how far a command has come, unless the words ask for quiet. It is removed before anything else goes to
/// `out` or `err`, which may be the same terminal.
///
/// The status is 8 exactly where `out` failed. With any other status but 0 nothing was written there, with two exceptions: a sweep may
/// have written whole lines, and `import --stream` a text that is no trace.
///
/// | Status | Meaning |
/// |---|---|
/// | 0 | done, also after help |
/// | 2 | the command line, or the schedule |
/// | 3 | the trace, log, sweep or its parts were refused |
/// | 4 | a file, or random bytes of the system, cannot be read |
/// | 5 | memory |
/// | 6 | all rounds of the plan are used, or the start of a thread was refused |
/// | 7 | a cache is exhausted |
/// | 8 | output failed |
pub fn command_at<S: Source, W: Write, E: Write, R: Threads + Wait + Clock + RandomSource + Sync>(
    rt: &R,
    alloc: Global,
    words: Vec<String>,
    source: &mut S,
    out: &mut Out<W>,
    err: &mut Stderr<E>,
) -> u8
    ensures status { IsStatus result }
    ensures output { (result ≡ 8) ↔ (out.new.failures ≢ out.old.failures) }
    ensures nothing { result ≢ 0 → result ≢ 8 → (out.new ≡ out.old)
        ⊎ LeavesSome result (W.contents out.old.writer) (W.contents out.new.writer) }
{
    let words = match with_options_of_file(alloc, words, source) {
        Ok(words) => words,
        Err(fault) => {
            err.tell(&fault);
            return fault.status();
        }
    };
    match attempt(rt, alloc, &words, source, out, err) {
        Ok(()) => 0,
        Err(fault) => {
            if !(out.is_closed() && has_hints(&words)) {
                tell(alloc, &fault, &words, source, err);
            }
            fault.status()
        }
    }
}

/// Writes the line of a fault, and a hint where there is one.
fn tell<S: Source, E: Write>(
    alloc: Global,
    fault: &Fault,
    words: &[String],
    source: &mut S,
    err: &mut Stderr<E>,
) {
    err.tell(fault);
    if err.is_terminal || has_hints(words) {
        if let Some(hint) = hint(alloc, fault, words, source) {
            err.tell(format_args!("hint: {hint}"));
        }
    }
}

/// Whether a hint follows each fault of the command that the words ask for.
fn has_hints(words: &[String]) -> bool {
    match words.get(1) {
        Some(command) => always_hints(command.as_str()),
        None => false,
    }
}

/// Does what the words ask.
fn attempt<S: Source, W: Write, E: Write, R: Threads + Wait + Clock + RandomSource + Sync>(
    rt: &R,
    alloc: Global,
    words: &[String],
    source: &mut S,
    out: &mut Out<W>,
    err: &mut Stderr<E>,
) -> Result<(), Fault>
    ensures output { IsErrAnd result (λ e. status_of e ≡ 8)
        ↔ (out.new.failures ≢ out.old.failures) }
    ensures nothing { IfErr result (λ e. status_of e ≢ 8 → (out.new ≡ out.old)
        ⊎ LeavesSome (status_of e) (W.contents out.old.writer) (W.contents out.new.writer)) }
{
    if let Some(fault) = not_taken(words) {
        return Err(fault);
    }
    let program = program(alloc)?;
    match program.try_get_matches_from(words) {
        Ok(matches) => carry_out(rt, alloc, &matches, source, out, err),
        Err(error) => answer(alloc, error, out),
    }
}

/// Why the words are refused that give `warp` or `journal` an option of runs in order of time on one thread, if they do.
fn not_taken(words: &[String]) -> Option<Fault>
    ensures unwritten { IfSome result (λ f. status_of f ≢ 8) }
{
    let command = match words.get(1)?.as_str() {
        "warp" => "warp",
        "journal" => "journal",
        _ => return None,
    };
    for word in words {
        let name = word.as_str().split('=').next()?;
        for option in OUTLOOK {
            if name.strip_prefix("--") == Some(option) {
                return Some(Fault::NotTaken { option, command });
            }
        }
    }
    None
}

/// Does what `clap` has understood.
fn carry_out<S: Source, W: Write, E: Write, R: Threads + Wait + Clock + RandomSource + Sync>(
    rt: &R,
    alloc: Global,
    matches: &ArgMatches<'_>,
    source: &mut S,
    out: &mut Out<W>,
    err: &mut Stderr<E>,
) -> Result<(), Fault>
    ensures output { IsErrAnd result (λ e. status_of e ≡ 8)
        ↔ (out.new.failures ≢ out.old.failures) }
    ensures nothing { IfErr result (λ e. status_of e ≢ 8 → (out.new ≡ out.old)
        ⊎ LeavesSome (status_of e) (W.contents out.old.writer) (W.contents out.new.writer)) }
{
    let Some((name, options)) = matches.subcommand() else {
        return Err(Fault::Plan);
    };
    match name {
        "serial" => run_serial(rt, alloc, options, source, out, err),
        "warp" => warp(rt, alloc, options, source, out, err),
        "journal" => journal(rt, alloc, options, source, out),
        "import" => import(rt, alloc, options, source, out, err),
        "sweep" => sweep(rt, alloc, options, source, out, err),
        "size" => size(rt, alloc, options, source, out, err),
        "join" => join(alloc, options, source, out),
        "plot" => plot(alloc, options, source, out),
        "generate" => generate(alloc, options, out),
        _ => Err(Fault::Plan),
    }
}
