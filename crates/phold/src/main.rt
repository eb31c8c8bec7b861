#![tactic(auto)]
//! Runs PHOLD sequentially or in rounds of workers and prints the outcome, the same line in both cases.

use rw_engine::{END, How, Plan, Start, Stop, Traffic, run_in};
use rw_phold::{Phold, Report, beginning, report_of};
use rw_progress::Silent;
use std::alloc::Global;
use std::env;
use std::process::ExitCode;
use std::rt::Env;
use std::sync::Wait;
use std::thread::Threads;
use std::time::Clock;

/// What the words are.
const USAGE: &str = "phold PROCESSES BALLS REMOTE LOOKAHEAD SPREAD UNTIL SEED [WORKERS] [SETTING..]
  PROCESSES  1 to 65536
  BALLS      how many there are in all
  REMOTE     how many of 65536 balls go to a process that is drawn; the others stay
  LOOKAHEAD  the least ticks for which a ball is held, 1 to 1048576
  SPREAD     below which further ticks are drawn, 1 to 1048576
  UNTIL      the tick at which the run ends, up to 1099511627776
  SEED       what is drawn follows from it
  WORKERS    1 to 16, in rounds; without it the run is in order of time
Settings, in any order, each once:
  short=N    how many of 65536 balls are held for the lookahead alone, else 0
  work=N     how many further draws an event makes, up to 4294967295, else 0
  grain=N    how many events make a meeting of the workers worth it, to each of them, else 64;
             with 0 they go on in windows of the lookahead wherever they can, with 1 in
             rounds where windows are empty, whatever it costs
  rounds=N   how many rounds the workers make at most, 1 to 1048576, else 65536; then the
             run goes on in order
  traffic    tells on standard error what the workers did";

/// How many rounds the workers make at most, if nothing is said.
const ROUNDS: u32 = 65536;

/// What the words say.
#[derive(Clone, Copy)]
struct Load {
    phold: Phold,
    balls: u32,
    seed: u64,
    workers: Option<u32>,
    /// How many rounds they make at most.
    rounds: u32,
    /// Whether what the workers did is told.
    traffic: bool,
}

/// What the words behind the numbers say.
#[derive(Clone, Copy, Default, PartialEq, Eq)]
struct Settings {
    short: Option<u32>,
    work: Option<u32>,
    grain: Option<u64>,
    rounds: Option<u32>,
    traffic: bool,
}

impl Settings {
    /// These, and what one word more says; `None` where it says nothing, or what was said already.
    fn with(self, word: &str) -> Option<Settings> {
        if word == "traffic" && !self.traffic {
            return Some(Settings {
                traffic: true,
                ..self
            });
        }
        match word.split_once('=')? {
            ("short", number) if self.short.is_none() => Some(Settings {
                short: Some(number.parse::<u32>().ok()?),
                ..self
            }),
            ("work", number) if self.work.is_none() => Some(Settings {
                work: Some(number.parse::<u32>().ok()?),
                ..self
            }),
            ("grain", number) if self.grain.is_none() => Some(Settings {
                grain: Some(number.parse::<u64>().ok()?),
                ..self
            }),
            ("rounds", number) if self.rounds.is_none() => Some(Settings {
                rounds: Some(number.parse::<u32>().ok()?),
                ..self
            }),
            _ => None,
        }
    }

    /// The setting of PHOLD in which what was said is so, and the rest as it is.
    fn apply(self, phold: Phold) -> Phold {
        phold
            .with_short(self.short.unwrap_or(phold.short))
            .with_work(self.work.unwrap_or(phold.work))
            .with_grain(self.grain.unwrap_or(phold.grain))
    }
}

fn main(rt: HostRuntime) -> ExitCode {
    let alloc = rt.alloc();
    let Some(load) = words(&rt, alloc) else {
        let _ = rt.eprintln(USAGE);
        return ExitCode::from(2);
    };
    match run(&rt, alloc, load) {
        Ok((report, traffic)) => {
            if load.traffic && load.workers.is_some() {
                tell(&rt, &traffic);
            }
            match rt.println(report) {
                Ok(()) => ExitCode::SUCCESS,
                Err(_) => ExitCode::from(8),
            }
        }
        Err(stop) => {
            let _ = eprintln!(rt; "phold: {stop:?}");
            ExitCode::FAILURE
        }
    }
}

/// Tells what the workers did.
fn tell<R: Eprint>(rt: &R, traffic: &Traffic) {
    let rounds = traffic.rounds;
    let executed = traffic.executed;
    let undone = traffic.undone;
    let ring = traffic.ring;
    let _ = eprintln!(rt;
        "traffic rounds {rounds} executed {executed} undone {undone} ring {ring}"
    );
}

/// The load that the program's words name, if they do.
fn words<R: Env + AllocGlobal>(rt: &R, alloc: Global) -> Option<Load> {
    let mut numbers = Vec::new(alloc);
    let mut settings = Settings::default();
    for word in env::args(rt).ok()?.skip(1) {
        match word.parse::<u64>() {
            Err(_) => settings = settings.with(word.as_str())?,
            Ok(number) if settings == Settings::default() => numbers.push(number).ok()?,
            Ok(_) => return None,
        }
    }
    load_of(numbers.as_slice(), settings)
}

/// The load of these numbers and settings, if the numbers are as many as there are to be, and in their ranges.
fn load_of(numbers: &[u64], settings: Settings) -> Option<Load> {
    let [
        processes,
        balls,
        remote,
        lookahead,
        spread,
        until,
        seed,
        rest @ ..,
    ] = numbers
    else {
        return None;
    };
    let workers = match rest {
        [] => None,
        [workers] => Some(u32::try_from(*workers).ok()?),
        _ => return None,
    };
    let phold = setting(*processes, *remote, *lookahead, *spread, *until)?;
    Some(Load {
        phold: settings.apply(phold),
        balls: u32::try_from(*balls).ok()?,
        seed: *seed,
        workers,
        rounds: settings.rounds.unwrap_or(ROUNDS),
        traffic: settings.traffic,
    })
}

/// A setting whose numbers are in their ranges.
fn setting(processes: u64, remote: u64, lookahead: u64, spread: u64, until: u64) -> Option<Phold> {
    let processes = u32::try_from(processes).ok()?;
    let remote = u32::try_from(remote).ok()?;
    Phold::new(processes, remote, lookahead, spread, until)
}

/// How many workers there are and how many rounds they make at most, and else what is usual.
fn plan(workers: u32, rounds: u32) -> Plan {
    Plan {
        workers,
        turns: 16,
        batch: 64,
        window: END,
        ring: 64,
        max_rounds: rounds,
        lazy: false,
    }
}

/// Runs the load: what its processes keep, added up, and what the workers did.
fn run<R: Threads + Wait + Clock + Sync>(
    rt: &R,
    alloc: Global,
    load: Load,
) -> Result<(Report, Traffic), Stop> {
    let (states, initial) = beginning(alloc, &load.phold, load.balls, load.seed)?;
    let start = Start {
        model: load.phold,
        states,
        initial,
    };
    let how = match load.workers {
        None => How::InOrder,
        Some(workers) => How::InRounds(plan(workers, load.rounds)),
    };
    let (states, traffic) = run_in(rt, alloc, start, how, &mut Silent)?;
    Ok((report_of(states.as_slice()), traffic))
}
