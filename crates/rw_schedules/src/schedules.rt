//! Runs in rounds from the worlds that drawn schedules lead to, with gates that hold workers back.
ghost use Rattle.std.specs.Prelude.{◌≡◌, ◌+◌, IfOk, length};

use crate::gate::Hold;
use crate::outstanding::{has_anti, has_debt, has_straggler};
use anyhow::{Context, Result};
use rw_photo::{CacheState, Config, Photo, Policy, Shape};
use rw_ripqwarp::{SimFault, beginning, report, why_it_stopped};
use rw_rounds::{Gate, Open, Plan, Traffic};
use rw_vt::{END, Model, Outcome};
use rw_world::{Parts, Step, World, draw, draw_mixed};
use std::alloc::Global;
use std::sync::Wait;
use std::thread::Threads;

/// Requests of three objects at two edges, close to one another.
const FEW: &[u8] =
    b"time,edge,object,size\n5,0,7,4\n6,1,7,4\n6,0,8,4\n9,1,9,6\n22,0,7,4\n22,1,8,4\n30,0,9,6\n41,1,7,4\n";

/// Requests that evict, split, merge and put objects in again: taking back what they did undoes each kind of mark of a queue.
const EVERY_MARK: &[u8] =
    b"time,edge,object,size\n3,0,8,6\n8,1,9,6\n9,1,8,6\n9,1,7,4\n14,1,12,6\n18,1,11,6\n22,1,12,6\n23,0,9,6\n27,1,12,6\n32,1,8,6\n32,0,11,6\n36,0,10,6\n";

/// Requests, and purges that leave blocks without objects.
const PURGES: &[u8] =
    b"time,edge,object,size,kind\n3,0,8,6,get\n8,1,9,6,get\n9,1,8,6,get\n9,1,7,4,get\n14,1,12,6,get\n20,0,8,6,purge\n22,1,12,6,get\n24,1,9,6,purge\n27,1,12,6,get\n30,1,7,4,purge\n32,0,11,6,get\n36,0,8,6,get\n";

/// How many caches there are: two edges and an origin.
const CACHES: u32 = 3;

/// How many steps are drawn.
const STEPS: u64 = 400;

/// The plan of the command line where nothing is said, but for the rounds.
const PLAIN: Plan = Plan {
    workers: 2,
    turns: 16,
    batch: 64,
    window: END,
    ring: 64,
    max_rounds: 1_048_576,
    lazy: false,
};

/// How rounds are run: by one worker, few letters at a time, many and by more workers than caches, and with all held back
/// but the next.
const PLANS: [Plan; 4] = [
    Plan {
        workers: 1,
        ..PLAIN
    },
    Plan {
        turns: 2,
        batch: 1,
        ring: 1,
        ..PLAIN
    },
    Plan {
        workers: 16,
        batch: 4096,
        ring: 1,
        ..PLAIN
    },
    Plan {
        workers: 3,
        window: 1,
        ..PLAIN
    },
];

/// What runs from drawn worlds came to, in counts.
#[derive(Clone, Copy, Default)]
pub struct Counts {
    /// Drawn worlds where what is committed is a beginning of what the run on one thread commits.
    pub worlds: u64,
    /// Drawn worlds where it is not.
    pub other_worlds: u64,
    /// Drawn worlds where a process has executed ahead of an event that is pending.
    pub stragglers: u64,
    /// Drawn worlds where an anti-message came before its message.
    pub debts: u64,
    /// Drawn worlds where an anti-message is on its way.
    pub antis: u64,
    /// Runs that leave what the run on one thread leaves.
    pub runs: u64,
    /// Runs that do not.
    pub other_runs: u64,
    /// Events executed in runs.
    pub executed: u64,
    /// Events undone in runs.
    pub undone: u64,
    /// Letters received through rings.
    pub ring: u64,
    /// Rounds in which a gate held a worker back.
    pub waits: u64,
    /// Rounds in which it let go though the other worker had not come to its last turn.
    pub misses: u64,
}

impl Counts {
    /// Counts a drawn world.
    fn count_world(&mut self, begins: bool) {
        self.worlds = self.worlds.wrapping_add(u64::from(begins));
        self.other_worlds = self.other_worlds.wrapping_add(u64::from(!begins));
    }

    /// Counts what is outstanding in a drawn world.
    fn look(&mut self, parts: &Parts<Photo>) {
        self.stragglers = self
            .stragglers
            .wrapping_add(u64::from(has_straggler(parts)));
        self.debts = self.debts.wrapping_add(u64::from(has_debt(parts)));
        self.antis = self.antis.wrapping_add(u64::from(has_anti(parts)));
    }

    /// Counts a run.
    fn count_run(&mut self, agrees: bool, traffic: &Traffic) {
        self.runs = self.runs.wrapping_add(u64::from(agrees));
        self.other_runs = self.other_runs.wrapping_add(u64::from(!agrees));
        self.executed = self.executed.wrapping_add(traffic.executed);
        self.undone = self.undone.wrapping_add(traffic.undone);
        self.ring = self.ring.wrapping_add(traffic.ring);
    }
}

/// Draws so many worlds of each of three traces, of which the last has purges that free flash, and as many where undoings are lazy too,
/// and runs each in rounds, under several plans and gates; the latter with lazy undoings.
pub fn compare<R: Threads + Wait + Sync>(rt: &R, alloc: Global, seeds: u64) -> Result<Counts> {
    let mut counts = Counts::default();
    let few = config(2, 1).context("caches")?;
    compare_trace(rt, alloc, FEW, few, seeds, &mut counts)?;
    let every_mark = config(3, 2).context("caches")?;
    compare_trace(rt, alloc, EVERY_MARK, every_mark, seeds, &mut counts)?;
    let reclaiming = reclaiming_config(3, 2).context("caches")?;
    compare_trace(rt, alloc, PURGES, reclaiming, seeds, &mut counts)?;
    Ok(counts)
}

/// Two edges and an origin, each with so many sections and so many full blocks of ten bytes.
fn config(sections: u64, blocks: u64) -> Option<Config> {
    let shape = Shape::new(sections, 10, blocks)?;
    Config::new(2, 1, Policy::Lru, shape, shape, 3, 3, 10)
}

/// The same, where purges free flash.
fn reclaiming_config(sections: u64, blocks: u64) -> Option<Config> {
    Some(config(sections, blocks)?.with_reclaim(true))
}

/// Draws so many worlds of a trace, and as many where undoings are lazy too, and runs each.
fn compare_trace<R: Threads + Wait + Sync>(
    rt: &R,
    alloc: Global,
    trace: &'static [u8],
    config: Config,
    seeds: u64,
    counts: &mut Counts,
) -> Result<(), SimFault> {
    let example = Example::of(alloc, trace, config)?;
    for seed in 0..seeds {
        let steps = draw(alloc, seed, STEPS, CACHES)?;
        example.compare_world(rt, alloc, &steps, false, counts)?;
        let steps = draw_mixed(alloc, seed, STEPS, CACHES)?;
        example.compare_world(rt, alloc, &steps, true, counts)?;
    }
    Ok(())
}

/// A trace, the caches that it goes through, and what the run on one thread leaves.
#[derive(Drop)]
struct Example {
    trace: &'static [u8],
    config: Config,
    outcome: Outcome<Photo>,
    report: Vec<u8>,
}

impl Example {
    /// Runs a trace on one thread.
    fn of(alloc: Global, trace: &'static [u8], config: Config) -> Result<Example, SimFault> {
        let (starts, initial) = beginning(alloc, trace, &config)?;
        let outcome = rw_serial::run(alloc, &Photo::new(config), starts, initial)?;
        let report = report(alloc, &config, &outcome)?;
        Ok(Example {
            trace,
            config,
            outcome,
            report,
        })
    }

    /// Looks at the world to which these steps lead, and runs it by each plan, lazily or not.
    fn compare_world<R: Threads + Wait + Sync>(
        &self,
        rt: &R,
        alloc: Global,
        steps: &[Step],
        lazy: bool,
        counts: &mut Counts,
    ) -> Result<(), SimFault> {
        let world = drawn(alloc, self.trace, &self.config, steps)?;
        counts.count_world(self.begins_with(&world));
        counts.look(&world.take());
        for plan in PLANS {
            self.run_by(rt, alloc, steps, Plan { lazy, ..plan }, counts)?;
        }
        Ok(())
    }

    /// Whether what each cache of the world has committed is a beginning of what it commits on one thread.
    fn begins_with(&self, world: &World<Photo>) -> bool
        requires { world.now.model.config ≡ self.now.config }
    {
        for cache in 0..Photo::new(self.config).processes() {
            let begins = match self.outcome.journals.get(cache as usize) {
                Some(journal) => journal.starts_with(world.journal(cache)),
                None => false,
            };
            if !begins {
                return false;
            }
        }
        true
    }

    /// Runs the world to which these steps lead by a plan, through no gate and through those that hold one worker back.
    fn run_by<R: Threads + Wait + Sync>(
        &self,
        rt: &R,
        alloc: Global,
        steps: &[Step],
        plan: Plan,
        counts: &mut Counts,
    ) -> Result<(), SimFault> {
        self.run_through(rt, alloc, steps, plan, &Open, counts)?;
        if plan.workers == 1 {
            return Ok(());
        }
        for (held, other) in [(0, 1), (1, 0)] {
            let gate = Hold::new(held, other, plan.turns);
            self.run_through(rt, alloc, steps, plan, &gate, counts)?;
            counts.waits = counts.waits.wrapping_add(gate.waits());
            counts.misses = counts.misses.wrapping_add(gate.misses());
        }
        Ok(())
    }

    /// Runs the world to which these steps lead by a plan and through a gate, and counts whether it leaves what the run on
    /// one thread leaves.
    fn run_through<G: Gate + Sync, R: Threads + Wait + Sync>(
        &self,
        rt: &R,
        alloc: Global,
        steps: &[Step],
        plan: Plan,
        gate: &G,
        counts: &mut Counts,
    ) -> Result<(), SimFault> {
        let world = drawn(alloc, self.trace, &self.config, steps)?;
        match rw_rounds::run(rt, alloc, world, plan, gate) {
            Ok((outcome, traffic)) => {
                let text = report(alloc, &self.config, &outcome)?;
                counts.count_run(text == self.report && self.leaves(&outcome), &traffic);
                Ok(())
            }
            Err(stop) => Err(why_it_stopped(stop)),
        }
    }

    /// Whether an outcome has the journals and the counters of the run on one thread.
    fn leaves(&self, outcome: &Outcome<Photo>) -> bool {
        let counted = self.outcome.states.iter().map(CacheState::counters);
        outcome.journals == self.outcome.journals
            && counted.eq(outcome.states.iter().map(CacheState::counters))
    }
}

/// The world of a trace to which these steps lead, refused ones included.
fn drawn(
    alloc: Global,
    trace: &[u8],
    config: &Config,
    steps: &[Step],
) -> Result<World<Photo>, SimFault>
    ensures config { IfOk result (λ w. w.model.config ≡ config.now) }
    ensures starts { IfOk result (λ w.
        length w.starts ≡ config.now.edges + config.now.origins) }
{
    let (starts, initial) = beginning(alloc, trace, config)?;
    let world = World::open(alloc, Photo::new(*config), starts, initial)?;
    let (world, _answers) = world.run_steps(alloc, steps)?;
    Ok(world)
}
