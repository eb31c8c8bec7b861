// Runs of photo caches in rounds, with gates that hold workers back.
use rw_photo::{CacheState, Config, Photo, Policy, Shape};
use rw_ripqwarp::beginning;
use rw_rounds::{Gate, Open, Plan, Traffic, run};
use rw_vt::{END, Outcome};
use rw_world::Answer::{Done, Refused};
use rw_world::Step::{Collect, Deliver, Execute, Undo};
use rw_world::{Answer, Step, StepFault, World};
use std::alloc::Global;
use std::sync::Wait;
use std::sync::atomic::{AtomicU64, Ordering};
use std::test::Fail;
use std::thread::Threads;

/// Two requests of one object at one edge, the second right after the fill that the first one asks for.
const TRACE: &[u8] = b"time,edge,object,size\n5,0,7,4\n22,0,7,4\n";

/// How often a worker looks at a gate where the other one is to come: for some seconds.
const PATIENCE: u64 = 4_000_000_000;

/// A gate for two workers. Worker 1 may begin once worker 0 has come to its turn 1; worker 0 may go on in its turns 1
/// and 2 once worker 1 has come to its turns 0 and 1. Who waits for too long is let go, which is a miss.
#[derive(Drop)]
struct Handshake {
    /// For each worker, one more than the greatest turn that it came to.
    turns: [AtomicU64; 2],
    misses: AtomicU64,
    /// How often a worker looks whether it may go on.
    tries: u64,
}

impl Handshake {
    fn new(tries: u64) -> Handshake {
        Handshake {
            turns: [AtomicU64::new(0), AtomicU64::new(0)],
            misses: AtomicU64::new(0),
            tries,
        }
    }

    /// Waits until this worker has come to this turn.
    fn wait_for(&self, worker: usize, turn: u64) {
        let Some(turns) = self.turns.get(worker) else {
            return;
        };
        for _ in 0..self.tries {
            if turns.load(Ordering::SeqCst) > turn {
                return;
            }
        }
        self.misses.fetch_add(1, Ordering::SeqCst);
    }

    fn misses(&self) -> u64 {
        self.misses.load(Ordering::SeqCst)
    }

    /// Whether both workers came to their turn 1.
    fn saw_both(&self) -> bool {
        self.turns
            .iter()
            .all(|turns| turns.load(Ordering::SeqCst) > 1)
    }
}

impl Gate for Handshake {
    fn pass(&self, worker: u32, turn: u32) {
        let turn = u64::from(turn);
        let Some(turns) = self.turns.get(worker as usize) else {
            return;
        };
        turns.fetch_max(turn + 1, Ordering::SeqCst);
        match (worker, turn) {
            (1, 0) => self.wait_for(0, 1),
            (0, 1) => self.wait_for(1, 0),
            (0, 2) => self.wait_for(1, 1),
            _ => {}
        }
    }
}

fn config() -> Result<Config, Fail> {
    let shape = Shape::new(8, 1_048_576, 64).ok_or("shape")?;
    let config = Config::new(1, 1, Policy::Lru, shape, shape, 3, 3, 10);
    Ok(config.ok_or("config")?)
}

/// The plan of the command line where nothing is said, with this window.
fn plan(window: u64) -> Plan {
    Plan {
        workers: 2,
        turns: 16,
        batch: 64,
        window,
        ring: 64,
        max_rounds: 65536,
        lazy: false,
    }
}

/// The world of the trace in which nothing is done yet.
fn opened(alloc: Global) -> Result<World<Photo>, Fail> {
    let config = config()?;
    let Ok((starts, initial)) = beginning(alloc, TRACE, &config) else {
        return Err(Fail::from("trace"));
    };
    Ok(World::open(alloc, Photo::new(config), starts, initial)?)
}

/// What the run on one thread leaves.
fn in_order(alloc: Global) -> Result<Outcome<Photo>, Fail> {
    let config = config()?;
    let Ok((starts, initial)) = beginning(alloc, TRACE, &config) else {
        return Err(Fail::from("trace"));
    };
    Ok(rw_serial::run(alloc, &Photo::new(config), starts, initial)?)
}

/// Whether two outcomes have the same journals and counters.
fn agree(one: &Outcome<Photo>, other: &Outcome<Photo>) -> bool {
    let counted = one.states.iter().map(CacheState::counters);
    one.journals == other.journals && counted.eq(other.states.iter().map(CacheState::counters))
}

/// What rounds through the gate do, from this world on, where they leave what the run on one thread leaves.
fn traffic<G: Gate + Sync, R: Threads + Wait + Sync>(
    rt: &R,
    alloc: Global,
    world: World<Photo>,
    plan: Plan,
    gate: &G,
) -> Result<Traffic, Fail> {
    let Ok((outcome, traffic)) = run(rt, alloc, world, plan, gate) else {
        return Err(Fail::from("run"));
    };
    let want = in_order(alloc)?;
    if agree(&outcome, &want) {
        Ok(traffic)
    } else {
        Err(Fail::from("another outcome than that of the run on one thread"))
    }
}

/// What rounds through a handshake do, whether both workers came to their turn 1, and how often one missed the other.
fn held<R: Threads + Wait + Sync>(
    rt: &R,
    alloc: Global,
    plan: Plan,
) -> Result<(Traffic, bool, u64), Fail> {
    let gate = Handshake::new(PATIENCE);
    let traffic = traffic(rt, alloc, opened(alloc)?, plan, &gate)?;
    Ok((traffic, gate.saw_both(), gate.misses()))
}

#[test]
fn a_straggling_fill_is_made_room_for(rt: HostRuntime) -> Result<(), Fail> {
    let world = opened(rt.alloc())?;
    assert!(rt; traffic(&rt, rt.alloc(), world, plan(END), &Open)?.undone >= 1);
    Ok(())
}

#[test]
fn a_straggling_fill_is_made_room_for_at_a_gate(rt: HostRuntime) -> Result<(), Fail> {
    for lazy in [false, true] {
        let plan = Plan { lazy, ..plan(END) };
        let (held, saw_both, misses) = held(&rt, rt.alloc(), plan)?;
        assert!(rt; held.undone >= 1 && held.ring >= 2, "lazy: {lazy}");
        assert!(rt; (saw_both, misses) == (true, 0), "lazy: {lazy}");
    }
    Ok(())
}

/// Steps that take a straggler back and commit all.
const STEPS: [Step; 10] = [
    Execute(0),
    Execute(0),
    Deliver(0),
    Execute(1),
    Deliver(0),
    Execute(0),
    Undo(0),
    Execute(0),
    Execute(0),
    Collect(END),
];

/// Their answers.
const ANSWERS: [Answer; 10] = [
    Done,
    Done,
    Done,
    Done,
    Done,
    Refused(StepFault::Straggler),
    Done,
    Done,
    Done,
    Done,
];

/// The world to which these steps lead, and whether they are answered so and nothing is left to do.
fn scheduled(alloc: Global) -> Result<(World<Photo>, bool), Fail> {
    let (world, answers) = opened(alloc)?.run_steps(alloc, &STEPS)?;
    let is_as_told = answers.as_slice() == ANSWERS.as_slice() && world.finished();
    Ok((world, is_as_told))
}

#[test]
fn a_schedule_takes_a_straggler_back_and_commits_all(rt: HostRuntime) -> Result<(), Fail> {
    let (world, is_as_told) = scheduled(rt.alloc())?;
    assert!(rt; is_as_told);
    assert!(rt; traffic(&rt, rt.alloc(), world, plan(END), &Open)?.executed == 0);
    Ok(())
}

#[test]
fn a_window_holds_back_what_would_be_undone(rt: HostRuntime) -> Result<(), Fail> {
    let (held, _saw_both, misses) = held(&rt, rt.alloc(), plan(1))?;
    assert!(rt; (held.rounds, held.undone, held.ring, misses) == (2, 0, 2, 0));
    Ok(())
}

#[test]
fn workers_on_one_thread_miss_at_the_gate(rt: HostRuntime) {
    let gate = Handshake::new(1000);
    for worker in 0..2 {
        for turn in 0..16 {
            gate.pass(worker, turn);
        }
    }
    assert!(rt; gate.misses() > 0);
}
