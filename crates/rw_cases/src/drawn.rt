//! Drawn runs: a trace and the options of its caches come from a seed, and it is run by several workers and on one thread.
use crate::given::Given;
use crate::run::Run;
use crate::tally::Tally;
use std::alloc::{AllocError, Global};
use std::random::RandomSource;
use std::sync::Wait;
use std::thread::Threads;
use std::time::Clock;

/// Plans for short traces: few events in a round, many, all held back but the next, and more workers than caches.
const SHORT_PLANS: [&str; 6] = [
    "warp --workers 1 --turns 1 --batch 3",
    "warp --workers 2 --turns 2 --batch 1 --ring 1",
    "warp --workers 3 --window 1",
    "warp --workers 4 --turns 3 --batch 5 --ring 2",
    "warp --workers 2 --turns 4 --window 20",
    "warp --workers 16 --batch 4096 --ring 1",
];

/// Plans under which workers run ahead of one another in a long trace of sparse requests, and roll back.
const SPARSE_PLANS: [&str; 4] = [
    "warp --workers 2",
    "warp --workers 2 --lazy",
    "warp --workers 4 --turns 8 --batch 32 --ring 2",
    "warp --workers 4 --lazy",
];

/// Plans under which workers go by windows through a long trace of dense requests.
const DENSE_PLANS: [&str; 3] = ["warp --workers 2", "warp --workers 4", "warp --workers 8"];

/// How many requests a trace has, and how they lie.
#[derive(Clone, Copy)]
enum Requests {
    /// 40 to 119 requests at 1 to 4 edges, one in two ticks: most runs are too short for several workers.
    Few,
    /// 20,000 requests at 4 edges, one in four ticks.
    Sparse,
    /// 16,000 requests at 32 edges, 512 in each tick.
    Dense,
}

impl Requests {
    /// The plans by which traces of this kind are run.
    fn plans(self) -> &'static [&'static str] {
        match self {
            Requests::Few => &SHORT_PLANS,
            Requests::Sparse => &SPARSE_PLANS,
            Requests::Dense => &DENSE_PLANS,
        }
    }

    /// Whether the workers did what such a trace is for: rolled back, or sent messages to one another with nothing rolled back.
    fn are_tried_by(self, run: &Run) -> bool {
        match self {
            Requests::Few => true,
            Requests::Sparse => run.traffic("undone") > 0,
            Requests::Dense => run.traffic("undone") == 0 && run.traffic("ring") > 0,
        }
    }
}

/// Runs a short trace of each seed below `seeds` by several workers, and counts the runs that agree with the run on one thread.
pub fn compare_short<R: Threads + Wait + Clock + RandomSource + Sync>(
    rt: &R,
    alloc: Global,
    seeds: u64,
) -> Result<Tally, AllocError> {
    let mut tally = Tally::default();
    for seed in 0..seeds {
        compare(rt, alloc, seed, Requests::Few, &mut tally)?;
    }
    Ok(tally)
}

/// Runs a long trace of sparse and one of dense requests of each seed below `seeds` by several workers, and counts the runs in which
/// workers rolled back, or went by windows, and that agree with the run on one thread.
pub fn compare_long<R: Threads + Wait + Clock + RandomSource + Sync>(
    rt: &R,
    alloc: Global,
    seeds: u64,
) -> Result<Tally, AllocError> {
    let mut tally = Tally::default();
    for seed in 0..seeds {
        compare(rt, alloc, seed, Requests::Sparse, &mut tally)?;
        compare(rt, alloc, seed, Requests::Dense, &mut tally)?;
    }
    Ok(tally)
}

/// Runs a drawn trace under each plan for its kind, and counts the runs that agree with the run on one thread.
fn compare<R: Threads + Wait + Clock + RandomSource + Sync>(
    rt: &R,
    alloc: Global,
    seed: u64,
    requests: Requests,
    tally: &mut Tally,
) -> Result<(), AllocError> {
    let drawn = Drawn::of(alloc, seed, requests)?;
    let serial = drawn.run(rt, alloc, "serial")?;
    for plan in requests.plans() {
        let warp = drawn.run(rt, alloc, plan)?;
        let is_same = serial.status == 0 && warp.status == 0 && warp.out == serial.out;
        tally.count(is_same && requests.are_tried_by(&warp));
    }
    Ok(())
}

/// A trace, and the options of the caches that it goes through.
#[derive(Drop)]
struct Drawn {
    caches: String,
    trace: String,
}

impl Drawn {
    /// What a seed draws.
    fn of(alloc: Global, seed: u64, requests: Requests) -> Result<Drawn, AllocError> {
        let mut dice = Dice { number: seed };
        let edges = match requests {
            Requests::Few => dice.draw(1, 4),
            Requests::Sparse => 4,
            Requests::Dense => 32,
        };
        Ok(Drawn {
            caches: caches(alloc, &mut dice, edges)?,
            trace: trace(alloc, &mut dice, edges, requests)?,
        })
    }

    /// Runs the trace by a command.
    fn run<R: Threads + Wait + Clock + RandomSource + Sync>(
        &self,
        rt: &R,
        alloc: Global,
        command: &str,
    ) -> Result<Run, AllocError> {
        let words = self.words(alloc, command)?;
        let given = Given {
            bytes: self.trace.as_bytes(),
            files: None,
        };
        Ok(Run::of(rt, alloc, words, given))
    }

    /// The program's words, its name first.
    fn words(&self, alloc: Global, command: &str) -> Result<Vec<String>, AllocError> {
        let text = format!(in alloc; "ripqwarp {command} {} -", self.caches)?;
        let mut words = Vec::new(alloc);
        push_words(alloc, &text, &mut words)?;
        Ok(words)
    }
}

/// Adds the words of a command line.
fn push_words(alloc: Global, text: &str, words: &mut Vec<String>) -> Result<(), AllocError> {
    for word in text.split(' ') {
        words.push(String::from_str(alloc, word)?)?;
    }
    Ok(())
}

/// Numbers drawn by a linear congruential generator.
#[derive(Drop)]
struct Dice {
    number: u64,
}

impl Dice {
    /// A number from `least` on, one of so many, or `least` where there is none.
    fn draw(&mut self, least: u64, many: u64) -> u64 {
        self.number = self
            .number
            .wrapping_mul(6_364_136_223_846_793_005)
            .wrapping_add(1_442_695_040_888_963_407);
        least.wrapping_add((self.number >> 33) % many.max(1))
    }
}

/// Caches so small that they evict, split, merge and put objects in again.
fn caches(alloc: Global, dice: &mut Dice, edges: u64) -> Result<String, AllocError> {
    let origins = dice.draw(1, 3);
    let policy = match dice.draw(0, 6) {
        0 => "lru",
        1 => "slru2",
        2 => "slru4",
        3 => "slru8",
        _ => "slru3",
    };
    let (sections, block) = (dice.draw(1, 6), dice.draw(8, 12));
    let (edge_blocks, origin_blocks) = (dice.draw(1, 5), dice.draw(2, 8));
    let (up, down, back) = (dice.draw(1, 6), dice.draw(1, 6), dice.draw(1, 20));
    format!(in alloc;
        "--edges {edges} --origins {origins} --policy {policy} --sections {sections} --block {block} --edge-blocks {edge_blocks} --origin-blocks {origin_blocks} --up {up} --down {down} --back {back}"
    )
}

/// Requests at these edges, close to one another, for few objects, some of which are too large for a block.
fn trace(
    alloc: Global,
    dice: &mut Dice,
    edges: u64,
    requests: Requests,
) -> Result<String, AllocError> {
    let mut trace = String::from_str(alloc, "time,edge,object,size\n")?;
    match requests {
        Requests::Few => push_few(dice, edges, &mut trace)?,
        Requests::Sparse => push_many(dice, edges, 20_000, 1, 4, &mut trace)?,
        Requests::Dense => push_many(dice, edges, 16_000, 512, 1, &mut trace)?,
    }
    Ok(trace)
}

/// Adds a few requests.
fn push_few(dice: &mut Dice, edges: u64, trace: &mut String) -> Result<(), AllocError> {
    let objects = dice.draw(4, 24);
    let mut time = 0u64;
    for _ in 0..dice.draw(40, 80) {
        time = time.wrapping_add(dice.draw(0, 5));
        push_row(dice, edges, objects, time, trace)?;
    }
    Ok(())
}

/// Adds so many requests, `together` of them at a time, and `ticks` from one time to the next.
fn push_many(
    dice: &mut Dice,
    edges: u64,
    count: u64,
    together: u64,
    ticks: u64,
    trace: &mut String,
) -> Result<(), AllocError> {
    let objects = dice.draw(100, 400);
    for row in 0..count {
        let time = (row / together.max(1)).wrapping_mul(ticks);
        push_row(dice, edges, objects, time, trace)?;
    }
    Ok(())
}

/// Adds a request at this time.
fn push_row(
    dice: &mut Dice,
    edges: u64,
    objects: u64,
    time: u64,
    trace: &mut String,
) -> Result<(), AllocError> {
    let (edge, object, size) = (dice.draw(0, edges), dice.draw(0, objects), dice.draw(1, 10));
    write!(trace, "{time},{edge},{object},{size}\n")?;
    Ok(())
}
