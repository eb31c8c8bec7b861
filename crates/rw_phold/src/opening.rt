ghost use Rattle.std.specs.Prelude.{◌≡◌, IfOk};
ghost use Rattle.rw_vt.specs.System.{IsReady};
ghost use Rattle.rw_phold.specs.Beginning.{first_balls, first_holders};
ghost use Rattle.rw_phold.specs.contracts.phold.PholdVtModel.TheImpl as model;

use crate::phold::{Ball, Holder, Phold, draw};
use rw_vt::{Event, NoMemory};
use std::alloc::Global;

/// What a run begins with: each process as it starts, and `population` balls, of which ball n comes to process n modulo
/// the number of processes, at a time that is drawn below the spread. All that is drawn comes from `seed`.
pub fn beginning(
    alloc: Global,
    phold: &Phold,
    population: u32,
    seed: u64,
) -> Result<(Vec<Holder>, Vec<Event<Ball>>), NoMemory>
    ensures starts { IfOk result (λ r. r.0.items ≡ first_holders phold.now seed) }
    ensures balls { IfOk result (λ r. r.1.items ≡ first_balls phold.now population seed) }
    ensures ready { IfOk result (λ r. IsReady model.ghosts phold.now r.0.items r.1.items) }
{
    let starts = holders(alloc, phold, seed)?;
    let initial = balls(alloc, phold, population, seed)?;
    Ok((starts, initial))
}

/// Each process as it starts.
fn holders(alloc: Global, phold: &Phold, seed: u64) -> Result<Vec<Holder>, NoMemory>
    ensures { IfOk result (λ v. v.items ≡ first_holders phold.now seed) }
{
    let mut holders = Vec::new(alloc);
    for process in 0..phold.processes {
        holders.push(Holder {
            random: draw(draw(seed ^ u64::from(process))),
            sum: 0,
            sends: 0,
            events: 0,
        })?;
    }
    Ok(holders)
}

/// The balls as they first come.
fn balls(
    alloc: Global,
    phold: &Phold,
    population: u32,
    seed: u64,
) -> Result<Vec<Event<Ball>>, NoMemory>
    ensures { IfOk result (λ v. v.items ≡ first_balls phold.now population seed) }
{
    let mut balls = Vec::new(alloc);
    let mut random = seed;
    for number in 0..population {
        random = draw(random);
        balls.push(Event {
            time: (random >> 32) % phold.spread,
            source: 0,
            number: u64::from(number),
            to: number % phold.processes,
            body: Ball { number },
        })?;
    }
    Ok(balls)
}
