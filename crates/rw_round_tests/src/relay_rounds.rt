// The relay run in rounds, also from worlds that drawn steps lead to.
ghost use Rattle.std.specs.Prelude.{◌≡◌, true};
ghost use Rattle.rw_relay.specs.Parcels.{is_sound_event};

use rw_relay::parcels::{beginning, parcel};
use rw_relay::{Parcel, Relay};
use rw_rounds::{Open, Plan, Sim, Stop, run, run_round};
use rw_vt::{END, Event, Outcome};
use rw_world::{World, draw};
use std::alloc::Global;
use std::sync::Wait;
use std::test::Fail;
use std::thread::Threads;

/// How rounds are run, but for their number: workers, turns, batch, window and ring.
const PLANS: [(u32, u32, u32, u64, u32); 4] = [
    (1, 3, 2, END, 1),
    (2, 2, 1, END, 1),
    (2, 16, 64, 1, 64),
    (16, 16, 4096, END, 1),
];

fn plan(of: (u32, u32, u32, u64, u32), max_rounds: u32) -> Plan {
    let (workers, turns, batch, window, ring) = of;
    Plan {
        workers,
        turns,
        batch,
        window,
        ring,
        max_rounds,
        lazy: false,
    }
}

/// A parcel that goes to and fro for a while.
fn first() -> Event<Parcel>
    ensures { is_sound_event result ≡ true }
{
    parcel(5, 0, 0, 0, 9)
}

/// Another one, that comes to the same station or to the other one, where it meets the first.
fn second(same: bool) -> Event<Parcel>
    ensures { is_sound_event result ≡ true }
{
    parcel(8, 0, 1, if same { 0 } else { 1 }, 12)
}

/// Two parcels come, to the same station or not, and each station takes none once it passed `most` on.
fn opened(alloc: Global, same: bool, most: u64) -> Result<World<Relay>, Fail> {
    let relay = Relay::new(3, most).ok_or("relay")?;
    let (starts, initial) = beginning(alloc, first(), second(same))?;
    Ok(World::open(alloc, relay, starts, initial)?)
}

/// The world to which the steps that this seed draws lead.
fn drawn(alloc: Global, seed: u64) -> Result<World<Relay>, Fail> {
    let steps = draw(alloc, seed, 60, 2)?;
    let (world, _answers) = opened(alloc, false, u64::MAX)?.run_steps(alloc, &steps)?;
    Ok(world)
}

fn in_order(alloc: Global) -> Result<Outcome<Relay>, Fail> {
    let relay = Relay::new(3, u64::MAX).ok_or("relay")?;
    let (starts, initial) = beginning(alloc, first(), second(false))?;
    Ok(rw_serial::run(alloc, &relay, starts, initial)?)
}

/// Whether rounds lead from this world to that outcome.
fn lead<R: Threads + Wait + Sync>(
    rt: &R,
    alloc: Global,
    world: World<Relay>,
    plan: Plan,
    want: &Outcome<Relay>,
) -> bool {
    let Ok((outcome, _traffic)) = run(rt, alloc, world, plan, &Open) else {
        return false;
    };
    outcome.journals == want.journals && outcome.states == want.states
}

/// Whether rounds lead to the outcome in order, from the beginning and from the world that this seed draws.
fn both_lead<R: Threads + Wait + Sync>(
    rt: &R,
    alloc: Global,
    seed: u64,
    plan: Plan,
) -> Result<(bool, bool), Fail> {
    let want = in_order(alloc)?;
    let from_opened = lead(rt, alloc, opened(alloc, false, u64::MAX)?, plan, &want);
    let from_drawn = lead(rt, alloc, drawn(alloc, seed)?, plan, &want);
    Ok((from_opened, from_drawn))
}

#[test]
fn rounds_lead_to_the_outcome_in_order(rt: HostRuntime) -> Result<(), Fail> {
    for (seed, of) in PLANS.iter().enumerate() {
        let lead = both_lead(&rt, rt.alloc(), seed as u64, plan(*of, 1_048_576))?;
        assert!(rt; lead == (true, true), "plan {seed}");
    }
    Ok(())
}

/// One round of one worker.
fn one_round<R: Threads + Wait + Sync>(rt: &R, alloc: Global) -> Result<Sim<Relay>, Fail> {
    let plan = plan((1, 1, 2, END, 1), 1);
    let Ok(sim) = Sim::open(opened(alloc, false, u64::MAX)?, plan) else {
        return Err(Fail::from("plan"));
    };
    match run_round(rt, alloc, sim, &Open) {
        Ok(sim) => Ok(sim),
        Err(_) => Err(Fail::from("round")),
    }
}

/// The floor of one round, how many events it executes, and whether the first parcel is all that it commits.
fn told_of_one_round<R: Threads + Wait + Sync>(
    rt: &R,
    alloc: Global,
) -> Result<(u64, u64, bool), Fail> {
    let sim = one_round(rt, alloc)?;
    let (floor, executed) = (sim.floor(), sim.traffic().executed);
    let world = sim.into_world();
    let has_first = world.journal(0) == [first()].as_slice() && world.journal(1).is_empty();
    Ok((floor, executed, has_first))
}

#[test]
fn a_round_tells_its_floor_and_commits_what_is_before_it(rt: HostRuntime) -> Result<(), Fail> {
    assert!(rt; told_of_one_round(&rt, rt.alloc())? == (8, 2, true));
    Ok(())
}

/// Why rounds do not lead to an end, from the world that is opened so.
fn stop<R: Threads + Wait + Sync>(
    rt: &R,
    alloc: Global,
    same: bool,
    most: u64,
    plan: Plan,
) -> Result<Option<Stop>, Fail> {
    let world = opened(alloc, same, most)?;
    Ok(run(rt, alloc, world, plan, &Open).err())
}

#[test]
fn a_run_stops_with_its_reason(rt: HostRuntime) -> Result<(), Fail> {
    for (same, most, plan, reason) in [
        (
            false,
            u64::MAX,
            plan((2, 1, 1, END, 1), 3),
            Stop::RoundsUsed,
        ),
        (true, 1, plan(PLANS[0], 9), Stop::Exhausted),
        (false, 1, plan((0, 1, 1, 1, 1), 1), Stop::BadPlan),
    ] {
        assert!(rt;
            stop(&rt, rt.alloc(), same, most, plan)? == Some(reason),
            "{reason:?}"
        );
    }
    Ok(())
}
