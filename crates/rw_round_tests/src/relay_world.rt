// A world of the relay, through every call, and every refusal.
ghost use Rattle.std.specs.Prelude.{◌≡◌};

use rw_relay::parcels::{beginning, parcel, station};
use rw_relay::{Parcel, Relay};
use rw_rounds::none_set_aside;
use rw_vt::{END, Event};
use rw_world::Answer::{Done, Refused};
use rw_world::{
    Answer, Step, StepFault, World, draw, every_exchange, every_floor, every_schedule,
    every_sound_world, every_step,
};
use std::alloc::Global;
use std::process::Abort;
use std::test::Fail;

// A parcel to station 0 with one hop left.
fn coming() -> Event<Parcel>
    ensures { result
        ≡ record { time = 5; source = 0; number = 0; to = 0; body = record { hops = 1 } } }
{
    parcel(5, 0, 0, 0, 1)
}

// A parcel to station 1 with none left.
fn later() -> Event<Parcel>
    ensures { result
        ≡ record { time = 20; source = 0; number = 0; to = 1; body = record { hops = 0 } } }
{
    parcel(20, 0, 0, 1, 0)
}

// What station 0 passes on, 3 ticks after it came.
fn sent() -> Event<Parcel> {
    parcel(8, 1, 0, 1, 0)
}

// Nothing has come yet.
fn opened(alloc: Global) -> Result<World<Relay>, Fail> {
    let relay = Relay::new(3, u64::MAX).ok_or("relay")?;
    let (starts, initial) = beginning(alloc, coming(), later())?;
    Ok(World::open(alloc, relay, starts, initial)?)
}

/// Steps with their answers: an anti-message that overtakes its message, a straggler, and an
/// anti-message that waits for an undoing.
const STEPS: [(Step, Answer); 20] = [
    (Step::Collect(6), Refused(StepFault::AboveFloor)),
    (Step::Execute(1), Done),
    (Step::Execute(0), Done),
    (Step::Undo(0), Done),
    (Step::Deliver(1), Done),
    (Step::Deliver(0), Done),
    (Step::Execute(0), Done),
    (Step::Deliver(0), Done),
    (Step::Execute(1), Refused(StepFault::Straggler)),
    (Step::Undo(1), Done),
    (Step::Execute(1), Done),
    (Step::Undo(0), Done),
    (Step::Deliver(0), Refused(StepFault::StillDone)),
    (Step::Undo(1), Done),
    (Step::Deliver(0), Done),
    (Step::Execute(0), Done),
    (Step::Deliver(0), Done),
    (Step::Execute(1), Done),
    (Step::Execute(1), Done),
    (Step::Execute(1), Refused(StepFault::NothingPending)),
];

/// After them nothing is left to do but to commit.
const COMMITS: [(Step, Answer); 4] = [
    (Step::Collect(END), Done),
    (Step::Undo(0), Refused(StepFault::NothingToUndo)),
    (Step::Execute(2), Refused(StepFault::NoSuchProcess)),
    (Step::Deliver(0), Refused(StepFault::NoSuchLetter)),
];

/// Makes the steps, each of which is answered as it says.
fn follow<R: Abort>(
    rt: &R,
    alloc: Global,
    world: World<Relay>,
    steps: &[(Step, Answer)],
) -> Result<World<Relay>, Fail> {
    let mut world = world;
    for (row, (step, want)) in steps.iter().enumerate() {
        let (next, answer) = world.apply(alloc, *step)?;
        assert!(rt; answer == *want, "row {row}");
        world = next;
    }
    Ok(world)
}

/// What a world shows of itself: the least time of what is outstanding, whether nothing is left to do, and how many events
/// station 1 has committed.
fn outlook(world: &World<Relay>) -> (u64, bool, usize) {
    (world.floor(), world.finished(), world.journal(1).len())
}

#[test]
fn begins_at_its_least_event(rt: HostRuntime) -> Result<(), Fail> {
    assert!(rt; outlook(&opened(rt.alloc())?) == (5, false, 0));
    Ok(())
}

/// The world to which the steps lead.
fn finished<R: Abort>(rt: &R, alloc: Global) -> Result<World<Relay>, Fail> {
    let world = follow(rt, alloc, opened(alloc)?, &STEPS)?;
    Ok(World::put(world.take()))
}

#[test]
fn runs_ahead_and_back(rt: HostRuntime) -> Result<(), Fail> {
    assert!(rt; outlook(&finished(&rt, rt.alloc())?) == (END, true, 0));
    Ok(())
}

/// Whether all is committed, at both stations, and what they have come to.
fn is_committed(world: &World<Relay>) -> bool {
    world.journal(0) == [coming()].as_slice()
        && world.journal(1) == [sent(), later()].as_slice()
        && *world.state(0) == station(1, 1, 1)
        && *world.state(1) == station(0, 0, 0)
}

#[test]
fn a_finished_world_is_committed(rt: HostRuntime) -> Result<(), Fail> {
    let world = follow(&rt, rt.alloc(), finished(&rt, rt.alloc())?, &COMMITS)?;
    assert!(rt; is_committed(&world));
    assert!(rt; outlook(&world) == (END, true, 2));
    Ok(())
}

/// Whether some steps, made as one where nothing has come yet, are answered as one by one.
fn are_answered(alloc: Global, steps: &[Step], want: &[Answer]) -> Result<bool, Fail> {
    let (_world, answers) = opened(alloc)?.run_steps(alloc, steps)?;
    Ok(answers.as_slice() == want)
}

#[test]
fn answers_the_steps_of_a_list(rt: HostRuntime) -> Result<(), Fail> {
    let steps = [Step::Collect(6), Step::Execute(1), Step::Execute(2)];
    let want = [
        Refused(StepFault::AboveFloor),
        Done,
        Refused(StepFault::NoSuchProcess),
    ];
    assert!(rt; are_answered(rt.alloc(), &steps, &want)?);
    Ok(())
}

#[test]
fn draws_the_steps(rt: HostRuntime) -> Result<(), Fail> {
    let steps = draw(rt.alloc(), 0, 10, 3)?;
    let want = [
        Step::Collect(55),
        Step::Execute(0),
        Step::Execute(0),
        Step::Deliver(6),
        Step::Deliver(5),
        Step::Undo(1),
        Step::Execute(1),
        Step::Collect(56),
        Step::Execute(0),
        Step::Undo(0),
    ];
    assert!(rt; steps.as_slice() == want.as_slice());
    Ok(())
}

#[test]
fn the_laws_are_stated_of_the_relay(_rt: HostRuntime) {
    every_step::<Relay>();
    every_sound_world::<Relay>();
    every_schedule::<Relay>();
    every_floor::<Relay>();
    every_exchange::<Relay>();
    none_set_aside::<Relay>();
}
