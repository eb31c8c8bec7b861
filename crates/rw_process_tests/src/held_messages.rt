// A bus stop whose passengers are undone lazily. Each makes it call its bus, with one message that is the same for all, and then
// tell how many have come: equal messages are held as copies, and of two sends only the second one changes.
use crate::desk::Call::{ArriveLazily, Deliver, ExecuteNext, UndoLazily};
use crate::desk::Line::{Ahead, Copies, Gives};
use crate::desk::{Desk, Line};
use crate::notes::{DUE, three_to_come};
use rw_relay::{Note, Seen, Stop};
use rw_rounds::{Open, Plan, run};
use rw_vt::{END, Event, Letter, Outcome};
use rw_world::{World, draw_mixed};
use std::alloc::Global;
use std::sync::Wait;
use std::test::Fail;
use std::thread::Threads;

/// A passenger who comes to the stop.
macro_rules! passenger {
    ($time:expr, $number:expr) => {
        Event {
            time: $time,
            source: 0,
            number: $number,
            to: 0,
            body: Note { people: 1 },
        }
    };
}

/// What the stop sends to its bus.
macro_rules! sent {
    ($number:expr, $people:expr) => {
        Event {
            time: DUE,
            source: 1,
            number: $number,
            to: 1,
            body: Note { people: $people },
        }
    };
}

/// Two passengers, one after the other, and one between them who comes late.
const FIRST: Event<Note> = passenger!(5, 0);

const SECOND: Event<Note> = passenger!(8, 1);

const LATE: Event<Note> = passenger!(6, 2);

/// What each passenger makes the stop call to its bus.
const CALL: Event<Note> = sent!(0, 1);

/// What the stop then tells: how many have come.
const TOLD_ONE: Event<Note> = sent!(1, 1);

const TOLD_TWO: Event<Note> = sent!(1, 2);

const TOLD_THREE: Event<Note> = sent!(1, 3);

/// The stop, to which the two are to come.
fn opened(alloc: Global) -> Result<Desk<Stop>, Fail> {
    let stop = Stop::new(DUE).ok_or("stop")?;
    let initial = Vec::from_array(alloc, [FIRST, SECOND])?;
    Desk::open(alloc, stop, 0, Seen::default(), initial)
}

/// Two passengers come, one after the other.
const COME: &[Line<'static, Note>] = &[
    Gives(ExecuteNext, &[message!(CALL), message!(TOLD_ONE)]),
    Gives(ExecuteNext, &[message!(CALL), message!(TOLD_TWO)]),
];

/// Goes through the lines once the two have come, after which so many passengers have.
fn ends(alloc: Global, lines: &[Line<'static, Note>], passengers: u64) -> Result<(), Fail> {
    let desk = opened(alloc)?.does(alloc, COME)?.does(alloc, lines)?;
    if desk.state().events == passengers {
        Ok(())
    } else {
        Err(Fail::from("another number of passengers"))
    }
}

const SENDS_NOTHING_AGAIN: &[Line<'static, Note>] = &[
    Gives(UndoLazily, &[]),
    Ahead(&[FIRST], Some(SECOND), 8),
    Gives(ExecuteNext, &[]),
    Ahead(&[FIRST, SECOND], None, END),
];

#[test]
fn what_is_sent_again_as_it_was_is_not_sent(rt: HostRuntime) -> Result<(), Fail> {
    ends(rt.alloc(), SENDS_NOTHING_AGAIN, 2)
}

const SENDS_WHAT_CHANGES: &[Line<'static, Note>] = &[
    Gives(ArriveLazily(anti!(FIRST)), &[anti!(CALL), anti!(TOLD_ONE)]),
    Ahead(&[], Some(SECOND), 8),
    Gives(ExecuteNext, &[message!(TOLD_ONE), anti!(TOLD_TWO)]),
    Ahead(&[SECOND], None, END),
];

#[test]
fn of_two_messages_the_one_that_changes_is_sent_anew(rt: HostRuntime) -> Result<(), Fail> {
    ends(rt.alloc(), SENDS_WHAT_CHANGES, 1)
}

/// The later passenger is undone first. So the earlier one, executed again, takes the call of the later one for its own, and
/// cancels its own; then the later one sends the call anew.
const TAKES_THE_FIRST_COPY: &[Line<'static, Note>] = &[
    Gives(UndoLazily, &[]),
    Gives(UndoLazily, &[]),
    Ahead(&[], Some(FIRST), 5),
    Gives(ExecuteNext, &[anti!(CALL)]),
    Gives(ExecuteNext, &[message!(CALL)]),
    Ahead(&[FIRST, SECOND], None, END),
];

#[test]
fn of_equal_messages_the_one_that_came_first_goes_first(rt: HostRuntime) -> Result<(), Fail> {
    ends(rt.alloc(), TAKES_THE_FIRST_COPY, 2)
}

const STRAGGLER_SENDS_WHAT_IS_HELD: &[Line<'static, Note>] = &[
    Gives(ArriveLazily(message!(LATE)), &[]),
    Ahead(&[FIRST], Some(LATE), 6),
    Gives(ExecuteNext, &[]),
    Gives(ExecuteNext, &[message!(CALL), message!(TOLD_THREE)]),
];

#[test]
fn a_straggler_may_send_what_is_held(rt: HostRuntime) -> Result<(), Fail> {
    ends(rt.alloc(), STRAGGLER_SENDS_WHAT_IS_HELD, 3)
}

const CANCELS_WITH_THE_LAST_COPY: &[Line<'static, Note>] = &[
    Gives(UndoLazily, &[]),
    Gives(Deliver(message!(SECOND)), &[]),
    Copies(SECOND, 2, 0),
    Gives(Deliver(anti!(SECOND)), &[]),
    Copies(SECOND, 1, 0),
    Gives(Deliver(anti!(SECOND)), &[anti!(CALL), anti!(TOLD_TWO)]),
    Ahead(&[FIRST], None, END),
];

#[test]
fn what_is_held_is_cancelled_with_the_last_copy(rt: HostRuntime) -> Result<(), Fail> {
    ends(rt.alloc(), CANCELS_WITH_THE_LAST_COPY, 1)
}

/// A stop and its bus, with three passengers to come.
fn world(alloc: Global) -> Result<World<Stop>, Fail> {
    let stop = Stop::new(DUE).ok_or("stop")?;
    let (starts, initial) = three_to_come(alloc)?;
    Ok(World::open(alloc, stop, starts, initial)?)
}

/// The world to which the steps that this seed draws lead, lazy undoings among them.
fn drawn(alloc: Global, seed: u64) -> Result<World<Stop>, Fail> {
    let steps = draw_mixed(alloc, seed, 40, 2)?;
    let (world, _answers) = world(alloc)?.run_steps(alloc, &steps)?;
    Ok(world)
}

fn in_order(alloc: Global) -> Result<Outcome<Stop>, Fail> {
    let stop = Stop::new(DUE).ok_or("stop")?;
    let (starts, initial) = three_to_come(alloc)?;
    Ok(rw_serial::run(alloc, &stop, starts, initial)?)
}

/// Whether rounds whose undoings are lazy lead from this world to that outcome.
fn lead<R: Threads + Wait + Sync>(
    rt: &R,
    alloc: Global,
    world: World<Stop>,
    workers: u32,
    want: &Outcome<Stop>,
) -> bool {
    let plan = Plan {
        workers,
        turns: 3,
        batch: 2,
        window: END,
        ring: 1,
        max_rounds: 1_048_576,
        lazy: true,
    };
    let Ok((outcome, _traffic)) = run(rt, alloc, world, plan, &Open) else {
        return false;
    };
    outcome.journals == want.journals && outcome.states == want.states
}

#[test]
fn lazy_rounds_lead_to_the_outcome_in_order(rt: HostRuntime) -> Result<(), Fail> {
    let alloc = rt.alloc();
    let want = in_order(alloc)?;
    for seed in 0..32 {
        for workers in 1..3 {
            let leads = lead(&rt, alloc, drawn(alloc, seed)?, workers, &want);
            assert!(rt; leads, "seed {seed}, {workers} workers");
        }
    }
    Ok(())
}
