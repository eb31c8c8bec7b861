// A station of the relay, through every call of a logical process.
use crate::desk::Call::{Arrive, Collect, Deliver, ExecuteNext, UndoOne};
use crate::desk::Line::{Ahead, Copies, Gives, Refuses, Settled, Shows};
use crate::desk::{Desk, Line};
use rw_lp::StepFault;
use rw_relay::parcels::station;
use rw_relay::{Parcel, Relay, Station};
use rw_vt::{END, Event, Letter};
use std::alloc::Global;
use std::test::Fail;

/// A parcel on its way to a station.
macro_rules! parcel {
    ($time:expr, $source:expr, $number:expr, $to:expr, $hops:expr) => {
        Event {
            time: $time,
            source: $source,
            number: $number,
            to: $to,
            body: Parcel { hops: $hops },
        }
    };
}

/// The two parcels that come to station 0 from outside.
const FIRST: Event<Parcel> = parcel!(5, 0, 0, 0, 3);

const SECOND: Event<Parcel> = parcel!(8, 0, 1, 0, 4);

/// What station 0 passes on 10 ticks later.
const FIRST_ON: Event<Parcel> = parcel!(15, 1, 0, 1, 2);

const SECOND_ON: Event<Parcel> = parcel!(18, 1, 1, 1, 3);

/// A parcel that comes between the two, and what station 0 then passes on for it and for the second one.
const LATE: Event<Parcel> = parcel!(6, 2, 0, 0, 2);

const LATE_ON: Event<Parcel> = parcel!(16, 1, 1, 1, 1);

const THEN_ON: Event<Parcel> = parcel!(18, 1, 2, 1, 3);

/// Station 0, to which the two are to come.
fn opened(alloc: Global) -> Result<Desk<Relay>, Fail> {
    let relay = Relay::new(10, u64::MAX).ok_or("relay")?;
    let initial = Vec::from_array(alloc, [SECOND, FIRST])?;
    Desk::open(alloc, relay, 0, Station::default(), initial)
}

/// The same, which has executed both.
fn ahead(alloc: Global) -> Result<Desk<Relay>, Fail> {
    opened(alloc)?.does(alloc, EXECUTES)
}

/// Goes through the lines, which leave this journal and this state.
fn ends(
    desk: Desk<Relay>,
    alloc: Global,
    lines: &[Line<'static, Parcel>],
    journal: &[Event<Parcel>],
    state: Station,
) -> Result<(), Fail> {
    let (left, at) = desk.does(alloc, lines)?.into_outcome();
    if left.as_slice() == journal && at == state {
        Ok(())
    } else {
        Err(Fail::from("another outcome"))
    }
}

const WAITS: &[Line<'static, Parcel>] = &[
    Refuses(UndoOne, StepFault::NothingToUndo),
    Ahead(&[], Some(FIRST), 5),
];

#[test]
fn waits_for_its_parcels(rt: HostRuntime) -> Result<(), Fail> {
    ends(
        opened(rt.alloc())?,
        rt.alloc(),
        WAITS,
        &[],
        station(0, 0, 0),
    )
}

const EXECUTES: &[Line<'static, Parcel>] = &[
    Gives(ExecuteNext, &[message!(FIRST_ON)]),
    Ahead(&[FIRST], Some(SECOND), 8),
    Gives(ExecuteNext, &[message!(SECOND_ON)]),
    Ahead(&[FIRST, SECOND], None, END),
];

#[test]
fn executes_its_parcels(rt: HostRuntime) -> Result<(), Fail> {
    ends(
        opened(rt.alloc())?,
        rt.alloc(),
        EXECUTES,
        &[],
        station(7, 4, 2),
    )
}

const NOTHING_PENDING: &[Line<'static, Parcel>] = &[Refuses(
    ExecuteNext,
    StepFault::NothingPending,
)];

#[test]
fn has_nothing_left_to_execute(rt: HostRuntime) -> Result<(), Fail> {
    ends(
        ahead(rt.alloc())?,
        rt.alloc(),
        NOTHING_PENDING,
        &[],
        station(7, 4, 2),
    )
}

const UNDOES: &[Line<'static, Parcel>] = &[
    Gives(UndoOne, &[anti!(SECOND_ON)]),
    Ahead(&[FIRST], Some(SECOND), 8),
];

#[test]
fn an_undoing_gives_back_the_state(rt: HostRuntime) -> Result<(), Fail> {
    ends(
        ahead(rt.alloc())?,
        rt.alloc(),
        UNDOES,
        &[],
        station(3, 3, 1),
    )
}

/// The station executes the late one in its place, and the second one again.
const CATCHES_UP: &[Line<'static, Parcel>] = &[
    Gives(Arrive(message!(LATE)), &[anti!(SECOND_ON)]),
    Ahead(&[FIRST], Some(LATE), 6),
    Gives(ExecuteNext, &[message!(LATE_ON)]),
    Gives(ExecuteNext, &[message!(THEN_ON)]),
];

/// The station that has done so.
fn caught_up(alloc: Global) -> Result<Desk<Relay>, Fail> {
    ahead(alloc)?.does(alloc, CATCHES_UP)
}

#[test]
fn a_late_parcel_is_executed_in_its_place(rt: HostRuntime) -> Result<(), Fail> {
    ends(
        caught_up(rt.alloc())?,
        rt.alloc(),
        &[],
        &[],
        station(9, 4, 3),
    )
}

const STRAGGLER: &[Line<'static, Parcel>] = &[
    Gives(Deliver(message!(LATE)), &[]),
    Refuses(ExecuteNext, StepFault::Straggler),
    Ahead(&[FIRST, SECOND], Some(LATE), 6),
    Gives(Deliver(anti!(LATE)), &[]),
    Ahead(&[FIRST, SECOND], None, END),
];

#[test]
fn a_late_parcel_is_a_straggler_until_it_is_cancelled(rt: HostRuntime) -> Result<(), Fail> {
    ends(
        ahead(rt.alloc())?,
        rt.alloc(),
        STRAGGLER,
        &[],
        station(7, 4, 2),
    )
}

const TAKES_BACK: &[Line<'static, Parcel>] = &[
    Refuses(Deliver(anti!(LATE)), StepFault::StillDone),
    Gives(Arrive(anti!(LATE)), &[anti!(THEN_ON), anti!(LATE_ON)]),
    Ahead(&[FIRST], Some(SECOND), 8),
];

#[test]
fn what_a_late_parcel_changed_is_taken_back(rt: HostRuntime) -> Result<(), Fail> {
    ends(
        caught_up(rt.alloc())?,
        rt.alloc(),
        TAKES_BACK,
        &[],
        station(3, 3, 1),
    )
}

/// A parcel whose anti-message comes first.
const OWED: Event<Parcel> = parcel!(9, 2, 1, 0, 1);

const PAYS_A_DEBT: &[Line<'static, Parcel>] = &[
    Gives(Deliver(anti!(OWED)), &[]),
    Ahead(&[FIRST, SECOND], None, 9),
    Refuses(Collect(10), StepFault::AboveFloor),
    Gives(Deliver(message!(OWED)), &[]),
    Ahead(&[FIRST, SECOND], None, END),
];

#[test]
fn a_debt_is_paid(rt: HostRuntime) -> Result<(), Fail> {
    ends(
        ahead(rt.alloc())?,
        rt.alloc(),
        PAYS_A_DEBT,
        &[],
        station(7, 4, 2),
    )
}

const COPIES: &[Line<'static, Parcel>] = &[
    Gives(Deliver(message!(LATE)), &[]),
    Gives(Deliver(message!(LATE)), &[]),
    Gives(Deliver(message!(SECOND)), &[]),
    Copies(LATE, 2, 0),
    Copies(FIRST, 1, 0),
    Copies(SECOND, 2, 0),
    Gives(Deliver(anti!(LATE)), &[]),
    Copies(LATE, 1, 0),
    Ahead(&[], Some(FIRST), 5),
    Gives(Deliver(anti!(LATE)), &[]),
    Gives(Deliver(anti!(LATE)), &[]),
    Gives(Deliver(anti!(LATE)), &[]),
    Copies(LATE, 0, 2),
    Gives(Deliver(message!(LATE)), &[]),
    Copies(LATE, 0, 1),
    Gives(Deliver(anti!(FIRST)), &[]),
    Copies(FIRST, 0, 0),
    Ahead(&[], Some(SECOND), 6),
];

#[test]
fn equal_copies_count(rt: HostRuntime) -> Result<(), Fail> {
    ends(
        opened(rt.alloc())?,
        rt.alloc(),
        COPIES,
        &[],
        station(0, 0, 0),
    )
}

const COMMITS: &[Line<'static, Parcel>] = &[
    Gives(Collect(8), &[]),
    Shows(&[FIRST], &[SECOND], None, END),
    Gives(UndoOne, &[anti!(SECOND_ON)]),
    Refuses(UndoOne, StepFault::NothingToUndo),
    Gives(ExecuteNext, &[message!(SECOND_ON)]),
    Gives(Collect(END), &[]),
    Settled(&[FIRST, SECOND]),
];

#[test]
fn the_past_is_committed(rt: HostRuntime) -> Result<(), Fail> {
    let journal = [FIRST, SECOND];
    ends(
        ahead(rt.alloc())?,
        rt.alloc(),
        COMMITS,
        &journal,
        station(7, 4, 2),
    )
}

const COLLECTS: &[Line<'static, Parcel>] = &[Gives(Collect(8), &[])];

#[test]
fn what_has_collected_is_sound(rt: HostRuntime) -> Result<(), Fail> {
    let desk = ahead(rt.alloc())?.does(rt.alloc(), COLLECTS)?;
    desk.soundness();
    Ok(())
}
