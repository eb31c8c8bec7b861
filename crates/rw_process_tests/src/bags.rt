// Bags of parcels, through every call. What comes back is worked by hand from their order.
use rw_bag::{Bag, CountedBag};
use rw_relay::{Parcel, Relay};
use rw_vt::{END, Event};
use std::alloc::Global;
use std::test::Fail;

/// A parcel at this time, with so many hops.
macro_rules! at {
    ($time:expr, $hops:expr) => {
        Event {
            time: $time,
            source: 0,
            number: 0,
            to: 0,
            body: Parcel { hops: $hops },
        }
    };
    ($time:expr) => {
        at!($time, 3)
    };
}

fn if_it(holds: bool) -> Result<(), Fail> {
    if holds {
        Ok(())
    } else {
        Err(Fail::from("a line does not hold"))
    }
}

/// A bag of the events of the first list, in which those of the second one are then put, in this order.
fn filled(
    alloc: Global,
    first: &[Event<Parcel>],
    then: &[Event<Parcel>],
) -> Result<Bag<Relay>, Fail> {
    let mut bag = Bag::from_events(Vec::from_slice(alloc, first)?)?;
    for event in then {
        bag.put(*event)?;
    }
    Ok(bag)
}

/// These are the events, in order: each is the least, and is taken.
fn empties(bag: &mut Bag<Relay>, events: &[Event<Parcel>]) -> Result<(), Fail> {
    for event in events {
        if_it(bag.first().copied() == Some(*event) && bag.least_time() == event.time)?;
        if_it(bag.take(*event))?;
    }
    if_it(bag.first().is_none() && bag.least_time() == END)
}

const TWO: &[Event<Parcel>] = &[at!(8), at!(5)];

const FIVE_MORE: &[Event<Parcel>] = &[at!(6), at!(5), at!(9), at!(7), at!(7)];

const SEVEN_IN_ORDER: &[Event<Parcel>] = &[at!(5), at!(5), at!(6), at!(7), at!(7), at!(8), at!(9)];

#[test]
fn gives_its_events_in_order(rt: HostRuntime) -> Result<(), Fail> {
    let mut bag = filled(rt.alloc(), TWO, FIVE_MORE)?;
    empties(&mut bag, SEVEN_IN_ORDER)
}

/// Two events, and the same with other hops.
const EIGHT: Event<Parcel> = at!(8);

const OTHER_EIGHT: Event<Parcel> = at!(8, 4);

const NINE: Event<Parcel> = at!(9);

const OTHER_NINE: Event<Parcel> = at!(9, 4);

/// It holds three copies of one event and none of the other, and gives one of them.
fn counts_three(bag: &mut Bag<Relay>) -> Result<(), Fail> {
    if_it(bag.copies(&EIGHT) == 3 && bag.copies(&OTHER_EIGHT) == 0)?;
    if_it(bag.holds(NINE) && !bag.holds(OTHER_NINE))?;
    if_it(!bag.take(OTHER_EIGHT))?;
    if_it(bag.take(EIGHT))
}

const THREE: &[Event<Parcel>] = &[EIGHT, at!(5), EIGHT];

const TWO_MORE: &[Event<Parcel>] = &[NINE, EIGHT];

const FOUR_IN_ORDER: &[Event<Parcel>] = &[at!(5), EIGHT, EIGHT, NINE];

#[test]
fn counts_copies_of_whole_events(rt: HostRuntime) -> Result<(), Fail> {
    let mut bag = filled(rt.alloc(), THREE, TWO_MORE)?;
    counts_three(&mut bag)?;
    empties(&mut bag, FOUR_IN_ORDER)
}

#[test]
fn begins_with_nothing(rt: HostRuntime) -> Result<(), Fail> {
    let mut bag = Bag::new(rt.alloc())?;
    if_it(!bag.take(EIGHT))?;
    empties(&mut bag, &[])
}

/// Three events come, and all but a copy go.
fn counts(bag: &mut CountedBag<Relay>) -> Result<(), Fail> {
    for event in THREE {
        bag.put(*event)?;
    }
    if_it(bag.first().copied() == Some(at!(5)) && bag.copies(&EIGHT) == 2)?;
    if_it(bag.take(at!(5)) && !bag.take(at!(5)))?;
    if_it(bag.take(EIGHT) && bag.copies(&EIGHT) == 1)
}

#[test]
fn counts_what_comes_in_any_order(rt: HostRuntime) -> Result<(), Fail> {
    let mut bag = CountedBag::new(rt.alloc());
    counts(&mut bag)
}
