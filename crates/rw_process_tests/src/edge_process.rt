// One edge process of the photo caches. With nothing stored it executes two requests ahead, a fill comes late and is
// cancelled again, an anti-message comes before its message, and the past is committed; undone lazily, what a request
// had sent is sent again, or cancelled when the request is executed again or cancelled itself. Where it stores, a fill
// that nobody awaits is stored and taken back.
use crate::desk::Call::{Arrive, ArriveLazily, Collect, Deliver, ExecuteNext, UndoLazily, UndoOne};
use crate::desk::Line::{Ahead, Gives, Refuses, Settled, Shows};
use crate::desk::{Desk, Line};
use rw_lp::StepFault;
use rw_photo::{Body, Config, Counters, Photo, Policy, Shape};
use rw_ripqwarp::execute_and_reverse;
use rw_vt::{END, Event, Letter, Model};
use std::alloc::Global;
use std::test::Fail;

/// Something that happens to object 7, of 4 bytes.
macro_rules! happens {
    ($time:expr, $source:expr, $number:expr, $to:expr, $kind:ident { $($field:ident: $value:expr),* }) => {
        Event {
            time: $time,
            source: $source,
            number: $number,
            to: $to,
            body: Body::$kind { object: 7, size: 4, $($field: $value),* },
        }
    };
}

/// The two requests that come to the edge.
const FIRST: Event<Body> = happens!(5, 0, 0, 0, Request {});

const SECOND: Event<Body> = happens!(22, 0, 1, 0, Request {});

/// What the edge asks of the origin, for the first one, and for the second one once the first is answered.
const MISS: Event<Body> = happens!(8, 1, 0, 1, Miss { edge: 0 });

const MISS_AGAIN: Event<Body> = happens!(25, 1, 1, 1, Miss { edge: 0 });

/// What the origin answers, between the two requests, and after both.
const FILL: Event<Body> = happens!(21, 2, 0, 0, Fill {});

const LATER_FILL: Event<Body> = happens!(30, 2, 1, 0, Fill {});

/// An edge under a policy, with these events pending.
fn edge(alloc: Global, policy: Policy, initial: Vec<Event<Body>>) -> Result<Desk<Photo>, Fail> {
    let shape = Shape::new(1, 10, 1).ok_or("shape")?;
    let config = Config::new(1, 1, policy, shape, shape, 3, 3, 10).ok_or("config")?;
    let photo = Photo::new(config);
    let start = photo.start(alloc, 0)?;
    Desk::open(alloc, photo, 0, start, initial)
}

/// An edge that stores nothing, to which the two requests are to come.
fn asked_twice(alloc: Global) -> Result<Desk<Photo>, Fail> {
    edge(alloc, Policy::Off, Vec::from_array(alloc, [FIRST, SECOND])?)
}

/// Goes through the lines, after which the cache has counted this.
pub fn ends(
    desk: Desk<Photo>,
    alloc: Global,
    lines: &[Line<'_, Body>],
    counted: Counters,
) -> Result<(), Fail> {
    if counted_after(desk, alloc, lines)? == counted {
        Ok(())
    } else {
        Err(Fail::from("other counters"))
    }
}

/// Goes through the lines, and what the cache has then counted.
fn counted_after(
    desk: Desk<Photo>,
    alloc: Global,
    lines: &[Line<'_, Body>],
) -> Result<Counters, Fail> {
    let desk = desk.does(alloc, lines)?;
    Ok(desk.state().counters())
}

/// The counters of a cache to which nothing has come.
pub const NOTHING: Counters = Counters {
    requests: 0,
    hits: 0,
    misses: 0,
    coalesced: 0,
    late: 0,
    bypassed: 0,
    inserted: 0,
    evicted: 0,
    reinserted: 0,
    promoted: 0,
    writes: 0,
    splits: 0,
    merges: 0,
    hit_bytes: 0,
    request_bytes: 0,
    inserted_bytes: 0,
    purges: 0,
    purged: 0,
};

/// The counters of an edge that has had `requests` requests of 4 bytes, each a miss, of which `coalesced` were coalesced
/// and `late` are late.
fn missed(requests: u64, coalesced: u64, late: u64) -> Counters {
    Counters {
        requests,
        misses: requests,
        coalesced,
        late,
        request_bytes: requests.wrapping_mul(4),
        ..NOTHING
    }
}

/// The edge executes both requests: the second one joins the first.
const JOINS: &[Line<'static, Body>] = &[
    Gives(ExecuteNext, &[message!(MISS)]),
    Gives(ExecuteNext, &[]),
    Ahead(&[FIRST, SECOND], None, END),
];

/// The edge that has executed both.
fn joined(alloc: Global) -> Result<Desk<Photo>, Fail> {
    asked_twice(alloc)?.does(alloc, JOINS)
}

#[test]
fn a_request_joins_the_one_before(rt: HostRuntime) -> Result<(), Fail> {
    ends(joined(rt.alloc())?, rt.alloc(), &[], missed(2, 1, 0))
}

/// A fill comes late, and the second request is executed again.
const FILLS: &[Line<'static, Body>] = &[
    Gives(Arrive(message!(FILL)), &[]),
    Ahead(&[FIRST], Some(FILL), 21),
    Gives(ExecuteNext, &[]),
    Gives(ExecuteNext, &[message!(MISS_AGAIN)]),
];

/// The edge to which the fill has come.
fn filled(alloc: Global) -> Result<Desk<Photo>, Fail> {
    joined(alloc)?.does(alloc, FILLS)
}

#[test]
fn a_fill_makes_a_request_late(rt: HostRuntime) -> Result<(), Fail> {
    ends(filled(rt.alloc())?, rt.alloc(), &[], missed(2, 0, 1))
}

/// The fill is cancelled.
const CANCELS: &[Line<'static, Body>] = &[
    Gives(Arrive(anti!(FILL)), &[anti!(MISS_AGAIN)]),
    Ahead(&[FIRST], Some(SECOND), 22),
];

/// The edge at which the fill was cancelled.
fn cancelled(alloc: Global) -> Result<Desk<Photo>, Fail> {
    filled(alloc)?.does(alloc, CANCELS)
}

#[test]
fn a_cancelled_fill_is_undone(rt: HostRuntime) -> Result<(), Fail> {
    ends(cancelled(rt.alloc())?, rt.alloc(), &[], missed(1, 0, 0))
}

const ANTI_MESSAGE_FIRST: &[Line<'static, Body>] = &[
    Gives(ExecuteNext, &[]),
    Gives(Deliver(anti!(LATER_FILL)), &[]),
    Ahead(&[FIRST, SECOND], None, 30),
    Gives(Deliver(message!(LATER_FILL)), &[]),
    Ahead(&[FIRST, SECOND], None, END),
    Gives(Collect(END), &[]),
    Settled(&[FIRST, SECOND]),
];

#[test]
fn an_anti_message_comes_before_its_message(rt: HostRuntime) -> Result<(), Fail> {
    ends(
        cancelled(rt.alloc())?,
        rt.alloc(),
        ANTI_MESSAGE_FIRST,
        missed(2, 1, 0),
    )
}

const SENDS_NOTHING_AGAIN: &[Line<'static, Body>] = &[
    Gives(UndoLazily, &[]),
    Ahead(&[FIRST, FILL], Some(SECOND), 22),
    Gives(ExecuteNext, &[]),
    Ahead(&[FIRST, FILL, SECOND], None, END),
];

#[test]
fn a_held_message_is_not_sent_again(rt: HostRuntime) -> Result<(), Fail> {
    ends(
        filled(rt.alloc())?,
        rt.alloc(),
        SENDS_NOTHING_AGAIN,
        missed(2, 0, 1),
    )
}

const CANCELS_WHAT_IS_NOT_SENT_AGAIN: &[Line<'static, Body>] = &[
    Gives(ArriveLazily(anti!(FILL)), &[]),
    Ahead(&[FIRST], Some(SECOND), 22),
    Gives(ExecuteNext, &[anti!(MISS_AGAIN)]),
    Ahead(&[FIRST, SECOND], None, END),
];

#[test]
fn a_held_message_is_cancelled_that_is_not_sent_again(rt: HostRuntime) -> Result<(), Fail> {
    ends(
        filled(rt.alloc())?,
        rt.alloc(),
        CANCELS_WHAT_IS_NOT_SENT_AGAIN,
        missed(2, 1, 0),
    )
}

const CANCELS_WITH_ITS_EVENT: &[Line<'static, Body>] = &[
    Gives(UndoLazily, &[]),
    Gives(Deliver(anti!(SECOND)), &[anti!(MISS_AGAIN)]),
    Ahead(&[FIRST, FILL], None, END),
];

#[test]
fn a_held_message_is_cancelled_with_its_event(rt: HostRuntime) -> Result<(), Fail> {
    ends(
        filled(rt.alloc())?,
        rt.alloc(),
        CANCELS_WITH_ITS_EVENT,
        missed(1, 0, 1),
    )
}

/// A fill comes that nobody awaits.
const STORES: &[Line<'static, Body>] = &[
    Gives(Arrive(message!(FILL)), &[]),
    Gives(ExecuteNext, &[]),
];

/// An edge that stores what it is given, to which the fill has come.
fn stored(alloc: Global) -> Result<Desk<Photo>, Fail> {
    edge(alloc, Policy::Lru, Vec::new(alloc))?.does(alloc, STORES)
}

#[test]
fn a_fill_that_nobody_awaits_is_stored(rt: HostRuntime) -> Result<(), Fail> {
    let counted = Counters {
        inserted: 1,
        inserted_bytes: 4,
        ..NOTHING
    };
    ends(stored(rt.alloc())?, rt.alloc(), &[], counted)
}

const TAKES_BACK: &[Line<'static, Body>] = &[Gives(UndoOne, &[])];

#[test]
fn a_fill_that_nobody_awaits_is_taken_back(rt: HostRuntime) -> Result<(), Fail> {
    ends(stored(rt.alloc())?, rt.alloc(), TAKES_BACK, NOTHING)
}

/// Caches that store what they are given: one edge and one origin.
fn storing() -> Result<Photo, Fail> {
    let shape = Shape::new(8, 4, 64).ok_or("shape")?;
    let config = Config::new(1, 1, Policy::Lru, shape, shape, 3, 3, 10).ok_or("config")?;
    Ok(Photo::new(config))
}

/// What edge 0 has counted that executes a fill at its start and takes it back, and how many events that sends.
fn taken_back(alloc: Global, photo: &Photo, fill: &Event<Body>) -> Result<(Counters, usize), Fail> {
    if photo.processes() == 0 || fill.to != 0 || !photo.valid(fill) {
        return Err(Fail::from("an event that is not valid here"));
    }
    let mut edge = photo.start(alloc, 0)?;
    let sent = execute_and_reverse(alloc, photo, 0, &mut edge, fill)?;
    Ok((edge.counters(), sent.len()))
}

#[test]
fn a_fill_at_the_start_leaves_the_very_state(rt: HostRuntime) -> Result<(), Fail> {
    let left = taken_back(rt.alloc(), &storing()?, &FILL)?;
    assert_eq!(rt; left, (NOTHING, 0));
    Ok(())
}

/// A request of an object of its own, and what the edge asks of the origin for it.
fn asked(number: u8) -> (Event<Body>, Event<Body>) {
    let number = u64::from(number);
    let (object, size, edge) = (number, 4, 0);
    let request = Event {
        time: number + 1,
        number,
        body: Body::Request { object, size },
        ..FIRST
    };
    let miss = Event {
        time: number + 4,
        number,
        body: Body::Miss { object, size, edge },
        ..MISS
    };
    (request, miss)
}

/// Two hundred such requests.
fn requests(alloc: Global) -> Result<Vec<Event<Body>>, Fail> {
    let mut requests = Vec::new(alloc);
    for number in 0..200 {
        requests.push(asked(number).0)?;
    }
    Ok(requests)
}

/// The edge that has executed them all.
fn executed(alloc: Global, edge: Desk<Photo>) -> Result<Desk<Photo>, Fail> {
    let mut edge = edge;
    for number in 0..200 {
        edge = edge.does(alloc, &[Gives(ExecuteNext, &[message!(asked(number).1)])])?;
    }
    Ok(edge)
}

/// The edge that has undone all but the first 129.
fn undone(alloc: Global, edge: Desk<Photo>) -> Result<Desk<Photo>, Fail> {
    let mut edge = edge;
    for number in (129..200).rev() {
        edge = edge.does(alloc, &[Gives(UndoOne, &[anti!(asked(number).1)])])?;
    }
    Ok(edge)
}

/// Goes through the collection of the first requests, and the undoing of the others.
fn collects<'a>(
    alloc: Global,
    committed: &'a [Event<Body>],
    processed: &'a [Event<Body>],
    edge: Desk<Photo>,
) -> Result<(), Fail> {
    let collected = [
        Gives(Collect(130), &[]),
        Shows(committed, processed, None, END),
    ];
    let left = [
        Refuses(UndoOne, StepFault::NothingToUndo),
        Shows(committed, &[], Some(asked(129).0), 130),
    ];
    let edge = undone(alloc, edge.does(alloc, &collected)?)?;
    ends(edge, alloc, &left, missed(129, 0, 0))
}

#[test]
fn the_past_is_committed_across_runs_of_records(rt: HostRuntime) -> Result<(), Fail> {
    let alloc = rt.alloc();
    let requests = requests(alloc)?;
    let parts = requests.as_slice().split_at_checked(129);
    let (committed, processed) = parts.ok_or("requests")?;
    let edge = executed(alloc, edge(alloc, Policy::Off, requests.clone()?)?)?;
    collects(alloc, committed, processed, edge)
}
