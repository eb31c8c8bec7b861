// Purges in the photo caches: an object leaves the edge where that is asked for, its origin and then the other edges,
// and is fetched anew when it is asked for again. What an origin tells the edges is taken back send by send.
use crate::desk::Call::{ExecuteNext, UndoOne};
use crate::desk::Line::Gives;
use crate::desk::{Desk, Line};
use crate::edge_process::{NOTHING, ends};
use rw_photo::{Body, CacheState, Config, Counters, Photo, Policy, Shape};
use rw_ripqwarp::beginning;
use rw_vt::{Event, Letter, Model};
use std::alloc::Global;
use std::test::Fail;

/// Two edges ask for an object; it is purged at one of them; both ask for it again.
const TRACE: &[u8] =
    b"time,edge,object,size,kind\n5,0,7,4,get\n5,1,7,4,get\n40,0,7,4,purge\n60,0,7,4,get\n61,1,7,4,get\n";

/// So many edges and one origin.
fn config(edges: u32) -> Result<Config, Fail> {
    let shape = Shape::new(8, 1_048_576, 64).ok_or("shape")?;
    let config = Config::new(edges, 1, Policy::Lru, shape, shape, 3, 3, 10);
    Ok(config.ok_or("config")?)
}

/// What the caches have counted once all events of the trace are executed in order.
fn counted(alloc: Global, config: &Config) -> Result<Vec<Counters>, Fail> {
    let Ok((starts, initial)) = beginning(alloc, TRACE, config) else {
        return Err(Fail::from("trace"));
    };
    let outcome = rw_serial::run(alloc, &Photo::new(*config), starts, initial)?;
    let mut counted = Vec::new(alloc);
    for state in outcome.states.iter() {
        counted.push(CacheState::counters(state))?;
    }
    Ok(counted)
}

const EDGE: Counters = Counters {
    requests: 2,
    misses: 2,
    late: 2,
    inserted: 2,
    request_bytes: 8,
    inserted_bytes: 8,
    purges: 1,
    purged: 1,
    ..NOTHING
};

const ORIGIN: Counters = Counters {
    requests: 4,
    hits: 2,
    misses: 2,
    inserted: 2,
    hit_bytes: 8,
    request_bytes: 16,
    inserted_bytes: 8,
    purges: 1,
    purged: 1,
    ..NOTHING
};

#[test]
fn an_object_is_purged_everywhere(rt: HostRuntime) -> Result<(), Fail> {
    assert_eq!(rt;
        counted(rt.alloc(), &config(2)?)?.as_slice(),
        [EDGE, EDGE, ORIGIN].as_slice()
    );
    Ok(())
}

/// What edge 1 has its origin do, where there are three edges.
fn dropped() -> Event<Body> {
    Event {
        time: 43,
        source: 2,
        number: 0,
        to: 3,
        body: Body::Drop { object: 7, edge: 1 },
    }
}

/// What the origin then has an edge do.
macro_rules! clear {
    ($to:expr, $number:expr) => {
        Event {
            time: 46,
            source: 4,
            number: $number,
            to: $to,
            body: Body::Clear { object: 7 },
        }
    };
}

const CLEAR_FIRST: Event<Body> = clear!(0, 0);

const CLEAR_LAST: Event<Body> = clear!(2, 1);

/// The origin tells the two other edges, takes that back, and tells them again.
const TELLS_AND_TAKES_BACK: &[Line<'static, Body>] = &[
    Gives(ExecuteNext, &[message!(CLEAR_FIRST), message!(CLEAR_LAST)]),
    Gives(UndoOne, &[anti!(CLEAR_FIRST), anti!(CLEAR_LAST)]),
    Gives(ExecuteNext, &[message!(CLEAR_FIRST), message!(CLEAR_LAST)]),
];

/// The origin of three edges, which edge 1 is to have drop an object.
fn origin(alloc: Global) -> Result<Desk<Photo>, Fail> {
    let photo = Photo::new(config(3)?);
    if photo.processes() <= 3 {
        return Err(Fail::from("processes"));
    }
    let initial = Vec::from_array(alloc, [dropped()])?;
    let start = photo.start(alloc, 3)?;
    Desk::open(alloc, photo, 3, start, initial)
}

const PURGED_ONCE: Counters = Counters {
    purges: 1,
    ..NOTHING
};

#[test]
fn a_drop_tells_every_edge_but_one_and_is_taken_back(rt: HostRuntime) -> Result<(), Fail> {
    ends(
        origin(rt.alloc())?,
        rt.alloc(),
        TELLS_AND_TAKES_BACK,
        PURGED_ONCE,
    )
}
