//! `execute` and `reverse` of the caches, over the last of some events at an edge.
ghost use Rattle.std.specs.Prelude.{◌≡◌, ◌<◌, ◌+◌, true, IfOk, OnOk};
ghost use Rattle.rw_photo.specs.Cache.{IsWellFormed};
ghost use Rattle.rw_photo.specs.Events.{is_valid};
ghost use Rattle.rw_photo.specs.Undoing.{TakesBack};

use crate::setback::Setback;
use rw_photo::{Body, CacheState, Config, Counters, Event, Photo, Policy, Shape, Undo};
use rw_vt::Model;
use std::alloc::Global;

/// The shape of an edge's queue, of blocks of 10 bytes, and what happens at the edge, first to last.
pub struct Course {
    sections: u64,
    blocks: u64,
    bodies: &'static [Body],
}

/// An object comes that the edge lacks: it is inserted.
macro_rules! insert {
    ($object:expr) => {
        Body::Fill {
            object: $object,
            size: 6,
        }
    };
}

/// An object is asked for that the edge has: it is promoted.
macro_rules! promote {
    ($object:expr) => {
        Body::Request {
            object: $object,
            size: 6,
        }
    };
}

/// One block for sealed ones: the last insertion puts object 1 in again and evicts object 2.
pub const EVICTION: Course = Course {
    sections: 1,
    blocks: 1,
    bodies: &[insert!(1), insert!(2), promote!(1), insert!(3)],
};

/// Room for all: the last promotion takes out the sealed block that it empties.
pub const PROMOTION: Course = Course {
    sections: 1,
    blocks: 4,
    bodies: &[
        insert!(1),
        insert!(2),
        insert!(3),
        promote!(1),
        promote!(2),
        promote!(1),
    ],
};

/// Four sections: the last insertion merges two of them, and splits one.
pub const SPLIT_AND_MERGE: Course = Course {
    sections: 4,
    blocks: 8,
    bodies: &[
        insert!(1),
        insert!(2),
        insert!(3),
        insert!(4),
        promote!(1),
        promote!(2),
        insert!(5),
    ],
};

/// What the edge has counted before the last event of a course, after it, and once it is reversed.
#[derive(Clone, Copy)]
struct Counted {
    before: Counters,
    after: Counters,
    reversed: Counters,
}

/// Executes the events of the course and reverses the last one. Tells what the edge has counted before the last one,
/// after it, and once it is reversed.
pub fn tell<R: Print>(rt: &R, alloc: Global, course: &Course) -> Result<(), Setback> {
    let Counted {
        before,
        after,
        reversed,
    } = follow(alloc, course)?;
    println!(rt; "before {before:?}")?;
    println!(rt; "after {after:?}")?;
    println!(rt; "reversed {reversed:?}")?;
    Ok(())
}

/// Executes the events of the course and reverses the last one.
fn follow(alloc: Global, course: &Course) -> Result<Counted, Setback> {
    let photo = photo(course)?;
    let Some((last, first)) = course.bodies.split_last() else {
        return Err(Setback::Other);
    };
    let mut edge = photo.start(alloc, 0)?;
    execute_all(alloc, &photo, &mut edge, first)?;
    execute_and_reverse(alloc, &photo, &mut edge, &event(*last))
}

/// Executes what happens at edge 0, first to last.
fn execute_all(
    alloc: Global,
    photo: &Photo,
    edge: &mut CacheState,
    bodies: &[Body],
) -> Result<(), Setback>
    requires number { 0 < photo.now.config.edges + photo.now.config.origins }
    requires well_formed { IsWellFormed photo.now.config 0 edge.old }
    ensures well_formed { OnOk result (IsWellFormed photo.now.config 0 edge.new) }
{
    for body in bodies {
        let _undo = execute(alloc, photo, edge, &event(*body))?;
    }
    Ok(())
}

/// Executes an event at edge 0 and reverses it.
fn execute_and_reverse(
    alloc: Global,
    photo: &Photo,
    edge: &mut CacheState,
    event: &Event<Body>,
) -> Result<Counted, Setback>
    requires number { 0 < photo.now.config.edges + photo.now.config.origins }
    requires well_formed { IsWellFormed photo.now.config 0 edge.old }
{
    let before = edge.counters();
    let undo = execute(alloc, photo, edge, event)?;
    let after = edge.counters();
    photo.reverse(alloc, 0, edge, event, undo)?;
    let reversed = edge.counters();
    Ok(Counted {
        before,
        after,
        reversed,
    })
}

/// The model of an edge under least recently used, with a queue of this shape.
fn photo(course: &Course) -> Result<Photo, Setback> {
    let Some(shape) = Shape::new(course.sections, 10, course.blocks) else {
        return Err(Setback::Other);
    };
    match Config::new(1, 1, Policy::Lru, shape, shape, 3, 3, 10) {
        Some(config) => Ok(Photo::new(config)),
        None => Err(Setback::Other),
    }
}

/// Something that happens at the edge.
fn event(body: Body) -> Event<Body> {
    Event {
        time: 5,
        source: 0,
        number: 0,
        to: 0,
        body,
    }
}

/// Executes an event at edge 0.
fn execute(
    alloc: Global,
    photo: &Photo,
    edge: &mut CacheState,
    event: &Event<Body>,
) -> Result<Undo, Setback>
    requires number { 0 < photo.now.config.edges + photo.now.config.origins }
    requires well_formed { IsWellFormed photo.now.config 0 edge.old }
    ensures valid { OnOk result (is_valid photo.now.config event.now ≡ true) }
    ensures here { OnOk result (event.now.to ≡ 0) }
    ensures well_formed { OnOk result (IsWellFormed photo.now.config 0 edge.new) }
    ensures links { IfOk result (λ undo. TakesBack edge.old event.now undo edge.new) }
{
    if event.to != 0 || !photo.valid(event) {
        return Err(Setback::Other);
    }
    let mut sent = Vec::new(alloc);
    let undo = photo.execute(alloc, 0, edge, event, &mut sent)?;
    Ok(undo)
}
