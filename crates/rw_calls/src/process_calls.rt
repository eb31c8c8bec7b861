//! `arrive` of a logical process: an edge that stores nothing, and to which a fill comes late and is cancelled again; and an
//! edge that takes an eviction back.
ghost use Rattle.std.specs.Prelude.{◌≡◌, ◌<◌, IfOk};

use crate::setback::Setback;
use rw_lp::Lp;
use rw_photo::{Body, Config, Event, Photo, Policy, Shape};
use rw_vt::{Letter, Model};
use std::alloc::Global;

/// What an edge does, and the letter that then arrives.
pub struct Course {
    policy: Policy,
    /// What is pending as the edge starts.
    initial: &'static [Event<Body>],
    /// What the edge does before the letter comes, first to last.
    steps: &'static [Step],
    letter: Letter<Body>,
}

/// A step of an edge.
#[derive(Clone, Copy)]
enum Step {
    /// Executes the least pending event.
    Execute,
    /// A letter arrives.
    Arrive(Letter<Body>),
}

/// Something that happens at the edge, of an object of this number and size.
macro_rules! event {
    ($time:expr, $source:expr, $number:expr, $body:ident, $object:expr, $size:expr) => {
        Event {
            time: $time,
            source: $source,
            number: $number,
            to: 0,
            body: Body::$body {
                object: $object,
                size: $size,
            },
        }
    };
}

/// What the origin answers to the first of two requests, or the anti-message that cancels it.
macro_rules! fill {
    ($anti:expr) => {
        Letter {
            event: event!(21, 2, 0, Fill, 7, 4),
            anti: $anti,
        }
    };
}

/// Two requests, of which the second one joins the first.
const REQUESTS: &[Event<Body>] = &[
    event!(5, 0, 0, Request, 7, 4),
    event!(22, 0, 1, Request, 7, 4),
];

/// A late fill comes to the edge, which has executed two requests ahead.
pub const FILL: Course = Course {
    policy: Policy::Off,
    initial: REQUESTS,
    steps: &[Step::Execute, Step::Execute],
    letter: fill!(false),
};

/// That fill is cancelled, after which a request was executed again.
pub const CANCELLING: Course = Course {
    policy: Policy::Off,
    initial: REQUESTS,
    steps: &[
        Step::Execute,
        Step::Execute,
        Step::Arrive(fill!(false)),
        Step::Execute,
        Step::Execute,
    ],
    letter: fill!(true),
};

/// An edge stores: two insertions, a promotion of the first object, and an insertion that puts it in again and evicts the
/// second object. A fill comes that is earlier than the last two of these events.
pub const STRAGGLER: Course = Course {
    policy: Policy::Lru,
    initial: &[
        event!(10, 2, 0, Fill, 1, 6),
        event!(20, 2, 1, Fill, 2, 6),
        event!(30, 0, 0, Request, 1, 6),
        event!(40, 2, 2, Fill, 3, 6),
    ],
    steps: &[Step::Execute, Step::Execute, Step::Execute, Step::Execute],
    letter: Letter {
        event: event!(25, 2, 3, Fill, 4, 6),
        anti: false,
    },
};

/// The edge, with its model.
#[derive(Drop)]
struct Edge {
    photo: Photo,
    lp: Lp<Photo>,
    ghost model_is: { lp.model ≡ photo },
    ghost number_is: { lp.number ≡ 0 },
}

/// Follows a course. Tells what the edge then is, and what it gives out as the letter arrives.
pub fn tell<R: Print>(rt: &R, alloc: Global, course: &Course) -> Result<(), Setback> {
    let mut out = Vec::new(alloc);
    let edge = before(alloc, course)?.arrive(alloc, course.letter, &mut out)?;
    edge.tell(rt, &out)
}

/// The edge before the letter of the course comes.
fn before(alloc: Global, course: &Course) -> Result<Edge, Setback> {
    let initial = Vec::from_slice(alloc, course.initial)?;
    let mut edge = Edge::open(alloc, course.policy, initial)?;
    for step in course.steps {
        edge = edge.make(alloc, *step)?;
    }
    Ok(edge)
}

/// Process 0 of a model in its start state, with these events pending.
fn first_process<M: Model>(
    alloc: Global,
    model: &M,
    start: M::State,
    initial: Vec<Event<M::Body>>,
) -> Result<Lp<M>, Setback>
    requires number { 0 < M.process_count model.now }
    requires start { M.IsWellFormed model.now 0 start }
    ensures model { IfOk result (λ lp. lp.model ≡ model.now) }
    ensures number { IfOk result (λ lp. lp.number ≡ 0) }
{
    let is_here = |event: &Event<M::Body>| model.valid(event) && event.to == 0;
    if !initial.iter().all(is_here) {
        return Err(Setback::Other);
    }
    Ok(Lp::new(alloc, model, 0, start, initial)?)
}

impl Edge {
    /// The edge under a policy, as it starts, with these events pending.
    fn open(alloc: Global, policy: Policy, initial: Vec<Event<Body>>) -> Result<Edge, Setback> {
        let Some(shape) = Shape::new(1, 10, 1) else {
            return Err(Setback::Other);
        };
        let Some(config) = Config::new(1, 1, policy, shape, shape, 3, 3, 10) else {
            return Err(Setback::Other);
        };
        let photo = Photo::new(config);
        let start = photo.start(alloc, 0)?;
        let lp = first_process(alloc, &photo, start, initial)?;
        Ok(Edge { photo, lp })
    }

    /// Makes a step.
    fn make(self, alloc: Global, step: Step) -> Result<Edge, Setback> {
        let mut out = Vec::new(alloc);
        match step {
            Step::Execute => self.execute_next(alloc, &mut out),
            Step::Arrive(letter) => self.arrive(alloc, letter, &mut out),
        }
    }

    /// Executes the least pending event.
    fn execute_next(self, alloc: Global, out: &mut Vec<Letter<Body>>) -> Result<Edge, Setback> {
        let Edge { photo, lp } = self;
        let (lp, _answer) = lp.execute_next(alloc, &photo, out)?;
        Ok(Edge { photo, lp })
    }

    /// A letter arrives.
    fn arrive(
        self,
        alloc: Global,
        letter: Letter<Body>,
        out: &mut Vec<Letter<Body>>,
    ) -> Result<Edge, Setback> {
        let Edge { photo, lp } = self;
        if letter.event.to != 0 || !photo.valid(&letter.event) {
            return Err(Setback::Other);
        }
        let lp = lp.arrive(alloc, &photo, letter, out)?;
        Ok(Edge { photo, lp })
    }

    /// Tells what the edge is, and what it has given out.
    fn tell<R: Print>(&self, rt: &R, out: &Vec<Letter<Body>>) -> Result<(), Setback> {
        println!(rt;
            "given {out:?}\ncommitted {:?}\nprocessed {:?}\nnext {:?}\nleast {}\ncounted {:?}",
            self.lp.journal(),
            self.lp.processed(),
            self.lp.next(),
            self.lp.least(),
            self.lp.state().counters()
        )?;
        Ok(())
    }
}
