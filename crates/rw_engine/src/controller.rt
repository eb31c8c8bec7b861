//! The mode controller of a run: which segment comes next, and how long it is.

ghost use Rattle.std.specs.Prelude.{◌≡◌, true};

use rw_rounds::{Plan, Traffic};
use std::time::Clock;

/// How many initial events the shortest segment of rounds takes in. Those that it does not execute are handed out again by the next.
const FEW_EVENTS: u64 = 2048;

/// How many initial events the shortest segment of windows takes in. With fewer, waking the threads would be most of what is measured.
const FEW_EVENTS_IN_WINDOWS: u64 = 16384;

/// How often that doubles at most: all of these events are dealt out before the segment starts.
const MOST_GROWTH_OF_EVENTS_IN_WINDOWS: u32 = 3;

/// How many rounds of all workers the shortest segment of rounds has.
const FEW_ROUNDS: u64 = 8;

/// The length of the shortest segment of windows, as a multiple of the time that the waiting events span.
const FEW_TIMES: u64 = 8;

/// How many rounds of one worker the shortest run in order has, where it is measured. The first events meet empty caches and cost less.
const FEW_IN_ORDER: u64 = 16;

/// How often segments of one kind, one after another, grow to twice the length.
const MOST_GROWTH: u32 = 5;

/// How many times the time of a trial a run goes on in another way before the next trial: at least, at most, and before it is
/// measured anew what the run in order costs.
const LEAST_PATIENCE: u64 = 16;

const MOST_PATIENCE: u64 = 256;

const PATIENCE_IN_ORDER: u64 = 64;

/// Rounds are first tried after this many times the time that it takes to hand all processes over, since they seldom pay.
const PATIENCE_BEFORE_ROUNDS: u64 = 64;

/// Segments of a kind go on while an event costs at most this, in percent of what it costs in order.
const LIMIT: u64 = 100;

/// The same for windows. All workers wait for the slowest, so another program on the machine makes windows look dearer than they are.
const LIMIT_IN_WINDOWS: u64 = 125;

/// About how long it takes to hand a process to a worker, for the shortest segment of rounds, and to take it back, in nanoseconds.
const HAND_OVER: u64 = 3000;

/// A segment of a run.
#[derive(Clone, Copy)]
pub(crate) enum Segment {
    /// Rounds of all workers, which run ahead and roll back.
    Rounds(RoundsSize),
    /// Windows of the lookahead, of all workers, which roll nothing back.
    Windows(WindowsSize),
    /// A run in order on one thread, for so many rounds of one worker.
    InOrder(u64),
}

/// How long a segment of rounds is.
#[derive(Clone, Copy)]
pub(crate) struct RoundsSize {
    /// How many initial events it takes in.
    pub(crate) events: usize,
    /// How many rounds it has at most, 1 or more.
    pub(crate) rounds: u32,
}

/// How long a segment of windows is.
#[derive(Clone, Copy)]
pub(crate) struct WindowsSize {
    /// How many initial events it takes in.
    pub(crate) events: usize,
    /// Where no other initial event is left, how many times as long it is as these are apart.
    pub(crate) times: u64,
}

/// A kind of segment.
#[derive(Clone, Copy, PartialEq, Eq)]
enum Kind {
    Rounds,
    Windows,
    InOrder,
}

impl Segment {
    /// Whether all workers take part in it.
    pub(crate) fn has_workers(&self) -> bool {
        !matches!(self, Segment::InOrder(_))
    }

    fn kind(&self) -> Kind {
        match self {
            Segment::Rounds(_) => Kind::Rounds,
            Segment::Windows(_) => Kind::Windows,
            Segment::InOrder(_) => Kind::InOrder,
        }
    }
}

/// What segments of a kind cost.
#[derive(Clone, Copy)]
struct Cost {
    /// Nanoseconds for 1024 events executed for good: a mean, of which the last segment is a half. `None` before the first one.
    mean: Option<u64>,
    /// How long the next segment of this kind is expected to take, in nanoseconds.
    trial: u64,
    /// How long the run has gone on in other kinds since the last one, in nanoseconds.
    since: u64,
    /// How many times as long as a trial that has to be before the next one.
    patience: u64,
    /// How much an event may cost at most, in percent of what it costs in order.
    limit: u64,
}

impl Cost {
    /// Nothing is known but how long the first segment is expected to take.
    fn new(trial: u64, patience: u64, limit: u64) -> Cost {
        Cost {
            mean: None,
            trial,
            since: 0,
            patience,
            limit,
        }
    }

    /// Whether a trial takes little time beside what has gone by since the last one.
    fn is_due(&self) -> bool {
        self.since >= self.trial.saturating_mul(self.patience)
    }

    /// A segment of this kind took so many nanoseconds, and executed so many events for good.
    fn note(&mut self, nanoseconds: u64, events: u64) {
        let cost = nanoseconds.saturating_mul(1024) / events.max(1);
        self.mean = Some(match self.mean {
            Some(mean) => mean / 2 + cost / 2,
            None => cost,
        });
        self.trial = nanoseconds;
        self.since = 0;
    }

    /// A segment of another kind took so many nanoseconds.
    fn note_other(&mut self, nanoseconds: u64) {
        self.since = self.since.saturating_add(nanoseconds);
    }

    /// Whether the events of this kind cost no more than they may, by what those in order cost.
    fn pays(&self, in_order: &Cost) -> bool {
        match (self.mean, in_order.mean) {
            (Some(mean), Some(other)) => mean <= other.saturating_mul(self.limit) / 100,
            _ => true,
        }
    }

    /// The last segment of this kind paid beside the run in order, or did not: then the next trial comes later.
    fn note_trial(&mut self, in_order: &Cost) {
        self.patience = if self.pays(in_order) {
            LEAST_PATIENCE
        } else {
            self.patience.saturating_mul(2).min(MOST_PATIENCE)
        };
    }
}

/// The mode controller of a run: it goes on in the way in which an event costs the least time, which it measures.
///
/// The first segment is a short run in order, which tells how dense events are. Where they are so dense that each worker finds its
/// grain of them in a window of the lookahead, windows are tried, in which nothing is rolled back and no event waits that could be
/// executed; else rounds, in which the workers run ahead, once the run has gone on for long enough that a trial costs little
/// beside it. What costs more than it may is tried again only after many times the time of the trial. Nothing is measured where
/// the grain is 0 or 1: all workers go on then, whatever it costs. Once the plan's rounds are made, the run goes on in order, but where
/// it has nothing to compare: it is given up then. No theorem rests on this.
#[derive(Clone, Copy)]
pub(crate) struct Controller {
    /// Whether the threads of the workers are started.
    pub(crate) has_threads: bool,
    /// How many of the plan's rounds are left.
    rounds_left: u32,
    lookahead: u64,
    /// How many events a window has to have.
    grain: u64,
    /// Whether all workers go on only where that costs less than the run in order.
    is_measured: bool,
    /// Whether there was a segment of windows. The first one is not counted, since its threads are new.
    has_windows: bool,
    /// Whether a worker may find its grain in a round.
    has_rounds: bool,
    /// Whether the last segment had as many; `None` before the first one, but in a plan of a single round, which is not spent on
    /// finding out.
    is_dense: Option<bool>,
    /// The kind of the last segment, and how often the next one has grown if it is of that kind.
    last: Kind,
    growth: u32,
    in_order: Cost,
    in_windows: Cost,
    in_rounds: Cost,
    /// Up to which time all is executed, in ticks.
    reached: u64,
    /// When the next segment begins, by the clock, in nanoseconds.
    begun: u64,
}

impl Controller {
    /// The controller of a run by this plan, of a model of this lookahead, grain and number of processes. Takes no memory.
    pub(crate) fn new(plan: &Plan, lookahead: u64, grain: u64, processes: usize) -> Controller {
        let hand_over = HAND_OVER.saturating_mul(processes as u64);
        Controller {
            has_threads: false,
            rounds_left: plan.max_rounds,
            lookahead,
            grain: grain.saturating_mul(u64::from(plan.workers)),
            is_measured: grain > 1,
            has_windows: false,
            has_rounds: grain < u64::from(plan.turns).saturating_mul(u64::from(plan.batch)),
            is_dense: (plan.max_rounds == 1).then_some(false),
            last: Kind::InOrder,
            growth: 0,
            in_order: Cost::new(0, PATIENCE_IN_ORDER, LIMIT),
            in_windows: Cost::new(0, LEAST_PATIENCE, LIMIT_IN_WINDOWS),
            in_rounds: Cost::new(hand_over, PATIENCE_BEFORE_ROUNDS, LIMIT),
            reached: 0,
            begun: 0,
        }
    }

    /// The same controller, where the threads of the workers are started. Takes no memory.
    pub(crate) fn with_threads(self) -> Controller
        ensures { result.has_threads ≡ true }
    {
        Controller {
            has_threads: true,
            ..self
        }
    }

    /// A segment begins now. Takes no memory.
    pub(crate) fn begin<R: Clock>(&mut self, rt: &R)
        ensures { self.new.has_threads ≡ self.old.has_threads }
    {
        self.begun = now(rt);
    }

    /// The next segment; `None` where it is one of rounds, and none is left. Takes no memory.
    pub(crate) fn next(&self) -> Option<Segment> {
        let kind = self.next_kind();
        let growth = if kind == self.last { self.growth } else { 0 };
        match kind {
            Kind::Rounds if self.rounds_left == 0 => None,
            Kind::Rounds => {
                let rounds = grown(FEW_ROUNDS, growth).min(u64::from(self.rounds_left));
                Some(Segment::Rounds(RoundsSize {
                    events: grown(FEW_EVENTS, growth) as usize,
                    rounds: rounds as u32,
                }))
            }
            Kind::Windows => {
                let events_growth = growth.min(MOST_GROWTH_OF_EVENTS_IN_WINDOWS);
                Some(Segment::Windows(WindowsSize {
                    events: grown(FEW_EVENTS_IN_WINDOWS, events_growth) as usize,
                    times: grown(FEW_TIMES, growth),
                }))
            }
            Kind::InOrder => {
                let few = if self.is_measured { FEW_IN_ORDER } else { 1 };
                Some(Segment::InOrder(grown(few, growth)))
            }
        }
    }

    /// The kind of the next segment.
    fn next_kind(&self) -> Kind {
        let has_choice = self.is_measured && self.in_order.mean.is_some();
        let has_rounds = self.has_rounds && (self.rounds_left > 0 || !has_choice);
        let (kind, cost) = match self.is_dense {
            Some(true) => (Kind::Windows, &self.in_windows),
            Some(false) if has_rounds => (Kind::Rounds, &self.in_rounds),
            _ => return Kind::InOrder,
        };
        let is_next = if !has_choice {
            true
        } else if cost.mean.is_some() && cost.pays(&self.in_order) {
            !self.in_order.is_due()
        } else {
            cost.is_due()
        };
        if is_next { kind } else { Kind::InOrder }
    }

    /// A segment was run, up to this time, and the counts went from `before` to `after`. The next one begins now. Takes no memory.
    pub(crate) fn note<R: Clock>(
        &mut self,
        rt: &R,
        segment: Segment,
        time: u64,
        before: &Traffic,
        after: &Traffic,
    )
        ensures { self.new.has_threads ≡ self.old.has_threads }
    {
        let executed = after.executed.wrapping_sub(before.executed);
        let undone = after.undone.wrapping_sub(before.undone);
        let useful = executed.saturating_sub(undone);
        let moved = time.saturating_sub(self.reached);
        let is_dense = useful.saturating_mul(self.lookahead) >= moved.saturating_mul(self.grain);
        self.is_dense = Some(is_dense);
        self.reached = time;
        let kind = segment.kind();
        self.growth = if kind == self.last {
            self.growth.saturating_add(1).min(MOST_GROWTH)
        } else {
            0
        };
        self.last = kind;
        let made = after.rounds.saturating_sub(before.rounds);
        let made = u32::try_from(made).unwrap_or(u32::MAX);
        self.rounds_left = self.rounds_left.saturating_sub(made);
        let began = self.begun;
        self.begun = now(rt);
        self.note_cost(kind, self.begun.saturating_sub(began), useful);
    }

    /// A segment of this kind took so many nanoseconds, and executed so many events for good.
    fn note_cost(&mut self, kind: Kind, nanoseconds: u64, events: u64)
        ensures { self.new.has_threads ≡ self.old.has_threads }
    {
        match kind {
            Kind::InOrder => {
                self.in_order.note(nanoseconds, events);
                self.in_windows.note_other(nanoseconds);
                self.in_rounds.note_other(nanoseconds);
            }
            Kind::Windows => {
                if self.has_windows {
                    self.in_windows.note(nanoseconds, events);
                    self.in_windows.note_trial(&self.in_order);
                }
                self.has_windows = true;
                self.in_order.note_other(nanoseconds);
                self.in_rounds.note_other(nanoseconds);
            }
            Kind::Rounds => {
                self.in_rounds.note(nanoseconds, events);
                self.in_rounds.note_trial(&self.in_order);
                self.in_order.note_other(nanoseconds);
                self.in_windows.note_other(nanoseconds);
            }
        }
    }
}

/// A length that has grown so often to twice what it was.
fn grown(length: u64, times: u32) -> u64 {
    let mut length = length;
    for _ in 0..times {
        length = length.saturating_mul(2);
    }
    length
}

/// What the clock says, in nanoseconds since some time; 0 where it fails.
fn now<R: Clock>(rt: &R) -> u64 {
    match rt.monotonic() {
        Ok(time) => (time.as_nanos() & u128::from(u64::MAX)) as u64,
        Err(_) => 0,
    }
}
