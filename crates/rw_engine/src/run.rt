ghost use Rattle.std.specs.Prelude.{◌≡◌, ◌≢◌, ◌≤◌, ◌++◌, IfErr, IfOk, IsPermutation};
ghost use Rattle.rw_vt.specs.System.{IsReady};
ghost use Rattle.rw_rounds.specs.Plans.{IsInRanges};
ghost use Rattle.rw_rounds.specs.declared.stop.Stop.TheVariants.{BadPlan};
ghost use Rattle.rw_windows.specs.Working.{IsAhead};
ghost use Rattle.rw_engine.specs.Segments.{GoesOn};

use crate::alone::events_of_round;
use crate::controller::{RoundsSize, Segment, WindowsSize};
use rw_pool::Executor;
use rw_progress::Progress;
use rw_rounds::{Bounds, Open, Plan, RoundWork, Stop, Throttle, Traffic, Worker, run_segment};
use rw_serial::{Pending, Source, go_on};
use rw_vt::{END, Event, Lookahead, Model as VtModel};
use rw_windows::{Left, Share, Stage, Windows, Work, run_in_windows};
use rw_world::{Rest, World};
use std::alloc::{AllocError, Global};
use std::sync::Wait;

/// A window in which no initial event is costs nearly as much as one in which there are some: so many are crossed at most.
const MOST_EMPTY_WINDOWS: u64 = 16;

/// A run between two segments. The events that are still to be executed stand beside it, in `pending`.
///
/// A segment goes on from there in one of three ways, each of which leaves a run that ends as this one would have.
#[derive(Drop)]
pub(crate) struct Run<M: VtModel> {
    pub(crate) alloc: Global,
    pub(crate) plan: Plan,
    pub(crate) model: M,
    /// The state of each process.
    pub(crate) states: Vec<M::State>,
    /// What the segments so far did.
    pub(crate) traffic: Traffic,
    /// How much of its plan the next round gets.
    pub(crate) throttle: Throttle,
}

impl<M: VtModel + Drop> Run<M> {
    /// Goes on in order of time, on the calling thread, for as many rounds of one worker as `rounds` says.
    pub(crate) fn in_order<S: Source<M::Body>>(
        self,
        pending: &mut Pending<M::Body, S>,
        rounds: u64,
    ) -> Result<Run<M>, Stop>
        requires ready { IsReady M.Model self.model self.states.items pending.old.events }
        requires plan { IsInRanges self.plan }
        ensures onward { IfOk result (λ r. GoesOn M.Model M.Body.cmp
            self.model self.states.items pending.old.events
            r.model r.states.items pending.new.events) }
        ensures plan { IfOk result (λ r. r.plan ≡ self.plan) }
        ensures stops { IfErr result (λ stop. stop ≢ BadPlan) }
    {
        let mut run = self;
        let limit = rounds.saturating_mul(events_of_round(&run.plan));
        let executed = go_on(run.alloc, &run.model, &mut run.states, pending, limit)?;
        run.traffic.add(&Traffic {
            executed,
            ..Traffic::default()
        });
        Ok(run)
    }

    /// Takes out so many of the events that wait, and those of the last one's time with them: the run may go on with them alone.
    fn take_ready<S: Source<M::Body>>(
        &self,
        pending: &mut Pending<M::Body, S>,
        count: usize,
    ) -> Result<Vec<Event<M::Body>>, AllocError>
        requires { IsReady M.Model self.now.model self.now.states.items pending.old.events }
        ensures ready { IfOk result (λ taken.
            IsReady M.Model self.now.model self.now.states.items taken.items) }
        ensures parts { IfOk result (λ taken.
            IsPermutation pending.old.events (taken.items ++ pending.new.events)) }
    {
        pending.take_out(self.alloc, count)
    }

    /// Goes on by a segment of rounds, in which the workers run ahead and roll back, with some of the events that wait. Nothing from
    /// the first other one's time on is final after it.
    pub(crate) fn in_rounds<S, H, P>(
        self,
        workers: &mut H,
        pending: &mut Pending<M::Body, S>,
        size: RoundsSize,
        progress: &mut P,
    ) -> Result<Run<M>, Stop>
    where
        S: Source<M::Body>,
        H: Executor<RoundWork<M, Open>, Worker<M>>,
        P: Progress,
        requires ready { IsReady M.Model self.model self.states.items pending.old.events }
        requires plan { IsInRanges self.plan }
        ensures onward { IfOk result (λ r. GoesOn M.Model M.Body.cmp
            self.model self.states.items pending.old.events
            r.model r.states.items pending.new.events) }
        ensures plan { IfOk result (λ r. r.plan ≡ self.plan) }
        ensures stops { IfErr result (λ stop. stop ≢ BadPlan) }
    {
        let events = self.take_ready(pending, size.events)?;
        let Run {
            alloc,
            plan,
            model,
            states,
            mut traffic,
            mut throttle,
        } = self;
        let until = pending.least_time().unwrap_or(END);
        let world = World::open(alloc, model, states, events)?;
        let bounds = Bounds {
            plan,
            until,
            rounds: size.rounds.max(1),
            gate: Open,
        };
        let segment = run_segment(workers, alloc, world, bounds, &mut throttle, progress)?;
        let Rest {
            model,
            states,
            events,
        } = segment.world.into_rest(alloc)?;
        pending.put_back(events)?;
        traffic.add(&segment.traffic);
        Ok(Run {
            alloc,
            plan,
            model,
            states,
            traffic,
            throttle,
        })
    }
}

impl<M: Lookahead + Drop> Run<M> {
    /// Goes on in windows of the model's lookahead, in which nothing is rolled back, with some of the events that wait.
    pub(crate) fn in_windows<'r, S, R, H>(
        self,
        rt: &'r R,
        workers: &mut H,
        pending: &mut Pending<M::Body, S>,
        size: WindowsSize,
    ) -> Result<Run<M>, Stop>
    where
        S: Source<M::Body>,
        R: Wait,
        H: Executor<Work<'r, M, R>, Share<M>>,
        requires ready { IsReady M.Model self.model self.states.items pending.old.events }
        requires plan { IsInRanges self.plan }
        ensures onward { IfOk result (λ r. GoesOn M.Model M.Body.cmp
            self.model self.states.items pending.old.events
            r.model r.states.items pending.new.events) }
        ensures plan { IfOk result (λ r. r.plan ≡ self.plan) }
        ensures stops { IfErr result (λ stop. stop ≢ BadPlan) }
    {
        let events = self.take_ready(pending, size.events)?;
        let Run {
            alloc,
            plan,
            model,
            states,
            mut traffic,
            throttle,
        } = self;
        let lookahead = window_of(&model);
        let until = pending.least_time().unwrap_or(END);
        let end = end_of_windows(&events, lookahead, size.times, until).min(until);
        let stage = Stage {
            model,
            states,
            events,
        };
        let windows = Windows {
            workers: plan.workers,
            lookahead,
            end,
        };
        let Left {
            stage,
            executed,
            received,
        } = run_in_windows(rt, workers, alloc, stage, windows)?;
        let Stage {
            model,
            states,
            events,
        } = stage;
        pending.put_back(events)?;
        traffic.add(&Traffic {
            executed,
            ring: received,
            ..Traffic::default()
        });
        Ok(Run {
            alloc,
            plan,
            model,
            states,
            traffic,
            throttle,
        })
    }

    /// Goes on by this segment.
    pub(crate) fn by<'r, S, R, H, P>(
        self,
        rt: &'r R,
        workers: &mut H,
        pending: &mut Pending<M::Body, S>,
        segment: Segment,
        progress: &mut P,
    ) -> Result<Run<M>, Stop>
    where
        S: Source<M::Body>,
        R: Wait,
        H: Executor<RoundWork<M, Open>, Worker<M>> + Executor<Work<'r, M, R>, Share<M>>,
        P: Progress,
        requires ready { IsReady M.Model self.model self.states.items pending.old.events }
        requires plan { IsInRanges self.plan }
        ensures onward { IfOk result (λ r. GoesOn M.Model M.Body.cmp
            self.model self.states.items pending.old.events
            r.model r.states.items pending.new.events) }
        ensures plan { IfOk result (λ r. r.plan ≡ self.plan) }
        ensures stops { IfErr result (λ stop. stop ≢ BadPlan) }
    {
        match segment {
            Segment::InOrder(rounds) => self.in_order(pending, rounds),
            Segment::Windows(size) => self.in_windows(rt, workers, pending, size),
            Segment::Rounds(size) => self.in_rounds(workers, pending, size, progress),
        }
    }
}

/// How long a window is, in ticks: as the model's lookahead, and one tick at least.
fn window_of<M: Lookahead>(model: &M) -> u64
    ensures some { 1 ≤ result }
    ensures ahead { IsAhead M.Model model.now result }
{
    model.lookahead().max(1)
}

/// The time up to which windows go that take in these events, in ticks, where `until` is the time of the first other one.
fn end_of_windows<B: Copy>(events: &[Event<B>], lookahead: u64, times: u64, until: u64) -> u64 {
    if until == END {
        end_far_behind(events, times)
    } else {
        end_behind(events, lookahead)
    }
}

/// The time after the last of these events, or after the last one before a time of several windows in which none of them is, since
/// workers cross such a time window by window.
fn end_behind<B: Copy>(events: &[Event<B>], lookahead: u64) -> u64 {
    let gap = lookahead.saturating_mul(MOST_EMPTY_WINDOWS);
    let mut last = events.first().map_or(0, |event| event.time);
    for event in events {
        if event.time > last.saturating_add(gap) {
            return last.saturating_add(1);
        }
        last = event.time.max(last);
    }
    last.saturating_add(1)
}

/// The time that is so many times as far behind the first of these events as the last one is, where no other event waits: handing
/// them over and taking back what is left then costs little beside the events executed.
fn end_far_behind<B: Copy>(events: &[Event<B>], times: u64) -> u64 {
    let mut first = END;
    let mut last = 0;
    for event in events {
        first = first.min(event.time);
        last = event.time.max(last);
    }
    let apart = last.saturating_sub(first);
    first
        .saturating_add(apart.saturating_mul(times))
        .saturating_add(1)
}
