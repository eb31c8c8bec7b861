// Models made from PHOLD: one whose runs end at a time, and one that records what it executes.
ghost use Rattle.std.specs.Prelude.{IfOk};
ghost use Rattle.rw_vt.specs.System.{IsReady};
ghost use Rattle.rw_phold.specs.contracts.phold.PholdVtModel.TheImpl as of_phold;

use rw_engine::{END, Event, How, Output, Plan, Start, run_in, run_with_output};
use rw_models::Until;
use rw_phold::{Ball, Holder, Phold, Report, beginning, report_of};
use rw_progress::Silent;
use std::alloc::Global;
use std::sync::Wait;
use std::test::Fail;
use std::thread::Threads;
use std::time::Clock;

/// A run to come: the setting, the processes as they start, and the balls as they first come.
type Begun = (Phold, Vec<Holder>, Vec<Event<Ball>>);

/// So many workers, each of which executes far ahead.
fn rounds(workers: u32) -> How {
    How::InRounds(Plan {
        workers,
        turns: 4,
        batch: 16,
        window: END,
        ring: 8,
        max_rounds: 65536,
        lazy: false,
    })
}

/// Three processes with a ball each, which comes at every tick from 0 on and stays, before tick `until`.
fn balls_that_stay(alloc: Global, until: u64) -> Result<Begun, Fail>
    ensures ready { IfOk result (λ r. IsReady of_phold.ghosts r.0 r.1.items r.2.items) }
{
    let phold = Phold::new(3, 0, 1, 1, until).ok_or("setting")?;
    let (starts, initial) = beginning(alloc, &phold, 3, 1)?;
    Ok((phold, starts, initial))
}

/// 60 balls among 8 processes, half of which go to a drawn one, after 8 ticks or more, before tick `until`.
fn balls_that_go(alloc: Global, until: u64) -> Result<Begun, Fail>
    ensures ready { IfOk result (λ r. IsReady of_phold.ghosts r.0 r.1.items r.2.items) }
{
    let phold = Phold::new(8, 32768, 8, 24, until).ok_or("setting")?;
    let (starts, initial) = beginning(alloc, &phold, 60, 7)?;
    Ok((phold, starts, initial))
}

/// The processes that a run leaves.
fn last<R: Threads + Wait + Clock + Sync>(
    rt: &R,
    alloc: Global,
    begun: Begun,
    how: How,
) -> Result<Vec<Holder>, Fail>
    requires ready { IsReady of_phold.ghosts begun.0 begun.1.items begun.2.items }
{
    let (model, states, initial) = begun;
    let start = Start {
        model,
        states,
        initial,
    };
    let (states, _traffic) = run_in(rt, alloc, start, how, &mut Silent)?;
    Ok(states)
}

/// The processes that a run leaves which ends at tick `end`.
fn last_until<R: Threads + Wait + Clock + Sync>(
    rt: &R,
    alloc: Global,
    begun: Begun,
    end: u64,
    how: How,
) -> Result<Vec<Holder>, Fail>
    requires ready { IsReady of_phold.ghosts begun.0 begun.1.items begun.2.items }
{
    let (model, states, initial) = begun;
    let until = Until::new(model, end);
    let initial = until.events_before(initial);
    let start = Start {
        model: until,
        states,
        initial,
    };
    let (states, _traffic) = run_in(rt, alloc, start, how, &mut Silent)?;
    Ok(states)
}

/// How many events each of these processes has executed, and how many balls it has passed on.
fn are_counted(holders: &[Holder], events: u64, sends: u64) -> bool {
    holders
        .iter()
        .all(|holder| (holder.events, holder.sends) == (events, sends))
}

/// Whether three processes have executed 5 events each where their run ends at tick 5, passed their balls on after each, and keep
/// what those of a run keep in which no ball comes from tick 5 on.
fn ends_at_tick_5<R: Threads + Wait + Clock + Sync>(
    rt: &R,
    alloc: Global,
    how: How,
) -> Result<bool, Fail> {
    let states = last_until(rt, alloc, balls_that_stay(alloc, 10)?, 5, how)?;
    let bare = last(rt, alloc, balls_that_stay(alloc, 5)?, How::InOrder)?;
    let same = report_of(states.as_slice()) == report_of(bare.as_slice());
    Ok(same && states.len() == 3 && are_counted(&states, 5, 5) && are_counted(&bare, 5, 4))
}

// A ball comes at ticks 0 to 4, five times; the one of tick 5 is sent, but not taken.
#[test]
fn a_run_ends_at_its_tick(rt: HostRuntime) -> Result<(), Fail> {
    for (row, how) in [How::InOrder, rounds(1), rounds(2), rounds(3)]
        .iter()
        .enumerate()
    {
        assert!(rt; ends_at_tick_5(&rt, rt.alloc(), *how)?, "way {row}");
    }
    Ok(())
}

/// The report of a run of many balls that ends at tick 400.
fn reported<R: Threads + Wait + Clock + Sync>(
    rt: &R,
    alloc: Global,
    how: How,
) -> Result<Report, Fail> {
    let states = last_until(rt, alloc, balls_that_go(alloc, 4000)?, 400, how)?;
    Ok(report_of(states.as_slice()))
}

/// The report of a run of many balls of which none comes from tick 400 on.
fn reported_bare<R: Threads + Wait + Clock + Sync>(rt: &R, alloc: Global) -> Result<Report, Fail> {
    let states = last(rt, alloc, balls_that_go(alloc, 400)?, How::InOrder)?;
    Ok(report_of(states.as_slice()))
}

// Worked out by a second implementation, in Python.
#[test]
fn a_run_that_ends_is_the_run_without_later_events(rt: HostRuntime) -> Result<(), Fail> {
    let expected = Report {
        events: 1229,
        checksum: 0x7f9f_91a1_70df_90ae,
    };
    assert!(rt; reported_bare(&rt, rt.alloc())? == expected);
    for (row, how) in [How::InOrder, rounds(1), rounds(2), rounds(3)]
        .iter()
        .enumerate()
    {
        assert!(rt; reported(&rt, rt.alloc(), *how)? == expected, "way {row}");
    }
    Ok(())
}

/// Counts the events that it takes, and those of them that are right: of three balls that stay, event n comes at tick n / 3 to
/// process n % 3, from outside at tick 0 and else from that process, which had sent one at each tick before.
#[derive(Drop)]
struct Stays {
    taken: u64,
    right: u64,
}

impl Output<Ball> for Stays {
    ghost use Rattle.std.specs.Prelude.{◌≡◌, ◌+◌, ◌%◌, ◌^◌};

    ghost Takes = { λ before _ after. after.taken ≡ (before.taken + 1) % 2 ^ 64 };

    fn commit(&mut self, event: &Event<Ball>) {
        let (tick, process) = (self.taken / 3, (self.taken % 3) as u32);
        let (source, number) = if tick == 0 {
            (0, u64::from(process))
        } else {
            (process + 1, tick - 1)
        };
        let expected = Event {
            time: tick,
            source,
            number,
            to: process,
            body: Ball { number: process },
        };
        if *event == expected {
            self.right = self.right.wrapping_add(1);
        }
        self.taken = self.taken.wrapping_add(1);
    }
}

/// How many events a run of three balls that ends at tick 5 hands out, how many of them are right, and whether the processes have
/// executed 5 each.
fn handed_out<R: Threads + Wait + Clock + Sync>(
    rt: &R,
    alloc: Global,
    how: How,
) -> Result<(u64, u64, bool), Fail> {
    let (model, states, initial) = balls_that_stay(alloc, 10)?;
    let until = Until::new(model, 5);
    let initial = until.events_before(initial);
    let start = Start {
        model: until,
        states,
        initial,
    };
    let mut output = Stays { taken: 0, right: 0 };
    let (states, _traffic) = run_with_output(rt, alloc, start, how, &mut output, &mut Silent)?;
    Ok((output.taken, output.right, are_counted(&states, 5, 5)))
}

#[test]
fn each_event_before_the_end_is_handed_out_once_in_order(rt: HostRuntime) -> Result<(), Fail> {
    for (row, how) in [How::InOrder, rounds(1), rounds(2), rounds(3)]
        .iter()
        .enumerate()
    {
        assert!(rt;
            handed_out(&rt, rt.alloc(), *how)? == (15, 15, true),
            "way {row}"
        );
    }
    Ok(())
}

/// Counts the events that it takes, and those of them that come after the last one, in the order of events.
#[derive(Drop)]
struct Rising {
    taken: u64,
    later: u64,
    last: Option<Event<Ball>>,
}

impl Output<Ball> for Rising {
    ghost use Rattle.std.specs.Prelude.{◌≡◌, Some};

    ghost Takes = { λ _ event after. after.last ≡ Some event };

    fn commit(&mut self, event: &Event<Ball>) {
        if self.last < Some(*event) {
            self.later = self.later.wrapping_add(1);
        }
        self.taken = self.taken.wrapping_add(1);
        self.last = Some(*event);
    }
}

/// How many events a run of many balls before tick 400 hands out, how many of them in order, and its report.
fn counted<R: Threads + Wait + Clock + Sync>(
    rt: &R,
    alloc: Global,
    how: How,
) -> Result<(u64, u64, Report), Fail> {
    let (model, states, initial) = balls_that_go(alloc, 400)?;
    let start = Start {
        model,
        states,
        initial,
    };
    let mut output = Rising {
        taken: 0,
        later: 0,
        last: None,
    };
    let (states, _traffic) = run_with_output(rt, alloc, start, how, &mut output, &mut Silent)?;
    Ok((output.taken, output.later, report_of(states.as_slice())))
}

// No two events are the same, so those that rise are each handed out once.
#[test]
fn as_many_events_as_are_executed_are_handed_out(rt: HostRuntime) -> Result<(), Fail> {
    let expected = Report {
        events: 1229,
        checksum: 0x7f9f_91a1_70df_90ae,
    };
    for (row, how) in [How::InOrder, rounds(1), rounds(2), rounds(3)]
        .iter()
        .enumerate()
    {
        assert!(rt;
            counted(&rt, rt.alloc(), *how)? == (1229, 1229, expected),
            "way {row}"
        );
    }
    Ok(())
}
