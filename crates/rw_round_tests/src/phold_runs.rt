// PHOLD through the engine's door: in order, in rounds and by steps.
ghost use Rattle.std.specs.Prelude.{IfOk};
ghost use Rattle.rw_vt.specs.System.{IsReady};
ghost use Rattle.rw_phold.specs.contracts.phold.PholdVtModel.TheImpl as of_phold;

use rw_engine::{
    END, Event, How, Plan, Start, Step, Stop, Traffic, run_alone, run_alone_from, run_by_steps,
    run_in,
};
use rw_phold::{Ball, Holder, Phold, Report, beginning, report_of};
use rw_progress::Silent;
use rw_serial::{Sorted, last_states_within, last_states_within_from};
use std::alloc::Global;
use std::sync::Wait;
use std::test::Fail;
use std::thread::Threads;
use std::time::Clock;

/// 200 balls among 16 processes, half of which go to a drawn one, after 8 ticks or more, up to tick 4000. Each event makes `work`
/// further draws.
fn many_balls(alloc: Global, work: u32) -> Result<(Phold, Vec<Holder>, Vec<Event<Ball>>), Fail>
    ensures ready { IfOk result (λ r. IsReady of_phold.ghosts r.0 r.1.items r.2.items) }
{
    let setting = Phold::new(16, 32768, 8, 24, 4000).ok_or("setting")?;
    let phold = setting.with_work(work);
    let (starts, initial) = beginning(alloc, &phold, 200, 7)?;
    Ok((phold, starts, initial))
}

/// The report of what a run of these leaves.
fn reported<R: Threads + Wait + Clock + Sync>(
    rt: &R,
    alloc: Global,
    work: u32,
    how: How,
) -> Result<Report, Fail> {
    let (model, states, initial) = many_balls(alloc, work)?;
    let start = Start {
        model,
        states,
        initial,
    };
    let (states, _traffic) = run_in(rt, alloc, start, how, &mut Silent)?;
    Ok(report_of(states.as_slice()))
}

/// So many workers, each of which executes far ahead.
fn plan(workers: u32, lazy: bool) -> Plan {
    Plan {
        workers,
        turns: 4,
        batch: 64,
        window: END,
        ring: 8,
        max_rounds: 65536,
        lazy,
    }
}

// Worked out by a second implementation, in Python.
#[test]
fn balls_come_to_the_same_in_order_and_in_rounds(rt: HostRuntime) -> Result<(), Fail> {
    let expected = Report {
        events: 41004,
        checksum: 0xafec_247c_1e93_e9ba,
    };
    let ways = [
        How::InOrder,
        How::InRounds(plan(1, false)),
        How::InRounds(plan(3, false)),
        How::InRounds(plan(2, true)),
        // Once its rounds are made it goes on in order.
        How::InRounds(Plan {
            max_rounds: 2,
            ..plan(2, false)
        }),
    ];
    for (row, how) in ways.iter().enumerate() {
        assert!(rt;
            reported(&rt, rt.alloc(), 0, *how)? == expected,
            "way {row}"
        );
    }
    Ok(())
}

// Rounds are first tried after some milliseconds, so the run has to take longer.
#[test]
fn balls_with_work_come_to_the_same_in_rounds(rt: HostRuntime) -> Result<(), Fail> {
    let expected = reported(&rt, rt.alloc(), 1000, How::InOrder)?;
    for (row, plan) in [plan(3, false), plan(2, true)].iter().enumerate() {
        let report = reported(&rt, rt.alloc(), 1000, How::InRounds(*plan))?;
        assert!(rt; report == expected, "way {row}");
    }
    Ok(())
}

/// How many events one worker by itself counts, and what it does.
fn counted_alone(alloc: Global) -> Result<(u64, Traffic), Fail> {
    let (phold, starts, initial) = many_balls(alloc, 0)?;
    let (states, traffic) = run_alone(alloc, &phold, starts, initial, plan(1, false))?;
    Ok((report_of(states.as_slice()).events, traffic))
}

/// The same where its events come from a source, and the plan is of one round.
fn counted_in_one_round(alloc: Global) -> Result<(u64, Traffic), Fail> {
    let (phold, starts, initial) = many_balls(alloc, 0)?;
    let one = Plan {
        max_rounds: 1,
        ..plan(1, false)
    };
    let source = Sorted::new(initial)?;
    let (states, traffic) = run_alone_from(alloc, &phold, starts, source, one)?;
    Ok((report_of(states.as_slice()).events, traffic))
}

// A round of that plan has room for 256 events, so 41004 of them need 161 rounds, whatever the plan's number.
#[test]
fn one_worker_makes_as_many_rounds_as_events_need(rt: HostRuntime) -> Result<(), Fail> {
    let expected = Traffic {
        rounds: 161,
        executed: 41004,
        undone: 0,
        ring: 0,
        kept: 0,
    };
    assert!(rt; counted_alone(rt.alloc())? == (41004, expected));
    assert!(rt; counted_in_one_round(rt.alloc())? == (41004, expected));
    Ok(())
}

/// The checksum and the number of events of a run that is given up beyond a limit.
fn checksum_within(alloc: Global, limit: u64) -> Result<Option<(u64, u64)>, Fail> {
    let (phold, starts, initial) = many_balls(alloc, 0)?;
    match last_states_within(alloc, &phold, starts, initial, limit)? {
        Some((states, executed)) => Ok(Some((report_of(states.as_slice()).checksum, executed))),
        None => Ok(None),
    }
}

/// Whether a run is given up beyond a limit, where its events come from a source.
fn is_given_up(alloc: Global, limit: u64) -> Result<bool, Fail> {
    let (phold, starts, initial) = many_balls(alloc, 0)?;
    let source = Sorted::new(initial)?;
    Ok(last_states_within_from(alloc, &phold, starts, source, limit)?.is_none())
}

#[test]
fn a_run_is_given_up_where_there_are_more_events_than_its_limit(
    rt: HostRuntime,
) -> Result<(), Fail> {
    let whole = Some((0xafec_247c_1e93_e9ba, 41004));
    assert!(rt; checksum_within(rt.alloc(), 41004)? == whole);
    assert!(rt; is_given_up(rt.alloc(), 41003)?);
    Ok(())
}

/// One ball between two processes.
fn one_ball(alloc: Global) -> Result<(Phold, Vec<Holder>, Vec<Event<Ball>>), Fail>
    ensures ready { IfOk result (λ r. IsReady of_phold.ghosts r.0 r.1.items r.2.items) }
{
    let phold = Phold::new(2, 0, 1, 1, 10).ok_or("setting")?;
    let (starts, initial) = beginning(alloc, &phold, 1, 1)?;
    Ok((phold, starts, initial))
}

/// Whether this plan for a run of that ball is refused.
fn is_refused<R: Threads + Wait + Clock + Sync>(
    rt: &R,
    alloc: Global,
    plan: Plan,
) -> Result<bool, Fail> {
    let (model, states, initial) = one_ball(alloc)?;
    let start = Start {
        model,
        states,
        initial,
    };
    let ran = run_in(rt, alloc, start, How::InRounds(plan), &mut Silent);
    Ok(matches!(ran, Err(Stop::BadPlan)))
}

#[test]
fn a_plan_out_of_its_range_is_refused(rt: HostRuntime) -> Result<(), Fail> {
    assert!(rt; is_refused(&rt, rt.alloc(), plan(17, false))?);
    Ok(())
}

/// How many of these steps are answered, and the floor of the world to which they lead.
fn stepped(alloc: Global, steps: &[Step]) -> Result<(usize, u64), Fail> {
    let (model, states, initial) = one_ball(alloc)?;
    let start = Start {
        model,
        states,
        initial,
    };
    let (world, answers) = run_by_steps(alloc, start, steps)?;
    Ok((answers.len(), world.floor()))
}

#[test]
fn steps_lead_to_a_world(rt: HostRuntime) -> Result<(), Fail> {
    let steps = [Step::Execute(0), Step::Execute(1)];
    assert!(rt; stepped(rt.alloc(), &steps)? == (2, 1));
    Ok(())
}

#[test]
fn settings_have_ranges(rt: HostRuntime) {
    assert!(rt; Phold::new(0, 0, 1, 1, 10).is_none());
    assert!(rt; Phold::new(65537, 0, 1, 1, 10).is_none());
    assert!(rt; Phold::new(1, 0, 0, 1, 10).is_none());
    assert!(rt; Phold::new(1, 0, 1, 1_048_577, 10).is_none());
    assert!(rt; Phold::new(1, 0, 1, 1, END + 1).is_none());
    assert!(rt; Phold::new(65536, 65536, 1_048_576, 1_048_576, END).is_some());
}

#[test]
fn a_report_adds_processes_up(rt: HostRuntime) {
    let holder = Holder {
        random: 1,
        sum: 2,
        sends: 3,
        events: 4,
    };
    assert!(rt;
        report_of([].as_slice())
            == Report {
                events: 0,
                checksum: 0
            }
    );
    assert!(rt; report_of([holder, holder].as_slice()).events == 8);
}
