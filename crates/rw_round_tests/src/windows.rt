// PHOLD and the relay in windows of their lookahead: what is left ends as the run in order, and none of it is before the end.
ghost use Rattle.std.specs.Prelude.{◌≡◌, ◌≤◌, IfOk};
ghost use Rattle.rw_vt.specs.System.{IsReady};
ghost use Rattle.rw_windows.specs.Working.{IsAhead};
ghost use Rattle.rw_phold.specs.contracts.phold.PholdVtModel.TheImpl as of_phold;
ghost use Rattle.rw_relay.specs.contracts.RelayVtModel.TheImpl as of_relay;

use rw_phold::{Holder, Phold, Report, beginning, report_of};
use rw_relay::parcels::parcel;
use rw_relay::{Relay, Station, parcels};
use rw_serial::last_states;
use rw_vt::{END, Model as VtModel};
use rw_windows::{Halt, Left, Stage, Windows, run_in_windows};
use std::alloc::Global;
use std::sync::Wait;
use std::test::Fail;
use std::thread;
use std::thread::{Scope, Threads};

/// How many balls there are.
const BALLS: u32 = 200;

/// From what all that is drawn comes.
const SEED: u64 = 7;

/// Goes on with a run in windows, in the threads of a pool that is there for them alone.
fn by_a_pool<'s, E, M, R>(
    rt: &'s R,
    scope: &Scope<'s, E>,
    alloc: Global,
    stage: Stage<M>,
    windows: Windows,
) -> Result<Left<M>, Halt>
where
    M: VtModel + Send + Sync + Drop + 's,
    M::State: Send,
    M::Body: Send,
    M::Undo: Send,
    R: Threads + Wait + Sync,
    requires ready { IsReady M.Model stage.model stage.states.items stage.events.items }
    requires workers { (1 ≤ windows.workers) × (windows.workers ≤ 16) }
    requires lookahead { 1 ≤ windows.lookahead }
    requires ahead { IsAhead M.Model stage.model windows.lookahead }
    ensures ready { IfOk result (λ l.
        IsReady M.Model l.stage.model l.stage.states.items l.stage.events.items) }
{
    let mut pool = rw_pool::alone(rt, alloc);
    let left = match rw_pool::grow(&mut pool, scope, alloc, windows.workers as usize) {
        Ok(()) => run_in_windows(rt, &mut pool, alloc, stage, windows),
        Err(halt) => Err(halt),
    };
    rw_pool::shut_down(pool);
    left
}

/// A run of so many balls among 16 processes, half of which go to a drawn one, after 8 ticks or more, up to tick 4000.
fn begun(alloc: Global, balls: u32) -> Result<Stage<Phold>, Fail>
    ensures ready { IfOk result (λ s.
        IsReady of_phold.ghosts s.model s.states.items s.events.items) }
{
    let model = Phold::new(16, 32768, 8, 24, 4000).ok_or("setting")?;
    let (states, events) = beginning(alloc, &model, balls, SEED)?;
    Ok(Stage {
        model,
        states,
        events,
    })
}

/// Goes on with a run of balls in windows.
fn go_on<R: Threads + Wait + Sync>(
    rt: &R,
    alloc: Global,
    stage: Stage<Phold>,
    windows: Windows,
) -> Result<Left<Phold>, Halt>
    requires ready { IsReady of_phold.ghosts stage.model stage.states.items stage.events.items }
    requires workers { (1 ≤ windows.workers) × (windows.workers ≤ 16) }
    requires lookahead { 1 ≤ windows.lookahead }
    requires ahead { IsAhead of_phold.ghosts stage.model windows.lookahead }
    ensures ready { IfOk result (λ l.
        IsReady of_phold.ghosts l.stage.model l.stage.states.items l.stage.events.items) }
{
    thread::scope(
        thread::scope_env(),
        rt,
        move |scope| -> Result<Left<Phold>, Halt>
            requires ready { IsReady of_phold.ghosts stage.model
                stage.states.items stage.events.items }
            requires workers { (1 ≤ windows.workers) × (windows.workers ≤ 16) }
            requires lookahead { 1 ≤ windows.lookahead }
            requires ahead { IsAhead of_phold.ghosts stage.model windows.lookahead }
            ensures ready { IfOk result (λ l.
                IsReady of_phold.ghosts l.stage.model l.stage.states.items l.stage.events.items) }
        { by_a_pool(rt, scope, alloc, stage, windows) },
    )
}

/// Goes on with a run of balls, by so many workers, in windows of the model's lookahead.
fn go_on_by<R: Threads + Wait + Sync>(
    rt: &R,
    alloc: Global,
    stage: Stage<Phold>,
    workers: u32,
    end: u64,
) -> Result<Left<Phold>, Halt>
    requires ready { IsReady of_phold.ghosts stage.model stage.states.items stage.events.items }
    requires workers { (1 ≤ workers) × (workers ≤ 16) }
    ensures ready { IfOk result (λ l.
        IsReady of_phold.ghosts l.stage.model l.stage.states.items l.stage.events.items) }
{
    let lookahead = stage.model.lookahead;
    let windows = Windows {
        workers,
        lookahead,
        end,
    };
    go_on(rt, alloc, stage, windows)
}

/// The states to which a run of balls in order leads.
fn in_order(alloc: Global, stage: Stage<Phold>) -> Result<Vec<Holder>, Fail>
    requires ready { IsReady of_phold.ghosts stage.model stage.states.items stage.events.items }
{
    let Stage {
        model,
        states,
        events,
    } = stage;
    Ok(last_states(alloc, &model, states, events)?)
}

/// Whether no ball is left that comes before the end.
fn is_late(stage: &Stage<Phold>, end: u64) -> bool {
    stage.events.iter().all(|event| end <= event.time)
}

/// Whether no ball is left before the end, and a run in order leads from what is left to where it does from the beginning.
fn is_right(alloc: Global, stage: Stage<Phold>, end: u64) -> Result<bool, Fail>
    requires ready { IsReady of_phold.ghosts stage.model stage.states.items stage.events.items }
{
    let late = is_late(&stage, end);
    let states = in_order(alloc, stage)?;
    let want = in_order(alloc, begun(alloc, BALLS)?)?;
    Ok(late && states == want)
}

/// Whether windows of so many workers up to tick 2000 leave what is right.
fn agrees<R: Threads + Wait + Sync>(rt: &R, alloc: Global, workers: u32) -> Result<bool, Fail>
    requires workers { (1 ≤ workers) × (workers ≤ 16) }
{
    let left = go_on_by(rt, alloc, begun(alloc, BALLS)?, workers, 2000)?;
    is_right(alloc, left.stage, 2000)
}

#[test]
fn what_windows_leave_ends_as_the_run_in_order(rt: HostRuntime) -> Result<(), Fail> {
    for workers in 1..5 {
        assert!(rt; agrees(&rt, rt.alloc(), workers)?, "workers {workers}");
    }
    Ok(())
}

/// How many balls windows from the beginning on execute and leave, how many processes they leave, and the report of these.
fn counted<R: Threads + Wait + Sync>(
    rt: &R,
    alloc: Global,
    balls: u32,
    workers: u32,
    end: u64,
) -> Result<(u64, usize, usize, Report), Fail>
    requires workers { (1 ≤ workers) × (workers ≤ 16) }
{
    let left = go_on_by(rt, alloc, begun(alloc, balls)?, workers, end)?;
    let report = report_of(left.stage.states.as_slice());
    Ok((
        left.executed,
        left.stage.events.len(),
        left.stage.states.len(),
        report,
    ))
}

// No ball comes at tick 4000 or later. Worked out by a second implementation, in Python.
#[test]
fn windows_behind_the_last_ball_leave_nothing(rt: HostRuntime) -> Result<(), Fail> {
    let expected = Report {
        events: 41004,
        checksum: 0xafec_247c_1e93_e9ba,
    };
    assert!(rt; counted(&rt, rt.alloc(), BALLS, 2, 4000)? == (41004, 0, 16, expected));
    Ok(())
}

#[test]
fn windows_up_to_time_0_or_without_balls_leave_what_there_was(rt: HostRuntime) -> Result<(), Fail> {
    for (balls, end, there) in [(BALLS, 0, 200), (0, END, 0)] {
        let (executed, left, states, report) = counted(&rt, rt.alloc(), balls, 3, end)?;
        assert!(rt;
            (executed, left, states, report.events) == (0, there, 16, 0),
            "{balls} balls"
        );
    }
    Ok(())
}

/// Whether what windows of so many workers count as executed is what the processes count, and whether they count what one
/// worker hands over to another.
fn counts<R: Threads + Wait + Sync>(rt: &R, alloc: Global, workers: u32) -> Result<bool, Fail>
    requires workers { (1 ≤ workers) × (workers ≤ 16) }
{
    let left = go_on_by(rt, alloc, begun(alloc, BALLS)?, workers, 1000)?;
    let told = (left.received > 0) == (workers > 1);
    Ok(told && left.executed == report_of(left.stage.states.as_slice()).events)
}

#[test]
fn workers_count_what_they_execute_and_hear_of(rt: HostRuntime) -> Result<(), Fail> {
    for workers in 1..4 {
        assert!(rt; counts(&rt, rt.alloc(), workers)?, "workers {workers}");
    }
    Ok(())
}

/// What windows leave that go on where others ended, none of it before their end.
fn further<R: Threads + Wait + Sync>(
    rt: &R,
    alloc: Global,
    stage: Stage<Phold>,
    workers: u32,
    end: u64,
) -> Result<Left<Phold>, Fail>
    requires ready { IsReady of_phold.ghosts stage.model stage.states.items stage.events.items }
    requires workers { (1 ≤ workers) × (workers ≤ 16) }
    ensures ready { IfOk result (λ l.
        IsReady of_phold.ghosts l.stage.model l.stage.states.items l.stage.events.items) }
{
    let left = go_on_by(rt, alloc, stage, workers, end)?;
    if is_late(&left.stage, end) {
        Ok(left)
    } else {
        Err(Fail::from("a ball before the end is left"))
    }
}

/// Whether windows in pieces, of which one has nothing to do, leave what is right.
fn pieces_agree<R: Threads + Wait + Sync>(rt: &R, alloc: Global) -> Result<bool, Fail> {
    let left = further(rt, alloc, begun(alloc, BALLS)?, 2, 500)?;
    let left = further(rt, alloc, left.stage, 3, 501)?;
    let left = further(rt, alloc, left.stage, 4, 501)?;
    let none_again = left.executed == 0;
    let left = further(rt, alloc, left.stage, 1, 2500)?;
    Ok(none_again && is_right(alloc, left.stage, 2500)?)
}

#[test]
fn a_run_in_pieces_ends_as_the_run_in_order(rt: HostRuntime) -> Result<(), Fail> {
    assert!(rt; pieces_agree(&rt, rt.alloc())?);
    Ok(())
}

/// Whether windows of one tick up to tick 400 leave what is right.
fn narrow_agree<R: Threads + Wait + Sync>(rt: &R, alloc: Global) -> Result<bool, Fail> {
    let narrow = Windows {
        workers: 2,
        lookahead: 1,
        end: 400,
    };
    let whole = begun(alloc, BALLS)?;
    let left = go_on(rt, alloc, whole, narrow)?;
    is_right(alloc, left.stage, 400)
}

#[test]
fn a_lookahead_may_be_less_than_the_model_keeps_to(rt: HostRuntime) -> Result<(), Fail> {
    assert!(rt; narrow_agree(&rt, rt.alloc())?);
    Ok(())
}

/// Two parcels of 9 and 12 hops that come to these stations, each of which passes `most` parcels on, for 3 ticks.
fn posted(alloc: Global, first: u32, second: u32, most: u64) -> Result<Stage<Relay>, Fail>
    requires stations { (first ≤ 1) × (second ≤ 1) }
    ensures ready { IfOk result (λ s.
        IsReady of_relay.ghosts s.model s.states.items s.events.items) }
{
    let model = Relay::new(3, most).ok_or("relay")?;
    let (first, second) = (parcel(5, 0, 0, first, 9), parcel(8, 0, 1, second, 12));
    let (states, events) = parcels::beginning(alloc, first, second)?;
    Ok(Stage {
        model,
        states,
        events,
    })
}

/// Goes on with a run of parcels in windows, by so many workers.
fn pass_on<R: Threads + Wait + Sync>(
    rt: &R,
    alloc: Global,
    stage: Stage<Relay>,
    workers: u32,
    end: u64,
) -> Result<Left<Relay>, Halt>
    requires ready { IsReady of_relay.ghosts stage.model stage.states.items stage.events.items }
    requires workers { (1 ≤ workers) × (workers ≤ 16) }
{
    let lookahead = stage.model.delay;
    let windows = Windows {
        workers,
        lookahead,
        end,
    };
    thread::scope(
        thread::scope_env(),
        rt,
        move |scope| -> Result<Left<Relay>, Halt>
            requires ready { IsReady of_relay.ghosts stage.model
                stage.states.items stage.events.items }
            requires workers { (1 ≤ windows.workers) × (windows.workers ≤ 16) }
            requires lookahead { 1 ≤ windows.lookahead }
            requires ahead { IsAhead of_relay.ghosts stage.model windows.lookahead }
        { by_a_pool(rt, scope, alloc, stage, windows) },
    )
}

/// Why windows of two parcels to one station come to nothing, which can take no further one after the first.
fn halt<R: Threads + Wait + Sync>(
    rt: &R,
    alloc: Global,
    to: u32,
    workers: u32,
) -> Result<Option<Halt>, Fail>
    requires station { to ≤ 1 }
    requires workers { (1 ≤ workers) × (workers ≤ 16) }
{
    Ok(pass_on(rt, alloc, posted(alloc, to, to, 1)?, workers, 100).err())
}

#[test]
fn no_worker_waits_for_one_that_is_exhausted(rt: HostRuntime) -> Result<(), Fail> {
    let exhausted = Some(Halt::Exhausted);
    for workers in 1..5 {
        assert!(rt;
            halt(&rt, rt.alloc(), 0, workers)? == exhausted,
            "the first of {workers}"
        );
        assert!(rt;
            halt(&rt, rt.alloc(), 1, workers)? == exhausted,
            "the second of {workers}"
        );
    }
    Ok(())
}

/// How many events windows execute and leave before a station would be exhausted.
fn before_exhaustion<R: Threads + Wait + Sync>(
    rt: &R,
    alloc: Global,
) -> Result<(u64, usize), Fail> {
    let left = pass_on(rt, alloc, posted(alloc, 0, 0, 1)?, 2, 8)?;
    Ok((left.executed, left.stage.events.len()))
}

#[test]
fn what_would_be_exhausted_after_the_end_is_left(rt: HostRuntime) -> Result<(), Fail> {
    assert!(rt; before_exhaustion(&rt, rt.alloc())? == (1, 2));
    Ok(())
}

/// The stations to which a run in order of parcels to both leads.
fn passed_in_order(alloc: Global) -> Result<Vec<Station>, Fail> {
    let Stage {
        model,
        states,
        events,
    } = posted(alloc, 0, 1, u64::MAX)?;
    Ok(last_states(alloc, &model, states, events)?)
}

/// How many events five workers execute and leave of two stations, where the states are those of the run in order.
fn by_five<R: Threads + Wait + Sync>(rt: &R, alloc: Global) -> Result<Option<(u64, usize)>, Fail> {
    let left = pass_on(rt, alloc, posted(alloc, 0, 1, u64::MAX)?, 5, 100)?;
    let executed = left.executed;
    let Stage { states, events, .. } = left.stage;
    let counted = (executed, events.len());
    Ok((states == passed_in_order(alloc)?).then_some(counted))
}

// Parcels of 9 and 12 hops, so 23 events.
#[test]
fn there_may_be_more_workers_than_processes(rt: HostRuntime) -> Result<(), Fail> {
    assert!(rt; by_five(&rt, rt.alloc())? == Some((23, 0)));
    Ok(())
}
