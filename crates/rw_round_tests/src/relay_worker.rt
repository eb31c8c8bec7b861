// A worker of the relay, made from a process of its own, and what one turn of it does.
ghost use Rattle.std.specs.Prelude.{◌≡◌, true, [], ◌∷◌, IfOk};
ghost use Rattle.rw_exchange.specs.Ports.{IsWide};
ghost use Rattle.rw_rounds.specs.Turns.{IsFit};

use crate::two_ports::two_ports;
use rw_lp::Lp;
use rw_relay::parcels::{parcel, station};
use rw_relay::{Parcel, Relay};
use rw_rounds::{Board, Plan, Port, Seat, Worker};
use rw_vt::{END, Event, Letter, Model};
use std::alloc::Global;
use std::test::Fail;

/// One turn of each of two workers.
const PLAN: Plan = Plan {
    workers: 2,
    turns: 1,
    batch: 4,
    window: END,
    ring: 4,
    max_rounds: 1,
    lazy: false,
};

/// A list of one element.
fn one<T: Drop>(alloc: Global, element: T) -> Result<Vec<T>, Fail>
    ensures { IfOk result (λ list. list.items ≡ element ∷ []) }
{
    let mut list = Vec::new(alloc);
    list.push(element)?;
    Ok(list)
}

/// Worker 0 of two. It has the one process whose number is even, to which one event is to come and one more is on its way:
/// nothing is said of the other worker's process, nor of how that starts.
fn first_worker<M: Model>(
    alloc: Global,
    model: &M,
    start: M::State,
    coming: Event<M::Body>,
    on_its_way: Letter<M::Body>,
    port: Port<Letter<M::Body>>,
    seat: Seat,
) -> Result<Worker<M>, Fail>
    requires two { M.process_count model.now ≡ 2 }
    requires start { M.IsWellFormed model.now 0 start }
    requires coming { (M.is_valid model.now coming ≡ true) × (coming.to ≡ 0) }
    requires on_its_way { (M.is_valid model.now on_its_way.event ≡ true)
        × (on_its_way.event.to ≡ 0) }
    requires port { (port.worker ≡ 0) × IsWide 2 port }
    ensures fit { IfOk result (IsFit M.Model M.Body.cmp model.now) }
    ensures seat { IfOk result (λ w. w.seat ≡ seat) }
{
    let process = Lp::new(alloc, model, 0, start, one(alloc, coming)?)?;
    let processes = one(alloc, process)?;
    let inbox = one(alloc, on_its_way)?;
    Ok(Worker::new(alloc, 0, &PLAN, processes, inbox, port, seat, 0))
}

/// The board of both workers, and their seats.
fn two_seats(alloc: Global) -> Result<(Board, Seat, Seat), Fail>
    ensures first { IfOk result (λ r. r.1.board ≡ r.0.board) }
    ensures second { IfOk result (λ r. r.2.board ≡ r.0.board) }
{
    let (board, mut seats) = rw_board::open(alloc, 2)?;
    let second = seats.remove(1);
    let first = seats.remove(0);
    Ok((board, first, second))
}

fn message(event: Event<Parcel>) -> Letter<Parcel>
    ensures { result.event ≡ event }
{
    Letter { event, anti: false }
}

/// How many of its two events a turn of worker 0 executes.
fn executed_in_a_turn(
    alloc: Global,
    port: Port<Letter<Parcel>>,
    seat: Seat,
    board: &Board,
) -> Result<u64, Fail>
    requires port { (port.worker ≡ 0) × IsWide 2 port }
    requires seat { seat.board ≡ board.now.board }
{
    let relay = Relay::new(10, u64::MAX).ok_or("relay")?;
    let start = station(0, 0, 0);
    let (coming, on_its_way) = (parcel(8, 0, 1, 0, 4), message(parcel(5, 0, 0, 0, 3)));
    let worker = first_worker(alloc, &relay, start, coming, on_its_way, port, seat)?;
    let (_worker, executed) = worker.turn(alloc, &relay, board)?;
    Ok(executed)
}

/// That number, what then comes to worker 1, and the least time on the board.
fn one_turn(alloc: Global) -> Result<(u64, [Option<Letter<Parcel>>; 3], u64), Fail> {
    let (port, mut others_port) = two_ports(alloc, 4)?;
    let (board, seat, mut others_seat) = two_seats(alloc)?;
    let executed = executed_in_a_turn(alloc, port, seat, &board)?;
    let came = [
        others_port.receive(0),
        others_port.receive(0),
        others_port.receive(0),
    ];
    Ok((executed, came, board.floor(&mut others_seat)))
}

#[test]
fn a_turn_executes_what_came_and_sends_it_on(rt: HostRuntime) -> Result<(), Fail> {
    let (executed, came, floor) = one_turn(rt.alloc())?;
    assert!(rt; executed == 2);
    // Both were passed on through the ring, the earlier one first, and the least of their times is on the board.
    let first_on = message(parcel(15, 1, 0, 1, 2));
    let second_on = message(parcel(18, 1, 1, 1, 3));
    assert!(rt; came == [Some(first_on), Some(second_on), None]);
    assert!(rt; floor == 15);
    Ok(())
}
