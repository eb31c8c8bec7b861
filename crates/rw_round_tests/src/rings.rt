// Letters between workers over rings: in one thread, and in three.
ghost use Rattle.std.specs.Prelude.{◌≡◌, ℕ, ◌<◌, ◌≤◌, [], ◌∷◌, length, map, slice_index_or, Ok, OnOk, IfOk, IfSome, vec_len};
ghost use Rattle.rw_exchange.specs.Ports.{SamePort, StayAnOpening, IsOpening, IsNew, IsOther, received_from};

use crate::two_ports::two_ports;
use rw_exchange::{Left, Port, Protocol, open, settle};
use rw_vt::{Event, Letter, NoMemory};
use std::alloc::{AllocError, Global};
use std::test::Fail;
use std::thread;
use std::thread::Threads;

/// How many letters each worker sends to each other one.
const LETTERS: u64 = 1_000;

/// How often a refused letter is offered again.
const TRIES: u64 = 10_000_000;

// The letter of this number from this worker.
fn letter(from: usize, number: u64) -> Letter<u64> {
    let event = Event {
        time: number,
        source: 0,
        number,
        to: 0,
        body: from as u64,
    };
    Letter { event, anti: false }
}

// Settles the ports of two workers.
fn settle_two(
    alloc: Global,
    first: Port<Letter<u64>>,
    second: Port<Letter<u64>>,
) -> Result<Left<Letter<u64>>, Fail>
    requires opening { IsOpening (first ∷ second ∷ []) }
{
    let mut ports = Vec::new(alloc);
    ports.push(first)?;
    ports.push(second)?;
    Ok(settle(alloc, ports)?)
}

// Whether one letter is left, from worker 0 to worker 1.
fn is_left(left: &Left<Letter<u64>>, letter: Letter<u64>) -> bool {
    left.workers() == 2
        && left.between(0, 1).iter().eq([letter].iter())
        && left.between(1, 0).is_empty()
        && left.between(0, 0).is_empty()
        && left.between(1, 1).is_empty()
}

// Whether a ring of one slot takes a letter, refuses the next one until the first has come, and keeps what does not come.
fn keeps_to_one_slot(alloc: Global, x: Letter<u64>, y: Letter<u64>) -> Result<bool, Fail> {
    let (mut first, mut second) = two_ports(alloc, 1)?;
    let sent = [first.send(1, x), first.send(1, y)];
    let came = [second.receive(0), second.receive(0)];
    let sent_later = first.send(1, y);
    let left = settle_two(alloc, first, second)?;
    Ok(
        sent == [Ok(()), Err(y)]
            && came == [Some(x), None]
            && sent_later == Ok(())
            && is_left(&left, y)
            && left.into_lists().len() == 2,
    )
}

#[test]
fn a_ring_of_one_slot(rt: HostRuntime) -> Result<(), Fail> {
    assert!(rt; keeps_to_one_slot(rt.alloc(), letter(0, 7), letter(0, 8))?);
    Ok(())
}

/// The protocol of a ring of numbers: each is how many were sent before it.
#[derive(Clone, Copy)]
struct Counting;

impl Protocol<u64> for Counting {
    ghost allows = { λ before number. number ≡ length before };
}

// The next number from another worker, of which the protocol alone says what it is.
fn next_number(port: &mut Port<u64, Counting>, from: usize) -> Option<u64>
    requires other { IsOther port.old from }
    ensures number { IfSome result (λ number. number ≡ length (received_from port.old from)) }
{
    port.receive(from)
}

// Whether the port of a worker that is gone is deserted, before and after it goes, and what number it sent.
fn sent_and_gone(alloc: Global) -> Result<([bool; 2], Option<u64>), Fail> {
    let (mut first, mut second) = two_ports(alloc, 1)?;
    if first.send(1, 0).is_err() {
        return Err(Fail::from("refused"));
    }
    let before = second.is_deserted();
    drop(first);
    let after = second.is_deserted();
    Ok(([before, after], next_number(&mut second, 0)))
}

#[test]
fn a_port_of_numbers_under_a_protocol(rt: HostRuntime) -> Result<(), Fail> {
    assert!(rt; sent_and_gone(rt.alloc())? == ([false, true], Some(0)));
    Ok(())
}

// Which worker each of two ports is for, and for how many.
fn told_by_two(alloc: Global) -> Result<[(usize, usize); 2], Fail> {
    let (first, second) = two_ports::<u64, Counting>(alloc, 1)?;
    Ok([
        (first.worker(), first.workers()),
        (second.worker(), second.workers()),
    ])
}

#[test]
fn each_port_knows_its_worker(rt: HostRuntime) -> Result<(), Fail> {
    assert!(rt; told_by_two(rt.alloc())? == [(0, 2), (1, 2)]);
    Ok(())
}

// Lets other threads go first, now and then.
fn pause(turn: u64) {
    if turn % 64 == 0 {
        thread::yield_now();
    }
}

/// What a worker sent to each other one, and received from it.
#[derive(Drop)]
struct Log {
    sent: Vec<Vec<Letter<u64>>>,
    received: Vec<Vec<Letter<u64>>>,
}

/// A worker that sends letters to all others and receives theirs.
#[derive(Drop)]
struct Trader {
    port: Port<Letter<u64>>,
    log: Log,
    awaited: u64,
    gave_up: bool,
}

// Some empty lists.
fn lists(alloc: Global, count: usize) -> Result<Vec<Vec<Letter<u64>>>, NoMemory> {
    let mut lists = Vec::new(alloc);
    for _ in 0..count {
        lists.push(Vec::new(alloc))?;
    }
    Ok(lists)
}

impl Trader {
    fn new(alloc: Global, port: Port<Letter<u64>>) -> Result<Trader, NoMemory>
        ensures port { IfOk result (λ t. t.port ≡ port) }
    {
        let count = port.workers();
        let log = Log {
            sent: lists(alloc, count)?,
            received: lists(alloc, count)?,
        };
        Ok(Trader {
            port,
            log,
            awaited: 2 * LETTERS,
            gave_up: false,
        })
    }

    // Receives a letter from one worker, if one is seen.
    fn receive_from(&mut self, from: usize) -> Result<(), NoMemory>
        ensures same { OnOk result (SamePort self.old.port self.new.port) }
    {
        if from >= self.port.workers() || from == self.port.worker() {
            return Ok(());
        }
        let Some(letter) = self.port.receive(from) else {
            return Ok(());
        };
        if let Some(list) = self.log.received.get_mut(from) {
            list.push(letter)?;
        }
        self.awaited = self.awaited.saturating_sub(1);
        Ok(())
    }

    // Receives a letter from each other worker from whom one is seen.
    fn receive(&mut self) -> Result<(), NoMemory>
        ensures same { OnOk result (SamePort self.old.port self.new.port) }
    {
        for from in 0..self.port.workers() {
            self.receive_from(from)?;
        }
        Ok(())
    }

    // Offers a letter once. False where it is refused.
    fn offer(&mut self, to: usize, number: u64) -> Result<bool, NoMemory>
        ensures same { OnOk result (SamePort self.old.port self.new.port) }
    {
        let from = self.port.worker();
        if to >= self.port.workers() || to == from {
            return Ok(true);
        }
        let letter = letter(from, number);
        if self.port.send(to, letter).is_err() {
            return Ok(false);
        }
        if let Some(list) = self.log.sent.get_mut(to) {
            list.push(letter)?;
        }
        Ok(true)
    }

    // Offers a letter until it is taken. A worker that was refused too often sends no more.
    fn send(&mut self, to: usize, number: u64) -> Result<(), NoMemory>
        ensures same { OnOk result (SamePort self.old.port self.new.port) }
    {
        for turn in 0..=TRIES {
            if self.gave_up || self.offer(to, number)? {
                return Ok(());
            }
            self.receive()?;
            pause(turn);
        }
        self.gave_up = true;
        Ok(())
    }

    // Sends the letters of one number.
    fn send_each(&mut self, number: u64) -> Result<(), NoMemory>
        ensures same { OnOk result (SamePort self.old.port self.new.port) }
    {
        for to in 0..self.port.workers() {
            self.send(to, number)?;
        }
        Ok(())
    }

    // Sends all letters.
    fn send_all(&mut self) -> Result<(), NoMemory>
        ensures same { OnOk result (SamePort self.old.port self.new.port) }
    {
        for number in 0..LETTERS {
            self.send_each(number)?;
        }
        Ok(())
    }

    // Receives until all letters have come.
    fn receive_all(&mut self) -> Result<(), NoMemory>
        ensures same { OnOk result (SamePort self.old.port self.new.port) }
    {
        for turn in 0..TRIES {
            if self.awaited == 0 {
                break;
            }
            self.receive()?;
            pause(turn);
        }
        Ok(())
    }
}

// All that one worker does, in its thread. Its signature is a point too: it sends and receives with its port and no
// handle of the runtime. What may wait, as for a lock, would need one, so no lock is round the ports.
fn trade(alloc: Global, port: Port<Letter<u64>>) -> Result<Trader, NoMemory>
    ensures same { IfOk result (λ t. SamePort port t.port) }
{
    let mut trader = Trader::new(alloc, port)?;
    trader.send_all()?;
    trader.receive_all()?;
    Ok(trader)
}

// All workers, each in a thread of its own.
fn trade_all<R: Threads + Sync>(
    rt: &R,
    alloc: Global,
    ports: Vec<Port<Letter<u64>>>,
) -> Result<Vec<Result<Trader, NoMemory>>, AllocError>
    ensures count { IfOk result (λ ts. vec_len ts ≡ vec_len ports) }
    ensures same { IfOk result (λ ts. (i : ℕ) (d : _) (e : _)
        → i < vec_len ports
        → IfOk (slice_index_or ts.items i e) (λ t.
        SamePort (slice_index_or ports.items i d) t.port)) }
{
    thread::map_vec(
        rt,
        ports,
        &|port: Port<Letter<u64>>| -> Result<Trader, NoMemory>
            ensures { IfOk result (λ t. SamePort port t.port) }
        { trade(alloc, port) },
    )
}

// The workers, where none lacked memory.
fn all_ok(alloc: Global, results: Vec<Result<Trader, NoMemory>>) -> Result<Vec<Trader>, NoMemory>
    ensures all { IfOk result (λ ts. map (λ t. Ok t) ts.items ≡ results.items) }
{
    let mut traders = Vec::with_capacity(alloc, results.len())?;
    for trader in results {
        traders.push_reserved(trader?);
    }
    Ok(traders)
}

// Their ports and their logs.
fn split(
    alloc: Global,
    traders: Vec<Trader>,
) -> Result<(Vec<Port<Letter<u64>>>, Vec<Log>), NoMemory>
    ensures ports { IfOk result (λ r. r.0.items ≡ map (λ t. t.port) traders.items) }
{
    let mut ports = Vec::with_capacity(alloc, traders.len())?;
    let mut logs = Vec::with_capacity(alloc, traders.len())?;
    for trader in traders {
        ports.push_reserved(trader.port);
        logs.push_reserved(trader.log);
    }
    Ok((ports, logs))
}

// Whether what was received followed by what is left is what was sent.
fn agrees(logs: &[Log], left: &Left<Letter<u64>>, from: usize, to: usize) -> bool {
    let (Some(sender), Some(receiver)) = (logs.get(from), logs.get(to)) else {
        return false;
    };
    let (Some(sent), Some(received)) = (sender.sent.get(to), receiver.received.get(from)) else {
        return false;
    };
    let left = left.between(from, to);
    received.iter().chain(left.iter()).eq(sent.iter())
}

// Whether between three workers, each in a thread of its own, no letter is lost.
fn none_is_lost<R: Threads + Sync>(rt: &R, alloc: Global) -> Result<bool, Fail> {
    let ports = open(alloc, 3, 4)?;
    let results = trade_all(rt, alloc, ports)?;
    let traders = all_ok(alloc, results)?;
    let (ports, logs) = split(alloc, traders)?;
    let left = settle(alloc, ports)?;
    let ways = [(0, 1), (0, 2), (1, 0), (1, 2), (2, 0), (2, 1)];
    Ok(
        ways.into_iter()
            .all(|(from, to)| agrees(&logs, &left, from, to)),
    )
}

#[test]
fn three_threads_lose_nothing(rt: HostRuntime) -> Result<(), Fail> {
    assert!(rt; none_is_lost(&rt, rt.alloc())?);
    Ok(())
}

#[test]
fn the_limits_are_stated(_rt: HostRuntime) {
    rw_exchange::every_limit();
    rw_board::every_limit();
    rw_lp::every_limit();
}
