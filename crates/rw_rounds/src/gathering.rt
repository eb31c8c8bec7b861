ghost use Rattle.std.specs.Prelude.{◌≡◌, ◌+◌, ◌<◌, ◌++◌, ℕ, List, [], All, IfOk, OnOk, length, map, vec_capacity};
ghost use Rattle.std.specs.VecDeque.{deque_capacity};
ghost use Rattle.rw_vt.specs.Words.{Position};
ghost use Rattle.rw_vt.specs.declared.event.Letter.{Letter};
ghost use Rattle.rw_vt.specs.System.{flatten};
ghost use Rattle.rw_exchange.specs.Ports.{entry, IsOpening, received_between, sent_between};
ghost use Rattle.rw_pool.specs.Sums.{sum_below};
ghost use Rattle.rw_rounds.specs.Bags.{weigh};
ghost use Rattle.rw_rounds.specs.Gathering.{IsGathered};
ghost use Rattle.rw_rounds.specs.Rounds.{weigh_left};

use crate::inner::Inner;
use crate::processes::Processes;
use crate::traffic::Traffic;
use crate::worker::Worker;
use rw_board::{Board, Seat};
use rw_exchange::{Left, Port};
use rw_vt::{Letter, Model as VtModel, NoMemory};
use std::alloc::Global;
use std::collections::VecDeque;

/// What a round comes to, once its workers are taken apart.
#[derive(Drop)]
pub(crate) struct Gathered<M: VtModel> {
    /// The processes of each worker.
    pub(crate) shares: VecDeque<Processes<M>>,
    /// The letters that are on their way.
    pub(crate) letters: Vec<Letter<M::Body>>,
    /// The least time noted, in ticks.
    pub(crate) floor: u64,
}

/// Takes the workers of a round apart, closes their board and adds what they did to the traffic. The processes stay with
/// their workers.
pub(crate) fn gather<M: VtModel>(
    alloc: Global,
    board: Board,
    workers: Vec<Worker<M>>,
    traffic: &mut Traffic,
) -> Result<Gathered<M>, NoMemory>
    requires opening { IsOpening (map (λ w. w.port) workers.items) }
    requires seats { length workers.items ≡ board.seats }
    requires board { All (λ s. s.board ≡ board.board) (map (λ w. w.seat) workers.items) }
    ensures { IfOk result (λ r. IsGathered workers.items
        (map (λ h. h.items) r.shares.items) r.letters.items r.floor) }
{
    let RoundParts {
        shares,
        kept,
        aside,
        ports,
        seats,
    } = take_apart(alloc, workers, traffic)?;
    let floor = rw_board::close(board, seats);
    let letters = letters_left(alloc, ports, kept, aside)?;
    Ok(Gathered {
        shares,
        letters,
        floor,
    })
}

/// The letters that are on their way: those left in the rings between all these ports, those kept, and those set aside.
fn letters_left<B: Copy>(
    alloc: Global,
    ports: Vec<Port<Letter<B>>>,
    kept: Vec<Vec<Letter<B>>>,
    aside: Vec<Vec<Letter<B>>>,
) -> Result<Vec<Letter<B>>, NoMemory>
    requires opening { IsOpening ports.items }
    ensures left { IfOk result (λ all. (left : Position → Position → List (Letter B))
        × ((i k : Position) → i < length ports.items → k < length ports.items
        → received_between ports.items i k ++ left i k ≡ sent_between ports.items i k)
        × ((h : Letter B → ℕ) → weigh h all.items ≡ weigh_left (length ports.items) h left
        + weigh h (flatten (map (λ k. k.items) kept.items))
        + weigh h (flatten (map (λ a. a.items) aside.items)))) }
{
    let left = rw_exchange::settle(alloc, ports)?;
    join_letters(alloc, &left, &kept, &aside)
}

/// What the workers of a round hold at its end, by worker.
#[derive(Drop)]
struct RoundParts<M: VtModel> {
    /// The processes of each.
    shares: VecDeque<Processes<M>>,
    /// The letters that each kept.
    kept: Vec<Vec<Letter<M::Body>>>,
    /// The letters that each set aside.
    aside: Vec<Vec<Letter<M::Body>>>,
    ports: Vec<Port<Letter<M::Body>>>,
    seats: Vec<Seat>,
}

impl<M: VtModel> RoundParts<M> {
    /// Nothing yet, with room for what `workers` workers hold.
    fn with_capacity(alloc: Global, workers: usize) -> Result<RoundParts<M>, NoMemory>
        ensures none { IfOk result (λ l. (l.shares.items ≡ []) × (l.kept.items ≡ [])
            × (l.aside.items ≡ []) × (l.ports.items ≡ []) × (l.seats.items ≡ [])) }
        ensures room { IfOk result (λ l. (deque_capacity l.shares ≡ workers)
            × (vec_capacity l.kept ≡ workers) × (vec_capacity l.aside ≡ workers)
            × (vec_capacity l.ports ≡ workers) × (vec_capacity l.seats ≡ workers)) }
    {
        let shares = VecDeque::with_capacity(alloc, workers)?;
        let kept = Vec::with_capacity(alloc, workers)?;
        let aside = Vec::with_capacity(alloc, workers)?;
        let ports = Vec::with_capacity(alloc, workers)?;
        let seats = Vec::with_capacity(alloc, workers)?;
        Ok(RoundParts {
            shares,
            kept,
            aside,
            ports,
            seats,
        })
    }
}

/// Takes the workers apart, and adds what they did to the traffic.
fn take_apart<M: VtModel>(
    alloc: Global,
    workers: Vec<Worker<M>>,
    traffic: &mut Traffic,
) -> Result<RoundParts<M>, NoMemory>
    ensures shares { IfOk result (λ l.
        map (λ h. h.items) l.shares.items ≡ map (λ w. w.processes) workers.items) }
    ensures kept { IfOk result (λ l.
        map (λ k. k.items) l.kept.items ≡ map (λ w. w.kept) workers.items) }
    ensures aside { IfOk result (λ l.
        map (λ a. a.items) l.aside.items ≡ map (λ w. w.aside) workers.items) }
    ensures ports { IfOk result (λ l. l.ports.items ≡ map (λ w. w.port) workers.items) }
    ensures seats { IfOk result (λ l. l.seats.items ≡ map (λ w. w.seat) workers.items) }
{
    let mut parts = RoundParts::with_capacity(alloc, workers.len())?;
    for worker in workers {
        let Inner {
            processes,
            kept,
            aside,
            port,
            seat,
            traffic: done,
            ..
        } = worker.into_inner();
        traffic.add(&done);
        parts.shares.push_back_reserved(processes);
        parts.kept.push_reserved(kept);
        parts.aside.push_reserved(aside);
        parts.ports.push_reserved(port);
        parts.seats.push_reserved(seat);
    }
    Ok(parts)
}

/// The letters that are on their way: those left in the rings, by sender and then by receiver, those kept, and those
/// set aside.
fn join_letters<B: Copy>(
    alloc: Global,
    left: &Left<Letter<B>>,
    kept: &[Vec<Letter<B>>],
    aside: &[Vec<Letter<B>>],
) -> Result<Vec<Letter<B>>, NoMemory>
    ensures all { IfOk result (λ all. (h : Letter B → ℕ) → weigh h all.items
        ≡ weigh_left (length left.now) h (λ i k. entry left.now i k)
        + weigh h (flatten (map (λ k. k.items) kept.now))
        + weigh h (flatten (map (λ a. a.items) aside.now))) }
{
    let mut letters = Vec::new(alloc);
    for from in 0..left.workers() {
        add_sent(&mut letters, left, from)?;
    }
    add_all(&mut letters, kept)?;
    add_all(&mut letters, aside)?;
    Ok(letters)
}

/// Adds the letters of all `lists`.
fn add_all<B: Copy>(letters: &mut Vec<Letter<B>>, lists: &[Vec<Letter<B>>]) -> Result<(), NoMemory>
    ensures more { OnOk result (letters.new.items
        ≡ letters.old.items ++ flatten (map (λ l. l.items) lists.now)) }
{
    for list in lists {
        letters.extend_from_slice(list)?;
    }
    Ok(())
}

/// Adds the letters from worker `from` that are left in the rings.
fn add_sent<B: Copy>(
    letters: &mut Vec<Letter<B>>,
    left: &Left<Letter<B>>,
    from: usize,
) -> Result<(), NoMemory>
    ensures more { OnOk result ((h : Letter B → ℕ) → weigh h letters.new.items
        ≡ weigh h letters.old.items
        + sum_below (length left.now) (λ k. weigh h (entry left.now from k))) }
{
    for to in 0..left.workers() {
        letters.extend_from_slice(left.between(from, to))?;
    }
    Ok(())
}
