ghost use Rattle.std.specs.Prelude.{◌≡◌, ◌≢◌, ◌%◌, ◌<◌, ◌≤◌, ◌==◌, ◌∷◌, [], IfOk, All, filter, length, map, slice_get, slice_index_or};
ghost use Rattle.rw_vt.specs.Words.{Position};
ghost use Rattle.rw_exchange.specs.Ports.{IsNew, IsOpening, StayAnOpening};
ghost use Rattle.rw_board.specs.Seats.{new_seat};
ghost use Rattle.rw_rounds.specs.Plans.{IsInRanges};
ghost use Rattle.rw_rounds.specs.Rounds.{role};
ghost use Rattle.rw_rounds.specs.Setting.{AreSetUp};

use crate::inner::Inner;
use crate::plan::Plan;
use crate::processes::Processes;
use crate::traffic::Traffic;
use crate::worker::Worker;
use rw_board::{Board, Seat};
use rw_exchange::Port;
use rw_pool::first_of;
use rw_vt::{Letter, Model as VtModel, NoMemory, empty_lists};
use std::alloc::Global;
use std::collections::VecDeque;

/// What the workers of a round begin with, in the order of their numbers.
#[derive(Drop)]
struct SetUpParts<P, B> {
    /// The processes of each.
    shares: VecDeque<P>,
    /// The letters on their way to each.
    inboxes: VecDeque<Vec<Letter<B>>>,
    ports: VecDeque<Port<Letter<B>>>,
    seats: VecDeque<Seat>,
}

/// Sets up a round of workers that have these processes: opens its board and its rings, and splits the letters among the
/// workers. A letter goes to the worker of its process.
pub(crate) fn set_up<M: VtModel>(
    alloc: Global,
    plan: &Plan,
    collected: u64,
    shares: VecDeque<Processes<M>>,
    letters: Vec<Letter<M::Body>>,
) -> Result<(Board, Vec<Worker<M>>), NoMemory>
    requires plan { IsInRanges plan.now }
    requires shares { length shares.items ≡ plan.now.workers }
    ensures { IfOk result (λ r. AreSetUp plan.now collected
        (map (λ h. h.items) shares.items) letters.items r.0 r.1.items) }
{
    let (board, supply) = supplies(alloc, plan, shares, letters)?;
    let workers = make_workers(alloc, plan, collected, supply)?;
    Ok((board, workers))
}

/// The board of a round, and what its workers begin with. What a share of the processes is does not matter here.
fn supplies<P: Drop, B: Copy>(
    alloc: Global,
    plan: &Plan,
    shares: VecDeque<P>,
    letters: Vec<Letter<B>>,
) -> Result<(Board, SetUpParts<P, B>), NoMemory>
    requires { IsInRanges plan.now }
    ensures shares { IfOk result (λ r. r.1.shares.items ≡ shares.items) }
    ensures inboxes { IfOk result (λ r. (length r.1.inboxes.items ≡ plan.now.workers)
        × ((i : Position) → i < plan.now.workers
        → slice_index_or (map (λ b. b.items) r.1.inboxes.items) i []
        ≡ filter (λ l. l.event.to % plan.now.workers == i) letters.items)) }
    ensures ports { IfOk result (λ r. (length r.1.ports.items ≡ plan.now.workers)
        × IsOpening r.1.ports.items × StayAnOpening r.1.ports.items × All IsNew r.1.ports.items) }
    ensures seats { IfOk result (λ r. (length r.1.seats.items ≡ plan.now.workers)
        × (r.0.seats ≡ plan.now.workers) × All (λ s. s ≡ new_seat r.0.board) r.1.seats.items) }
{
    let workers = plan.workers as usize;
    let inboxes = split_letters(alloc, plan.workers, &letters)?;
    let ports = rw_exchange::open(alloc, workers, plan.ring as usize)?;
    let (board, seats) = rw_board::open(alloc, workers)?;
    let supply = SetUpParts {
        shares,
        inboxes: VecDeque::from(inboxes),
        ports: VecDeque::from(ports),
        seats: VecDeque::from(seats),
    };
    Ok((board, supply))
}

/// The letters on their way to each worker, in order: a letter goes to the worker of its process.
fn split_letters<B: Copy>(
    alloc: Global,
    workers: u32,
    letters: &[Letter<B>],
) -> Result<Vec<Vec<Letter<B>>>, NoMemory>
    requires workers { 1 ≤ workers }
    ensures count { IfOk result (λ inboxes. length inboxes.items ≡ workers) }
    ensures each { IfOk result (λ inboxes. (i : Position) → i < workers
        → slice_index_or (map (λ b. b.items) inboxes.items) i []
        ≡ filter (λ l. l.event.to % workers == i) letters.now) }
{
    let mut inboxes = empty_lists(alloc, workers as usize)?;
    for letter in letters {
        inboxes[(letter.event.to % workers) as usize].push(*letter)?;
    }
    Ok(inboxes)
}

/// The workers of a round, numbered from 0, each with its processes, its inbox, its port and its seat.
fn make_workers<M: VtModel>(
    alloc: Global,
    plan: &Plan,
    collected: u64,
    supply: SetUpParts<Processes<M>, M::Body>,
) -> Result<Vec<Worker<M>>, NoMemory>
    requires shares { length supply.shares.items ≡ plan.now.workers }
    requires inboxes { length supply.inboxes.items ≡ plan.now.workers }
    requires ports { length supply.ports.items ≡ plan.now.workers }
    requires seats { length supply.seats.items ≡ plan.now.workers }
    ensures count { IfOk result (λ workers. length workers.items ≡ plan.now.workers) }
    ensures roles { IfOk result (λ workers. (i : Position) → i < plan.now.workers
        → slice_get (map (λ w. w.role) workers.items) i ≡ Some (role plan.now collected i)) }
    ensures processes { IfOk result (λ workers.
        map (λ w. w.processes) workers.items ≡ map (λ h. h.items) supply.shares.items) }
    ensures inboxes { IfOk result (λ workers.
        map (λ w. w.inbox) workers.items ≡ map (λ b. b.items) supply.inboxes.items) }
    ensures ports { IfOk result (λ workers.
        map (λ w. w.port) workers.items ≡ supply.ports.items) }
    ensures seats { IfOk result (λ workers.
        map (λ w. w.seat) workers.items ≡ supply.seats.items) }
    ensures none { IfOk result (λ workers.
        All (λ w. (w.kept ≡ []) × (w.aside ≡ [])) workers.items) }
{
    let mut supply = supply;
    let mut workers = Vec::with_capacity(alloc, plan.workers as usize)?;
    for number in 0..plan.workers {
        workers.push_reserved(next_worker(alloc, number, plan, collected, &mut supply));
    }
    Ok(workers)
}

/// Worker `number`, with what is next in the supply. Takes no memory.
fn next_worker<M: VtModel>(
    alloc: Global,
    number: u32,
    plan: &Plan,
    collected: u64,
    supply: &mut SetUpParts<Processes<M>, M::Body>,
) -> Worker<M>
    requires shares { supply.old.shares.items ≢ [] }
    requires inboxes { supply.old.inboxes.items ≢ [] }
    requires ports { supply.old.ports.items ≢ [] }
    requires seats { supply.old.seats.items ≢ [] }
    ensures role { result.role ≡ role plan.now collected number }
    ensures processes { map (λ h. h.items) supply.old.shares.items
        ≡ result.processes ∷ map (λ h. h.items) supply.new.shares.items }
    ensures inbox { map (λ b. b.items) supply.old.inboxes.items
        ≡ result.inbox ∷ map (λ b. b.items) supply.new.inboxes.items }
    ensures port { supply.old.ports.items ≡ result.port ∷ supply.new.ports.items }
    ensures seat { supply.old.seats.items ≡ result.seat ∷ supply.new.seats.items }
    ensures none { (result.kept ≡ []) × (result.aside ≡ []) }
{
    let processes = first_of(&mut supply.shares);
    let inbox = first_of(&mut supply.inboxes);
    let port = first_of(&mut supply.ports);
    let seat = first_of(&mut supply.seats);
    let inner = Inner {
        number,
        plan: *plan,
        collected,
        processes,
        kept: Vec::new(alloc),
        aside: Vec::new(alloc),
        port,
        seat,
        traffic: Traffic::default(),
    };
    Worker::of(inner, inbox)
}
