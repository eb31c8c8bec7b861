ghost use Rattle.std.specs.Prelude.{◌≡◌, ◌≤◌, ◌<◌, ◌%◌, ◌==◌, ◌+◌, ◌*◌, ◌∷◌, ◌≢◌, [], All, IfOk, filter, length, map, replicate, slice_get, slice_index_or};
ghost use Rattle.rw_vt.specs.Words.{Position, Worker};
ghost use Rattle.rw_vt.specs.System.{IsReady};
ghost use Rattle.rw_exchange.specs.Ports.{HaveFirst, IsOpening, NoneItself, StayAnOpening};
ghost use Rattle.rw_windows.specs.Beginning.{HasNotBegun, first_batch};
ghost use Rattle.rw_windows.specs.Running.{AreBegun};
ghost use Rattle.rw_windows.specs.Working.{IsAhead};

use crate::batch::{Batch, InTime};
use crate::domain::Domain;
use crate::parkers::{Parkers, open_parkers};
use crate::running::Windows;
use crate::share::Share;
use rw_exchange::{FirstMessage, Port};
use rw_pool::{deal_out, first_of};
use rw_vt::{Event, Model as VtModel, NoMemory, empty_lists};
use std::alloc::{AllocError, Global};
use std::collections::VecDeque;
use std::snapshot::Snapshot;

/// How many slots a ring has: more than a worker may be ahead of another, which is twice what each stays behind, and one.
const CAPACITY: usize = 8;

/// What the workers begin with, in the order of their numbers.
#[derive(Drop)]
struct BeginningParts<M: VtModel> {
    /// The states of the processes of each.
    shares: VecDeque<Vec<M::State>>,
    /// The events for each.
    inboxes: VecDeque<Vec<Event<M::Body>>>,
    /// The port of each.
    ports: VecDeque<Port<Batch<M>, InTime>>,
    /// The parkers of each.
    parkers: VecDeque<Parkers>,
}

/// The shares of the workers of a run, from these states with these events.
///
/// Process q goes to worker q modulo their number, and an event to the worker of its process. Nothing is sent before the
/// lookahead after the first event: the first batch of each ring has that bound, which both its ends know from the start.
///
/// # Errors
///
/// [`NoMemory`] where memory was refused.
pub(crate) fn begin<M: VtModel>(
    alloc: Global,
    model: &M,
    states: Vec<M::State>,
    events: Vec<Event<M::Body>>,
    windows: Windows,
) -> Result<Vec<Share<M>>, NoMemory>
    requires ready { IsReady M.Model model.now states.items events.items }
    requires workers { (1 ≤ windows.workers) × (windows.workers ≤ 16) }
    requires lookahead { 1 ≤ windows.lookahead }
    requires ahead { IsAhead M.Model model.now windows.lookahead }
    ensures begun { IfOk result (λ ws. AreBegun M.Model M.Body.cmp model.now windows.workers
        windows.end states.items events.items ws.items) }
{
    let first = least_time(&events, windows.end);
    let bound = first.saturating_add(windows.lookahead);
    let starts = Snapshot::of(&states);
    let parts = make_parts(alloc, model, windows, bound, states, &events)?;
    let shares = make_shares(alloc, windows, bound, &starts, parts)?;
    Ok(shares)
}

/// A time that no event is before, in ticks: the least of their times, or `end` where that is less.
fn least_time<B: Copy>(events: &[Event<B>], end: u64) -> u64
    ensures least { All (λ e. result ≤ e.time) events.now }
{
    let mut least = end;
    for event in events {
        least = least.min(event.time);
    }
    least
}

/// What the workers begin with.
fn make_parts<M: VtModel>(
    alloc: Global,
    model: &M,
    windows: Windows,
    bound: u64,
    states: Vec<M::State>,
    events: &[Event<M::Body>],
) -> Result<BeginningParts<M>, NoMemory>
    requires workers { (1 ≤ windows.workers) × (windows.workers ≤ 16) }
    ensures shares { IfOk result (λ s. (length s.shares.items ≡ windows.workers)
        × ((i : Worker) (place : Position) → i < windows.workers
        → slice_get (slice_index_or (map (λ h. h.items) s.shares.items) i []) place
        ≡ slice_get states.items (i + place * windows.workers))) }
    ensures inboxes { IfOk result (λ s. (length s.inboxes.items ≡ windows.workers)
        × ((i : Worker) → i < windows.workers
        → slice_index_or (map (λ b. b.items) s.inboxes.items) i []
        ≡ filter (λ e. e.to % windows.workers == i) events.now)) }
    ensures ports { IfOk result (λ s. (length s.ports.items ≡ windows.workers)
        × IsOpening s.ports.items × StayAnOpening s.ports.items) }
    ensures first_sent { IfOk result (λ s.
        HaveFirst windows.workers (first_batch model.now windows.workers bound) s.ports.items
        × NoneItself windows.workers s.ports.items) }
    ensures parkers { IfOk result (λ s. length s.parkers.items ≡ windows.workers) }
{
    let shares = deal_out(alloc, windows.workers, states)?;
    let inboxes = deal_events(alloc, windows.workers, events)?;
    let ports = open_ports(alloc, model, windows.workers, bound)?;
    let parkers = open_parkers(alloc, windows.workers as usize)?;
    Ok(BeginningParts {
        shares: VecDeque::from(shares),
        inboxes: VecDeque::from(inboxes),
        ports: VecDeque::from(ports),
        parkers: VecDeque::from(parkers),
    })
}

/// The ports of the workers, through each ring of which its first batch went.
fn open_ports<M: VtModel>(
    alloc: Global,
    model: &M,
    workers: u32,
    bound: u64,
) -> Result<Vec<Port<Batch<M>, InTime>>, NoMemory>
    requires workers { (1 ≤ workers) × (workers ≤ 16) }
    ensures count { IfOk result (λ ports. length ports.items ≡ workers) }
    ensures opening { IfOk result (λ ports. IsOpening ports.items) }
    ensures stays { IfOk result (λ ports. StayAnOpening ports.items) }
    ensures first_sent { IfOk result (λ ports.
        HaveFirst workers (first_batch model.now workers bound) ports.items) }
    ensures own { IfOk result (λ ports. NoneItself workers ports.items) }
{
    let first = FirstBatch {
        model,
        workers,
        bound,
    };
    rw_exchange::open_with_first::<Batch<M>, InTime, _>(alloc, workers as usize, CAPACITY, &first)
}

/// The events for each worker, in order: an event goes to the worker of its process.
fn deal_events<B: Copy>(
    alloc: Global,
    workers: u32,
    events: &[Event<B>],
) -> Result<Vec<Vec<Event<B>>>, NoMemory>
    requires workers { 1 ≤ workers }
    ensures count { IfOk result (λ inboxes. length inboxes.items ≡ workers) }
    ensures each { IfOk result (λ inboxes. (i : Worker) → i < workers
        → slice_index_or (map (λ b. b.items) inboxes.items) i []
        ≡ filter (λ e. e.to % workers == i) events.now) }
{
    // About as many events go to each worker.
    let mut inboxes = lists_with_room(
        alloc,
        workers as usize,
        2 * (events.len() / workers as usize),
    )?;
    for event in events {
        inboxes[(event.to % workers) as usize].push(*event)?;
    }
    Ok(inboxes)
}

/// So many empty lists, each with room for so many values.
fn lists_with_room<T: Drop>(
    alloc: Global,
    count: usize,
    room: usize,
) -> Result<Vec<Vec<T>>, NoMemory>
    ensures { IfOk result (λ lists.
        map (λ l. l.items) lists.items ≡ replicate count []) }
{
    let mut lists = Vec::with_capacity(alloc, count)?;
    for _ in 0..count {
        lists.push_reserved(Vec::with_capacity(alloc, room)?);
    }
    Ok(lists)
}

/// The shares, by worker, each with its own of the parts.
fn make_shares<M: VtModel>(
    alloc: Global,
    windows: Windows,
    bound: u64,
    starts: &Snapshot<Vec<M::State>>,
    parts: BeginningParts<M>,
) -> Result<Vec<Share<M>>, NoMemory>
    requires shares { length parts.shares.items ≡ windows.workers }
    requires inboxes { length parts.inboxes.items ≡ windows.workers }
    requires ports { length parts.ports.items ≡ windows.workers }
    requires parkers { length parts.parkers.items ≡ windows.workers }
    ensures count { IfOk result (λ ws. length ws.items ≡ windows.workers) }
    ensures numbers { IfOk result (λ ws. (i : Worker) (d : _) → i < windows.workers
        → (slice_index_or ws.items i d).number ≡ i) }
    ensures states { IfOk result (λ ws.
        map (λ w. w.states) ws.items ≡ map (λ h. h.items) parts.shares.items) }
    ensures given { IfOk result (λ ws.
        map (λ w. w.given) ws.items ≡ map (λ b. b.items) parts.inboxes.items) }
    ensures ports { IfOk result (λ ws. map (λ w. w.port) ws.items ≡ parts.ports.items) }
    ensures starts { IfOk result (λ ws.
        map (λ w. w.starts) ws.items ≡ replicate windows.workers starts.now.value.items) }
    ensures new { IfOk result (λ ws. All (HasNotBegun windows bound) ws.items) }
{
    let mut parts = parts;
    let mut shares = Vec::with_capacity(alloc, windows.workers as usize)?;
    for number in 0..windows.workers {
        let share = next_share(alloc, windows, bound, number, starts, &mut parts)?;
        shares.push_reserved(share);
    }
    Ok(shares)
}

/// The share of worker `number`, which has done nothing yet, with the next one of each of the parts.
fn next_share<M: VtModel>(
    alloc: Global,
    windows: Windows,
    bound: u64,
    number: u32,
    starts: &Snapshot<Vec<M::State>>,
    parts: &mut BeginningParts<M>,
) -> Result<Share<M>, NoMemory>
    requires shares { parts.old.shares.items ≢ [] }
    requires inboxes { parts.old.inboxes.items ≢ [] }
    requires ports { parts.old.ports.items ≢ [] }
    requires parkers { parts.old.parkers.items ≢ [] }
    ensures number { IfOk result (λ w. w.number ≡ number) }
    ensures states { IfOk result (λ w. map (λ h. h.items) parts.old.shares.items
        ≡ w.states ∷ map (λ h. h.items) parts.new.shares.items) }
    ensures given { IfOk result (λ w. map (λ b. b.items) parts.old.inboxes.items
        ≡ w.given ∷ map (λ b. b.items) parts.new.inboxes.items) }
    ensures port { IfOk result (λ w.
        parts.old.ports.items ≡ w.port ∷ parts.new.ports.items) }
    ensures parkers { IfOk result (λ _.
        length parts.old.parkers.items ≡ length parts.new.parkers.items + 1) }
    ensures starts { IfOk result (λ w. w.starts ≡ starts.now.value.items) }
    ensures new { IfOk result (HasNotBegun windows bound) }
{
    let outbox = empty_lists(alloc, windows.workers as usize)?;
    let inbox = first_of(&mut parts.inboxes);
    let given = Snapshot::of(&inbox);
    let domain = Domain {
        number,
        workers: windows.workers,
        end: windows.end,
        lookahead: windows.lookahead,
        states: first_of(&mut parts.shares),
        port: first_of(&mut parts.ports),
        parkers: first_of(&mut parts.parkers),
        outbox,
        until: 0,
        bound_in: bound,
        bound_out: bound,
        executed: 0,
        received: 0,
        starts: Snapshot::of(starts),
        given,
    };
    Ok(Share {
        domain,
        events: inbox,
    })
}

/// Makes the first batch of each ring: it has no events, and a bound before which nothing is sent.
#[derive(Drop)]
struct FirstBatch<'a, M> {
    model: &'a M,
    workers: u32,
    bound: u64,
}

impl<'a, M: VtModel> FirstMessage<Batch<M>> for FirstBatch<'a, M> {
    ghost use Rattle.rw_windows.specs.Beginning.{first_batch};

    ghost first = { λ g. first_batch g.model.now g.workers g.bound };

    fn make(&self, alloc: Global, _from: usize, to: usize) -> Result<Option<Batch<M>>, NoMemory> {
        if to >= self.workers as usize {
            return Ok(None);
        }
        let to = to as u32;
        Ok(Some(Batch {
            events: Vec::new(alloc),
            bound: self.bound,
            model: Snapshot::of(self.model),
            workers: Snapshot::of(&self.workers),
            to: Snapshot::of(&to),
        }))
    }
}
