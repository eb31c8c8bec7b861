//! The ports of an opening.
ghost use Rattle.std.specs.Prelude.{◌≡◌, ◌≤◌, [], None, map, All, IfOk, IfSome, vec_len};
ghost use Rattle.rw_vt.specs.Words.{Worker};
ghost use Rattle.rw_exchange.specs.Limits.{most_ports, most_slots};
ghost use Rattle.rw_exchange.specs.Ports.{HaveTablesFirst, HaveFirst, IsNew, IsOpening, KnowsFreeToEach, NoneItself, StayAnOpening};
ghost use Rattle.rw_exchange.specs.Rings.{out_table, in_table, sent_table, received_table, HasCapacity, KnowsFree, NothingSent, NothingReceivedAtAll, AreCrossed};

use crate::build::row;
use crate::first_message::Silent;
use crate::{FirstMessage, Port};
use rtrb::{Consumer, Producer, Protocol};
use rw_vt::{NoMemory, empty_lists};
use std::alloc::Global;

// All rings, by sender and by receiver.
fn tables<T: Drop, P: Protocol<T>, G: FirstMessage<T>>(
    alloc: Global,
    count: usize,
    capacity: usize,
    opener: &G,
) -> Result<
    (
        Vec<Vec<Option<Producer<T, Global, P>>>>,
        Vec<Vec<Option<Consumer<T, Global, P>>>>,
    ),
    NoMemory,
>
    requires capacity { 1 ≤ capacity }
    requires allowed { (from to : Worker) → IfSome (G.first opener.now from to) (P.allows []) }
    ensures crossed { IfOk result (λ r.
        AreCrossed count count (out_table r.0.items) (in_table r.1.items)) }
    ensures capacity { IfOk result (λ r. All (λ v. All (HasCapacity capacity) v.items) r.0.items) }
    ensures first { IfOk result (λ r. HaveTablesFirst count count (G.first opener.now)
        (sent_table r.0.items) (received_table r.1.items)) }
    ensures free { IfOk result (λ r. ((from to : Worker) → G.first opener.now from to ≡ None)
        → All (λ v. All (KnowsFree capacity) v.items) r.0.items) }
    ensures sent { IfOk result (λ r. ((from to : Worker) → G.first opener.now from to ≡ None)
        → All (λ v. All NothingSent v.items) r.0.items) }
    ensures received { IfOk result (λ r.
        ((from to : Worker) → G.first opener.now from to ≡ None)
        → NothingReceivedAtAll r.1.items) }
{
    let mut columns = empty_lists(alloc, count)?;
    let mut rows = Vec::with_capacity(alloc, count)?;
    for own in 0..count {
        rows.push_reserved(row(alloc, &mut columns, own, capacity, opener)?);
    }
    Ok((rows, columns))
}

// Deals the rings to ports.
fn deal<T: Drop, P: Protocol<T>>(
    alloc: Global,
    workers: usize,
    capacity: usize,
    rows: Vec<Vec<Option<Producer<T, Global, P>>>>,
    columns: Vec<Vec<Option<Consumer<T, Global, P>>>>,
) -> Result<Vec<Port<T, P>>, NoMemory>
    requires crossed { AreCrossed workers workers (out_table rows.items) (in_table columns.items) }
    requires capacity { All (λ v. All (HasCapacity capacity) v.items) rows.items }
    ensures count { IfOk result (λ ports. vec_len ports ≡ workers) }
    ensures opening { IfOk result (λ ports. IsOpening ports.items) }
    ensures stays { IfOk result (λ ports. StayAnOpening ports.items) }
    ensures capacity { IfOk result (λ ports. All (λ port. port.capacity ≡ capacity) ports.items) }
    ensures sent { IfOk result (λ ports.
        map (λ p. p.sent) ports.items ≡ sent_table rows.items) }
    ensures received { IfOk result (λ ports.
        map (λ p. p.received) ports.items ≡ received_table columns.items) }
    ensures free { IfOk result (λ ports. All (λ v. All (KnowsFree capacity) v.items) rows.items
        → All (KnowsFreeToEach capacity) ports.items) }
{
    let mut ports = Vec::with_capacity(alloc, workers)?;
    for (outs, ins) in rows.into_iter().zip(columns) {
        let port = Port::of(ports.len(), capacity, outs, ins);
        ports.push_reserved(port);
    }
    Ok(ports)
}

/// The most workers that rings join.
pub const MAX_WORKERS: usize = 16;

/// The most slots of a ring.
pub const MAX_CAPACITY: usize = 4096;

/// Each of these constants is the limit that stands in `specs/Limits.antt`, which the contracts cite. The call itself does
/// nothing.
pub fn every_limit()
    ensures workers { MAX_WORKERS ≡ most_ports }
    ensures capacity { MAX_CAPACITY ≡ most_slots }
{}

/// One port for each of `workers` workers, 1 to [`MAX_WORKERS`] of them, in order, with a ring of `capacity` slots, 1
/// to [`MAX_CAPACITY`], for each ordered pair of different workers. Each port knows that all slots of its rings are
/// free. All memory of the rings is taken here. The caller says what the letters are, `T`, and the protocol of the rings,
/// `P`.
///
/// # Errors
///
/// [`NoMemory`] where memory was refused.
pub fn open<T: Drop, P: Protocol<T>>(
    alloc: Global,
    workers: usize,
    capacity: usize,
) -> Result<Vec<Port<T, P>>, NoMemory>
    requires workers { (1 ≤ workers) × (workers ≤ most_ports) }
    requires capacity { (1 ≤ capacity) × (capacity ≤ most_slots) }
    ensures count { IfOk result (λ ports. vec_len ports ≡ workers) }
    ensures opening { IfOk result (λ ports. IsOpening ports.items) }
    ensures stays { IfOk result (λ ports. StayAnOpening ports.items) }
    ensures new { IfOk result (λ ports. All IsNew ports.items) }
    ensures capacity { IfOk result (λ ports. All (λ port. port.capacity ≡ capacity) ports.items) }
    ensures free { IfOk result (λ ports. All (KnowsFreeToEach capacity) ports.items) }
{
    let (rows, columns) = tables(alloc, workers, capacity, &Silent)?;
    let ports = deal(alloc, workers, capacity, rows, columns)?;
    Ok(ports)
}

/// One port for each of `workers` workers, as [`open`] gives them, where one first item has gone through each ring: what
/// `opener` makes. So both ends of a ring know it, and a protocol may judge the items behind it by it.
///
/// It counts as sent and as received. A send succeeds while fewer letters were sent than the ring has slots, the first
/// item among them; how many slots a port knows to be free is not told.
///
/// # Errors
///
/// [`NoMemory`] where memory was refused.
pub fn open_with_first<T: Drop, P: Protocol<T>, G: FirstMessage<T>>(
    alloc: Global,
    workers: usize,
    capacity: usize,
    opener: &G,
) -> Result<Vec<Port<T, P>>, NoMemory>
    requires workers { (1 ≤ workers) × (workers ≤ most_ports) }
    requires capacity { (1 ≤ capacity) × (capacity ≤ most_slots) }
    requires allowed { (from to : Worker) → IfSome (G.first opener.now from to) (P.allows []) }
    ensures count { IfOk result (λ ports. vec_len ports ≡ workers) }
    ensures opening { IfOk result (λ ports. IsOpening ports.items) }
    ensures stays { IfOk result (λ ports. StayAnOpening ports.items) }
    ensures first_sent { IfOk result (λ ports.
        HaveFirst workers (G.first opener.now) ports.items) }
    ensures own { IfOk result (λ ports. NoneItself workers ports.items) }
    ensures capacity { IfOk result (λ ports. All (λ port. port.capacity ≡ capacity) ports.items) }
{
    let (rows, columns) = tables(alloc, workers, capacity, opener)?;
    let ports = deal(alloc, workers, capacity, rows, columns)?;
    Ok(ports)
}
