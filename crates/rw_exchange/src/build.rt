//! The rings of an opening, before they are dealt to ports.
ghost use Rattle.std.specs.Prelude.{◌≡◌, ◌≢◌, ◌<◌, ◌≤◌, ◌==◌, not, [], None, length, map, is_some, All, IfOk, OnOk, IfSome, IfNone, vec_len};
ghost use Rattle.rw_vt.specs.Words.{Worker};
ghost use Rattle.rtrb.specs.Ring.{sent, received, known_free, IsPair, SameProducer, SameConsumer};
ghost use Rattle.rw_exchange.specs.Ports.{items_of, HasRowFirst};
ghost use Rattle.rw_exchange.specs.Rings.{out_ring, in_ring, out_rings, in_table, out_sent, in_received, received_table, HasCapacity, KnowsFree, NothingSent, NothingReceived, NothingReceivedAtAll, AllButOwn, push_each, lists_with};

use crate::FirstMessage;
use rtrb::{Consumer, Producer, Protocol, RingBuffer};
use rw_vt::NoMemory;
use std::alloc::Global;

// Passes the first item, where there is one, through a new ring.
fn pass<T: Drop, P: Protocol<T>>(
    producer: &mut Producer<T, Global, P>,
    consumer: &mut Consumer<T, Global, P>,
    first: Option<T>,
)
    requires pair { IsPair producer.old consumer.old }
    requires new { (sent producer.old ≡ []) × (received consumer.old ≡ []) }
    requires free { 0 < known_free producer.old }
    requires allowed { IfSome first (P.allows []) }
    ensures producer { SameProducer producer.old producer.new }
    ensures consumer { SameConsumer consumer.old consumer.new }
    ensures sent { sent producer.new ≡ items_of first }
    ensures received { received consumer.new ≡ items_of first }
    ensures none { IfNone first (producer.new ≡ producer.old) }
{
    if let Some(item) = first {
        producer.push_reserved(item);
        consumer.slots_beside(producer);
        consumer.pop_known();
    }
}

// Both ends of a new ring, once its first item went through; or of none where the two workers are one.
fn ends<T: Drop, P: Protocol<T>, G: FirstMessage<T>>(
    alloc: Global,
    from: usize,
    to: usize,
    capacity: usize,
    opener: &G,
) -> Result<
    (
        Option<Producer<T, Global, P>>,
        Option<Consumer<T, Global, P>>,
    ),
    NoMemory,
>
    requires capacity { 1 ≤ capacity }
    requires allowed { IfSome (G.first opener.now from to) (P.allows []) }
    ensures ring { IfOk result (λ r. out_ring r.0 ≡ in_ring r.1) }
    ensures other { IfOk result (λ r. is_some (out_ring r.0) ≡ not (to == from)) }
    ensures capacity { IfOk result (λ r. HasCapacity capacity r.0) }
    ensures same { IfOk result (λ r. in_received r.1 ≡ out_sent r.0) }
    ensures first { IfOk result (λ r.
        from ≢ to → out_sent r.0 ≡ items_of (G.first opener.now from to)) }
    ensures free { IfOk result (λ r. G.first opener.now from to ≡ None
        → KnowsFree capacity r.0) }
    ensures new { IfOk result (λ r. G.first opener.now from to ≡ None
        → NothingSent r.0 × NothingReceived r.1) }
{
    if to == from {
        return Ok((None, None));
    }
    let first = opener.make(alloc, from, to)?;
    let (mut producer, mut consumer) = RingBuffer::with_protocol::<Global, P>(alloc, capacity)?;
    pass(&mut producer, &mut consumer, first);
    Ok((Some(producer), Some(consumer)))
}

// Puts an end behind the others of column `k`.
fn push_at<T: Drop, P: Protocol<T>>(
    columns: &mut Vec<Vec<Option<Consumer<T, Global, P>>>>,
    k: usize,
    end: Option<Consumer<T, Global, P>>,
) -> Result<(), NoMemory>
    requires { k < vec_len columns.old }
    ensures length { vec_len columns.new ≡ vec_len columns.old }
    ensures rings { OnOk result
        (in_table columns.new.items ≡ lists_with (in_table columns.old.items) k (in_ring end)) }
    ensures lists { OnOk result (received_table columns.new.items
        ≡ lists_with (received_table columns.old.items) k (in_received end)) }
    ensures received { OnOk result (NothingReceived end
        → NothingReceivedAtAll columns.old.items
        → NothingReceivedAtAll columns.new.items) }
{
    let column = &mut columns[k];
    column.reserve(1)?;
    column.push_reserved(end);
    Ok(())
}

// The rings from one worker to all others. Each column gets the other end of one.
pub(crate) fn row<T: Drop, P: Protocol<T>, G: FirstMessage<T>>(
    alloc: Global,
    columns: &mut Vec<Vec<Option<Consumer<T, Global, P>>>>,
    own: usize,
    capacity: usize,
    opener: &G,
) -> Result<Vec<Option<Producer<T, Global, P>>>, NoMemory>
    requires capacity { 1 ≤ capacity }
    requires allowed { (to : Worker) → IfSome (G.first opener.now own to) (P.allows []) }
    ensures length { IfOk result (λ r. vec_len r ≡ vec_len columns.old) }
    ensures rings { IfOk result (λ r. in_table columns.new.items
        ≡ push_each (in_table columns.old.items) (out_rings r.items)) }
    ensures others { IfOk result (λ r. AllButOwn own (out_rings r.items)) }
    ensures capacity { IfOk result (λ r. All (HasCapacity capacity) r.items) }
    ensures lists { IfOk result (λ r. received_table columns.new.items
        ≡ push_each (received_table columns.old.items) (map out_sent r.items)) }
    ensures first { IfOk result (λ r.
        HasRowFirst own (G.first opener.now own) (map out_sent r.items)) }
    ensures free { IfOk result (λ r. ((to : Worker) → G.first opener.now own to ≡ None)
        → All (KnowsFree capacity) r.items) }
    ensures sent { IfOk result (λ r. ((to : Worker) → G.first opener.now own to ≡ None)
        → All NothingSent r.items) }
    ensures received { IfOk result (λ r. ((to : Worker) → G.first opener.now own to ≡ None)
        → NothingReceivedAtAll columns.old.items
        → NothingReceivedAtAll columns.new.items) }
{
    let count = columns.len();
    let mut row = Vec::with_capacity(alloc, count)?;
    for k in 0..count {
        let (producer, consumer) = ends(alloc, own, k, capacity, opener)?;
        push_at(columns, k, consumer)?;
        row.push_reserved(producer);
    }
    Ok(row)
}
