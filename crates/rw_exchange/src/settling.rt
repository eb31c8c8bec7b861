//! What is left in the rings at the end.
ghost use Rattle.std.specs.Prelude.{◌≡◌, ◌≢◌, ◌<◌, [], ◌++◌, length, map, slice_index_or, All, IfOk, OnOk, vec_len};
ghost use Rattle.rw_vt.specs.Words.{Worker};
ghost use Rattle.rtrb.specs.Fifo.{EachAllowed};
ghost use Rattle.rtrb.specs.Ring.{sent, received, IsPair, SameConsumer};
ghost use Rattle.rw_exchange.specs.Ports.{entry, IsOpening, outs_of, intos_of, IsLeftOf, IsLeftOfRow, IsLeftAllowed, IsRowAllowed, NoneToItself};
ghost use Rattle.rw_exchange.specs.Rings.{cell, out_ring, in_ring, out_rings, out_sent, in_received, out_table, in_table, sent_table, received_table, SameBut, HasPlace, IsAtPlace};

use crate::{Left, Port};
use rtrb::{Consumer, Producer, Protocol};
use rw_vt::NoMemory;
use std::alloc::Global;

// What is left in a ring, from both its ends.
fn drain<T: Drop, P: Protocol<T>>(
    alloc: Global,
    producer: &mut Producer<T, Global, P>,
    consumer: &mut Consumer<T, Global, P>,
) -> Result<Vec<T>, NoMemory>
    requires { IsPair producer.old consumer.old }
    ensures same { SameConsumer consumer.old consumer.new }
    ensures fifo { IfOk result (λ v. received consumer.old ++ v.items ≡ sent producer.old) }
    ensures allowed { IfOk result (λ v. EachAllowed P.allows (received consumer.old) v.items) }
{
    let count = consumer.slots_beside(producer);
    let mut left = Vec::with_capacity(alloc, count)?;
    for _ in 0..count {
        left.push_reserved(consumer.pop_known());
    }
    Ok(left)
}

// What is left in a ring; nothing where there is no ring.
fn rest<T: Drop, P: Protocol<T>>(
    alloc: Global,
    out: Option<Producer<T, Global, P>>,
    end: &mut Option<Consumer<T, Global, P>>,
) -> Result<Vec<T>, NoMemory>
    requires { out_ring out ≡ in_ring end.old }
    ensures ring { in_ring end.new ≡ in_ring end.old }
    ensures fifo { IfOk result (λ v. in_received end.old ++ v.items ≡ out_sent out) }
    ensures allowed { IfOk result (λ v. EachAllowed P.allows (in_received end.old) v.items) }
{
    match (out, end) {
        (Some(mut producer), Some(consumer)) => drain(alloc, &mut producer, consumer),
        (_, _) => Ok(Vec::new(alloc)),
    }
}

// What is left in a ring from worker `i` to worker `j`, whose other end is at place `i` of column `j`.
fn rest_at<T: Drop, P: Protocol<T>>(
    alloc: Global,
    out: Option<Producer<T, Global, P>>,
    columns: &mut Vec<Vec<Option<Consumer<T, Global, P>>>>,
    j: usize,
    i: usize,
) -> Result<Vec<T>, NoMemory>
    requires column { j < vec_len columns.old }
    requires place { i < length (slice_index_or (in_table columns.old.items) j []) }
    requires paired { out_ring out ≡ cell (in_table columns.old.items) j i }
    ensures length { vec_len columns.new ≡ vec_len columns.old }
    ensures rings { in_table columns.new.items ≡ in_table columns.old.items }
    ensures fifo { IfOk result (λ v.
        entry (received_table columns.old.items) j i ++ v.items ≡ out_sent out) }
    ensures allowed { IfOk result (λ v.
        EachAllowed P.allows (entry (received_table columns.old.items) j i) v.items) }
    ensures rows { SameBut j (received_table columns.old.items) (received_table columns.new.items) }
    ensures places { SameBut i
        (slice_index_or (received_table columns.old.items) j [])
        (slice_index_or (received_table columns.new.items) j []) }
{
    let column = &mut columns[j];
    rest(alloc, out, &mut column[i])
}

// What is left in the rings of one sender.
fn gather<T: Drop, P: Protocol<T>>(
    alloc: Global,
    row: Vec<Option<Producer<T, Global, P>>>,
    columns: &mut Vec<Vec<Option<Consumer<T, Global, P>>>>,
    own: usize,
) -> Result<Vec<Vec<T>>, NoMemory>
    requires length { vec_len row ≡ vec_len columns.old }
    requires deep { HasPlace (vec_len row) own (in_table columns.old.items) }
    requires paired { IsAtPlace (vec_len row) own
        (out_rings row.items) (in_table columns.old.items) }
    ensures rings { OnOk result (in_table columns.new.items ≡ in_table columns.old.items) }
    ensures length { IfOk result (λ l. vec_len l ≡ vec_len row) }
    ensures fifo { IfOk result (λ l. IsLeftOfRow (vec_len row) own
        (received_table columns.old.items)
        (map (λ v. v.items) l.items)
        (map out_sent row.items)) }
    ensures allowed { IfOk result (λ l. IsRowAllowed P.allows (vec_len row) own
        (received_table columns.old.items)
        (map (λ v. v.items) l.items)) }
    ensures others { OnOk result ((j : Worker) → SameBut own
        (slice_index_or (received_table columns.old.items) j [])
        (slice_index_or (received_table columns.new.items) j [])) }
{
    let mut lists = Vec::with_capacity(alloc, row.len())?;
    for out in row {
        let list = rest_at(alloc, out, columns, lists.len(), own)?;
        lists.push_reserved(list);
    }
    Ok(lists)
}

// The ends of all ports.
fn parts<T: Drop, P: Protocol<T>>(
    alloc: Global,
    ports: Vec<Port<T, P>>,
) -> Result<
    (
        Vec<Vec<Option<Producer<T, Global, P>>>>,
        Vec<Vec<Option<Consumer<T, Global, P>>>>,
    ),
    NoMemory,
>
    ensures out { IfOk result (λ r. out_table r.0.items ≡ outs_of ports.items) }
    ensures into { IfOk result (λ r. in_table r.1.items ≡ intos_of ports.items) }
    ensures sent { IfOk result (λ r. sent_table r.0.items ≡ map (λ p. p.sent) ports.items) }
    ensures received { IfOk result (λ r.
        received_table r.1.items ≡ map (λ p. p.received) ports.items) }
{
    let mut rows = Vec::with_capacity(alloc, ports.len())?;
    let mut columns = Vec::with_capacity(alloc, ports.len())?;
    for port in ports {
        let (outs, ins) = port.into_ends();
        rows.push_reserved(outs);
        columns.push_reserved(ins);
    }
    Ok((rows, columns))
}

/// Ends an opening, given all its ports in order: the letters that are still in the rings.
///
/// For each ordered pair of workers, what was received followed by what is left is what was sent, letter by letter and
/// in order, and each letter that is left is one that the protocol allows behind those before it.
///
/// # Errors
///
/// [`NoMemory`] where memory was refused; the letters that were left are then gone.
pub fn settle<T: Drop, P: Protocol<T>>(
    alloc: Global,
    ports: Vec<Port<T, P>>,
) -> Result<Left<T>, NoMemory>
    requires opening { IsOpening ports.items }
    ensures count { IfOk result (λ left. length left ≡ vec_len ports) }
    ensures wide { IfOk result (λ left. All (λ row. length row ≡ vec_len ports) left) }
    ensures fifo { IfOk result (λ left. IsLeftOf (vec_len ports) ports.items left) }
    ensures allowed { IfOk result (λ left.
        IsLeftAllowed P.allows (vec_len ports) ports.items left) }
    ensures own { IfOk result (λ left. NoneToItself (vec_len ports) left) }
{
    let mut lists = Vec::with_capacity(alloc, ports.len())?;
    let (rows, mut columns) = parts(alloc, ports)?;
    for row in rows {
        let list = gather(alloc, row, &mut columns, lists.len())?;
        lists.push_reserved(list);
    }
    Ok(Left::of(lists))
}
