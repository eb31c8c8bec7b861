//! A worker's port.
ghost use Rattle.std.specs.Prelude.{◌≡◌, ◌≢◌, ℕ, ◌+◌, ◌<◌, ◌≤◌, length, map, slice_index_or, All, IsSome, IsOk, OnOk, OnErr, IfErr, IfSome, IfNone};
ghost use Rattle.rw_exchange.specs.Rings.{out_rings, in_rings, out_sent, out_free, in_received, HasCapacity, HasEnds};
ghost use Rattle.rw_exchange.specs.Ports.{IsOther, SamePort, sent_to, free_to, received_from, after_sending, after_receiving};

use crate::lane;
use rtrb::{AnyItems, Consumer, Producer, Protocol};
use std::alloc::Global;
use std::marker::Model;

/// One worker's ends of the rings between it and each other worker. `T` is the type of the letters, and `P` the protocol
/// of the rings.
///
/// A contract sees the worker, the capacity of the rings, which rings they are, all letters that were sent to and
/// received from each worker, and how many slots of the ring to each worker the port knows to be free. A port may move
/// to a thread of its own.
#[derive(Drop)]
pub struct Port<T, P: Protocol<T> = AnyItems> {
    worker: usize,
    capacity: usize,
    outs: Vec<Option<Producer<T, Global, P>>>,
    ins: Vec<Option<Consumer<T, Global, P>>>,
}

impl<T, P: Protocol<T>> Model for Port<T, P> {
    ghost use Rattle.std.specs.Prelude.{◌≡◌, length, map, All};
    ghost use Rattle.rw_exchange.specs.Ports.{PortState};
    ghost use Rattle.rw_exchange.specs.Rings.{out_ring, in_ring, out_sent, out_free, in_received, HasCapacity, HasEnds};

    ghost Value = { PortState T };

    ghost view = { λ p. record {
      worker = p.worker;
      capacity = p.capacity;
      out = map out_ring p.outs.items;
      into = map in_ring p.ins.items;
      sent = map out_sent p.outs.items;
      received = map in_received p.ins.items;
      free = map out_free p.outs.items;
    } };

    ghost invariant = { λ p. (length p.ins.items ≡ length p.outs.items)
        × HasEnds p.worker p.outs.items p.ins.items
        × All (HasCapacity p.capacity) p.outs.items };
}

impl<T: Drop, P: Protocol<T>> Port<T, P> {
    // The ends of one worker.
    pub(crate) fn of(
        worker: usize,
        capacity: usize,
        outs: Vec<Option<Producer<T, Global, P>>>,
        ins: Vec<Option<Consumer<T, Global, P>>>,
    ) -> Port<T, P>
        requires same { length ins.items ≡ length outs.items }
        requires others { HasEnds worker outs.items ins.items }
        requires capacity { All (HasCapacity capacity) outs.items }
        ensures numbers { (result.worker ≡ worker) × (result.capacity ≡ capacity) }
        ensures rings { (result.out ≡ out_rings outs.items) × (result.into ≡ in_rings ins.items) }
        ensures sent { result.sent ≡ map out_sent outs.items }
        ensures received { result.received ≡ map in_received ins.items }
        ensures free { result.free ≡ map out_free outs.items }
    {
        Port {
            worker,
            capacity,
            outs,
            ins,
        }
    }

    // The ends, by worker.
    pub(crate) fn into_ends(
        self,
    ) -> (
        Vec<Option<Producer<T, Global, P>>>,
        Vec<Option<Consumer<T, Global, P>>>,
    )
        ensures out { out_rings result.0.items ≡ self.out }
        ensures into { in_rings result.1.items ≡ self.into }
        ensures sent { map out_sent result.0.items ≡ self.sent }
        ensures received { map in_received result.1.items ≡ self.received }
    {
        let Port {
            worker: _,
            capacity: _,
            outs,
            ins,
        } = self;
        (outs, ins)
    }

    /// The worker whose port it is, counted from 0. Takes no memory.
    pub fn worker(&self) -> usize
        ensures worker { result ≡ self.now.worker }
    {
        self.worker
    }

    /// How many workers there are. Takes no memory.
    pub fn workers(&self) -> usize
        ensures rings { (result ≡ length self.now.out) × (result ≡ length self.now.into) }
        ensures lists { (result ≡ length self.now.sent) × (result ≡ length self.now.received) }
    {
        self.outs.len()
    }

    /// Sends a letter to another worker, one that the protocol allows behind all that were sent to that worker before.
    ///
    /// A letter takes one of the slots that are known to be free, and the port may learn of more. It succeeds while
    /// fewer letters were sent to that worker in all than the ring has slots. That a slot which the receiver frees is
    /// seen is tested, not proved. Takes no memory and never waits.
    ///
    /// # Errors
    ///
    /// The letter itself where the port knows of no free slot on the ring to that worker; the port is then as it was.
    pub fn send(&mut self, to: usize, item: T) -> Result<(), T>
        requires other { IsOther self.old to }
        requires allowed { P.allows (sent_to self.old to) item }
        ensures ok { OnOk result
            (self.new ≡ after_sending self.old to item (free_to self.new to)) }
        ensures free { OnOk result (free_to self.old to ≤ free_to self.new to + 1) }
        ensures err { IfErr result (λ back. (back ≡ item) × (self.new ≡ self.old)) }
        ensures full { OnErr result (free_to self.new to ≡ 0) }
        ensures known { 0 < free_to self.old to → IsOk result }
        ensures succeeds { length (sent_to self.old to) < self.old.capacity → IsOk result }
        ensures same { SamePort self.old self.new }
    {
        lane::push(&mut self.outs[to], item)
    }

    /// The next letter from another worker, in the order of sending, or `None` where none was seen. It is one that the
    /// protocol allows behind all that were received from that worker before.
    ///
    /// That a letter that was sent is seen is tested, not proved. Takes no memory and never waits.
    pub fn receive(&mut self, from: usize) -> Option<T>
        requires other { IsOther self.old from }
        ensures some { IfSome result (λ item. self.new ≡ after_receiving self.old from item) }
        ensures allowed { IfSome result (λ item. P.allows (received_from self.old from) item) }
        ensures none { IfNone result (self.new ≡ self.old) }
        ensures same { SamePort self.old self.new }
    {
        lane::pop(&mut self.ins[from])
    }

    /// Whether the port of some other worker was dropped: a worker that waits for letters need not wait for one that is
    /// gone.
    ///
    /// No clause speaks of the answer. Takes no memory and never waits; looks at each ring once.
    pub fn is_deserted(&mut self) -> bool
        ensures same { self.new ≡ self.old }
    {
        lane::is_any_abandoned(&mut self.ins)
    }
}
