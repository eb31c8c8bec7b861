ghost use Rattle.std.specs.Prelude.{◌≡◌, true, ◌≢◌, ◌+◌, ◌<◌, ◌≤◌, ◌^◌, ◌++◌, ◌∷◌, [], false, None, Some, OnOk, IfOk, unwrap_or};
ghost use Rattle.rw_blocks.specs.State.{row_at};
ghost use Rattle.rw_blocks.specs.Loose.{IsWellFormedQueue};
ghost use Rattle.rw_ripq.specs.Limits.{exhaustion};
ghost use Rattle.rw_ripq.specs.Trail.{IsRewindable, Leads, rewind_of};
ghost use Rattle.rw_ripq.specs.Weight.{IsShort};
ghost use Rattle.rw_ripq.specs.Work.{no_tally};
ghost use Rattle.rw_photo.specs.Cache.{is_stored, waiting_more, start_in, waiting_for, with_waiting};
ghost use Rattle.rw_photo.specs.Counts.{AreCounts, no_counts, one_coalesced, one_miss, with_late, sum_of, minus, plus, difference_of};
ghost use Rattle.rw_photo.specs.Deeds.{once_made, stored_if};
ghost use Rattle.rw_photo.specs.Events.{event_from};
ghost use Rattle.rw_photo.specs.Storing.{hit, purge_if_stored, store};

use crate::awaited::Awaited;
use crate::body::Body;
use crate::counters::Counters;
use rw_ripq::{Change, Marks, Place, Policy, Queue, Shape, Tally, Trail};
use rw_vt::{Event, NoMemory, Refusal};
use std::alloc::Global;
use std::marker::Model;

/// What one cache keeps: its queue on flash, which objects are on their way to it and how many requests wait for
/// each, how many events it has sent, and what it has counted.
///
/// Contracts see it as `Cache` of `specs/Cache.antt`.
pub struct CacheState {
    queue: Queue,
    awaited: Awaited,
    sends: u64,
    counters: Counters,
}

// By hand, so that it is proved here, and not in each crate above whose values have one.
impl Drop for CacheState {
    fn drop(self) {
        let CacheState {
            queue: _,
            awaited: _,
            sends: _,
            counters: _,
        } = self;
    }
}

impl Model for CacheState {
    ghost use Rattle.rw_photo.specs.Cache.{Cache};

    ghost Value = { Cache };

    ghost view = { λ s. record {
      queue = s.queue;
      awaited = s.awaited;
      sends = s.sends;
      counters = s.counters;
    } };
}

impl CacheState {
    /// A cache to which nothing has happened, with a queue of this shape.
    pub(crate) fn new(alloc: Global, shape: Shape) -> Result<CacheState, NoMemory>
        ensures { IfOk result (λ s. s ≡ start_in shape) }
    {
        Ok(CacheState {
            queue: Queue::new(alloc, shape)?,
            awaited: Awaited::new(alloc),
            sends: 0,
            counters: Counters::default(),
        })
    }

    /// What the cache has counted. Takes no memory.
    pub fn counters(&self) -> Counters
        ensures { result ≡ self.now.counters }
    {
        self.counters
    }

    /// How many events the cache has sent, modulo 2^64.
    pub(crate) fn sends(&self) -> u64
        ensures { result ≡ self.now.sends }
    {
        self.sends
    }

    /// The serial of the queue's next fresh block.
    pub(crate) fn next_serial(&self) -> u64
        ensures { result ≡ self.now.queue.next }
    {
        self.queue.next_serial()
    }

    /// Whether an object is stored.
    pub(crate) fn is_stored(&self, object: u64) -> bool
        ensures { result ≡ is_stored self.now object }
    {
        rw_ripq::resident(&self.queue, object)
    }

    /// Where an object lies, if it is stored.
    pub(crate) fn row(&self, object: u64) -> Option<Place>
        ensures { result ≡ row_at self.now.queue object }
    {
        self.queue.row(object)
    }

    /// How many requests wait for an object, where it is awaited.
    pub(crate) fn waiting(&self, object: u64) -> Option<u64>
        ensures { result ≡ waiting_for self.now object }
    {
        self.awaited.get(object)
    }

    /// One request more waits for an object. Hands back how many waited before, where it was awaited.
    pub(crate) fn join(&mut self, object: u64) -> Result<Option<u64>, NoMemory>
        ensures before { IfOk result (λ before. before ≡ waiting_for self.old object) }
        ensures joined { OnOk result (self.new ≡ record self.old {
          awaited = with_waiting self.old.awaited object
              (Some (waiting_more (waiting_for self.old object)));
        }) }
    {
        self.awaited.join(object)
    }

    /// An object is awaited no more. Hands back how many requests waited for it, 0 where it was not awaited.
    pub(crate) fn answer(&mut self, object: u64) -> u64
        ensures answered { result ≡ unwrap_or (waiting_for self.old object) 0 }
        ensures ended { self.new
            ≡ record self.old { awaited = with_waiting self.old.awaited object None } }
    {
        self.awaited.end(object).unwrap_or(0)
    }

    /// Sets how many requests wait for an object; `None`: it is not awaited.
    pub(crate) fn set_waiting(&mut self, object: u64, waiting: Option<u64>) -> Result<(), NoMemory>
        ensures { OnOk result (self.new
            ≡ record self.old { awaited = with_waiting self.old.awaited object waiting }) }
    {
        self.awaited.set(object, waiting)
    }

    /// A hit, by a request for `size` bytes, of an object that is stored and whose row is `row`: it is promoted, and
    /// counted. `trail` has no mark yet.
    #[inline(always)]
    pub(crate) fn hit<M: Marks>(
        &mut self,
        policy: Policy,
        object: u64,
        size: u64,
        row: Place,
        trail: &mut M,
    ) -> Result<(), NoMemory>
        requires well_formed { IsWellFormedQueue self.old.queue }
        requires stores { policy ≢ Policy.Off }
        requires counts { AreCounts self.old.counters }
        requires row { row_at self.old.queue object ≡ Some row }
        requires fresh { self.old.queue.next < exhaustion }
        requires none { M.list trail.old ≡ [] }
        ensures state { OnOk result
            (self.new ≡ once_made self.old (hit policy self.old.queue object size)) }
        ensures leads { OnOk result (M.keeps ≡ true
            → Leads (M.list trail.new) self.old.queue self.new.queue) }
        ensures short { OnOk result (M.keeps ≡ true
            → IsShort (M.list trail.new) self.old.queue self.new.queue) }
    {
        let promoted = rw_ripq::promote_with(&mut self.queue, trail, policy, object, row);
        let moved = match promoted {
            Ok(moved) => moved,
            Err(Refusal::Memory) => return Err(NoMemory),
            Err(Refusal::Exhausted) => unreachable!(),
        };
        self.counters.hit(moved, size);
        Ok(())
    }

    /// Stores an object of `size` bytes that is not stored, where it fits a block and the policy is not `Off`, and counts
    /// that. `change` has no mark and no count yet.
    #[tactic(auto, using(crate::proofs::Stores::store_laws))]
    pub(crate) fn store<M: Marks>(
        &mut self,
        policy: Policy,
        object: u64,
        size: u64,
        change: &mut Change<Tally, M>,
    ) -> Result<(), NoMemory>
        requires well_formed { IsWellFormedQueue self.old.queue }
        requires counts { AreCounts self.old.counters }
        requires new { is_stored self.old object ≡ false }
        requires some { 1 ≤ size }
        requires fresh { self.old.queue.next < exhaustion }
        requires none { M.list change.old.trail ≡ [] }
        requires uncounted { change.old.counts ≡ no_tally }
        ensures state { OnOk result
            (self.new ≡ once_made self.old (store policy self.old.queue object size)) }
        ensures leads { OnOk result (M.keeps ≡ true
            → Leads (M.list change.new.trail) self.old.queue self.new.queue) }
        ensures short { OnOk result (M.keeps ≡ true
            → IsShort (M.list change.new.trail) self.old.queue self.new.queue) }
    {
        if policy == Policy::Off {
            return Ok(());
        }
        if size > self.queue.block_size() {
            self.counters.bypass();
            return Ok(());
        }
        let inserted = rw_ripq::insert_with(&mut self.queue, change, policy, object, size, 1);
        match inserted {
            Ok(()) => {}
            Err(Refusal::Memory) => return Err(NoMemory),
            Err(Refusal::Exhausted) => unreachable!(),
        }
        self.counters.insert(change.counts, size);
        Ok(())
    }

    /// [`CacheState::store`] of an object that may be stored already: it then stays as it is.
    pub(crate) fn store_lacking<M: Marks>(
        &mut self,
        policy: Policy,
        object: u64,
        size: u64,
        change: &mut Change<Tally, M>,
    ) -> Result<(), NoMemory>
        requires well_formed { IsWellFormedQueue self.old.queue }
        requires counts { AreCounts self.old.counters }
        requires some { 1 ≤ size }
        requires fresh { self.old.queue.next < exhaustion }
        requires none { M.list change.old.trail ≡ [] }
        requires uncounted { change.old.counts ≡ no_tally }
        ensures state { OnOk result (self.new ≡ once_made self.old
            (stored_if policy self.old.queue object size (is_stored self.old object))) }
        ensures leads { OnOk result (M.keeps ≡ true
            → Leads (M.list change.new.trail) self.old.queue self.new.queue) }
        ensures short { OnOk result (M.keeps ≡ true
            → IsShort (M.list change.new.trail) self.old.queue self.new.queue) }
    {
        if self.is_stored(object) {
            return Ok(());
        }
        self.store(policy, object, size, change)?;
        Ok(())
    }

    /// Lets an object go, where it is stored, and counts the purge. With `reclaim` the sealed block that it leaves without
    /// objects is taken out too. `trail` has no mark yet.
    pub(crate) fn purge<M: Marks>(
        &mut self,
        object: u64,
        reclaim: bool,
        trail: &mut M,
    ) -> Result<(), NoMemory>
        requires well_formed { IsWellFormedQueue self.old.queue }
        requires counts { AreCounts self.old.counters }
        requires none { M.list trail.old ≡ [] }
        ensures state { OnOk result
            (self.new ≡ once_made self.old (purge_if_stored reclaim self.old.queue object)) }
        ensures leads { OnOk result (M.keeps ≡ true
            → Leads (M.list trail.new) self.old.queue self.new.queue) }
        ensures short { OnOk result (M.keeps ≡ true
            → IsShort (M.list trail.new) self.old.queue self.new.queue) }
    {
        if !self.is_stored(object) {
            self.counters.purge(false);
            return Ok(());
        }
        rw_ripq::purge_with(&mut self.queue, trail, object, reclaim)?;
        self.counters.purge(true);
        Ok(())
    }

    /// Takes back what happened to the queue, by its trail.
    pub(crate) fn rewind(&mut self, trail: Trail) -> Result<(), NoMemory>
        requires { IsRewindable trail self.old.queue }
        ensures { OnOk result (self.new
            ≡ record self.old { queue = rewind_of trail self.old.queue }) }
    {
        rw_ripq::rewind(&mut self.queue, trail)
    }

    /// Counts a miss by a request for `size` bytes.
    pub(crate) fn count_miss(&mut self, size: u64)
        requires { AreCounts self.old.counters }
        ensures { self.new
            ≡ record self.old { counters = sum_of self.old.counters (one_miss size no_counts) } }
    {
        self.counters.miss(size);
    }

    /// Counts a miss by a request for `size` bytes, whose object is on its way already.
    pub(crate) fn count_coalesced(&mut self, size: u64)
        requires { AreCounts self.old.counters }
        ensures { self.new
            ≡ record self.old { counters = sum_of self.old.counters (one_coalesced size) } }
    {
        self.counters.coalesced(size);
    }

    /// Counts the requests that a fill answers.
    pub(crate) fn count_late(&mut self, late: u64)
        requires { AreCounts self.old.counters }
        ensures { self.new
            ≡ record self.old { counters = sum_of self.old.counters (with_late late no_counts) } }
    {
        self.counters.late(late);
    }

    /// Takes off what an event counted.
    pub(crate) fn take_off(&mut self, counted: &Counters)
        ensures { self.new
            ≡ record self.old { counters = difference_of self.old.counters counted.now } }
    {
        self.counters.take_off(counted);
    }

    /// Sends an event from process `process`: it is appended to `out`, with the number of events that the process has
    /// sent before, and counted.
    #[inline(always)]
    pub(crate) fn send(
        &mut self,
        process: u32,
        time: u64,
        to: u32,
        body: Body,
        out: &mut Vec<Event<Body>>,
    ) -> Result<(), NoMemory>
        requires { process + 1 < 2 ^ 32 }
        ensures sent { OnOk result
            (out.new.items ≡ out.old.items ++ event_from process self.old time to body ∷ []) }
        ensures count { OnOk result (self.new ≡ record self.old { sends = plus self.old.sends 1 }) }
    {
        out.push(Event {
            time,
            source: process + 1,
            number: self.sends,
            to,
            body,
        })?;
        self.count_sends(1);
        Ok(())
    }

    /// Counts `sent` events more as sent.
    pub(crate) fn count_sends(&mut self, sent: u64)
        ensures { self.new ≡ record self.old { sends = plus self.old.sends sent } }
    {
        self.sends = self.sends.wrapping_add(sent);
    }

    /// Undoes [`CacheState::count_sends`].
    pub(crate) fn take_sends_back(&mut self, sent: u64)
        ensures { self.new ≡ record self.old { sends = minus self.old.sends sent } }
    {
        self.sends = self.sends.wrapping_sub(sent);
    }
}
