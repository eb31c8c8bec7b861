ghost use Rattle.std.specs.Prelude.{◌≡◌, ◌<◌, ◌^◌, List, [], OnOk, OnErr, MatchOption, IsSome, Some, false};
ghost use Rattle.std.specs.BTreeMap.{get, IsOrdered, Updates};
ghost use Rattle.rw_vt.specs.Order.{event_cmp, insert_in_order, copies, has, without, IsAscending, IsFirst};
ghost use Rattle.rw_vt.specs.declared.event.Event.{Event};
ghost use Rattle.rw_bag.specs.Bags.{copies_of, AreCopyCounts};

use rw_vt::{Event, Model as VtModel};
use std::alloc::{AllocError, Global};
use std::collections::BTreeMap;
use std::marker::Model;

/// A bag of events that keeps each once, with the number of its copies. Contracts see it as its events in order.
///
/// A call costs the logarithm of what is held.
#[derive(Drop)]
pub struct CountedBag<M: VtModel> {
    counts: BTreeMap<Event<M::Body>, u64>,
}

impl<M: VtModel> Model for CountedBag<M> {
    ghost Value = { List (Event M.Body) };

    ghost view = { λ x. copies_of x.counts.entries };

    ghost invariant = { λ x. IsOrdered (event_cmp M.Body.cmp) x.counts
        × AreCopyCounts (event_cmp M.Body.cmp) x.counts.entries };
}

/// How many copies of one event can be counted: so many that a number of all copies in a bag fits 64 bits.
const MOST_COPIES: u64 = (1 << 62) - 1;

impl<M: VtModel> CountedBag<M> {
    /// No event.
    pub fn new(alloc: Global) -> CountedBag<M>
        ensures { result ≡ [] }
    {
        CountedBag {
            counts: BTreeMap::new(alloc),
        }
    }

    /// Puts one copy of the event in: one search where there was none, else two. Copies past [`MOST_COPIES`] are
    /// refused as memory is.
    pub fn put(&mut self, event: Event<M::Body>) -> Result<(), AllocError>
        ensures ok { OnOk result
            (self.new ≡ insert_in_order (event_cmp M.Body.cmp) event self.old) }
        ensures err { OnErr result (self.new ≡ self.old) }
    {
        let Some(count) = self.counts.insert(event, 1)? else {
            return Ok(());
        };
        if count >= MOST_COPIES {
            Self::set(&mut self.counts, &event, count);
            return Err(AllocError);
        }
        Self::set(&mut self.counts, &event, count + 1);
        Ok(())
    }

    /// Sets the count of an event that has one. Takes no memory.
    fn set(counts: &mut BTreeMap<Event<M::Body>, u64>, event: &Event<M::Body>, count: u64)
        requires { IsSome (get (event_cmp M.Body.cmp) counts.old event.now) }
        ensures set { Updates (event_cmp M.Body.cmp) counts.old counts.new event.now (Some count) }
        ensures ordered { IsOrdered (event_cmp M.Body.cmp) counts.new }
    {
        if let Some(number) = counts.get_mut(event) {
            *number = count;
        }
    }

    /// Takes one copy of the event out, and answers whether there was one.
    pub fn take(&mut self, event: Event<M::Body>) -> bool
        ensures there { result ≡ has (event_cmp M.Body.cmp) event self.old }
        ensures rest { self.new ≡ without (event_cmp M.Body.cmp) event self.old }
        ensures kept { result ≡ false → self.new ≡ self.old }
    {
        let Some(count) = self.counts.get_mut(&event) else {
            return false;
        };
        if *count > 1 {
            *count -= 1;
            return true;
        }
        let _last = self.counts.remove(&event);
        true
    }

    /// How many copies of the event are there.
    pub fn copies(&self, event: &Event<M::Body>) -> u64
        ensures copies { result ≡ copies (event_cmp M.Body.cmp) event.now self.now }
        ensures small { result < 2 ^ 62 }
    {
        self.counts.get(event).copied().unwrap_or(0)
    }

    /// The least event.
    pub fn first(&self) -> Option<&Event<M::Body>>
        ensures first { MatchOption result (self.now ≡ []) (λ e. IsFirst self.now e.now) }
        ensures order { IsAscending (event_cmp M.Body.cmp) self.now }
    {
        let (event, _count) = self.counts.first_key_value()?;
        Some(event)
    }
}
