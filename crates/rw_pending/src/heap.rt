ghost use Rattle.std.specs.Prelude.{◌≡◌, ◌≤◌, ◌++◌, [], ◌∷◌, All, IfNone, IfSome, IsPermutation, OnErr, OnOk};
ghost use Rattle.rw_pending.specs.Later.{IsLeastTime};

use crate::later::Store;
use crate::times::{is_time, or_never};
use rw_vt::Event;
use std::alloc::{AllocError, Global};
use std::cmp::Reverse;
use std::collections::BinaryHeap;
use std::marker::Model;

/// Events in a heap with the least on top: those that have no slot in a wheel. Contracts see them as a list, in no particular
/// order.
#[derive(Drop)]
pub struct Heap<B: Ord + Copy> {
    events: BinaryHeap<Reverse<Event<B>>>,
}

impl<B: Ord + Copy> Model for Heap<B> {
    ghost use Rattle.std.specs.Prelude.{List, map};
    ghost use Rattle.std.specs.BinaryHeap.{heap_items};
    ghost use Rattle.rw_vt.specs.declared.event.Event.{Event};
    ghost use Rattle.rw_pending.specs.Pending.{IsLeastOnTop};

    ghost Value = { List (Event B) };

    ghost view = { λ h. map (λ r. r.0) (heap_items h.events) };

    ghost invariant = { λ h. IsLeastOnTop B.cmp (heap_items h.events) };
}

impl<B: Ord + Copy> Heap<B> {
    /// No events.
    pub fn new(alloc: Global) -> Self
        ensures { result ≡ [] }
    {
        Heap {
            events: BinaryHeap::new(alloc),
        }
    }

    /// The least time of an event. `None` only where there is none.
    fn least_time(&self) -> Option<u64>
        ensures { IsLeastTime self.now result }
    {
        match self.events.peek() {
            Some(Reverse(event)) => Some(event.time),
            None => None,
        }
    }

    /// Takes a least event. `None` only where there is none.
    fn pop(&mut self) -> Option<Event<B>>
        ensures taken { IfSome result (λ e. IsPermutation self.old (e ∷ self.new)) }
        ensures least { IfSome result (λ e. All (λ f. e.time ≤ f.time) self.old) }
        ensures none { IfNone result (self.old ≡ []) }
    {
        self.events.pop().map(|Reverse(event)| event)
    }
}

impl<B: Ord + Copy> Store<B> for Heap<B> {
    ghost events = { λ h. h };

    fn least(&self) -> u64 {
        or_never(self.least_time())
    }

    fn is_empty(&self) -> bool {
        self.events.is_empty()
    }

    #[inline(never)]
    fn put(&mut self, event: &Event<B>) -> Result<(), AllocError>
        ensures added { OnOk result (IsPermutation (self.old ++ event.now ∷ []) self.new) }
        ensures unchanged { OnErr result (self.new ≡ self.old) }
    {
        self.events.push(Reverse(*event))?;
        Ok(())
    }

    fn take_one(&mut self, time: u64, next: &mut Option<Event<B>>) -> Result<(), AllocError> {
        if is_time(self.least_time(), time) {
            *next = self.pop();
        } else {
            *next = None;
        }
        Ok(())
    }

    fn take(&mut self, time: u64, taken: &mut Vec<Event<B>>) -> Result<(), AllocError> {
        while is_time(self.least_time(), time) {
            if let Some(event) = self.pop() {
                taken.push(event)?;
            }
        }
        Ok(())
    }
}
