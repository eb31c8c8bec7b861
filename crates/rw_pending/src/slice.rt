ghost use Rattle.std.specs.Prelude.{◌≡◌, ◌++◌, [], ◌∷◌, All, IfNone, IfSome, IsPermutation, List, OnErr, OnOk, option_copied, option_to_list, slice_get};
ghost use Rattle.rw_vt.specs.Order.{event_cmp, AtMost};
ghost use Rattle.rw_vt.specs.declared.event.Event.{Event};

use crate::groups::Groups;
use rw_vt::Event;
use std::alloc::{AllocError, Global};
use std::marker::Model;
use std::mem;

/// Events of one time, the least first. Contracts see those that are left, as a list in order.
pub struct Slice<B: Ord + Copy> {
    events: Vec<Event<B>>,
    /// How many of them are taken already.
    taken: usize,
    /// Brings events near their order before they are sorted.
    groups: Groups,
}

// By hand, so that it is proved here, and not in each function of a crate above that has one.
impl<B: Ord + Copy> Drop for Slice<B> {
    fn drop(self) {
        let Slice {
            events: _,
            taken: _,
            groups: _,
        } = self;
    }
}

impl<B: Ord + Copy> Model for Slice<B> {
    ghost use Rattle.std.specs.Prelude.{◌≤◌, List, drop, length};
    ghost use Rattle.std.specs.List.Sorted.{IsSorted};
    ghost use Rattle.rw_vt.specs.declared.event.Event.{Event};
    ghost use Rattle.rw_vt.specs.Order.{event_cmp};

    ghost Value = { List (Event B) };

    ghost view = { λ s. drop s.taken s.events.items };

    ghost invariant = { λ s. (s.taken ≤ length s.events.items)
        × IsSorted (event_cmp B.cmp) (drop s.taken s.events.items) };
}

impl<B: Ord + Copy> Slice<B> {
    /// No events.
    pub fn new(alloc: Global) -> Self
        ensures { result ≡ [] }
    {
        Slice {
            events: Vec::new(alloc),
            taken: 0,
            groups: Groups::new(alloc),
        }
    }

    /// The first event, which is a least one. `None` only where none is left.
    #[inline]
    pub fn first(&self) -> Option<&Event<B>>
        ensures first { option_copied result ≡ slice_get self.now 0 }
        ensures least { IfSome result (λ e. All (AtMost (event_cmp B.cmp) e.now) self.now) }
    {
        self.events.get(self.taken)
    }

    /// Takes the first event into `next`. `None` only where none is left.
    #[inline]
    pub fn pop(&mut self, next: &mut Option<Event<B>>)
        ensures taken { self.old ≡ option_to_list next.new ++ self.new }
        ensures none { IfNone next.new (self.old ≡ []) }
    {
        let Some(event) = self.events.get(self.taken) else {
            *next = None;
            return;
        };
        *next = Some(*event);
        self.taken += 1;
    }

    /// Moves all events to the end of `rest`. Where memory is refused, some events are lost.
    pub fn move_to(&mut self, rest: &mut Vec<Event<B>>) -> Result<(), AllocError>
        ensures none { OnOk result (self.new ≡ []) }
        ensures moved { OnOk result (rest.new.items ≡ rest.old.items ++ self.old) }
        ensures left { (gone : List (Event B)) × (self.old ≡ gone ++ self.new) }
    {
        rest.extend_from_slice(&self.events[self.taken..])?;
        self.taken = self.events.len();
        Ok(())
    }

    /// Takes this event in, where none is left. Where memory is refused, nothing has changed.
    pub fn put(&mut self, event: &Event<B>) -> Result<(), AllocError>
        requires { self.old ≡ [] }
        ensures put { OnOk result (self.new ≡ event.now ∷ []) }
        ensures unchanged { OnErr result (self.new ≡ []) }
    {
        self.events.clear();
        self.taken = 0;
        self.events.push(*event)?;
        Ok(())
    }

    /// Takes these events in, where none is left, and sorts them. Where memory is refused, none is taken in.
    pub fn fill(&mut self, events: &mut Vec<Event<B>>) -> Result<(), AllocError>
        requires { self.old ≡ [] }
        ensures filled { OnOk result (IsPermutation events.old.items self.new) }
        ensures none { OnErr result (self.new ≡ []) }
    {
        self.groups.group_by_source(events)?;
        mem::swap(&mut self.events, events);
        self.events.sort_unstable();
        self.taken = 0;
        Ok(())
    }
}
