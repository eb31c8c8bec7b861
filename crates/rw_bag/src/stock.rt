ghost use Rattle.std.specs.Prelude.{◌≡◌, ◌++◌, List, [], IfOk, OnOk, OnErr, false};
ghost use Rattle.std.specs.Option.{option_copied};
ghost use Rattle.rw_vt.specs.Order.{event_cmp, in_order, insert_in_order, copies, has, without, IsAscending};
ghost use Rattle.rw_vt.specs.declared.event.Event.{Event};
ghost use Rattle.rw_bag.specs.Bags.{IsNextOf, lesser};

use crate::ascending::Ascending;
use crate::counted::CountedBag;
use crate::descending::Descending;
use rw_vt::{Event, Model as VtModel};
use std::alloc::{AllocError, Global};
use std::marker::Model;

/// The events of a bag, in three parts. Contracts see them in order.
///
/// Those that it was made of stand in descending order, and with them each that comes before them, as an undone event does.
/// Of the others those that come in order stand in ascending order, and the rest is counted. What a call costs, each of the
/// parts says; nothing walks over what is held.
#[derive(Drop)]
pub struct Stock<M: VtModel> {
    /// What is left of the events that it was made of, and those put before them.
    descending: Descending<M>,
    /// Of the others, those that came in order.
    ascending: Ascending<M>,
    /// The rest.
    counted: CountedBag<M>,
}

impl<M: VtModel> Model for Stock<M> {
    ghost Value = { List (Event M.Body) };

    ghost view = { λ x. in_order (event_cmp M.Body.cmp)
        (x.descending ++ x.ascending ++ x.counted) };
}

impl<M: VtModel> Stock<M> {
    /// No event. Takes no memory.
    pub fn new(alloc: Global) -> Stock<M>
        ensures { result ≡ [] }
    {
        Stock {
            descending: Descending::new(alloc),
            ascending: Ascending::new(alloc),
            counted: CountedBag::new(alloc),
        }
    }

    /// These events, which it sorts.
    pub fn from_events(events: Vec<Event<M::Body>>) -> Result<Stock<M>, AllocError>
        ensures all { IfOk result (λ stock. stock ≡ in_order (event_cmp M.Body.cmp) events.items) }
    {
        let alloc = *events.allocator();
        Ok(Stock {
            descending: Descending::from_events(events)?,
            ascending: Ascending::new(alloc),
            counted: CountedBag::new(alloc),
        })
    }

    /// Puts one copy of the event in.
    pub fn put(&mut self, event: Event<M::Body>) -> Result<(), AllocError>
        ensures ok { OnOk result
            (self.new ≡ insert_in_order (event_cmp M.Body.cmp) event self.old) }
        ensures err { OnErr result (self.new ≡ self.old) }
    {
        if self.descending.leads(event) {
            return self.descending.push(event);
        }
        if self.ascending.follows(event) {
            return self.ascending.push(event);
        }
        self.counted.put(event)
    }

    /// Takes one copy of the event out, and answers whether there was one. The parts in order are searched last.
    pub fn take(&mut self, event: Event<M::Body>) -> bool
        ensures there { result ≡ has (event_cmp M.Body.cmp) event self.old }
        ensures rest { self.new ≡ without (event_cmp M.Body.cmp) event self.old }
        ensures kept { result ≡ false → self.new ≡ self.old }
    {
        if self.descending.take_if_first(event) {
            return true;
        }
        if self.ascending.take_if_first(event) {
            return true;
        }
        if self.counted.take(event) {
            return true;
        }
        if self.ascending.take(event) {
            return true;
        }
        self.descending.take(event)
    }

    /// How many copies of the event are there. Takes no memory.
    pub fn copies(&self, event: &Event<M::Body>) -> u64
        ensures { result ≡ copies (event_cmp M.Body.cmp) event.now self.now }
    {
        self.descending.copies(*event) + self.ascending.copies(*event) + self.counted.copies(event)
    }

    /// A copy of the least event. Takes no memory.
    pub fn first(&self) -> Option<Event<M::Body>>
        ensures next { IsNextOf (event_cmp M.Body.cmp) self.now result }
        ensures order { IsAscending (event_cmp M.Body.cmp) self.now }
    {
        let ordered = lesser(self.descending.first(), self.ascending.first());
        lesser(ordered, self.counted.first()).copied()
    }
}

/// The lesser of two events, where there are any.
fn lesser<'a, B: Ord + Copy>(
    one: Option<&'a Event<B>>,
    other: Option<&'a Event<B>>,
) -> Option<&'a Event<B>>
    ensures { option_copied result
        ≡ lesser (event_cmp B.cmp) (option_copied one.entry) (option_copied other.entry) }
{
    let Some(left) = one else {
        return other;
    };
    let Some(right) = other else {
        return one;
    };
    if left.cmp(right).is_gt() {
        return other;
    }
    one
}
