ghost use Rattle.std.specs.Prelude.{◌≡◌, ◌++◌, List, [], IfOk, OnOk, OnErr, MatchOption, false};
ghost use Rattle.rw_vt.specs.Limits.{end_of_time};
ghost use Rattle.rw_vt.specs.Order.{event_cmp, in_order, insert_in_order, copies, has, without, IsAscending, IsFirst, IsLeastOf};
ghost use Rattle.rw_vt.specs.declared.event.Event.{Event};
ghost use Rattle.rw_bag.specs.Bags.{IsNextOf, least_time};

use crate::stock::Stock;
use rw_vt::{END, Event, Model as VtModel};
use std::alloc::{AllocError, Global};
use std::marker::Model;

/// A bag of events: whole events are compared, and equal copies count. Contracts see it as its events in order.
///
/// The least event is at hand. An event that is put before those that the bag was made of, or behind all that came since, and
/// one that is taken as the first of either, costs constant time; else a call costs the logarithm of what is held, and where
/// an event leaves the middle of such a row, the number of those that move. It is boxed: moving a bag moves a pointer.
pub struct Bag<M: VtModel> {
    stored: Box<Stored<M>>,
}

// By hand, so that it is proved here, and not in each crate above whose values have one.
impl<M: VtModel> Drop for Bag<M> {
    fn drop(self) {
        let Bag { stored: _ } = self;
    }
}

/// What stands in that box.
#[derive(Drop)]
struct Stored<M: VtModel> {
    /// A copy of the least event.
    first: Option<Event<M::Body>>,
    stock: Stock<M>,
}

impl<M: VtModel> Model for Bag<M> {
    ghost Value = { List (Event M.Body) };

    ghost view = { λ x. x.stored.value.stock };

    ghost invariant = { λ x. IsNextOf (event_cmp M.Body.cmp)
        x.stored.value.stock x.stored.value.first };
}

impl<M: VtModel> Bag<M> {
    /// The empty bag.
    pub fn new(alloc: Global) -> Result<Bag<M>, AllocError>
        ensures { IfOk result (λ bag. bag ≡ []) }
    {
        let stored = Stored {
            first: None,
            stock: Stock::new(alloc),
        };
        Ok(Bag {
            stored: Box::new(alloc, stored)?,
        })
    }

    /// The bag of these events, which it sorts.
    pub fn from_events(events: Vec<Event<M::Body>>) -> Result<Bag<M>, AllocError>
        ensures all { IfOk result (λ bag. bag ≡ in_order (event_cmp M.Body.cmp) events.items) }
    {
        let alloc = *events.allocator();
        let stock = Stock::from_events(events)?;
        let stored = Stored {
            first: stock.first(),
            stock,
        };
        Ok(Bag {
            stored: Box::new(alloc, stored)?,
        })
    }

    /// Puts one copy of the event in.
    pub fn put(&mut self, event: Event<M::Body>) -> Result<(), AllocError>
        ensures ok { OnOk result
            (self.new ≡ insert_in_order (event_cmp M.Body.cmp) event self.old) }
        ensures err { OnErr result (self.new ≡ self.old) }
    {
        let stored = &mut *self.stored;
        stored.stock.put(event)?;
        stored.first = stored.stock.first();
        Ok(())
    }

    /// Takes one copy of the event out, and answers whether there was one.
    pub fn take(&mut self, event: Event<M::Body>) -> bool
        ensures there { result ≡ has (event_cmp M.Body.cmp) event self.old }
        ensures rest { self.new ≡ without (event_cmp M.Body.cmp) event self.old }
        ensures kept { result ≡ false → self.new ≡ self.old }
    {
        let stored = &mut *self.stored;
        if stored.first.is_none() {
            return false;
        }
        let taken = stored.stock.take(event);
        stored.first = stored.stock.first();
        taken
    }

    /// Moves all events to the end of `out`, in order. Where memory is refused, some are lost.
    pub fn move_to(&mut self, out: &mut Vec<Event<M::Body>>) -> Result<(), AllocError>
        ensures { OnOk result (out.new.items ≡ out.old.items ++ self.old) }
    {
        'events: while let Some(first) = self.first() {
            let event = *first;
            out.push(event)?;
            let _taken = self.take(event);
        }
        Ok(())
    }

    /// Whether a copy of the event is there.
    pub fn holds(&self, event: Event<M::Body>) -> bool
        ensures { result ≡ has (event_cmp M.Body.cmp) event self.now }
    {
        self.copies(&event) > 0
    }

    /// How many copies of the event are there. Takes no memory.
    pub fn copies(&self, event: &Event<M::Body>) -> u64
        ensures { result ≡ copies (event_cmp M.Body.cmp) event.now self.now }
    {
        self.stored.stock.copies(event)
    }

    /// The events stand in order. This is a law of every bag; the call itself does nothing.
    pub fn order(&self)
        ensures { IsAscending (event_cmp M.Body.cmp) self.now }
    {
        let _known = self.stored.stock.first();
    }

    /// The least event. Takes no memory.
    pub fn first(&self) -> Option<&Event<M::Body>>
        ensures first { MatchOption result (self.now ≡ []) (λ e. IsFirst self.now e.now) }
        ensures least { MatchOption result (self.now ≡ []) (λ e.
            IsLeastOf (event_cmp M.Body.cmp) self.now e.now) }
    {
        self.stored.first.as_ref()
    }

    /// The least time, or the end of time where the bag is empty. Takes no memory.
    pub fn least_time(&self) -> u64
        ensures { result ≡ least_time end_of_time self.now }
    {
        match self.first() {
            Some(event) => event.time.min(END),
            None => END,
        }
    }
}
