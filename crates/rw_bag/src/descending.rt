ghost use Rattle.std.specs.Prelude.{◌≡◌, ◌+◌, ◌∷◌, ◌<◌, ◌^◌, List, [], length, reverse, IfOk, OnOk, OnErr, IfSome, MatchOption, IsTrue, is_some, false};
ghost use Rattle.std.specs.List.{position_or_len};
ghost use Rattle.std.specs.Ordering.{is_eq, is_le};
ghost use Rattle.rw_vt.specs.Order.{event_cmp, in_order, copies, has, without, AtMost, Each, IsAscending, IsFirst};
ghost use Rattle.rw_vt.specs.declared.event.Event.{Event};

use rw_vt::{Event, Model as VtModel};
use std::alloc::{AllocError, Global};
use std::marker::Model;

/// Events that come and go at the front: those that a process begins with, and those that it takes back. Contracts see
/// them in order.
///
/// They stand in a vector in descending order, so the least event stands last and is read, put and taken in constant
/// time. Any other is found by binary search, and moves those that are less when it leaves.
#[derive(Drop)]
pub struct Descending<M: VtModel> {
    events: Vec<Event<M::Body>>,
}

impl<M: VtModel> Model for Descending<M> {
    ghost Value = { List (Event M.Body) };

    ghost view = { λ x. reverse x.events.items };

    ghost invariant = { λ x. IsAscending (event_cmp M.Body.cmp) (reverse x.events.items) };
}

impl<M: VtModel> Descending<M> {
    /// No event.
    pub fn new(alloc: Global) -> Descending<M>
        ensures { result ≡ [] }
    {
        Descending {
            events: Vec::new(alloc),
        }
    }

    /// These events, which it sorts.
    pub fn from_events(mut events: Vec<Event<M::Body>>) -> Result<Descending<M>, AllocError>
        ensures all { IfOk result (λ bag. bag ≡ in_order (event_cmp M.Body.cmp) events.items) }
    {
        events.sort()?;
        events.reverse();
        Ok(Descending { events })
    }

    /// Whether the event may be pushed: none is less.
    pub fn leads(&self, event: Event<M::Body>) -> bool
        ensures { IsTrue result
            → Each (event_cmp M.Body.cmp) (λ e. AtMost (event_cmp M.Body.cmp) event e) self.now }
    {
        let Some(first) = self.first() else {
            return true;
        };
        event.cmp(first).is_le()
    }

    /// Puts the event before all others, where none is less.
    pub fn push(&mut self, event: Event<M::Body>) -> Result<(), AllocError>
        requires { Each (event_cmp M.Body.cmp) (λ e.
            AtMost (event_cmp M.Body.cmp) event e) self.old }
        ensures ok { OnOk result (self.new ≡ event ∷ self.old) }
        ensures err { OnErr result (self.new ≡ self.old) }
    {
        self.events.push(event)?;
        Ok(())
    }

    /// Takes the first event out where it is this one, and answers whether it was.
    pub fn take_if_first(&mut self, event: Event<M::Body>) -> bool
        ensures taken { IsTrue result → self.old ≡ event ∷ self.new }
        ensures kept { result ≡ false → self.new ≡ self.old }
    {
        let Some(first) = self.events.last() else {
            return false;
        };
        if event.cmp(first).is_ne() {
            return false;
        }
        let _taken = self.events.pop();
        true
    }

    /// Takes one copy of the event out, and answers whether there was one.
    pub fn take(&mut self, event: Event<M::Body>) -> bool
        ensures there { result ≡ has (event_cmp M.Body.cmp) event self.old }
        ensures rest { self.new ≡ without (event_cmp M.Body.cmp) event self.old }
        ensures kept { result ≡ false → self.new ≡ self.old }
    {
        let Some(at) = self.find(event) else {
            return false;
        };
        let _taken = self.events.remove(at);
        true
    }

    /// How many copies of the event are there.
    pub fn copies(&self, event: Event<M::Body>) -> u64
        ensures copies { result ≡ copies (event_cmp M.Body.cmp) event self.now }
        ensures small { result < 2 ^ 63 }
    {
        (self.place(event) - self.place_above(event)) as u64
    }

    /// The least event.
    pub fn first(&self) -> Option<&Event<M::Body>>
        ensures first { MatchOption result (self.now ≡ []) (λ e. IsFirst self.now e.now) }
        ensures order { IsAscending (event_cmp M.Body.cmp) self.now }
    {
        self.events.last()
    }

    /// How many events are not less than this one. They stand first, and its place is behind them.
    fn place(&self, event: Event<M::Body>) -> usize
        ensures at { result + position_or_len (λ y. is_le (event_cmp M.Body.cmp event y)) self.now
            ≡ length self.now }
        ensures small { result < 2 ^ 63 }
    {
        self.events
            .partition_point(|other| event.cmp(other).is_le())
    }

    /// How many events are greater than this one. They stand first, and its copies behind them.
    fn place_above(&self, event: Event<M::Body>) -> usize
        ensures { result + copies (event_cmp M.Body.cmp) event self.now
            + position_or_len (λ y. is_le (event_cmp M.Body.cmp event y)) self.now
            ≡ length self.now }
    {
        self.events
            .partition_point(|other| event.cmp(other).is_lt())
    }

    /// Where the last copy of the event stands, if there is one.
    fn find(&self, event: Event<M::Body>) -> Option<usize>
        ensures there { is_some result ≡ has (event_cmp M.Body.cmp) event self.now }
        ensures at { IfSome result (λ at.
            at + 1 + position_or_len (λ y. is_eq (event_cmp M.Body.cmp event y)) self.now
            ≡ length self.now) }
    {
        let at = self.place(event).checked_sub(1)?;
        let other = &self.events[at];
        if event.cmp(other).is_eq() {
            return Some(at);
        }
        None
    }
}
