ghost use Rattle.std.specs.Prelude.{◌≡◌, ◌+◌, ◌++◌, ◌∷◌, ◌<◌, ◌≤◌, List, [], length, OnOk, OnErr, MatchOption, IsTrue, false};
ghost use Rattle.std.specs.List.{position_or_len};
ghost use Rattle.std.specs.Ordering.{is_le};
ghost use Rattle.rw_vt.specs.Order.{event_cmp, copies, has, without, AtMost, Each, IsAscending, IsFirst};
ghost use Rattle.rw_vt.specs.declared.event.Event.{Event};
ghost use Rattle.rw_bag.specs.declared.ascending.TheConstants.{MOST_ASCENDING};

use rw_vt::{Event, Model as VtModel};
use std::alloc::{AllocError, Global};
use std::collections::VecDeque;
use std::marker::Model;

/// How many events can stand in one such row. One that follows them then is counted with the others.
pub const MOST_ASCENDING: usize = 1 << 32;

/// Events that come in order. Contracts see them in order.
///
/// They stand in a ring in ascending order, equal copies beside one another: one that is not less than the last comes
/// in, and the first is read and goes out, in constant time. Any other is found by binary search, and when it leaves
/// moves those before it or those behind it, whichever are fewer.
#[derive(Drop)]
pub struct Ascending<M: VtModel> {
    events: VecDeque<Event<M::Body>>,
}

impl<M: VtModel> Model for Ascending<M> {
    ghost Value = { List (Event M.Body) };

    ghost view = { λ x. x.events.items };

    ghost invariant = { λ x. IsAscending (event_cmp M.Body.cmp) x.events.items
        × (length x.events.items ≤ MOST_ASCENDING) };
}

impl<M: VtModel> Ascending<M> {
    /// No event. Takes no memory.
    pub fn new(alloc: Global) -> Ascending<M>
        ensures { result ≡ [] }
    {
        Ascending {
            events: VecDeque::new(alloc),
        }
    }

    /// Whether the event may be pushed: none is greater, and there are fewer than [`MOST_ASCENDING`].
    pub fn follows(&self, event: Event<M::Body>) -> bool
        ensures order { IsTrue result
            → Each (event_cmp M.Body.cmp) (λ e. AtMost (event_cmp M.Body.cmp) e event) self.now }
        ensures room { IsTrue result → length self.now < MOST_ASCENDING }
    {
        let is_full = self.events.len() >= MOST_ASCENDING;
        if is_full {
            return false;
        }
        let Some(last) = self.events.back() else {
            return true;
        };
        last.cmp(&event).is_le()
    }

    /// Puts the event behind all others, where none is greater.
    pub fn push(&mut self, event: Event<M::Body>) -> Result<(), AllocError>
        requires order { Each (event_cmp M.Body.cmp) (λ e.
            AtMost (event_cmp M.Body.cmp) e event) self.old }
        requires room { length self.old < MOST_ASCENDING }
        ensures ok { OnOk result (self.new ≡ self.old ++ event ∷ []) }
        ensures err { OnErr result (self.new ≡ self.old) }
    {
        self.events.push_back(event)?;
        Ok(())
    }

    /// Takes the first event out where it is this one, and answers whether it was.
    pub fn take_if_first(&mut self, event: Event<M::Body>) -> bool
        ensures taken { IsTrue result → self.old ≡ event ∷ self.new }
        ensures kept { result ≡ false → self.new ≡ self.old }
    {
        let Some(first) = self.events.front() else {
            return false;
        };
        if event.cmp(first).is_ne() {
            return false;
        }
        let _taken = self.events.pop_front();
        true
    }

    /// Takes one copy of the event out, and answers whether there was one.
    pub fn take(&mut self, event: Event<M::Body>) -> bool
        ensures there { result ≡ has (event_cmp M.Body.cmp) event self.old }
        ensures rest { self.new ≡ without (event_cmp M.Body.cmp) event self.old }
        ensures kept { result ≡ false → self.new ≡ self.old }
    {
        let at = self.place(event);
        let Some(other) = self.events.get(at) else {
            return false;
        };
        if event.cmp(other).is_ne() {
            return false;
        }
        let _taken = self.events.remove(at);
        true
    }

    /// How many copies of the event are there.
    pub fn copies(&self, event: Event<M::Body>) -> u64
        ensures copies { result ≡ copies (event_cmp M.Body.cmp) event self.now }
        ensures small { result ≤ MOST_ASCENDING }
    {
        (self.place_behind(event) - self.place(event)) as u64
    }

    /// The least event.
    pub fn first(&self) -> Option<&Event<M::Body>>
        ensures first { MatchOption result (self.now ≡ []) (λ e. IsFirst self.now e.now) }
        ensures order { IsAscending (event_cmp M.Body.cmp) self.now }
    {
        self.events.front()
    }

    /// How many events are less than this one. They stand first, and its copies behind them.
    fn place(&self, event: Event<M::Body>) -> usize
        ensures { result ≡ position_or_len (λ y. is_le (event_cmp M.Body.cmp event y)) self.now }
    {
        self.events
            .partition_point(|other| event.cmp(other).is_gt())
    }

    /// How many events are not greater than this one. They stand first, its copies the last of them.
    fn place_behind(&self, event: Event<M::Body>) -> usize
        ensures at { result ≡ copies (event_cmp M.Body.cmp) event self.now
            + position_or_len (λ y. is_le (event_cmp M.Body.cmp event y)) self.now }
        ensures small { result ≤ MOST_ASCENDING }
    {
        self.events
            .partition_point(|other| event.cmp(other).is_ge())
    }
}
