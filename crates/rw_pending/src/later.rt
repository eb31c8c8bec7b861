ghost use Rattle.std.specs.Prelude.{◌≡◌, ◌<◌, ◌≤◌, ◌↔◌, ◌++◌, [], ◌∷◌, false, true, All, IfNone, IfSome, IsPermutation, IsTrue, List, OnErr, OnOk, Some};
ghost use Rattle.std.specs.VecDeque.{deque_capacity, deque_len};
ghost use Rattle.rw_vt.specs.declared.event.Event.{Event};
ghost use Rattle.rw_pending.specs.Later.{HasMoved, IsLeastOr, IsLeastTime, IsLeft, never};

use crate::times::{NEVER, or_never, time_of};
use crate::wheel::Wheel;
use rw_vt::Event;
use std::alloc::{AllocError, Global};
use std::collections::VecDeque;
use std::marker::Model;

/// Where events stand that were sent, until their time comes.
pub trait Store<B: Copy>: Drop {
    /// The events that are there, in no particular order.
    ghost events: { Self → List (Event B) };

    /// The least time of an event, or [`NEVER`] where there is no event.
    fn least(&self) -> u64
        ensures { IsLeastOr never (events self.now) result };

    /// Whether there is no event.
    fn is_empty(&self) -> bool
        ensures { IsTrue result ↔ (events self.now ≡ []) };

    /// Adds an event. Where memory is refused, nothing has changed.
    fn put(&mut self, event: &Event<B>) -> Result<(), AllocError>
        ensures added { OnOk result
            (IsPermutation (events self.old ++ event.now ∷ []) (events self.new)) }
        ensures unchanged { OnErr result (events self.new ≡ events self.old) };

    /// Takes an event of a time, than which none is earlier, into `next`. `None` only where there is none of that time. Where
    /// memory is refused, some events are lost.
    fn take_one(&mut self, time: u64, next: &mut Option<Event<B>>) -> Result<(), AllocError>
        requires { All (λ e. time ≤ e.time) (events self.old) }
        ensures taken { OnOk result (IfSome next.new (λ e.
            IsPermutation (events self.old) (e ∷ events self.new))) }
        ensures of_time { OnOk result (IfSome next.new (λ e. e.time ≡ time)) }
        ensures none { OnOk result (IfNone next.new (All (λ e. time < e.time) (events self.old))) }
        ensures others { OnOk result (IfNone next.new
            (IsPermutation (events self.old) (events self.new))) }
        ensures left { OnErr result (IsLeft (events self.old) (events self.new)) };

    /// Moves the events of a time, than which none is earlier, to the end of `taken`. Where memory is refused, some events
    /// are lost.
    fn take(&mut self, time: u64, taken: &mut Vec<Event<B>>) -> Result<(), AllocError>
        requires { All (λ e. time ≤ e.time) (events self.old) }
        ensures moved { OnOk result
            (HasMoved time (events self.old) (events self.new) taken.old.items taken.new.items) }
        ensures left { OnErr result (IsLeft (events self.old) (events self.new)) };
}

/// Events whose times never fall. Contracts see them as a list in order.
#[derive(Drop)]
struct Lane<B: Copy> {
    events: VecDeque<Event<B>>,
    /// The time of the first event, or [`NEVER`].
    first: u64,
    /// The time of the last event that came here.
    last: u64,
}

impl<B: Copy> Model for Lane<B> {
    ghost use Rattle.std.specs.Prelude.{List};
    ghost use Rattle.rw_vt.specs.declared.event.Event.{Event};
    ghost use Rattle.rw_pending.specs.Later.{IsLane, IsLeastOr, never};

    ghost Value = { List (Event B) };

    ghost view = { λ l. l.events.items };

    ghost invariant = { λ l. IsLane l.events.items l.last
        × IsLeastOr never l.events.items l.first };
}

impl<B: Copy> Lane<B> {
    /// No events.
    fn new(alloc: Global) -> Self
        ensures { result ≡ [] }
    {
        Lane {
            events: VecDeque::new(alloc),
            first: NEVER,
            last: 0,
        }
    }

    /// The time of the first event, which is the least, or [`NEVER`] where there is no event.
    #[inline(always)]
    fn least(&self) -> u64
        ensures { IsLeastOr never self.now result }
    {
        self.first
    }

    /// Whether there is no event.
    #[inline(always)]
    fn is_empty(&self) -> bool
        ensures { IsTrue result ↔ (self.now ≡ []) }
    {
        self.events.is_empty()
    }

    /// Whether the first event is of this time.
    #[inline(always)]
    fn has(&self, time: u64) -> bool
        ensures least { IsTrue result → IsLeastTime self.now (Some time) }
        ensures later { result ≡ false → All (λ e. time ≤ e.time) self.now
            → All (λ e. time < e.time) self.now }
    {
        self.first == time && !self.events.is_empty()
    }

    /// Whether an event of this time may come behind those that are there.
    #[inline(always)]
    fn takes(&self, time: u64) -> bool
        ensures { result ≡ true → All (λ e. e.time ≤ time) self.now }
    {
        self.last <= time
    }

    /// Adds an event, than which none is later, at the end. Where memory is refused, nothing has changed.
    #[inline(always)]
    fn push(&mut self, event: &Event<B>) -> Result<(), AllocError>
        requires { All (λ e. e.time ≤ event.now.time) self.old }
        ensures added { OnOk result (self.new ≡ self.old ++ event.now ∷ []) }
        ensures unchanged { OnErr result (self.new ≡ self.old) }
    {
        if self.events.len() == self.events.capacity() {
            make_room(&mut self.events)?;
        }
        self.events.push_back_reserved(*event);
        self.first = self.first.min(event.time);
        self.last = event.time;
        Ok(())
    }

    /// Takes the first event, than which none is earlier. `None` only where there is none.
    #[inline(always)]
    fn pop(&mut self) -> Option<Event<B>>
        ensures taken { IfSome result (λ e. IsPermutation self.old (e ∷ self.new)) }
        ensures least { IfSome result (λ e. All (λ f. e.time ≤ f.time) self.old) }
        ensures none { IfNone result (self.old ≡ []) }
    {
        let event = self.events.pop_front();
        self.first = or_never(time_of(self.events.front()));
        event
    }

    /// Moves the events of a time, than which none is earlier, to the end of `taken`. Where memory is refused, some events
    /// are lost.
    fn take(&mut self, time: u64, taken: &mut Vec<Event<B>>) -> Result<(), AllocError>
        requires { All (λ e. time ≤ e.time) self.old }
        ensures moved { OnOk result
            (HasMoved time self.old self.new taken.old.items taken.new.items) }
        ensures left { OnErr result (IsLeft self.old self.new) }
    {
        while self.has(time) {
            if let Some(event) = self.pop() {
                taken.push(event)?;
            }
        }
        Ok(())
    }
}

/// Makes room for one more event.
#[inline(never)]
fn make_room<B: Copy>(events: &mut VecDeque<Event<B>>) -> Result<(), AllocError>
    ensures same { events.new.items ≡ events.old.items }
    ensures room { OnOk result (deque_len events.new < deque_capacity events.new) }
{
    events.reserve(1)
}

/// Two lanes, and a store for the events that would break their order. What is put into a lane costs no comparison with what is
/// there.
#[derive(Drop)]
pub struct TwoLanes<B: Copy, R: Store<B>> {
    first: Lane<B>,
    second: Lane<B>,
    others: R,
}

impl<B: Copy, R: Store<B>> Model for TwoLanes<B, R> {
    ghost use Rattle.std.specs.Prelude.{◌++◌, List};
    ghost use Rattle.rw_vt.specs.declared.event.Event.{Event};

    ghost Value = { List (Event B) };

    ghost view = { λ l. l.first ++ (l.second ++ R.events l.others) };
}

impl<B: Copy, R: Store<B>> TwoLanes<B, R> {
    /// Two empty lanes before an empty store.
    fn new(alloc: Global, others: R) -> Self
        ensures { result ≡ R.events others }
    {
        TwoLanes {
            first: Lane::new(alloc),
            second: Lane::new(alloc),
            others,
        }
    }
}

impl<B: Copy, R: Store<B>> Store<B> for TwoLanes<B, R> {
    ghost events = { λ l. l };

    #[inline(always)]
    fn least(&self) -> u64 {
        let lanes = self.first.least().min(self.second.least());
        lanes.min(self.others.least())
    }

    fn is_empty(&self) -> bool {
        self.first.is_empty() && self.second.is_empty() && self.others.is_empty()
    }

    #[inline(always)]
    fn put(&mut self, event: &Event<B>) -> Result<(), AllocError>
        ensures added { OnOk result (IsPermutation (self.old ++ event.now ∷ []) self.new) }
        ensures unchanged { OnErr result (self.new ≡ self.old) }
    {
        if self.first.takes(event.time) {
            self.first.push(event)
        } else if self.second.takes(event.time) {
            self.second.push(event)
        } else {
            self.others.put(event)
        }
    }

    #[inline(always)]
    fn take_one(&mut self, time: u64, next: &mut Option<Event<B>>) -> Result<(), AllocError> {
        if self.first.has(time) {
            *next = self.first.pop();
            Ok(())
        } else if self.second.has(time) {
            *next = self.second.pop();
            Ok(())
        } else {
            self.others.take_one(time, next)
        }
    }

    #[inline(always)]
    fn take(&mut self, time: u64, taken: &mut Vec<Event<B>>) -> Result<(), AllocError> {
        self.first.take(time, taken)?;
        self.second.take(time, taken)?;
        self.others.take(time, taken)
    }
}

/// As many lanes as a model has delays in effect, one for what other engines send a little later than its turn, and a timing wheel
/// for the rest. A model whose sends have at most four delays never comes to the wheel: its events are executed in order of time,
/// so those of one delay are.
type Lanes<B> = TwoLanes<B, TwoLanes<B, Wheel<B>>>;

/// Events that were sent, until their time comes; it knows the least time of all. Contracts see them as a list, in no
/// particular order.
pub struct Later<B: Ord + Copy> {
    lanes: Lanes<B>,
    /// The least time of an event, or [`NEVER`].
    least: u64,
}

// By hand, so that it is proved here, and not in each function of a crate above that has one.
impl<B: Ord + Copy> Drop for Later<B> {
    fn drop(self) {
        let Later { lanes: _, least: _ } = self;
    }
}

impl<B: Ord + Copy> Model for Later<B> {
    ghost use Rattle.std.specs.Prelude.{List};
    ghost use Rattle.rw_vt.specs.declared.event.Event.{Event};
    ghost use Rattle.rw_pending.specs.Later.{IsLeastOr, never};

    ghost Value = { List (Event B) };

    ghost view = { λ l. l.lanes };

    ghost invariant = { λ l. IsLeastOr never l.lanes l.least };
}

impl<B: Ord + Copy> Later<B> {
    /// No events.
    pub fn new(alloc: Global) -> Self
        ensures { result ≡ [] }
    {
        Later {
            lanes: TwoLanes::new(alloc, TwoLanes::new(alloc, Wheel::new(alloc))),
            least: NEVER,
        }
    }

    /// The least time of an event, or [`NEVER`] where there is no event.
    #[inline(always)]
    pub fn least(&self) -> u64
        ensures { IsLeastOr never self.now result }
    {
        self.least
    }

    /// The least time of an event. `None` only where there is no event.
    #[inline]
    pub fn least_time(&self) -> Option<u64>
        ensures { IsLeastTime self.now result }
    {
        if self.least == NEVER && self.lanes.is_empty() {
            return None;
        }
        Some(self.least)
    }

    /// Adds an event. Where memory is refused, nothing has changed.
    #[inline(always)]
    pub fn put(&mut self, event: &Event<B>) -> Result<(), AllocError>
        ensures added { OnOk result (IsPermutation (self.old ++ event.now ∷ []) self.new) }
        ensures unchanged { OnErr result (self.new ≡ self.old) }
    {
        self.lanes.put(event)?;
        self.least = self.least.min(event.time);
        Ok(())
    }

    /// Takes an event of a time, than which none is earlier, into `next`. `None` only where there is none of that time. Where
    /// memory is refused, some events are lost.
    pub fn take_one(&mut self, time: u64, next: &mut Option<Event<B>>) -> Result<(), AllocError>
        requires { All (λ e. time ≤ e.time) self.old }
        ensures taken { OnOk result (IfSome next.new (λ e. IsPermutation self.old (e ∷ self.new))) }
        ensures of_time { OnOk result (IfSome next.new (λ e. e.time ≡ time)) }
        ensures none { OnOk result (IfNone next.new (All (λ e. time < e.time) self.old)) }
        ensures others { OnOk result (IfNone next.new (IsPermutation self.old self.new)) }
        ensures left { OnErr result (IsLeft self.old self.new) }
    {
        let result = self.lanes.take_one(time, next);
        self.least = self.lanes.least();
        result
    }

    /// Moves the events of a time, than which none is earlier, to the end of `taken`. Where memory is refused, some events
    /// are lost.
    pub fn take(&mut self, time: u64, taken: &mut Vec<Event<B>>) -> Result<(), AllocError>
        requires { All (λ e. time ≤ e.time) self.old }
        ensures moved { OnOk result
            (HasMoved time self.old self.new taken.old.items taken.new.items) }
        ensures left { OnErr result (IsLeft self.old self.new) }
    {
        let result = self.lanes.take(time, taken);
        self.least = self.lanes.least();
        result
    }

    /// Moves all events to the end of `rest`, in order of time. Where memory is refused, some events are lost.
    pub fn move_to(&mut self, rest: &mut Vec<Event<B>>) -> Result<(), AllocError>
        ensures none { OnOk result (self.new ≡ []) }
        ensures moved { OnOk result (IsPermutation (rest.old.items ++ self.old) rest.new.items) }
        ensures left { IsLeft self.old self.new }
    {
        while let Some(time) = self.least_time() {
            self.take(time, rest)?;
        }
        Ok(())
    }
}
