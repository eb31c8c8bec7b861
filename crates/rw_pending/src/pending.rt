ghost use Rattle.std.specs.Prelude.{◌≡◌, ◌+◌, ◌<◌, ◌≤◌, ◌++◌, [], ◌∷◌, false, true, All, IfNone, IfOk, IfSome, IsNone, IsPermutation, IsSome, IsTrue, List, OnErr, OnOk, length, option_copied, option_to_list, take};
ghost use Rattle.rw_vt.specs.Words.{Count, Time};
ghost use Rattle.rw_vt.specs.Order.{event_cmp, AtMost};
ghost use Rattle.rw_vt.specs.declared.event.Event.{Event};
ghost use Rattle.rw_pending.specs.Later.{IsLeastOr, IsLeastTime, IsLeft, never};
ghost use Rattle.rw_pending.specs.Pending.{AreAround, HasMovedOn, IsDue, IsNextEvent, IsReached, IsTakenFromOne, time_or};

use crate::initial::Initial;
use crate::later::Later;
use crate::slice::Slice;
use crate::source::Source;
use crate::times::{earlier, is_time, time_of};
use rw_vt::Event;
use std::alloc::{AllocError, Global};
use std::marker::Model;
use std::mem;

/// The events that are still to be executed. Contracts see the time that is reached, and the events as a list, in no
/// particular order.
///
/// The initial events come from a source, the least first; those that are sent wait for their time. One that is alone in its
/// time is given as it is; several are taken together and sorted once. So what is sent costs a comparison or two where the model
/// has few delays, beside that sort; where it has many, at most five moves, however many of them wait.
#[derive(Drop)]
pub struct Pending<B: Ord + Copy, S: Source<B>> {
    /// What is left of the initial events.
    initial: Initial<B, S>,
    /// What is left of the events that were sent for the time that is reached.
    now: Slice<B>,
    /// The events that were sent for later times.
    later: Later<B>,
    /// Room for the events of a time, while they are taken together.
    room: Vec<Event<B>>,
    /// The time that is reached: no event is earlier.
    time: u64,
}

impl<B: Ord + Copy, S: Source<B>> Model for Pending<B, S> {
    ghost use Rattle.std.specs.Prelude.{◌++◌};
    ghost use Rattle.rw_pending.specs.Pending.{AreAround, Waiting};

    ghost Value = { Waiting B };

    ghost view = { λ p. record { time = p.time; events = p.initial ++ (p.now ++ p.later) } };

    ghost invariant = { λ p. AreAround p.time p.initial p.now p.later };
}

impl<B: Ord + Copy, S: Source<B>> Pending<B, S> {
    /// The initial events, which this source gives.
    pub fn new(alloc: Global, source: S) -> Self
        ensures events { result.events ≡ S.left source }
        ensures time { result.time ≡ 0 }
    {
        Pending {
            initial: Initial::new(source),
            now: Slice::new(alloc),
            later: Later::new(alloc),
            room: Vec::new(alloc),
            time: 0,
        }
    }

    /// The least time of an event, in ticks. `None` only where there is no event. Takes no memory.
    pub fn least_time(&self) -> Option<u64>
        ensures { IsLeastTime self.entry.now.events result }
    {
        // What is left of the time that is reached comes before the rest.
        if self.now.first().is_some() {
            return Some(self.time);
        }
        earlier(time_of(self.initial.first()), self.later.least_time())
    }

    /// Takes events out, for another engine to go on with: all that were sent, and of the initial ones as many as `count` says,
    /// with all others of the last one's time. Where fewer initial events are left, none remains.
    ///
    /// It costs what taking each of them does, and asks for the room of somewhat more than `count` at once. After a refusal of
    /// memory some events are lost.
    pub fn take_out(&mut self, alloc: Global, count: usize) -> Result<Vec<Event<B>>, AllocError>
        ensures parts { IfOk result (λ taken.
            IsPermutation self.old.events (taken.items ++ self.new.events)) }
        ensures enough { IfOk result (λ taken.
            length taken.items < count → self.new.events ≡ []) }
    {
        let mut taken = Vec::with_capacity(alloc, count.saturating_add(count / 8))?;
        move_sent(&mut self.now, &mut self.later, &mut taken)?;
        self.time = 0;
        move_first(&mut self.initial, count, &mut taken)?;
        Ok(taken)
    }

    /// Takes all events out, for another engine to go on with.
    ///
    /// It costs what taking each of them does. After a refusal of memory some events are lost.
    pub fn take_all(&mut self, alloc: Global) -> Result<Vec<Event<B>>, AllocError>
        ensures { IfOk result (λ taken. IsPermutation self.old.events taken.items) }
    {
        let mut taken = Vec::new(alloc);
        move_sent(&mut self.now, &mut self.later, &mut taken)?;
        self.time = 0;
        move_rest(&mut self.initial, &mut taken)?;
        Ok(taken)
    }

    /// Adds events that another engine left, of any time and in any order.
    ///
    /// It costs a sort of them and of those that were sent before, which is linear where they are in order. After a refusal of
    /// memory some events are lost.
    pub fn put_back(&mut self, events: Vec<Event<B>>) -> Result<(), AllocError>
        ensures added { OnOk result
            (IsPermutation (self.old.events ++ events.items) self.new.events) }
        ensures time { OnOk result (self.new.time ≡ 0) }
    {
        let mut sent = events;
        move_sent(&mut self.now, &mut self.later, &mut sent)?;
        self.time = 0;
        sent.sort_unstable();
        self.room.clear();
        put_apart(&sent, &mut self.room, &mut self.later)?;
        self.now.fill(&mut self.room)
    }

    /// Adds the events of another source, from which initial events come from now on. What is left of the initial events waits with
    /// those that were sent. No event is of the time that is reached.
    ///
    /// It costs a look at each initial event that is left, and none at those of the new source. After a refusal of memory some
    /// events are lost.
    pub fn refill(&mut self, source: S) -> Result<(), AllocError>
        requires later { All (λ e. self.old.time < e.time) self.old.events }
        ensures added { OnOk result
            (IsPermutation (self.old.events ++ S.left source) self.new.events) }
        ensures time { OnOk result (self.new.time ≡ 0) }
    {
        put_rest(&mut self.initial, &mut self.later)?;
        self.time = 0;
        self.initial = Initial::new(source);
        Ok(())
    }

    /// Takes a least event, whose time is then reached, and puts it into `next`. `None` only where there is none.
    ///
    /// After a refusal of memory nothing is said of what is there.
    #[inline]
    pub fn pop(&mut self, next: &mut Option<Event<B>>) -> Result<(), AllocError>
        ensures none { OnOk result (IfNone next.new (self.old.events ≡ [])) }
        ensures none_left { OnOk result (IfNone next.new (self.new.events ≡ [])) }
        ensures least { OnOk result (IfSome next.new (λ e.
            All (AtMost (event_cmp B.cmp) e) self.old.events)) }
        ensures taken { OnOk result (IfSome next.new (λ e.
            IsPermutation self.old.events (e ∷ self.new.events))) }
        ensures reached { OnOk result (IfSome next.new (λ e. self.new.time ≡ e.time)) }
    {
        take_least(
            self.time,
            &mut self.initial,
            &mut self.now,
            &mut self.later,
            &mut self.room,
            next,
        )?;
        self.time = time_or(next, self.time);
        Ok(())
    }

    /// Takes a least event into `next`, as [`pop`](Self::pop), where its time is before `until`, in ticks. `None` exactly where
    /// there is no such event; nothing changes then.
    ///
    /// After a refusal of memory nothing is said of what is there.
    #[inline]
    pub fn pop_before(&mut self, until: u64, next: &mut Option<Event<B>>) -> Result<(), AllocError>
        ensures none { OnOk result (IfNone next.new
            (All (λ e. until ≤ e.time) self.old.events × (self.new ≡ self.old))) }
        ensures before { OnOk result (IfSome next.new (λ e. e.time < until)) }
        ensures least { OnOk result (IfSome next.new (λ e.
            All (AtMost (event_cmp B.cmp) e) self.old.events)) }
        ensures taken { OnOk result (IfSome next.new (λ e.
            IsPermutation self.old.events (e ∷ self.new.events))) }
        ensures reached { OnOk result (IfSome next.new (λ e. self.new.time ≡ e.time)) }
    {
        if until <= self.least() {
            *next = None;
            return Ok(());
        }
        self.pop(next)
    }

    /// The least time of an event, or `u64::MAX` where there is no event.
    #[inline(always)]
    fn least(&self) -> u64
        ensures { IsLeastOr never self.entry.now.events result }
    {
        if self.now.first().is_some() {
            return self.time;
        }
        self.initial.least().min(self.later.least())
    }

    /// Adds an event that was sent. It is later than the time that is reached.
    ///
    /// After a refusal of memory nothing is said of what is there.
    #[inline]
    pub fn put(&mut self, event: Event<B>) -> Result<(), AllocError>
        requires { self.old.time < event.time }
        ensures added { OnOk result
            (IsPermutation (self.old.events ++ event ∷ []) self.new.events) }
        ensures time { OnOk result (self.new.time ≡ self.old.time) }
    {
        self.later.put(&event)
    }

    /// Adds events that were sent, in any order. They are later than the time that is reached.
    ///
    /// After a refusal of memory nothing is said of what is there.
    #[inline(always)]
    pub fn extend(&mut self, sent: &[Event<B>]) -> Result<(), AllocError>
        requires { All (λ e. self.old.time < e.time) sent.now }
        ensures added { OnOk result (IsPermutation (self.old.events ++ sent.now) self.new.events) }
        ensures time { OnOk result (self.new.time ≡ self.old.time) }
    {
        put_all(&mut self.later, sent)
    }
}

/// Takes a least event of all into `next`. `None` only where there is none.
///
/// After a refusal of memory some events may be lost.
#[inline]
fn take_least<B: Ord + Copy, S: Source<B>>(
    time: u64,
    initial: &mut Initial<B, S>,
    now: &mut Slice<B>,
    later: &mut Later<B>,
    room: &mut Vec<Event<B>>,
    next: &mut Option<Event<B>>,
) -> Result<(), AllocError>
    requires { AreAround time initial.old now.old later.old }
    ensures next { OnOk result (IsNextEvent B.cmp time initial.old now.old later.old next.new
        initial.new now.new later.new) }
    ensures lost { OnErr result (AreAround time initial.new now.new later.new) }
{
    if reach(time, initial, now, later, room, next)? {
        return Ok(());
    }
    take_first(initial, now, next);
    Ok(())
}

/// Where nothing is left of the events that were sent for the time that is reached, goes on to the next time of such events,
/// unless an initial event is before it. An event that is alone in its time is taken into `next` at once, as the answer then
/// says; of several, those that were sent move from `later` to `now`, by way of `room`.
///
/// After a refusal of memory some events may be lost.
#[inline]
fn reach<B: Ord + Copy, S: Source<B>>(
    time: u64,
    initial: &mut Initial<B, S>,
    now: &mut Slice<B>,
    later: &mut Later<B>,
    room: &mut Vec<Event<B>>,
    next: &mut Option<Event<B>>,
) -> Result<bool, AllocError>
    requires { AreAround time initial.old now.old later.old }
    ensures taken { IfOk result (λ taken. taken ≡ true
        → IsNextEvent B.cmp time initial.old now.old later.old next.new
        initial.new now.new later.new) }
    ensures reached { IfOk result (λ taken. taken ≡ false
        → (initial.new ≡ initial.old)
        × IsReached initial.old now.old later.old now.new later.new) }
    ensures lost { OnErr result (AreAround time initial.new now.new later.new) }
{
    if now.first().is_some() {
        return Ok(false);
    }
    take_due(initial, later, next)?;
    let Some(first) = &*next else {
        initial.pop(next);
        return Ok(true);
    };
    if is_time(later.least_time(), first.time) {
        gather(first, now, later, room)?;
        return Ok(false);
    }
    take_lesser(initial, now, next)?;
    Ok(true)
}

/// Takes one of the earliest events that were sent into `next`. `None` only where there is none, or an initial event is before
/// them. Where memory is refused, some events are lost.
#[inline]
fn take_due<B: Ord + Copy, S: Source<B>>(
    initial: &Initial<B, S>,
    later: &mut Later<B>,
    next: &mut Option<Event<B>>,
) -> Result<(), AllocError>
    ensures taken { OnOk result (IfSome next.new (λ e. IsPermutation later.old (e ∷ later.new))) }
    ensures least { OnOk result (IfSome next.new (λ e. All (λ f. e.time ≤ f.time) later.old
        × All (λ f. e.time ≤ f.time) initial.now)) }
    ensures none { OnOk result (IfNone next.new
        ((later.new ≡ later.old) × IsDue initial.now later.old)) }
    ensures left { OnErr result (IsLeft later.old later.new) }
{
    let least = later.least();
    if initial.least() < least {
        *next = None;
        Ok(())
    } else {
        later.take_one(least, next)
    }
}

/// Takes the lesser of the first initial event and the event in `next`, which was sent, the only one for its time. Where that is
/// not the event that was sent, it is put at hand, where nothing is.
#[inline]
fn take_lesser<B: Ord + Copy, S: Source<B>>(
    initial: &mut Initial<B, S>,
    now: &mut Slice<B>,
    next: &mut Option<Event<B>>,
) -> Result<(), AllocError>
    requires none { now.old ≡ [] }
    requires sent { IsSome next.old }
    ensures taken { OnOk result
        (IsTakenFromOne initial.old (option_to_list next.old) next.new initial.new now.new) }
    ensures least { OnOk result (IfSome next.new (λ e.
        All (AtMost (event_cmp B.cmp) e) initial.old
        × All (AtMost (event_cmp B.cmp) e) (option_to_list next.old))) }
    ensures some { OnOk result (IsSome next.new) }
    ensures lost { OnErr result ((initial.new ≡ initial.old) × (now.new ≡ [])) }
{
    let Some(sent) = &*next else {
        return Ok(());
    };
    if is_initial_next(initial.first(), Some(sent)) {
        now.put(sent)?;
        initial.pop(next);
    }
    Ok(())
}

/// Moves an event and all that were sent for its time to `now`, where nothing is left, by way of `room`.
///
/// After a refusal of memory some events may be lost.
fn gather<B: Ord + Copy>(
    first: &Event<B>,
    now: &mut Slice<B>,
    later: &mut Later<B>,
    room: &mut Vec<Event<B>>,
) -> Result<(), AllocError>
    requires none { now.old ≡ [] }
    requires least { All (λ e. first.now.time ≤ e.time) later.old }
    ensures moved { OnOk result (IsPermutation (first.now ∷ later.old) (now.new ++ later.new)) }
    ensures times { OnOk result (All (λ e. e.time ≡ first.now.time) now.new
        × All (λ e. first.now.time < e.time) later.new) }
    ensures lost { OnErr result ((now.new ≡ []) × IsLeft later.old later.new) }
{
    room.clear();
    room.push(*first)?;
    later.take(first.time, room)?;
    now.fill(room)
}

/// Takes the least of what stands first in both into `next`. `None` only where there is nothing.
#[inline]
fn take_first<B: Ord + Copy, S: Source<B>>(
    initial: &mut Initial<B, S>,
    now: &mut Slice<B>,
    next: &mut Option<Event<B>>,
)
    ensures taken { IsTakenFromOne initial.old now.old next.new initial.new now.new }
    ensures least { IfSome next.new (λ e. All (AtMost (event_cmp B.cmp) e) initial.old
        × All (AtMost (event_cmp B.cmp) e) now.old) }
    ensures none { IfNone next.new ((initial.old ≡ []) × (now.old ≡ [])) }
{
    if is_initial_next(initial.first(), now.first()) {
        initial.pop(next);
    } else {
        now.pop(next);
    }
}

/// Whether the next event is the first of the initial ones, and not the first of those that were sent.
#[inline(always)]
fn is_initial_next<B: Ord + Copy>(initial: Option<&Event<B>>, sent: Option<&Event<B>>) -> bool
    ensures some { IsTrue result → IsSome initial.entry }
    ensures only { IsNone sent.entry → IsSome initial.entry → IsTrue result }
    ensures lesser { IfSome initial.entry
        (λ i. IfSome sent.entry (λ s. IsTrue result → AtMost (event_cmp B.cmp) i.now s.now)) }
    ensures greater { IfSome initial.entry
        (λ i. IfSome sent.entry (λ s. result ≡ false → AtMost (event_cmp B.cmp) s.now i.now)) }
{
    match (initial, sent) {
        (Some(initial), Some(sent)) => initial.time <= sent.time && initial <= sent,
        (initial, _) => initial.is_some(),
    }
}

/// The time of an event, or else this one.
#[inline]
fn time_or<B: Copy>(event: &Option<Event<B>>, time: u64) -> u64
    ensures { result ≡ time_or event.now time }
{
    match event {
        Some(event) => event.time,
        None => time,
    }
}

/// Puts events into `later`. Where memory is refused, it has some of them.
#[inline(always)]
fn put_all<B: Ord + Copy>(later: &mut Later<B>, events: &[Event<B>]) -> Result<(), AllocError>
    ensures added { OnOk result (IsPermutation (later.old ++ events.now) later.new) }
    ensures some { OnErr result
        ((n : Count) × IsPermutation (later.old ++ take n events.now) later.new) }
{
    for event in events {
        later.put(event)?;
    }
    Ok(())
}

/// Moves all events that were sent to the end of `taken`. Where memory is refused, some events are lost.
fn move_sent<B: Ord + Copy>(
    now: &mut Slice<B>,
    later: &mut Later<B>,
    taken: &mut Vec<Event<B>>,
) -> Result<(), AllocError>
    ensures none { OnOk result ((now.new ≡ []) × (later.new ≡ [])) }
    ensures moved { OnOk result
        (IsPermutation (taken.old.items ++ (now.old ++ later.old)) taken.new.items) }
    ensures around { (t : Time) (initial : List (Event B)) → AreAround t initial now.old later.old
        → AreAround t initial now.new later.new }
{
    now.move_to(taken)?;
    later.move_to(taken)
}

/// Puts events where nothing is: those of time 0 into `start`, and the others into `later`. Where memory is refused, some
/// events are lost.
fn put_apart<B: Ord + Copy>(
    events: &[Event<B>],
    start: &mut Vec<Event<B>>,
    later: &mut Later<B>,
) -> Result<(), AllocError>
    requires none { (start.old.items ≡ []) × (later.old ≡ []) }
    ensures put { OnOk result (IsPermutation events.now (start.new.items ++ later.new)) }
    ensures start { OnOk result (All (λ e. e.time ≡ 0) start.new.items) }
    ensures later { All (λ e. 0 < e.time) later.new }
{
    for event in events {
        if event.time == 0 {
            start.push(*event)?;
        } else {
            later.put(event)?;
        }
    }
    Ok(())
}

/// Moves as many initial events as `count` says to the end of `taken`, with all others of the last one's time, or of time 0
/// where that is none; or all where there are fewer. Where memory is refused, some events are lost.
fn move_first<B: Ord + Copy, S: Source<B>>(
    initial: &mut Initial<B, S>,
    count: usize,
    taken: &mut Vec<Event<B>>,
) -> Result<(), AllocError>
    ensures moved { OnOk result
        (HasMovedOn initial.old initial.new taken.old.items taken.new.items) }
    ensures enough { OnOk result
        (length taken.new.items < length taken.old.items + count → initial.new ≡ []) }
{
    let mut next = None;
    let mut missing = count;
    let mut last = 0;
    while missing > 0 || is_time(time_of(initial.first()), last) {
        initial.pop(&mut next);
        let Some(event) = &next else {
            return Ok(());
        };
        taken.push(*event)?;
        last = event.time;
        missing = missing.saturating_sub(1);
    }
    Ok(())
}

/// Puts all initial events into `later`. Where memory is refused, some are lost.
fn put_rest<B: Ord + Copy, S: Source<B>>(
    initial: &mut Initial<B, S>,
    later: &mut Later<B>,
) -> Result<(), AllocError>
    ensures none { OnOk result (initial.new ≡ []) }
    ensures added { OnOk result (IsPermutation (initial.old ++ later.old) later.new) }
    ensures around { (t : Time) (now : List (Event B)) → All (λ e. t < e.time) initial.old
        → AreAround t initial.old now later.old → AreAround t initial.new now later.new }
{
    let mut next = None;
    'events: loop {
        initial.pop(&mut next);
        let Some(event) = &next else {
            return Ok(());
        };
        later.put(event)?;
    }
}

/// Moves all initial events to the end of `taken`. Where memory is refused, some are lost.
fn move_rest<B: Ord + Copy, S: Source<B>>(
    initial: &mut Initial<B, S>,
    taken: &mut Vec<Event<B>>,
) -> Result<(), AllocError>
    ensures { OnOk result (taken.new.items ≡ taken.old.items ++ initial.old) }
{
    let mut next = None;
    'events: loop {
        initial.pop(&mut next);
        let Some(event) = &next else {
            return Ok(());
        };
        taken.push(*event)?;
    }
}
