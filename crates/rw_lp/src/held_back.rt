ghost use Rattle.std.specs.Prelude.{◌≡◌, ◌≤◌, ◌<◌, ◌+◌, ◌++◌, ◌∷◌, List, [], IfOk, OnOk, IsTrue, MatchOption, length, slice_range, take, drop, true, false, All};
ghost use Rattle.std.specs.List.{remove};
ghost use Rattle.rw_vt.specs.Order.{event_cmp, copies, AtMost};
ghost use Rattle.rw_vt.specs.Letters.{letters_of};
ghost use Rattle.rw_vt.specs.declared.event.Event.{Event};
ghost use Rattle.rw_lp.specs.declared.held.Held.{Held};
ghost use Rattle.rw_lp.specs.HeldMessages.{held_messages, held_of, holds, held_without_first, unheld_sends, held_with, held_without};
ghost use Rattle.rw_lp.specs.HeldBack.{AreFalling, AreCounted, IsRunOf, letters_given, held_after};

use crate::held::Held;
use crate::letters::give;
use crate::sends::{Kept, Sends};
use rw_bag::CountedBag;
use rw_vt::{Event, Letter, Model as VtModel};
use std::alloc::{AllocError, Global};
use std::marker::Model;

/// What events that were undone lazily had sent, and what is neither sent again nor cancelled yet. Contracts see the pairs
/// in the order in which they came.
///
/// Their undone events fall, so the pairs of one event stand side by side and are found by halves: those of the least,
/// which is executed next, stand last. The messages are counted, so a send that is not held costs one search.
pub struct HeldBack<M: VtModel> {
    pairs: Vec<Held<M::Body>>,
    /// Their messages.
    messages: CountedBag<M>,
}

// By hand, so that it is proved here, and not in each crate above whose values have one.
impl<M: VtModel> Drop for HeldBack<M> {
    fn drop(self) {
        let HeldBack {
            pairs: _,
            messages: _,
        } = self;
    }
}

impl<M: VtModel> Model for HeldBack<M> {
    ghost Value = { List (Held M.Body) };

    ghost view = { λ x. x.pairs.items };

    ghost invariant = { λ x. AreFalling (event_cmp M.Body.cmp) x.pairs.items
        × AreCounted (event_cmp M.Body.cmp) x.messages (held_messages x.pairs.items) };
}

impl<M: VtModel> HeldBack<M> {
    /// Nothing is held. Takes no memory.
    pub fn new(alloc: Global) -> HeldBack<M>
        ensures { result ≡ [] }
    {
        HeldBack {
            pairs: Vec::new(alloc),
            messages: CountedBag::new(alloc),
        }
    }

    /// Whether nothing is held. Takes no memory.
    pub fn is_empty(&self) -> bool
        ensures { IsTrue result → self.now ≡ [] }
    {
        self.pairs.is_empty()
    }

    /// Holds what an undone event had sent. No held message is of a lesser event.
    pub fn hold(&mut self, event: Event<M::Body>, sends: Sends<M::Body>) -> Result<(), AllocError>
        requires last { All (λ h. AtMost (event_cmp M.Body.cmp) event h.undone) self.old }
        ensures held { OnOk result (self.new ≡ self.old ++ held_of event sends) }
    {
        match sends.into_kept() {
            Kept::Nothing => Ok(()),
            Kept::One(message) => self.hold_one(event, message),
            Kept::Many(messages) => self.hold_all(event, messages.as_slice()),
        }
    }

    /// Holds one message after another.
    fn hold_all(
        &mut self,
        event: Event<M::Body>,
        messages: &[Event<M::Body>],
    ) -> Result<(), AllocError>
        requires last { All (λ h. AtMost (event_cmp M.Body.cmp) event h.undone) self.old }
        ensures held { OnOk result (self.new ≡ self.old ++ held_of event messages.now) }
    {
        for message in messages {
            self.hold_one(event, *message)?;
        }
        Ok(())
    }

    /// Holds one message, unless memory is refused.
    fn hold_one(&mut self, event: Event<M::Body>, message: Event<M::Body>) -> Result<(), AllocError>
        requires last { All (λ h. AtMost (event_cmp M.Body.cmp) event h.undone) self.old }
        ensures held { OnOk result (self.new ≡ self.old ++ held_of event (message ∷ [])) }
    {
        let count = self.pairs.len();
        self.pairs.push(Held {
            undone: event,
            message,
        })?;
        if let Err(refused) = self.messages.put(message) {
            self.pairs.truncate(count);
            return Err(refused);
        }
        Ok(())
    }

    /// An event was executed, which may have been undone before. Appends messages of its sends to `out`, but for those that are
    /// held, which are let go; and then anti-messages of what is still held with it. With nothing held that is one test.
    pub fn resend(
        &mut self,
        event: Event<M::Body>,
        sends: &[Event<M::Body>],
        out: &mut Vec<Letter<M::Body>>,
    ) -> Result<(), AllocError>
        ensures out { OnOk result (out.new.items ≡ out.old.items
            ++ letters_given (event_cmp M.Body.cmp) event sends.now self.old) }
        ensures left { OnOk result
            (self.new ≡ held_after (event_cmp M.Body.cmp) event sends.now self.old) }
    {
        if self.is_empty() {
            return give(out, sends, false);
        }
        for send in sends {
            if !self.release(*send) {
                out.push(Letter {
                    event: *send,
                    anti: false,
                })?;
            }
        }
        self.cancel(event, out)
    }

    /// Appends anti-messages of what is held with the event to `out`, and lets it go.
    pub fn cancel(
        &mut self,
        event: Event<M::Body>,
        out: &mut Vec<Letter<M::Body>>,
    ) -> Result<(), AllocError>
        ensures out { OnOk result (out.new.items ≡ out.old.items
            ++ letters_of true (held_with (event_cmp M.Body.cmp) event self.old)) }
        ensures left { OnOk result
            (self.new ≡ held_without (event_cmp M.Body.cmp) event self.old) }
    {
        let (from, behind) = Self::run_of(self.pairs.as_slice(), event);
        let run = &self.pairs[from..behind];
        give_antis(out, run)?;
        forget(&mut self.messages, run);
        drop_between(&mut self.pairs, from, behind);
        Ok(())
    }

    /// Appends the messages.
    pub fn give_to(&self, out: &mut Vec<Event<M::Body>>) -> Result<(), AllocError>
        ensures { OnOk result (out.new.items ≡ out.old.items ++ held_messages self.now) }
    {
        let pairs = self.pairs.as_slice();
        for pair in pairs {
            out.push(pair.message)?;
        }
        Ok(())
    }

    /// Lets the first pair with this message go, and answers whether there was one.
    fn release(&mut self, message: Event<M::Body>) -> bool
        ensures there { result ≡ holds (event_cmp M.Body.cmp) message self.old }
        ensures rest { IsTrue result
            → self.new ≡ held_without_first (event_cmp M.Body.cmp) message self.old }
        ensures kept { result ≡ false → self.new ≡ self.old }
    {
        if !self.messages.take(message) {
            return false;
        }
        let is_alone = self.messages.copies(&message) == 0;
        let Some(at) = place_of(self.pairs.as_slice(), &message, is_alone) else {
            unreachable!();
        };
        let _released = self.pairs.remove(at);
        true
    }

    /// Where the pairs of the event begin and end. By halves.
    fn run_of(pairs: &[Held<M::Body>], event: Event<M::Body>) -> (usize, usize)
        requires falling { AreFalling (event_cmp M.Body.cmp) pairs.now }
        ensures { IsRunOf (event_cmp M.Body.cmp) event pairs.now result.0 result.1 }
    {
        let from = pairs.partition_point(|pair| pair.undone.cmp(&event).is_gt());
        let behind = pairs.partition_point(|pair| pair.undone.cmp(&event).is_ge());
        (from, behind)
    }
}

/// Where the first pair with this message stands, if there is one. From the end, where the message is held once.
fn place_of<B: Ord + Copy>(pairs: &[Held<B>], message: &Event<B>, is_alone: bool) -> Option<usize>
    requires alone { IsTrue is_alone
        → copies (event_cmp B.cmp) message.now (held_messages pairs.now) ≤ 1 }
    ensures { MatchOption result (holds (event_cmp B.cmp) message.now pairs.now ≡ false)
        (λ at. (at < length pairs.now)
        × (remove pairs.now at ≡ held_without_first (event_cmp B.cmp) message.now pairs.now)) }
{
    if is_alone {
        return last_place_of(pairs, message);
    }
    for (at, pair) in pairs.iter().enumerate() {
        if message.cmp(&pair.message).is_eq() {
            return Some(at);
        }
    }
    None
}

/// Where the only pair with this message stands, if there is one.
fn last_place_of<B: Ord + Copy>(pairs: &[Held<B>], message: &Event<B>) -> Option<usize>
    requires alone { copies (event_cmp B.cmp) message.now (held_messages pairs.now) ≤ 1 }
    ensures { MatchOption result (holds (event_cmp B.cmp) message.now pairs.now ≡ false)
        (λ at. (at < length pairs.now)
        × (remove pairs.now at ≡ held_without_first (event_cmp B.cmp) message.now pairs.now)) }
{
    for at in (0..pairs.len()).rev() {
        if message.cmp(&pairs[at].message).is_eq() {
            return Some(at);
        }
    }
    None
}

/// Appends anti-messages of the messages.
fn give_antis<B: Copy>(out: &mut Vec<Letter<B>>, pairs: &[Held<B>]) -> Result<(), AllocError>
    ensures given { OnOk result
        (out.new.items ≡ out.old.items ++ letters_of true (held_messages pairs.now)) }
{
    for pair in pairs {
        out.push(Letter {
            event: pair.message,
            anti: true,
        })?;
    }
    Ok(())
}

/// Takes the messages of the pairs out, where all are in.
fn forget<M: VtModel>(messages: &mut CountedBag<M>, pairs: &[Held<M::Body>])
    requires there { (m : Event M.Body) →
        copies (event_cmp M.Body.cmp) m (held_messages pairs.now)
        ≤ copies (event_cmp M.Body.cmp) m messages.old }
    ensures less { (m : Event M.Body) →
        copies (event_cmp M.Body.cmp) m messages.new
        + copies (event_cmp M.Body.cmp) m (held_messages pairs.now)
        ≡ copies (event_cmp M.Body.cmp) m messages.old }
{
    for pair in pairs {
        let _taken = messages.take(pair.message);
    }
}

/// Drops the values from one place on and before another one.
fn drop_between<T: Drop>(values: &mut Vec<T>, from: usize, behind: usize)
    requires { (from ≤ behind) × (behind ≤ length values.old.items) }
    ensures { values.new.items ≡ take from values.old.items ++ drop behind values.old.items }
{
    drop(values.drain(from..behind));
}
