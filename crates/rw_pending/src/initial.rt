ghost use Rattle.std.specs.Prelude.{◌≡◌, ◌++◌, [], All, IfNone, IfSome, option_copied, option_map, option_to_list, slice_get};
ghost use Rattle.rw_vt.specs.Order.{event_cmp, AtMost};
ghost use Rattle.rw_pending.specs.Later.{IsLeastOr, never, or_else};

use crate::source::Source;
use crate::times::{or_never, time_of};
use rw_vt::Event;
use std::marker::Model;

/// What is left of the initial events: a source, whose next event stands before it to be looked at. Contracts see them as a
/// list in order.
///
/// So an engine that goes on with a run may take from it the events before some time, and leave the others where they are.
#[derive(Drop)]
pub struct Initial<B: Ord + Copy, S: Source<B>> {
    first: Option<Event<B>>,
    others: S,
}

impl<B: Ord + Copy, S: Source<B>> Model for Initial<B, S> {
    ghost use Rattle.std.specs.Prelude.{◌++◌, List, option_to_list};
    ghost use Rattle.rw_vt.specs.declared.event.Event.{Event};
    ghost use Rattle.rw_pending.specs.Pending.{StandsBefore};

    ghost Value = { List (Event B) };

    ghost view = { λ i. option_to_list i.first ++ S.left i.others };

    ghost invariant = { λ i. StandsBefore B.cmp i.first (S.left i.others) };
}

impl<B: Ord + Copy, S: Source<B>> Initial<B, S> {
    /// The events of a source.
    pub fn new(source: S) -> Self
        ensures { result ≡ S.left source }
    {
        let mut others = source;
        Initial {
            first: others.next(),
            others,
        }
    }

    /// The time of the first event, which is the least, or [`NEVER`] where none is left.
    #[inline]
    pub fn least(&self) -> u64
        ensures least { IsLeastOr never self.now result }
        ensures first { result ≡ or_else never (option_map (λ e. e.time) (slice_get self.now 0)) }
    {
        or_never(time_of(self.first()))
    }

    /// The first event, which is a least one. `None` only where none is left.
    #[inline]
    pub fn first(&self) -> Option<&Event<B>>
        ensures first { option_copied result ≡ slice_get self.now 0 }
        ensures least { IfSome result (λ e. All (AtMost (event_cmp B.cmp) e.now) self.now) }
    {
        self.first.as_ref()
    }

    /// Takes the first event, which is a least one, into `next`. `None` only where none is left.
    #[inline]
    pub fn pop(&mut self, next: &mut Option<Event<B>>)
        ensures taken { self.old ≡ option_to_list next.new ++ self.new }
        ensures least { IfSome next.new (λ e. All (AtMost (event_cmp B.cmp) e) self.old) }
        ensures none { IfNone next.new (self.old ≡ []) }
    {
        *next = self.first;
        self.first = self.others.next();
    }
}
