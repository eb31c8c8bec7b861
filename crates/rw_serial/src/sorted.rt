ghost use Rattle.std.specs.Prelude.{IfOk, IsPermutation};

use rw_pending::Source;
use rw_vt::Event;
use std::alloc::AllocError;
use std::collections::VecDeque;
use std::marker::Model;

/// Events that are there all at once, in order.
#[derive(Drop)]
pub struct Sorted<B: Ord + Copy> {
    events: VecDeque<Event<B>>,
}

impl<B: Ord + Copy> Model for Sorted<B> {
    ghost use Rattle.std.specs.Prelude.{List};
    ghost use Rattle.std.specs.List.Sorted.{IsSorted};
    ghost use Rattle.rw_vt.specs.declared.event.Event.{Event};
    ghost use Rattle.rw_vt.specs.Order.{event_cmp};

    ghost Value = { List (Event B) };

    ghost view = { λ s. s.events.items };

    ghost invariant = { λ s. IsSorted (event_cmp B.cmp) s.events.items };
}

impl<B: Ord + Copy> Sorted<B> {
    /// These events, which it sorts: in linear time where they are sorted already.
    pub fn new(mut events: Vec<Event<B>>) -> Result<Sorted<B>, AllocError>
        ensures { IfOk result (IsPermutation events.items) }
    {
        events.sort()?;
        Ok(Sorted {
            events: VecDeque::from(events),
        })
    }
}

impl<B: Ord + Copy> Source<B> for Sorted<B> {
    ghost left = { λ s. s };

    fn next(&mut self) -> Option<Event<B>> {
        self.events.pop_front()
    }
}
