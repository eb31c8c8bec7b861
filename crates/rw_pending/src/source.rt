ghost use Rattle.std.specs.Prelude.{◌≡◌, ◌++◌, [], All, IfNone, IfSome, List, option_to_list};
ghost use Rattle.rw_vt.specs.Order.{event_cmp, AtMost};
ghost use Rattle.rw_vt.specs.declared.event.Event.{Event};

use rw_vt::Event;

/// Where the initial events of a run come from. They are given one by one, the least first.
///
/// So they need not be there all at once: a source may make each event when it is asked for it.
pub trait Source<B: Ord + Copy>: Drop {
    /// The events that are left, in the order in which they are given.
    ghost left: { Self → List (Event B) };

    /// Gives the next event, which is at most all those that are then left. `None` only where none is left.
    fn next(&mut self) -> Option<Event<B>>
        ensures given { left self.old ≡ option_to_list result ++ left self.new }
        ensures least { IfSome result (λ e. All (AtMost (event_cmp B.cmp) e) (left self.new)) }
        ensures none { IfNone result (left self.old ≡ []) };
}
