ghost use Rattle.std.specs.Prelude.{◌≡◌, ◌≤◌, ◌++◌, take, drop, vec_len};
ghost use Rattle.rw_models.specs.Until.{events_before};

use rw_vt::Event;

/// Drops the events that are not before the end, in ticks, of those from place `from` on. The others keep their order.
/// Takes no memory.
pub(crate) fn drop_late<B: Copy>(events: &mut Vec<Event<B>>, from: usize, end: u64)
    requires { from ≤ vec_len events.old }
    ensures { events.new.items
        ≡ take from events.old.items ++ events_before end (drop from events.old.items) }
{
    let mut kept = from;
    for at in from..events.len() {
        let event = events[at];
        if event.time < end {
            events[kept] = event;
            kept += 1;
        }
    }
    events.truncate(kept);
}
