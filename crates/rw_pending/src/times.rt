ghost use Rattle.std.specs.Prelude.{◌≡◌, ◌<◌, ◌≤◌, ◌↔◌, false, IfNone, IfSome, IsTrue, Some, option_copied, option_map};
ghost use Rattle.rw_pending.specs.Later.{earlier_of, never, or_else};

use rw_vt::Event;

/// Stands for the time of no event. No event is later.
pub const NEVER: u64 = u64::MAX;

/// The time of an event, where there is one.
#[inline(always)]
pub fn time_of<B: Copy>(event: Option<&Event<B>>) -> Option<u64>
    ensures { result ≡ option_map (λ e. e.time) (option_copied event.entry) }
{
    match event {
        Some(event) => Some(event.time),
        None => None,
    }
}

/// Whether there is a time, and it is this one.
#[inline(always)]
pub fn is_time(found: Option<u64>, time: u64) -> bool
    ensures { IsTrue result ↔ (found ≡ Some time) }
{
    match found {
        Some(found) => found == time,
        None => false,
    }
}

/// The earlier of two times, where there are any.
#[inline]
pub fn earlier(first: Option<u64>, second: Option<u64>) -> Option<u64>
    ensures { result ≡ earlier_of first second }
{
    match (first, second) {
        (Some(first), Some(second)) => Some(if first <= second { first } else { second }),
        (Some(first), None) => Some(first),
        (None, second) => second,
    }
}

/// A time, or [`NEVER`] where there is none.
#[inline(always)]
pub fn or_never(found: Option<u64>) -> u64
    ensures value { result ≡ or_else never found }
    ensures within { result ≤ never }
{
    match found {
        Some(found) => found,
        None => NEVER,
    }
}
