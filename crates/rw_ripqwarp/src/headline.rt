ghost use Rattle.std.specs.Prelude.{◌≡◌, ◌+◌, ◌<◌, Err, IfOk, OnOk, true};
ghost use Rattle.rw_photo.specs.Cache.{IsWellFormed, is_exhausted};
ghost use Rattle.rw_photo.specs.Events.{is_valid, step};
ghost use Rattle.rw_ripqwarp.specs.Headline.{AnySchedule, TraceHasOneReport};

use rw_photo::{Body, CacheState, Event, Photo, Refusal};
use rw_world::every_schedule;
use std::alloc::Global;

/// Executes an event at a cache and reverses it: the cache is then in the very state from before (reverse computation: Carothers,
/// Perumalla and Fujimoto 1999).
///
/// `cache` is number `process` of the configuration, an edge or, behind these, an origin. It may be in any well-formed state, reached
/// or not: the whole of it comes back, its shape, rows, sections in order, every serial, the awaited objects, sends and counters.
/// Returns what the event sent, in order; nothing of it is cancelled here.
///
/// # Errors
///
/// `Exhausted` only where the cache can take no further event, and `Memory` only where memory was refused. Drop the cache then: its
/// state is not specified.
pub fn execute_and_reverse(
    alloc: Global,
    photo: &Photo,
    process: u32,
    cache: &mut CacheState,
    event: &Event<Body>,
) -> Result<Vec<Event<Body>>, Refusal>
    requires process { process < photo.now.config.edges + photo.now.config.origins }
    requires well_formed { IsWellFormed photo.now.config process cache.old }
    requires valid { is_valid photo.now.config event.now ≡ true }
    requires here { event.now.to ≡ process }
    ensures back { OnOk result (cache.new ≡ cache.old) }
    ensures sends { IfOk result (λ sent.
        sent.items ≡ (step photo.now.config process cache.old event.now).1) }
    ensures exhausted { result ≡ Err Refusal.Exhausted → is_exhausted cache.old ≡ true }
{
    rw_vt::execute_and_reverse(alloc, photo, process, cache, event)
}

/// In every configuration of the caches, after any steps of a schedule, refused ones included, what is committed is what executing
/// all events in order of time would have done (Jefferson 1985).
///
/// This states a law of the definitions; the call itself does nothing. [`rw_world::World::run_steps`] makes the steps, for
/// [`simulate`](crate::simulate) in mode `Journal`.
pub fn any_schedule()
    ensures { AnySchedule }
{
    every_schedule::<Photo>();
}

/// A trace has one report under a configuration. So the report that [`simulate`](crate::simulate) writes of a run on many threads is,
/// byte for byte, the report that it writes of the run on one.
///
/// This states a law of the definitions; the call itself does nothing.
pub fn one_report()
    ensures { TraceHasOneReport }
{}
