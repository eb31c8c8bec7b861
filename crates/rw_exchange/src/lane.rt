//! One end of a ring, or none: a worker has no ring to itself.
ghost use Rattle.std.specs.Prelude.{◌≡◌, ◌+◌, ◌≤◌, ◌<◌, [], ◌∷◌, ◌++◌, length, map, IsSome, IsOk, IfErr, OnErr, OnOk, IfSome, IfNone};
ghost use Rattle.rw_vt.specs.Words.{Count};
ghost use Rattle.rw_exchange.specs.Rings.{out_ring, in_ring, in_rings, out_sent, out_free, in_received, HasCapacity};

use rtrb::{Consumer, Producer, Protocol, PushError};
use std::alloc::Global;

// Puts a item into the ring, or hands it back where no slot of the ring is known to be free.
pub(crate) fn push<T: Drop, P: Protocol<T>>(
    lane: &mut Option<Producer<T, Global, P>>,
    item: T,
) -> Result<(), T>
    requires there { IsSome lane.old }
    requires allowed { P.allows (out_sent lane.old) item }
    ensures ring { out_ring lane.new ≡ out_ring lane.old }
    ensures ok { OnOk result (out_sent lane.new ≡ out_sent lane.old ++ item ∷ []) }
    ensures err { IfErr result (λ x. (x ≡ item) × (out_sent lane.new ≡ out_sent lane.old)) }
    ensures free { OnOk result (out_free lane.old ≤ out_free lane.new + 1) }
    ensures full { OnErr result ((out_free lane.old ≡ 0) × (out_free lane.new ≡ 0)) }
    ensures known { 0 < out_free lane.old → IsOk result }
    ensures capacity { (n : Count) → HasCapacity n lane.old → HasCapacity n lane.new }
    ensures succeeds { (n : Count)
        → HasCapacity n lane.old
        → length (out_sent lane.old) < n
        → IsOk result }
{
    match lane {
        Some(producer) => match producer.push(item) {
            Ok(()) => Ok(()),
            Err(PushError::Full(back)) => Err(back),
        },
        None => unreachable!(),
    }
}

// Takes the next item out of the ring, where one is seen.
pub(crate) fn pop<T: Drop, P: Protocol<T>>(lane: &mut Option<Consumer<T, Global, P>>) -> Option<T>
    requires { IsSome lane.old }
    ensures ring { in_ring lane.new ≡ in_ring lane.old }
    ensures some { IfSome result (λ x. in_received lane.new ≡ in_received lane.old ++ x ∷ []) }
    ensures allowed { IfSome result (P.allows (in_received lane.old)) }
    ensures none { IfNone result (in_received lane.new ≡ in_received lane.old) }
{
    match lane {
        Some(consumer) => consumer.pop().ok(),
        None => unreachable!(),
    }
}

// Whether the end where items go in was dropped. No clause speaks of the answer.
fn is_abandoned<T: Drop, P: Protocol<T>>(lane: &mut Option<Consumer<T, Global, P>>) -> bool
    ensures ring { in_ring lane.new ≡ in_ring lane.old }
    ensures received { in_received lane.new ≡ in_received lane.old }
{
    match lane {
        Some(consumer) => consumer.is_abandoned(),
        None => false,
    }
}

// Whether that end of any of the rings was dropped. No clause speaks of the answer.
pub(crate) fn is_any_abandoned<T: Drop, P: Protocol<T>>(
    lanes: &mut Vec<Option<Consumer<T, Global, P>>>,
) -> bool
    ensures rings { in_rings lanes.new.items ≡ in_rings lanes.old.items }
    ensures received { map in_received lanes.new.items ≡ map in_received lanes.old.items }
{
    for lane in lanes.iter_mut() {
        if is_abandoned(lane) {
            return true;
        }
    }
    false
}
