ghost use Rattle.std.specs.Prelude.{◌≡◌, IfErr, IfNone, IfSome, OnOk};
ghost use Rattle.rw_exchange.specs.Ports.{IsOther, SamePort};
ghost use Rattle.rw_exchange.specs.Ports.{after_receiving, after_sending, free_to, received_from, sent_to};

use crate::parkers::Parkers;
use rw_exchange::{Port, Protocol};
use std::sync::Wait;
use std::thread;

/// How often a ring is looked at before the worker sleeps, which takes several microseconds: about as long.
const TRIES: u32 = 128;

/// Sends an item to another worker and rings there; while the ring has no room it waits. The item comes back where another
/// worker is gone.
pub(crate) fn send_waiting<T: Drop, P: Protocol<T>, R: Wait>(
    rt: &R,
    port: &mut Port<T, P>,
    parkers: &Parkers,
    to: usize,
    item: T,
) -> Result<(), T>
    requires other { IsOther port.old to }
    requires allowed { P.allows (sent_to port.old to) item }
    ensures ok { OnOk result (port.new ≡ after_sending port.old to item (free_to port.new to)) }
    ensures err { IfErr result (λ back. (back ≡ item) × (port.new ≡ port.old)) }
    ensures same { SamePort port.old port.new }
{
    let mut item = item;
    for _ in rt.forever() {
        match port.send(to, item) {
            Ok(()) => {
                parkers.unpark(rt, to);
                return Ok(());
            }
            Err(back) => item = back,
        }
        if port.is_deserted() {
            return Err(item);
        }
        thread::yield_now();
    }
    unreachable!()
}

/// The next item from another worker, for which it waits, after a while asleep: the processor may be wanted by others, maybe by
/// the very one that it waits for. `None` where another worker is gone.
pub(crate) fn receive_waiting<T: Drop, P: Protocol<T>, R: Wait>(
    rt: &R,
    port: &mut Port<T, P>,
    parkers: &Parkers,
    from: usize,
) -> Option<T>
    requires other { IsOther port.old from }
    ensures some { IfSome result (λ item. port.new ≡ after_receiving port.old from item) }
    ensures allowed { IfSome result (λ item. P.allows (received_from port.old from) item) }
    ensures none { IfNone result (port.new ≡ port.old) }
    ensures same { SamePort port.old port.new }
{
    let mut tries = 0;
    for _ in rt.forever() {
        if let Some(item) = port.receive(from) {
            return Some(item);
        }
        if tries < TRIES {
            tries += 1;
            std::hint::spin_loop();
            continue;
        }
        if port.is_deserted() {
            return None;
        }
        parkers.park(rt, from);
    }
    unreachable!()
}
