// The ports of two workers.
ghost use Rattle.std.specs.Prelude.{◌≡◌, ◌≤◌, [], ◌∷◌, IfOk};
ghost use Rattle.rw_exchange.specs.Ports.{IsNew, IsWide, StayAnOpening};

use rw_exchange::{Port, Protocol, open};
use std::alloc::Global;
use std::test::Fail;

/// The ports of two workers, with rings of so many slots.
pub(crate) fn two_ports<T: Drop, P: Protocol<T>>(
    alloc: Global,
    slots: usize,
) -> Result<(Port<T, P>, Port<T, P>), Fail>
    requires slots { (1 ≤ slots) × (slots ≤ 4096) }
    ensures numbers { IfOk result (λ r. (r.0.worker ≡ 0) × (r.1.worker ≡ 1)) }
    ensures wide { IfOk result (λ r. IsWide 2 r.0 × IsWide 2 r.1) }
    ensures new { IfOk result (λ r. IsNew r.0) }
    ensures opening { IfOk result (λ r. StayAnOpening (r.0 ∷ r.1 ∷ [])) }
{
    let mut ports = open(alloc, 2, slots)?;
    let second = ports.remove(1);
    let first = ports.remove(0);
    Ok((first, second))
}
