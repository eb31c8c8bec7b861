ghost use Rattle.std.specs.Prelude.{◌≡◌, ◌^◌, map};
ghost use Rattle.rw_vt.specs.Limits.{end_of_time};
ghost use Rattle.rw_lp.specs.Calls.{least_of_processes};

use crate::lp::Lp;
use rw_vt::{END, Model as VtModel};

/// The least time of the pending events, debts and held messages of `processes`, in ticks, or the end of time. Takes no
/// memory.
pub fn least_of_processes<M: VtModel>(processes: &[Lp<M>]) -> u64
    ensures { result ≡ least_of_processes end_of_time (map (λ l. l.process) processes.now) }
{
    let mut least = END;
    for process in processes {
        least = least.min(process.least());
    }
    least
}
