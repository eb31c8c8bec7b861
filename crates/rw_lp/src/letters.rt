ghost use Rattle.std.specs.Prelude.{◌≡◌, ◌++◌, OnOk};
ghost use Rattle.rw_vt.specs.Letters.{letters_of};

use rw_vt::{Event, Letter};
use std::alloc::AllocError;

/// Appends a message, or an anti-message, of each event, in order.
pub fn give<B: Copy>(
    out: &mut Vec<Letter<B>>,
    events: &[Event<B>],
    anti: bool,
) -> Result<(), AllocError>
    ensures given { OnOk result (out.new.items ≡ out.old.items ++ letters_of anti events.now) }
{
    for event in events {
        out.push(Letter {
            event: *event,
            anti,
        })?;
    }
    Ok(())
}
