// Passengers of a bus stop.
ghost use Rattle.std.specs.Prelude.{◌≡◌, true, IfOk};
ghost use Rattle.rw_vt.specs.System.{IsReady};
ghost use Rattle.rw_relay.specs.Notes.{is_sound_note};
ghost use Rattle.rw_relay.specs.declared.stop.Stop.{Stop};
ghost use Rattle.rw_relay.specs.contracts.stop.StopVtModel.TheImpl as model;

use rw_relay::{Note, Seen};
use rw_vt::Event;
use std::alloc::Global;
use std::test::Fail;

/// When the bus is due.
pub const DUE: u64 = 20;

/// A passenger who comes to the stop.
pub fn passenger(time: u64, number: u64) -> Event<Note>
    ensures { result ≡ record {
      time = time;
      source = 0;
      number = number;
      to = 0;
      body = record { people = 1 };
    } }
{
    Event {
        time,
        source: 0,
        number,
        to: 0,
        body: Note { people: 1 },
    }
}

/// The stop and the bus before anyone comes, and three passengers.
pub fn three_to_come(alloc: Global) -> Result<(Vec<Seen>, Vec<Event<Note>>), Fail>
    ensures ready { IfOk result (λ r. (m : Stop) → IsReady model.ghosts m r.0.items r.1.items) }
{
    let starts = Vec::from_array(alloc, [Seen { events: 0 }, Seen { events: 0 }])?;
    let initial = Vec::from_array(alloc, [passenger(5, 0), passenger(8, 1), passenger(9, 2)])?;
    Ok((starts, initial))
}
