//! Parcels and stations, written short, for examples.
ghost use Rattle.std.specs.Prelude.{◌≡◌, true, IfOk, IfSome};
ghost use Rattle.rw_vt.specs.System.{IsReady};
ghost use Rattle.rw_relay.specs.Parcels.{is_sound_event};
ghost use Rattle.rw_relay.specs.declared.Relay.{Relay};
ghost use Rattle.rw_relay.specs.contracts.RelayVtModel.TheImpl as model;

use crate::{Parcel, Station};
use rw_vt::Event;
use std::alloc::{AllocError, Global};

/// A parcel on its way to a station: from outside (source 0), from station 0 (source 1) or from station 1 (source 2).
pub fn parcel(time: u64, source: u32, number: u64, to: u32, hops: u32) -> Event<Parcel>
    ensures { result ≡ record {
      time = time;
      source = source;
      number = number;
      to = to;
      body = record { hops = hops };
    } }
{
    Event {
        time,
        source,
        number,
        to,
        body: Parcel { hops },
    }
}

/// A station that keeps these.
pub fn station(sum: u64, last: u32, sends: u64) -> Station
    ensures { result ≡ record { sum = sum; last = last; sends = sends } }
{
    Station { sum, last, sends }
}

/// Two stations to which nothing has come yet, and the parcels that are to come.
pub fn beginning(
    alloc: Global,
    first: Event<Parcel>,
    second: Event<Parcel>,
) -> Result<(Vec<Station>, Vec<Event<Parcel>>), AllocError>
    requires first { is_sound_event first ≡ true }
    requires second { is_sound_event second ≡ true }
    ensures ready { IfOk result (λ r. (m : Relay) → IsReady model.ghosts m r.0.items r.1.items) }
{
    let starts = Vec::from_array(alloc, [station(0, 0, 0), station(0, 0, 0)])?;
    let initial = Vec::from_array(alloc, [first, second])?;
    Ok((starts, initial))
}
