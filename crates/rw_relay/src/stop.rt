// A stop that calls its bus: equal messages, and messages that tell how many came before.
ghost use Rattle.std.specs.Prelude.{◌≡◌, ◌<◌, ◌^◌, ◌+◌, IsSome, IfSome, ◌↔◌};

use rw_vt::{END, Event, Model as VtModel, NoMemory, Refusal};
use std::alloc::Global;

/// A bus stop, process 0, and its bus, process 1. Each passenger who comes to the stop before the bus is due makes it send two
/// messages: a call, the very same for each passenger, and then how many have come. So there are equal messages, and of
/// what a passenger causes only the second one depends on who came before.
#[derive(Clone, Copy)]
pub struct Stop {
    /// When the bus is due, in ticks, before the end of time.
    pub due: u64,
    ghost before_end: { due < 2 ^ 40 },
}

/// What a stop or a bus keeps.
#[derive(Clone, Copy, Default, PartialEq, Eq)]
pub struct Seen {
    /// How many events came, modulo 2^64.
    pub events: u64,
}

/// What comes to a stop or a bus.
#[derive(Clone, Copy, PartialEq, Eq, PartialOrd, Ord)]
pub struct Note {
    /// Of how many people it speaks.
    pub people: u64,
}

impl Stop {
    /// A stop; None exactly where the bus is due at the end of time or later. Takes no memory.
    pub fn new(due: u64) -> Option<Stop>
        ensures found { IsSome result ↔ due < 2 ^ 40 }
        ensures stop { IfSome result (λ stop. stop.due ≡ due) }
    {
        if due >= END {
            return None;
        }
        Some(Stop { due })
    }
}

impl VtModel for Stop {
    type State = Seen;

    type Body = Note;

    type Undo = ();

    ghost use Rattle.std.specs.Prelude.{false};
    ghost use Rattle.std.proofs.Common.{arith};
    ghost use Rattle.rw_relay.specs.Notes.{is_sound_note, IsSeen, stop_step, stop_keeps, stop_future, stop_ranges, note_same};

    ghost process_count = { λ _. 2 };

    ghost is_valid = { λ _ e. is_sound_note e };

    ghost IsWellFormed = { λ _ _ s. IsSeen s };

    ghost is_exhausted = { λ _ _. false };

    ghost step = { stop_step };

    ghost Links = { λ m p before e _ after. after ≡ (stop_step m p before e).0 };

    ghost weight = { λ _. 0 };

    ghost weight_bound = { λ _ _ _ _. 0 };

    fn processes(&self) -> u32 {
        2
    }

    fn valid(&self, event: &Event<Note>) -> bool {
        let _number = event.number;
        let _people = event.body.people;
        event.time < END && event.source <= 2 && event.to < 2
    }

    fn exhausted(&self, _state: &Seen) -> bool {
        false
    }

    fn execute(
        &self,
        _alloc: Global,
        process: u32,
        state: &mut Seen,
        event: &Event<Note>,
        out: &mut Vec<Event<Note>>,
    ) -> Result<(), Refusal> {
        state.events = state.events.wrapping_add(1);
        if process == 0 && event.time < self.due {
            out.push(to_bus(self.due, process, 0, 1))?;
            out.push(to_bus(self.due, process, 1, state.events))?;
        }
        Ok(())
    }

    fn reverse(
        &self,
        _alloc: Global,
        _process: u32,
        state: &mut Seen,
        _event: &Event<Note>,
        _undo: (),
    ) -> Result<(), NoMemory> {
        state.events = state.events.wrapping_sub(1);
        Ok(())
    }

    ghost ranges = { stop_ranges };

    ghost keeps = { stop_keeps };

    ghost future = { stop_future };

    ghost same = { note_same };

    ghost light = { λ _ _ _ _ _ _ _. Prim.omega arith };
}

/// A message of a process to the bus.
fn to_bus(time: u64, process: u32, number: u64, people: u64) -> Event<Note>
    requires { process < 2 }
    ensures { result ≡ record {
      time = time;
      source = process + 1;
      number = number;
      to = 1;
      body = record { people = people };
    } }
{
    Event {
        time,
        source: process + 1,
        number,
        to: 1,
        body: Note { people },
    }
}
