ghost use Rattle.std.specs.Prelude.{◌≡◌, ◌∷◌, ◌++◌, List, [], OnOk};
ghost use Rattle.rw_vt.specs.declared.event.Event.{Event};

use rw_vt::Event;
use std::alloc::{AllocError, Global};
use std::marker::Model;

/// The events that a process has executed, in order. Contracts see the list of them.
#[derive(Drop)]
pub struct Executed<B> {
    events: Vec<Event<B>>,
}

impl<B> Model for Executed<B> {
    ghost use Rattle.std.specs.Prelude.{List};
    ghost use Rattle.rw_vt.specs.declared.event.Event.{Event};

    ghost Value = { List (Event B) };

    ghost view = { λ x. x.events.items };
}

impl<B: Copy> Executed<B> {
    /// No event. Takes no memory.
    pub(crate) fn new(alloc: Global) -> Executed<B>
        ensures { result ≡ [] }
    {
        Executed {
            events: Vec::new(alloc),
        }
    }

    /// The events, in order. Takes no memory.
    pub fn events(&self) -> &[Event<B>]
        ensures { result.now ≡ self.now }
    {
        &self.events
    }

    /// Appends an event. After a refusal nothing is said of the list.
    pub(crate) fn push(&mut self, event: Event<B>) -> Result<(), AllocError>
        ensures { OnOk result (self.new ≡ self.old ++ event ∷ []) }
    {
        self.events.push(event)?;
        Ok(())
    }

    /// Takes the last event off. Takes no memory.
    pub(crate) fn take_last(&mut self)
        ensures { (events : List (Event B)) (last : Event B)
            → self.old ≡ events ++ last ∷ [] → self.new ≡ events }
    {
        let _last = self.events.pop();
    }

    /// Takes all events off. Its memory is kept for those to come.
    pub(crate) fn clear(&mut self)
        ensures { self.new ≡ [] }
    {
        self.events.clear();
    }
}
