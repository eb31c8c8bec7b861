ghost use Rattle.std.specs.Prelude.{◌≡◌, ◌++◌, [], true, OnOk};
ghost use Rattle.rw_vt.specs.Letters.{letters_of};
ghost use Rattle.rw_lp.specs.Sends.{events_of};

use crate::letters::give;
use rw_vt::{Event, Letter};
use std::alloc::{AllocError, Global};
use std::marker::Model;
use std::mem;

/// What one execution sent, in order. One event takes no memory of its own.
#[derive(Drop)]
pub struct Sends<B> {
    kept: Kept<B>,
}

/// No event, or one, or a list of more.
#[derive(Drop)]
pub enum Kept<B> {
    /// Nothing was sent.
    Nothing,
    /// One event.
    One(Event<B>),
    /// All of them.
    Many(Vec<Event<B>>),
}

impl<B> Model for Sends<B> {
    ghost use Rattle.std.specs.Prelude.{List};
    ghost use Rattle.rw_vt.specs.declared.event.Event.{Event};
    ghost use Rattle.rw_lp.specs.Sends.{events_of};

    ghost Value = { List (Event B) };

    ghost view = { λ x. events_of x.kept };
}

impl<B: Copy> Sends<B> {
    /// Takes the events, and leaves none. Takes no memory.
    pub fn take_from(alloc: Global, events: &mut Vec<Event<B>>) -> Sends<B>
        ensures taken { result ≡ events.old.items }
        ensures emptied { events.new.items ≡ [] }
    {
        if events.len() > 1 {
            let kept = Kept::Many(mem::replace(events, Vec::new(alloc)));
            return Sends { kept };
        }
        let kept = match events.pop() {
            Some(event) => Kept::One(event),
            None => Kept::Nothing,
        };
        Sends { kept }
    }

    /// The events, as they are kept. Takes no memory.
    pub fn into_kept(self) -> Kept<B>
        ensures { events_of result ≡ self }
    {
        self.kept
    }

    /// Appends anti-messages of the events, in order.
    pub fn cancel(self, out: &mut Vec<Letter<B>>) -> Result<(), AllocError>
        ensures given { OnOk result (out.new.items ≡ out.old.items ++ letters_of true self) }
    {
        match self.kept {
            Kept::Nothing => Ok(()),
            Kept::One(event) => {
                out.push(Letter { event, anti: true })?;
                Ok(())
            }
            Kept::Many(events) => give(out, events.as_slice(), true),
        }
    }
}
