// The undo record of an operation: the marks of its primitives.
ghost use Rattle.std.specs.Prelude.{◌≡◌, true, [], ◌∷◌, ◌++◌, OnOk, IfSome, IsNone, length};
ghost use Rattle.rw_blocks.specs.State.{QueueState};
ghost use Rattle.rw_ripq.specs.Trail.{rewind_of, IsRewindable, Leads};

use crate::Marks;
use rw_blocks::{Mark, Queue};
use rw_vt::NoMemory;
use std::alloc::Global;
use std::marker::Model;

/// The marks of an operation's primitives, the first one first. Contracts see it as that list.
///
/// It holds one mark of fixed size for each primitive, and no part of the queue: its length is bounded by what the
/// operation changed. Most operations have one mark, which stands in the trail itself and takes no memory.
#[derive(Drop)]
pub struct Trail {
    first: Option<Mark>,
    others: Vec<Mark>,
}

impl Model for Trail {
    ghost use Rattle.std.specs.Prelude.{◌≡◌, ◌++◌, List, [], None, option_to_list};
    ghost use Rattle.rw_blocks.specs.declared.Mark.{Mark};

    ghost Value = { List Mark };

    ghost view = { λ t. option_to_list t.first ++ t.others.items };

    // there are others only behind a first one
    ghost invariant = { λ t. t.first ≡ None → t.others.items ≡ [] };
}

impl Trail {
    /// A trail without marks, of an operation that did nothing. Takes no memory.
    pub fn new(alloc: Global) -> Trail
        ensures { result ≡ [] }
    {
        Trail {
            first: None,
            others: Vec::new(alloc),
        }
    }

    /// Takes the last mark.
    fn pop(&mut self) -> Option<Mark>
        ensures some { IfSome result (λ mark. self.old ≡ self.new ++ mark ∷ []) }
        ensures none { IsNone result → self.old ≡ [] }
    {
        if let Some(mark) = self.others.pop() {
            return Some(mark);
        }
        self.first.take()
    }

    /// How many marks there are. Takes no memory.
    pub fn len(&self) -> usize
        ensures { result ≡ length self.now }
    {
        usize::from(self.first.is_some()) + self.others.len()
    }
}

impl Marks for Trail {
    ghost keeps = { true };

    ghost list = { λ trail. trail };

    #[inline]
    fn push(&mut self, mark: Mark) -> Result<(), NoMemory>
        ensures { OnOk result (true ≡ true → self.new ≡ self.old ++ mark ∷ []) }
    {
        if self.first.is_none() {
            self.first = Some(mark);
            return Ok(());
        }
        self.others.push(mark)?;
        Ok(())
    }
}

/// Takes an operation back: on the queue right after it, the queue is again the whole of what it was before, every
/// serial and the next serial included.
///
/// # Errors
///
/// `NoMemory` only where memory was refused. Nothing is said of the queue then: it is only dropped.
#[tactic(auto, using(crate::proofs::Trails::trail_laws))]
pub fn rewind(queue: &mut Queue, trail: Trail) -> Result<(), NoMemory>
    requires { IsRewindable trail queue.old }
    ensures effect { OnOk result (queue.new ≡ rewind_of trail queue.old) }
    ensures restores { OnOk result ((before : QueueState)
        → Leads trail before queue.old → queue.new ≡ before) }
{
    let mut trail = trail;
    while let Some(mark) = trail.pop() {
        queue.undo(mark)?;
    }
    Ok(())
}
