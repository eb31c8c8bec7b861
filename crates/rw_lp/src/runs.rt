ghost use Rattle.std.specs.Prelude.{◌≡◌, ◌≤◌, ◌++◌, ◌∷◌, [], List, OnOk, MatchOption, length, drop};
ghost use Rattle.rw_lp.specs.Limits.{longest_run};
ghost use Rattle.rw_lp.specs.Runs.{AreFilled, AreRuns, IsLeftAfter, IsWithinFront, values_of};

use std::alloc::{AllocError, Global};
use std::collections::VecDeque;
use std::marker::Model;
use std::mem;

/// The most values of one run.
pub const RUN: usize = 64;

/// `RUN`, the most values of a run, is the limit that stands in `specs/Limits.antt`, which the definitions cite. The call
/// itself does nothing.
pub fn every_limit()
    ensures { RUN ≡ longest_run }
{}

/// A stack of values in runs of at most [`RUN`]. Values can also be dropped from its front. A run that is full
/// stays where it is while the stack grows.
#[derive(Drop)]
pub struct Runs<T> {
    /// The runs before the last one, the oldest first. None is empty.
    older: VecDeque<Vec<T>>,
    last: Vec<T>,
}

impl<T> Model for Runs<T> {
    ghost Value = { List T };

    ghost view = { λ x. values_of x.older.items ++ x.last.items };

    ghost invariant = { λ x. AreRuns x.older.items x.last };
}

impl<T: Drop> Runs<T> {
    /// No values. Takes no memory.
    pub fn new(alloc: Global) -> Runs<T>
        ensures { result ≡ [] }
    {
        Runs {
            older: VecDeque::new(alloc),
            last: Vec::new(alloc),
        }
    }

    /// The value comes on top. After an error nothing is said of the values.
    pub fn push(&mut self, value: T) -> Result<(), AllocError>
        ensures { OnOk result (self.new ≡ self.old ++ value ∷ []) }
    {
        let is_full = self.last.len() >= RUN;
        if is_full {
            let begun = Vec::with_capacity(*self.last.allocator(), RUN)?;
            let full = mem::replace(&mut self.last, begun);
            self.older.push_back(full)?;
        }
        self.last.push(value)?;
        Ok(())
    }

    /// Takes the value on top, if there is one. Takes no memory.
    pub fn pop(&mut self) -> Option<T>
        ensures { MatchOption result ((self.old ≡ []) × (self.new ≡ []))
            (λ value. self.old ≡ self.new ++ value ∷ []) }
    {
        if let Some(value) = self.last.pop() {
            return Some(value);
        }
        self.last = self.older.pop_back()?;
        self.last.pop()
    }

    /// Drops the `count` oldest values. Takes no memory; at most the values of one run move.
    pub fn drop_front(&mut self, count: usize)
        requires { count ≤ length self.old }
        ensures { self.new ≡ drop count self.old }
    {
        let left = drop_runs(&mut self.older, count);
        match self.older.front_mut() {
            Some(run) => drop_first(run, left),
            None => drop_first(&mut self.last, left),
        }
    }
}

/// Drops the runs of which all values are among the `count` oldest, and gives how many of these are left.
fn drop_runs<T: Drop>(older: &mut VecDeque<Vec<T>>, count: usize) -> usize
    requires filled { AreFilled older.old.items }
    ensures filled { AreFilled older.new.items }
    ensures front { IsWithinFront result older.new.items }
    ensures values { IsLeftAfter count older.old.items result older.new.items }
{
    let mut left = count;
    'runs: while let Some(run) = older.front() {
        let length = run.len();
        if left < length {
            return left;
        }
        left -= length;
        let _run = older.pop_front();
    }
    left
}

/// Drops the first `count` values.
fn drop_first<T: Drop>(values: &mut Vec<T>, count: usize)
    requires { count ≤ length values.old.items }
    ensures { values.new.items ≡ drop count values.old.items }
{
    drop(values.drain(..count));
}
