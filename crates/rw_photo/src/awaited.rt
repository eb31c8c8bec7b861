// The objects on their way.
ghost use Rattle.std.specs.Prelude.{◌≡◌, [], OnOk, IfOk, None, Some};
ghost use Rattle.rw_photo.specs.Cache.{waiting_more, waiting_in, with_waiting};

use rw_vt::NoMemory;
use std::alloc::Global;
use std::collections::HashMap;
use std::marker::Model;

/// How many requests wait for each object that is on its way. The objects are found by hash; contracts see them with
/// their counts as a list, in the order of the objects.
#[derive(Drop)]
pub(crate) struct Awaited {
    counts: HashMap<u64, u64>,
}

impl Model for Awaited {
    ghost use Rattle.std.specs.Prelude.{List};
    ghost use Rattle.rw_numbers.specs.Words.{Count, Object};
    ghost use Rattle.rw_blocks.specs.RowMap.{by_object};

    ghost Value = { List (Object × Count) };

    ghost view = { λ a. by_object a.counts.entries };
}

impl Awaited {
    /// No object.
    pub(crate) fn new(alloc: Global) -> Awaited
        ensures { result ≡ [] }
    {
        Awaited {
            counts: HashMap::new(alloc),
        }
    }

    /// How many requests wait for an object, where it is awaited. Takes no memory.
    pub(crate) fn get(&self, object: u64) -> Option<u64>
        ensures { result ≡ waiting_in self.now object }
    {
        self.counts.get(&object).copied()
    }

    /// One request more waits for an object. Hands back how many waited before, where it was awaited. After a refusal of
    /// memory nothing is said of what is there.
    pub(crate) fn join(&mut self, object: u64) -> Result<Option<u64>, NoMemory>
        ensures before { IfOk result (λ before. before ≡ waiting_in self.old object) }
        ensures joined { OnOk result
            (self.new ≡ with_waiting self.old object
            (Some (waiting_more (waiting_in self.old object)))) }
    {
        let before = self.put(object, 1)?;
        if let Some(others) = before {
            self.put(object, others.wrapping_add(1))?;
        }
        Ok(before)
    }

    /// So many requests wait for an object. Hands back how many waited before, where it was awaited. After a refusal of
    /// memory nothing is said of what is there.
    fn put(&mut self, object: u64, count: u64) -> Result<Option<u64>, NoMemory>
        ensures before { IfOk result (λ before. before ≡ waiting_in self.old object) }
        ensures put { OnOk result (self.new ≡ with_waiting self.old object (Some count)) }
    {
        Ok(self.counts.insert(object, count)?)
    }

    /// An object is awaited no more. Hands back how many requests waited for it, where it was.
    pub(crate) fn end(&mut self, object: u64) -> Option<u64>
        ensures before { result ≡ waiting_in self.old object }
        ensures ended { self.new ≡ with_waiting self.old object None }
    {
        self.counts.remove(&object)
    }

    /// Sets how many requests wait for an object; `None`: it is not awaited. After a refusal of memory nothing is said
    /// of what is there.
    pub(crate) fn set(&mut self, object: u64, waiting: Option<u64>) -> Result<(), NoMemory>
        ensures { OnOk result (self.new ≡ with_waiting self.old object waiting) }
    {
        match waiting {
            Some(count) => {
                self.put(object, count)?;
            }
            None => {
                self.counts.remove(&object);
            }
        }
        Ok(())
    }
}
