// The objects of one block as a list that only grows.
ghost use Rattle.std.specs.Prelude.{◌≡◌, ◌≤◌, ◌+◌, ◌*◌, [], ◌∷◌, ◌++◌, OnOk, OnErr, IfOk, IsFalse, length};
ghost use Rattle.std.specs.Ordering.{nat_cmp};
ghost use Rattle.std.specs.List.Sorted.{IsStrictlySortedBy};
ghost use Rattle.std.specs.Map.{keys_of};
ghost use Rattle.rw_blocks.specs.Index.{objects_of, home_of, place_of};
ghost use Rattle.rw_blocks.specs.Covering.{key_of, is_of, names_block, Covers};

use crate::Place;
use crate::row_map::RowMap;
use std::alloc::{AllocError, Global};
use std::marker::Model;

/// What a block is to a row.
#[derive(Clone, Copy)]
pub enum Role {
    /// The block that holds the object's bytes.
    Home,
    /// The block that gives the object's priority.
    Priority,
}

impl Role {
    /// The block that a row names in this role.
    fn block(self, row: Place) -> u64
        ensures { result ≡ key_of self row }
    {
        match self {
            Role::Home => row.home,
            Role::Priority => row.place,
        }
    }

    /// Whether a row, if there is one, names the block in this role.
    fn names(self, row: Option<Place>, serial: u64) -> bool
        ensures { result ≡ is_of (key_of self) serial row }
    {
        match row {
            Some(row) => self.block(row) == serial,
            None => false,
        }
    }
}

/// Whether a row, if there is one, names the block as its home or as its place.
fn names_block(row: Option<Place>, serial: u64) -> bool
    ensures { result ≡ names_block serial row }
{
    match row {
        Some(row) => row.home == serial || row.place == serial,
        None => false,
    }
}

/// How many entries a list may have besides twice as many as can count.
const FEW: usize = 8;

/// Objects that came to a block, in the order in which they came. One that has left stands there still, and one that
/// came twice stands there twice. The rows tell which of them count.
#[derive(Drop)]
pub struct Listed {
    objects: Vec<u64>,
}

impl Model for Listed {
    ghost use Rattle.std.specs.Prelude.{List};
    ghost use Rattle.rw_numbers.specs.Words.{Object};

    ghost Value = { List Object };

    ghost view = { λ l. l.objects.items };
}

impl Listed {
    /// No object.
    pub fn new(alloc: Global) -> Listed
        ensures { result ≡ [] }
    {
        Listed {
            objects: Vec::new(alloc),
        }
    }

    /// All objects go.
    pub fn clear(&mut self)
        ensures { self.new ≡ [] }
    {
        self.objects.clear();
    }

    /// An object comes.
    ///
    /// # Errors
    ///
    /// [`AllocError`] where memory was refused; the list is then as it was.
    pub fn append(&mut self, object: u64) -> Result<(), AllocError>
        ensures appended { OnOk result (self.new ≡ self.old ++ object ∷ []) }
        ensures same { OnErr result (self.new ≡ self.old) }
    {
        self.objects.push(object)?;
        Ok(())
    }

    /// Whether the list has far more entries than can count, where rows name the block `named` times.
    pub fn is_wide(&self, named: usize) -> bool
        ensures { IsFalse result → length self.now ≤ named * 2 + 8 }
    {
        self.objects.len() > named.saturating_mul(2).saturating_add(FEW)
    }

    /// Only the entries stay that count for the block, each once, in rising order.
    pub fn settle(&mut self, rows: &RowMap, serial: u64)
        ensures homes { Covers home_of serial self.old rows.now
            → Covers home_of serial self.new rows.now }
        ensures places { Covers place_of serial self.old rows.now
            → Covers place_of serial self.new rows.now }
    {
        self.objects
            .retain(|object| names_block(rows.get(*object), serial));
        self.objects.sort_unstable();
        self.objects.dedup();
    }

    /// The objects whose rows name the block in the role, each once, in rising order.
    ///
    /// # Errors
    ///
    /// [`AllocError`] where memory was refused.
    pub fn sorted(&self, rows: &RowMap, role: Role, serial: u64) -> Result<Vec<u64>, AllocError>
        requires ordered { IsStrictlySortedBy nat_cmp (keys_of rows.now) }
        requires covers { Covers (key_of role) serial self.now rows.now }
        ensures { IfOk result (λ objects.
            objects.items ≡ objects_of (key_of role) serial rows.now) }
    {
        let mut objects = self.objects.clone()?;
        objects.retain(|object| role.names(rows.get(*object), serial));
        objects.sort_unstable();
        objects.dedup();
        Ok(objects)
    }
}
