// The rows by object.
ghost use Rattle.std.specs.Prelude.{◌≡◌, [], OnOk, OnErr, IsSome, None, Some};
ghost use Rattle.rw_blocks.specs.Rows.{row_in, rows_with, rows_without};

use crate::Place;
use std::alloc::{AllocError, Global};
use std::collections::HashMap;
use std::marker::Model;

/// The rows, one for each object that is stored. They are found by hash; contracts see them as the list of objects with
/// their rows, in the order of the objects.
#[derive(Drop)]
pub struct RowMap {
    rows: HashMap<u64, Place>,
}

impl Model for RowMap {
    ghost use Rattle.std.specs.Prelude.{List};
    ghost use Rattle.rw_numbers.specs.Words.{Object};
    ghost use Rattle.rw_blocks.specs.declared.Place.{Place};
    ghost use Rattle.rw_blocks.specs.RowMap.{by_object};

    ghost Value = { List (Object × Place) };

    ghost view = { λ m. by_object m.rows.entries };
}

impl RowMap {
    /// No row.
    pub fn new(alloc: Global) -> RowMap
        ensures { result ≡ [] }
    {
        RowMap {
            rows: HashMap::new(alloc),
        }
    }

    /// The row of an object. `None` exactly where it has none.
    pub fn get(&self, object: u64) -> Option<Place>
        ensures { result ≡ row_in self.now object }
    {
        self.rows.get(&object).copied()
    }

    /// The object has this row from now on.
    ///
    /// # Errors
    ///
    /// [`AllocError`] where memory was refused; the rows are then as they were.
    pub fn insert(&mut self, object: u64, row: Place) -> Result<(), AllocError>
        ensures put { OnOk result (self.new ≡ rows_with self.old object row) }
        ensures same { OnErr result (self.new ≡ self.old) }
    {
        self.rows.insert(object, row)?;
        Ok(())
    }

    /// The row of an object goes. `None` exactly where it had none.
    pub fn remove(&mut self, object: u64) -> Option<Place>
        ensures row { result ≡ row_in self.old object }
        ensures rest { self.new ≡ rows_without self.old object }
    {
        self.rows.remove(&object)
    }

    /// The object, which has a row, has this one from now on.
    pub fn set(&mut self, object: u64, row: Place)
        requires { IsSome (row_in self.old object) }
        ensures { self.new ≡ rows_with self.old object row }
    {
        let found = self.rows.get_mut(&object).unwrap();
        *found = row;
    }

    /// The row of an object, which is `row`, gets another place.
    pub fn set_place(&mut self, object: u64, row: Place, place: u64)
        requires { row_in self.old object ≡ Some row }
        ensures { self.new ≡ rows_with self.old object (record row { place = place }) }
    {
        let found = self.rows.get_mut(&object).unwrap();
        *found = Place { place, ..row };
    }
}
