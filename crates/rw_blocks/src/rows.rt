// The rows of a queue, with their index by block.
ghost use Rattle.std.specs.Prelude.{◌≡◌, ◌<◌, ◌≤◌, ◌+◌, ◌^◌, ℕ, [], Some, None, OnOk, OnErr, IfOk, IfSome, IsSome, IsNone, IsTrue, IsFalse, ◌≢◌, nat_eq, not, length};
ghost use Rattle.std.specs.Ordering.{nat_cmp};
ghost use Rattle.std.specs.Map.{values_of, keys_of};
ghost use Rattle.std.specs.List.Sorted.{IsStrictlySortedBy};
ghost use Rattle.rw_blocks.specs.Rows.{row_in, row_homed, rows_with, rows_without, size_of};
ghost use Rattle.rw_blocks.specs.Index.{bytes_of, objects_of, home_of, place_of};

use crate::Place;
use crate::listed::Role;
use crate::lists::{Bytes, Lists};
use crate::row_map::RowMap;
use std::alloc::{AllocError, Global};
use std::marker::Model;

/// The rows, one for each object that is stored. Contracts see them as the list of objects with their rows, in the
/// order of the objects. Beside them stand the bytes and the objects of each block, and the bytes of all rows.
#[derive(Drop)]
pub struct Rows {
    rows: RowMap,
    lists: Lists,
    total: u64,
}

impl Model for Rows {
    ghost use Rattle.std.specs.Prelude.{List};
    ghost use Rattle.rw_numbers.specs.Words.{Object};
    ghost use Rattle.rw_blocks.specs.declared.Place.{Place};

    ghost Value = { List (Object × Place) };

    ghost use Rattle.rw_blocks.specs.Lists.{IsListed};

    ghost view = { λ r. r.rows };

    ghost invariant = { λ r. IsListed r.rows r.lists r.total };
}

impl Rows {
    /// No row.
    pub fn new(alloc: Global) -> Rows
        ensures { result ≡ [] }
    {
        Rows {
            rows: RowMap::new(alloc),
            lists: Lists::new(alloc),
            total: 0,
        }
    }

    /// The row of an object. `None` exactly where it has none.
    #[inline(always)]
    pub fn get(&self, object: u64) -> Option<Place>
        ensures { result ≡ row_in self.now object }
    {
        self.rows.get(object)
    }

    /// The bytes of all rows.
    pub fn total(&self) -> u64
        ensures { result ≡ size_of (values_of self.now) }
    {
        self.total
    }

    /// The bytes of the rows whose home is the block.
    pub fn home_bytes(&self, serial: u64) -> u64
        ensures { result ≡ bytes_of home_of serial self.now }
    {
        self.lists.homed(serial)
    }

    /// The bytes of the rows whose place is the block.
    pub fn place_bytes(&self, serial: u64) -> u64
        ensures { result ≡ bytes_of place_of serial self.now }
    {
        self.lists.placed(serial)
    }

    /// Whether any row's place is the block.
    pub fn is_placed(&self, serial: u64) -> bool
        ensures { result ≡ not (nat_eq (length (objects_of place_of serial self.now)) 0) }
    {
        // each row has some bytes
        self.lists.placed(serial) != 0
    }

    /// The objects whose home is the block, in rising order.
    ///
    /// # Errors
    ///
    /// [`AllocError`] where memory was refused.
    pub fn homed(&self, serial: u64) -> Result<Vec<u64>, AllocError>
        ensures { IfOk result (λ objects. objects.items ≡ objects_of home_of serial self.now) }
    {
        self.lists.sorted(&self.rows, Role::Home, serial)
    }

    /// The objects whose place is the block, in rising order.
    ///
    /// # Errors
    ///
    /// [`AllocError`] where memory was refused.
    pub fn placed(&self, serial: u64) -> Result<Vec<u64>, AllocError>
        ensures { IfOk result (λ objects. objects.items ≡ objects_of place_of serial self.now) }
    {
        self.lists.sorted(&self.rows, Role::Priority, serial)
    }

    /// Where a list has grown wide, and it is the one of this block, it gives way to what counts in it.
    #[inline(always)]
    fn trim(&mut self, wide: bool, serial: u64)
        ensures { self.new ≡ self.old }
    {
        if wide {
            self.lists.trim(&self.rows, serial);
        }
    }

    /// A row comes, of an object that has none.
    ///
    /// # Errors
    ///
    /// [`AllocError`] where memory was refused; the rows are then as they were.
    pub fn add(&mut self, object: u64, row: Place) -> Result<(), AllocError>
        requires new { row_in self.old object ≡ None }
        requires sized { 1 ≤ row.size }
        requires room { size_of (values_of self.old) + row.size < 2 ^ 64 }
        ensures added { OnOk result (self.new ≡ rows_with self.old object row) }
        ensures same { OnErr result (self.new ≡ self.old) }
        ensures ordered { IsStrictlySortedBy nat_cmp (keys_of self.old) }
    {
        let wide = self.lists.add_row(object, row)?;
        if let Err(refused) = self.rows.insert(object, row) {
            self.lists.remove_row(row);
            return Err(refused);
        }
        self.total += row.size;
        self.trim(wide, row.home);
        self.trim(wide, row.place);
        Ok(())
    }

    /// The row of an object goes, which has one.
    pub fn remove(&mut self, object: u64) -> Place
        requires { IsSome (row_in self.old object) }
        ensures row { row_in self.old object ≡ Some result }
        ensures rest { self.new ≡ rows_without self.old object }
    {
        let row = self.rows.remove(object).unwrap();
        self.lists.remove_row(row);
        self.total -= row.size;
        row
    }

    /// The row of an object, which is `row`, gets another place.
    ///
    /// # Errors
    ///
    /// [`AllocError`] where memory was refused; the rows are then as they were.
    pub fn replace(&mut self, object: u64, row: Place, place: u64) -> Result<(), AllocError>
        requires row { row_in self.old object ≡ Some row }
        requires other { row.place ≢ place }
        ensures replaced { OnOk result
            (self.new ≡ rows_with self.old object (record row { place = place })) }
        ensures same { OnErr result (self.new ≡ self.old) }
    {
        let bytes = Bytes {
            homed: 0,
            placed: row.size,
        };
        let wide = self.lists.add(place, object, bytes)?;
        self.lists.take(row.place, bytes);
        self.rows.set_place(object, row, place);
        self.trim(wide, place);
        Ok(())
    }

    /// The row of an object, which is `row`, gets another place, where that then holds at most `most` bytes. Whether the
    /// place before is still that of any row; `None` where the other one would hold more, and the rows are then as they
    /// were.
    ///
    /// # Errors
    ///
    /// [`AllocError`] where memory was refused; the rows are then as they were.
    #[inline(always)]
    pub fn replace_within(
        &mut self,
        object: u64,
        row: Place,
        place: u64,
        most: u64,
    ) -> Result<Option<bool>, AllocError>
        requires row { row_in self.old object ≡ Some row }
        requires other { row.place ≢ place }
        ensures replaced { IfOk result (λ left. IfSome left (λ l.
            self.new ≡ rows_with self.old object (record row { place = place }))) }
        ensures fits { IfOk result (λ left. IfSome left (λ l.
            bytes_of place_of place self.old + row.size ≤ most)) }
        ensures left { IfOk result (λ left. IfSome left (λ l.
            l ≡ not (nat_eq (length (objects_of place_of row.place self.new)) 0))) }
        ensures full { IfOk result (λ left. IsNone left → self.new ≡ self.old) }
        ensures same { OnErr result (self.new ≡ self.old) }
    {
        let bytes = Bytes {
            homed: 0,
            placed: row.size,
        };
        let Some(wide) = self.lists.add_within(place, object, bytes, most)? else {
            return Ok(None);
        };
        let left = self.lists.take(row.place, bytes);
        self.rows.set_place(object, row, place);
        self.trim(wide, place);
        // each row has some bytes
        Ok(Some(left != 0))
    }

    /// The row of an object, which is `row`, gets a block as its home and its place, where that then holds at most `most`
    /// bytes. Whether it got it; the rows are as they were where not.
    ///
    /// # Errors
    ///
    /// [`AllocError`] where memory was refused; the rows are then as they were.
    #[inline(always)]
    pub fn rehome_within(
        &mut self,
        object: u64,
        row: Place,
        block: u64,
        most: u64,
    ) -> Result<bool, AllocError>
        requires row { row_in self.old object ≡ Some row }
        requires room { size_of (values_of self.old) + row.size < 2 ^ 64 }
        ensures moved { IfOk result (λ came. IsTrue came
            → self.new ≡ rows_with self.old object (row_homed row.size block)) }
        ensures fits { IfOk result (λ came. IsTrue came
            → bytes_of home_of block self.old + row.size ≤ most) }
        ensures full { IfOk result (λ came. IsFalse came → self.new ≡ self.old) }
        ensures same { OnErr result (self.new ≡ self.old) }
    {
        let bytes = Bytes {
            homed: row.size,
            placed: row.size,
        };
        let Some(wide) = self.lists.add_within(block, object, bytes, most)? else {
            return Ok(false);
        };
        self.lists.remove_row(row);
        let moved = Place {
            size: row.size,
            home: block,
            place: block,
        };
        self.rows.set(object, moved);
        self.trim(wide, block);
        Ok(true)
    }

    /// A row comes whose home is also its place, of an object that has none, where that block then holds at most `most`
    /// bytes. Whether it came; the rows are as they were where not.
    ///
    /// # Errors
    ///
    /// [`AllocError`] where memory was refused; the rows are then as they were.
    #[inline(always)]
    pub fn add_within(
        &mut self,
        object: u64,
        size: u64,
        block: u64,
        most: u64,
    ) -> Result<bool, AllocError>
        requires new { row_in self.old object ≡ None }
        requires sized { 1 ≤ size }
        requires room { size_of (values_of self.old) + size < 2 ^ 64 }
        ensures added { IfOk result (λ came. IsTrue came
            → self.new ≡ rows_with self.old object (row_homed size block)) }
        ensures fits { IfOk result (λ came. IsTrue came
            → bytes_of home_of block self.old + size ≤ most) }
        ensures full { IfOk result (λ came. IsFalse came → self.new ≡ self.old) }
        ensures same { OnErr result (self.new ≡ self.old) }
        ensures ordered { IsStrictlySortedBy nat_cmp (keys_of self.old) }
    {
        let row = Place {
            size,
            home: block,
            place: block,
        };
        let bytes = Bytes {
            homed: size,
            placed: size,
        };
        let Some(wide) = self.lists.add_within(block, object, bytes, most)? else {
            return Ok(false);
        };
        if let Err(refused) = self.rows.insert(object, row) {
            self.lists.remove_row(row);
            return Err(refused);
        }
        self.total += size;
        self.trim(wide, block);
        Ok(true)
    }
}
