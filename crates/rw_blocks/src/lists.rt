// What each block has: bytes, and a list of objects.
ghost use Rattle.std.specs.Prelude.{◌≡◌, ◌<◌, ◌≤◌, ◌+◌, ◌^◌, [], ◌∷◌, ◌++◌, OnOk, OnErr, IfOk, IfSome, IsNone, None, nat_eq, option_copied};
ghost use Rattle.std.specs.Borrow.{sem};
ghost use Rattle.std.specs.HashMap.{get};
ghost use Rattle.std.specs.Option.{option_copied_mut};
ghost use Rattle.rw_numbers.specs.Words.{Serial};
ghost use Rattle.std.specs.Ordering.{nat_cmp};
ghost use Rattle.std.specs.List.Sorted.{IsStrictlySortedBy};
ghost use Rattle.std.specs.Map.{keys_of};
ghost use Rattle.rw_blocks.specs.Index.{objects_of, home_of, place_of};
ghost use Rattle.rw_blocks.specs.Covering.{key_of, Covers};
ghost use Rattle.rw_blocks.specs.Lending.{LendsEntry};
ghost use Rattle.rw_blocks.specs.Maps.{Sets};
ghost use Rattle.rw_blocks.specs.Lists.{homed_in, placed_in, list_in, Gains, Loses, Same, SameBytes, SameRows, Appends, HasCome, Stays, StaysCovered};

use crate::Place;
use crate::hints::Hints;
use crate::listed::{Listed, Role};
use crate::row_map::RowMap;
use indexmap::IndexMap;
use std::alloc::{AllocError, Global};

/// The bytes of the rows whose home a block is, and of those whose place it is.
#[derive(Clone, Copy)]
pub struct Bytes {
    pub homed: u64,
    pub placed: u64,
}

impl Bytes {
    /// How many times a row names the block: once as its home, once as its place.
    fn named(self) -> usize {
        usize::from(self.homed > 0) + usize::from(self.placed > 0)
    }
}

/// What one block has: the bytes of its rows, how many times these name it, and a list that has the object of each. The
/// number only tells when the list has grown wide.
#[derive(Drop)]
pub struct Entry {
    bytes: Bytes,
    named: usize,
    objects: Listed,
}

impl Entry {
    /// No row, and this list, which has no object.
    fn new(objects: Listed) -> Entry
        ensures homed { result.bytes.homed ≡ 0 }
        ensures placed { result.bytes.placed ≡ 0 }
        ensures objects { result.objects ≡ objects }
    {
        Entry {
            bytes: Bytes {
                homed: 0,
                placed: 0,
            },
            named: 0,
            objects,
        }
    }

    /// Bytes come, of a row of this object. Whether the list has grown wide.
    ///
    /// # Errors
    ///
    /// [`AllocError`] where memory was refused; all is then as it was.
    #[inline(always)]
    fn add(&mut self, object: u64, bytes: Bytes) -> Result<bool, AllocError>
        requires homed_fit { self.old.bytes.homed + bytes.homed < 2 ^ 64 }
        requires placed_fit { self.old.bytes.placed + bytes.placed < 2 ^ 64 }
        ensures homed { OnOk result
            (self.new.bytes.homed ≡ self.old.bytes.homed + bytes.homed) }
        ensures placed { OnOk result
            (self.new.bytes.placed ≡ self.old.bytes.placed + bytes.placed) }
        ensures objects { OnOk result (self.new.objects ≡ self.old.objects ++ object ∷ []) }
        ensures same { OnErr result (self.new ≡ self.old) }
    {
        self.objects.append(object)?;
        self.bytes.homed += bytes.homed;
        self.bytes.placed += bytes.placed;
        self.named = self.named.saturating_add(bytes.named());
        Ok(self.objects.is_wide(self.named))
    }

    /// Bytes come, as by [`add`](Entry::add), where the block then holds at most `most` bytes, by its homes and by its
    /// places. Otherwise all is as it was, and the answer is `None`.
    ///
    /// # Errors
    ///
    /// [`AllocError`] where memory was refused; all is then as it was.
    #[inline(always)]
    fn add_within(
        &mut self,
        object: u64,
        bytes: Bytes,
        most: u64,
    ) -> Result<Option<bool>, AllocError>
        requires homed_fit { self.old.bytes.homed + bytes.homed < 2 ^ 64 }
        requires placed_fit { self.old.bytes.placed + bytes.placed < 2 ^ 64 }
        ensures homed { IfOk result (λ wide. IfSome wide (λ w.
            self.new.bytes.homed ≡ self.old.bytes.homed + bytes.homed)) }
        ensures placed { IfOk result (λ wide. IfSome wide (λ w.
            self.new.bytes.placed ≡ self.old.bytes.placed + bytes.placed)) }
        ensures objects { IfOk result (λ wide. IfSome wide (λ w.
            self.new.objects ≡ self.old.objects ++ object ∷ [])) }
        ensures fits { IfOk result (λ wide. IfSome wide (λ w.
            (self.new.bytes.homed ≤ most) × (self.new.bytes.placed ≤ most))) }
        ensures full { IfOk result (λ wide. IsNone wide → self.new ≡ self.old) }
        ensures same { OnErr result (self.new ≡ self.old) }
    {
        let Bytes { homed, placed } = self.bytes;
        if homed + bytes.homed > most || placed + bytes.placed > most {
            return Ok(None);
        }
        let wide = self.add(object, bytes)?;
        Ok(Some(wide))
    }

    /// Bytes leave. The list stays.
    #[inline(always)]
    fn take(&mut self, bytes: Bytes)
        requires homed_there { bytes.homed ≤ self.old.bytes.homed }
        requires placed_there { bytes.placed ≤ self.old.bytes.placed }
        ensures homed { self.new.bytes.homed + bytes.homed ≡ self.old.bytes.homed }
        ensures placed { self.new.bytes.placed + bytes.placed ≡ self.old.bytes.placed }
        ensures objects { self.new.objects ≡ self.old.objects }
    {
        self.bytes.homed -= bytes.homed;
        self.bytes.placed -= bytes.placed;
        self.named = self.named.saturating_sub(bytes.named());
    }
}

/// How many lists are kept for blocks to come.
const SPARE: usize = 4;

/// The entries of the blocks that have any row.
#[derive(Drop)]
pub struct Lists {
    alloc: Global,
    blocks: IndexMap<u64, Entry>,
    hints: Hints,
    /// Lists of blocks that have no row any more, for blocks to come.
    spare: Vec<Listed>,
}

#[tactic(auto, unfolding(crate::specs::Lists::homed_in, crate::specs::Lists::placed_in, crate::specs::Lists::list_in))]
impl Lists {
    /// No block has any row.
    pub fn new(alloc: Global) -> Lists
        ensures homed { (b : Serial) → homed_in result b ≡ 0 }
        ensures placed { (b : Serial) → placed_in result b ≡ 0 }
    {
        Lists {
            alloc,
            blocks: IndexMap::new(alloc),
            hints: Hints::new(alloc),
            spare: Vec::new(alloc),
        }
    }

    /// What the block has, if it has any row.
    #[inline(always)]
    fn entry(&self, serial: u64) -> Option<&Entry>
        ensures { option_copied result ≡ get nat_eq self.now.blocks serial }
    {
        self.hints.get(&self.blocks, serial)
    }

    /// What the block has, if it has any row, to change.
    #[inline(always)]
    fn entry_mut(&mut self, serial: u64) -> Option<&mut Entry>
        ensures* writes_back { sem 𝓛 (LendsEntry self.entry serial result) }
        ensures value { option_copied_mut result ≡ get nat_eq self.old.blocks serial }
    {
        let place = self.hints.find(&self.blocks, serial)?;
        self.blocks.get_index_mut(place)
    }

    /// A list that has no object.
    fn list(&mut self) -> Listed
        ensures list { result ≡ [] }
        ensures blocks { self.new.blocks ≡ self.old.blocks }
    {
        match self.spare.pop() {
            Some(mut list) => {
                list.clear();
                list
            }
            None => Listed::new(self.alloc),
        }
    }

    /// The block's entry goes, if it has one. Its list is kept where few are.
    #[inline(never)]
    fn remove(&mut self, serial: u64)
        ensures { Sets (get nat_eq self.old.blocks) (get nat_eq self.new.blocks) serial None }
    {
        if let Some(entry) = self.hints.remove(&mut self.blocks, serial) {
            if self.spare.len() < SPARE {
                let _kept = self.spare.push(entry.objects);
            }
        }
    }

    /// The bytes of the rows whose home the block is.
    pub fn homed(&self, serial: u64) -> u64
        ensures { result ≡ homed_in self.now serial }
    {
        match self.entry(serial) {
            Some(entry) => entry.bytes.homed,
            None => 0,
        }
    }

    /// The bytes of the rows whose place the block is.
    pub fn placed(&self, serial: u64) -> u64
        ensures { result ≡ placed_in self.now serial }
    {
        match self.entry(serial) {
            Some(entry) => entry.bytes.placed,
            None => 0,
        }
    }

    /// Bytes come to the block, of a row of this object. Whether the block's list has grown wide.
    ///
    /// # Errors
    ///
    /// [`AllocError`] where memory was refused; all is then as it was.
    pub fn add(&mut self, serial: u64, object: u64, bytes: Bytes) -> Result<bool, AllocError>
        requires homed_fit { homed_in self.old serial + bytes.homed < 2 ^ 64 }
        requires placed_fit { placed_in self.old serial + bytes.placed < 2 ^ 64 }
        ensures homed { OnOk result
            (Gains (homed_in self.old) (homed_in self.new) serial bytes.homed) }
        ensures placed { OnOk result
            (Gains (placed_in self.old) (placed_in self.new) serial bytes.placed) }
        ensures list { OnOk result (Appends self.old self.new serial object) }
        ensures same { OnErr result (Same self.old self.new) }
    {
        match self.entry_mut(serial) {
            Some(entry) => entry.add(object, bytes),
            None => {
                let mut entry = Entry::new(self.list());
                let wide = entry.add(object, bytes)?;
                self.hints.insert(&mut self.blocks, serial, entry)?;
                Ok(wide)
            }
        }
    }

    /// Bytes come to the block, as by [`add`](Lists::add), where it then holds at most `most` bytes, by its homes and by
    /// its places. Otherwise all is as it was, and the answer is `None`.
    ///
    /// # Errors
    ///
    /// [`AllocError`] where memory was refused; all is then as it was.
    #[inline(always)]
    pub fn add_within(
        &mut self,
        serial: u64,
        object: u64,
        bytes: Bytes,
        most: u64,
    ) -> Result<Option<bool>, AllocError>
        requires homed_fit { homed_in self.old serial + bytes.homed < 2 ^ 64 }
        requires placed_fit { placed_in self.old serial + bytes.placed < 2 ^ 64 }
        ensures homed { IfOk result (λ wide. IfSome wide (λ w.
            Gains (homed_in self.old) (homed_in self.new) serial bytes.homed)) }
        ensures placed { IfOk result (λ wide. IfSome wide (λ w.
            Gains (placed_in self.old) (placed_in self.new) serial bytes.placed)) }
        ensures list { IfOk result (λ wide. IfSome wide (λ w.
            Appends self.old self.new serial object)) }
        ensures fits { IfOk result (λ wide. IfSome wide (λ w.
            (homed_in self.new serial ≤ most) × (placed_in self.new serial ≤ most))) }
        ensures full { IfOk result (λ wide. IsNone wide → Same self.old self.new) }
        ensures same { OnErr result (Same self.old self.new) }
    {
        match self.entry_mut(serial) {
            Some(entry) => entry.add_within(object, bytes, most),
            None => {
                let mut entry = Entry::new(self.list());
                let Some(wide) = entry.add_within(object, bytes, most)? else {
                    return Ok(None);
                };
                self.hints.insert(&mut self.blocks, serial, entry)?;
                Ok(Some(wide))
            }
        }
    }

    /// Bytes leave the block. An object may stay in its list; the list goes with the last row. The bytes of the rows are
    /// given whose place the block still is.
    #[inline(always)]
    pub fn take(&mut self, serial: u64, bytes: Bytes) -> u64
        requires homed_there { bytes.homed ≤ homed_in self.old serial }
        requires placed_there { bytes.placed ≤ placed_in self.old serial }
        ensures left { result ≡ placed_in self.new serial }
        ensures homed { Loses (homed_in self.old) (homed_in self.new) serial bytes.homed }
        ensures placed { Loses (placed_in self.old) (placed_in self.new) serial bytes.placed }
        ensures homes_list { Stays (homed_in self.new) self.old self.new }
        ensures places_list { Stays (placed_in self.new) self.old self.new }
    {
        let mut left = Bytes {
            homed: 0,
            placed: 0,
        };
        if let Some(entry) = self.entry_mut(serial) {
            entry.take(bytes);
            left = entry.bytes;
        }
        if left.homed == 0 && left.placed == 0 {
            self.remove(serial);
        }
        left.placed
    }

    /// A list that has grown wide gives way to the entries that count for the block, each once, in rising order.
    pub fn trim(&mut self, rows: &RowMap, serial: u64)
        ensures homed { SameBytes (homed_in self.old) (homed_in self.new) }
        ensures placed { SameBytes (placed_in self.old) (placed_in self.new) }
        ensures homes_list { StaysCovered home_of rows.now self.old self.new }
        ensures places_list { StaysCovered place_of rows.now self.old self.new }
    {
        if let Some(entry) = self.entry_mut(serial) {
            if entry.objects.is_wide(entry.named) {
                entry.objects.settle(rows, serial);
            }
        }
    }

    /// The objects whose rows name the block in the role, in rising order.
    ///
    /// # Errors
    ///
    /// [`AllocError`] where memory was refused.
    pub fn sorted(&self, rows: &RowMap, role: Role, serial: u64) -> Result<Vec<u64>, AllocError>
        requires ordered { IsStrictlySortedBy nat_cmp (keys_of rows.now) }
        requires covers { Covers (key_of role) serial (list_in self.now serial) rows.now }
        ensures { IfOk result (λ objects.
            objects.items ≡ objects_of (key_of role) serial rows.now) }
    {
        match self.entry(serial) {
            Some(entry) => entry.objects.sorted(rows, role, serial),
            None => Ok(Vec::new(self.alloc)),
        }
    }
}

/// Whole rows.
impl Lists {
    /// A row comes, of this object. Whether the list of its home or of its place has grown wide.
    ///
    /// # Errors
    ///
    /// [`AllocError`] where memory was refused; all rows are then as they were.
    pub fn add_row(&mut self, object: u64, row: Place) -> Result<bool, AllocError>
        requires homed_fit { (b : Serial) → homed_in self.old b + row.size < 2 ^ 64 }
        requires placed_fit { (b : Serial) → placed_in self.old b + row.size < 2 ^ 64 }
        ensures homed { OnOk result
            (Gains (homed_in self.old) (homed_in self.new) row.home row.size) }
        ensures placed { OnOk result
            (Gains (placed_in self.old) (placed_in self.new) row.place row.size) }
        ensures lists { OnOk result (HasCome self.old self.new object row) }
        ensures same { OnErr result (SameRows self.old self.new) }
    {
        let Place { size, home, place } = row;
        if home == place {
            let both = Bytes {
                homed: size,
                placed: size,
            };
            return self.add(home, object, both);
        }
        let at_home = Bytes {
            homed: size,
            placed: 0,
        };
        let at_place = Bytes {
            homed: 0,
            placed: size,
        };
        let wide = self.add(home, object, at_home)?;
        match self.add(place, object, at_place) {
            Ok(also) => Ok(wide | also),
            Err(refused) => {
                self.take(home, at_home);
                Err(refused)
            }
        }
    }

    /// A row leaves.
    pub fn remove_row(&mut self, row: Place)
        requires homed_there { row.size ≤ homed_in self.old row.home }
        requires placed_there { row.size ≤ placed_in self.old row.place }
        ensures homed { Loses (homed_in self.old) (homed_in self.new) row.home row.size }
        ensures placed { Loses (placed_in self.old) (placed_in self.new) row.place row.size }
        ensures homes_list { Stays (homed_in self.new) self.old self.new }
        ensures places_list { Stays (placed_in self.new) self.old self.new }
    {
        let Place { size, home, place } = row;
        if home == place {
            let both = Bytes {
                homed: size,
                placed: size,
            };
            self.take(home, both);
            return;
        }
        let at_home = Bytes {
            homed: size,
            placed: 0,
        };
        let at_place = Bytes {
            homed: 0,
            placed: size,
        };
        self.take(home, at_home);
        self.take(place, at_place);
    }
}
