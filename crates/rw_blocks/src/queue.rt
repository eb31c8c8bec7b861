// The queue: what it is, its questions, and the changes that its primitives and their undoing share.
ghost use Rattle.std.specs.Prelude.{◌≡◌, ◌≤◌, ◌<◌, ◌+◌, ◌^◌, ◌↔◌, [], length, None, Some, OnOk, IfOk, IfSome, IsSome, IsNone, slice_get, sum, true};
ghost use Rattle.std.specs.Option.{option_map};
ghost use Rattle.rw_blocks.specs.Sections.{active_of, has_block, NoneSealed};
ghost use Rattle.rw_blocks.specs.State.{IsShape, start_of, row_at, section_at, sealed_block};
ghost use Rattle.rw_blocks.specs.Sums.{total, bytes_held, rows_homed, rows_placed, fill, section_bytes, bytes_below};
ghost use Rattle.rw_blocks.specs.Loose.{IsLoose, IsWellFormedQueue, block_count, sealed_devices};
ghost use Rattle.rw_blocks.specs.Changes.{joined_at, parted_at};
ghost use Rattle.rw_blocks.specs.Primitives.{after_remove, with_row};
ghost use Rattle.rw_blocks.specs.Undo.{IsJoined};
ghost use Rattle.rw_blocks.specs.Tags.{IsOnlyIn, StandsIn};
ghost use Rattle.rw_blocks.specs.Index.{objects_of, home_of, place_of};
ghost use Rattle.rw_blocks.specs.Weights.{weight_from, with_sections, CanHave};
ghost use Rattle.rw_blocks.specs.Questions.{is_placed, section_of, last_block, IsLastSealed, IsHeldOfKind, IsHeldWhereActive};

use crate::rows::Rows;
use crate::sections::Sections;
use crate::{Kind, Place, Seam, Shape, Vanished};
use rw_vt::NoMemory;
use std::alloc::Global;
use std::marker::Model;

/// A queue of blocks. Contracts see the whole of it as one value: its shape, its sections from head to tail with the
/// serials of their blocks, its rows, and the next serial.
///
/// A queue is *loose* where there are 1 to as many sections as its shape allows, all serials are distinct and below the
/// next one, each row's home is a device block that is there and its place is its home or a virtual block that is
/// there, sizes are 1 to the block size, no block holds more than that, and all rows together hold at most 2^48 bytes.
/// It is *well formed* where, besides, no sealed virtual block is without rows and no more device blocks are sealed
/// than its shape allows. Each primitive takes a loose queue and leaves a loose one.
///
/// Sections and positions count from 0, sections from the head and positions from the front of a sealed list. After
/// `NoMemory` nothing is said of the queue: it is only dropped. Its questions change nothing, and take no memory, but
/// for those that answer with a list.
pub struct Queue {
    pub(crate) shape: Shape,
    pub(crate) sections: Sections,
    pub(crate) rows: Rows,
    pub(crate) bytes: Vec<u64>,
    pub(crate) next: u64,
}

// By hand, so that it is proved here, and not in each crate above whose values have one.
impl Drop for Queue {
    fn drop(self) {
        let Queue {
            shape: _,
            sections: _,
            rows: _,
            bytes: _,
            next: _,
        } = self;
    }
}

impl Model for Queue {
    ghost use Rattle.rw_blocks.specs.State.{QueueState};

    ghost Value = { QueueState };

    ghost view = { λ q. record {
      shape = q.shape;
      sections = q.sections;
      rows = q.rows;
      next = q.next;
    } };

    ghost use Rattle.std.specs.Prelude.{◌<◌, ◌^◌, length};
    ghost use Rattle.rw_blocks.specs.Weights.{IsWeighed};

    // the range of its type; and the bytes of each section, where there is any: none is left where memory was refused
    ghost invariant = { λ q. (q.next < 2 ^ 64)
        × (0 < length q.sections → IsWeighed q.rows q.sections q.bytes.items) };
}

impl Queue {
    /// The queue with one section, nothing sealed and no row; its active blocks are device block 0 and virtual block 1.
    ///
    /// # Errors
    ///
    /// [`NoMemory`] where memory was refused.
    pub fn new(alloc: Global, shape: Shape) -> Result<Queue, NoMemory>
        ensures start { IfOk result (λ q. q ≡ start_of shape) }
        ensures well_formed { IfOk result (λ q. IsWellFormedQueue q) }
    {
        let sections = Sections::new(alloc, 0, 1)?;
        let mut bytes = Vec::new(alloc);
        bytes.push(0)?;
        Ok(Queue {
            shape,
            sections,
            rows: Rows::new(alloc),
            bytes,
            next: 2,
        })
    }
}

/// Questions. Only those that answer with a list take memory.
impl Queue {
    /// The shape: how many sections there may be, the bytes of a block, and how many device blocks may be sealed.
    pub fn shape(&self) -> (u64, u64, u64)
        ensures shape { result
            ≡ (self.now.shape.sections, self.now.shape.block, self.now.shape.blocks) }
        ensures in_range { IsShape result.0 result.1 result.2 }
    {
        self.shape.limits()
    }

    /// How many sections there may be.
    pub fn allowed_sections(&self) -> u64
        ensures { result ≡ self.now.shape.sections }
    {
        self.shape().0
    }

    /// The bytes of a block.
    pub fn block_size(&self) -> u64
        ensures { result ≡ self.now.shape.block }
    {
        self.shape().1
    }

    /// How many device blocks may be sealed.
    pub fn allowed_blocks(&self) -> u64
        ensures { result ≡ self.now.shape.blocks }
    {
        self.shape().2
    }

    /// The serial of the next fresh block. Since serials are given once, a loose queue has no more blocks than that.
    #[tactic(auto, using(crate::proofs::Serials::serial_laws))]
    pub fn next_serial(&self) -> u64
        ensures next { result ≡ self.now.next }
        ensures enough { IsLoose self.now → block_count self.now ≤ result }
    {
        self.next
    }

    /// How many sections there are.
    pub fn sections(&self) -> usize
        ensures { result ≡ length self.now.sections }
    {
        self.sections.len()
    }

    /// The serial of the section's active block of the kind.
    #[inline(always)]
    pub fn active(&self, section: usize, kind: Kind) -> u64
        requires { section < length self.now.sections }
        ensures { result ≡ active_of kind (section_at self.now section) }
    {
        self.sections.active(section, kind)
    }

    /// How many sealed blocks the section has.
    pub fn sealed(&self, section: usize) -> usize
        requires { section < length self.now.sections }
        ensures { result ≡ length (section_at self.now section).sealed }
    {
        self.sections.sealed(section)
    }

    /// A sealed block of the section: its serial and its kind.
    pub fn sealed_at(&self, section: usize, position: usize) -> (u64, Kind)
        requires there { section < length self.now.sections }
        requires sealed { position < length (section_at self.now section).sealed }
        ensures { slice_get (section_at self.now section).sealed position ≡ Some result }
    {
        self.sections.sealed_at(section, position)
    }

    /// Where the last sealed block stands, as section and position: the last one in the sealed list of the section
    /// nearest the tail whose list is not empty. `None` exactly where no block is sealed.
    pub fn last_sealed(&self) -> Option<(usize, usize)>
        ensures last { IfSome result (λ at. IsLastSealed self.now at.0 at.1) }
        ensures none { IsNone result → NoneSealed self.now.sections }
        ensures block { option_map (λ at. sealed_block self.now at.0 at.1) result
            ≡ last_block self.now }
    {
        self.sections.last_sealed()
    }

    /// How many device blocks are sealed.
    pub fn sealed_devices(&self) -> usize
        requires { IsLoose self.now }
        ensures { result ≡ sealed_devices self.now }
    {
        self.sections.sealed_devices()
    }

    /// The section that has the block with the serial, active or sealed. `None` exactly where there is no such block.
    #[inline(always)]
    pub fn section_of(&self, serial: u64) -> Option<usize>
        ensures section { result ≡ section_of self.now serial }
        ensures stands { IfSome result (λ i. StandsIn serial i self.now.sections) }
    {
        self.sections.section_of(serial)
    }

    /// Where the object lies. `None` exactly where it is not stored.
    #[inline(always)]
    pub fn row(&self, object: u64) -> Option<Place>
        ensures { result ≡ row_at self.now object }
    {
        self.rows.get(object)
    }

    /// The objects whose home is the block with the serial, in rising order.
    ///
    /// # Errors
    ///
    /// [`NoMemory`] where memory was refused.
    pub fn homed(&self, serial: u64) -> Result<Vec<u64>, NoMemory>
        ensures { IfOk result (λ objects.
            objects.items ≡ objects_of home_of serial self.now.rows) }
    {
        Ok(self.rows.homed(serial)?)
    }

    /// The objects whose place is the block with the serial, in rising order.
    ///
    /// # Errors
    ///
    /// [`NoMemory`] where memory was refused.
    pub fn placed(&self, serial: u64) -> Result<Vec<u64>, NoMemory>
        ensures { IfOk result (λ objects.
            objects.items ≡ objects_of place_of serial self.now.rows) }
    {
        Ok(self.rows.placed(serial)?)
    }

    /// Whether any row's place is the block with the serial.
    pub fn is_placed(&self, serial: u64) -> bool
        ensures { result ≡ is_placed self.now serial }
    {
        self.rows.is_placed(serial)
    }

    /// The bytes of all rows.
    pub fn total(&self) -> u64
        requires { IsLoose self.now }
        ensures { result ≡ total self.now }
    {
        self.rows.total()
    }

    /// The fill of the block with the serial, in bytes: of a device block the rows whose home it is, of a virtual block
    /// the rows whose place it is; 0 where no such block is.
    #[tactic(auto, using(crate::proofs::Fills::fill_laws))]
    pub fn fill(&self, serial: u64) -> u64
        requires { IsLoose self.now }
        ensures fill { result ≡ fill self.now serial }
        ensures of_kind { IsHeldOfKind self.now serial result }
        ensures active { IsHeldWhereActive self.now serial result }
    {
        // a row's place is its home, or a virtual block, which is no row's home
        self.home_bytes(serial).max(self.place_bytes(serial))
    }

    /// The fill of the section's active block of the kind, in bytes.
    pub fn active_fill(&self, section: usize, kind: Kind) -> u64
        requires { section < length self.now.sections }
        ensures { result ≡ bytes_held kind self.now (active_of kind (section_at self.now section)) }
    {
        let serial = self.active(section, kind);
        match kind {
            Kind::Device => self.home_bytes(serial),
            Kind::Virtual => self.place_bytes(serial),
        }
    }

    /// The bytes of the rows whose place is one of the section's blocks, active or sealed.
    pub fn bytes(&self, section: usize) -> u64
        requires loose { IsLoose self.now }
        requires there { section < length self.now.sections }
        ensures { result ≡ section_bytes self.now section }
    {
        self.bytes[section]
    }

    /// The bytes of the sections nearer the tail.
    pub fn below(&self, section: usize) -> u64
        requires loose { IsLoose self.now }
        requires there { section < length self.now.sections }
        ensures { result ≡ bytes_below self.now section }
    {
        sum(&self.bytes[section + 1..])
    }

    /// The bytes of the rows whose home is the serial.
    pub(crate) fn home_bytes(&self, serial: u64) -> u64
        ensures { result ≡ bytes_held Kind.Device self.now serial }
    {
        self.rows.home_bytes(serial)
    }

    /// The bytes of the rows whose place is the serial.
    pub(crate) fn place_bytes(&self, serial: u64) -> u64
        ensures { result ≡ bytes_held Kind.Virtual self.now serial }
    {
        self.rows.place_bytes(serial)
    }
}

/// The sum of the numbers.
fn sum(numbers: &[u64]) -> u64
    requires { sum numbers.now < 2 ^ 64 }
    ensures { result ≡ sum numbers.now }
{
    numbers.iter().sum()
}

/// Rows come and go: what primitives and their undoing share.
impl Queue {
    /// A row comes, of an object that has none, whose place is a block of the section.
    pub(crate) fn put_row(
        &mut self,
        object: u64,
        row: Place,
        section: usize,
    ) -> Result<(), NoMemory>
        requires there { section < length self.old.sections }
        requires new { row_at self.old object ≡ None }
        requires sized { 1 ≤ row.size }
        requires room { total self.old + row.size < 2 ^ 64 }
        requires here { has_block row.place (section_at self.old section) ≡ true }
        requires only { IsOnlyIn section row.place self.old.sections }
        ensures put { OnOk result (self.new ≡ with_row self.old object row) }
    {
        self.rows.add(object, row)?;
        self.bytes[section] += row.size;
        Ok(())
    }

    /// The row of an object goes, which has one.
    pub(crate) fn take_row(&mut self, object: u64) -> Place
        requires loose { IsLoose self.old }
        requires resident { IsSome (row_at self.old object) }
        ensures row { row_at self.old object ≡ Some result }
        ensures rest { self.new ≡ after_remove self.old object }
    {
        let row = self.rows.remove(object);
        let section = self.sections.section_of(row.place).unwrap();
        self.bytes[section] -= row.size;
        row
    }
}

/// Sections are parted and joined, by primitives and by their undoing.
impl Queue {
    /// The bytes of the section's sealed blocks from a position on.
    fn weight_from(&self, section: usize, from: usize) -> u64
        requires loose { IsLoose self.now }
        requires there { section < length self.now.sections }
        requires within { from ≤ length (section_at self.now section).sealed }
        ensures { result ≡ weight_from self.now section from }
    {
        let mut bytes = 0;
        for position in from..self.sections.sealed(section) {
            let (serial, _) = self.sections.sealed_at(section, position);
            bytes += self.rows.place_bytes(serial);
        }
        bytes
    }

    /// Parts a section at the seam: the upper one of the two keeps its active blocks and its first `upper_sealed` sealed
    /// blocks. The lower one has the seam's active blocks, and the other sealed ones, of which the first is dropped for
    /// each of the active ones that did not vanish.
    pub(crate) fn part(&mut self, section: usize, seam: Seam) -> Result<(), NoMemory>
        requires loose { IsLoose self.old }
        requires there { section < length self.old.sections }
        requires within { seam.upper_sealed ≤ length (section_at self.old section).sealed }
        requires joins { IsJoined seam (section_at self.old section) }
        requires after { CanHave self.old (parted_at self.old.sections section seam) }
        ensures parted { OnOk result (self.new ≡ with_sections self.old
            (parted_at self.old.sections section seam) self.old.next) }
    {
        let lower = self.weight_from(section, seam.upper_sealed);
        self.bytes.insert(section + 1, lower)?;
        self.bytes[section] -= lower;
        self.sections.part(section, seam)?;
        Ok(())
    }

    /// Joins a section with the next one, but for those active blocks of the next one that vanish.
    pub(crate) fn join(&mut self, section: usize, vanished: Vanished) -> Result<(), NoMemory>
        requires loose { IsLoose self.old }
        requires there { section + 1 < length self.old.sections }
        requires after { CanHave self.old (joined_at self.old.sections section vanished) }
        ensures joined { OnOk result (self.new ≡ with_sections self.old
            (joined_at self.old.sections section vanished) self.old.next) }
    {
        self.sections.join(section, vanished)?;
        let lower = self.bytes.remove(section + 1);
        self.bytes[section] += lower;
        Ok(())
    }
}
