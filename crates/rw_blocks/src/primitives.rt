// The primitives of a queue: each gives the mark that undoes it.
ghost use Rattle.std.specs.Prelude.{◌≡◌, ◌≤◌, ◌<◌, ◌+◌, ◌^◌, ◌≢◌, length, None, Some, OnOk, IfOk, IfSome, IsNone, IsSome};
ghost use Rattle.rw_blocks.specs.Words.{most_bytes};
ghost use Rattle.rw_blocks.specs.State.{row_at, row_or, section_at, sealed_block};
ghost use Rattle.rw_blocks.specs.Sums.{total};
ghost use Rattle.rw_blocks.specs.Loose.{IsLoose, IsFree};
ghost use Rattle.rw_blocks.specs.Primitives.{HasRoom, after_add, after_remove, after_rehome, after_replace, after_seal, after_take_out, after_split, after_merge};
ghost use Rattle.rw_blocks.specs.Undo.{Undoes, seam_below};
ghost use Rattle.rw_blocks.specs.Sections.{active_of};
ghost use Rattle.rw_blocks.specs.Tags.{StandsIn};
ghost use Rattle.rw_blocks.specs.Questions.{is_placed};

use crate::{Kind, Mark, Place, Queue, Seam, Vanished};
use rw_vt::NoMemory;

/// Primitives. Each changes only what it says, on every loose queue, leaves a loose queue, and gives the mark that
/// undoes it.
impl Queue {
    /// Stores an object of `size` bytes: its home and its place are the section's active device block. The object is
    /// not stored yet, its size is at least 1 and fits that block, and all rows stay within 2^48 bytes.
    ///
    /// # Errors
    ///
    /// [`NoMemory`] where memory was refused.
    pub fn add(&mut self, object: u64, size: u64, section: usize) -> Result<Mark, NoMemory>
        requires loose { IsLoose self.old }
        requires there { section < length self.old.sections }
        requires new { row_at self.old object ≡ None }
        requires some { 1 ≤ size }
        requires fits { HasRoom Kind.Device self.old section size }
        requires room { total self.old + size ≤ most_bytes }
        ensures effect { OnOk result (self.new ≡ after_add self.old object size section) }
        ensures undoes { IfOk result (λ mark. Undoes mark self.old self.new) }
        ensures kept { OnOk result (IsLoose self.new) }
    {
        let home = self.sections.active(section, Kind::Device);
        let row = Place {
            size,
            home,
            place: home,
        };
        self.put_row(object, row, section)?;
        Ok(Mark::Add { object })
    }

    /// Lets an object go: its row leaves. The object is stored.
    ///
    /// # Errors
    ///
    /// [`NoMemory`] where memory was refused.
    pub fn remove(&mut self, object: u64) -> Result<Mark, NoMemory>
        requires loose { IsLoose self.old }
        requires resident { IsSome (row_at self.old object) }
        ensures effect { OnOk result (self.new ≡ after_remove self.old object) }
        ensures undoes { IfOk result (λ mark. Undoes mark self.old self.new) }
        ensures kept { OnOk result (IsLoose self.new) }
    {
        let row = self.take_row(object);
        Ok(Mark::Remove { object, row })
    }

    /// Writes an object again: its home and its place become the section's active device block. The object is stored,
    /// and its size fits that block.
    ///
    /// # Errors
    ///
    /// [`NoMemory`] where memory was refused.
    pub fn rehome(&mut self, object: u64, section: usize) -> Result<Mark, NoMemory>
        requires loose { IsLoose self.old }
        requires there { section < length self.old.sections }
        requires resident { IsSome (row_at self.old object) }
        requires fits { HasRoom Kind.Device self.old section (row_or self.old object).size }
        ensures effect { OnOk result (self.new ≡ after_rehome self.old object section) }
        ensures undoes { IfOk result (λ mark. Undoes mark self.old self.new) }
        ensures kept { OnOk result (IsLoose self.new) }
    {
        let active = self.sections.active(section, Kind::Device);
        let Place { size, home, place } = self.take_row(object);
        let row = Place {
            size,
            home: active,
            place: active,
        };
        self.put_row(object, row, section)?;
        Ok(Mark::Rehome {
            object,
            home,
            place,
        })
    }

    /// [`rehome`](Queue::rehome) of an object whose row is known, and the section of its place, where the size fits the
    /// section's active device block. Otherwise nothing changes, and the answer is `None`.
    ///
    /// # Errors
    ///
    /// [`NoMemory`] where memory was refused.
    pub fn rehome_within(
        &mut self,
        object: u64,
        row: Place,
        from: usize,
        section: usize,
    ) -> Result<Option<Mark>, NoMemory>
        requires loose { IsLoose self.old }
        requires there { section < length self.old.sections }
        requires row { row_at self.old object ≡ Some row }
        requires stands { StandsIn row.place from self.old.sections }
        ensures effect { IfOk result (λ mark. IfSome mark (λ m.
            self.new ≡ after_rehome self.old object section)) }
        ensures undoes { IfOk result (λ mark. IfSome mark (λ m. Undoes m self.old self.new)) }
        ensures kept { IfOk result (λ mark. IfSome mark (λ m. IsLoose self.new)) }
        ensures fits { IfOk result (λ mark. IfSome mark (λ m.
            HasRoom Kind.Device self.old section row.size)) }
        ensures full { IfOk result (λ mark. IsNone mark → self.new ≡ self.old) }
    {
        let active = self.sections.active(section, Kind::Device);
        let most = self.block_size();
        if !self.rows.rehome_within(object, row, active, most)? {
            return Ok(None);
        }
        self.bytes[from] -= row.size;
        self.bytes[section] += row.size;
        Ok(Some(Mark::Rehome {
            object,
            home: row.home,
            place: row.place,
        }))
    }

    /// Raises an object's priority without writing it: its place becomes the section's active virtual block, and its
    /// home stays. The object is stored, and its size fits that block.
    ///
    /// # Errors
    ///
    /// [`NoMemory`] where memory was refused.
    pub fn replace(&mut self, object: u64, section: usize) -> Result<Mark, NoMemory>
        requires loose { IsLoose self.old }
        requires there { section < length self.old.sections }
        requires resident { IsSome (row_at self.old object) }
        requires fits { HasRoom Kind.Virtual self.old section (row_or self.old object).size }
        ensures effect { OnOk result (self.new ≡ after_replace self.old object section) }
        ensures undoes { IfOk result (λ mark. Undoes mark self.old self.new) }
        ensures kept { OnOk result (IsLoose self.new) }
    {
        let row = self.rows.get(object).unwrap();
        self.replace_row(object, row, section)
    }

    /// [`replace`](Queue::replace) of an object whose row is known, and is not looked up again.
    ///
    /// # Errors
    ///
    /// [`NoMemory`] where memory was refused.
    pub fn replace_row(&mut self, object: u64, row: Place, section: usize) -> Result<Mark, NoMemory>
        requires loose { IsLoose self.old }
        requires there { section < length self.old.sections }
        requires row { row_at self.old object ≡ Some row }
        requires fits { HasRoom Kind.Virtual self.old section row.size }
        ensures effect { OnOk result (self.new ≡ after_replace self.old object section) }
        ensures undoes { IfOk result (λ mark. Undoes mark self.old self.new) }
        ensures kept { OnOk result (IsLoose self.new) }
    {
        let active = self.sections.active(section, Kind::Virtual);
        if row.place == active {
            return Ok(Mark::Replace {
                object,
                place: row.place,
            });
        }
        self.rows.replace(object, row, active)?;
        let from = self.sections.section_of(row.place).unwrap();
        self.bytes[from] -= row.size;
        self.bytes[section] += row.size;
        Ok(Mark::Replace {
            object,
            place: row.place,
        })
    }

    /// [`add`](Queue::add) where the size fits the section's active device block. Otherwise nothing changes, and the
    /// answer is `None`. By this call the block is found once.
    ///
    /// # Errors
    ///
    /// [`NoMemory`] where memory was refused.
    #[inline(always)]
    pub fn add_within(
        &mut self,
        object: u64,
        size: u64,
        section: usize,
    ) -> Result<Option<Mark>, NoMemory>
        requires loose { IsLoose self.old }
        requires there { section < length self.old.sections }
        requires new { row_at self.old object ≡ None }
        requires some { 1 ≤ size }
        requires room { total self.old + size ≤ most_bytes }
        ensures effect { IfOk result (λ mark. IfSome mark (λ m.
            self.new ≡ after_add self.old object size section)) }
        ensures undoes { IfOk result (λ mark. IfSome mark (λ m. Undoes m self.old self.new)) }
        ensures kept { IfOk result (λ mark. IfSome mark (λ m. IsLoose self.new)) }
        ensures fits { IfOk result (λ mark. IfSome mark (λ m.
            HasRoom Kind.Device self.old section size)) }
        ensures full { IfOk result (λ mark. IsNone mark → self.new ≡ self.old) }
    {
        let active = self.sections.active(section, Kind::Device);
        let most = self.block_size();
        if !self.rows.add_within(object, size, active, most)? {
            return Ok(None);
        }
        self.bytes[section] += size;
        Ok(Some(Mark::Add { object }))
    }

    /// [`replace`](Queue::replace) of an object whose row is known, and the section of its place, where the size fits the
    /// section's active virtual block, which is not its place. Beside the mark stands whether the place before is still
    /// that of any row. Otherwise nothing changes, and the answer is `None`. By this call each block is found once.
    ///
    /// # Errors
    ///
    /// [`NoMemory`] where memory was refused.
    #[inline(always)]
    pub fn replace_within(
        &mut self,
        object: u64,
        row: Place,
        from: usize,
        section: usize,
    ) -> Result<Option<(Mark, bool)>, NoMemory>
        requires loose { IsLoose self.old }
        requires there { section < length self.old.sections }
        requires row { row_at self.old object ≡ Some row }
        requires stands { StandsIn row.place from self.old.sections }
        requires other { row.place ≢ active_of Kind.Virtual (section_at self.old section) }
        ensures effect { IfOk result (λ done. IfSome done (λ d.
            self.new ≡ after_replace self.old object section)) }
        ensures undoes { IfOk result (λ done. IfSome done (λ d. Undoes d.0 self.old self.new)) }
        ensures kept { IfOk result (λ done. IfSome done (λ d. IsLoose self.new)) }
        ensures fits { IfOk result (λ done. IfSome done (λ d.
            HasRoom Kind.Virtual self.old section row.size)) }
        ensures left { IfOk result (λ done. IfSome done (λ d.
            d.1 ≡ is_placed self.new row.place)) }
        ensures full { IfOk result (λ done. IsNone done → self.new ≡ self.old) }
    {
        let active = self.sections.active(section, Kind::Virtual);
        let most = self.block_size();
        let Some(left) = self.rows.replace_within(object, row, active, most)? else {
            return Ok(None);
        };
        self.bytes[from] -= row.size;
        self.bytes[section] += row.size;
        let mark = Mark::Replace {
            object,
            place: row.place,
        };
        Ok(Some((mark, left)))
    }

    /// Seals the section's active block of the kind: it goes to the front of the sealed list, and a fresh block with
    /// the next serial is active in its place. The next serial is below 2^63.
    ///
    /// # Errors
    ///
    /// [`NoMemory`] where memory was refused.
    pub fn seal(&mut self, section: usize, kind: Kind) -> Result<Mark, NoMemory>
        requires loose { IsLoose self.old }
        requires there { section < length self.old.sections }
        requires fresh { self.old.next < 2 ^ 63 }
        ensures effect { OnOk result (self.new ≡ after_seal self.old section kind) }
        ensures undoes { IfOk result (λ mark. Undoes mark self.old self.new) }
        ensures kept { OnOk result (IsLoose self.new) }
    {
        self.sections.seal(section, kind, self.next)?;
        self.next += 1;
        Ok(Mark::Seal { section, kind })
    }

    /// Takes a sealed block out of its list. It is no row's home or place.
    ///
    /// # Errors
    ///
    /// [`NoMemory`] where memory was refused.
    pub fn take_out(&mut self, section: usize, position: usize) -> Result<Mark, NoMemory>
        requires loose { IsLoose self.old }
        requires there { section < length self.old.sections }
        requires sealed { position < length (section_at self.old section).sealed }
        requires free { IsFree self.old (sealed_block self.old section position).0 }
        ensures effect { OnOk result (self.new ≡ after_take_out self.old section position) }
        ensures undoes { IfOk result (λ mark. Undoes mark self.old self.new) }
        ensures kept { OnOk result (IsLoose self.new) }
    {
        let (serial, kind) = self.sections.take_out(section, position);
        Ok(Mark::TakeOut {
            section,
            position,
            serial,
            kind,
        })
    }

    /// Splits a section: it keeps its active blocks and its first `keep` sealed blocks, and a section with the others
    /// follows it, whose active blocks are fresh, the device block first. There are fewer sections than the shape
    /// allows, `keep` is at most the number of sealed blocks, and the next serial is below 2^63 - 1.
    ///
    /// # Errors
    ///
    /// [`NoMemory`] where memory was refused.
    pub fn split(&mut self, section: usize, keep: usize) -> Result<Mark, NoMemory>
        requires loose { IsLoose self.old }
        requires there { section < length self.old.sections }
        requires few { length self.old.sections < self.old.shape.sections }
        requires within { keep ≤ length (section_at self.old section).sealed }
        requires fresh { self.old.next + 1 < 2 ^ 63 }
        ensures effect { OnOk result (self.new ≡ after_split self.old section keep) }
        ensures undoes { IfOk result (λ mark. Undoes mark self.old self.new) }
        ensures kept { OnOk result (IsLoose self.new) }
    {
        let seam = Seam {
            upper_sealed: keep,
            device: self.next,
            virtual_block: self.next + 1,
            vanished: Vanished::BOTH,
        };
        self.part(section, seam)?;
        self.next += 2;
        Ok(Mark::Split { section })
    }

    /// Merges a section with the next one towards the tail, which is there. The active blocks are the upper section's.
    /// Behind its sealed blocks come the lower section's active device block, its active virtual block, each of them
    /// only where it holds something, and its sealed blocks.
    ///
    /// # Errors
    ///
    /// [`NoMemory`] where memory was refused.
    pub fn merge(&mut self, section: usize) -> Result<Mark, NoMemory>
        requires loose { IsLoose self.old }
        requires there { section + 1 < length self.old.sections }
        ensures effect { OnOk result (self.new ≡ after_merge self.old section) }
        ensures undoes { IfOk result (λ mark. Undoes mark self.old self.new) }
        ensures kept { OnOk result (IsLoose self.new) }
    {
        let seam = self.seam_below(section);
        self.join(section, seam.vanished)?;
        Ok(Mark::Merge { section, seam })
    }

    /// Where the section below is joined to the section by a merge.
    fn seam_below(&self, section: usize) -> Seam
        requires loose { IsLoose self.now }
        requires there { section + 1 < length self.now.sections }
        ensures { result ≡ seam_below self.now section }
    {
        let device = self.active(section + 1, Kind::Device);
        let virtual_block = self.active(section + 1, Kind::Virtual);
        Seam {
            upper_sealed: self.sealed(section),
            device,
            virtual_block,
            vanished: Vanished {
                device: self.home_bytes(device) == 0,
                virtual_block: self.place_bytes(virtual_block) == 0,
            },
        }
    }
}
