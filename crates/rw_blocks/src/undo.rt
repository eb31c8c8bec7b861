// Undoing a primitive by its mark.
ghost use Rattle.std.specs.Prelude.{◌≡◌, None, OnOk, IsSome};
ghost use Rattle.rw_blocks.specs.State.{row_at};
ghost use Rattle.rw_blocks.specs.Loose.{IsLoose};
ghost use Rattle.rw_blocks.specs.Primitives.{with_row};
ghost use Rattle.rw_blocks.specs.Undo.{undo_of, IsUndoable, IsWhatWasBefore};
ghost use Rattle.rw_blocks.specs.declared.Mark.TheVariants.{Rehome, Seal, TakeOut, Split, Merge};

use crate::{Kind, Mark, Place, Queue, Seam, Vanished};
use rw_vt::NoMemory;

/// Undoing.
impl Queue {
    /// Undoes a primitive by its mark, on the state right after it: the queue is again the whole of what it was before,
    /// every serial and the next serial included.
    ///
    /// # Errors
    ///
    /// [`NoMemory`] where memory was refused.
    pub fn undo(&mut self, mark: Mark) -> Result<(), NoMemory>
        requires { IsUndoable mark self.old }
        ensures effect { OnOk result (self.new ≡ undo_of mark self.old) }
        ensures restores { OnOk result (IsWhatWasBefore mark self.old self.new) }
        ensures kept { OnOk result (IsLoose self.new) }
    {
        match mark {
            Mark::Add { object } => {
                self.take_row(object);
                Ok(())
            }
            Mark::Remove { object, row } => self.put_row_again(object, row),
            Mark::Rehome {
                object,
                home,
                place,
            } => self.move_back(object, home, place),
            Mark::Replace { object, place } => {
                let home = self.row(object).unwrap().home;
                self.move_back(object, home, place)
            }
            Mark::Seal { section, kind } => {
                self.unseal(section, kind);
                Ok(())
            }
            Mark::TakeOut {
                section,
                position,
                serial,
                kind,
            } => self.put_back(section, position, serial, kind),
            Mark::Split { section } => self.unsplit(section),
            Mark::Merge { section, seam } => self.unmerge(section, seam),
        }
    }

    /// Gives an object that has no row the one that it had.
    fn put_row_again(&mut self, object: u64, row: Place) -> Result<(), NoMemory>
        requires loose { IsLoose self.old }
        requires none { row_at self.old object ≡ None }
        requires before { IsLoose (with_row self.old object row) }
        ensures { OnOk result (self.new ≡ with_row self.old object row) }
    {
        let section = self.sections.section_of(row.place).unwrap();
        self.put_row(object, row, section)
    }

    /// Gives an object the home and the place that it had.
    fn move_back(&mut self, object: u64, home: u64, place: u64) -> Result<(), NoMemory>
        requires loose { IsLoose self.old }
        requires resident { IsSome (row_at self.old object) }
        requires before { IsLoose (undo_of (Rehome object home place) self.old) }
        ensures { OnOk result (self.new ≡ undo_of (Rehome object home place) self.old) }
    {
        let size = self.take_row(object).size;
        self.put_row_again(object, Place { size, home, place })
    }

    /// Makes the block that was sealed active again, as if the one that took its place was never made.
    fn unseal(&mut self, section: usize, kind: Kind)
        requires { IsUndoable (Seal section kind) self.old }
        ensures { self.new ≡ undo_of (Seal section kind) self.old }
    {
        self.sections.unseal(section, kind);
        self.next -= 1;
    }

    /// Puts a block that was taken out back into its list.
    fn put_back(
        &mut self,
        section: usize,
        position: usize,
        serial: u64,
        kind: Kind,
    ) -> Result<(), NoMemory>
        requires { IsUndoable (TakeOut section position serial kind) self.old }
        ensures { OnOk result (self.new ≡ undo_of (TakeOut section position serial kind) self.old) }
    {
        self.sections.put_back(section, position, serial, kind)?;
        Ok(())
    }

    /// Puts the lower section of a split back into the upper one, as if its active blocks were never made.
    fn unsplit(&mut self, section: usize) -> Result<(), NoMemory>
        requires { IsUndoable (Split section) self.old }
        ensures { OnOk result (self.new ≡ undo_of (Split section) self.old) }
    {
        self.join(section, Vanished::BOTH)?;
        self.next -= 2;
        Ok(())
    }

    /// Makes two sections that were merged two again.
    fn unmerge(&mut self, section: usize, seam: Seam) -> Result<(), NoMemory>
        requires { IsUndoable (Merge section seam) self.old }
        ensures { OnOk result (self.new ≡ undo_of (Merge section seam) self.old) }
    {
        self.part(section, seam)
    }
}
