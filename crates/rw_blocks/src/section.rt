// One section of a queue: its two active blocks, and its sealed blocks from front to back.
ghost use Rattle.std.specs.Prelude.{◌≡◌, ◌<◌, ◌≤◌, length, OnOk, IfOk, slice_get, Some};
ghost use Rattle.rw_blocks.specs.Sections.{active_of, new_section, devices_in};
ghost use Rattle.rw_blocks.specs.Changes.{with_active, section_sealing, section_losing, section_joining, upper_of, section_unsealing, section_gaining, lower_of};

use crate::sealed_blocks::SealedBlocks;
use crate::{Kind, Seam, Vanished};
use std::alloc::{AllocError, Global};
use std::marker::Model;

/// One section. Contracts see the serials of its active blocks, and its sealed blocks from front to back, each with its
/// kind.
#[derive(Drop)]
pub struct Section {
    active_device: u64,
    active_virtual: u64,
    sealed: SealedBlocks,
}

impl Model for Section {
    ghost use Rattle.rw_blocks.specs.Sections.{SectionState};

    ghost Value = { SectionState };

    ghost view = { λ s. record {
      active_device = s.active_device;
      active_virtual = s.active_virtual;
      sealed = s.sealed;
    } };
}

impl Section {
    /// The section whose active blocks are `active_device` and `active_virtual`, with nothing sealed.
    pub fn new(alloc: Global, active_device: u64, active_virtual: u64) -> Self
        ensures { result ≡ new_section active_device active_virtual }
    {
        Section {
            active_device,
            active_virtual,
            sealed: SealedBlocks::new(alloc),
        }
    }

    /// The serial of the active block of the kind.
    pub fn active(&self, kind: Kind) -> u64
        ensures { result ≡ active_of kind self.now }
    {
        match kind {
            Kind::Device => self.active_device,
            Kind::Virtual => self.active_virtual,
        }
    }

    /// How many blocks are sealed.
    pub fn sealed(&self) -> usize
        ensures { result ≡ length self.now.sealed }
    {
        self.sealed.len()
    }

    /// A sealed block: its serial and its kind.
    pub fn sealed_at(&self, position: usize) -> (u64, Kind)
        requires { position < length self.now.sealed }
        ensures { slice_get self.now.sealed position ≡ Some result }
    {
        self.sealed.at(position)
    }

    /// How many device blocks are sealed.
    pub fn sealed_devices(&self) -> usize
        ensures { result ≡ devices_in self.now }
    {
        self.sealed.devices()
    }

    /// Moves the active block of the kind to the front of the sealed list, and makes the fresh one active.
    ///
    /// # Errors
    ///
    /// [`AllocError`] where memory was refused; nothing is said of the section then. The changes below say the same.
    pub fn seal(&mut self, kind: Kind, fresh: u64) -> Result<(), AllocError>
        ensures { OnOk result (self.new ≡ section_sealing kind fresh self.old) }
    {
        let active = self.active(kind);
        self.sealed.push_front(active, kind)?;
        self.set_active(kind, fresh);
        Ok(())
    }

    /// Makes the front sealed block active again, as one of the kind.
    pub fn unseal(&mut self, kind: Kind)
        requires { 0 < length self.old.sealed }
        ensures { self.new ≡ section_unsealing kind self.old }
    {
        let (serial, _) = self.sealed.pop_front().unwrap();
        self.set_active(kind, serial);
    }

    /// Makes the block with the serial the active one of the kind.
    fn set_active(&mut self, kind: Kind, serial: u64)
        ensures { self.new ≡ with_active kind serial self.old }
    {
        match kind {
            Kind::Device => self.active_device = serial,
            Kind::Virtual => self.active_virtual = serial,
        }
    }

    /// Takes a sealed block out of the list: its serial and its kind.
    pub fn take_out(&mut self, position: usize) -> (u64, Kind)
        requires { position < length self.old.sealed }
        ensures block { slice_get self.old.sealed position ≡ Some result }
        ensures rest { self.new ≡ section_losing position self.old }
    {
        self.sealed.remove(position)
    }

    /// Puts a block into the sealed list, at the position.
    pub fn put_back(&mut self, position: usize, serial: u64, kind: Kind) -> Result<(), AllocError>
        requires { position ≤ length self.old.sealed }
        ensures { OnOk result (self.new ≡ section_gaining position (serial, kind) self.old) }
    {
        self.sealed.insert(position, serial, kind)
    }

    /// Takes over the blocks of the section below, but for the active ones that vanish.
    pub fn join(&mut self, lower: Section, vanished: Vanished) -> Result<(), AllocError>
        ensures { OnOk result (self.new ≡ section_joining vanished self.old lower) }
    {
        if !vanished.device {
            self.sealed.push_back(lower.active_device, Kind::Device)?;
        }
        if !vanished.virtual_block {
            self.sealed.push_back(lower.active_virtual, Kind::Virtual)?;
        }
        self.sealed.append(lower.sealed)
    }

    /// Undoes `join`: keeps the sealed blocks that the upper section had, and gives the section below back. Those of its
    /// active blocks that did not vanish stand first among the other sealed ones.
    pub fn part(&mut self, seam: Seam) -> Result<Section, AllocError>
        requires { seam.upper_sealed ≤ length self.old.sealed }
        ensures upper { OnOk result (self.new ≡ upper_of seam.upper_sealed self.old) }
        ensures lower { IfOk result (λ s. s ≡ lower_of seam self.old) }
    {
        let mut sealed = self.sealed.split_off(seam.upper_sealed)?;
        if !seam.vanished.device {
            sealed.pop_front();
        }
        if !seam.vanished.virtual_block {
            sealed.pop_front();
        }
        Ok(Section {
            active_device: seam.device,
            active_virtual: seam.virtual_block,
            sealed,
        })
    }
}
