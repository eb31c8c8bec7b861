// The sealed blocks of a section, with the count of the device blocks among them.
ghost use Rattle.std.specs.Prelude.{◌≡◌, ◌<◌, ◌≤◌, [], ◌∷◌, ◌++◌, length, OnOk, IfOk, take, drop, insert, remove, slice_get, Some, if◌then◌else◌};
ghost use Rattle.rw_blocks.specs.Sections.{is_kind, device_count_of};

use crate::Kind;
use std::alloc::{AllocError, Global};
use std::collections::VecDeque;
use std::marker::Model;

/// Sealed blocks, each a serial with its kind. Contracts see their list from front to back. Beside it stands how many of
/// them are device blocks, so that none counts them.
#[derive(Drop)]
pub struct SealedBlocks {
    blocks: VecDeque<(u64, Kind)>,
    devices: usize,
}

impl Model for SealedBlocks {
    ghost use Rattle.std.specs.Prelude.{◌≡◌, List};
    ghost use Rattle.rw_numbers.specs.Words.{Serial};
    ghost use Rattle.rw_blocks.specs.declared.Kind.{Kind};
    ghost use Rattle.rw_blocks.specs.Sections.{device_count_of};

    ghost Value = { List (Serial × Kind) };

    ghost view = { λ s. s.blocks.items };

    // how many of the blocks are device blocks
    ghost invariant = { λ s. s.devices ≡ device_count_of s.blocks.items };
}

/// What a block of the kind adds to the count of device blocks.
fn counted(kind: Kind) -> usize
    ensures { result ≡ (if is_kind Kind.Device kind then 1 else 0) }
{
    match kind {
        Kind::Device => 1,
        Kind::Virtual => 0,
    }
}

/// How many of the blocks are device blocks.
fn device_count(blocks: &VecDeque<(u64, Kind)>) -> usize
    ensures { result ≡ device_count_of blocks.now.items }
{
    blocks
        .iter()
        .filter(|block| block.1 == Kind::Device)
        .count()
}

impl SealedBlocks {
    /// No block.
    pub fn new(alloc: Global) -> Self
        ensures { result ≡ [] }
    {
        SealedBlocks {
            blocks: VecDeque::new(alloc),
            devices: 0,
        }
    }

    /// How many blocks there are.
    pub fn len(&self) -> usize
        ensures { result ≡ length self.now }
    {
        self.blocks.len()
    }

    /// The block at the position.
    pub fn at(&self, position: usize) -> (u64, Kind)
        requires { position < length self.now }
        ensures { slice_get self.now position ≡ Some result }
    {
        self.blocks[position]
    }

    /// How many device blocks there are.
    pub fn devices(&self) -> usize
        ensures { result ≡ device_count_of self.now }
    {
        self.devices
    }

    /// A block comes to the front.
    ///
    /// # Errors
    ///
    /// [`AllocError`] where memory was refused; nothing is said of the blocks then. The changes below say the same.
    pub fn push_front(&mut self, serial: u64, kind: Kind) -> Result<(), AllocError>
        ensures { OnOk result (self.new ≡ (serial, kind) ∷ self.old) }
    {
        self.blocks.push_front((serial, kind))?;
        self.devices += counted(kind);
        Ok(())
    }

    /// A block comes to the back.
    pub fn push_back(&mut self, serial: u64, kind: Kind) -> Result<(), AllocError>
        ensures { OnOk result (self.new ≡ self.old ++ (serial, kind) ∷ []) }
    {
        self.blocks.push_back((serial, kind))?;
        self.devices += counted(kind);
        Ok(())
    }

    /// A block comes to the position.
    pub fn insert(&mut self, position: usize, serial: u64, kind: Kind) -> Result<(), AllocError>
        requires { position ≤ length self.old }
        ensures { OnOk result (self.new ≡ insert self.old position (serial, kind)) }
    {
        self.blocks.insert(position, (serial, kind))?;
        self.devices += counted(kind);
        Ok(())
    }

    /// The front block goes, if there is one.
    pub fn pop_front(&mut self) -> Option<(u64, Kind)>
        ensures front { result ≡ slice_get self.old 0 }
        ensures rest { self.new ≡ drop 1 self.old }
    {
        let (serial, kind) = self.blocks.pop_front()?;
        self.devices -= counted(kind);
        Some((serial, kind))
    }

    /// The block at the position goes.
    pub fn remove(&mut self, position: usize) -> (u64, Kind)
        requires { position < length self.old }
        ensures block { slice_get self.old position ≡ Some result }
        ensures rest { self.new ≡ remove self.old position }
    {
        let (serial, kind) = self.blocks.remove(position).unwrap();
        self.devices -= counted(kind);
        (serial, kind)
    }

    /// Keeps the first `keep` blocks, and gives the others.
    pub fn split_off(&mut self, keep: usize) -> Result<SealedBlocks, AllocError>
        requires { keep ≤ length self.old }
        ensures kept { OnOk result (self.new ≡ take keep self.old) }
        ensures others { IfOk result (λ others. others ≡ drop keep self.old) }
    {
        let blocks = self.blocks.split_off(keep)?;
        let devices = device_count(&blocks);
        self.devices -= devices;
        Ok(SealedBlocks { blocks, devices })
    }

    /// Takes over the other blocks, behind its own.
    pub fn append(&mut self, others: SealedBlocks) -> Result<(), AllocError>
        ensures { OnOk result (self.new ≡ self.old ++ others) }
    {
        let mut blocks = others.blocks;
        self.blocks.append(&mut blocks)?;
        self.devices += others.devices;
        Ok(())
    }
}
