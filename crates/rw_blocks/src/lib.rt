#![tactic(auto)]
//! The priority queue of RIPQ (Tang, Huang, Lloyd, Kumar and Li, FAST 2015) as data, with primitives
//! that can be undone (reverse computation: Carothers, Perumalla and Fujimoto, 1999).
//!
//! A queue is a list of sections from head to tail. Each section has an active device block, an active
//! virtual block and a list of sealed blocks. A block is only a serial number: the rows, one for each
//! stored object, say what it holds. A row is found by its object, by the block that holds its bytes
//! (its home) and by the block that gives its priority (its place); the section of a block is found by
//! a lookup. Each primitive makes one change and returns a [`Mark`], with which [`Queue::undo`]
//! reverses it.
//!
//! Worked examples: `rw_cache_tests/src/primitives.rt`.

mod hints;
mod listed;
mod lists;
mod owners;
mod primitives;
mod queue;
mod row_map;
mod rows;
mod sealed_blocks;
mod section;
mod sections;
mod shape;
mod undo;

pub use queue::Queue;
pub use rw_vt::NoMemory;
pub use shape::{Shape, every_limit};

/// Where an object lies.
#[derive(Clone, Copy)]
pub struct Place {
    /// The object's size, in bytes: from 1 to the block size.
    pub size: u64,
    /// The serial of the device block that holds its bytes.
    pub home: u64,
    /// The serial of the block that gives its priority: its home, or a virtual block.
    pub place: u64,
}

/// Whether a block takes flash, or only records a raised priority.
#[derive(Clone, Copy)]
pub enum Kind {
    /// The block gathers objects and is written to flash whole.
    Device,
    /// The block takes no flash: it is a place in the queue for objects whose bytes lie elsewhere.
    Virtual,
}

/// Which of a section's two active blocks vanish where the section above takes over its blocks: those that hold nothing.
#[derive(Clone, Copy)]
pub struct Vanished {
    /// Whether the device block vanishes.
    pub device: bool,
    /// Whether the virtual block vanishes.
    pub virtual_block: bool,
}

impl Vanished {
    /// Both vanish: so it is where a split is undone.
    pub const BOTH: Vanished = Vanished {
        device: true,
        virtual_block: true,
    };
}

/// Where two sections were joined: by this they are parted again.
#[derive(Clone, Copy)]
pub struct Seam {
    /// How many sealed blocks the upper section had.
    pub upper_sealed: usize,
    /// The serial of the lower section's active device block.
    pub device: u64,
    /// The serial of the lower section's active virtual block.
    pub virtual_block: u64,
    /// Which of these two vanished. One that did not is sealed behind the upper section's blocks.
    pub vanished: Vanished,
}

/// What undoes one primitive: only what the undoing of its change needs and the state after does not say.
#[derive(Clone, Copy)]
pub enum Mark {
    /// Of `add`: the object that came.
    Add {
        object: u64,
    },
    /// Of `remove`: the object that left, and its row.
    Remove {
        object: u64,
        row: Place,
    },
    /// Of `rehome`: the object's home and place before.
    Rehome {
        object: u64,
        home: u64,
        place: u64,
    },
    /// Of `replace`: the object's place before.
    Replace {
        object: u64,
        place: u64,
    },
    /// Of `seal`: where the block was sealed, and of which kind it is.
    Seal {
        section: usize,
        kind: Kind,
    },
    /// Of `take_out`: the block, and where it stood.
    TakeOut {
        section: usize,
        position: usize,
        serial: u64,
        kind: Kind,
    },
    /// Of `split`: the upper section of the two.
    Split {
        section: usize,
    },
    /// Of `merge`: the upper section, and where the lower one was joined to it.
    Merge {
        section: usize,
        seam: Seam,
    },
}
