// The shape of a queue.
ghost use Rattle.std.specs.Prelude.{◌≡◌, ◌≤◌, ◌↔◌, IsSome, IfSome, IsTrue};
ghost use Rattle.rw_blocks.specs.Limits.{largest_block, most_blocks, most_sections};
ghost use Rattle.rw_blocks.specs.State.{IsShape, shape_state};

use std::marker::Model;

/// The shape of a queue, which never changes.
#[derive(Clone, Copy)]
pub struct Shape {
    sections: u64,
    block: u64,
    blocks: u64,
}

impl Model for Shape {
    ghost use Rattle.rw_blocks.specs.State.{ShapeState, IsShape, shape_state};

    ghost Value = { ShapeState };

    ghost view = { λ s. shape_state s.sections s.block s.blocks };

    ghost invariant = { λ s. IsShape s.sections s.block s.blocks };

    ghost inverse = { λ s. record { sections = s.sections; block = s.block; blocks = s.blocks } };
}

impl Shape {
    /// The most sections.
    pub const MAX_SECTIONS: u64 = 16;

    /// The largest block, in bytes.
    pub const MAX_BLOCK: u64 = 268_435_456;

    /// The most sealed device blocks.
    pub const MAX_BLOCKS: u64 = 65_536;

    /// The shape with at most `sections` sections (1 to [`MAX_SECTIONS`](Shape::MAX_SECTIONS)), blocks of `block` bytes
    /// (1 to [`MAX_BLOCK`](Shape::MAX_BLOCK)) and at most `blocks` sealed device blocks (1 to
    /// [`MAX_BLOCKS`](Shape::MAX_BLOCKS)). `None` exactly where one of the three is out of its range.
    /// Takes no memory.
    pub fn new(sections: u64, block: u64, blocks: u64) -> Option<Shape>
        ensures in_range { IsSome result ↔ IsShape sections block blocks }
        ensures shape { IfSome result (λ s. s ≡ shape_state sections block blocks) }
    {
        if is_in_range(sections, Self::MAX_SECTIONS)
            && is_in_range(block, Self::MAX_BLOCK)
            && is_in_range(blocks, Self::MAX_BLOCKS)
        {
            Some(Shape {
                sections,
                block,
                blocks,
            })
        } else {
            None
        }
    }

    /// The sections, the bytes of a block and the sealed device blocks, as `new` takes them. Takes no memory.
    pub fn limits(&self) -> (u64, u64, u64)
        ensures shape { result ≡ (self.now.sections, self.now.block, self.now.blocks) }
        ensures in_range { IsShape result.0 result.1 result.2 }
    {
        (self.sections, self.block, self.blocks)
    }
}

/// Whether the number is one of 1 to `most`.
fn is_in_range(number: u64, most: u64) -> bool
    ensures { IsTrue result ↔ (1 ≤ number) × (number ≤ most) }
{
    (1..=most).contains(&number)
}

/// Each of the constants of [`Shape`] is the limit that stands in `specs/Limits.antt`, which the definitions cite. The
/// call itself does nothing.
pub fn every_limit()
    ensures sections { Shape.MAX_SECTIONS ≡ most_sections }
    ensures block { Shape.MAX_BLOCK ≡ largest_block }
    ensures blocks { Shape.MAX_BLOCKS ≡ most_blocks }
{}
