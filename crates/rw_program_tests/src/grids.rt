// Grids to sweep over: an edge and an origin, of sections of one block size.
use rw_photo::Policy;
use rw_report::Format;
use rw_sweep::{Axes, Grid, Outlook, Part, Sweeping};
use std::alloc::{AllocError, Global};

/// Two lists of numbers.
fn lists(alloc: Global, first: &[u64], second: &[u64]) -> Result<(Vec<u64>, Vec<u64>), AllocError> {
    let first = Vec::from_slice(alloc, first)?;
    let second = Vec::from_slice(alloc, second)?;
    Ok((first, second))
}

/// An edge and an origin of one section under these policies, with blocks of this size and these numbers of them.
pub fn axes(
    alloc: Global,
    policies: &[Policy],
    block: u64,
    edge_blocks: &[u64],
    origin_blocks: &[u64],
) -> Result<Axes, AllocError> {
    let policies = Vec::from_slice(alloc, policies)?;
    let (sections, blocks) = lists(alloc, &[1], &[block])?;
    let (edge_blocks, origin_blocks) = lists(alloc, edge_blocks, origin_blocks)?;
    let (edges, origins) = lists(alloc, &[1], &[1])?;
    let (up, down) = lists(alloc, &[3], &[3])?;
    Ok(Axes {
        policies,
        sections,
        blocks,
        edge_blocks,
        origin_blocks,
        edges,
        origins,
        up,
        down,
        back: Vec::from_slice(alloc, &[10])?,
        reclaim: false,
        ticks_a_second: None,
    })
}

/// A sweep of a grid, or of a part of it, that writes what the whole run counts, as text.
pub fn sweeping(grid: &Grid, part: Option<Part>, workers: u32) -> Sweeping<'_> {
    Sweeping {
        grid,
        part,
        workers,
        outlook: Outlook {
            warm_up: None,
            every: None,
            format: Format::Text,
        },
    }
}

/// The grid of these policies and numbers of blocks on the edge, with two blocks of 10 bytes at the origin.
pub fn grid(alloc: Global, policies: &[Policy], edge_blocks: &[u64]) -> Option<Grid> {
    let axes = axes(alloc, policies, 10, edge_blocks, &[2]).ok()?;
    Grid::new(alloc, axes).ok()
}
