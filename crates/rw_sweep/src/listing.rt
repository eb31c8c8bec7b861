ghost use Rattle.std.specs.Prelude.{◌≡◌, IfOk};
ghost use Rattle.rw_sweep.specs.Lists.{list_of_part};

use crate::grid::Grid;
use crate::part::Part;
use crate::table::{list_header, write_listed};
use rw_photo::NoMemory;
use std::alloc::Global;

/// The configurations of a part as a list: a header, and a line for each, in order, which begins with its place in the grid.
///
/// # Errors
///
/// A request for memory was refused.
pub fn list(alloc: Global, grid: &Grid, part: Part) -> Result<Vec<u8>, NoMemory>
    ensures { IfOk result (λ text.
        text.items ≡ list_of_part grid.now part.index part.count) }
{
    let mut text = list_header(alloc)?;
    for (place, point) in grid.points().iter().enumerate() {
        if part.has(place) {
            write_listed(&mut text, place as u64, point.choice)?;
        }
    }
    Ok(text)
}
