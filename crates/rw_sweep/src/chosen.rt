// The configurations that a sweep runs.
ghost use Rattle.std.specs.Prelude.{◌≡◌, IfOk, map};
ghost use Rattle.rw_sweep.specs.Points.{chosen_points, points_of_part, points_under, with_facts};

use crate::facts::Facts;
use crate::part::Part;
use crate::point::Point;
use rw_photo::NoMemory;
use rw_report::Outlook;
use std::alloc::Global;

/// The configurations of a part, in order, with their places.
fn points_of_part(alloc: Global, points: &[Point], part: Part) -> Result<Vec<Point>, NoMemory>
    ensures { IfOk result (λ own.
        own.items ≡ points_of_part part.index part.count points.now) }
{
    let mut own = Vec::new(alloc);
    for (place, point) in points.iter().enumerate() {
        if part.has(place) {
            own.push(Point {
                place: Some(place as u64),
                ..*point
            })?;
        }
    }
    Ok(own)
}

/// The configurations of a grid, or of a part of it, in order, each with this outlook; those of a part with their places.
pub(crate) fn points_under(
    alloc: Global,
    points: &[Point],
    part: Option<Part>,
    outlook: Outlook,
) -> Result<Vec<Point>, NoMemory>
    ensures { IfOk result (λ own. own.items ≡ points_under part outlook points.now) }
{
    let chosen = chosen_points(alloc, points, part)?;
    let mut own = Vec::with_capacity(alloc, chosen.len())?;
    for point in chosen.as_slice() {
        own.push(Point {
            outlook: Some(outlook),
            ..*point
        })?;
    }
    Ok(own)
}

/// The same configurations, each with the facts of the trace that it runs.
pub(crate) fn points_of_trace(
    alloc: Global,
    points: &[Point],
    facts: Facts,
) -> Result<Vec<Point>, NoMemory>
    ensures { IfOk result (λ own. own.items ≡ map (with_facts facts) points.now) }
{
    let mut own = Vec::with_capacity(alloc, points.len())?;
    for point in points {
        own.push(Point { facts, ..*point })?;
    }
    Ok(own)
}

/// The configurations of a grid, or of a part of it, in order; those of a part with their places.
pub(crate) fn chosen_points(
    alloc: Global,
    points: &[Point],
    part: Option<Part>,
) -> Result<Vec<Point>, NoMemory>
    ensures { IfOk result (λ chosen. chosen.items ≡ chosen_points part points.now) }
{
    match part {
        Some(part) => points_of_part(alloc, points, part),
        None => Ok(Vec::from_slice(alloc, points)?),
    }
}
