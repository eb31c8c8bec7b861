ghost use Rattle.std.specs.Prelude.{◌≡◌, ◌*◌, ◌^◌, ◌-◌, ◌++◌, ◌<◌, ◌≤◌, ◌↔◌, min, map, length, All, [], Err, IsTrue, IsSome, IfOk, IfSome, OnOk};
ghost use Rattle.std.specs.List.{Any};
ghost use Rattle.rw_sweep.specs.Grids.{IsConfigOf, IsInGridRanges, combinations, least_edges, least_of};
ghost use Rattle.rw_sweep.specs.Points.{ArePoints, IsPlain, IsPoint};
ghost use Rattle.rw_photo.specs.Limits.{most_edges};
ghost use Rattle.rw_sweep.specs.Limits.{most_configurations};
ghost use Rattle.rw_sweep.specs.Widening.{first_choice, widened, with_number};

use crate::axes::{Axes, Axis};
use crate::choice::Choice;
use crate::facts::Facts;
use crate::point::Point;
use rw_photo::{Config, NoMemory, Policy, Shape};
use std::alloc::Global;
use std::marker::Model;

/// Why there is no grid of these axes.
#[derive(Clone, Copy, Debug, PartialEq, Eq, thiserror::Error)]
pub enum GridFault {
    /// There are more than [`MAX_CONFIGURATIONS`] configurations.
    #[error("grid: too many configurations")]
    TooMany,
    /// A number of one of the configurations is out of its range.
    #[error("grid: range")]
    OutOfRange,
    /// A request for memory was refused.
    #[error("memory")]
    Memory,
}

impl From<NoMemory> for GridFault {
    ghost from_gives = { λ _ fault. fault ≡ Memory };

    ghost use Rattle.rw_sweep.specs.declared.grid.GridFault.TheVariants.{Memory};

    fn from(_refusal: NoMemory) -> GridFault {
        GridFault::Memory
    }
}

/// The most configurations of a grid: 2^16.
pub const MAX_CONFIGURATIONS: u64 = 1 << 16;

impl Choice {
    /// The choice with another number at an axis.
    fn with(self, axis: Axis, number: u64) -> Choice
        ensures { result ≡ with_number axis self number }
    {
        match axis {
            Axis::Sections => Choice {
                sections: number,
                ..self
            },
            Axis::Block => Choice {
                block: number,
                ..self
            },
            Axis::EdgeBlocks => Choice {
                edge_blocks: number,
                ..self
            },
            Axis::OriginBlocks => Choice {
                origin_blocks: number,
                ..self
            },
            Axis::Edges => Choice {
                edges: number,
                ..self
            },
            Axis::Origins => Choice {
                origins: number,
                ..self
            },
            Axis::Up => Choice { up: number, ..self },
            Axis::Down => Choice {
                down: number,
                ..self
            },
            Axis::Back => Choice {
                back: number,
                ..self
            },
        }
    }
}

/// Whether the axes have more combinations than a grid may have.
fn has_too_many(axes: &Axes) -> bool
    ensures { IsTrue result ↔ (most_configurations < length (combinations axes.now)) }
{
    let count = (axes.policies.len() as u64)
        .saturating_mul(axes.sections.len() as u64)
        .saturating_mul(axes.blocks.len() as u64)
        .saturating_mul(axes.edge_blocks.len() as u64)
        .saturating_mul(axes.origin_blocks.len() as u64)
        .saturating_mul(axes.edges.len() as u64)
        .saturating_mul(axes.origins.len() as u64)
        .saturating_mul(axes.up.len() as u64)
        .saturating_mul(axes.down.len() as u64)
        .saturating_mul(axes.back.len() as u64);
    count > MAX_CONFIGURATIONS
}

/// A choice of each policy, with nothing else chosen yet.
fn first_choices(alloc: Global, policies: &[Policy]) -> Result<Vec<Choice>, NoMemory>
    ensures { IfOk result (λ choices. choices.items ≡ map first_choice policies.now) }
{
    let mut choices = Vec::with_capacity(alloc, policies.len())?;
    for policy in policies {
        choices.push(Choice {
            policy: *policy,
            sections: 0,
            block: 0,
            edge_blocks: 0,
            origin_blocks: 0,
            edges: 0,
            origins: 0,
            up: 0,
            down: 0,
            back: 0,
        })?;
    }
    Ok(choices)
}

/// Puts the choice with each of the numbers at an axis behind the others.
fn push_each(
    all: &mut Vec<Choice>,
    choice: Choice,
    axis: Axis,
    numbers: &[u64],
) -> Result<(), NoMemory>
    ensures { OnOk result
        (all.new.items ≡ all.old.items ++ map (with_number axis choice) numbers.now) }
{
    for number in numbers {
        all.push(choice.with(axis, *number))?;
    }
    Ok(())
}

/// Each choice with each of the numbers at an axis.
fn widened(
    alloc: Global,
    choices: Vec<Choice>,
    axis: Axis,
    numbers: &[u64],
) -> Result<Vec<Choice>, NoMemory>
    ensures { IfOk result (λ all. all.items ≡ widened axis numbers.now choices.items) }
{
    let mut all = Vec::new(alloc);
    for choice in choices.as_slice() {
        push_each(&mut all, *choice, axis, numbers)?;
    }
    Ok(all)
}

/// Every combination, in order.
fn combinations(alloc: Global, axes: &Axes) -> Result<Vec<Choice>, NoMemory>
    ensures { IfOk result (λ all. all.items ≡ combinations axes.now) }
{
    let all = first_choices(alloc, axes.policies.as_slice())?;
    let all = widened(alloc, all, Axis::Sections, axes.sections.as_slice())?;
    let all = widened(alloc, all, Axis::Block, axes.blocks.as_slice())?;
    let all = widened(alloc, all, Axis::EdgeBlocks, axes.edge_blocks.as_slice())?;
    let all = widened(
        alloc,
        all,
        Axis::OriginBlocks,
        axes.origin_blocks.as_slice(),
    )?;
    let all = widened(alloc, all, Axis::Edges, axes.edges.as_slice())?;
    let all = widened(alloc, all, Axis::Origins, axes.origins.as_slice())?;
    let all = widened(alloc, all, Axis::Up, axes.up.as_slice())?;
    let all = widened(alloc, all, Axis::Down, axes.down.as_slice())?;
    widened(alloc, all, Axis::Back, axes.back.as_slice())
}

/// The configuration of a choice, if its numbers are in their ranges.
fn config_of(axes: &Axes, choice: Choice) -> Option<Config>
    ensures found { IsSome result ↔ IsInGridRanges choice }
    ensures config { IfSome result (λ c. IsConfigOf axes.now choice c) }
{
    let edge_shape = Shape::new(choice.sections, choice.block, choice.edge_blocks)?;
    let origin_shape = Shape::new(choice.sections, choice.block, choice.origin_blocks)?;
    let config = Config::new(
        u32::try_from(choice.edges).ok()?,
        u32::try_from(choice.origins).ok()?,
        choice.policy,
        edge_shape,
        origin_shape,
        choice.up,
        choice.down,
        choice.back,
    )?;
    Some(config.with_reclaim(axes.reclaim))
}

/// The least of some numbers of edges; of none, the most that a configuration can have.
fn least_edges(numbers: &[u64]) -> u32
    ensures { result ≡ least_of most_edges numbers.now }
{
    let mut least = u64::from(Config::MAX_EDGES);
    for number in numbers {
        least = least.min(*number);
    }
    least as u32
}

/// Each choice with its configuration.
fn points(alloc: Global, axes: &Axes, choices: &[Choice]) -> Result<Vec<Point>, GridFault>
    ensures choices { IfOk result (λ points. map (λ p. p.choice) points.items ≡ choices.now) }
    ensures each { IfOk result (λ points. All (IsPoint axes.now) points.items) }
    ensures plain { IfOk result (λ points. All IsPlain points.items) }
    ensures in_range { OnOk result (All IsInGridRanges choices.now) }
    ensures out_of_range { result ≡ Err GridFault.OutOfRange
        → Any (λ x. IsInGridRanges x → ⊥) choices.now }
    ensures others { result ≡ Err GridFault.TooMany → ⊥ }
{
    let Ok(mut points) = Vec::with_capacity(alloc, choices.len()) else {
        return Err(GridFault::Memory);
    };
    for choice in choices {
        let Some(config) = config_of(axes, *choice) else {
            return Err(GridFault::OutOfRange);
        };
        let point = Point {
            place: None,
            choice: *choice,
            config,
            outlook: None,
            ticks_a_second: axes.ticks_a_second,
            facts: Facts::none(),
        };
        if points.push(point).is_err() {
            return Err(GridFault::Memory);
        }
    }
    Ok(points)
}

/// Every combination of the values of some axes, each a configuration whose numbers are in their ranges.
///
/// Contracts see it as its axes.
#[derive(Drop)]
pub struct Grid {
    axes: Axes,
    points: Vec<Point>,
}

impl Model for Grid {
    ghost use Rattle.rw_sweep.specs.Points.{ArePoints};
    ghost use Rattle.rw_sweep.specs.declared.axes.Axes.{Axes};

    ghost Value = { Axes };

    ghost view = { λ g. g.axes };

    ghost invariant = { λ g. ArePoints g.axes g.points.items };
}

impl Grid {
    /// The grid of these axes: one configuration for each combination, the policies outermost, then the sections, the block, the
    /// blocks of an edge, the blocks of an origin, the edges, the origins, and the delays up, down and back, the last innermost.
    ///
    /// # Errors
    ///
    /// [`GridFault::TooMany`] exactly where there are more than [`MAX_CONFIGURATIONS`] combinations, [`GridFault::OutOfRange`]
    /// only where there are not and a number of one of them is out of its range, and [`GridFault::Memory`] only where memory was
    /// refused.
    pub fn new(alloc: Global, axes: Axes) -> Result<Grid, GridFault>
        ensures axes { IfOk result (λ grid. grid ≡ axes) }
        ensures few { OnOk result (length (combinations axes) ≤ most_configurations) }
        ensures in_range { OnOk result (All IsInGridRanges (combinations axes)) }
        ensures too_many { (result ≡ Err GridFault.TooMany)
            ↔ (most_configurations < length (combinations axes)) }
        ensures out_of_range { result ≡ Err GridFault.OutOfRange
            → Any (λ x. IsInGridRanges x → ⊥) (combinations axes) }
    {
        if has_too_many(&axes) {
            return Err(GridFault::TooMany);
        }
        let choices = combinations(alloc, &axes)?;
        let points = points(alloc, &axes, choices.as_slice())?;
        Ok(Grid { axes, points })
    }

    /// How many configurations there are. Takes no memory.
    pub fn len(&self) -> usize
        ensures { result ≡ length (combinations self.now) }
    {
        self.points.len()
    }

    /// Whether there is no configuration. Takes no memory.
    pub fn is_empty(&self) -> bool
        ensures { IsTrue result ↔ (combinations self.now ≡ []) }
    {
        self.points.is_empty()
    }

    /// The fewest edges of a configuration: a trace that names edges below that alone can be run by each. Of no configuration it is
    /// [`MAX_EDGES`](Config::MAX_EDGES).
    pub fn edges(&self) -> u32
        ensures { result ≡ least_edges self.now }
    {
        least_edges(self.axes.edges.as_slice())
    }

    /// Each choice with its configuration, in order.
    pub(crate) fn points(&self) -> &[Point]
        ensures { ArePoints self.now result.now }
    {
        self.points.as_slice()
    }
}
