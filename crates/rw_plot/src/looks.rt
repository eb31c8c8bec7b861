//! The colours and dashes of polylines.

use crate::measure::Caches;
use crate::sample::Configuration;
use crate::series::{AllSeries, Name, Part, Varying};
use std::alloc::{AllocError, Global};
use std::collections::BTreeMap;

/// How many colours there are.
const COLOURS: usize = 7;

/// How many kinds of dashes there are.
const DASHES: usize = 6;

/// How a polyline looks.
#[derive(Clone, Copy)]
pub(crate) struct Look {
    /// Which of the colours it has.
    pub(crate) colour: usize,
    /// Which of the kinds of dashes it has; 0 is a line without gaps.
    pub(crate) dashes: usize,
}

impl Look {
    /// The look of a name by the rank of the part that its colour tells, and by the place of its rest among so many.
    fn new(rank: usize, place: usize, rests: usize) -> Look {
        let turns = (rank / COLOURS).saturating_mul(rests);
        Look {
            colour: rank % COLOURS,
            dashes: turns.saturating_add(place) % DASHES,
        }
    }
}

/// The caches and the numbers of a name, without the part that the colour tells.
#[derive(Clone, Copy, PartialEq, Eq, PartialOrd, Ord)]
struct Rest {
    /// Of which caches its points tell.
    caches: Caches,
    /// The numbers of the configuration.
    sizes: Configuration,
}

impl Rest {
    /// That of a name whose colour tells this part.
    fn of(name: &Name, part: Part) -> Rest {
        let mut caches = name.caches;
        let mut sizes = name.sizes;
        match part {
            Part::Policy => {}
            Part::Caches => caches = Caches::All,
            Part::Sections => sizes.sections = 0,
            Part::Block => sizes.block = 0,
            Part::EdgeBlocks => sizes.edge_blocks = 0,
            Part::OriginBlocks => sizes.origin_blocks = 0,
            Part::Edges => sizes.edges = 0,
            Part::Origins => sizes.origins = 0,
            Part::Up => sizes.up = 0,
            Part::Down => sizes.down = 0,
            Part::Back => sizes.back = 0,
        }
        Rest { caches, sizes }
    }
}

/// The rests of names, each with its place in their order.
type Rests = BTreeMap<Rest, usize>;

/// What the names of these polylines have besides the part that their colours tell apart.
fn rests_of(alloc: Global, all: &AllSeries, part: Part) -> Result<Rests, AllocError> {
    let mut rests = BTreeMap::new(alloc);
    for name in all.keys() {
        rests
            .insert(Rest::of(name, part), 0)
            .map_err(AllocError::from)?;
    }
    number(&mut rests);
    Ok(rests)
}

/// Gives each rest its place.
fn number(rests: &mut Rests) {
    let mut next: usize = 0;
    for place in rests.values_mut() {
        *place = next;
        next = next.saturating_add(1);
    }
}

/// How each of these polylines looks, in their order.
///
/// The colour tells the first part of their names that differs: the policy, if there are several. The dashes tell the rest, so
/// where one more part differs, that part. Colours that come round again take other dashes.
pub(crate) fn looks_of(
    alloc: Global,
    all: &AllSeries,
    varying: Varying,
) -> Result<Vec<Look>, AllocError> {
    let part = varying.first();
    let rests = rests_of(alloc, all, part)?;
    let mut looks = Vec::new(alloc);
    let mut rank: usize = 0;
    let mut last: Option<&Name> = None;
    for name in all.keys() {
        if last.is_some_and(|last| !part.is_same(last, name)) {
            rank = rank.saturating_add(1);
        }
        last = Some(name);
        let place = rests.get(&Rest::of(name, part)).copied().unwrap_or(0);
        looks.push(Look::new(rank, place, rests.len()))?;
    }
    Ok(looks)
}
