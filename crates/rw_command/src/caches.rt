// The options that say which caches there are.
ghost use Rattle.std.specs.Prelude.{◌≢◌, IfErr};
ghost use Rattle.rw_command.specs.Status.{status_of};

use crate::arguments::{Argument, Given, Value};
use crate::fault::Fault;
use crate::options_file::OPTIONS;
use crate::values::{Quantity, ends, invalid, number, numbers};
use clap::ArgMatches;
use clap::parser::ValueSource;
use rw_import::DEFAULT_TICKS;
use rw_photo::{Config, Levels, Policy, Shape};
use rw_vt::END;
use std::alloc::Global;

/// The names of the policies: under segmented LRU one for each number of segments.
const POLICIES: [&str; 9] = [
    "off", "lru", "slru2", "slru3", "slru4", "slru5", "slru6", "slru7", "slru8",
];

/// How many caches there are, what they keep, how large they are, and how long messages take.
pub(crate) const CACHES: [Argument; 15] = [
    EDGES,
    ORIGINS,
    POLICY,
    SECTIONS,
    BLOCK,
    Argument {
        name: "edge-blocks",
        value: Value::Number(Shape::MAX_BLOCKS as i64),
        given: Given::Or("64"),
        help: "Full blocks on each edge's flash, 1 to 65536",
    },
    Argument {
        name: "edge-flash",
        value: Value::Text("SIZE"),
        given: Given::Maybe,
        help: "Bytes of each edge's flash, in place of --edge-blocks: a multiple of --block, as 2G",
    },
    Argument {
        name: "origin-blocks",
        value: Value::Number(Shape::MAX_BLOCKS as i64),
        given: Given::Or("64"),
        help: "Full blocks on each origin's flash, 1 to 65536",
    },
    Argument {
        name: "origin-flash",
        value: Value::Text("SIZE"),
        given: Given::Maybe,
        help: "Bytes of each origin's flash, in place of --origin-blocks",
    },
    UP,
    DOWN,
    BACK,
    TICKS_A_SECOND,
    RECLAIM,
    OPTIONS,
];

/// What caches keep.
pub(crate) const POLICY: Argument = Argument {
    name: "policy",
    value: Value::Word("POLICY", &POLICIES),
    given: Given::Or("slru3"),
    help: "What caches keep: off, nothing; lru, by least recent use; slru2 to slru8, by segmented LRU with that many segments",
};

/// How many insertion points a cache has.
pub(crate) const SECTIONS: Argument = Argument {
    name: "sections",
    value: Value::Number(Shape::MAX_SECTIONS as i64),
    given: Given::Or("8"),
    help: "Insertion points of each cache, 1 to 16",
};

/// How large a block is.
pub(crate) const BLOCK: Argument = Argument {
    name: "block",
    value: Value::Text("SIZE"),
    given: Given::Or("1M"),
    help: "Bytes of a block, 1 to 256M; K, M and G are powers of 1024",
};

/// How many edge caches there are.
pub(crate) const EDGES: Argument = Argument {
    name: "edges",
    value: Value::Count(Config::MAX_EDGES as i64),
    given: Given::Or("1"),
    help: "Edge caches, 1 to 256",
};

/// How many origin caches there are.
pub(crate) const ORIGINS: Argument = Argument {
    name: "origins",
    value: Value::Count(Config::MAX_ORIGINS as i64),
    given: Given::Or("1"),
    help: "Origin caches, 1 to 64",
};

/// How long a message takes from an edge to an origin.
pub(crate) const UP: Argument = Argument {
    name: "up",
    value: Value::Text("TIME"),
    given: Given::Or("3"),
    help: "Ticks from an edge to an origin, 1 to 1048576",
};

/// How long a message takes from an origin to an edge.
pub(crate) const DOWN: Argument = Argument {
    name: "down",
    value: Value::Text("TIME"),
    given: Given::Or("3"),
    help: "Ticks from an origin to an edge, 1 to 1048576",
};

/// How long it takes from an origin to the backend and back.
pub(crate) const BACK: Argument = Argument {
    name: "back",
    value: Value::Text("TIME"),
    given: Given::Or("10"),
    help: "Ticks from an origin to the backend and back, 1 to 1048576",
};

/// How long a tick is.
pub(crate) const TICKS_A_SECOND: Argument = Argument {
    name: "ticks-a-second",
    value: Value::Number(END as i64),
    given: Given::Maybe,
    help: "Ticks in a second: then options that take ticks also take times, as 20ms, 90s, 5m, 2h or 1d",
};

/// Whether a purge also removes a sealed block that it leaves without objects.
pub(crate) const RECLAIM: Argument = Argument {
    name: "reclaim",
    value: Value::Flag,
    given: Given::Maybe,
    help: "Let a purge also free the flash of a block that it leaves without objects",
};

/// A kind of caches, by the names of the options that say how large its flash is.
#[derive(Clone, Copy)]
pub(crate) struct Tier {
    /// In blocks.
    pub(crate) blocks: &'static str,
    /// In blocks, as it is written on the command line.
    blocks_option: &'static str,
    /// In bytes.
    pub(crate) flash: &'static str,
}

/// The edge caches.
pub(crate) const EDGE_TIER: Tier = Tier {
    blocks: "edge-blocks",
    blocks_option: "--edge-blocks",
    flash: "edge-flash",
};

/// The origin caches.
pub(crate) const ORIGIN_TIER: Tier = Tier {
    blocks: "origin-blocks",
    blocks_option: "--origin-blocks",
    flash: "origin-flash",
};

/// The caches that the options of a run say.
///
/// # Errors
///
/// [`Fault::CommandLine`] where a value is out of its range, [`Fault::NotWith`] where the size of a flash is given twice,
/// [`Fault::Plan`] where an option has no value, which the command line rules out, and `Memory`.
pub(crate) fn config(alloc: Global, options: &ArgMatches<'_>) -> Result<Config, Fault>
    ensures unwritten { IfErr result (λ e. status_of e ≢ 8) }
{
    let block = block(alloc, options)?;
    let edge_blocks = blocks(alloc, options, EDGE_TIER, block)?;
    let origin_blocks = blocks(alloc, options, ORIGIN_TIER, block)?;
    config_with(alloc, options, block, edge_blocks, origin_blocks)
}

/// The bytes of a block.
///
/// # Errors
///
/// Those of [`number`].
pub(crate) fn block(alloc: Global, options: &ArgMatches<'_>) -> Result<u64, Fault>
    ensures unwritten { IfErr result (λ e. status_of e ≢ 8) }
{
    number(alloc, options, "block", Quantity::bytes(Shape::MAX_BLOCK))
}

/// The caches that the options of a run say, but for the size of their flash: `block` bytes in a block, and so many blocks on each
/// edge's and each origin's flash.
///
/// # Errors
///
/// Those of [`config`].
pub(crate) fn config_with(
    alloc: Global,
    options: &ArgMatches<'_>,
    block: u64,
    edge_blocks: u64,
    origin_blocks: u64,
) -> Result<Config, Fault>
    ensures unwritten { IfErr result (λ e. status_of e ≢ 8) }
{
    let sections = options.get_one("sections").ok_or(Fault::Plan)?;
    let delays = delays_of(alloc, options)?;
    let policy = options.get_str("policy").and_then(policy);
    let config = Config::new(
        options.get_one("edges").ok_or(Fault::Plan)?,
        options.get_one("origins").ok_or(Fault::Plan)?,
        policy.ok_or(Fault::Plan)?,
        Shape::new(sections, block, edge_blocks).ok_or(Fault::Plan)?,
        Shape::new(sections, block, origin_blocks).ok_or(Fault::Plan)?,
        delays.up,
        delays.down,
        delays.back,
    );
    let config = config.ok_or(Fault::Plan)?;
    Ok(config.with_reclaim(options.get_flag("reclaim")))
}

/// How long messages take, in ticks.
#[derive(Clone, Copy)]
pub(crate) struct Delays {
    /// From an edge to an origin.
    pub(crate) up: u64,
    /// From an origin to an edge.
    pub(crate) down: u64,
    /// From an origin to the backend and back.
    pub(crate) back: u64,
}

/// The delays that the options say.
///
/// # Errors
///
/// Those of [`number`].
pub(crate) fn delays_of(alloc: Global, options: &ArgMatches<'_>) -> Result<Delays, Fault>
    ensures unwritten { IfErr result (λ e. status_of e ≢ 8) }
{
    let delay = Quantity::ticks(Config::MAX_DELAY, ticks_a_second(options));
    Ok(Delays {
        up: number(alloc, options, "up", delay)?,
        down: number(alloc, options, "down", delay)?,
        back: number(alloc, options, "back", delay)?,
    })
}

/// How many ticks a second has, if the options say it: by `--ticks-a-second`, or as those of a binary log.
pub(crate) fn ticks_a_second(options: &ArgMatches<'_>) -> Option<u64> {
    match options.get_one("ticks-a-second") {
        Some(ticks) => Some(ticks),
        None if options.get_str("from") == Some("oracle-general") => {
            Some(options.get_one("ticks").unwrap_or(DEFAULT_TICKS))
        }
        None => None,
    }
}

/// The number of blocks on the flash of a tier, where a block has `block` bytes.
fn blocks(alloc: Global, options: &ArgMatches<'_>, tier: Tier, block: u64) -> Result<u64, Fault>
    ensures unwritten { IfErr result (λ e. status_of e ≢ 8) }
{
    if !is_in_bytes(options, tier)? {
        return options.get_one(tier.blocks).ok_or(Fault::Plan);
    }
    let flash = number(alloc, options, tier.flash, Quantity::bytes(MOST_FLASH))?;
    blocks_of(alloc, flash, tier, block)
}

/// The numbers of blocks that the flash of a tier has in the runs of a sweep, where blocks have these numbers of bytes.
///
/// # Errors
///
/// Those of [`config`], and [`Fault::OnlyWith`] where sizes in bytes are given, and several sizes of blocks.
pub(crate) fn lists_of_blocks(
    alloc: Global,
    options: &ArgMatches<'_>,
    tier: Tier,
    sizes: &[u64],
) -> Result<Vec<u64>, Fault>
    ensures unwritten { IfErr result (λ e. status_of e ≢ 8) }
{
    if !is_in_bytes(options, tier)? {
        return numbers(
            alloc,
            options,
            tier.blocks,
            Quantity::things(Shape::MAX_BLOCKS),
        );
    }
    let &[block] = sizes else {
        return Err(Fault::OnlyWith {
            option: tier.flash,
            with: "one value of --block",
        });
    };
    let list = numbers(alloc, options, tier.flash, Quantity::bytes(MOST_FLASH))?;
    let mut counts = Vec::new(alloc);
    for flash in list {
        let count = blocks_of(alloc, flash, tier, block)?;
        counts.push(count).map_err(|_| Fault::Memory)?;
    }
    Ok(counts)
}

/// The numbers of blocks on the flash of a tier from which and up to which a size is searched, where a block has `block` bytes: one number
/// twice, unless the options give a range as `A..B`.
///
/// # Errors
///
/// Those of [`config`].
pub(crate) fn blocks_searched(
    alloc: Global,
    options: &ArgMatches<'_>,
    tier: Tier,
    block: u64,
) -> Result<(u64, u64), Fault>
    ensures unwritten { IfErr result (λ e. status_of e ≢ 8) }
{
    if !is_in_bytes(options, tier)? {
        let blocks = Quantity::things(Shape::MAX_BLOCKS);
        return ends(alloc, options, tier.blocks, blocks);
    }
    let (least, most) = ends(alloc, options, tier.flash, Quantity::bytes(MOST_FLASH))?;
    let least = blocks_of(alloc, least, tier, block)?;
    let most = blocks_of(alloc, most, tier, block)?;
    Ok((least, most))
}

/// The most bytes of a flash.
const MOST_FLASH: u64 = Shape::MAX_BLOCKS * Shape::MAX_BLOCK;

/// Whether the size of a tier's flash is given in bytes, and not in blocks.
fn is_in_bytes(options: &ArgMatches<'_>, tier: Tier) -> Result<bool, Fault>
    ensures unwritten { IfErr result (λ e. status_of e ≢ 8) }
{
    if options.get_str(tier.flash).is_none() {
        return Ok(false);
    }
    if options.value_source(tier.blocks) == Some(ValueSource::CommandLine) {
        return Err(Fault::NotWith {
            option: tier.flash,
            other: tier.blocks_option,
        });
    }
    Ok(true)
}

/// The number of blocks on a flash of `flash` bytes, where a block has `block` bytes.
fn blocks_of(alloc: Global, flash: u64, tier: Tier, block: u64) -> Result<u64, Fault>
    ensures unwritten { IfErr result (λ e. status_of e ≢ 8) }
{
    let blocks = flash.checked_div(block).ok_or(Fault::Plan)?;
    let below = blocks.saturating_mul(block);
    if below == flash && blocks <= Shape::MAX_BLOCKS {
        return Ok(blocks);
    }
    let value = format!(in alloc; "{flash}")?;
    let expected = if blocks >= Shape::MAX_BLOCKS {
        let most = Shape::MAX_BLOCKS;
        format!(in alloc; "at most {most} blocks of {block} bytes; see --block")?
    } else {
        let above = below.saturating_add(block);
        format!(in alloc;
            "a multiple of a block, which has {block} bytes; the nearest are {below} and {above}"
        )?
    };
    Err(invalid(alloc, &value, tier.flash, expected.as_str()))
}

/// The policy of this name, if there is one.
pub(crate) fn policy(name: &str) -> Option<Policy> {
    match name {
        "off" => Some(Policy::Off),
        "lru" => Some(Policy::Lru),
        _ => {
            let segments = name.strip_prefix("slru")?.parse().ok()?;
            Some(Policy::Slru(Levels::new(segments)?))
        }
    }
}

/// The policies that an option lists, with commas between them.
///
/// # Errors
///
/// [`Fault::CommandLine`] where an item is none, [`Fault::Plan`] where the option has no value, and `Memory`.
pub(crate) fn policies(
    alloc: Global,
    options: &ArgMatches<'_>,
    name: &str,
) -> Result<Vec<Policy>, Fault>
    ensures unwritten { IfErr result (λ e. status_of e ≢ 8) }
{
    let list = options.get_str(name).ok_or(Fault::Plan)?;
    let mut policies = Vec::new(alloc);
    for item in list.split(',') {
        match policy_in_list(item) {
            Some(policy) => policies.push(policy).map_err(|_| Fault::Memory)?,
            None => {
                let expected = "a list of off, lru and slru2 to slru8, with commas between them";
                return Err(invalid(alloc, item, name, expected));
            }
        }
    }
    Ok(policies)
}

/// The policy of an item of a list, if it is written as its name is.
fn policy_in_list(item: &str) -> Option<Policy> {
    if POLICIES.contains(&item) {
        policy(item)
    } else {
        None
    }
}
