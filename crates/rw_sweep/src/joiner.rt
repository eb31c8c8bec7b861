// The parts of a sweep, joined into one table.
ghost use Rattle.std.specs.Prelude.{◌≡◌, ◌≢◌, IfErr, IfOk, map};
ghost use Rattle.rw_sweep.specs.Join.{HasJoined, JoinOfPartsIsTheSweep};
ghost use Rattle.rw_sweep.specs.JoinFaults.{IsJoinFaultOf};

mod columns;
mod join_fault;
mod places;
mod reading;
mod slots;

pub use join_fault::JoinFault;
use reading::read_all;
use slots::{check_count, put_together};
use std::alloc::Global;

/// The table that these parts make: the header, and the three lines of each place, from 0 to the greatest, in the order of the
/// places and without them. The parts may come in any order, and where a number of configurations is asked for, there are as many.
///
/// # Errors
///
/// The first of what is wrong with the parts, which are read one after another, each line by line. Of the first part that is wrong
/// this is `Header`, where it does not begin with the header of a part, or else it is of its first faulty line: `CutOff` where the
/// line has no end, or else `Length` where it has not as many fields as the header, or else `Number` for its first field that is none
/// of its column, or else `Twice` where three lines of its place were read before it.
///
/// Only where all parts are right it is of the places. Where there are fewer than are asked for, it is `Missing` for the first place
/// that has no line; where there are more, `Beyond`; and else `Missing` or `Lines` for the first place that has not three lines, by
/// whether it has any.
///
/// `Memory` where a request for memory was refused; nothing is said of the parts then.
pub fn join(alloc: Global, texts: &[Vec<u8>], count: Option<u64>) -> Result<Vec<u8>, JoinFault>
    ensures joined { IfOk result (λ text.
        HasJoined (map (λ part. part.items) texts.now) count text.items) }
    ensures fault { IfErr result (λ e. e ≢ JoinFault.Memory
        → IsJoinFaultOf (map (λ part. part.items) texts.now) count e) }
{
    let slots = read_all(alloc, texts)?;
    check_count(slots.as_slice(), count)?;
    put_together(alloc, slots.as_slice())
}

/// What the parts of a sweep make is the sweep. This is a law of the definitions, for whatever [`join`] answers; the call itself
/// does nothing.
pub fn join_of_parts()
    ensures { JoinOfPartsIsTheSweep }
{}
