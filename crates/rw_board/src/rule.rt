//! What is always true of the board's word, and what each atomic step does to it.
ghost use Rattle.rw_board.specs.Rule.{KeepsRule, Notes, Reads, whole_view, with_one_less, new_view, joined_view, spent_view};

use atomic_table::{Join, Play, Split, TableRule};
use std::collections::LinkedList;

/// What a seat stands for: the times that it noted, its last reading, and its part of the number of seats.
///
/// It exists for the proofs alone: no value of it is made.
pub(crate) struct View {
    pub(crate) noted: LinkedList<u64>,
    pub(crate) read: u64,
    pub(crate) weight: u64,
}

/// The rule of the word, for a number of seats. At first one seat has the whole weight.
pub(crate) struct LeastNoted;

impl TableRule<(), View, u64> for LeastNoted {
    ghost holds = { KeepsRule };

    ghost first = { whole_view };
}

/// The step of a seat that notes a time.
pub(crate) struct Note;

impl Play<(), View> for Note {
    ghost then = { Notes };
}

/// The step of a seat that reads the word.
pub(crate) struct Read;

impl Play<(), View> for Read {
    ghost then = { Reads };
}

/// A new seat takes a weight of one.
pub(crate) struct OneSeat;

impl Split<View> for OneSeat {
    ghost left = { with_one_less };

    ghost right = { new_view };
}

/// One seat takes over what another has noted and read, and its weight.
pub(crate) struct Gather;

impl Join<View> for Gather {
    ghost both = { joined_view };

    ghost spent = { spent_view };
}
