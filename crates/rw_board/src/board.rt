//! The board and its seats.
ghost use Rattle.std.specs.Prelude.{◌≡◌, ◌≤◌, ◌<◌, length, All, IfOk, vec_len};
ghost use Rattle.rw_vt.specs.Limits.{end_of_time};
ghost use Rattle.rw_board.specs.Least.{least};
ghost use Rattle.rw_board.specs.Limits.{most_seats};
ghost use Rattle.rw_board.specs.Seats.{new_seat, after_note, after_reading, all_notes};

use crate::rule::{Gather, LeastNoted, Note, OneSeat, Read, View};
use atomic_table::Table;
use rw_vt::{END, NoMemory};
use std::alloc::Global;
use std::marker::Model;

/// One word, in ticks of virtual time, that the holders of its seats note times on and read.
///
/// A contract sees which board it is and how many seats it was opened with. It is shared by reference between threads.
#[derive(Drop)]
pub struct Board {
    table: Table<(), View, u64, LeastNoted, Global>,
}

impl Model for Board {
    ghost use Rattle.std.specs.Prelude.{◌≡◌, ◌≤◌};
    ghost use Rattle.rw_board.specs.Seats.{BoardState};

    ghost Value = { BoardState };

    ghost view = { λ b. record { board = b.table.shared.table_id; seats = b.table.shared.key } };

    ghost invariant = { λ b. (b.table.shared.table_id.words ≡ 1)
        × (b.table.shared.table_id.slots ≡ 0)
        × (1 ≤ b.table.shared.key) };
}

/// The right to note times on one board and to read it, for one thread at a time.
///
/// A contract sees the board that it belongs to, every time that it noted and its last reading. It takes no bytes.
#[derive(Drop)]
pub struct Seat {
    inner: atomic_table::Seat<(), View>,
}

impl Model for Seat {
    ghost use Rattle.std.specs.Prelude.{◌≡◌, []};
    ghost use Rattle.rw_board.specs.Seats.{SeatState};

    ghost Value = { SeatState };

    ghost view = { λ s. record {
      board = s.inner.table_id;
      noted = s.inner.me.0.noted;
      read = s.inner.me.0.read;
    } };

    ghost invariant = { λ s. (s.inner.me.1 ≡ []) × (s.inner.me.0.weight ≡ 1) };
}

impl Board {
    /// Notes a time, in ticks: from now on the word is at most that. One atomic step; takes no memory and never waits.
    pub fn note(&self, seat: &mut Seat, time: u64)
        requires board { seat.old.board ≡ self.now.board }
        ensures noted { seat.new ≡ after_note seat.old time }
    {
        self.table
            .shared
            .fetch_min::<Note>(&mut seat.inner, 0, time);
    }

    /// Reads the word: the least of [`END`] and of all times noted so far, by any seat.
    ///
    /// Proved is that the reading is never above `END`, above a time that this seat noted or above one of its earlier
    /// readings, and never below what [`close`] gives; that other seats' notes are seen is tested. One atomic step;
    /// takes no memory and never waits.
    pub fn floor(&self, seat: &mut Seat) -> u64
        requires board { seat.old.board ≡ self.now.board }
        ensures end { result ≤ end_of_time }
        ensures noted { result ≤ least seat.old.noted }
        ensures read { result ≤ seat.old.read }
        ensures seat { seat.new ≡ after_reading seat.old result }
    {
        self.table.shared.load::<Read>(&mut seat.inner, 0)
    }
}

/// The most seats of a board.
pub const MAX_SEATS: usize = 16;

/// This constant is the limit that stands in `specs/Limits.antt`, which the contract of [`open`] cites. The call itself
/// does nothing.
pub fn every_limit()
    ensures { MAX_SEATS ≡ most_seats }
{}

/// A board on which nothing is noted yet, and its `seats` seats, 1 to [`MAX_SEATS`] of them.
///
/// # Errors
///
/// [`NoMemory`] where memory was refused.
pub fn open(alloc: Global, seats: usize) -> Result<(Board, Vec<Seat>), NoMemory>
    requires seats { (1 ≤ seats) × (seats ≤ most_seats) }
    ensures board { IfOk result (λ opened. opened.0.seats ≡ seats) }
    ensures count { IfOk result (λ opened. vec_len opened.1 ≡ seats) }
    ensures new { IfOk result (λ opened. All (λ s. s ≡ new_seat opened.0.board) opened.1.items) }
{
    let mut all = Vec::with_capacity(alloc, seats)?;
    let (table, mut first) = Table::of_words(alloc, &[END], &(seats as u64))?;
    for _ in 1..seats {
        let inner = table.shared.split_seat::<OneSeat>(&mut first);
        all.push_reserved(Seat { inner });
    }
    all.push_reserved(Seat { inner: first });
    Ok((Board { table }, all))
}

/// Ends a board, given all its seats in any order: exactly the least of [`END`] and of all times noted by any seat.
///
/// Takes no memory and never waits.
pub fn close(board: Board, seats: Vec<Seat>) -> u64
    requires all { vec_len seats ≡ board.seats }
    requires board { All (λ s. s.board ≡ board.board) seats.items }
    ensures least { result ≡ least (all_notes seats.items) }
    ensures end { result ≤ end_of_time }
    ensures noted { All (λ s. result ≤ least s.noted) seats.items }
    ensures read { All (λ s. result ≤ s.read) seats.items }
{
    let Board { table } = board;
    let mut rest = seats.into_iter();
    let Some(first) = rest.next() else {
        unreachable!()
    };
    let mut all = first.inner;
    for seat in rest {
        table.shared.join_seat::<Gather>(&mut all, seat.inner);
    }
    let closed = table.close_with(all);
    let word = closed.word(0);
    closed.free();
    word
}
