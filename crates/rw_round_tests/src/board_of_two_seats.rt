// A board of two seats: what each reads, and what closing gives.
ghost use Rattle.std.specs.Prelude.{◌≡◌};

use rw_board::{Board, Seat, close, open};
use rw_vt::END;
use std::alloc::Global;
use std::test::Fail;

/// At what a board of two seats closes, of which one noted 9 and 12 and the other 7.
fn closed_at(alloc: Global) -> Result<u64, Fail> {
    let (board, mut seats) = open(alloc, 2)?;
    board.note(&mut seats[0], 9);
    board.note(&mut seats[0], 12);
    board.note(&mut seats[1], 7);
    Ok(close(board, seats))
}

#[test]
fn closes_at_the_least_note_of_two_seats(rt: HostRuntime) -> Result<(), Fail> {
    assert!(rt; closed_at(rt.alloc())? == 7);
    Ok(())
}

#[test]
fn closes_at_the_end_without_a_note(rt: HostRuntime) -> Result<(), Fail> {
    let (board, seats) = open(rt.alloc(), 2)?;
    assert!(rt; close(board, seats) == 1099511627776);
    Ok(())
}

// Notes a time and reads the board. Its signature is the point: it is given a board and a seat, and no handle of the
// runtime. What may wait, as for a lock, would need one, so no lock is round the board.
fn note_and_read(board: &Board, seat: &mut Seat, time: u64) -> u64
    requires board { seat.old.board ≡ board.now.board }
    ensures board { seat.new.board ≡ seat.old.board }
{
    board.note(seat, time);
    board.floor(seat)
}

/// What one seat of two reads: at first, once it noted 9, and once the other one noted 7.
fn read_thrice(alloc: Global) -> Result<[u64; 3], Fail> {
    let (board, mut seats) = open(alloc, 2)?;
    let first = board.floor(&mut seats[0]);
    let own = note_and_read(&board, &mut seats[0], 9);
    board.note(&mut seats[1], 7);
    Ok([first, own, board.floor(&mut seats[0])])
}

#[test]
fn reads_what_it_noted_and_what_another_seat_did(rt: HostRuntime) -> Result<(), Fail> {
    assert!(rt; read_thrice(rt.alloc())? == [END, 9, 7]);
    Ok(())
}
