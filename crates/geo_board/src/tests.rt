ghost use Rattle.std.specs.Prelude.{All, IfSome};
ghost use Rattle.geo_board.specs.BoardSeats.{IsInitialSeatOf};

use crate::{Board, BoardSeat};
use std::test::Fail;

fn crosses_threads<B: Sync, S: Send>(_board: &B, _seat: &S) {}

fn three_of(board: &Board, mut seats: Vec<BoardSeat>) -> Option<(BoardSeat, BoardSeat, BoardSeat)>
    requires { All (IsInitialSeatOf board.now) seats.items }
    ensures { IfSome result (λ s. IsInitialSeatOf board.now s.0 × IsInitialSeatOf board.now s.1 × IsInitialSeatOf board.now s.2) }
{
    let third = seats.pop()?;
    let second = seats.pop()?;
    let first = seats.pop()?;
    Some((first, second, third))
}

#[test]
fn three_seats_share_two_chunks(rt: HostRuntime) -> Result<(), Fail> {
    let Ok((board, seats)) = Board::new(rt.alloc(), 2, 3) else {
        panic!(rt; "no memory")
    };
    let Some((mut first, mut second, mut third)) = three_of(&board, seats) else {
        panic!(rt; "not three seats")
    };
    crosses_threads(&board, &first);
    assert!(rt; (first.number(), second.number(), third.number()) == (0, 1, 2));

    let Some(low) = board.claim(&mut first) else {
        panic!(rt; "the first chunk was gone")
    };
    let Some(high) = board.claim(&mut second) else {
        panic!(rt; "the second chunk was gone")
    };
    assert!(rt; (low, high) == (0, 1));
    assert!(rt; board.look(&mut first) == u64::MAX);
    board.finish(&mut second, 1500);
    assert!(rt; board.look(&mut first) == 1500);
    assert!(rt; board.claim(&mut third).is_none());
    board.finish(&mut first, 700);
    assert!(rt; board.look(&mut third) == 700);
    assert!(rt; board.claim(&mut first).is_none());
    assert!(rt; board.claim(&mut second).is_none());

    let mut all = Vec::new(rt.alloc());
    all.push(third)?;
    all.push(first)?;
    all.push(second)?;
    assert!(rt; board.close(all) == 700);
    Ok(())
}

#[test]
fn boards_of_few_and_of_many_workers(rt: HostRuntime) {
    for (total, workers) in [(0, 1), (3, 2), (1024, 16)] {
        match Board::new(rt.alloc(), total, workers) {
            Ok((_board, seats)) => assert_eq!(rt; seats.len() as u64, workers),
            Err(_) => panic!(rt; "no memory for {workers} workers"),
        }
    }
}
