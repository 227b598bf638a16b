ghost use Rattle.std.specs.Prelude.{◌≡◌};
ghost use Rattle.nj_pieces.specs.Takers.{number_of, IsTakerOf, AreTakersOf};

use nj_pieces::{Pieces, Taker};
use std::sync::Wait;
use std::sync::atomic::{AtomicU64, Ordering};
use std::test::Fail;
use std::thread;
use std::thread::Threads;

// Takes until each deque was found without a piece, and adds up the pieces.
fn take_all<R: Wait>(rt: &R, pieces: &Pieces, taker: &mut Taker, sum: &AtomicU64)
    requires { IsTakerOf pieces.now taker.old }
    ensures taker { IsTakerOf pieces.now taker.new }
    ensures number { number_of taker.new ≡ number_of taker.old }
{
    for _ in rt.forever() {
        match pieces.take(rt, taker) {
            Some(piece) => {
                sum.fetch_add(piece, Ordering::SeqCst);
            }
            None => return,
        }
    }
}

// All takers, each in a thread.
fn take_in_threads<R: Threads + Wait + Sync>(
    rt: &R,
    pieces: &Pieces,
    takers: &mut [Taker],
    sum: &AtomicU64,
)
    requires { AreTakersOf pieces.now takers.old }
    ensures { AreTakersOf pieces.now takers.new }
{
    thread::for_each_mut(
        rt,
        takers,
        4,
        &|_at: usize, taker: &mut Taker|
            requires { IsTakerOf pieces.now taker.old }
            ensures { IsTakerOf pieces.entry.now taker.new × (number_of taker.new ≡ number_of taker.old) }
        { take_all(rt, pieces, taker, sum) },
    );
}

#[test]
fn the_own_deque_comes_first(rt: HostRuntime) -> Result<(), Fail> {
    let (pieces, mut takers) = Pieces::deal(rt.alloc(), 5, 2)?;
    let taken = [
        pieces.take(&rt, &mut takers[1]),
        pieces.take(&rt, &mut takers[1]),
        pieces.take(&rt, &mut takers[1]),
    ];
    assert_eq!(rt; taken, [Some(1), Some(3), Some(0)]);
    Ok(())
}

#[test]
fn what_nobody_took_is_gathered(rt: HostRuntime) -> Result<(), Fail> {
    let (pieces, takers) = Pieces::deal(rt.alloc(), 5, 3)?;
    assert_eq!(rt;
        pieces.gather(takers).as_slice(),
        [0, 1, 2, 3, 4].as_slice()
    );
    Ok(())
}

#[test]
fn four_threads_take_each_piece_once(rt: HostRuntime) -> Result<(), Fail> {
    let (pieces, mut takers) = Pieces::deal(rt.alloc(), 1000, 4)?;
    let sum = AtomicU64::new(0);
    take_in_threads(&rt, &pieces, takers.as_mut_slice(), &sum);
    assert_eq!(rt; sum.load(Ordering::SeqCst), 499500);
    Ok(())
}
