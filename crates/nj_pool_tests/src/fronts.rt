ghost use Rattle.std.specs.Prelude.{◌≡◌, [], ◌∷◌, length, IfOk};

use nj_pool::{FrontPool, Pad, PushRefused};
use std::alloc::Global;
use std::test::Fail;

// An image with this byte at its end.
fn image(byte: u8) -> [u8; 4480] {
    let mut image = [0; 4480];
    image[4479] = byte;
    image
}

// A pool of one state, whose image is the base, with its word.
fn one_word(alloc: Global, base: &[u8]) -> Result<FrontPool, PushRefused>
    requires { length base.now ≡ 4480 }
    ensures { IfOk result (λ pool. (length pool.images ≡ 1) × (length pool.words ≡ 1) × (length pool.base ≡ 4480)) }
{
    let mut pool = FrontPool::new(alloc, base, 113)?;
    pool.push_word(alloc, base, &[4])?;
    Ok(pool)
}

// A pool of one state that was born of the first, with one page of its own.
fn one_birth(alloc: Global, base: &[u8]) -> Result<FrontPool, PushRefused>
    requires { length base.now ≡ 4480 }
    ensures born { IfOk result (λ pool. pool.born ≡ record { parent = 0; pad = 128 } ∷ []) }
    ensures held { IfOk result (λ pool. (length pool.images ≡ 1) × (length pool.base ≡ 4480)) }
{
    let mut pool = FrontPool::new(alloc, base, 89)?;
    pool.push(image(7).as_slice(), 0, Pad(128))?;
    Ok(pool)
}

#[test]
fn a_pool_is_full(rt: HostRuntime) -> Result<(), Fail> {
    let base = image(0);
    let mut pool = one_word(rt.alloc(), base.as_slice())?;
    assert_eq!(rt; pool.bytes(), 25);
    let full = PushRefused::PoolFull {
        bytes: 25,
        limit: 113,
    };
    assert_eq!(rt; pool.push(image(1).as_slice(), 0, Pad(1)), Err(full));
    assert_eq!(rt; pool.len(), 1);
    Ok(())
}

#[test]
fn a_state_goes_on(rt: HostRuntime) -> Result<(), Fail> {
    let base = image(0);
    let mut front = one_word(rt.alloc(), base.as_slice())?;
    front.next_front(one_birth(rt.alloc(), base.as_slice())?)?;
    let word = front.word_of(rt.alloc(), 0)?;
    assert_eq!(rt; word.as_slice(), [4, 128].as_slice());
    assert_eq!(rt; front.bytes(), 89);
    let mut into = image(1);
    front.load(0, into.as_mut_slice());
    assert!(rt; into == image(7));
    Ok(())
}
