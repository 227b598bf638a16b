//! Plans that are refused, and plans that are accepted.
ghost use Rattle.nj_search.specs.Plans.{AreInRange};

use crate::walking::{BUDGET, EIGHT, FIVE, cartridge, limits, movie, script};
use nj_search::{Cart, Limits, Movie, Plan, PlanRefused, Script, cost};
use std::alloc::Global;
use std::test::Fail;

// What is refused of a plan.
fn refused(cart: Cart, script: Script, start: Movie, limits: Limits) -> Option<PlanRefused>
    requires { AreInRange limits }
{
    Plan::new(cart, script, start, limits, None).err()
}

// What is refused of a plan on the walking cartridge behind three frames.
fn refused_walk(alloc: Global, limits: Limits) -> Result<Option<PlanRefused>, Fail>
    requires { AreInRange limits }
{
    let start = movie(alloc, &[0, 0, 0])?;
    Ok(refused(cartridge(alloc, 1, 1)?, script(alloc, FIVE)?, start, limits))
}

// What is refused of a plan of eight pads on a cartridge of 32 KiB without a start.
fn refused_large(alloc: Global, limits: Limits) -> Result<Option<PlanRefused>, Fail>
    requires { AreInRange limits }
{
    let start = movie(alloc, &[])?;
    Ok(refused(
        cartridge(alloc, 2, 1)?,
        script(alloc, EIGHT)?,
        start,
        limits,
    ))
}

#[test]
fn plans_that_are_refused(rt: HostRuntime) -> Result<(), Fail> {
    assert_eq!(rt;
        refused_walk(rt.alloc(), limits(8991, 1000, 20))?,
        Some(PlanRefused::BudgetTooSmall {
            budget: 8991,
            cost: 8992
        })
    );
    assert_eq!(rt;
        refused_walk(rt.alloc(), limits(BUDGET, 1000, 10))?,
        Some(PlanRefused::SeenTooSmall {
            need: 14_926,
            slots: 1024
        })
    );
    assert_eq!(rt;
        refused_walk(rt.alloc(), limits(BUDGET, 9000, 20))?,
        Some(PlanRefused::TrailTooLong {
            rows: 67_167_000,
            limit: 67_108_864
        })
    );
    assert_eq!(rt;
        refused_walk(rt.alloc(), limits(8992, 1_048_574, 20))?,
        Some(PlanRefused::MovieTooLong {
            frames: 1_048_577,
            limit: 1_048_576
        })
    );
    assert_eq!(rt;
        refused_walk(rt.alloc(), limits(8992, 1_048_573, 10))?,
        None
    );
    Ok(())
}

#[test]
fn plans_that_are_accepted(rt: HostRuntime) -> Result<(), Fail> {
    assert_eq!(rt; cost(&cartridge(rt.alloc(), 2, 1)?), 8992);
    assert_eq!(rt; cost(&cartridge(rt.alloc(), 1, 0)?), 25_376);
    assert_eq!(rt; refused_large(rt.alloc(), limits(BUDGET, 1000, 20))?, None);
    assert_eq!(rt; refused_large(rt.alloc(), limits(BUDGET, 8992, 16))?, None);
    assert_eq!(rt;
        refused_large(rt.alloc(), limits(BUDGET, 1000, 15))?,
        Some(PlanRefused::SeenTooSmall {
            need: 59_704,
            slots: 32_768
        })
    );
    Ok(())
}
