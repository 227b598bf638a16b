//! One unit after another, and what each was.

ghost use Rattle.std.specs.Prelude.{◌≡◌};

use crate::cartridges::{WALKS, machine};
use nj_catchup::CatchUp;
use nj_machine::{Machine, Pad, Steps, UnitKind, UnitSeen, UnitStep};
use std::marker::Brand;
use std::sync::ledger::{Blank, Ledger};
use std::test::Fail;

// What was seen of a unit, without its registers but for A, S and PC.
fn told(seen: &UnitSeen) -> (UnitKind, [u8; 3], u8, [u8; 2], u16, (u16, u16)) {
    let cpu = seen.cpu;
    (
        seen.kind,
        seen.bytes,
        seen.len,
        [cpu.a, cpu.s],
        cpu.pc,
        (seen.line, seen.dot),
    )
}

// The first three units of a frame, how many it has, and how many steps they count as.
fn frame_seen<L: Ledger>(
    blank: Blank,
    machine: &mut Machine,
    most: u32,
) -> ([UnitSeen; 3], u32, u64)
    requires { blank.name ≡ L.name }
{
    let mut steps = Steps::<L>::open(blank);
    let mut first = [UnitSeen::new(); 3];
    let mut count = 0;
    for at in 0..most {
        let mut seen = UnitSeen::new();
        let step = machine.unit_step(Pad(0), &mut seen, &mut steps);
        if at < 3 {
            first[at as usize] = seen;
        }
        count = at + 1;
        if step != UnitStep::More {
            break;
        }
    }
    (first, count, steps.count())
}

// Two frames of the walk, unit by unit: the second begins with the jump that is still to come, and then the NMI.
#[test]
fn units_of_the_walk(rt: HostRuntime) -> Result<(), Fail> {
    let mut walks = machine::<CatchUp>(rt.alloc(), &WALKS, 0x09)?;
    let (first, count, steps) = frame_seen::<Brand>(Blank::new(1), &mut walks, 30_000);
    assert_eq!(rt; (count, steps), (9132, 1));
    let [sei, lda, sta] = first;
    assert_eq!(rt;
        told(&sei),
        (UnitKind::Code, [0x78, 0, 0], 1, [0, 0xFD], 0x8000, (0, 0))
    );
    assert_eq!(rt;
        told(&lda),
        (
            UnitKind::Code,
            [0xA9, 0x80, 0],
            2,
            [0, 0xFD],
            0x8001,
            (0, 6)
        )
    );
    assert_eq!(rt;
        told(&sta),
        (
            UnitKind::Code,
            [0x8D, 0x00, 0x20],
            3,
            [0x80, 0xFD],
            0x8003,
            (0, 12)
        )
    );
    let (second, count, _) = frame_seen::<Brand>(Blank::new(1), &mut walks, 30_000);
    assert_eq!(rt; count, 9925);
    let [jmp, nmi, inc] = second;
    assert_eq!(rt;
        told(&jmp),
        (
            UnitKind::Code,
            [0x4C, 0x06, 0x80],
            3,
            [0x80, 0xFD],
            0x8006,
            (241, 4)
        )
    );
    assert_eq!(rt;
        told(&nmi),
        (UnitKind::Nmi, [0; 3], 0, [0x80, 0xFD], 0x8006, (241, 13))
    );
    assert_eq!(rt;
        told(&inc),
        (
            UnitKind::Code,
            [0xE6, 0x11, 0],
            2,
            [0x80, 0xFA],
            0x8009,
            (241, 34)
        )
    );
    Ok(())
}

// A jam is one unit, and what follows is nothing; each counts as a step. A call's last byte is read after the stack.
#[test]
fn units_of_a_jam_and_a_call(rt: HostRuntime) -> Result<(), Fail> {
    let mut jams = machine::<CatchUp>(rt.alloc(), &[0x02], 0x00)?;
    let (first, count, steps) = frame_seen::<Brand>(Blank::new(1), &mut jams, 3);
    assert_eq!(rt; (count, steps), (1, 1));
    let [jam, _, _] = first;
    assert_eq!(rt;
        told(&jam),
        (UnitKind::Jam, [0x02, 0, 0], 1, [0, 0xFD], 0x8000, (0, 0))
    );
    let (later, count, steps) = frame_seen::<Brand>(Blank::new(1), &mut jams, 3);
    assert_eq!(rt; (count, steps), (1, 1));
    let [nothing, _, _] = later;
    assert_eq!(rt; nothing.kind, UnitKind::Nothing);
    let mut calls = machine::<CatchUp>(rt.alloc(), &[0x20, 0x34, 0x12], 0x00)?;
    let ([jsr, _, _], _, _) = frame_seen::<Brand>(Blank::new(1), &mut calls, 1);
    assert_eq!(rt;
        told(&jsr),
        (
            UnitKind::Code,
            [0x20, 0x34, 0x12],
            3,
            [0, 0xFD],
            0x8000,
            (0, 0)
        )
    );
    Ok(())
}
