//! The processor's own speed: 100 million instructions of a loop over RAM and PRG. Prints what the
//! loop leaves, which is the same whichever compiler built the program.
#![tactic(auto)]

mod cells;

use cells::{Cells, ram_sum};
use nj_cpu::{power_on, unit};
use std::io;

/// How many instructions are run.
const INSTRUCTIONS: u32 = 100_000_000;

fn main(rt: HostRuntime) -> io::Result<()> {
    let mut prg = vec![in rt.alloc(); 0u8; 16384]?;
    cells::fill(&mut prg);
    let mut cells = Cells::new(prg);
    let mut cpu = power_on(0x8000);
    for _ in 0..INSTRUCTIONS {
        let _ = unit(&mut cpu, &mut cells);
    }
    let low = cells.ram[0x10];
    let count = cells.ram[0x11];
    let sum = ram_sum(&cells);
    let cycles = cells.cycles;
    println!(rt;
        "a={} x={} low={low} count={count} sum={sum} cycles={cycles}",
        cpu.a, cpu.x
    )?;
    Ok(())
}
