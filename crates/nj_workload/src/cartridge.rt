ghost use Rattle.std.specs.Prelude.{◌≡◌, ◌++◌, IfOk};
ghost use Rattle.nj_workload.specs.Game.{zeros, header, reset_code, frame_code, vectors, code_page, program_memory, file_with};

use nj_seq::Seq;
use std::alloc::{AllocError, Global};

// The file's head: NES and $1A, one unit of program memory, one of pattern memory.
const HEADER: [u8; 16] = [
    0x4E, 0x45, 0x53, 0x1A, 0x01, 0x01, 0x00, 0x00, 0x00, 0x00, 0x00, 0x00, 0x00, 0x00, 0x00, 0x00,
];

// At $8000: switches the NMI on and waits.
const RESET_CODE: [u8; 9] = [
    0x78, // SEI
    0xA9, 0x80, // LDA #$80
    0x8D, 0x00, 0x20, // STA $2000
    0x4C, 0x06, 0x80, // JMP $8006
];

// At $8009, once a frame: reads the pad into $12 and moves $10 and $11.
const FRAME_CODE: [u8; 64] = [
    0xA9, 0x01, // LDA #$01
    0x8D, 0x16, 0x40, // STA $4016
    0x4A, // LSR A
    0x8D, 0x16, 0x40, // STA $4016
    0xA2, 0x08, // LDX #$08
    0xAD, 0x16, 0x40, // $8014: LDA $4016
    0x4A, // LSR A
    0x26, 0x12, // ROL $12
    0xCA, // DEX
    0xD0, 0xF7, // BNE $8014
    0xA6, 0x10, // LDX $10
    0xA5, 0x12, // LDA $12
    0x4A, // LSR A
    0x90, 0x01, // BCC $8025
    0xE8, // INX
    0x4A, // $8025: LSR A
    0x90, 0x01, // BCC $8029
    0xCA, // DEX
    0x4A, // $8029: LSR A
    0x90, 0x02, // BCC $802E
    0xE6, 0x11, // INC $11
    0x4A, // $802E: LSR A
    0x90, 0x02, // BCC $8033
    0xC6, 0x11, // DEC $11
    0xA5, 0x12, // $8033: LDA $12
    0x10, 0x04, // BPL $803B
    0xBD, 0x00, 0x81, // LDA $8100,X
    0xAA, // TAX
    0x86, 0x10, // $803B: STX $10
    0x24, 0x12, // BIT $12
    0x50, 0x07, // BVC $8048
    0xA6, 0x11, // LDX $11
    0xBD, 0x00, 0x82, // LDA $8200,X
    0x85, 0x11, // STA $11
    0x40, // $8048: RTI
];

// At $FFFA: NMI, reset and IRQ.
const VECTORS: [u8; 6] = [0x09, 0x80, 0x00, 0x80, 0x00, 0x80];

#[tactic(auto, using(crate::proofs::Bytes::behind_none, crate::proofs::Bytes::behind_more))]
fn push_zeros(file: &mut Vec<u8>, count: usize) -> Result<(), AllocError>
    ensures { IfOk result (λ _. file.new.items ≡ file.old.items ++ zeros count) }
{
    for _place in 0..count {
        file.push(0)?;
    }
    Ok(())
}

// The first page of program memory.
#[tactic(auto, unfolding(crate::specs::Game::code_page))]
fn push_code(file: &mut Vec<u8>) -> Result<(), AllocError>
    ensures { IfOk result (λ _. file.new.items ≡ file.old.items ++ code_page) }
{
    file.extend_from_slice(&RESET_CODE)?;
    file.extend_from_slice(&FRAME_CODE)?;
    push_zeros(file, 183)
}

// The 16 KiB of program memory.
#[tactic(auto, unfolding(crate::specs::Game::program_memory))]
fn push_program(file: &mut Vec<u8>, tables: &[u8]) -> Result<(), AllocError>
    ensures { IfOk result (λ _. file.new.items ≡ file.old.items ++ program_memory tables.now) }
{
    push_code(file)?;
    file.extend_from_slice(tables)?;
    push_zeros(file, 15_610)?;
    file.extend_from_slice(&VECTORS)
}

/// The cartridge's file with the two tables, which take 512 bytes.
#[tactic(auto, unfolding(crate::specs::Game::file_with))]
pub fn made(alloc: Global, tables: &[u8]) -> Result<Seq<u8>, AllocError>
    ensures { IfOk result (λ file. file ≡ file_with tables.now) }
{
    let mut file = Vec::from_slice(alloc, &HEADER)?;
    push_program(&mut file, tables)?;
    push_zeros(&mut file, 8192)?;
    Ok(Seq::from_vec(file))
}
