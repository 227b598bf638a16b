use nj_asm::{AsmRefused, Assembled, assemble, list};
use std::alloc::Global;
use std::test::Fail;

const FOUR_LINES: &str = ".org $8000\nSEI\nLDA #$80\nSTA $2000\nloop: JMP loop\n";

const FOUR_LISTED: &str =
    "8000 78       SEI\n8001 A9 80    LDA #$80\n8003 8D 00 20 STA $2000\n8006 4C 06 80 JMP $8006\n";

fn assembled(alloc: Global, source: &str) -> Result<Assembled, Fail> {
    Ok(assemble(alloc, source.as_bytes()).ok().ok_or("refused")?)
}

#[test]
fn a_source_is_listed(rt: HostRuntime) -> Result<(), Fail> {
    let assembled = assembled(rt.alloc(), FOUR_LINES)?;
    assert_eq!(rt; assembled.origin, 0x8000);
    let text = list(rt.alloc(), assembled.bytes.as_slice(), assembled.origin)?;
    assert_eq!(rt; text.as_slice(), FOUR_LISTED.as_bytes());
    Ok(())
}

// An unofficial opcode has a line in the listing, and no statement.
#[test]
fn unofficial_opcodes_are_listed_alone(rt: HostRuntime) -> Result<(), Fail> {
    let text = list(rt.alloc(), &[0xA7, 0x10], 0x8000)?;
    assert_eq!(rt; text.as_slice(), b"8000 A7 10    LAX $10\n".as_slice());
    assert!(rt;
        matches!(
            assemble(rt.alloc(), b"LAX $10"),
            Err(AsmRefused::UnknownOp { line: 1 })
        )
    );
    Ok(())
}

// A refusal's kind and line.
fn told(refused: AsmRefused) -> (&'static str, u64) {
    match refused {
        AsmRefused::Syntax { line } => ("Syntax", line),
        AsmRefused::UnknownOp { line } => ("UnknownOp", line),
        AsmRefused::NoMode { line } => ("NoMode", line),
        AsmRefused::Range { line } => ("Range", line),
        AsmRefused::UnknownLabel { line } => ("UnknownLabel", line),
        AsmRefused::TwiceLabel { line } => ("TwiceLabel", line),
        AsmRefused::TooLong { line } => ("TooLong", line),
        AsmRefused::NoMemory => ("NoMemory", 0),
    }
}

#[test]
fn sources_are_refused(rt: HostRuntime) -> Result<(), Fail> {
    for (source, kind, line) in [
        (".org $8000\nFOO", "UnknownOp", 2),
        ("BNE $9000", "Range", 1),
        ("x:\nx:", "TwiceLabel", 2),
        ("nop\r", "Syntax", 1),
        ("NOP ; a\r\n.org $9000", "Syntax", 2),
        ("STX x,Y\nx:", "NoMode", 1),
        ("JMP y", "UnknownLabel", 1),
        (".org $FFFE\nJMP $8000", "TooLong", 2),
    ] {
        let refused = assemble(rt.alloc(), source.as_bytes()).err().map(told);
        assert_eq!(rt; refused, Some((kind, line)), "of {source:?}");
    }
    Ok(())
}

// Each line has a label and jumps to another line's.
#[test]
fn many_labels_are_found(rt: HostRuntime) -> Result<(), Fail> {
    let mut source = String::from_str(rt.alloc(), ".org 0\n")?;
    for n in 0..20_000u32 {
        source.push_str(&format!(in rt.alloc(); "line{n}: JMP line{}\n", 19_999 - n)?)?;
    }
    let assembled = assembled(rt.alloc(), source.as_str())?;
    assert_eq!(rt; assembled.bytes.as_slice().len(), 60_000);
    Ok(())
}
