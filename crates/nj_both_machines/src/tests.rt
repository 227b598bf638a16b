use super::*;
use nj_asm::assemble;
use nj_workload::make_workload;
use std::test::Fail;

// Rendering on, sprite zero waited for in each frame by reading $2002, the scroll set after it, a sprite copy and a
// read of the pad at each NMI; Y of sprite zero goes up by one a frame, its X follows the pad.
const POLLS: &str = "
.org $8000
        JMP reset
        JMP nmi
reset:  SEI
        CLD
        LDX #$FF
        TXS
first:  BIT $2002
        BPL first
second: BIT $2002
        BPL second
        LDA #$3F
        STA $2006
        LDA #$00
        STA $2006
        LDX #$20
colour: STX $2007
        DEX
        BNE colour
        LDA #$00
        STA $2006
        STA $2006
tile:   TXA
        EOR #$5A
        STA $2007
        INX
        BNE tile
        LDA #$20
        STA $2006
        LDA #$00
        STA $2006
        LDY #$04
cell:   TXA
        AND #$0F
        STA $2007
        INX
        BNE cell
        DEY
        BNE cell
        LDA #$20
        STA $0200
        LDA #$01
        STA $0201
        LDA #$50
        STA $0203
        LDA #$80
        STA $2000
        LDA #$1E
        STA $2001
clear:  BIT $2002
        BVS clear
hit:    BIT $2002
        BVC hit
        LDA $0300
        STA $2005
        LDA #$00
        STA $2005
        INC $0301
        JMP clear
nmi:    PHA
        TXA
        PHA
        LDA #$02
        STA $4014
        LDA #$01
        STA $4016
        LSR A
        STA $4016
        LDX #$08
button: LDA $4016
        LSR A
        ROL $10
        DEX
        BNE button
        LDA $10
        STA $0203
        INC $0200
        INC $0300
        LDA $2002
        LDA #$00
        STA $2005
        STA $2005
        PLA
        TAX
        PLA
        RTI
";

// Every register of the picture written and read at any dot, with rendering switched on and off and NMIs let through
// and held back in mid-frame.
const MEDDLES: &str = "
.org $8000
        JMP loop
        JMP nmi
loop:   INC $20
        LDA $20
        STA $2001
        LDA $2002
        ADC $2007
        LDX $20
        STX $2003
        STX $2004
        STX $2005
        LDA $2004
        ADC $21
        STA $21
        STA $2006
        STX $2006
        STX $2007
        BIT $2002
        LDX $21
        STX $2000
wait:   DEX
        BNE wait
        LDA $2002
        LDA $20
        ORA #$18
        STA $2001
        LDA $21
        AND #$1F
        BNE loop
        LDA #$02
        STA $4014
        JMP loop
nmi:    INC $22
        BIT $2002
        RTI
";

// Waits in a jump to itself, three cycles long, until an NMI comes in its middle; rendering goes on and off, so that
// frames with a dot less, and others, shift where the loop meets dot (241,1).
const STAYS: &str = "
.org $8000
        JMP reset
        JMP nmi
reset:  LDA #$80
        STA $2000
self:   JMP self
nmi:    INC $10
        LDA $10
        AND #$08
        STA $2001
        RTI
";

// Waits for flags in memory, one wait around another; then a loop whose registers change, one that writes the same byte
// again and again until an NMI sees it, one that reads where nothing is mapped, and one that shifts a port.
const FLAGS: &str = "
.org $8000
        JMP reset
        JMP nmi
reset:  LDX #$FF
        TXS
        LDA #$80
        STA $2000
frame:  LDA #$00
        STA $20
        STA $21
outer:  LDA $20
        BEQ outer
inner:  LDA $21
        BNE count
        LDA $20
        BNE inner
        JMP outer
count:  LDX #$40
down:   DEX
        BNE down
        LDA $22
        STA $23
write:  LDA #$01
        STA $24
        LDA $22
        CMP $23
        BEQ write
        STA $23
bus:    LDA $5000
        LDA $22
        CMP $23
        BEQ bus
        STA $23
        STA $4016
port:   LDA $4016
        LDA $22
        CMP $23
        BEQ port
        JMP frame
nmi:    INC $22
        LDA $24
        CLC
        ADC $25
        STA $25
        LDA $22
        AND #$01
        STA $20
        LDA $22
        AND #$04
        STA $21
        RTI
";

// A loop in working memory that each NMI makes one jump long or two; it is left in its middle, and by polls of vertical
// blank, whose read clears the flag, at every phase.
const IN_MEMORY: &str = "
.org $8000
        JMP reset
        JMP nmi
reset:  LDX #$FF
        TXS
        LDA #$4C
        STA $0300
        STA $0303
        LDA #$00
        STA $0301
        STA $0304
        LDA #$03
        STA $0302
        STA $0305
        LDA #$80
        STA $2000
        JMP $0300
nmi:    LDA $0301
        EOR #$03
        STA $0301
        INC $10
        LDA $10
        AND #$07
        BNE done
        LDA #$00
        STA $2000
        LDX $10
poll:   BIT $2002
        BPL poll
again:  LDA $2002
        BPL again
        INC $11
        LDA #$80
        STA $2000
done:   RTI
";

// Rendering on, and a bank of pattern memory chosen again and again in mid-frame, so that sprite zero meets now one,
// now the other; and unofficial opcodes: LAX, ISC, SBX, SLO, RRA and a NOP that reads a register.
const SWITCHES: &str = "
.org $8000
        JMP reset
        JMP nmi
bank:   .byte $01
reset:  LDX #$FF
        TXS
first:  BIT $2002
        BPL first
second: BIT $2002
        BPL second
        LDA #$3F
        STA $2006
        LDA #$00
        STA $2006
        LDX #$20
colour: STX $2007
        DEX
        BNE colour
        LDA #$20
        STA $0200
        STA $2006
        STX $2006
cell:   STX $2007
        INX
        BNE cell
        LDA #$80
        STA $2000
        LDA #$1E
        STA $2001
loop:   INC $20
        LDA $20
        STA bank
        .byte $A7, $20
        .byte $E7, $21
        .byte $CB, $03
        .byte $07, $22
        .byte $67, $23
        .byte $1C, $FF, $20
        BIT $2002
        BVC loop
        INC $24
        JMP loop
nmi:    LDA #$02
        STA $4014
        INC $0200
        LDA $2002
        LDA #$00
        STA $2005
        STA $2005
        RTI
";

// A window on program memory that is moved in each round, and unofficial opcodes: LAX, SAX and DCP.
const WINDOWS: &str = "
.org $C000
        JMP loop
        JMP nmi
bank:   .byte $FF
loop:   INC $20
        LDA $20
        STA bank
        ADC $8000
        STA $21
        .byte $AF, $20, $00
        .byte $8F, $22, $00
        .byte $D3, $24
        JMP loop
nmi:    RTI
";

// The 16 KiB of a source's program that begins on this page: NMIs go to its fourth byte, resets to its first.
fn bank(alloc: Global, source: &str, page: u8) -> Result<Vec<u8>, Fail> {
    let program = assemble(alloc, source.as_bytes()).ok().ok_or("no program")?;
    let mut bytes = Vec::from_slice(alloc, program.bytes.as_slice())?;
    bytes.resize(0x3FFA, 0)?;
    bytes.extend_from_slice(&[0x03, page, 0x00, page, 0x00, page])?;
    Ok(bytes)
}

const HEADER: [u8; 16] = [b'N', b'E', b'S', 0x1A, 1, 0, 1, 0, 0, 0, 0, 0, 0, 0, 0, 0];

// The cartridge of a source: 16 KiB of program memory, pattern memory is RAM.
fn cartridge(alloc: Global, source: &str) -> Result<Cart, Fail> {
    let program = bank(alloc, source, 0x80)?;
    let mut file = Vec::from_slice(alloc, &HEADER)?;
    file.extend_from_slice(program.as_slice())?;
    Ok(Cart::read(alloc, file.as_slice())?)
}

const HEADER_UXROM: [u8; 16] = [
    b'N', b'E', b'S', 0x1A, 2, 0, 0x21, 0, 0, 0, 0, 0, 0, 0, 0, 0,
];

// The cartridge of WINDOWS behind UxROM: its program stands in the last of two banks.
fn two_windows(alloc: Global) -> Result<Cart, Fail> {
    let program = bank(alloc, WINDOWS, 0xC0)?;
    let mut file = Vec::from_slice(alloc, &HEADER_UXROM)?;
    file.resize(16 + 0x4000, 0x5A)?;
    file.extend_from_slice(program.as_slice())?;
    Ok(Cart::read(alloc, file.as_slice())?)
}

const HEADER_CNROM: [u8; 16] = [
    b'N', b'E', b'S', 0x1A, 1, 2, 0x31, 0, 0, 0, 0, 0, 0, 0, 0, 0,
];

// The cartridge of SWITCHES behind CNROM: one bank of pattern memory has every tile striped, one has none.
fn two_pictures(alloc: Global) -> Result<Cart, Fail> {
    let program = bank(alloc, SWITCHES, 0x80)?;
    let mut file = Vec::from_slice(alloc, &HEADER_CNROM)?;
    file.extend_from_slice(program.as_slice())?;
    file.resize(16 + 0x6000, 0xA5)?;
    file.resize(16 + 0x8000, 0)?;
    Ok(Cart::read(alloc, file.as_slice())?)
}

// A hundred frames with ever other buttons.
fn hundred_pads(alloc: Global) -> Result<Vec<Pad>, AllocError> {
    let mut pads = Vec::new(alloc);
    for frame in 0..100u8 {
        pads.push(Pad(frame.wrapping_mul(37)))?;
    }
    Ok(pads)
}

#[test]
fn workloads_have_the_same_images(rt: HostRuntime) -> Result<(), Fail> {
    let pads = hundred_pads(rt.alloc())?;
    for number in 0..4 {
        let made = make_workload(rt.alloc(), number)?;
        let cart = Cart::read(rt.alloc(), made.cart.as_slice())?;
        assert_eq!(rt;
            first_difference(rt.alloc(), &cart, pads.as_slice())?,
            None,
            "workload {number}"
        );
    }
    Ok(())
}

#[test]
fn games_have_the_same_images(rt: HostRuntime) -> Result<(), Fail> {
    let pads = hundred_pads(rt.alloc())?;
    for source in [POLLS, MEDDLES, STAYS, FLAGS, IN_MEMORY] {
        let cart = cartridge(rt.alloc(), source)?;
        assert_eq!(rt;
            first_difference(rt.alloc(), &cart, pads.as_slice())?,
            None,
            "{source}"
        );
    }
    Ok(())
}

#[test]
fn banked_games_have_the_same_images(rt: HostRuntime) -> Result<(), Fail> {
    let pads = hundred_pads(rt.alloc())?;
    let windows = two_windows(rt.alloc())?;
    assert_eq!(rt;
        first_difference(rt.alloc(), &windows, pads.as_slice())?,
        None
    );
    let pictures = two_pictures(rt.alloc())?;
    assert_eq!(rt;
        first_difference(rt.alloc(), &pictures, pads.as_slice())?,
        None
    );
    Ok(())
}
