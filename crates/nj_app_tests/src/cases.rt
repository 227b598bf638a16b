//! Command lines and what they come to. A case has its words behind `$`, the lines of the file `movie` behind `<` (with
//! `^` for a carriage return), those of `out` behind `>`, a last line without its end behind `~`, the line of `err`
//! behind `!` (behind `?` without its end), its status behind `=`, and how many bytes the file `K` has then behind `&`.
//! Behind `%` stand the numbers of the calls of the shelf, of `out` and of `err` that fail, 0 for none. A case that
//! begins with `+` has the files that the one before it left.

/// Of `play`, and of words that are no command line.
pub const PLAYS: &str = r#"$ play count -
> # play frames=0 state=run
= 0

$ play count movie
> # play frames=0 state=run
= 0

$ play count movie
< |..|........|
> # play frames=1 state=run
> 0010 61
= 0

$ play count movie
< |..|........|
< |..|........|
> # play frames=2 state=run
> 0010 EB
= 0

$ play status movie
< |..|........|
< |..|........|
< |..|........|
> # play frames=3 state=run
> 0010 75
> 01FB 34
> 01FC 04
> 01FD 20
= 0

$ play jam movie
< |..|........|
> # play frames=1 state=jam
= 0

$ play jam movie
< |..|........|
< |..|........|
< |..|........|
> # play frames=3 state=jam
= 0

$ 
! nj: usage
= 3

$ play count
! nj: usage
= 3

$ play count - -
! nj: usage
= 3

$ stop count -
! nj: usage
= 3

$ play -count -
! nj: usage
= 3

$ play short movie
< |..|R.......|
! nj: cartridge 8 Short need=16 have=15
= 4

$ play count movie
< |..|........|
< |..|R.......|
! nj: movie 1 Line line=2
= 6

$ play none movie
! nj: read fault
= 7

$ play count none
! nj: read fault
= 7

$ play count movie
< # x^
< |..|........|^
< |..|...R....|
> # play frames=2 state=run
> 0010 EB
= 0

$ replay walk goal start
! nj: usage
= 3

$ search walk goal start --steps=0
! nj: usage
= 3

$ play walk movie
< # won step=5 frames=8 reward=105
< |..|........|
< |..|........|
< |..|........|
< |..|...R....|
< |..|...R....|
< |..|...R....|
< |..|...R....|
< |..|...R....|
> # play frames=8 state=run
> 0010 05
> 0011 07
> 01FB A4
> 01FC 06
> 01FD 80
= 0
"#;

/// Of `replay`.
pub const REPLAYS: &str = r#"$ replay walk goal start movie
< |..|........|
< |..|........|
< |..|........|
< |..|...R....|
< |..|...R....|
< |..|...R....|
< |..|...R....|
< |..|...R....|
> # won step=5 frames=8 reward=105
= 0

$ replay walk goal start movie
< # won
< |..|........|
< |..|........|
< |..|........|
< |..|...R....|
< |..|...R....|
< |..|...R....|
< |..|...R....|
> # notwon step=4 frames=7 reward=4
= 10

$ replay walk goal start movie
< |..|........|
< |..|........|
! nj: movie 3 NotStart frame=2
= 6

$ replay walk movie start -
! nj: script 1 NotJson
= 5

$ replay walk movie start -
< {"version":3}
! nj: script 9 Version n=3
= 5

$ replay walk movie start -
< {"version":1,"\u00e9":2}
! nj: script 3 UnknownKey key=??
= 5

$ replay walk goal start movie
< # won step=5 frames=8 reward=105
< |..|........|
< |..|........|
< |..|........|
< |..|...R....|
< |..|...R....|
< |..|...R....|
< |..|...R....|
< |..|...R....|
> # won step=5 frames=8 reward=105
= 0
"#;

/// Of `check`: each refusal of a cartridge, and of a script.
pub const CHECKS: &str = r#"$ check walk goal
> # check prg=1 chr=1 mirror=H properties=2 rules=2 inputs=2 cost=8992
= 0

$ check disk goal
> # check prg=1 chr=1 mirror=H properties=2 rules=2 inputs=2 cost=8992
= 0

$ check pal goal
! nj: cartridge 7 Timing n=1
= 4

$ check multi goal
> # check prg=1 chr=1 mirror=H properties=2 rules=2 inputs=2 cost=8992
= 0

$ check trainer goal
! nj: cartridge 2 Trainer
= 4

$ check cut goal
! nj: cartridge 8 Short need=24592 have=24591
= 4

$ check long goal
> # check prg=1 chr=1 mirror=H properties=2 rules=2 inputs=2 cost=8992
= 0

$ check walk movie
! nj: script 1 NotJson
= 5

$ check goal goal
! nj: cartridge 1 NotInes
= 4

$ check four goal
! nj: cartridge 3 FourScreen
= 4

$ check mapper goal
! nj: cartridge 4 Mapper number=1
= 4

$ check three goal
! nj: cartridge 5 PrgUnits n=3
= 4

$ check patterns goal
! nj: cartridge 6 ChrUnits n=2
= 4

$ check huge goal
! nj: cartridge 9 TooLong limit=1048576
= 4

$ check walk huge
! nj: script 10 TooLong limit=1048576
= 5

$ check walk movie
< {"version":1}
! nj: script 2 Missing key=properties
= 5

$ check walk movie
< {"version":1,"properties":[{"name":"x","kind":"u8","at":2048}]}
! nj: script 5 OutOfRange key=at value=2048
= 5

$ check walk movie
< {"version":1,"properties":7}
! nj: script 4 WrongKind key=properties
= 5

$ check walk movie
< {"version":1,"properties":[],"hash":["y"]}
! nj: script 6 UnknownName name=y
= 5

$ check walk movie
< {"version":1,"properties":[{"name":"x","kind":"u8","at":1},{"name":"x","kind":"u8","at":2}]}
! nj: script 7 TwiceNamed name=x
= 5
"#;

/// Of `search`: each refusal of a plan.
pub const PLANS: &str = r#"$ search walk goal start --budget 8991
! nj: plan 1 BudgetTooSmall budget=8991 cost=8992
= 5

$ search walk goal start --slots 10
! nj: plan 2 SeenTooSmall need=14926 slots=1024
= 5

$ search walk goal start --steps 9000
! nj: plan 3 TrailTooLong rows=67167000 limit=67108864
= 5

$ search walk goal start --budget 8992 --steps 1048574
! nj: plan 4 MovieTooLong frames=1048577 limit=1048576
= 5

$ search walk none start
! nj: read fault
= 7
"#;

/// Of `asm`: the refusals of a source.
pub const SOURCES: &str = r#"$ asm movie
= 0

$ asm movie
< .org $8000
< SEI
< LDA #$80
< STA $2000
< loop: JMP loop
> 8000 78       SEI
> 8001 A9 80    LDA #$80
> 8003 8D 00 20 STA $2000
> 8006 4C 06 80 JMP $8006
= 0

$ asm movie
< .org $8000
< FOO
! nj: asm 2 UnknownOp line=2
= 12

$ asm movie
< BNE $9000
! nj: asm 4 Range line=1
= 12

$ asm movie
< x:
< x:
! nj: asm 6 TwiceLabel line=2
= 12

$ asm none
! nj: read fault
= 7

$ asm movie
< LDA $
! nj: asm 1 Syntax line=1
= 12

$ asm movie
< STX $10,X
! nj: asm 3 NoMode line=1
= 12

$ asm movie
< JMP nowhere
! nj: asm 5 UnknownLabel line=1
= 12

$ asm huge
! nj: asm 8 TooLong limit=1048576
= 12
"#;

/// Of `clean`.
pub const CLEANS: &str = r#"$ clean walk goal start movie
< |..|........|
< |..|........|
< |..|........|
< |..|...R...A|
< |..|...R....|
< |..|...R....|
< |..|...R....|
< |..|...R....|
> # clean step=5 frames=8 reward=105 released=1
> |..|........|
> |..|........|
> |..|........|
> |..|...R....|
> |..|...R....|
> |..|...R....|
> |..|...R....|
> |..|...R....|
= 0

$ clean walk goal start movie
< |..|........|
< |..|........|
< |..|........|
< |..|...R....|
< |..|...R....|
< |..|...R....|
< |..|...R....|
< |..|...R....|
< |..|...R....|
> # clean step=6 frames=9 reward=105 released=1
> |..|........|
> |..|........|
> |..|........|
> |..|........|
> |..|...R....|
> |..|...R....|
> |..|...R....|
> |..|...R....|
> |..|...R....|
= 0

$ clean walk goal start movie
< |..|........|
< |..|........|
< |..|........|
< |..|...R....|
< |..|...R....|
< |..|...R....|
< |..|...R....|
> # notwon step=4 frames=7 reward=4
= 10

$ clean walk goal start movie
< |..|........|
< |..|........|
! nj: movie 3 NotStart frame=2
= 6

$ clean walk goal start
! nj: usage
= 3
"#;

/// Of `watch`, and of `trace` where its text is short.
pub const LISTS: &str = r#"$ watch walk goal movie
< |..|........|
< |..|........|
< |..|........|
< |..|...R....|
< |..|...R....|
> # watch frames=5 properties=2
> 0 0 0
> 1 0 0
> 2 0 1
> 3 0 2
> 4 1 3
> 5 2 4
= 0

$ watch walk none movie
! nj: read fault
= 7

$ trace jam movie
< |..|........|
> # trace frame=1 units=1
> L=0 D=0 A=00 X=00 Y=00 S=FD P=24 8000 JAM
= 0

$ trace jam movie --frame 3
< |..|........|
< |..|........|
< |..|........|
> # trace frame=3 units=0
= 0

$ trace walk -
! nj: movie 6 NoFrame frame=1 frames=0
= 6

$ trace walk movie --frame 0
< |..|........|
! nj: usage
= 3
"#;

/// Of `trace`: how its text begins.
pub const TRACES: &str = r#"$ trace walk movie
< |..|........|
> # trace frame=1 units=9132
> L=0 D=0 A=00 X=00 Y=00 S=FD P=24 8000 78       SEI
> L=0 D=6 A=00 X=00 Y=00 S=FD P=24 8001 A9 80    LDA #$80
> L=0 D=12 A=80 X=00 Y=00 S=FD P=A4 8003 8D 00 20 STA $2000
= 0

$ trace walk movie --frame 2
< |..|........|
< |..|........|
> # trace frame=2 units=9925
> L=241 D=4 A=80 X=00 Y=00 S=FD P=A4 8006 4C 06 80 JMP $8006
> L=241 D=13 A=80 X=00 Y=00 S=FD P=A4 8006 NMI
> L=241 D=34 A=80 X=00 Y=00 S=FA P=A4 8009 E6 11    INC $11
= 0
"#;

/// Of calls that fail, and of files of strangers.
pub const FAULTS: &str = r#"$ search walk goal start --steps 5
% 0 2 0
~ # won step
! nj: write fault
= 8

$ search walk goal start --steps 5
% 5 0 0
! nj: read fault
= 7

$ play short movie
% 0 0 1
= 4

$ play none -
% 0 0 2
? nj: read f
= 7

$ play movie -
! nj: cartridge 8 Short need=16 have=0
= 4

$ play movie -
< PK
! nj: cartridge 1 NotInes
= 4

$ check walk movie
< [[[[[[[[[[[[[[[[[[[[[[[[[[[[[[[[[[[[[[[[[[[[[[[[[[[[[[[[[[[[[[[[
< [[[[[[[[[[[[[[[[[[[[[[[[[[[[[[[[[[[[[[[[[[[[[[[[[[[[[[[[[[[[[[[[
< ]]]]]]]]]]]]]]]]]]]]]]]]]]]]]]]]]]]]]]]]]]]]]]]]]]]]]]]]]]]]]]]]
< ]]]]]]]]]]]]]]]]]]]]]]]]]]]]]]]]]]]]]]]]]]]]]]]]]]]]]]]]]]]]]]]]
! nj: script 1 NotJson
= 5

$ check walk movie
< [[[[[[[[[[[[[[[[[[[[[[[[[[[[[[[[[[[[[[[[[[[[[[[[[[[[[[[[[[[[[[[[
< [[[[[[[[[[[[[[[[[[[[[[[[[[[[[[[[[[[[
< ]]]]]]]]]]]]]]]]]]]]]]]]]]]]]]]]]]]]
< ]]]]]]]]]]]]]]]]]]]]]]]]]]]]]]]]]]]]]]]]]]]]]]]]]]]]]]]]]]]]]]]]
! nj: script 4 WrongKind key=
= 5

$ search jam goal -
> # exhausted step=1
= 1

$ search jam goal start
> # exhausted step=0
= 1

$ search short none start
! nj: cartridge 8 Short need=16 have=15
= 4
"#;
