//! Searches and what they come to, as [`cases`](crate::cases) writes it.

/// A search that is won, with the least budget too.
pub const WINS: &str = r#"$ search walk goal start --steps 5
> # won step=5 frames=8 reward=105
> |..|........|
> |..|........|
> |..|........|
> |..|...R....|
> |..|...R....|
> |..|...R....|
> |..|...R....|
> |..|...R....|
= 0

$ search walk goal start --budget 8992
> # won step=5 frames=8 reward=105
> |..|........|
> |..|........|
> |..|........|
> |..|...R....|
> |..|...R....|
> |..|...R....|
> |..|...R....|
> |..|...R....|
= 0
"#;

/// Other whole searches.
pub const SEARCHES: &str = r#"$ search walk goal -
> # exhausted step=1
= 1

$ search walk movie start --budget 8992 --steps 1
< {"version":1,
< "properties":[{"name":"x","at":16,"kind":"u8"},{"name":"t","at":17,"kind":"u8"}],
< "hash":["x","t"],
< "inputs":[{"pads":["...R....","........"]}],
< "rules":[]}
> # limit step=1 frames=4 reward=0
> |..|........|
> |..|........|
> |..|........|
> |..|...R....|
= 2

$ search walk movie start --budget 8992 --steps 1
< {"version":1,
< "properties":[{"name":"x","at":16,"kind":"u8"},{"name":"t","at":17,"kind":"u8"}],
< "hash":["x","t"],
< "inputs":[{"pads":["........","...R...."]}],
< "rules":[]}
> # limit step=1 frames=4 reward=0
> |..|........|
> |..|........|
> |..|........|
> |..|........|
= 2

$ search walk movie start
< {"version":1,
< "properties":[{"name":"x","at":16,"kind":"u8"},{"name":"t","at":17,"kind":"u8"}],
< "hash":["x"],
< "inputs":[{"pads":["........","...R...."]}],
< "rules":[{"name":"go","weights":[{"property":"x","weight":1}]},
< {"name":"goal","when":[{"property":"x","op":"==","value":0}],"win":true,"reward":100}]}
> # won step=0 frames=3 reward=100
> |..|........|
> |..|........|
> |..|........|
= 0

$ search walk movie start
< {"version":1,
< "properties":[{"name":"x","at":16,"kind":"u8"},{"name":"t","at":17,"kind":"u8"}],
< "hash":["x"],
< "inputs":[{"pads":["........","...R...."]}],
< "rules":[{"name":"go","weights":[{"property":"x","weight":1}]},
< {"name":"goal","when":[{"property":"x","op":"==","value":0}],"win":true,"reward":100},
< {"name":"lost","when":[{"property":"x","op":"==","value":0}],"fail":true}]}
> # exhausted step=0
= 1

$ search walk movie start --steps 2 --budget 35968
< {"version":1,
< "properties":[{"name":"x","at":16,"kind":"u8"},{"name":"t","at":17,"kind":"u8"}],
< "hash":["x","t"],"tolerance":0,
< "inputs":[{"pads":["........","...R...."]}],
< "rules":[{"name":"go","weights":[{"property":"x","weight":1}]},
< {"name":"moved","when":[{"property":"x","op":">=","value":1}],"checkpoint":true},
< {"name":"goal","when":[{"property":"x","op":"==","value":0},{"property":"t","op":"==","value":4}],
< "win":true,"reward":100}]}
> # limit step=2 frames=5 reward=2
> |..|........|
> |..|........|
> |..|........|
> |..|...R....|
> |..|...R....|
= 2

$ search walk movie start --steps 2 --budget 35968
< {"version":1,
< "properties":[{"name":"x","at":16,"kind":"u8"},{"name":"t","at":17,"kind":"u8"}],
< "hash":["x","t"],"tolerance":2,
< "inputs":[{"pads":["........","...R...."]}],
< "rules":[{"name":"go","weights":[{"property":"x","weight":1}]},
< {"name":"moved","when":[{"property":"x","op":">=","value":1}],"checkpoint":true},
< {"name":"goal","when":[{"property":"x","op":"==","value":0},{"property":"t","op":"==","value":4}],
< "win":true,"reward":100}]}
> # won step=2 frames=5 reward=100
> |..|........|
> |..|........|
> |..|........|
> |..|........|
> |..|........|
= 0

$ search walk movie start --steps 4 --budget 35968
< {"version":1,
< "properties":[{"name":"x","at":16,"kind":"u8"},{"name":"t","at":17,"kind":"u8"}],
< "hash":["x","t"],"tolerance":2,
< "inputs":[{"pads":["........","...R...."]}],
< "rules":[{"name":"go","weights":[{"property":"x","weight":1}]},
< {"name":"moved","when":[{"property":"x","op":">=","value":1}],"checkpoint":true},
< {"name":"goal","when":[{"property":"x","op":"==","value":0},{"property":"t","op":"==","value":6}],
< "win":true,"reward":100}]}
> # limit step=4 frames=7 reward=4
> |..|........|
> |..|........|
> |..|........|
> |..|...R....|
> |..|...R....|
> |..|...R....|
> |..|...R....|
= 2

$ search button movie -
< {"version":1,
< "properties":[{"name":"x","at":16,"kind":"u8"},{"name":"t","at":17,"kind":"u8"}],
< "hash":["x"],
< "inputs":[{"pads":["........",".......A"]}],
< "rules":[{"name":"go","weights":[{"property":"x","weight":1}]},
< {"name":"goal","when":[{"property":"x","op":"==","value":1}],"win":true,"reward":100}]}
> # won step=1 frames=1 reward=101
> |..|.......A|
= 0

$ search large movie -
< {"version":1,
< "properties":[{"name":"x","at":16,"kind":"u8"}],
< "hash":["x"],
< "inputs":[{"pads":["........","U.......",".D......","..L.....","...R....","......B.",".......A","U..R...."]}],
< "rules":[{"name":"goal","when":[{"property":"x","op":"==","value":0}],"win":true}]}
> # won step=0 frames=0 reward=0
= 0
"#;

/// Of searches that are saved and gone on with, each behind the one before it.
pub const SAVES: &str = r#"$ search walk goal start --steps 2 --save K
> # limit step=2 frames=5 reward=2
> |..|........|
> |..|........|
> |..|........|
> |..|...R....|
> |..|...R....|
& 90
= 2

+
$ resume walk goal start K --steps 3
> # won step=5 frames=8 reward=105
> |..|........|
> |..|........|
> |..|........|
> |..|...R....|
> |..|...R....|
> |..|...R....|
> |..|...R....|
> |..|...R....|
& 90
= 0

+
$ resume walk goal - K --steps 3
! nj: saved 4 OtherScript kept=13907541807455636324 now=3446088229810688556
& 90
= 11

+
$ resume walk goal start K --steps 1 --save=K
> # limit step=3 frames=6 reward=3
> |..|........|
> |..|........|
> |..|........|
> |..|...R....|
> |..|...R....|
> |..|...R....|
& 103
= 2

+
$ resume walk goal start K --steps 2 --save K
> # won step=5 frames=8 reward=105
> |..|........|
> |..|........|
> |..|........|
> |..|...R....|
> |..|...R....|
> |..|...R....|
> |..|...R....|
> |..|...R....|
& 103
= 0

+
$ resume walk goal none K
! nj: read fault
= 7

+
$ resume short goal start K
! nj: cartridge 8 Short need=16 have=15
= 4

+
$ resume walk goal start none
! nj: read fault
= 7

+
$ resume walk goal start walk
! nj: saved 1 NotSaved
= 11

+
$ resume walk goal start K --steps 0
! nj: usage
= 3

$ search walk movie start --budget 35968 --steps 2 --save K
< {"version":1,
< "properties":[{"name":"x","at":16,"kind":"u8"},{"name":"t","at":17,"kind":"u8"}],
< "hash":["x","t"],
< "inputs":[{"pads":["........","...R...."]}],
< "rules":[{"name":"go","weights":[{"property":"x","weight":1}]},
< {"name":"goal","when":[{"property":"x","op":"==","value":5}],"win":true,"reward":100}]}
> # limit step=2 frames=5 reward=2
> |..|........|
> |..|........|
> |..|........|
> |..|...R....|
> |..|...R....|
& 118
= 2

+
$ resume walk movie start K --budget 8992 --steps 1 --save=K
! nj: plan 5 FrontTooLong front=3 bound=1
& 118
= 5

$ search walk goal start --steps 2 --save K
% 9 0 0
> # limit step=2 frames=5 reward=2
> |..|........|
> |..|........|
> |..|........|
> |..|...R....|
> |..|...R....|
! nj: write fault
& 0
= 8

$ search walk goal start --steps 2 --save K
% 0 3 0
~ # limit step=2 frame
! nj: write fault
& 0
= 8

$ search walk goal start --steps 5 --save K
> # won step=5 frames=8 reward=105
> |..|........|
> |..|........|
> |..|........|
> |..|...R....|
> |..|...R....|
> |..|...R....|
> |..|...R....|
> |..|...R....|
& 0
= 0

$ search walk goal - --save K
> # exhausted step=1
& 0
= 1
"#;

/// Of scripts with a bucket and a quota.
pub const QUOTAS: &str = r#"$ search walk movie start --steps 2 --budget 35968
< {"version":1,
< "properties":[{"name":"x","at":16,"kind":"u8"},{"name":"t","at":17,"kind":"u8"}],
< "hash":["x","t"],
< "inputs":[{"pads":["........","...R...."]}],
< "rules":[{"name":"go","weights":[{"property":"x","weight":1}]},
< {"name":"goal","when":[{"property":"x","op":"==","value":0},{"property":"t","op":"==","value":4}],
< "win":true,"reward":100}]}
> # won step=2 frames=5 reward=100
> |..|........|
> |..|........|
> |..|........|
> |..|........|
> |..|........|
= 0

$ search walk movie start --steps 2 --budget 35968
< {"version":2,
< "properties":[{"name":"x","at":16,"kind":"u8"},{"name":"t","at":17,"kind":"u8"}],
< "hash":["x","t"],"bucket":["t"],"quota":1,
< "inputs":[{"pads":["........","...R...."]}],
< "rules":[{"name":"go","weights":[{"property":"x","weight":1}]},
< {"name":"goal","when":[{"property":"x","op":"==","value":0},{"property":"t","op":"==","value":4}],
< "win":true,"reward":100}]}
> # limit step=2 frames=5 reward=2
> |..|........|
> |..|........|
> |..|........|
> |..|...R....|
> |..|...R....|
= 2

$ search walk movie start --steps 2 --budget 35968
< {"version":2,
< "properties":[{"name":"x","at":16,"kind":"u8"},{"name":"t","at":17,"kind":"u8"}],
< "hash":["x","t"],"bucket":["t"],"quota":2,
< "inputs":[{"pads":["........","...R...."]}],
< "rules":[{"name":"go","weights":[{"property":"x","weight":1}]},
< {"name":"goal","when":[{"property":"x","op":"==","value":0},{"property":"t","op":"==","value":4}],
< "win":true,"reward":100}]}
> # won step=2 frames=5 reward=100
> |..|........|
> |..|........|
> |..|........|
> |..|........|
> |..|........|
= 0

$ check walk movie
< {"version":1,
< "properties":[{"name":"x","at":16,"kind":"u8"},{"name":"t","at":17,"kind":"u8"}],
< "hash":["x","t"],"quota":1,
< "inputs":[{"pads":["........","...R...."]}],
< "rules":[{"name":"go","weights":[{"property":"x","weight":1}]},
< {"name":"goal","when":[{"property":"x","op":"==","value":0},{"property":"t","op":"==","value":4}],
< "win":true,"reward":100}]}
! nj: script 3 UnknownKey key=quota
= 5

$ check walk movie
< {"version":2,
< "properties":[{"name":"x","at":16,"kind":"u8"},{"name":"t","at":17,"kind":"u8"}],
< "hash":["x","t"],"quota":0,
< "inputs":[{"pads":["........","...R...."]}],
< "rules":[{"name":"go","weights":[{"property":"x","weight":1}]},
< {"name":"goal","when":[{"property":"x","op":"==","value":0},{"property":"t","op":"==","value":4}],
< "win":true,"reward":100}]}
! nj: script 5 OutOfRange key=quota value=0
= 5
"#;
