//! The movies that the tests replay, and what comes of each.

/// One point for each count at $10, and 100 more once it is 5, which wins.
pub(crate) fn goal() -> &'static str {
    r#"{
"version": 1,
"properties": [{"name": "x", "at": 16, "kind": "u8"}],
"hash": ["x"],
"inputs": [{"pads": ["........", "...R...."]}],
"rules": [
    {"name": "go", "weights": [{"property": "x", "weight": 1}]},
    {"name": "goal", "when": [{"property": "x", "op": "==", "value": 5}], "win": true, "reward": 100}
]
}"#
}

/// Two frames a step; ten points once the count was 1 at the end of a step, and 20 once it was 2.
pub(crate) fn pairs() -> &'static str {
    r#"{
"version": 1,
"properties": [{"name": "x", "at": 16, "kind": "u8"}],
"hash": ["x"],
"hold": 2,
"inputs": [{"pads": ["........", "...R...."]}],
"rules": [
    {"name": "go", "weights": [{"property": "x", "weight": 1}]},
    {"name": "one", "when": [{"property": "x", "op": "==", "value": 1}], "reward": 10},
    {"name": "two", "when": [{"property": "x", "op": "==", "value": 2}], "reward": 20}
]
}"#
}

/// Two frames a step; one point for each count at $10, and 100 more once it is 2, which wins.
pub(crate) fn pairs_to_win() -> &'static str {
    r#"{
"version": 1,
"properties": [{"name": "x", "at": 16, "kind": "u8"}],
"hash": ["x"],
"hold": 2,
"inputs": [{"pads": ["........", "...R...."]}],
"rules": [
    {"name": "go", "weights": [{"property": "x", "weight": 1}]},
    {"name": "goal", "when": [{"property": "x", "op": "==", "value": 2}], "win": true, "reward": 100}
]
}"#
}

/// Two numbers of working memory.
pub(crate) fn two() -> &'static str {
    r#"{
"version": 1,
"properties": [{"name": "x", "at": 16, "kind": "u8"}, {"name": "t", "at": 17, "kind": "u8"}],
"hash": ["x"],
"inputs": [{"pads": ["........", "...R...."]}],
"rules": [{"name": "go", "weights": [{"property": "x", "weight": 1}]}]
}"#
}

/// Movies by the script with a goal, behind three frames without a button: each frame's pad, R for Right, and the
/// answer with the frames that were run.
pub(crate) fn of_goal() -> &'static str {
    r#"...RRRRR => step=5 frames=8 reward=105 won, 8 run
...RRRR => step=4 frames=7 reward=4, 7 run"#
}

/// The same by the script with two frames a step.
pub(crate) fn in_pairs() -> &'static str {
    r#"...RRRR => step=2 frames=7 reward=24, 7 run
.. => not the start at 2, 0 run
.R.R => not the start at 1, 0 run
...RRR => not held at 6, 0 run
...RRR.. => not held at 6, 0 run"#
}

/// Lets NMIs come. Each counts at $11, reads the eight buttons, and counts at $10 where Right is held.
pub(crate) fn walk() -> &'static [u8] {
    &[
        0x78, 0xA9, 0x80, 0x8D, 0x00, 0x20, 0x4C, 0x06, 0x80, 0xE6, 0x11, 0xA9, 0x01, 0x8D, 0x16,
        0x40, 0xA9, 0x00, 0x8D, 0x16, 0x40, 0xA2, 0x08, 0xAD, 0x16, 0x40, 0xCA, 0xD0, 0xFA, 0x29,
        0x01, 0xF0, 0x02, 0xE6, 0x10, 0x40,
    ]
}
