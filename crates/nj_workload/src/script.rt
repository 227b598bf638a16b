ghost use Rattle.std.specs.Prelude.{◌≡◌, IfOk, string_bytes};
ghost use Rattle.nj_workload.specs.Script.{goal_text, script_with, start_text};

use nj_seq::Text;
use std::alloc::{AllocError, Global};

const PROPERTIES: &str =
    "{\"version\":1,\"properties\":[{\"name\":\"x\",\"at\":16,\"kind\":\"u8\"},{\"name\":\"y\",\"at\":17,\"kind\":\"u8\"}],";

const INPUTS: &str =
    "\"hash\":[\"x\",\"y\"],\"inputs\":[{\"pads\":[\"...R....\",\"..L.....\",\".D......\",\"U.......\",\".......A\",\"......B.\"]}],";

const BLANK_LINE: &str = "|..|........|\n";

fn goal(alloc: Global, x: u8, y: u8) -> Result<String, AllocError>
    ensures { IfOk result (λ text. string_bytes text ≡ goal_text x y) }
{
    format!(in alloc;
        "\"rules\":[{{\"name\":\"goal\",\"when\":[{{\"property\":\"x\",\"op\":\"==\",\"value\":{x}}},{{\"property\":\"y\",\"op\":\"==\",\"value\":{y}}}],\"win\":true}}]}}"
    )
}

/// The script with the goal's values.
#[tactic(auto, unfolding(crate::specs::Script::script_with))]
pub fn made(alloc: Global, x: u8, y: u8) -> Result<Text, AllocError>
    ensures { IfOk result (λ text. text ≡ script_with x y) }
{
    let goal = goal(alloc, x, y)?;
    let mut text = String::from_str(alloc, PROPERTIES)?;
    text.push_str(INPUTS)?;
    text.push_str(goal.as_str())?;
    Ok(Text::from_string(text))
}

/// The start's movie.
#[tactic(auto, unfolding(crate::specs::Script::start_text))]
pub fn blank_frames(alloc: Global) -> Result<Text, AllocError>
    ensures { IfOk result (λ text. text ≡ start_text) }
{
    Ok(Text::from_string(BLANK_LINE.repeat(alloc, 200)?))
}
