use crate::data::{
    edited_heads, edited_inputs, edited_properties, edited_rules, judged, limits, texts, whole,
};
use nj_rules::{Judged, Status, Verdict, allowed, judge, key_of};
use nj_script::{Script, ScriptRefused, Text};
use std::alloc::{AllocError, Global};
use std::test::Fail;

fn named(alloc: Global, refusal: &str, name: &Text) -> Result<String, AllocError> {
    let name = name.as_str();
    format!(in alloc; "{refusal}({name})")
}

// What comes of a script's bytes, as the rows of `data` say it.
fn answer(alloc: Global, bytes: &[u8]) -> Result<String, AllocError> {
    match Script::read(alloc, bytes) {
        Ok(_) => String::from_str(alloc, "ok"),
        Err(ScriptRefused::NotJson) => String::from_str(alloc, "NotJson"),
        Err(ScriptRefused::Missing { key }) => named(alloc, "Missing", &key),
        Err(ScriptRefused::UnknownKey { key }) => named(alloc, "UnknownKey", &key),
        Err(ScriptRefused::WrongKind { key }) => named(alloc, "WrongKind", &key),
        Err(ScriptRefused::OutOfRange { key, value }) => {
            let key = key.as_str();
            format!(in alloc; "OutOfRange({key}, {value})")
        }
        Err(ScriptRefused::UnknownName { name }) => named(alloc, "UnknownName", &name),
        Err(ScriptRefused::TwiceNamed { name }) => named(alloc, "TwiceNamed", &name),
        Err(ScriptRefused::TooMany { key, limit }) => {
            let key = key.as_str();
            format!(in alloc; "TooMany({key}, {limit})")
        }
        Err(ScriptRefused::Version { n }) => format!(in alloc; "Version({n})"),
        Err(ScriptRefused::NoMemory) => Err(AllocError),
    }
}

// The whole script with another text in place of the first such piece.
fn replaced(alloc: Global, piece: &str, text: &str) -> Result<String, Fail> {
    let (before, after) = whole().split_once(piece).ok_or("no such piece")?;
    Ok(format!(in alloc; "{before}{text}{after}")?)
}

// The two or three parts of a row.
fn parts(row: &str) -> Result<(&str, &str), Fail> {
    Ok(row.split_once(" => ").ok_or("no arrow")?)
}

// The first row of edits whose script comes to something else than the row says, or nothing.
fn wrong_edit(alloc: Global, rows: &'static str) -> Result<&'static str, Fail> {
    for row in rows.lines() {
        let (piece, rest) = parts(row)?;
        let (text, wanted) = parts(rest)?;
        let script = replaced(alloc, piece, text)?;
        let told = answer(alloc, script.as_bytes())?;
        if told.as_str() != wanted {
            return Ok(row);
        }
    }
    Ok("")
}

#[test]
fn edited_scripts(rt: HostRuntime) -> Result<(), Fail> {
    let alloc = rt.alloc();
    assert_eq!(rt; wrong_edit(alloc, edited_heads())?, "");
    assert_eq!(rt; wrong_edit(alloc, edited_properties())?, "");
    assert_eq!(rt; wrong_edit(alloc, edited_inputs())?, "");
    assert_eq!(rt; wrong_edit(alloc, edited_rules())?, "");
    Ok(())
}

#[test]
fn whole_texts(rt: HostRuntime) -> Result<(), Fail> {
    let alloc = rt.alloc();
    for row in texts().lines() {
        let (text, wanted) = parts(row)?;
        let told = answer(alloc, text.as_bytes())?;
        assert_eq!(rt; told.as_str(), wanted, "{row}");
    }
    Ok(())
}

// The whole script with so many zeros at the beginning of a list.
fn with_zeros(alloc: Global, piece: &str, zeros: &str) -> Result<String, Fail> {
    let zeros = zeros.parse::<u8>().ok().ok_or("no number")?;
    let members = "0,".repeat(alloc, usize::from(zeros))?;
    let text = format!(in alloc; "{piece}{members}")?;
    replaced(alloc, piece, text.as_str())
}

#[test]
fn longest_lists(rt: HostRuntime) -> Result<(), Fail> {
    let alloc = rt.alloc();
    for row in limits().lines() {
        let (piece, rest) = parts(row)?;
        let (zeros, wanted) = parts(rest)?;
        let script = with_zeros(alloc, piece, zeros)?;
        let told = answer(alloc, script.as_bytes())?;
        assert_eq!(rt; told.as_str(), wanted, "{row}");
    }
    Ok(())
}

#[test]
fn bytes_and_nesting(rt: HostRuntime) -> Result<(), Fail> {
    let alloc = rt.alloc();
    let told = answer(alloc, &[0xFF])?;
    assert_eq!(rt; told.as_str(), "NotJson");
    for (depth, wanted) in [(127, "WrongKind()"), (128, "NotJson")] {
        let open = "[".repeat(alloc, depth)?;
        let close = "]".repeat(alloc, depth)?;
        let text = format!(in alloc; "{open}{close}")?;
        let told = answer(alloc, text.as_bytes())?;
        assert_eq!(rt; told.as_str(), wanted);
    }
    Ok(())
}

fn accepted(alloc: Global, text: &str) -> Result<Script, Fail> {
    match Script::read(alloc, text.as_bytes()) {
        Ok(script) => Ok(script),
        Err(_refused) => Err(Fail::from("refused")),
    }
}

// What the accessors of numbers say.
fn numbers(alloc: Global, script: &Script) -> Result<String, AllocError> {
    let (hold, tolerance, quota) = (script.hold(), script.tolerance(), script.quota());
    format!(in alloc; "hold={hold} tolerance={tolerance} quota={quota}")
}

// How many there are of what the script lists.
fn counts(alloc: Global, script: &Script) -> Result<String, AllocError> {
    let properties = script.property_count();
    let rules = script.rule_count();
    let inputs = script.input_count();
    format!(in alloc; "properties={properties} rules={rules} inputs={inputs}")
}

// The addresses of the bucket's properties.
fn places(alloc: Global, script: &Script) -> Result<String, AllocError> {
    let mut text = String::new(alloc);
    for property in script.bucket() {
        let at = property.at;
        let next = format!(in alloc; "{at};")?;
        text.push_str(next.as_str())?;
    }
    Ok(text)
}

// All of these.
fn said(alloc: Global, text: &str) -> Result<String, Fail> {
    let script = accepted(alloc, text)?;
    let numbers = numbers(alloc, &script)?;
    let counts = counts(alloc, &script)?;
    let places = places(alloc, &script)?;
    Ok(format!(in alloc; "{numbers} {counts} bucket={places}")?)
}

#[test]
fn what_scripts_say(rt: HostRuntime) -> Result<(), Fail> {
    let alloc = rt.alloc();
    assert_eq!(rt;
        said(alloc, judged())?.as_str(),
        "hold=1 tolerance=5 quota=1048576 properties=2 rules=7 inputs=3 bucket="
    );
    assert_eq!(rt;
        said(alloc, whole())?.as_str(),
        "hold=2 tolerance=7 quota=9 properties=2 rules=2 inputs=3 bucket=2046;16;"
    );
    Ok(())
}

// Working memory with these bytes at 16 and 17.
fn memory(x: u8, t: u8) -> [u8; 2048] {
    let mut ram = [0; 2048];
    ram[16] = x;
    ram[17] = t;
    ram
}

// How many pads may come next, and the first two.
fn next_pads(alloc: Global, script: &Script, ram: &[u8; 2048]) -> Result<String, AllocError> {
    let mut pads = [0; 256];
    let count = allowed(script.inputs(), ram, &mut pads);
    let (first, second) = (pads[0], pads[1]);
    format!(in alloc; "{count}: {first} {second}")
}

// What the rules make of a state.
fn judgement(
    alloc: Global,
    script: &Script,
    ram: &[u8; 2048],
    status: Status,
    jammed: bool,
) -> Result<String, AllocError> {
    let judged = judge(script.rules(), ram, status, jammed);
    judged_text(alloc, judged)
}

fn judged_text(alloc: Global, judged: Judged) -> Result<String, AllocError> {
    let verdict = verdict_text(judged.verdict);
    let (status, reward, level) = (judged.status.0, judged.reward, judged.level);
    format!(in alloc; "{verdict} status={status} reward={reward} level={level}")
}

fn verdict_text(verdict: Verdict) -> &'static str {
    match verdict {
        Verdict::Go => "go",
        Verdict::Win => "win",
        Verdict::Fail => "fail",
    }
}

// What seven rules make of a state, and the pads that may come next.
fn state_told(alloc: Global, x: u8, t: u8, status: Status, jammed: bool) -> Result<String, Fail> {
    let script = accepted(alloc, judged())?;
    let ram = memory(x, t);
    let judgement = judgement(alloc, &script, &ram, status, jammed)?;
    let pads = next_pads(alloc, &script, &ram)?;
    Ok(format!(in alloc; "{judgement} pads={pads}")?)
}

#[test]
fn judged_states(rt: HostRuntime) -> Result<(), Fail> {
    let alloc = rt.alloc();
    assert_eq!(rt;
        state_told(alloc, 1, 0xFE, Status(0), false)?.as_str(),
        "win status=3 reward=4 level=1 pads=2: 128 0"
    );
    assert_eq!(rt;
        state_told(alloc, 0, 0xFE, Status(3), true)?.as_str(),
        "fail status=3 reward=4 level=1 pads=2: 16 0"
    );
    Ok(())
}

// The hash of `fooba` and the status byte `r` is that of `foobar`.
#[test]
fn the_key_of_a_published_text(rt: HostRuntime) -> Result<(), Fail> {
    let script = accepted(rt.alloc(), judged())?;
    let mut ram = memory(0, 0);
    for (i, byte) in b"fooba".iter().enumerate() {
        ram[3 + i] = *byte;
    }
    let key = key_of(script.hash(), script.rule_count(), &ram, Status(0x72));
    assert_eq!(rt; key, 0x8594_4171_f739_67e8);
    Ok(())
}
