//! One sweep, and sweeps until one releases no press.

ghost use Rattle.std.specs.Prelude.{◌≡◌, ◌≤◌, ◌<◌, ◌+◌, ◌-◌, ◌*◌, ◌^◌, [], ◌∷◌, All, length, map, filter, take, drop, fold, get_or, IfOk};
ghost use Rattle.nj_pad.specs.Pad.{buttons_in_turn};
ghost use Rattle.nj_clean.specs.Presses.{press_at, holds, buttons_of, presses};
ghost use Rattle.nj_clean.specs.Sweeps.{is_win, tried, swept, cleaned};
ghost use Rattle.nj_clean.specs.Bench.{plan_in, Stands, StandsAt, IsWon, Alters, word_frames};
ghost use Rattle.nj_clean.specs.Clean.{frames_of};

use crate::bench::{Bench, Setting};
use crate::presses::{press_count, without};
use nj_pad::{Button, Pad};
use nj_rules::{Judged, Verdict};
use nj_steps::Steps;
use std::alloc::{AllocError, Global};
use std::sync::ledger::Ledger;

/// A word that wins, and its reward.
#[derive(Drop)]
pub struct Won {
    pub word: Vec<Pad>,
    pub reward: i64,
}

/// Whether the verdict is a win.
pub fn is_win(verdict: Verdict) -> bool
    ensures { result ≡ is_win verdict }
{
    matches!(verdict, Verdict::Win)
}

// The reward of the word is that of its judgement.
fn set_reward(won: &mut Won, judged: Judged)
    ensures reward { won.new.reward ≡ judged.reward }
    ensures word { won.new.word ≡ won.old.word }
{
    won.reward = judged.reward;
}

// The button of a bit.
fn button_at(bit: u8) -> Button
    requires { bit < 8 }
    ensures { drop bit buttons_in_turn ≡ result ∷ drop (bit + 1) buttons_in_turn }
{
    match bit {
        0 => Button::A,
        1 => Button::B,
        2 => Button::Select,
        3 => Button::Start,
        4 => Button::Up,
        5 => Button::Down,
        6 => Button::Left,
        7 => Button::Right,
        _ => unreachable!(),
    }
}

// One press is tried, from the state in front of its step.
fn try_press<L: Ledger>(
    bench: &mut Bench,
    setting: Setting,
    won: &mut Won,
    step: usize,
    button: Button,
    steps: &mut Steps<L>,
)
    requires step { step < length won.old.word.items }
    requires stands { StandsAt (plan_in setting) (take step won.old.word.items) bench.old }
    requires won { IsWon (plan_in setting) won.old }
    ensures word { won.new.word.items ≡ tried (plan_in setting.entry) won.old.word.items (press_at step button) }
    ensures alters { Alters step won.old.word.items won.new.word.items }
    ensures won { IsWon (plan_in setting.entry) won.new }
    ensures stands { StandsAt (plan_in setting.entry) (take step won.old.word.items) bench.new }
    ensures frames { steps.new ≤ steps.old + setting.entry.script.now.hold * (length won.old.word.items - step) }
    ensures never_falls { steps.old ≤ steps.new }
{
    let pad = won.word[step];
    won.word[step] = without(pad, button);
    let judged = bench.judge_word(setting, won.word.as_slice(), step, steps);
    if is_win(judged.verdict) {
        set_reward(won, judged);
    } else {
        won.word[step] = pad;
    }
}

// The same where the pad holds the button.
fn try_button<L: Ledger>(
    bench: &mut Bench,
    setting: Setting,
    won: &mut Won,
    step: usize,
    pad: Pad,
    button: Button,
    steps: &mut Steps<L>,
)
    requires step { step < length won.old.word.items }
    requires stands { StandsAt (plan_in setting) (take step won.old.word.items) bench.old }
    requires won { IsWon (plan_in setting) won.old }
    ensures word { won.new.word.items ≡ fold (tried (plan_in setting.entry)) won.old.word.items
        (map (press_at step) (filter (holds pad) (button ∷ []))) }
    ensures alters { Alters step won.old.word.items won.new.word.items }
    ensures won { IsWon (plan_in setting.entry) won.new }
    ensures stands { StandsAt (plan_in setting.entry) (take step won.old.word.items) bench.new }
    ensures frames { steps.new ≤ steps.old + setting.entry.script.now.hold * (length won.old.word.items - step)
        * length (filter (holds pad) (button ∷ [])) }
    ensures never_falls { steps.old ≤ steps.new }
{
    if pad.is_pressed(button) {
        try_press(bench, setting, won, step, button, steps);
    }
}

// The presses of one step are tried, from the state in front of it.
fn try_step<L: Ledger>(
    bench: &mut Bench,
    setting: Setting,
    won: &mut Won,
    step: usize,
    pad: Pad,
    steps: &mut Steps<L>,
)
    requires step { step < length won.old.word.items }
    requires stands { StandsAt (plan_in setting) (take step won.old.word.items) bench.old }
    requires won { IsWon (plan_in setting) won.old }
    ensures word { won.new.word.items
        ≡ fold (tried (plan_in setting.entry)) won.old.word.items (map (press_at step) (buttons_of pad)) }
    ensures alters { Alters step won.old.word.items won.new.word.items }
    ensures won { IsWon (plan_in setting.entry) won.new }
    ensures stands { StandsAt (plan_in setting.entry) (take step won.old.word.items) bench.new }
    ensures frames { steps.new
        ≤ steps.old + setting.entry.script.now.hold * (length won.old.word.items - step) * length (buttons_of pad) }
    ensures never_falls { steps.old ≤ steps.new }
{
    for bit in 0..8 {
        let button = button_at(bit);
        try_button(bench, setting, won, step, pad, button, steps);
    }
}

// The presses of one step, where the state in front is that of an earlier step. The answer is the step that it is then.
fn sweep_step<L: Ledger>(
    bench: &mut Bench,
    setting: Setting,
    won: &mut Won,
    at: usize,
    step: usize,
    steps: &mut Steps<L>,
) -> usize
    requires order { at ≤ step }
    requires step { step < length won.old.word.items }
    requires stands { StandsAt (plan_in setting) (take at won.old.word.items) bench.old }
    requires won { IsWon (plan_in setting) won.old }
    ensures word { won.new.word.items ≡ fold (tried (plan_in setting.entry)) won.old.word.items
        (map (press_at step) (buttons_of (get_or won.old.word.items step 0))) }
    ensures alters { Alters step won.old.word.items won.new.word.items }
    ensures won { IsWon (plan_in setting.entry) won.new }
    ensures order { result ≤ step }
    ensures stands { StandsAt (plan_in setting.entry) (take result won.old.word.items) bench.new }
    ensures frames { steps.new ≤ steps.old + setting.entry.script.now.hold * length won.old.word.items
        * length (buttons_of (get_or won.old.word.items step 0)) }
    ensures never_falls { steps.old ≤ steps.new }
{
    let pad = won.word[step];
    if pad.0 == 0 {
        return at;
    }
    bench.move_front(setting, won.word.as_slice(), at, step, steps);
    try_step(bench, setting, won, step, pad, steps);
    step
}

// One sweep over a word that wins.
fn sweep<L: Ledger>(
    bench: &mut Bench,
    setting: Setting,
    won: &mut Won,
    steps: &mut Steps<L>,
) -> Result<(), AllocError>
    requires stands { Stands (plan_in setting) bench.old }
    requires won { IsWon (plan_in setting) won.old }
    ensures word { IfOk result (λ _. won.new.word.items ≡ swept (plan_in setting.entry) won.old.word.items) }
    ensures won { IsWon (plan_in setting.entry) won.new }
    ensures stands { IfOk result (λ _. Stands (plan_in setting.entry) bench.new) }
    ensures frames { steps.new
        ≤ steps.old + setting.entry.script.now.hold * length won.old.word.items * length (presses won.old.word.items) }
    ensures never_falls { steps.old ≤ steps.new }
{
    bench.rewind()?;
    let mut at = 0;
    for step in 0..won.word.len() {
        at = sweep_step(bench, setting, won, at, step, steps);
    }
    Ok(())
}

// Sweeps over a word that wins, until one releases no press.
fn sweep_until_none<L: Ledger>(
    alloc: Global,
    setting: Setting,
    won: &mut Won,
    steps: &mut Steps<L>,
) -> Result<(), AllocError>
    requires won { IsWon (plan_in setting) won.old }
    requires few { length won.old.word.items ≤ 2 ^ 20 }
    requires bytes { All (λ pad. pad < 256) won.old.word.items }
    ensures word { IfOk result (λ _. won.new.word.items ≡ cleaned (plan_in setting.entry) won.old.word.items) }
    ensures won { IsWon (plan_in setting.entry) won.new }
    ensures frames { (let p = length (presses won.old.word.items) in
        steps.new ≤ steps.old + length setting.entry.start.now + setting.entry.script.now.hold
        * length won.old.word.items * p * (p + 1)) }
    ensures never_falls { steps.old ≤ steps.new }
{
    let mut bench = Bench::open(alloc, setting, steps)?;
    let mut before = press_count(won.word.as_slice());
    loop {
        sweep(&mut bench, setting, won, steps)?;
        let left = press_count(won.word.as_slice());
        if left == before {
            return Ok(());
        }
        before = left;
    }
}

/// Releases each press that the win of a word does not need.
pub fn clear<L: Ledger>(
    alloc: Global,
    setting: Setting,
    won: &mut Won,
    steps: &mut Steps<L>,
) -> Result<(), AllocError>
    requires won { IsWon (plan_in setting) won.old }
    requires few { length won.old.word.items ≤ 2 ^ 20 }
    requires bytes { All (λ pad. pad < 256) won.old.word.items }
    ensures word { IfOk result (λ _. won.new.word.items ≡ cleaned (plan_in setting.entry) won.old.word.items) }
    ensures won { IsWon (plan_in setting.entry) won.new }
    ensures frames { steps.new + word_frames setting.entry won.old
        ≤ steps.old + frames_of (word_frames setting.entry won.old) (length (presses won.old.word.items)) }
    ensures never_falls { steps.old ≤ steps.new }
{
    if press_count(won.word.as_slice()) == 0 {
        return Ok(());
    }
    sweep_until_none(alloc, setting, won, steps)
}
