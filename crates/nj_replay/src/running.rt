//! The run of a word from power-on, judged at the end of each step.

ghost use Rattle.std.specs.Prelude.{◌≡◌, ◌≤◌, ◌+◌, ◌^◌, ◌++◌, ◌∷◌, [], length, IfOk};
ghost use Rattle.nj_search_defs.specs.Game.{Word};
ghost use Rattle.nj_rules.specs.Limits.{AreRulesInRange};
ghost use Rattle.nj_game.specs.Plan.{Plan, plan_of, held_pads};
ghost use Rattle.nj_game.specs.Words.{held};
ghost use Rattle.nj_replay.specs.Reading.{first_pads};
ghost use Rattle.nj_replay.specs.Replay.{IsAfter};

use crate::Replayed;
use nj_game::{a_word_goes_on, one_more_frame_is_held, the_empty_word_is_the_start};
use nj_machine::{Cart, Machine};
use nj_movie::Movie;
use nj_pad::Pad;
use nj_rules::{Judged, Rules, Status, judge};
use nj_script::Script;
use nj_steps::Steps;
use std::alloc::{AllocError, Global};
use std::sync::ledger::Ledger;

/// The machine and the judgement after a word.
#[derive(Drop)]
pub struct Run {
    machine: Machine,
    judged: Judged,
}

// So many frames with the pad held.
fn hold_pad<L: Ledger>(machine: &mut Machine, hold: u32, pad: Pad, steps: &mut Steps<L>)
    ensures state { machine.new ≡ held hold pad machine.old }
    ensures frames { steps.new ≤ steps.old + hold }
    ensures never_falls { steps.old ≤ steps.new }
{
    one_more_frame_is_held();
    for _frame in 0..hold {
        machine.frame(pad, steps);
    }
}

impl Run {
    /// The machine after the start movie, judged as the empty word.
    pub fn begin<L: Ledger>(
        alloc: Global,
        cart: &Cart,
        script: &Script,
        start: &Movie,
        steps: &mut Steps<L>,
    ) -> Result<Run, AllocError>
        ensures after { IfOk result (λ run. IsAfter (plan_of cart.now script.now start.now) [] run.machine run.judged) }
        ensures frames { steps.new ≤ steps.old + length start.now }
        ensures never_falls { steps.old ≤ steps.new }
    {
        the_empty_word_is_the_start();
        let mut machine = Machine::power_on(alloc, cart)?;
        machine.play(start.pads(), steps);
        let judged = judge(script.rules(), machine.ram(), Status(0), machine.jammed());
        Ok(Run { machine, judged })
    }

    // One more pad of the word.
    fn step<L: Ledger>(&mut self, rules: &Rules, hold: u32, pad: Pad, steps: &mut Steps<L>)
        requires { AreRulesInRange rules.now.rules }
        ensures after { (plan : Plan) (word : Word) → plan.script.rules ≡ rules.now → plan.script.hold ≡ hold
            → IsAfter plan word self.old.machine self.old.judged
            → IsAfter plan (word ++ pad ∷ []) self.new.machine self.new.judged }
        ensures frames { steps.new ≤ steps.old + hold }
        ensures never_falls { steps.old ≤ steps.new }
    {
        a_word_goes_on();
        hold_pad(&mut self.machine, hold, pad, steps);
        self.judged = judge(
            rules,
            self.machine.ram(),
            self.judged.status,
            self.machine.jammed(),
        );
    }

    /// The word of the frames behind the start; the answer is the count of its steps.
    pub fn follow<L: Ledger>(
        &mut self,
        rules: &Rules,
        hold: u32,
        behind: &[Pad],
        steps: &mut Steps<L>,
    ) -> u32
        requires rules { AreRulesInRange rules.now.rules }
        requires hold { 1 ≤ hold }
        requires few { length behind.now ≤ 2 ^ 20 }
        requires whole { behind.now ≡ held_pads hold (first_pads hold behind.now) }
        ensures count { result ≡ length (first_pads hold behind.now) }
        ensures after { (plan : Plan) → plan.script.rules ≡ rules.now → plan.script.hold ≡ hold
            → IsAfter plan [] self.old.machine self.old.judged
            → IsAfter plan (first_pads hold behind.now) self.new.machine self.new.judged }
        ensures frames { steps.new ≤ steps.old + length behind.now }
        ensures never_falls { steps.old ≤ steps.new }
    {
        let mut rest = behind;
        let mut count = 0;
        while !rest.is_empty() {
            let pad = rest[0];
            let (_, after) = rest.split_at(hold as usize);
            self.step(rules, hold, pad, steps);
            rest = after;
            count += 1;
        }
        count
    }

    /// What the run tells at its end.
    pub fn replayed(self, step: u32, frames: u32) -> Replayed
        ensures { result ≡ record {
          step = step;
          frames = frames;
          reward = self.judged.reward;
          verdict = self.judged.verdict;
        } }
    {
        Replayed {
            step,
            frames,
            reward: self.judged.reward,
            verdict: self.judged.verdict,
        }
    }
}
