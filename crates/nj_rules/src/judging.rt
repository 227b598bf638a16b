ghost use Rattle.std.specs.Prelude.{◌≡◌, ℕ, ◌+◌, ◌*◌, ◌^◌, ◌<◌, ◌≤◌, ◌==◌, ◌||◌, ◌&&◌, length, map, All, pos, unsigned_abs, if◌then◌else◌};
ghost use Rattle.std.specs.List.{list_any};
ghost use Rattle.nj_property.specs.Condition.{all_hold_in, IsPlacedCondition};
ghost use Rattle.nj_rules.specs.Rules.{is_in, satisfied_rules, status_after, worth_of, gain_of, verdict_of, reward_of, level_of, judged_of};
ghost use Rattle.nj_rules.specs.Limits.{AreRulesInRange, IsRuleInRange, IsWeightInRange};

use crate::record::{Judged, Rule, Rules, Status, Verdict, Weight};
use nj_property::all_hold;

/// How the rules judge a state whose working memory is `ram`, where `old` is the status of the state
/// one step before (of the start, that of no rule) and `jammed` says whether the machine is jammed.
#[tactic(auto, unfolding(crate::specs::Rules::judged_of, crate::specs::Rules::verdict_of))]
pub fn judge(rules: &Rules, ram: &[u8], old: Status, jammed: bool) -> Judged
    requires ram { length ram.now ≡ 2048 }
    requires rules { AreRulesInRange rules.now.rules }
    ensures { result ≡ judged_of rules.now.rules ram.now old.0 jammed }
{
    let rules = rules.rules.as_slice();
    let status = status_of(rules, ram, old.0);
    let tally = tally_of(rules, status);
    Judged {
        status: Status(status),
        verdict: verdict_from(tally, jammed),
        reward: reward(rules, ram, status),
        level: tally.level,
    }
}

// ---- the status

// Whether the number is in the set.
#[tactic(auto, unfolding(crate::specs::Rules::is_in))]
fn contains(set: u128, number: usize) -> bool
    requires { number < 128 }
    ensures { result ≡ is_in set number }
{
    set >> number & 1 == 1
}

fn with_number(set: u128, number: usize) -> u128
    requires { number < 128 }
    ensures { (j : ℕ) → is_in result j ≡ (is_in set j || (number == j)) }
{
    set | 1 << number
}

fn with_numbers(set: u128, numbers: &[u32]) -> u128
    requires { All (λ n. n < 128) numbers.now }
    ensures { (j : ℕ) → is_in result j ≡ (is_in set j || list_any (λ n. n == j) numbers.now) }
{
    let mut set = set;
    for number in numbers {
        set = with_number(set, *number as usize);
    }
    set
}

// The set with the rule's number and those that it names, where its conditions hold.
fn with_rule(set: u128, number: usize, rule: &Rule, ram: &[u8]) -> u128
    requires ram { length ram.now ≡ 2048 }
    requires number { number < 128 }
    requires placed { All IsPlacedCondition rule.now.when }
    requires also { All (λ n. n < 128) rule.now.also }
    ensures { (j : ℕ) → is_in result j
        ≡ (is_in set j || (all_hold_in ram.now rule.now.when
        && ((number == j) || list_any (λ n. n == j) rule.now.also))) }
{
    if all_hold(rule.when.as_slice(), ram) {
        with_numbers(with_number(set, number), rule.also.as_slice())
    } else {
        set
    }
}

fn status_of(rules: &[Rule], ram: &[u8], old: u128) -> u128
    requires ram { length ram.now ≡ 2048 }
    requires rules { AreRulesInRange rules.now }
    ensures { result ≡ status_after rules.now ram.now old }
{
    let mut status = old;
    for (number, rule) in rules.iter().enumerate() {
        status = with_rule(status, number, rule, ram);
    }
    status
}

// ---- what the satisfied rules come to

// What the satisfied rules say beside their rewards.
#[derive(Clone, Copy)]
struct Tally {
    fails: bool,
    wins: bool,
    level: u32,
}

#[tactic(auto, unfolding(crate::specs::Rules::satisfied_rules, crate::specs::Rules::level_of), using(crate::proofs::Members::members))]
fn tally_of(rules: &[Rule], status: u128) -> Tally
    requires { length rules.now ≤ 128 }
    ensures fails { result.fails ≡ list_any (λ rule. rule.fail) (satisfied_rules rules.now status) }
    ensures wins { result.wins ≡ list_any (λ rule. rule.win) (satisfied_rules rules.now status) }
    ensures level { result.level ≡ level_of rules.now status }
{
    let mut fails = false;
    let mut wins = false;
    let mut level = 0;
    for (number, rule) in rules.iter().enumerate() {
        let satisfied = contains(status, number);
        fails |= satisfied & rule.fail;
        wins |= satisfied & rule.win;
        level += u32::from(satisfied & rule.checkpoint);
    }
    Tally { fails, wins, level }
}

fn verdict_from(tally: Tally, jammed: bool) -> Verdict
    ensures { result
        ≡ (if jammed || tally.fails then Verdict.Fail else if tally.wins then Verdict.Win else Verdict.Go) }
{
    if jammed || tally.fails {
        Verdict::Fail
    } else if tally.wins {
        Verdict::Win
    } else {
        Verdict::Go
    }
}

#[tactic(auto, unfolding(crate::specs::Rules::reward_of, crate::specs::Rules::satisfied_rules), using(crate::proofs::Members::members, crate::proofs::Sums::bounds))]
fn reward(rules: &[Rule], ram: &[u8], status: u128) -> i64
    requires ram { length ram.now ≡ 2048 }
    requires rules { AreRulesInRange rules.now }
    ensures { result ≡ reward_of rules.now ram.now status }
{
    let mut sum = 0;
    for (number, rule) in rules.iter().enumerate() {
        sum += gain_if(contains(status, number), rule, ram);
    }
    sum
}

fn gain_if(satisfied: bool, rule: &Rule, ram: &[u8]) -> i64
    requires ram { length ram.now ≡ 2048 }
    requires reward { unsigned_abs rule.now.reward ≤ 2 ^ 30 }
    requires few { length rule.now.weights ≤ 4 }
    requires weights { All IsWeightInRange rule.now.weights }
    ensures value { result ≡ (if satisfied then gain_of ram.now rule.now else pos 0) }
    ensures bound { unsigned_abs result ≤ 2 ^ 39 }
{
    if satisfied { gain(rule, ram) } else { 0 }
}

#[tactic(auto, unfolding(crate::specs::Rules::gain_of))]
fn gain(rule: &Rule, ram: &[u8]) -> i64
    requires ram { length ram.now ≡ 2048 }
    requires reward { unsigned_abs rule.now.reward ≤ 2 ^ 30 }
    requires few { length rule.now.weights ≤ 4 }
    requires weights { All IsWeightInRange rule.now.weights }
    ensures value { result ≡ gain_of ram.now rule.now }
    ensures bound { unsigned_abs result ≤ 2 ^ 39 }
{
    let mut sum = rule.reward;
    for weight in rule.weights.as_slice() {
        sum += worth(weight, ram);
    }
    sum
}

fn worth(weight: &Weight, ram: &[u8]) -> i64
    requires ram { length ram.now ≡ 2048 }
    requires weight { IsWeightInRange weight.now }
    ensures value { result ≡ worth_of ram.now weight.now }
    ensures bound { unsigned_abs result ≤ 2 ^ 36 }
{
    weight.weight * i64::from(weight.property.value(ram))
}
