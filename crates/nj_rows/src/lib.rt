//! The rows of a step: what the search keeps of each candidate, the order of rows, the most preferred
//! of them, with no more of one bucket than a quota, and the winner. Only [`keep_quota`] takes memory.
//!
//! The definitions to read first are `row_order` in `specs/Order.antt`, and `limited` of nj_search_defs,
//! which says what is kept under a quota.
#![tactic(auto)]

mod keeping;

ghost use Rattle.std.specs.Prelude.{◌≡◌, ◌≢◌, ◌↔◌, false, List, All, take, filter, slice_get, None};
ghost use Rattle.std.specs.List.Sorted.{IsPermutation};
ghost use Rattle.nj_search_defs.specs.Order.{in_order, is_preferred};
ghost use Rattle.nj_rows.specs.declared.Row.{Row};
ghost use Rattle.nj_rows.specs.Order.{is_win_row, place_of, preference, remainder, row_order, is_row_before};
ghost use Rattle.nj_rows.specs.Best.{first, better};

pub use keeping::keep_quota;
use std::cmp::Ordering;

/// How a candidate is judged: it goes on, it wins or it fails.
#[derive(Clone, Copy, Debug, PartialEq, Eq)]
pub enum Verdict3 {
    Go,
    Win,
    Fail,
}

/// What the search keeps of a candidate.
#[derive(Clone, Copy, Debug, PartialEq, Eq)]
pub struct Row {
    /// 256 times the place of its parent in the front, and the place of its pad among those allowed there.
    pub number: u64,
    /// The key by which repeated states are dropped.
    pub key: u64,
    pub reward: i64,
    /// The number of checkpoints that it has met.
    pub level: u32,
    pub verdict: Verdict3,
    /// The byte of its last pad.
    pub pad: u8,
    /// The values of the script's bucket properties in its state, in their order; unused places are 0.
    pub bucket: [i32; 4],
}

/// The order of rows: greater reward first, then smaller number, then the other fields.
#[tactic(auto, unfolding(crate::specs::Order::row_order))]
pub fn order(a: &Row, b: &Row) -> Ordering
    ensures { result ≡ row_order a.now b.now }
{
    preference_of(a, b).then(remainder_of(a, b))
}

// The order by reward and number.
#[tactic(auto, unfolding(crate::specs::Order::preference))]
fn preference_of(a: &Row, b: &Row) -> Ordering
    ensures { result ≡ preference a.now b.now }
{
    b.reward.cmp(&a.reward).then(a.number.cmp(&b.number))
}

// The order by the other fields.
#[tactic(auto, unfolding(crate::specs::Order::remainder))]
fn remainder_of(a: &Row, b: &Row) -> Ordering
    ensures { result ≡ remainder a.now b.now }
{
    let by_key = a.key.cmp(&b.key).then(a.level.cmp(&b.level));
    let by_verdict = place(a.verdict).cmp(&place(b.verdict));
    let by_pad = by_verdict.then(a.pad.cmp(&b.pad));
    by_key.then(by_pad.then(a.bucket.cmp(&b.bucket)))
}

// The place of a verdict in the order.
fn place(verdict: Verdict3) -> u8
    ensures { result ≡ place_of verdict }
{
    match verdict {
        Verdict3::Go => 0,
        Verdict3::Win => 1,
        Verdict3::Fail => 2,
    }
}

/// Leaves the first `n` rows by [`order`], in order.
pub fn keep(rows: &mut Vec<Row>, n: usize)
    ensures { rows.new.items ≡ take n (in_order is_row_before rows.old.items) }
{
    rows.sort_unstable_by(|a, b| order(a, b));
    rows.truncate(n);
}

/// The first Win row by [`order`].
pub fn winner(rows: &[Row]) -> Option<Row>
    ensures first { result ≡ slice_get (in_order is_row_before (filter is_win_row rows.now)) 0 }
    ensures none { (result ≡ None) ↔ All (λ row. is_win_row row ≡ false) rows.now }
{
    let mut best = None;
    let mut left = rows.len();
    while left > 0 {
        left -= 1;
        best = better_of(rows[left], best);
    }
    best
}

// The row, if it wins and stands before the best of the others.
fn better_of(row: Row, best: Option<Row>) -> Option<Row>
    ensures { result ≡ better row best }
{
    match row.verdict {
        Verdict3::Go | Verdict3::Fail => best,
        Verdict3::Win => Some(first_of(row, best)),
    }
}

// The row, or the best of the others where that one is not after it.
fn first_of(row: Row, best: Option<Row>) -> Row
    ensures { result ≡ first row best }
{
    match best {
        None => row,
        Some(other) => if order(&row, &other).is_lt() {
            row
        } else {
            other
        },
    }
}

/// The rows of a list in order are the same whatever order they come in.
pub fn any_order_is_one()
    ensures { (xs ys : List Row) → IsPermutation xs ys → in_order is_row_before xs ≡ in_order is_row_before ys }
{}

/// Rows of different numbers stand in the order in which their candidates are preferred.
pub fn order_is_preference()
    ensures { (a b : Row) → a.number ≢ b.number
        → is_row_before a b ≡ is_preferred a.reward a.number b.reward b.number }
{}

#[cfg(test)]
mod tests {
    use super::*;
    use std::test::Fail;

    // A row of this number, reward and verdict.
    fn row(number: u64, reward: i64, verdict: Verdict3) -> Row {
        Row {
            number,
            key: 7,
            reward,
            level: 0,
            verdict,
            pad: 1,
            bucket: [0; 4],
        }
    }

    #[test]
    fn equal_rewards_are_kept_by_number(rt: HostRuntime) -> Result<(), Fail> {
        let first = row(3, 50, Verdict3::Win);
        let second = row(9, 50, Verdict3::Go);
        let third = row(1, -2, Verdict3::Win);
        let mut rows = vec![in rt.alloc(); second, third, first]?;
        assert_eq!(rt; winner(rows.as_slice()), Some(first));
        keep(&mut rows, 2);
        assert_eq!(rt; rows.as_slice(), [first, second].as_slice());
        assert_eq!(rt; winner(&rows[1..]), None);
        assert!(rt; order(&second, &third).is_lt());
        Ok(())
    }

    // A row of this number, reward and bucket.
    fn placed(number: u64, reward: i64, value: i32) -> Row {
        let mut row = row(number, reward, Verdict3::Go);
        row.bucket[0] = value;
        row
    }

    #[test]
    fn a_full_bucket_keeps_no_more(rt: HostRuntime) -> Result<(), Fail> {
        let first = placed(0, 9, 5);
        let second = placed(1, 8, 5);
        let third = placed(2, 7, -5);
        let mut rows = vec![in rt.alloc(); third, second, first]?;
        keep_quota(rt.alloc(), &mut rows, 2, 1)?;
        assert_eq!(rt; rows.as_slice(), [first, third].as_slice());
        Ok(())
    }
}
