//! The rows that a step keeps: the first of them, and of each bucket no more than a quota.
ghost use Rattle.std.specs.Prelude.{◌≡◌, ◌+◌, ◌<◌, ◌≤◌, List, length, take, drop, min, get_or, is_ok, if◌then◌else◌};
ghost use Rattle.std.specs.HashMap.{IsEmpty, spare};
ghost use Rattle.nj_search_defs.specs.Order.{in_order};
ghost use Rattle.nj_search_defs.specs.Quota.{kept_with, limited};
ghost use Rattle.nj_rows.specs.declared.Row.{Row};
ghost use Rattle.nj_rows.specs.Order.{is_row_before, is_alike_row};
ghost use Rattle.nj_rows.specs.Keeping.{AreCounted};

use crate::{Row, keep, order};
use std::alloc::{AllocError, Global};
use std::collections::HashMap;

/// Leaves of the rows, taken by [`order`], at most `n`, and of those with one bucket at most `quota`,
/// in order. All memory is taken before a row is moved: after want of memory the rows are as before.
/// None is taken where the quota is no less than `n`.
pub fn keep_quota(
    alloc: Global,
    rows: &mut Vec<Row>,
    n: usize,
    quota: u32,
) -> Result<(), AllocError>
    ensures { rows.new.items
        ≡ (if is_ok result then limited is_alike_row n quota (in_order is_row_before rows.old.items)
        else rows.old.items) }
{
    if n <= quota as usize {
        keep(rows, n);
        return Ok(());
    }
    let mut counts = HashMap::with_capacity(alloc, n.min(rows.len()))?;
    rows.sort_unstable_by(|a, b| order(a, b));
    let kept = gather(rows, &mut counts, n, quota);
    rows.truncate(kept);
    Ok(())
}

// Moves the rows that are kept to the front, and tells how many they are.
fn gather(rows: &mut Vec<Row>, counts: &mut HashMap<[i32; 4], u32>, n: usize, quota: u32) -> usize
    requires uncounted { IsEmpty counts.old }
    requires room { min n (length rows.old.items) ≤ spare counts.old }
    ensures { take result rows.new.items ≡ limited is_alike_row n quota rows.old.items }
{
    let mut kept = 0;
    for place in 0..rows.len() {
        kept = keep_next(rows, counts, place, kept, n, quota);
    }
    kept
}

// Moves the row at a place behind those that are kept, if it may be kept, and tells how many are kept then.
fn keep_next(
    rows: &mut Vec<Row>,
    counts: &mut HashMap<[i32; 4], u32>,
    place: usize,
    kept: usize,
    n: usize,
    quota: u32,
) -> usize
    requires inside { place < length rows.old.items }
    requires below { kept ≤ place }
    requires counted { AreCounted rows.old.items counts.old n kept }
    ensures kept { (default : Row) → take result rows.new.items
        ≡ kept_with is_alike_row n quota (take kept rows.old.items) (get_or rows.old.items place default) }
    ensures rest { drop (place + 1) rows.new.items ≡ drop (place + 1) rows.old.items }
    ensures long { length rows.new.items ≡ length rows.old.items }
    ensures below { result ≤ place + 1 }
    ensures counted { AreCounted rows.new.items counts.new n result }
{
    let row = rows[place];
    let count = counts.get(&row.bucket).copied().unwrap_or(0);
    if kept >= n || count >= quota {
        return kept;
    }
    let _ = counts.insert(row.bucket, count + 1);
    rows[kept] = row;
    kept + 1
}
