//! The claims of rows.

ghost use Rattle.std.specs.Prelude.{true, ◌≡◌, ◌≢◌, ◌<◌, ◌≤◌, ◌+◌, ◌^◌, ◌∷◌, [], All, length, vec_len, vec_capacity};
ghost use Rattle.nj_hands.specs.Claimed.{AddsClaimed, IsBeaten};

use nj_claims::{ClaimTable, Claimed, Pass};
use nj_expand::{Row, Verdict3};
use nj_seen::FIRST_CLAIM;

// Claims the keys of rows, and adds the rows but those that met a smaller number and do not win.
pub(crate) fn claim_rows(table: &ClaimTable, pass: &mut Pass, found: &[Row], rows: &mut Vec<Row>)
    requires own { pass.old.table ≡ table.now.id }
    requires keys { All (λ row. row.key ≢ 0) found.now }
    requires numbers { All (λ row. row.number < 2 ^ 32) found.now }
    requires room { vec_len rows.old + length found.now ≤ vec_capacity rows.old }
    ensures claimed { AddsClaimed found.now pass.old pass.new rows.old.items rows.new.items }
    ensures few { vec_len rows.new ≤ vec_len rows.old + length found.now }
    ensures capacity { vec_capacity rows.new ≡ vec_capacity rows.old }
{
    for row in found {
        claim_row(table, pass, *row, rows);
    }
}

// Claims the row's key, and adds the row, unless it met a smaller number and does not win.
fn claim_row(table: &ClaimTable, pass: &mut Pass, row: Row, rows: &mut Vec<Row>)
    requires own { pass.old.table ≡ table.now.id }
    requires key { row.key ≢ 0 }
    requires number { row.number < 2 ^ 32 }
    requires room { vec_len rows.old < vec_capacity rows.old }
    ensures claimed { AddsClaimed (row ∷ []) pass.old pass.new rows.old.items rows.new.items }
    ensures few { vec_len rows.new ≤ vec_len rows.old + 1 }
    ensures capacity { vec_capacity rows.new ≡ vec_capacity rows.old }
{
    let claimed = table.claim(pass, row.key, FIRST_CLAIM + row.number);
    if !is_beaten(claimed, row.verdict) {
        rows.push_reserved(row);
    }
}

// Whether a row of this verdict that was answered so is of no use any more.
fn is_beaten(claimed: Claimed, verdict: Verdict3) -> bool
    ensures { result ≡ true → IsBeaten claimed verdict }
{
    match (claimed, verdict) {
        (Claimed::Before(_), Verdict3::Go | Verdict3::Fail) => true,
        (Claimed::Before(_), Verdict3::Win) | (Claimed::Least | Claimed::Full, _) => false,
    }
}
