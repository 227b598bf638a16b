//! The fresh rows of a step whose keys were claimed in a table beside the seen keys'.
ghost use Rattle.std.specs.Prelude.{◌≡◌, filter, IfOk};
ghost use Rattle.nj_claims.specs.Tables.{IsTable};
ghost use Rattle.nj_seen.specs.Held.{is_owned_unseen};

use crate::adding::{has_since, push_if};
use crate::publishing::fresh;
use nj_rows::Row;
use std::alloc::{AllocError, Global};

/// The rows, as they stand, that own their key in the closed table of a step's claims, and whose key no generation
/// from the step `from` on has.
pub fn owned_unseen(
    alloc: Global,
    rows: &[Row],
    claims: &[u64],
    words: &[u64],
    from: u64,
) -> Result<Vec<Row>, AllocError>
    requires claims { IsTable claims.now }
    requires table { IsTable words.now }
    ensures { IfOk result (λ kept. kept.items ≡ filter (is_owned_unseen claims.now words.now from) rows.now) }
{
    let mut kept = Vec::new(alloc);
    for row in rows {
        let is_new = is_new(claims, row, words, from);
        push_if(&mut kept, *row, is_new)?;
    }
    Ok(kept)
}

// Whether the row owns its key among the claims, and no generation from a step on has it.
fn is_new(claims: &[u64], row: &Row, words: &[u64], from: u64) -> bool
    requires claims { IsTable claims.now }
    requires table { IsTable words.now }
    ensures { result ≡ is_owned_unseen claims.now words.now from row.now }
{
    fresh(claims, row) && !has_since(words, row.key, from)
}
