use crate::rule::ClaimRule;
use crate::view::{Opening, View};
use atomic_table::Table;
use std::alloc::Global;
use std::marker::Model;

/// A table of claimed keys that threads share.
#[derive(Drop)]
pub struct ClaimTable {
    pub(crate) table: Table<u64, View, Opening, ClaimRule, Global>,
    pub(crate) opening: Opening,
}

impl Model for ClaimTable {
    ghost use Rattle.std.specs.Prelude.{◌≡◌, length};
    ghost use Rattle.nj_claims.specs.Tables.{IsTable, slot_count};
    ghost use Rattle.nj_claims.specs.Passes.{TableView};

    ghost Value = { TableView };

    ghost view = { λ t. record { id = t.table.shared.table_id; opening = t.opening.words.items } };

    ghost invariant = { λ t. (t.table.shared.key ≡ t.opening) × (t.table.shared.table_id.words ≡ length t.opening.words.items)
        × (t.table.shared.table_id.slots ≡ 0) × (t.opening.slots ≡ slot_count t.opening.words.items)
        × IsTable t.opening.words.items };
}
