use crate::view::View;
use atomic_table::Seat;
use std::marker::Model;

/// What one thread has claimed and seen at a table. It has no bytes.
#[derive(Drop)]
pub struct Pass {
    pub(crate) seat: Seat<u64, View>,
}

impl Model for Pass {
    ghost use Rattle.std.specs.Prelude.{◌≡◌, ◌==◌, true, []};
    ghost use Rattle.nj_claims.specs.declared.view.Flight.TheVariants.{Idle};
    ghost use Rattle.nj_claims.specs.Passes.{PassView};

    ghost Value = { PassView };

    ghost view = { λ p. record {
      table = p.seat.table_id;
      is_root = p.seat.id == 0;
      out = p.seat.me.0.out;
      claims = p.seat.me.0.claims;
      seen = p.seat.me.0.seen;
      full = p.seat.me.0.full;
    } };

    ghost invariant = { λ p. (p.seat.me.0.living ≡ true) × (p.seat.me.0.flight ≡ Idle) × (p.seat.me.1 ≡ []) };
}
