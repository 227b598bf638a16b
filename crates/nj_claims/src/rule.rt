use crate::view::{Opening, View};
use atomic_table::TableRule;

/// The rule between the threads.
pub struct ClaimRule;

impl TableRule<u64, View, Opening> for ClaimRule {
    ghost use Rattle.nj_claims.specs.Rule.{Holds, first_view};

    ghost holds = { Holds };

    ghost first = { λ _. first_view };
}
