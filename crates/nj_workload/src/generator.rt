ghost use Rattle.std.specs.Prelude.{◌≡◌, IfOk};
ghost use Rattle.nj_workload.specs.Generator.{next_state, byte_of, bytes_from};

use std::alloc::{AllocError, Global};

const MULTIPLIER: u64 = 6_364_136_223_846_793_005;

const INCREMENT: u64 = 1_442_695_040_888_963_407;

// The bytes that a workload takes: two tables of 256 and the two values of the goal.
const DRAWN: usize = 514;

#[tactic(auto, unfolding(crate::specs::Generator::next_state))]
fn following(state: u64) -> u64
    ensures { result ≡ next_state state }
{
    state.wrapping_mul(MULTIPLIER).wrapping_add(INCREMENT)
}

fn top_byte(state: u64) -> u8
    ensures { result ≡ byte_of state }
{
    (state >> 56) as u8
}

/// The first bytes of a number: those of two tables, and the two values of the goal.
#[tactic(auto, using(crate::proofs::Bytes::state_first, crate::proofs::Bytes::state_more, crate::proofs::Bytes::bytes_none, crate::proofs::Bytes::bytes_more))]
pub fn drawn(alloc: Global, number: u64) -> Result<Vec<u8>, AllocError>
    ensures { IfOk result (λ bytes. bytes.items ≡ bytes_from number 0 514) }
{
    let mut state = number;
    let mut bytes = Vec::new(alloc);
    for _place in 0..DRAWN {
        state = following(state);
        bytes.push(top_byte(state))?;
    }
    Ok(bytes)
}
