//! `asm SOURCE`: the listing of an assembled source.

ghost use Rattle.std.specs.Prelude.{◌≡◌, None};
ghost use Rattle.nj_commands.specs.Asm.{asm_finding};

use nj_asm::{Assembled, list};
use nj_seq::{Seq, Text};
use nj_steps::Steps;
use nj_tasks::{File, Job, Reply, SourceFormat, Stop, Task, named};
use std::alloc::{AllocError, Global};
use std::sync::ledger::Ledger;

/// What `asm` does.
#[derive(Clone, Copy)]
pub struct Asm;

/// The task of `asm`.
pub fn assembled(source: &Text) -> Task<File<'_, SourceFormat>, Asm>
    ensures source { result.source.name.now ≡ source.now }
{
    Task {
        source: named(SourceFormat, source),
        job: Asm,
    }
}

impl Job<Assembled> for Asm {
    type Found = Seq<u8>;

    ghost finding = { λ _. asm_finding };

    #[tactic(auto, unfolding(crate::specs::Asm::asm_finding))]
    fn find<L: Ledger>(
        &self,
        alloc: Global,
        said: Assembled,
        _steps: &mut Steps<L>,
    ) -> Result<Seq<u8>, Stop> {
        let text = list(alloc, said.bytes.as_slice(), said.origin)?;
        Ok(Seq::from_vec(text))
    }

    #[tactic(auto, unfolding(crate::specs::Asm::asm_finding))]
    fn reply(&self, _alloc: Global, found: Seq<u8>) -> Result<Reply, AllocError> {
        Ok(Reply::of(0, found))
    }
}
