//! `check CART SCRIPT`: what a cartridge and a script count.

ghost use Rattle.std.specs.Prelude.{◌≡◌, None};
ghost use Rattle.nj_app.specs.Check.{check_finding, chr_units, counts_of};

use nj_ines::Cart;
use nj_script::Script;
use nj_search::cost;
use nj_seq::{Seq, Text};
use nj_steps::Steps;
use nj_tasks::{CartFormat, File, Job, Reply, ScriptFormat, Stop, Task, bytes_of, named};
use nj_texts::{Counts, check_line};
use std::alloc::{AllocError, Global};
use std::sync::ledger::Ledger;

/// What `check` does.
#[derive(Clone, Copy)]
pub struct Check;

/// The task of `check`.
pub fn checked<'a>(
    cart: &'a Text,
    script: &'a Text,
) -> Task<(File<'a, CartFormat>, File<'a, ScriptFormat>), Check>
    ensures cart { result.source.0.name.now ≡ cart.now }
    ensures script { result.source.1.name.now ≡ script.now }
{
    Task {
        source: (named(CartFormat, cart), named(ScriptFormat, script)),
        job: Check,
    }
}

impl Job<(Cart, Script)> for Check {
    type Found = Seq<u8>;

    ghost finding = { λ _. check_finding };

    #[tactic(auto, unfolding(crate::specs::Check::check_finding))]
    fn find<L: Ledger>(
        &self,
        alloc: Global,
        said: (Cart, Script),
        _steps: &mut Steps<L>,
    ) -> Result<Seq<u8>, Stop> {
        let (cart, script) = said;
        let line = check_line(alloc, counts_of(&cart, &script))?;
        Ok(bytes_of(line))
    }

    #[tactic(auto, unfolding(crate::specs::Check::check_finding))]
    fn reply(&self, _alloc: Global, found: Seq<u8>) -> Result<Reply, AllocError> {
        Ok(Reply::of(0, found))
    }
}

#[tactic(auto, unfolding(crate::specs::Check::counts_of))]
fn counts_of(cart: &Cart, script: &Script) -> Counts
    ensures { result ≡ counts_of cart.now script.now }
{
    Counts {
        prg: cart.prg().len() / 16_384,
        chr: chr_units(cart),
        vertical: cart.vertical(),
        properties: script.property_count(),
        rules: script.rule_count(),
        inputs: script.input_count(),
        cost: cost(cart),
    }
}

fn chr_units(cart: &Cart) -> usize
    ensures { result ≡ chr_units cart.now }
{
    if cart.chr_ram() {
        0
    } else {
        cart.chr().len() / 8_192
    }
}
