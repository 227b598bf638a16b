//! What each step on the table tells.
ghost use Rattle.std.specs.Prelude.{ℕ};

use crate::view::View;
use atomic_table::{Join, Play, Split};
use std::marker::{Brand, PhantomData};

// What a step is about, for the proof alone: the slots of the table, the key, its number, the slots that the claim has
// passed, and an owner that the key had at most from the start.
pub(crate) trait Asked {
    ghost slots: { ℕ };

    ghost key: { ℕ };

    ghost number: { ℕ };

    ghost depth: { ℕ };

    ghost most: { ℕ };
}

impl Asked for Brand {
    ghost slots = { 0 };

    ghost key = { 0 };

    ghost number = { 0 };

    ghost depth = { 0 };

    ghost most = { 0 };
}

pub(crate) struct Look<C> {
    asked: PhantomData<C>,
}

impl<C: Asked> Play<u64, View> for Look<C> {
    ghost use Rattle.nj_claims.specs.Steps.{looks};

    ghost then = { looks C.slots C.key C.depth };
}

pub(crate) struct Put<C> {
    asked: PhantomData<C>,
}

impl<C: Asked> Play<u64, View> for Put<C> {
    ghost use Rattle.nj_claims.specs.Steps.{puts};

    ghost then = { puts C.slots C.key C.depth };
}

pub(crate) struct Own<C> {
    asked: PhantomData<C>,
}

impl<C: Asked> Play<u64, View> for Own<C> {
    ghost use Rattle.nj_claims.specs.Steps.{owns};

    ghost then = { owns C.key C.number C.most };
}

pub(crate) struct Lend;

impl Split<View> for Lend {
    ghost use Rattle.nj_claims.specs.Steps.{lent_view, given_view};

    ghost left = { lent_view };

    ghost right = { given_view };
}

pub(crate) struct TakeIn;

impl Join<View> for TakeIn {
    ghost use Rattle.nj_claims.specs.Steps.{joined_view};
    ghost use Rattle.nj_claims.specs.Rule.{spent_view};

    ghost both = { joined_view };

    ghost spent = { spent_view };
}
