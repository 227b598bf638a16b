ghost use Rattle.std.specs.Prelude.{◌≡◌, ◌∷◌, [], map, codes};
ghost use Rattle.serde_json.specs.View.{view};
ghost use Rattle.nj_fields.specs.Reading.{Gives};
ghost use Rattle.nj_script.specs.Kinds.{pad_in, pads_in, set_in};

use nj_fields::{
    Member, Named, ScriptRefused, conditions_in, list, open, pad_named, read_each, text_in, truth,
};
use nj_pad::Pad;
use nj_rules::InputSet;
use nj_seq::Seq;
use serde_json::Value;
use std::alloc::Global;

/// The members of `pads`.
#[derive(Clone, Copy)]
pub struct PadMember;

impl Member for PadMember {
    type Made = Pad;

    ghost reading = { λ _ _ d. pad_in d };

    #[tactic(auto, unfolding(crate::specs::Kinds::pad_in))]
    fn read(&self, alloc: Global, _before: &[Pad], value: &Value) -> Result<Pad, ScriptRefused> {
        let name = text_in(alloc, value, "pads")?;
        pad_named(alloc, name)
    }
}

#[tactic(auto, unfolding(crate::specs::Kinds::pads_in))]
fn pads_in(alloc: Global, object: &Value) -> Result<Seq<Pad>, ScriptRefused>
    ensures { Gives (pads_in (view object.now)) result }
{
    let items = list(alloc, object, "pads", 256)?;
    let pads = read_each(alloc, items, &PadMember)?;
    Ok(Seq::from_vec(pads))
}

fn set_keys() -> &'static [&'static str]
    ensures { map (λ s. s.now) result.now ≡ codes "when" ∷ codes "pads" ∷ codes "stop" ∷ [] }
{
    &["when", "pads", "stop"]
}

/// The members of `inputs`.
#[derive(Clone, Copy)]
pub struct SetMember<'a> {
    pub properties: &'a [Named],
}

impl Member for SetMember<'_> {
    type Made = InputSet;

    ghost reading = { λ m _ d. set_in m.properties.now d };

    #[tactic(auto, unfolding(crate::specs::Kinds::set_in))]
    fn read(
        &self,
        alloc: Global,
        _before: &[InputSet],
        value: &Value,
    ) -> Result<InputSet, ScriptRefused> {
        open(alloc, value, "inputs", set_keys())?;
        let when = conditions_in(alloc, value, self.properties)?;
        let pads = pads_in(alloc, value)?;
        let stop = truth(alloc, value, "stop")?;
        Ok(InputSet { when, pads, stop })
    }
}
