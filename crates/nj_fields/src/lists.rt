ghost use Rattle.std.specs.Prelude.{◌≡◌, List, [], length, IfOk};
ghost use Rattle.serde_json.specs.Data.{Data};
ghost use Rattle.serde_json.specs.View.{view, items_view};
ghost use Rattle.nj_fields.specs.Reading.{Reading, Gives, GivesAs};
ghost use Rattle.nj_fields.specs.Lists.{each};

use crate::refusal::ScriptRefused;
use serde_json::Value;
use std::alloc::Global;

/// A kind of value that stands in a list.
pub trait Member {
    /// What a value of this kind is read as.
    type Made: Drop;

    /// What is read of a value, where `List Self.Made` was made of the members before it.
    ghost reading: { Self → List Self.Made → Data → Reading Self.Made };

    fn read(
        &self,
        alloc: Global,
        before: &[Self::Made],
        value: &Value,
    ) -> Result<Self::Made, ScriptRefused>
        ensures { Gives (reading self.now before.now (view value.now)) result };
}

/// The members of a list, in order.
pub fn read_each<M: Member>(
    alloc: Global,
    items: &[Value],
    member: &M,
) -> Result<Vec<M::Made>, ScriptRefused>
    ensures value { GivesAs (λ v. v.items) (each (M.reading member.now) [] (items_view items.now)) result }
    ensures count { IfOk result (λ v. length v.items ≡ length items.now) }
{
    let mut made = Vec::new(alloc);
    for item in items {
        let next = member.read(alloc, made.as_slice(), item)?;
        made.push(next)?;
    }
    Ok(made)
}
