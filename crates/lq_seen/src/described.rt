ghost use Rattle.std.specs.List.{flat_map};
ghost use Rattle.std.specs.Prelude.{◌≡◌, ◌++◌, IfOk, OnOk, codes};
ghost use Rattle.lq_seen.specs.View.{described, tag_by, tag_of, type_name};

use crate::change_type::type_name;
use lq_base::{NoMemory, Text};
use lq_kinds::AnyChange;
use std::alloc::Global;

/// The names of the changes' types, with commas between.
pub fn described(alloc: Global, changes: &[AnyChange]) -> Result<Text, NoMemory>
    ensures { IfOk result (λ text. text ≡ described changes.now) }
{
    let [first, others @ ..] = changes else {
        return Text::new(alloc, "");
    };
    let mut text = Text::new(alloc, type_name(first))?;
    push_names(&mut text, others)?;
    Ok(text)
}

fn push_names(to: &mut Text, changes: &[AnyChange]) -> Result<(), NoMemory>
    ensures { OnOk result
        (to.new ≡ to.old ++ flat_map (λ x. codes ", " ++ type_name x) changes.now) }
{
    let mut rest = changes;
    while let [change, after @ ..] = rest {
        to.push_all(&[", ", type_name(change)])?;
        rest = after;
    }
    Ok(())
}

/// The tag that the changes set.
pub fn tag_of(alloc: Global, changes: &[AnyChange]) -> Result<Option<Text>, NoMemory>
    ensures { IfOk result (λ tag. tag ≡ tag_of changes.now) }
{
    let mut rest = changes;
    while let [change, after @ ..] = rest {
        if let AnyChange::TagDatabase(tagging) = change {
            return Ok(Some(tagging.tag.copy(alloc)?));
        }
        rest = after;
    }
    Ok(None)
}
