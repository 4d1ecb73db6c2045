ghost use Rattle.std.specs.Prelude.{◌≡◌, IfOk, map, true};
ghost use Rattle.std.specs.List.{list_all};
ghost use Rattle.lq_base.specs.Name.{is_name};
ghost use Rattle.lq_tree.specs.Look.{Reads};
ghost use Rattle.lq_tree.specs.Given.{part_name, part_names};

use crate::blanks::{comma_parts, without_blanks};
use crate::found::bad;
use crate::given::Given;
use crate::node::Node;
use lq_base::{Items, KindFault, Name, NameFault, Text};
use std::alloc::Global;

fn part_name(alloc: Global, part: &str) -> Result<Name, KindFault>
    ensures read { Reads (part_name part.now) result }
    ensures fits { IfOk result (λ name. is_name name ≡ true) }
{
    match Name::new(alloc, without_blanks(part)) {
        Ok(name) => Ok(name),
        Err(NameFault::BadName) => Err(bad(alloc)),
        Err(NameFault::OutOfMemory) => Err(KindFault::OutOfMemory),
    }
}

fn part_names(alloc: Global, parts: &[&str]) -> Result<Items<Name>, KindFault>
    ensures read { Reads (part_names (map (λ part. part.now) parts.now)) result }
    ensures fits { IfOk result (λ names. list_all is_name names ≡ true) }
{
    let mut names = Items::new(alloc);
    for part in parts {
        let name = part_name(alloc, part)?;
        names.push(name)?;
    }
    Ok(names)
}

/// A scalar that is printed as names with commas between, blanks around each dropped. There is one
/// name at least.
impl Given for Items<Name> {
    ghost use Rattle.lq_base.specs.Name.{is_name};
    ghost use Rattle.lq_tree.specs.Items.{are_some};
    ghost use Rattle.lq_tree.specs.Given.{some_names};

    ghost of = { some_names };

    ghost fits = { are_some is_name };

    fn given(alloc: Global, node: &Node) -> Result<Items<Name>, KindFault> {
        let text = Text::given(alloc, node)?;
        let parts = comma_parts(alloc, text.as_str())?;
        part_names(alloc, parts.as_slice())
    }
}
