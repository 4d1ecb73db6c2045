ghost use Rattle.std.specs.Prelude.{◌≡◌, IfOk, map};

use lq_base::{Duplicate, Items, KindFault, Name, NoMemory};
use lq_model::{Canon, Field, Fields, Written};
use lq_tree::{Given, Node, known, required};
use std::alloc::Global;

/// A column of an index.
#[derive(Drop)]
pub struct IndexColumn {
    pub name: Name,
}

const KEYS: [&str; 2] = ["name", "remarks"];

impl Given for IndexColumn {
    ghost use Rattle.lq_keys.specs.OnDelete.{index_column, is_column};

    ghost of = { index_column };

    ghost fits = { is_column };

    #[tactic(auto, unfolding(crate::specs::OnDelete::index_column))]
    fn given(alloc: Global, node: &Node) -> Result<IndexColumn, KindFault> {
        known(alloc, node, &KEYS)?;
        let name = required(alloc, node, "name")?;
        Ok(IndexColumn { name })
    }
}

impl Written for IndexColumn {
    ghost use Rattle.lq_keys.specs.OnDelete.{rows};

    ghost rows = { rows };

    fn write(&self, to: &mut Canon) -> Result<(), NoMemory> {
        Fields(&[("name", Some(Field::Text(self.name.as_key())))]).write(to)
    }
}

/// The names of the columns in order.
pub(crate) fn names_of(alloc: Global, columns: &[IndexColumn]) -> Result<Items<Name>, NoMemory>
    ensures { IfOk result (λ names. names ≡ map (λ column. column.name) columns.now) }
{
    let mut names = Items::new(alloc);
    for column in columns {
        names.push(column.name.duplicate(alloc)?)?;
    }
    Ok(names)
}
