ghost use Rattle.std.specs.Prelude.{◌≡◌};

use crate::gathered::Gathered;
use crate::item::{reaction_in, set_in};
use lq_base::{Dialect, Items, KindFault};
use lq_contents::tree_of;
use lq_kinds::here_at;
use lq_model::SqlText;
use lq_paths::Format;
use lq_sources::{Gather, Lack, What};
use lq_tree::{Node, unknown};
use std::alloc::Global;

/// What reads changesets and preconditions of a dialect.
#[derive(Drop)]
pub struct Reader<'a, P: SqlText> {
    pub dialect: Dialect,
    pub sql: &'a P,
    ghost same: { P.dialect ≡ dialect },
}

impl<'a, P: SqlText> Gather for Reader<'a, P> {
    ghost use Rattle.lq_changelog.specs.Gathers.{meaning};

    type Gathered = Gathered<P>;

    ghost means = { λ reader. meaning reader.dialect };

    fn read_tree(&self, alloc: Global, format: Format, bytes: &[u8]) -> Result<Node, What> {
        tree_of(alloc, format, bytes)
    }

    fn is_here(&self, alloc: Global, node: &Node) -> Result<bool, KindFault> {
        here_at(alloc, node, self.dialect)
    }

    fn gather(
        &self,
        alloc: Global,
        given: &[Items<u8>],
        is_root: bool,
        path: &str,
        key: &str,
        node: &Node,
        gathered: &mut Gathered<P>,
    ) -> Result<(), Lack> {
        match key {
            "changeSet" => {
                let set = set_in(alloc, given, path, node, self.dialect, self.sql)?;
                Ok(gathered.add_set(set)?)
            }
            "preConditions" => {
                let reaction = reaction_in(alloc, node, self.dialect, self.sql)?;
                Ok(gathered.add_reaction(is_root, reaction)?)
            }
            _ => Err(Lack::Wrong(What::Key(unknown(alloc, key)))),
        }
    }
}
