ghost use Rattle.std.specs.Prelude.{◌≡◌, IfOk, true};
ghost use Rattle.lq_tree.specs.Look.{Reads};
ghost use Rattle.lq_views.specs.DropView.{drop_view, is_for};

use lq_base::{Dialect, Duplicate, Items, KindFault, Name, NoMemory};
use lq_model::{Canon, Change, Field, Look, SqlText, Statement, Undo, write_change};
use lq_tree::{Node, known, public, required};
use std::alloc::Global;

/// A view is dropped (Liquibase's documentation, "dropView").
#[derive(Drop)]
pub struct DropView {
    pub view_name: Name,
}

const KEYS: [&str; 4] = ["viewName", "schemaName", "catalogName", "remarks"];

impl DropView {
    /// What a node states, or the first fault in the order of the keys.
    #[tactic(auto, unfolding(crate::specs::DropView::drop_view))]
    pub fn read<P: SqlText>(
        alloc: Global,
        node: &Node,
        dialect: Dialect,
        _sql: &P,
    ) -> Result<DropView, KindFault>
        ensures read { Reads (drop_view node.now) result }
        ensures right { IfOk result (λ x. is_for dialect x ≡ true) }
    {
        known(alloc, node, &KEYS)?;
        let view_name = required(alloc, node, "viewName")?;
        public(alloc, node)?;
        Ok(DropView { view_name })
    }
}

impl Change for DropView {
    ghost use Rattle.lq_views.specs.DropView.{canonical_of, effect, gives, inverse, is_for, is_fresh, does, restores, returned, spelled, told};
    ghost use Rattle.lq_views.specs.declared.drop_view.DropView.{DropView};

    ghost Key = { DropView };

    ghost key = { λ change. change };

    ghost is_for = { is_for };

    ghost effect = { effect };

    ghost fresh = { is_fresh };

    ghost gives = { gives };

    ghost inverse = { inverse };

    ghost canonical = { canonical_of };

    fn statements(
        &self,
        alloc: Global,
        _dialect: Dialect,
        to: &mut Items<Statement>,
    ) -> Result<(), NoMemory> {
        to.push(Statement::DropView {
            view: self.view_name.duplicate(alloc)?,
        })?;
        Ok(())
    }

    fn undo(&self, _alloc: Global, _dialect: Dialect) -> Result<Undo, NoMemory> {
        Ok(Undo::Absent)
    }

    fn is_fresh<K: Look>(&self, _dialect: Dialect, _look: &K) -> bool {
        true
    }

    fn canon(&self, to: &mut Canon) -> Result<(), NoMemory> {
        write_change(
            to,
            "dropView",
            &[("viewName", Some(Field::Name(&self.view_name)))],
        )
    }

    ghost spelled = { spelled };

    ghost returned = { returned };

    ghost does = { does };

    ghost restores = { restores };

    ghost told = { told };
}
