ghost use Rattle.std.specs.Prelude.{◌≡◌, IfOk, true};
ghost use Rattle.lq_tree.specs.Look.{Reads};
ghost use Rattle.lq_views.specs.RenameView.{is_for, rename_view, renames};

use lq_base::{Dialect, Duplicate, Items, KindFault, Name, NoMemory};
use lq_model::{Canon, Change, Field, Look, SqlText, Statement, Undo, write_change};
use lq_tree::{Node, known, public, required};
use std::alloc::Global;

/// A view gets another name (Liquibase's documentation, "renameView").
#[derive(Drop)]
pub struct RenameView {
    pub old_view_name: Name,
    pub new_view_name: Name,
}

const KEYS: [&str; 5] = [
    "oldViewName",
    "newViewName",
    "schemaName",
    "catalogName",
    "remarks",
];

/// The statement that renames a view: under MySQL, RENAME TABLE (MySQL's documentation, "RENAME TABLE
/// Statement").
fn renaming(alloc: Global, dialect: Dialect, from: &Name, to: &Name) -> Result<Statement, NoMemory>
    ensures { IfOk result (λ made. made ≡ renames dialect from.now to.now) }
{
    let from = from.duplicate(alloc)?;
    let to = to.duplicate(alloc)?;
    match dialect {
        Dialect::Postgresql => Ok(Statement::RenameView { view: from, to }),
        Dialect::Mysql => Ok(Statement::RenameTable { table: from, to }),
    }
}

impl RenameView {
    /// What a node states, or the first fault in the order of the keys.
    #[tactic(auto, unfolding(crate::specs::RenameView::rename_view))]
    pub fn read<P: SqlText>(
        alloc: Global,
        node: &Node,
        dialect: Dialect,
        _sql: &P,
    ) -> Result<RenameView, KindFault>
        ensures read { Reads (rename_view node.now) result }
        ensures right { IfOk result (λ x. is_for dialect x ≡ true) }
    {
        known(alloc, node, &KEYS)?;
        let old_view_name = required(alloc, node, "oldViewName")?;
        let new_view_name = required(alloc, node, "newViewName")?;
        public(alloc, node)?;
        Ok(RenameView {
            old_view_name,
            new_view_name,
        })
    }
}

impl Change for RenameView {
    ghost use Rattle.lq_views.specs.RenameView.{canonical_of, effect, gives, inverse, is_for, is_fresh, does, restores, returned, spelled, told};
    ghost use Rattle.lq_views.specs.declared.rename_view.RenameView.{RenameView};

    ghost Key = { RenameView };

    ghost key = { λ change. change };

    ghost is_for = { is_for };

    ghost effect = { effect };

    ghost fresh = { is_fresh };

    ghost gives = { gives };

    ghost inverse = { inverse };

    ghost canonical = { canonical_of };

    fn statements(
        &self,
        alloc: Global,
        dialect: Dialect,
        to: &mut Items<Statement>,
    ) -> Result<(), NoMemory> {
        to.push(renaming(alloc, dialect, &self.old_view_name, &self.new_view_name)?)?;
        Ok(())
    }

    fn undo(&self, alloc: Global, dialect: Dialect) -> Result<Undo, NoMemory> {
        let mut statements = Items::new(alloc);
        statements.push(renaming(alloc, dialect, &self.new_view_name, &self.old_view_name)?)?;
        Ok(Undo::Generated(statements))
    }

    fn is_fresh<K: Look>(&self, _dialect: Dialect, _look: &K) -> bool {
        true
    }

    fn canon(&self, to: &mut Canon) -> Result<(), NoMemory> {
        write_change(
            to,
            "renameView",
            &[
                ("oldViewName", Some(Field::Name(&self.old_view_name))),
                ("newViewName", Some(Field::Name(&self.new_view_name))),
            ],
        )
    }

    ghost spelled = { spelled };

    ghost returned = { returned };

    ghost does = { does };

    ghost restores = { restores };

    ghost told = { told };
}
