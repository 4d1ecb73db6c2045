ghost use Rattle.std.specs.Prelude.{◌≡◌, IfOk, true};
ghost use Rattle.lq_tree.specs.Look.{Reads};
ghost use Rattle.lq_views.specs.CreateView.{create_view, is_for};

use crate::query_text::QueryText;
use lq_base::{Dialect, Duplicate, Items, KindFault, Name, NoMemory};
use lq_model::{Canon, Change, Field, Look, SqlText, Statement, Undo, truth_field, write_change};
use lq_tree::{Node, known, optional, public, required};
use std::alloc::Global;

/// A view is made (Liquibase's documentation, "createView").
#[derive(Drop)]
pub struct CreateView {
    pub view_name: Name,
    pub select_query: QueryText,
    /// Whether it takes the place of a view of its name. By default it does not.
    pub replace_if_exists: Option<bool>,
}

const KEYS: [&str; 6] = [
    "viewName",
    "selectQuery",
    "replaceIfExists",
    "schemaName",
    "catalogName",
    "remarks",
];

impl CreateView {
    /// What a node states, or the first fault in the order of the keys. `sql` reads the SQL of the
    /// dialect.
    #[tactic(auto, unfolding(crate::specs::CreateView::create_view))]
    pub fn read<P: SqlText>(
        alloc: Global,
        node: &Node,
        dialect: Dialect,
        sql: &P,
    ) -> Result<CreateView, KindFault>
        requires { P.dialect ≡ dialect }
        ensures read { Reads (create_view dialect node.now) result }
        ensures right { IfOk result (λ x. is_for dialect x ≡ true) }
    {
        known(alloc, node, &KEYS)?;
        let view_name = required(alloc, node, "viewName")?;
        let select_query = QueryText::required(alloc, node, "selectQuery", dialect, sql)?;
        let replace_if_exists = optional(alloc, node, "replaceIfExists")?;
        public(alloc, node)?;
        Ok(CreateView {
            view_name,
            select_query,
            replace_if_exists,
        })
    }
}

impl Change for CreateView {
    ghost use Rattle.lq_views.specs.CreateView.{canonical_of, effect, gives, inverse, is_for, is_fresh, does, restores, returned, spelled, told};
    ghost use Rattle.lq_views.specs.declared.create_view.CreateView.{CreateView};

    ghost Key = { CreateView };

    ghost key = { λ change. change };

    ghost is_for = { is_for };

    ghost effect = { effect };

    ghost fresh = { is_fresh };

    ghost gives = { gives };

    ghost inverse = { inverse };

    ghost canonical = { canonical_of };

    fn statements(
        &self,
        alloc: Global,
        _dialect: Dialect,
        to: &mut Items<Statement>,
    ) -> Result<(), NoMemory> {
        to.push(Statement::CreateView {
            view: self.view_name.duplicate(alloc)?,
            query: self.select_query.query().duplicate(alloc)?,
            replace: self.replace_if_exists.unwrap_or(false),
        })?;
        Ok(())
    }

    fn undo(&self, alloc: Global, _dialect: Dialect) -> Result<Undo, NoMemory> {
        let mut statements = Items::new(alloc);
        statements.push(Statement::DropView {
            view: self.view_name.duplicate(alloc)?,
        })?;
        Ok(Undo::Generated(statements))
    }

    fn is_fresh<K: Look>(&self, _dialect: Dialect, look: &K) -> bool {
        !self.replace_if_exists.unwrap_or(false) || !look.is_view(&self.view_name)
    }

    fn canon(&self, to: &mut Canon) -> Result<(), NoMemory> {
        write_change(
            to,
            "createView",
            &[
                ("viewName", Some(Field::Name(&self.view_name))),
                ("selectQuery", Some(Field::Text(self.select_query.text()))),
                ("replaceIfExists", truth_field(self.replace_if_exists)),
            ],
        )
    }

    ghost spelled = { spelled };

    ghost returned = { returned };

    ghost does = { does };

    ghost restores = { restores };

    ghost told = { told };
}
