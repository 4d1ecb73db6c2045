ghost use Rattle.std.specs.Prelude.{◌≡◌, IfOk, true};
ghost use Rattle.lq_tree.specs.Look.{Reads, value_at};
ghost use Rattle.lq_tree.specs.Keys.{at_required};
ghost use Rattle.lq_views.specs.QueryText.{a_query, query_of, spells_query};

use lq_base::{Dialect, KindFault, Text};
use lq_model::{ParseFault, Query, SqlText};
use lq_tree::{Given, Node, bad, missing, placed};
use std::alloc::Global;
use std::marker::Model;

/// A text in the SQL of a dialect that spells a query. Contracts see the dialect and the text, which
/// tell the query.
pub struct QueryText {
    dialect: Dialect,
    text: Text,
    query: Query,
}

// Written out, so that each place that lets one go is one call.
impl Drop for QueryText {
    fn drop(self) {
        let QueryText {
            dialect: _,
            text,
            query,
        } = self;
        drop(text);
        drop(query);
    }
}

impl Model for QueryText {
    ghost use Rattle.std.specs.Prelude.{◌≡◌, Some};
    ghost use Rattle.lq_model.specs.SqlText.{query_in};
    ghost use Rattle.lq_views.specs.QueryText.{DialectText};

    ghost Value = { DialectText };

    ghost view = { λ t. record { dialect = t.dialect; text = t.text } };

    ghost invariant = { λ t. query_in t.dialect t.text ≡ Some t.query };
}

impl QueryText {
    /// A scalar that is printed as a text of the dialect which spells a query.
    pub fn given<P: SqlText>(
        alloc: Global,
        node: &Node,
        dialect: Dialect,
        sql: &P,
    ) -> Result<QueryText, KindFault>
        requires { P.dialect ≡ dialect }
        ensures read { Reads (a_query dialect node.now) result }
        ensures right { IfOk result (λ found. spells_query dialect found ≡ true) }
    {
        let text = Text::given(alloc, node)?;
        match sql.parse_query(alloc, text.as_str()) {
            Ok(query) => Ok(QueryText {
                dialect,
                text,
                query,
            }),
            Err(ParseFault::NotSql) => Err(bad(alloc)),
            Err(ParseFault::OutOfMemory) => Err(KindFault::OutOfMemory),
        }
    }

    /// What stands at a key that has to be there: `Missing` where it is not.
    pub fn required<P: SqlText>(
        alloc: Global,
        node: &Node,
        key: &str,
        dialect: Dialect,
        sql: &P,
    ) -> Result<QueryText, KindFault>
        requires { P.dialect ≡ dialect }
        ensures read { Reads (at_required key.now (a_query dialect) (value_at key.now node.now))
            result }
        ensures right { IfOk result (λ found. spells_query dialect found ≡ true) }
    {
        let Some(value) = node.value_at(key) else {
            return Err(missing(alloc, key));
        };
        match QueryText::given(alloc, value, dialect, sql) {
            Ok(found) => Ok(found),
            Err(fault) => Err(placed(alloc, key, fault)),
        }
    }

    /// The text as it was given.
    pub fn text(&self) -> &str
        ensures { result.now ≡ self.now.text }
    {
        self.text.as_str()
    }

    /// The query that the text spells.
    pub fn query(&self) -> &Query
        ensures { result.now ≡ query_of self.now }
    {
        &self.query
    }
}
