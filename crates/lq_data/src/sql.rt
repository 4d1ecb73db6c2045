ghost use Rattle.std.specs.Option.{unwrap_or};
ghost use Rattle.std.specs.Prelude.{◌≡◌, IfOk, [], length, true};
ghost use Rattle.lq_tree.specs.Look.{Reads};
ghost use Rattle.lq_data.specs.Script.{is_delimiter, script, statements_in};
ghost use Rattle.lq_data.specs.Sql.{a_sql, delimiter_keys, is_for, split_keys, with_statements};

use crate::copied::push_copies;
use crate::script::statements_in;
use lq_base::{Dialect, Items, KindFault, NoMemory, Text};
use lq_model::{Canon, Change, Field, Look, ParseFault, SqlText, Statement, Undo, write_change};
use lq_tree::{Given, Node, Reader, bad, bad_key, known, optional, optional_by, public, required};
use std::alloc::Global;
use std::marker::Model;

/// The statements that a text spells are run (Liquibase's documentation, "sql").
pub struct Sql {
    /// The dialect for which the text was read.
    dialect: Dialect,
    sql: Text,
    split_statements: bool,
    end_delimiter: Text,
    /// What the text spells.
    statements: Items<Statement>,
}

// Written out, so that each place that lets one go is one call.
impl Drop for Sql {
    fn drop(self) {
        let Sql {
            dialect: _,
            sql,
            split_statements: _,
            end_delimiter,
            statements,
        } = self;
        drop(sql);
        drop(end_delimiter);
        drop(statements);
    }
}

impl Model for Sql {
    ghost use Rattle.std.specs.Prelude.{◌≡◌, Some};
    ghost use Rattle.lq_data.specs.Script.{Script, script, statements_in};

    ghost Value = { Script };

    ghost view = { λ change. script change.dialect change.sql change.split_statements change.end_delimiter };

    ghost invariant = { λ change. statements_in (script change.dialect change.sql change.split_statements change.end_delimiter) ≡ Some change.statements };
}

const KEYS: [&str; 7] = [
    "sql",
    "splitStatements",
    "endDelimiter",
    "schemaName",
    "catalogName",
    "stripComments",
    "remarks",
];

/// Reads delimiters.
#[derive(Drop)]
struct Delimiters;

impl Reader for Delimiters {
    ghost use Rattle.lq_data.specs.Script.{is_delimiter};
    ghost use Rattle.lq_data.specs.Sql.{a_delimiter};

    type Read = Text;

    ghost of = { λ _. a_delimiter };

    ghost fits = { λ _. is_delimiter };

    fn read(&self, alloc: Global, node: &Node) -> Result<Text, KindFault> {
        let text = Text::given(alloc, node)?;
        if text.as_str().is_empty() {
            return Err(bad(alloc));
        }
        Ok(text)
    }
}

fn split_statements(alloc: Global, node: &Node) -> Result<bool, KindFault>
    ensures { Reads (split_keys.says node.now) result }
{
    let stated: Option<bool> = optional(alloc, node, "splitStatements")?;
    Ok(stated.unwrap_or(true))
}

fn end_delimiter(alloc: Global, node: &Node) -> Result<Text, KindFault>
    ensures read { Reads (delimiter_keys.says node.now) result }
    ensures fits { IfOk result (λ delimiter. is_delimiter delimiter ≡ true) }
{
    match optional_by(alloc, node, "endDelimiter", &Delimiters)? {
        Some(delimiter) => Ok(delimiter),
        None => Ok(Text::new(alloc, ";")?),
    }
}

impl Sql {
    /// The text as it was given.
    pub fn sql(&self) -> &str
        ensures { result.now ≡ self.now.sql }
    {
        self.sql.as_str()
    }

    /// Whether the text is split.
    pub fn split_statements(&self) -> bool
        ensures { result ≡ self.now.split_statements }
    {
        self.split_statements
    }

    /// Where the text is split.
    pub fn end_delimiter(&self) -> &str
        ensures { result.now ≡ self.now.end_delimiter }
    {
        self.end_delimiter.as_str()
    }

    /// How many statements the text spells.
    pub fn count(&self) -> usize
        ensures { result ≡ length (unwrap_or (statements_in self.now) []) }
    {
        self.statements.len()
    }

    fn of<P: SqlText>(
        alloc: Global,
        dialect: Dialect,
        sql: &P,
        text: Text,
        is_split: bool,
        delimiter: Text,
    ) -> Result<Sql, KindFault>
        requires same { dialect ≡ P.dialect }
        requires delimiter { is_delimiter delimiter ≡ true }
        ensures read { Reads (with_statements (script dialect text is_split delimiter)) result }
        ensures right { IfOk result (λ x. is_for dialect x ≡ true) }
    {
        match statements_in(
            alloc,
            dialect,
            sql,
            text.as_str(),
            is_split,
            delimiter.as_str(),
        ) {
            Ok(statements) => Ok(Sql {
                dialect,
                sql: text,
                split_statements: is_split,
                end_delimiter: delimiter,
                statements,
            }),
            Err(ParseFault::NotSql) => Err(bad_key(alloc, "sql")),
            Err(ParseFault::OutOfMemory) => Err(KindFault::OutOfMemory),
        }
    }

    /// What a node states, or the first fault in the order of the keys. That the text spells no
    /// statements is told after those of its own keys.
    #[tactic(auto, unfolding(crate::specs::Sql::a_sql))]
    pub fn read<P: SqlText>(
        alloc: Global,
        node: &Node,
        dialect: Dialect,
        sql: &P,
    ) -> Result<Sql, KindFault>
        requires same { dialect ≡ P.dialect }
        ensures read { Reads (a_sql dialect node.now) result }
        ensures right { IfOk result (λ x. is_for dialect x ≡ true) }
    {
        known(alloc, node, &KEYS)?;
        let text: Text = required(alloc, node, "sql")?;
        let is_split = split_statements(alloc, node)?;
        let delimiter = end_delimiter(alloc, node)?;
        let change = Sql::of(alloc, dialect, sql, text, is_split, delimiter)?;
        public(alloc, node)?;
        Ok(change)
    }
}

impl Change for Sql {
    ghost use Rattle.lq_data.specs.Script.{Script};
    ghost use Rattle.lq_data.specs.Sql.{canonical_of, effect, gives, inverse, is_for, is_fresh};
    ghost use Rattle.lq_data.specs.SqlLaws.{does, restores, returned, spelled, told};

    ghost Key = { Script };

    ghost key = { λ change. change };

    ghost is_for = { is_for };

    ghost effect = { effect };

    ghost fresh = { is_fresh };

    ghost gives = { gives };

    ghost inverse = { inverse };

    ghost canonical = { canonical_of };

    fn statements(
        &self,
        alloc: Global,
        _dialect: Dialect,
        to: &mut Items<Statement>,
    ) -> Result<(), NoMemory> {
        push_copies(alloc, self.statements.as_slice(), to)
    }

    fn undo(&self, _alloc: Global, _dialect: Dialect) -> Result<Undo, NoMemory> {
        Ok(Undo::Absent)
    }

    fn is_fresh<K: Look>(&self, _dialect: Dialect, _look: &K) -> bool {
        true
    }

    fn canon(&self, to: &mut Canon) -> Result<(), NoMemory> {
        write_change(
            to,
            "sql",
            &[
                ("sql", Some(Field::Text(self.sql()))),
                (
                    "splitStatements",
                    Some(Field::Truth(self.split_statements())),
                ),
                ("endDelimiter", Some(Field::Text(self.end_delimiter()))),
            ],
        )
    }

    ghost spelled = { spelled };

    ghost returned = { returned };

    ghost does = { does };

    ghost restores = { restores };

    ghost told = { told };
}
