//! A test of rows as it is given.
ghost use Rattle.std.specs.Option.{option_map};
ghost use Rattle.std.specs.Prelude.{◌≡◌, codes, IfOk, Some, true};
ghost use Rattle.lq_base.specs.Number.{if_there};
ghost use Rattle.lq_model.specs.SqlText.{test_in};
ghost use Rattle.lq_model.specs.TakesBack.{field_value};
ghost use Rattle.lq_tree.specs.Look.{Reads, within};
ghost use Rattle.lq_data.specs.Sql.{a_test, given_text, is_test, test_of, where_keys};

use lq_base::{Dialect, Duplicate, KindFault, NoMemory, Text};
use lq_model::{Field, ParseFault, SqlText, Test};
use lq_tree::{Given, Node, bad, placed};
use std::alloc::Global;
use std::marker::Model;

/// What a row is asked, as its SQL text was given, and the test that the text spells in the dialect
/// for which it was read.
#[derive(Drop)]
pub struct GivenTest {
    dialect: Dialect,
    text: Text,
    test: Test,
}

impl Model for GivenTest {
    ghost use Rattle.std.specs.Prelude.{◌≡◌, Some};
    ghost use Rattle.lq_model.specs.SqlText.{test_in};
    ghost use Rattle.lq_data.specs.ColumnValue.{GivenSql};

    ghost Value = { GivenSql };

    ghost view = { λ given. record { dialect = given.dialect; text = given.text } };

    ghost invariant = { λ given. test_in given.dialect given.text ≡ Some given.test };
}

impl GivenTest {
    /// Its text as it was given.
    pub fn text(&self) -> &str
        ensures { result.now ≡ self.now.text }
    {
        self.text.as_str()
    }

    /// The test that the text spells.
    pub fn test(&self) -> &Test
        ensures { test_in self.now.dialect self.now.text ≡ Some result.now }
    {
        &self.test
    }
}

fn a_test<P: SqlText>(
    alloc: Global,
    node: &Node,
    dialect: Dialect,
    sql: &P,
) -> Result<GivenTest, KindFault>
    requires same { dialect ≡ P.dialect }
    ensures read { Reads (a_test dialect node.now) result }
    ensures fits { IfOk result (λ given. is_test dialect given ≡ true) }
{
    let text = Text::given(alloc, node)?;
    match sql.parse_test(alloc, text.as_str()) {
        Ok(test) => Ok(GivenTest {
            dialect,
            text,
            test,
        }),
        Err(ParseFault::NotSql) => Err(bad(alloc)),
        Err(ParseFault::OutOfMemory) => Err(KindFault::OutOfMemory),
    }
}

fn placed_test<P: SqlText>(
    alloc: Global,
    node: &Node,
    dialect: Dialect,
    sql: &P,
) -> Result<GivenTest, KindFault>
    requires same { dialect ≡ P.dialect }
    ensures read { Reads (within (codes "where") (a_test dialect node.now)) result }
    ensures fits { IfOk result (λ given. is_test dialect given ≡ true) }
{
    match a_test(alloc, node, dialect, sql) {
        Ok(given) => Ok(given),
        Err(fault) => Err(placed(alloc, "where", fault)),
    }
}

/// The test at the key `where`, which may be there.
pub(crate) fn where_test<P: SqlText>(
    alloc: Global,
    node: &Node,
    dialect: Dialect,
    sql: &P,
) -> Result<Option<GivenTest>, KindFault>
    requires same { dialect ≡ P.dialect }
    ensures read { Reads ((where_keys dialect).says node.now) result }
    ensures fits { IfOk result (λ given. if_there (is_test dialect) given ≡ true) }
{
    match node.value_at("where") {
        Some(value) => {
            let given = placed_test(alloc, value, dialect, sql)?;
            Ok(Some(given))
        }
        None => Ok(None),
    }
}

/// What the rows are asked, where something is.
pub(crate) fn test_of(alloc: Global, given: &Option<GivenTest>) -> Result<Option<Test>, NoMemory>
    ensures { IfOk result (λ made. made ≡ test_of given.now) }
{
    match given {
        Some(found) => Ok(Some(found.test().duplicate(alloc)?)),
        None => Ok(None),
    }
}

/// A test's text under the key `where`, where it was given.
pub(crate) fn where_field(given: &Option<GivenTest>) -> Option<Field>
    ensures { option_map field_value result ≡ option_map given_text given.now }
{
    match given {
        Some(found) => Some(Field::Text(found.text())),
        None => None,
    }
}
