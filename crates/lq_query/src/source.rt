use lq_base::{Items, Name, Value};
use lq_chain::Iter;
use lq_model::{Column, Test};

/// What a view shows of its table.
#[derive(Clone, Copy)]
pub struct Shown<'a> {
    /// The columns that it lists.
    pub names: &'a [Name],
    /// It shows the rows that this test takes.
    pub test: &'a Option<Test>,
}

/// What stands at the name that a query asks: a table, or a view of one.
#[derive(Drop)]
pub struct Source<'a> {
    /// The columns of the table.
    pub columns: &'a [Column],
    /// The rows of the table.
    pub rows: Iter<'a, Items<Value>>,
    /// What is shown of them, where a view stands there.
    pub view: Option<Shown<'a>>,
}
