use crate::shown::{shown, shown_query, shown_test};
use lq_base::{Boxed, Dialect, Items, Kind, Literal, Name, NoMemory, Text};
use lq_model::{ColumnDef, ForeignKey, Key, Op, Operand, Query, Statement, Test, Unique};
use std::alloc::Global;
use std::process::Abort;

mod columns;
mod constraints;
mod objects;
mod queries;
mod rows;
mod tables;

// Makes what is printed; the test ends where memory is wanting.
#[derive(Drop)]
struct Maker<'a, R> {
    rt: &'a R,
    alloc: Global,
}

impl<'a, R: Abort> Maker<'a, R> {
    fn new(rt: &'a R, alloc: Global) -> Maker<'a, R> {
        Maker { rt, alloc }
    }

    fn name(&self, text: &str) -> Name {
        Name::new(self.alloc, text).expect(self.rt, "a name")
    }

    fn within(&self, schema: &str, text: &str) -> Name {
        Name::within(self.alloc, schema, text).expect(self.rt, "a name")
    }

    fn pair(&self, first: &str, second: &str) -> (Name, Name) {
        (self.name(first), self.name(second))
    }

    fn text(&self, text: &str) -> Literal {
        Literal::Text(Text::new(self.alloc, text).expect(self.rt, "memory"))
    }

    fn one<T: Drop>(&self, it: T) -> Items<T> {
        self.and(Items::new(self.alloc), it)
    }

    fn and<T: Drop>(&self, mut items: Items<T>, it: T) -> Items<T> {
        items.push(it).expect(self.rt, "memory");
        items
    }

    fn names(&self, first: &str, second: &str) -> Items<Name> {
        self.and(self.one(self.name(first)), self.name(second))
    }
}

// Columns and constraints.
impl<'a, R: Abort> Maker<'a, R> {
    fn column(&self, text: &str, kind: Kind, nullable: bool) -> ColumnDef {
        ColumnDef {
            name: self.name(text),
            kind,
            nullable,
            default: None,
            numbered: false,
        }
    }

    fn key(&self, text: &str, column: &str) -> Key {
        Key {
            name: self.name(text),
            columns: self.one(self.name(column)),
        }
    }

    fn unique(&self, text: &str, first: &str, second: &str) -> Unique {
        Unique {
            name: self.name(text),
            columns: self.names(first, second),
        }
    }

    fn foreign(&self, text: &str, column: &str, cascade: bool) -> ForeignKey {
        ForeignKey {
            name: self.name(text),
            columns: self.one(self.name(column)),
            table: self.name("team"),
            targets: self.one(self.name("id")),
            cascade,
        }
    }
}

// Tests.
impl<'a, R: Abort> Maker<'a, R> {
    // A column beside a value.
    fn compare(&self, text: &str, op: Op, value: Literal) -> Test {
        Test::Compare {
            op,
            x: Operand::Column(self.name(text)),
            y: Operand::Literal(value),
        }
    }

    fn boxed(&self, test: Test) -> Boxed<Test> {
        Boxed::new(self.alloc, test).expect(self.rt, "memory")
    }

    fn both(&self, a: Test, b: Test) -> Test {
        Test::And(self.boxed(a), self.boxed(b))
    }
}

// What is wanted.
impl<'a, R: Abort> Maker<'a, R> {
    fn shows(&self, text: Result<Text, NoMemory>, wanted: &str) {
        let text = text.expect(self.rt, "memory");
        assert_eq!(self.rt; text.as_str(), wanted);
    }

    fn pg(&self, statement: Statement, wanted: &str) {
        self.shows(shown(self.alloc, Dialect::Postgresql, statement), wanted)
    }

    fn my(&self, statement: Statement, wanted: &str) {
        self.shows(shown(self.alloc, Dialect::Mysql, statement), wanted)
    }

    fn query(&self, dialect: Dialect, query: Query, wanted: &str) {
        self.shows(shown_query(self.alloc, dialect, query), wanted)
    }

    fn test(&self, dialect: Dialect, test: Test, wanted: &str) {
        self.shows(shown_test(self.alloc, dialect, test), wanted)
    }
}
