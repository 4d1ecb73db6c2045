ghost use Rattle.std.specs.Prelude.{◌≡◌};
ghost use Rattle.std.specs.Str.{str_eq_ignore_ascii_case};
ghost use Rattle.lq_model.specs.NameSpaces.{is_tracking};

use lq_base::{Name, Reason};
use lq_model::{Answered, AskFault, By, Column, ForeignKey, Index, Key, Look, Query, Unique};
use std::alloc::Global;

/// A look at a catalogue in which nothing was made.
#[derive(Clone, Copy)]
pub struct NoObjects;

fn is_word(name: &str, word: &str) -> bool
    ensures { result ≡ str_eq_ignore_ascii_case name.now word.now }
{
    name.eq_ignore_ascii_case(word)
}

/// A tracking table's name, in any ASCII case.
fn is_tracking(name: &str) -> bool
    ensures { result ≡ is_tracking name.now }
{
    let is_log = is_word(name, "DATABASECHANGELOG");
    let is_lock = is_word(name, "DATABASECHANGELOGLOCK");
    is_log | is_lock
}

impl Look for NoObjects {
    ghost use Rattle.lq_model.specs.Catalogue.{no_objects};

    ghost catalogue = { λ _. no_objects };

    fn is_table(&self, _table: &Name) -> bool {
        false
    }

    fn is_view(&self, _view: &Name) -> bool {
        false
    }

    fn is_sequence(&self, _sequence: &Name) -> bool {
        false
    }

    fn column(&self, _table: &Name, _column: &Name) -> Option<&Column> {
        None
    }

    fn key(&self, _table: &Name) -> Option<&Key> {
        None
    }

    fn unique(&self, _table: &Name, _name: &Name) -> Option<&Unique> {
        None
    }

    fn foreign_key(&self, _table: &Name, _name: &Name) -> Option<&ForeignKey> {
        None
    }

    fn index(&self, _table: &Name, _name: &Name) -> Option<&Index> {
        None
    }

    fn columns(&self, _table: &Name) -> Option<&[Column]> {
        None
    }

    fn uniques(&self, _table: &Name) -> Option<&[Unique]> {
        None
    }

    fn foreign_keys(&self, _table: &Name) -> Option<&[ForeignKey]> {
        None
    }

    fn indexes(&self, _table: &Name) -> Option<&[Index]> {
        None
    }

    fn has_null(&self, _table: &Name, _column: &Name) -> bool {
        false
    }

    fn rows(&self, _table: &Name) -> Option<u64> {
        None
    }

    fn ask(&self, _alloc: Global, by: By, query: &Query) -> Result<Answered, AskFault> {
        match by {
            By::User => if is_tracking(query.table.as_key()) {
                Err(AskFault::Refused(Reason::Reserved))
            } else {
                Err(AskFault::Refused(Reason::Missing))
            },
            By::Program => Err(AskFault::Refused(Reason::Missing)),
        }
    }
}
