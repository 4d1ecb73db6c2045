ghost use Rattle.std.specs.Prelude.{◌≡◌, ◌++◌, Bool, IfOk, List, OnErr, OnOk, Option, Result, true};
ghost use Rattle.lq_base.specs.declared.dialect.Dialect.{Dialect};
ghost use Rattle.lq_base.specs.declared.reason.Reason.{Reason};
ghost use Rattle.lq_model.specs.Changes.{CanonicalChange, canonical_change, AreReturns, AreStatements, AreTold, HaveEffect, TakeBack, undoing_of};
ghost use Rattle.lq_model.specs.Catalogue.{Catalogue};
ghost use Rattle.lq_model.specs.declared.statement.Statement.{Statement};

use crate::canon::Canon;
use crate::look::Look;
use crate::statement::Statement;
use lq_base::{Dialect, Items, NoMemory};
use std::alloc::Global;

/// How a change is taken back.
#[derive(Drop)]
pub enum Undo {
    /// By these statements, of which there may be none.
    Generated(Items<Statement>),
    /// By none that are generated.
    Absent,
}

/// One change of a changeset, read for one dialect (Liquibase's documentation, "Change Types").
///
/// Contracts see a change as its key, which is what it says without its place in memory. Its laws are
/// proved of the key.
pub trait Change {
    /// What a change says.
    ghost Key: { Type 0 };

    ghost key: { Self → Key };

    /// The dialect is the one for which the change was read.
    ghost is_for: { Dialect → Key → Bool };

    /// The catalogue that it gives, or the first reason against it.
    ghost effect: { Dialect → Key → Catalogue → Result Catalogue Reason };

    /// Where what is generated gives the catalogue back. True where nothing is generated.
    ghost fresh: { Dialect → Key → Catalogue → Bool };

    /// Its statements in order.
    ghost gives: { Dialect → Key → List Statement };

    /// The statements that take it back, where such are generated.
    ghost inverse: { Dialect → Key → Option (List Statement) };

    /// Its type's name and the pairs of its map.
    ghost canonical: { Key → CanonicalChange };

    /// Appends its statements, or none of them where there is no memory.
    fn statements(
        &self,
        alloc: Global,
        dialect: Dialect,
        to: &mut Items<Statement>,
    ) -> Result<(), NoMemory>
        requires { is_for dialect (key self.now) ≡ true }
        ensures given { OnOk result (to.new ≡ to.old ++ gives dialect (key self.now)) }
        ensures unchanged { OnErr result (to.new ≡ to.old) };

    /// `Absent` exactly where none are generated.
    fn undo(&self, alloc: Global, dialect: Dialect) -> Result<Undo, NoMemory>
        requires { is_for dialect (key self.now) ≡ true }
        ensures { IfOk result (λ undo. undoing_of undo ≡ inverse dialect (key self.now)) };

    /// Whether it is fresh on what is seen. It is where the table or column is not there, and where
    /// nothing is generated that takes it back.
    fn is_fresh<K: Look>(&self, dialect: Dialect, look: &K) -> bool
        requires { is_for dialect (key self.now) ≡ true }
        ensures { result ≡ fresh dialect (key self.now) (K.catalogue look.now) };

    /// Appends its canonical text, or nothing where there is no memory.
    fn canon(&self, to: &mut Canon) -> Result<(), NoMemory>
        ensures written { OnOk result (to.new.written
            ≡ to.old.written ++ canonical_change (canonical (key self.now))) }
        ensures begun { OnOk result (to.new.begun ≡ to.old.begun) }
        ensures unchanged { OnErr result (to.new ≡ to.old) };

    /// Its statements are statements of the dialect.
    ghost spelled: { AreStatements is_for gives };

    /// What is generated to take it back are statements of the dialect.
    ghost returned: { AreReturns is_for inverse };

    /// Its statements give its effect.
    ghost does: { HaveEffect is_for gives effect };

    /// What is generated takes it back where it is fresh.
    ghost restores: { TakeBack is_for effect fresh inverse };

    /// Its text tells it, among those that were read for its dialect.
    ghost told: { AreTold is_for canonical };
}
