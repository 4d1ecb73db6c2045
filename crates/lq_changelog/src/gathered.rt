ghost use Rattle.std.specs.List.{All};
ghost use Rattle.std.specs.Prelude.{◌≡◌, IfSome, OnOk, true};
ghost use Rattle.lq_base.specs.Number.{if_there};
ghost use Rattle.lq_kinds.specs.ReadFor.{AreFor, is_read_for};
ghost use Rattle.lq_changelog.specs.Gathers.{HasShortTexts};

use lq_base::{Items, NoMemory};
use lq_cond::{Cond, Reaction};
use lq_joined::Joined;
use lq_kinds::{ChangeSet, Changelog};
use lq_model::SqlText;
use std::alloc::Global;
use std::marker::{Model, PhantomData};

/// What has been gathered of a changelog: changesets that were read for the dialect of `P`, whose texts
/// are short.
#[derive(Drop)]
pub struct Gathered<P: SqlText> {
    /// The conditions of all files.
    joined: Joined<Cond>,
    sets: Items<ChangeSet>,
    sql: PhantomData<P>,
}

impl<P: SqlText> Model for Gathered<P> {
    ghost use Rattle.std.specs.Coded.{codes};
    ghost use Rattle.std.specs.List.{All, list_all};
    ghost use Rattle.std.specs.Prelude.{◌≡◌, true};
    ghost use Rattle.lq_cond.specs.contracts.cond.Cond as cond;
    ghost use Rattle.lq_kinds.specs.ReadFor.{is_read_for};
    ghost use Rattle.lq_kinds.specs.contracts.change_set.ChangeSet as set;
    ghost use Rattle.lq_changelog.specs.Gathers.{Contents, HasShortTexts};

    ghost Value = { Contents };

    ghost coded = { Prim.hlevel (codes, cond.the_row.coded, set.the_row.coded) };

    ghost view = { λ g.
        record { conds = g.joined.conds; on_fail = g.joined.on_fail; on_error = g.joined.on_error; sets = g.sets } };

    ghost invariant = { λ g. (list_all (is_read_for P.dialect) g.sets ≡ true) × All HasShortTexts g.sets };
}

impl<P: SqlText> Gathered<P> {
    ghost use Rattle.lq_changelog.specs.Gathers.{changelog_of, nothing, with_reaction, with_set};

    pub fn new(alloc: Global) -> Gathered<P>
        ensures { result ≡ nothing }
    {
        Gathered {
            joined: Joined::new(alloc),
            sets: Items::new(alloc),
            sql: PhantomData,
        }
    }

    /// Adds a changeset, if it is not to be ignored.
    pub fn add_set(&mut self, set: Option<ChangeSet>) -> Result<(), NoMemory>
        requires right { if_there (is_read_for P.dialect) set ≡ true }
        requires short { IfSome set HasShortTexts }
        ensures { OnOk result (self.new ≡ with_set set self.old) }
    {
        let Some(set) = set else {
            return Ok(());
        };
        self.sets.push(set)?;
        Ok(())
    }

    /// Adds conditions. Only the root says how they are reacted to.
    pub fn add_reaction(&mut self, is_root: bool, reaction: Reaction) -> Result<(), NoMemory>
        ensures { OnOk result (self.new ≡ with_reaction is_root reaction self.old) }
    {
        let Reaction {
            cond,
            on_fail,
            on_error,
        } = reaction;
        self.joined.add_reaction(is_root, cond, on_fail, on_error)?;
        Ok(())
    }

    pub fn into_changelog(self) -> Changelog
        ensures all { result ≡ changelog_of self }
        ensures right { AreFor P.dialect result }
        ensures short { All HasShortTexts result.sets }
    {
        Changelog {
            cond: Cond::And(self.joined.conds),
            on_fail: self.joined.on_fail,
            on_error: self.joined.on_error,
            sets: self.sets,
        }
    }
}
