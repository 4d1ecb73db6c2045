ghost use Rattle.std.specs.Prelude.{◌≡◌, [], IfOk, Some, true};
ghost use Rattle.lq_cond.specs.declared.cond.Cond.TheVariants.{And};
ghost use Rattle.lq_expr.specs.declared.options.Options.{Options};
ghost use Rattle.lq_sets.specs.Counting.{unasked};
ghost use Rattle.lq_seen.specs.View.{view};
ghost use Rattle.lq_track.specs.Database.{Database};
ghost use Rattle.lq_turns.specs.Deed.{contents_of};
ghost use Rattle.lq_turns.specs.Schedule.{StandsFor};
ghost use Rattle.lq_turns.specs.Settle.{choice_of};

use crate::choosing::choice;
use crate::rows_asked::rows_asked;
use lq_base::{Dialect, NoMemory};
use lq_cond::Cond;
use lq_kinds::ChangeSet;
use lq_model::Look;
use lq_turns::{Choice, What};
use std::alloc::Global;

/// What a changeset does in the database that is seen, whose turn, by its row, is this. Where it has
/// no precondition nothing is looked at, and only the rows that this asks for are read.
pub fn seen_choice<K: Look>(
    alloc: Global,
    what: What,
    set: &ChangeSet,
    dialect: Dialect,
    look: &K,
) -> Result<Choice, NoMemory>
    ensures { IfOk result (λ made.
        (options : Options) (database : Database)
        → options.dialect ≡ dialect
        → StandsFor dialect (K.catalogue look.now) database
        → made ≡ choice_of (view options set.now) (contents_of database) (Some what)) }
{
    if is_empty(&set.cond) {
        return Ok(unasked(what));
    }
    let rows = rows_asked(alloc, look, &set.cond)?;
    let made = choice(alloc, what, set, dialect, look, rows.as_slice())?;
    Ok(made)
}

fn is_empty(asked: &Cond) -> bool
    ensures { result ≡ true → asked.now ≡ And [] }
{
    match asked {
        Cond::And(inside) => inside.is_empty(),
        _ => false,
    }
}

fn unasked(what: What) -> Choice
    ensures { result ≡ unasked what }
{
    match what {
        What::Fill => Choice::Fills,
        What::New | What::Again => Choice::Runs(what, None),
    }
}
