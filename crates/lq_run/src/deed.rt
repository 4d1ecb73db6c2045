ghost use Rattle.std.specs.Prelude.{◌≡◌, IfOk, Some, true};
ghost use Rattle.lq_model.specs.SqlText.{statement_in};
ghost use Rattle.lq_model.specs.Step.{is_statement};
ghost use Rattle.lq_model.specs.StatementText.{text_of};
ghost use Rattle.lq_hand.specs.Hand.{IsWritable};
ghost use Rattle.lq_run.specs.Does.{Reads};
ghost use Rattle.lq_turns.specs.Deed.{lock_statement, made_of, row_statement};
ghost use Rattle.lq_turns.specs.declared.deed.Deed.TheVariants as deed;

use lq_base::{Dialect, NoMemory, Text};
use lq_model::{By, SqlText, Statement};
use lq_statement::laws::statements_read_back;
use lq_track::{
    again_row, clear_sums, delete_row, fill_sum, free_lock, insert_row, make_lock, make_lock_row,
    make_log, mark_lock, set_tag, take_lock,
};
use lq_turns::{Deed, OnLock, OnRows};
use std::alloc::Global;

/// On whose behalf a deed's statement runs.
pub fn caller(deed: &Deed) -> By
    ensures { (d : Dialect) → result ≡ (made_of d deed.now).0 }
{
    match deed {
        Deed::Users(_) => By::User,
        Deed::Rows(_) => By::Program,
        Deed::Locks(_) => By::Program,
    }
}

/// The canonical text of a deed's statement, which is read back as that statement.
pub fn print<P: SqlText>(
    alloc: Global,
    sql: &P,
    dialect: Dialect,
    deed: &Deed,
) -> Result<Text, NoMemory>
    requires sql { P.dialect ≡ dialect }
    requires writable { IsWritable dialect deed.now }
    ensures { IfOk result (λ text. Reads dialect (made_of dialect deed.now).1 text) }
{
    match deed {
        Deed::Users(statement) => print_user(alloc, sql, dialect, statement),
        Deed::Rows(on) => print_made(alloc, sql, dialect, row_statement(alloc, dialect, on)?),
        Deed::Locks(on) => print_made(alloc, sql, dialect, lock_statement(alloc, dialect, on)?),
    }
}

fn row_statement(alloc: Global, dialect: Dialect, on: &OnRows) -> Result<Statement, NoMemory>
    requires writable { IsWritable dialect (deed.Rows on.now) }
    ensures made { IfOk result (λ s. s ≡ row_statement on.now) }
    ensures stated { IfOk result (λ s. is_statement dialect s ≡ true) }
{
    match on {
        OnRows::Inserted(row) => {
            let _place = row.order;
            insert_row(alloc, row)
        }
        OnRows::Renewed(row) => {
            let _place = row.order;
            again_row(alloc, row)
        }
        OnRows::Deleted(of) => delete_row(alloc, of),
        OnRows::Filled(of, sum) => fill_sum(alloc, of, sum),
        OnRows::Tagged(of, tag) => set_tag(alloc, of, tag),
        OnRows::Cleared => clear_sums(alloc),
    }
}

fn lock_statement(alloc: Global, dialect: Dialect, on: &OnLock) -> Result<Statement, NoMemory>
    requires writable { IsWritable dialect (deed.Locks on.now) }
    ensures made { IfOk result (λ s. s ≡ lock_statement dialect on.now) }
    ensures stated { IfOk result (λ s. is_statement dialect s ≡ true) }
{
    match on {
        OnLock::LogMade => make_log(alloc),
        OnLock::LockMade => make_lock(alloc, dialect),
        OnLock::LockRowMade => make_lock_row(alloc),
        OnLock::Taken(at, by) => take_lock(alloc, *at as i64, by),
        OnLock::Marked(by) => mark_lock(alloc, by),
        OnLock::Freed => free_lock(alloc),
    }
}

fn print_user<P: SqlText>(
    alloc: Global,
    sql: &P,
    dialect: Dialect,
    statement: &Statement,
) -> Result<Text, NoMemory>
    requires sql { P.dialect ≡ dialect }
    requires stated { is_statement dialect statement.now ≡ true }
    ensures { IfOk result (λ text. Reads dialect statement.now text) }
{
    statements_read_back();
    sql.print(alloc, statement)
}

fn print_made<P: SqlText>(
    alloc: Global,
    sql: &P,
    dialect: Dialect,
    statement: Statement,
) -> Result<Text, NoMemory>
    requires sql { P.dialect ≡ dialect }
    requires stated { is_statement dialect statement ≡ true }
    ensures { IfOk result (λ text. Reads dialect statement text) }
{
    print_user(alloc, sql, dialect, &statement)
}
