ghost use Rattle.std.specs.Prelude.{◌≡◌, IfOk, OnOk, is_some, map, true, vec_len};
ghost use Rattle.lq_model.specs.Catalogue.{table_of};
ghost use Rattle.lq_model.specs.Rows.{deleted};
ghost use Rattle.lq_rows.specs.Stored.{Continues};
ghost use Rattle.lq_deletes.specs.Places.{AreGone, AreMarked, marks_of, with_thinned, row_total, IsLinked};

use crate::edges::edges_of;
use crate::loss::{Loss, losses_in, thin};
use crate::spread::{marked, spread};
use crate::taking::{columns_of, taken};
use lq_base::{Name, NoMemory};
use lq_model::Test;
use lq_parts::Parts;
use std::alloc::Global;

/// For each row of all tables whether it goes: those that the test takes, and those that go with
/// them, in O(n log n).
fn gone(
    alloc: Global,
    parts: &Parts,
    table: &Name,
    test: &Option<Test>,
) -> Result<Vec<bool>, NoMemory>
    requires linked { IsLinked parts.now.now }
    requires there { is_some (table_of parts.now.now table.now) ≡ true }
    ensures rows { IfOk result (λ marks. AreGone table.now test.now parts.now.now marks.items) }
    ensures len { IfOk result (λ marks. vec_len marks ≡ row_total parts.now.now.tables) }
{
    let entries = parts.tables();
    let mut marks = taken(alloc, entries, table, test, columns_of(parts, table))?;
    let edges = edges_of(alloc, entries, marks.len())?;
    let work = marked(alloc, &marks)?;
    spread(&edges, &mut marks, work)?;
    Ok(marks)
}

/// Which rows stay of the tables of which one goes.
fn losses(
    alloc: Global,
    parts: &Parts,
    table: &Name,
    test: &Option<Test>,
) -> Result<Vec<Loss>, NoMemory>
    requires linked { IsLinked parts.now.now }
    requires there { is_some (table_of parts.now.now table.now) ≡ true }
    ensures marked { IfOk result (λ all. AreMarked (map marks_of all.items) parts.now.now.tables) }
    ensures thinned { IfOk result (λ all.
        with_thinned (map marks_of all.items) parts.now.now
        ≡ deleted table.now test.now parts.now.now) }
{
    let marks = gone(alloc, parts, table, test)?;
    let all = losses_in(alloc, parts.tables(), &marks)?;
    Ok(all)
}

/// Takes the rows out that the test takes, and those that go with them. At a fault some may be gone.
pub fn cascade(
    parts: &mut Parts,
    alloc: Global,
    table: &Name,
    test: &Option<Test>,
) -> Result<(), NoMemory>
    requires linked { IsLinked parts.old.now }
    requires there { is_some (table_of parts.old.now table.now) ≡ true }
    ensures ok { OnOk result (parts.new.now ≡ deleted table.now test.now parts.old.now) }
    ensures goes { Continues parts.old parts.new }
{
    let all = losses(alloc, parts, table, test)?;
    thin(parts, alloc, &all)?;
    Ok(())
}
