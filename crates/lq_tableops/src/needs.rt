ghost use Rattle.std.specs.List.{list_any};
ghost use Rattle.std.specs.Prelude.{◌≡◌, ◌&&◌, ◌||◌, false, is_some, not};
ghost use Rattle.lq_base.specs.Name.{is_named};
ghost use Rattle.lq_model.specs.Catalogue.{the_table, is_empty};
ghost use Rattle.lq_model.specs.Tables.{is_targeted, is_viewed, targets_table};
ghost use Rattle.lq_model.specs.Plan.{is_loose};

use lq_base::Name;
use lq_parts::Parts;
use lq_rows::Held;
use lq_shapes::targets_table;

/// Whether a view names the table.
pub fn is_viewed(parts: &Parts, table: &Name) -> bool
    ensures { result ≡ is_viewed parts.now.now table.now }
{
    parts
        .views()
        .iter()
        .any(|entry| *table == entry.1.query().table)
}

// Most tables have no foreign keys: then no names are compared.
#[tactic(auto, using(crate::proofs::TargetLemmas::turned))]
fn is_other_aiming(table: &Name, name: &Name, held: &Held) -> bool
    ensures { result ≡ (not (is_named table.now name.now) && targets_table table.now
        held.now.now) }
{
    targets_table(table, held) && *table != *name
}

fn one_aims(table: &Name, entries: &[(Name, Held)]) -> bool
    ensures { result
        ≡ list_any (λ e. not (is_named table.now e.0) && targets_table table.now e.1.now)
        entries.now }
{
    entries
        .iter()
        .any(|entry| is_other_aiming(table, &entry.0, &entry.1))
}

/// Whether the table has a key or a unique constraint, which a foreign key may target.
pub fn has_targets(parts: &Parts, table: &Name) -> bool
    ensures { result
        ≡
        (is_some (the_table parts.now.now table.now).key
        || not (is_empty (the_table parts.now.now table.now).uniques)) }
{
    match parts.table(table) {
        Some(held) => held.key().is_some() || !held.uniques().is_empty(),
        None => false,
    }
}

/// Whether another table's foreign key targets the table. No other table is looked at where none may,
/// nor where it is known that none does.
#[tactic(auto, using(lq_model::proofs::Lists::any_mapped))]
pub fn is_targeted(parts: &Parts, table: &Name) -> bool
    requires { is_loose parts.now.now ≡ false }
    ensures { result ≡ is_targeted parts.now.now table.now }
{
    if !has_targets(parts, table) {
        return false;
    }
    if parts.is_untargeted(table) {
        return false;
    }
    one_aims(table, parts.tables())
}
