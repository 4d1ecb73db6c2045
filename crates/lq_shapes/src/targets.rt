ghost use Rattle.std.specs.Prelude.{◌≡◌};
ghost use Rattle.lq_model.specs.Tables.{targets_table};

use lq_base::Name;
use lq_rows::Held;

/// Whether a foreign key of the table aims at another.
pub fn targets_table(table: &Name, held: &Held) -> bool
    ensures { result ≡ targets_table table.now held.now.now }
{
    held.foreign_keys().iter().any(|key| *table == key.table)
}
