ghost use Rattle.std.specs.Prelude.{◌≡◌, ◌&&◌, ◌++◌, IfOk, OnOk};
ghost use Rattle.lq_base.specs.Name.{IsName, beside, is_elsewhere, is_named, place_of, schema_of, text_of};

use crate::memory::NoMemory;
use crate::name::Name;
use crate::text::Text;
use std::alloc::Global;

#[tactic(auto, using(crate::proofs::BesideLemmas::place_here, crate::proofs::BesideLemmas::place_there))]
fn push_place(to: &mut Text, table: &Name) -> Result<(), NoMemory>
    ensures { OnOk result (to.new ≡ to.old ++ place_of table.now) }
{
    if table.is_elsewhere() {
        to.push_all(&[table.schema(), "\u{1f}"])
    } else {
        Ok(())
    }
}

fn placed_key(alloc: Global, table: &Name, name: &Name) -> Result<Text, NoMemory>
    ensures { IfOk result (λ key. key ≡ beside table.now name.now) }
{
    let mut key = Text::new(alloc, "")?;
    push_place(&mut key, table)?;
    key.push_str(name.as_key())?;
    Ok(key)
}

/// Where a name inside a table counts: in the table's schema. A name inside a table is in `public`,
/// so there always is such a name.
pub fn placed(alloc: Global, table: &Name, name: &Name) -> Result<Name, NoMemory>
    ensures { IfOk result (λ it. it ≡ beside table.now name.now) }
{
    let key = placed_key(alloc, table, name)?;
    match Name::from_key(alloc, key.as_str()) {
        Ok(it) => Ok(it),
        Err(_) => Err(NoMemory),
    }
}

fn is_text(text: &str, other: &str) -> bool
    ensures { result ≡ is_named text.now other.now }
{
    text.cmp(other).is_eq()
}

/// Whether the name has the table's schema and the text of what is inside.
fn is_there(name: &Name, table: &Name, inside: &Name) -> bool
    ensures same { result
        ≡
        (is_elsewhere name.now
        && (is_named (schema_of name.now) (schema_of table.now)
        && is_named (text_of name.now) inside.now)) }
    ensures schema { IsName (schema_of table.now) }
{
    let schema = table.schema();
    name.is_elsewhere() && (is_text(name.schema(), schema) && is_text(name.text(), inside.as_key()))
}

/// Whether what is inside a table counts by the name.
#[tactic(auto, using(crate::proofs::BesideLemmas::placed_here, crate::proofs::BesideLemmas::placed_there))]
pub fn is_placed(name: &Name, table: &Name, inside: &Name) -> bool
    ensures { result ≡ is_named name.now (beside table.now inside.now) }
{
    if table.is_elsewhere() {
        is_there(name, table, inside)
    } else {
        *name == *inside
    }
}
