ghost use Rattle.std.specs.Option.{option_map};
ghost use Rattle.std.specs.Prelude.{◌≡◌, ◌++◌, ◌∷◌, [], OnErr, OnOk, Some, map};
ghost use Rattle.lq_model.specs.Changes.{GoesOn, canonical, canonical_change, canonical_pairs, canonical_values, list};
ghost use Rattle.lq_model.specs.TakesBack.{change_of, field_value, map_with, maps, pair_if, pairs_of, texts};

use crate::canon::Canon;
use crate::field::{Field, name_field, text_field};
use lq_base::{Name, NoMemory, Text};

/// Keys of a change or of a map in it, which canonical text has where they were given.
pub trait Written {
    ghost use Rattle.std.specs.Prelude.{List};
    ghost use Rattle.lq_model.specs.TakesBack.{Row};

    /// Each key with its value, in the order of the type's table.
    ghost rows: { Self → List Row };

    /// Appends the pairs of the keys that were given, or a front of them where there is no memory.
    fn write(&self, to: &mut Canon) -> Result<(), NoMemory>
        ensures written { OnOk result (to.new.written
            ≡ to.old.written ++ canonical_pairs (pairs_of (rows self.now))) }
        ensures begun { OnOk result (to.new.begun ≡ to.old.begun) }
        ensures front { OnErr result (GoesOn to.old to.new) };
}

/// Keys that have neither maps nor lists of maps.
#[derive(Drop)]
pub struct Fields<'a>(pub &'a [(&'a str, Option<Field<'a>>)]);

/// A key that has a text, where it was given.
#[derive(Drop)]
pub struct TextAt<'a> {
    pub key: &'a str,
    pub text: &'a Option<Text>,
}

/// A key that has a name, where it was given.
#[derive(Drop)]
pub struct NameAt<'a> {
    pub key: &'a str,
    pub name: &'a Option<Name>,
}

/// A key that has a map, where it was given.
#[derive(Drop)]
pub struct MapAt<'a, T> {
    pub key: &'a str,
    pub map: &'a Option<T>,
}

/// A key that has a list of maps.
#[derive(Drop)]
pub struct MapsAt<'a, T> {
    pub key: &'a str,
    pub maps: &'a [T],
}

fn write_texts(to: &mut Canon, names: &[Name]) -> Result<(), NoMemory>
    ensures written { OnOk result (to.new.written
        ≡ to.old.written ++ canonical_values (texts names.now)) }
    ensures begun { OnOk result (to.new.begun ≡ to.old.begun) }
    ensures front { OnErr result (GoesOn to.old to.new) }
{
    for name in names {
        to.text(name.as_key())?;
    }
    Ok(())
}

fn write_names(to: &mut Canon, names: &[Name]) -> Result<(), NoMemory>
    ensures written { OnOk result (to.new.written
        ≡ to.old.written ++ canonical (list (texts names.now))) }
    ensures begun { OnOk result (to.new.begun ≡ to.old.begun) }
    ensures front { OnErr result (GoesOn to.old to.new) }
{
    to.begin_list()?;
    write_texts(to, names)?;
    to.end_list()
}

fn write_field(to: &mut Canon, field: Field) -> Result<(), NoMemory>
    ensures written { OnOk result (to.new.written
        ≡ to.old.written ++ canonical (field_value field.entry)) }
    ensures begun { OnOk result (to.new.begun ≡ to.old.begun) }
    ensures front { OnErr result (GoesOn to.old to.new) }
{
    match field {
        Field::Text(text) => to.text(text),
        Field::Name(name) => to.text(name.as_key()),
        Field::Number(number) => to.number(number),
        Field::Decimal { units, scale } => to.decimal(units, scale),
        Field::Truth(truth) => to.truth(truth),
        Field::Kind(kind) => to.kind(kind),
        Field::Names(names) => write_names(to, names),
        Field::NamesOf(names) => write_names(to, names.as_slice()),
    }
}

fn write_pair(to: &mut Canon, key: &str, field: Option<Field>) -> Result<(), NoMemory>
    ensures written { OnOk result (to.new.written
        ≡ to.old.written
        ++ canonical_pairs (pairs_of ((key.now, option_map field_value field.entry) ∷ []))) }
    ensures begun { OnOk result (to.new.begun ≡ to.old.begun) }
    ensures front { OnErr result (GoesOn to.old to.new) }
{
    let Some(field) = field else {
        return Ok(());
    };
    to.key(key)?;
    write_field(to, field)
}

fn write_pairs(to: &mut Canon, rows: &[(&str, Option<Field>)]) -> Result<(), NoMemory>
    ensures written { OnOk result (to.new.written
        ≡ to.old.written
        ++ canonical_pairs (pairs_of (map (λ row. (row.0.now, option_map field_value row.1))
        rows.now))) }
    ensures begun { OnOk result (to.new.begun ≡ to.old.begun) }
    ensures front { OnErr result (GoesOn to.old to.new) }
{
    match rows {
        [] => Ok(()),
        [row, rest @ ..] => {
            write_pair(to, row.0, row.1)?;
            write_pairs(to, rest)
        }
    }
}

fn write_map<T: Written>(to: &mut Canon, map: &T) -> Result<(), NoMemory>
    ensures written { OnOk result (to.new.written
        ≡ to.old.written ++ canonical (map_with (T.rows map.now))) }
    ensures begun { OnOk result (to.new.begun ≡ to.old.begun) }
    ensures front { OnErr result (GoesOn to.old to.new) }
{
    to.begin_map()?;
    map.write(to)?;
    to.end_map()
}

fn write_maps<T: Written>(to: &mut Canon, items: &[T]) -> Result<(), NoMemory>
    ensures written { OnOk result (to.new.written
        ≡ to.old.written ++ canonical_values (maps T.rows items.now)) }
    ensures begun { OnOk result (to.new.begun ≡ to.old.begun) }
    ensures front { OnErr result (GoesOn to.old to.new) }
{
    for item in items {
        write_map(to, item)?;
    }
    Ok(())
}

fn write_list<T: Written>(to: &mut Canon, items: &[T]) -> Result<(), NoMemory>
    ensures written { OnOk result (to.new.written
        ≡ to.old.written ++ canonical (list (maps T.rows items.now))) }
    ensures begun { OnOk result (to.new.begun ≡ to.old.begun) }
    ensures front { OnErr result (GoesOn to.old to.new) }
{
    to.begin_list()?;
    write_maps(to, items)?;
    to.end_list()
}

impl Written for Fields<'_> {
    ghost use Rattle.std.specs.Option.{option_map};
    ghost use Rattle.std.specs.Prelude.{map};
    ghost use Rattle.lq_model.specs.TakesBack.{field_value};

    ghost rows = { λ fields. map (λ row. (row.0.now, option_map field_value row.1)) fields.0.now };

    fn write(&self, to: &mut Canon) -> Result<(), NoMemory> {
        write_pairs(to, self.0)
    }
}

impl Written for TextAt<'_> {
    ghost use Rattle.std.specs.Option.{option_map};
    ghost use Rattle.std.specs.Prelude.{◌∷◌, []};
    ghost use Rattle.lq_model.specs.Changes.{text};

    ghost rows = { λ at. (at.key.now, option_map (λ t. text t) at.text.now) ∷ [] };

    fn write(&self, to: &mut Canon) -> Result<(), NoMemory> {
        write_pair(to, self.key, text_field(self.text))
    }
}

impl Written for NameAt<'_> {
    ghost use Rattle.std.specs.Option.{option_map};
    ghost use Rattle.std.specs.Prelude.{◌∷◌, []};
    ghost use Rattle.lq_model.specs.Changes.{text};

    ghost rows = { λ at. (at.key.now, option_map (λ t. text t) at.name.now) ∷ [] };

    fn write(&self, to: &mut Canon) -> Result<(), NoMemory> {
        write_pair(to, self.key, name_field(self.name))
    }
}

impl<T: Written> Written for MapAt<'_, T> {
    ghost use Rattle.std.specs.Option.{option_map};
    ghost use Rattle.std.specs.Prelude.{◌∷◌, []};
    ghost use Rattle.lq_model.specs.TakesBack.{map_with};

    ghost rows = { λ at. (at.key.now, option_map (λ found. map_with (T.rows found)) at.map.now) ∷ [] };

    fn write(&self, to: &mut Canon) -> Result<(), NoMemory> {
        let Some(found) = self.map else {
            return Ok(());
        };
        to.key(self.key)?;
        write_map(to, found)
    }
}

impl<T: Written> Written for MapsAt<'_, T> {
    ghost use Rattle.std.specs.Prelude.{◌∷◌, [], Some};
    ghost use Rattle.lq_model.specs.Changes.{list};
    ghost use Rattle.lq_model.specs.TakesBack.{maps};

    ghost rows = { λ at. (at.key.now, Some (list (maps T.rows at.maps.now))) ∷ [] };

    fn write(&self, to: &mut Canon) -> Result<(), NoMemory> {
        to.key(self.key)?;
        write_list(to, self.maps)
    }
}

/// The keys of both, one after the other.
impl<A: Written, B: Written> Written for (A, B) {
    ghost use Rattle.std.specs.Prelude.{◌++◌};

    ghost rows = { λ both. A.rows both.0 ++ B.rows both.1 };

    fn write(&self, to: &mut Canon) -> Result<(), NoMemory> {
        self.0.write(to)?;
        self.1.write(to)
    }
}

/// The keys of all three, one after the other.
impl<A: Written, B: Written, C: Written> Written for (A, B, C) {
    ghost use Rattle.std.specs.Prelude.{◌++◌};

    ghost rows = { λ all. A.rows all.0 ++ (B.rows all.1 ++ C.rows all.2) };

    fn write(&self, to: &mut Canon) -> Result<(), NoMemory> {
        self.0.write(to)?;
        self.1.write(to)?;
        self.2.write(to)
    }
}

fn write_named<T: Written>(to: &mut Canon, name: &str, keys: &T) -> Result<(), NoMemory>
    ensures written { OnOk result (to.new.written
        ≡ to.old.written ++ canonical_change (change_of name.now (T.rows keys.now))) }
    ensures begun { OnOk result (to.new.begun ≡ to.old.begun) }
    ensures front { OnErr result (GoesOn to.old to.new) }
{
    to.key(name)?;
    write_map(to, keys)
}

/// Appends the change of the type of that name with these keys, or nothing where there is no memory.
pub fn write_change_of<T: Written>(to: &mut Canon, name: &str, keys: &T) -> Result<(), NoMemory>
    ensures written { OnOk result (to.new.written
        ≡ to.old.written ++ canonical_change (change_of name.now (T.rows keys.now))) }
    ensures begun { OnOk result (to.new.begun ≡ to.old.begun) }
    ensures unchanged { OnErr result (to.new ≡ to.old) }
{
    let mark = to.mark();
    if write_named(to, name, keys).is_err() {
        to.go_back(mark);
        return Err(NoMemory);
    }
    Ok(())
}

/// The same for a change whose keys have neither maps nor lists of maps.
pub fn write_change(
    to: &mut Canon,
    name: &str,
    rows: &[(&str, Option<Field>)],
) -> Result<(), NoMemory>
    ensures written { OnOk result (to.new.written
        ≡ to.old.written
        ++ canonical_change (change_of name.now
        (map (λ row. (row.0.now, option_map field_value row.1)) rows.now))) }
    ensures begun { OnOk result (to.new.begun ≡ to.old.begun) }
    ensures unchanged { OnErr result (to.new ≡ to.old) }
{
    write_change_of(to, name, &Fields(rows))
}
