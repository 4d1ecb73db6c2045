ghost use Rattle.std.specs.List.{AllByRecursion, list_all};
ghost use Rattle.std.specs.Option.{option_copied};
ghost use Rattle.std.specs.Prelude.{◌≡◌, ◌&&◌, true};
ghost use Rattle.lq_base.specs.Name.{is_name_key};
ghost use Rattle.lq_model.specs.Catalogue.{key_list};
ghost use Rattle.lq_named.specs.Named.{HasNames, TableHasNames, are_names, has_names};
ghost use Rattle.lq_parts.specs.Steps.{tables_of};

use lq_base::Name;
use lq_model::{Column, ForeignKey, Index, Key, Unique};
use lq_parts::{Parts, Sequence, View};
use lq_rows::Held;

fn a_name(name: &Name)
    ensures { is_name_key name.now ≡ true }
{
    let _key = name.as_key();
}

fn all_names(names: &[Name])
    ensures { are_names names.now ≡ true }
{
    for name in names {
        a_name(name);
    }
}

fn key_names(key: &Key)
    ensures { (is_name_key key.now.name && are_names key.now.columns) ≡ true }
{
    a_name(&key.name);
    all_names(key.columns.as_slice());
}

fn own_key_names(key: Option<&Key>)
    ensures { list_all (λ key. is_name_key key.name && are_names key.columns)
        (key_list (option_copied key.entry)) ≡ true }
{
    if let Some(key) = key {
        key_names(key);
    }
}

fn unique_names(unique: &Unique)
    ensures { (is_name_key unique.now.name && are_names unique.now.columns) ≡ true }
{
    a_name(&unique.name);
    all_names(unique.columns.as_slice());
}

fn all_uniques(uniques: &[Unique])
    ensures { list_all (λ unique. is_name_key unique.name && are_names unique.columns) uniques.now
        ≡ true }
{
    for unique in uniques {
        unique_names(unique);
    }
}

fn index_names(index: &Index)
    ensures { (is_name_key index.now.name && are_names index.now.columns) ≡ true }
{
    a_name(&index.name);
    all_names(index.columns.as_slice());
}

fn all_indexes(indexes: &[Index])
    ensures { list_all (λ index. is_name_key index.name && are_names index.columns) indexes.now
        ≡ true }
{
    for index in indexes {
        index_names(index);
    }
}

fn foreign_names(key: &ForeignKey)
    ensures { has_names key.now ≡ true }
{
    a_name(&key.name);
    a_name(&key.table);
    all_names(key.columns.as_slice());
    all_names(key.targets.as_slice());
}

fn all_foreign(keys: &[ForeignKey])
    ensures { list_all has_names keys.now ≡ true }
{
    for key in keys {
        foreign_names(key);
    }
}

fn all_columns(columns: &[Column])
    ensures { list_all (λ column. is_name_key column.name) columns.now ≡ true }
{
    for column in columns {
        a_name(&column.name);
    }
}

fn table_names(entry: &(Name, Held))
    ensures { TableHasNames (entry.now.0, entry.now.1.now) }
{
    a_name(&entry.0);
    all_columns(entry.1.columns());
    own_key_names(entry.1.key());
    all_uniques(entry.1.uniques());
    all_indexes(entry.1.indexes());
    all_foreign(entry.1.foreign_keys());
}

fn all_tables(tables: &[(Name, Held)])
    ensures { AllByRecursion TableHasNames (tables_of tables.now) }
{
    for entry in tables {
        table_names(entry);
    }
}

fn all_views(views: &[(Name, View)])
    ensures { list_all (λ view. is_name_key view.0) views.now ≡ true }
{
    for view in views {
        a_name(&view.0);
    }
}

fn all_sequences(sequences: &[(Name, Sequence)])
    ensures { list_all (λ sequence. is_name_key sequence.0) sequences.now ≡ true }
{
    for sequence in sequences {
        a_name(&sequence.0);
    }
}

/// Looks at each name of the objects, each of which is one by its type. What a catalogue is read from
/// does not say so of it; this does.
pub fn names_hold(parts: &Parts)
    ensures { HasNames parts.now.now }
{
    all_tables(parts.tables());
    all_views(parts.views());
    all_sequences(parts.sequences());
}
