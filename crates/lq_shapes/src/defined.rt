ghost use Rattle.std.specs.List.{filter, list_any};
ghost use Rattle.std.specs.Prelude.{◌≡◌, ◌∷◌, [], length};
ghost use Rattle.lq_model.specs.Tables.{depends_in, numbers_wrongly, repeats_number};
ghost use Rattle.lq_model.specs.Catalogue.{same_names};
ghost use Rattle.lq_model.specs.Sound.{is_key_of};

use crate::kinds::is_number;
use lq_base::Name;
use lq_model::{ColumnDef, Key};

/// Whether the key is of that column alone.
fn is_key_of(key: &Option<Key>, name: &Name) -> bool
    ensures { result ≡ is_key_of key.now name.now }
{
    match key {
        None => false,
        Some(key) => is_only(key.columns.as_slice(), name),
    }
}

fn is_only(names: &[Name], name: &Name) -> bool
    ensures { result ≡ same_names names.now (name.now ∷ []) }
{
    match names {
        [] => false,
        [first, rest @ ..] => *first == *name && are_none(rest),
    }
}

fn are_none(names: &[Name]) -> bool
    ensures { result ≡ same_names names.now [] }
{
    match names {
        [] => true,
        [_first, _rest @ ..] => false,
    }
}

fn depends_in(key: &Option<Key>, def: &ColumnDef) -> bool
    ensures { result ≡ depends_in key.now def.now }
{
    def.numbered && (def.default.is_some() || !is_key_of(key, &def.name))
}

/// Whether a numbered column has a default, or is not the only column of the key.
pub fn one_depends(key: &Option<Key>, defs: &[ColumnDef]) -> bool
    ensures { result ≡ list_any (depends_in key.now) defs.now }
{
    defs.iter().any(|def| depends_in(key, def))
}

fn numbers_wrongly(def: &ColumnDef) -> bool
    ensures { result ≡ numbers_wrongly def.now }
{
    def.numbered && !is_number(def.kind)
}

/// Whether a numbered column is not of a number's kind.
pub fn one_numbers_wrongly(defs: &[ColumnDef]) -> bool
    ensures { result ≡ list_any numbers_wrongly defs.now }
{
    defs.iter().any(|def| numbers_wrongly(def))
}

fn count_numbered(defs: &[ColumnDef]) -> usize
    ensures { result ≡ length (filter (λ d. d.numbered) defs.now) }
{
    defs.iter().filter(|def| def.numbered).count()
}

/// Whether two columns are numbered.
#[tactic(auto, using(crate::proofs::KindLemmas::above_one))]
pub fn repeats_number(defs: &[ColumnDef]) -> bool
    ensures { result ≡ repeats_number defs.now }
{
    count_numbered(defs) > 1
}
