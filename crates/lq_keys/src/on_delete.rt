ghost use Rattle.std.specs.Prelude.{◌≡◌, option_map};
ghost use Rattle.lq_model.specs.Changes.{text};
ghost use Rattle.lq_model.specs.TakesBack.{field_value};
ghost use Rattle.lq_keys.specs.OnDelete.{cascades, on_delete_of, words};

use lq_base::KindFault;
use lq_model::Field;
use lq_tree::{Given, Node, bad};
use std::alloc::Global;

/// What a foreign key states of the deletion of the row that a row targets.
#[derive(Clone, Copy)]
pub enum OnDelete {
    NoAction,
    Restrict,
    /// The row is deleted too.
    Cascade,
}

fn on_delete_of(text: &str) -> Option<OnDelete>
    ensures { result ≡ on_delete_of text.now }
{
    match text {
        "NO ACTION" => Some(OnDelete::NoAction),
        "RESTRICT" => Some(OnDelete::Restrict),
        "CASCADE" => Some(OnDelete::Cascade),
        _ => None,
    }
}

/// One of the texts `NO ACTION`, `RESTRICT` and `CASCADE`.
impl Given for OnDelete {
    ghost use Rattle.std.specs.Prelude.{true};
    ghost use Rattle.lq_keys.specs.OnDelete.{an_on_delete};

    ghost of = { an_on_delete };

    ghost fits = { λ _. true };

    fn given(alloc: Global, node: &Node) -> Result<OnDelete, KindFault> {
        let Some(text) = node.as_text() else {
            return Err(bad(alloc));
        };
        match on_delete_of(text) {
            Some(found) => Ok(found),
            None => Err(bad(alloc)),
        }
    }
}

fn words(stated: OnDelete) -> &'static str
    ensures { result.now ≡ words stated }
{
    match stated {
        OnDelete::NoAction => "NO ACTION",
        OnDelete::Restrict => "RESTRICT",
        OnDelete::Cascade => "CASCADE",
    }
}

/// What canonical text has of it, where it was given.
pub(crate) fn on_delete_field(found: Option<OnDelete>) -> Option<Field<'static>>
    ensures { option_map field_value result ≡ option_map (λ o. text (words o)) found }
{
    match found {
        Some(stated) => Some(Field::Text(words(stated))),
        None => None,
    }
}

/// Whether deleting the target's row deletes the row too.
pub(crate) fn cascades(stated: Option<OnDelete>) -> bool
    ensures { result ≡ cascades stated }
{
    match stated {
        Some(OnDelete::Cascade) => true,
        _ => false,
    }
}
