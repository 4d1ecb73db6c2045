ghost use Rattle.std.specs.Option.{option_map};
ghost use Rattle.std.specs.Prelude.{◌≡◌};
ghost use Rattle.lq_model.specs.Changes.{kind_value, text, truth};
ghost use Rattle.lq_model.specs.TakesBack.{field_value, schema_row};

use lq_base::{Items, Kind, Name, Text};

/// What a key has in canonical text. `Name` and `NamesOf` say it of the name and the list themselves, so
/// that a contract needs no step from what `as_key` and `as_slice` answer.
#[derive(Clone, Copy)]
pub enum Field<'a> {
    Text(&'a str),
    Name(&'a Name),
    Number(i128),
    /// `units` divided by ten to the power `scale`.
    Decimal { units: i128, scale: u8 },
    Truth(bool),
    Kind(Kind),
    Names(&'a [Name]),
    NamesOf(&'a Items<Name>),
}

/// What a key with a text has, where it was given.
pub fn text_field(found: &Option<Text>) -> Option<Field>
    ensures { option_map field_value result ≡ option_map (λ t. text t) found.now }
{
    match found {
        Some(text) => Some(Field::Text(text.as_str())),
        None => None,
    }
}

/// What a key with a name has, where it was given.
pub fn name_field(found: &Option<Name>) -> Option<Field>
    ensures { option_map field_value result ≡ option_map (λ n. text n) found.now }
{
    match found {
        Some(name) => Some(Field::Text(name.as_key())),
        None => None,
    }
}

/// What a key with the schema of a name has: `public` is not stated.
pub fn schema_field(name: &Name) -> Option<Field<'_>>
    ensures { option_map field_value result ≡ schema_row name.now }
{
    if name.is_elsewhere() {
        Some(Field::Text(name.schema()))
    } else {
        None
    }
}

/// What a key with a truth value has, where it was given.
pub fn truth_field(found: Option<bool>) -> Option<Field<'static>>
    ensures { option_map field_value result ≡ option_map (λ b. truth b) found }
{
    match found {
        Some(truth) => Some(Field::Truth(truth)),
        None => None,
    }
}

/// What a key with a kind has, where it was given.
pub fn kind_field(found: Option<Kind>) -> Option<Field<'static>>
    ensures { option_map field_value result ≡ option_map kind_value found }
{
    match found {
        Some(kind) => Some(Field::Kind(kind)),
        None => None,
    }
}
