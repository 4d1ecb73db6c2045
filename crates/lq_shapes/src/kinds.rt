ghost use Rattle.std.specs.Prelude.{◌≡◌};
ghost use Rattle.lq_model.specs.Kinds.{equal_kinds, is_number, same_kind};

use lq_base::Kind;

/// Whether two kinds are the same, with their sizes.
pub fn equal_kinds(a: Kind, b: Kind) -> bool
    ensures { result ≡ equal_kinds a b }
{
    match (a, b) {
        (Kind::Int, Kind::Int) => true,
        (Kind::BigInt, Kind::BigInt) => true,
        (Kind::Boolean, Kind::Boolean) => true,
        (Kind::Text, Kind::Text) => true,
        (Kind::Moment, Kind::Moment) => true,
        (Kind::Varchar(a), Kind::Varchar(b)) => a == b,
        (Kind::Decimal(digits, scale), Kind::Decimal(others, other)) => {
            digits == others && scale == other
        }
        _ => false,
    }
}

/// Whether there are two kinds, and they are equal.
pub fn same_kind(a: Option<Kind>, b: Option<Kind>) -> bool
    ensures { result ≡ same_kind a b }
{
    match (a, b) {
        (Some(a), Some(b)) => equal_kinds(a, b),
        _ => false,
    }
}

/// Whether the kind is INT or BIGINT, which a numbered column may have.
pub fn is_number(kind: Kind) -> bool
    ensures { result ≡ is_number kind }
{
    match kind {
        Kind::Int => true,
        Kind::BigInt => true,
        _ => false,
    }
}
