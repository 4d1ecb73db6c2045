ghost use Rattle.std.specs.Prelude.{◌≡◌, IfOk};
ghost use Rattle.lq_base.specs.Value.{into_kind};
ghost use Rattle.lq_model.specs.Kinds.{is_wide, is_wrong, literal_of, value_in};
ghost use Rattle.lq_shapes.specs.Created.{IsColumn, IsStated};

use lq_base::{Duplicate, IntoFault, Kind, Literal, NoMemory, Value, into_kind};
use lq_model::{Column, ColumnDef};
use std::alloc::Global;

/// What a literal becomes in a kind: null where it does not go into it.
#[derive(Drop)]
pub struct Stated {
    pub value: Value,
    pub is_wrong: bool,
    pub is_wide: bool,
}

/// The value that the literal becomes in a column of the kind, or which reason is against it.
pub fn convert(alloc: Global, literal: &Literal, kind: Kind) -> Result<Stated, NoMemory>
    ensures { IfOk result (λ it. IsStated (into_kind literal.now kind) it) }
{
    match into_kind(alloc, literal, kind) {
        Ok(value) => Ok(Stated {
            value,
            is_wrong: false,
            is_wide: false,
        }),
        Err(IntoFault::WrongKind) => Ok(Stated {
            value: Value::Null,
            is_wrong: true,
            is_wide: false,
        }),
        Err(IntoFault::TooWide) => Ok(Stated {
            value: Value::Null,
            is_wrong: false,
            is_wide: true,
        }),
        Err(IntoFault::OutOfMemory) => Err(NoMemory),
    }
}

/// The column that is made of what a statement says, and whether its default goes into its kind.
#[derive(Drop)]
pub struct NewColumn {
    pub column: Column,
    pub is_wrong: bool,
    pub is_wide: bool,
}

/// The column that a statement describes, with its default as a value of its kind.
#[tactic(auto, using(crate::proofs::StatedLemmas::without_default, crate::proofs::StatedLemmas::with_default))]
pub fn new_column(alloc: Global, def: &ColumnDef) -> Result<NewColumn, NoMemory>
    ensures { IfOk result (λ new. IsColumn def.now new) }
{
    let name = def.name.duplicate(alloc)?;
    match &def.default {
        None => Ok(NewColumn {
            column: Column {
                name,
                kind: def.kind,
                nullable: def.nullable,
                default: None,
                numbered: def.numbered,
            },
            is_wrong: false,
            is_wide: false,
        }),
        Some(literal) => {
            let stated = convert(alloc, literal, def.kind)?;
            Ok(NewColumn {
                column: Column {
                    name,
                    kind: def.kind,
                    nullable: def.nullable,
                    default: Some(stated.value),
                    numbered: def.numbered,
                },
                is_wrong: stated.is_wrong,
                is_wide: stated.is_wide,
            })
        }
    }
}
