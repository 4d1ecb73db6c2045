ghost use Rattle.std.specs.Prelude.{◌++◌, ◌≡◌, IfOk, OnOk};
ghost use Rattle.lq_generate.specs.Types.{type_text};

use itoa::Buffer;
use lq_base::{Kind, NoMemory, Text};
use std::alloc::Global;

/// How a changelog names the kind.
pub fn type_text(alloc: Global, kind: Kind) -> Result<Text, NoMemory>
    ensures { IfOk result (λ text. text ≡ type_text kind) }
{
    let mut text = Text::new(alloc, "")?;
    append_type(kind, &mut text)?;
    Ok(text)
}

#[tactic(auto, unfolding(crate::specs::Types::type_text))]
fn append_type(kind: Kind, to: &mut Text) -> Result<(), NoMemory>
    ensures { OnOk result (to.new ≡ to.old ++ type_text kind) }
{
    match kind {
        Kind::Int => to.push_str("int"),
        Kind::BigInt => to.push_str("bigint"),
        Kind::Boolean => to.push_str("boolean"),
        Kind::Varchar(most) => {
            let mut buffer = Buffer::new();
            to.push_all(&["varchar(", buffer.format(most), ")"])
        }
        Kind::Text => to.push_str("text"),
        Kind::Moment => to.push_str("timestamp"),
        Kind::Decimal(digits, scale) => {
            let mut first = Buffer::new();
            let mut second = Buffer::new();
            let digits = first.format(digits);
            let scale = second.format(scale);
            to.push_all(&["decimal(", digits, ", ", scale, ")"])
        }
    }
}
