ghost use Rattle.std.specs.Option.{option_copied};
ghost use Rattle.std.specs.Prelude.{◌≡◌, IfOk, true};
ghost use Rattle.lq_base.specs.Number.{if_there};
ghost use Rattle.lq_tree.specs.Look.{Reads};
ghost use Rattle.lq_tree.specs.Values.{is_given};
ghost use Rattle.lq_value_keys.specs.ValueKeys.{default_keys, default_rows, rows_at, value_keys, value_rows};

use lq_base::{KindFault, NoMemory};
use lq_model::{Canon, Field, Fields, Written};
use lq_tree::{GivenValue, Node, family};
use std::alloc::Global;

/// What `defaultValue` and the like state.
pub fn default_value(alloc: Global, node: &Node) -> Result<Option<GivenValue>, KindFault>
    ensures read { Reads (default_keys.says node.now) result }
    ensures fits { IfOk result (λ given. if_there is_given given ≡ true) }
{
    family(
        alloc,
        node,
        "defaultValue",
        "defaultValueNumeric",
        "defaultValueBoolean",
        "defaultValueDate",
    )
}

/// What `value` and the like state.
pub fn stated_value(alloc: Global, node: &Node) -> Result<Option<GivenValue>, KindFault>
    ensures read { Reads (value_keys.says node.now) result }
    ensures fits { IfOk result (λ given. if_there is_given given ≡ true) }
{
    family(
        alloc,
        node,
        "value",
        "valueNumeric",
        "valueBoolean",
        "valueDate",
    )
}

/// A value with the keys of which one states it, to be written where there is one.
#[derive(Drop)]
pub struct ValueAt<'a> {
    text: &'a str,
    number: &'a str,
    truth: &'a str,
    date: &'a str,
    value: Option<&'a GivenValue>,
}

impl Written for ValueAt<'_> {
    ghost use Rattle.lq_value_keys.specs.ValueKeys.{rows_at};

    ghost rows = { rows_at };

    fn write(&self, to: &mut Canon) -> Result<(), NoMemory> {
        let Some(value) = self.value else {
            return Ok(());
        };
        match value {
            GivenValue::Text(text) => {
                Fields(&[(self.text, Some(Field::Text(text.as_str())))]).write(to)
            }
            GivenValue::Whole(number) => {
                Fields(&[(self.number, Some(Field::Number(*number)))]).write(to)
            }
            GivenValue::Decimal { units, scale } => Fields(&[(
                self.number,
                Some(Field::Decimal {
                    units: *units,
                    scale: *scale,
                }),
            )])
            .write(to),
            GivenValue::Truth(truth) => {
                Fields(&[(self.truth, Some(Field::Truth(*truth)))]).write(to)
            }
            GivenValue::Date(text) => {
                Fields(&[(self.date, Some(Field::Text(text.as_str())))]).write(to)
            }
        }
    }
}

/// A default with its keys.
pub fn default_at(value: Option<&GivenValue>) -> ValueAt
    ensures { rows_at result ≡ default_rows (option_copied value.entry) }
{
    ValueAt {
        text: "defaultValue",
        number: "defaultValueNumeric",
        truth: "defaultValueBoolean",
        date: "defaultValueDate",
        value,
    }
}

/// A value with its keys.
pub fn value_at(value: Option<&GivenValue>) -> ValueAt
    ensures { rows_at result ≡ value_rows (option_copied value.entry) }
{
    ValueAt {
        text: "value",
        number: "valueNumeric",
        truth: "valueBoolean",
        date: "valueDate",
        value,
    }
}
