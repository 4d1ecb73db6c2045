ghost use Rattle.std.specs.Prelude.{◌≡◌, IfOk};
ghost use Rattle.lq_base.specs.Moment.{IsMoment, moment_text};
ghost use Rattle.lq_base.specs.Number.{fixed_text, whole_text};
ghost use Rattle.lq_cond.specs.Printed.{is_printed, truth_text};

use lq_base::{NoMemory, Text, Value, append_fixed, append_whole, is_moment, print_moment};
use std::alloc::Global;

fn truth_text(truth: bool) -> &'static str
    ensures { result.now ≡ truth_text truth }
{
    if truth { "true" } else { "false" }
}

fn whole(alloc: Global, number: i64) -> Result<Text, NoMemory>
    ensures { IfOk result (λ text. text ≡ whole_text number) }
{
    let mut text = Text::new(alloc, "")?;
    append_whole(i128::from(number), &mut text)?;
    Ok(text)
}

fn decimal(alloc: Global, units: i128, scale: u8) -> Result<Text, NoMemory>
    ensures { IfOk result (λ text. text ≡ fixed_text units scale) }
{
    let mut text = Text::new(alloc, "")?;
    append_fixed(alloc, units, scale, &mut text)?;
    Ok(text)
}

fn moment(alloc: Global, ms: i64) -> Result<Text, NoMemory>
    requires { IsMoment ms }
    ensures { IfOk result (λ text. text ≡ moment_text ms) }
{
    let mut text = Text::new(alloc, "")?;
    print_moment(ms, &mut text)?;
    Ok(text)
}

/// Whether the value prints as the text.
pub(crate) fn is_printed(alloc: Global, value: &Value, text: &str) -> Result<bool, NoMemory>
    ensures { IfOk result (λ same. same ≡ is_printed value.now text.now) }
{
    match value {
        Value::Null => Ok(text.is_empty()),
        Value::Int(number) => Ok(whole(alloc, *number)?.as_str() == text),
        Value::Text(value) => Ok(value.as_str() == text),
        Value::Bool(truth) => Ok(truth_text(*truth) == text),
        Value::Moment(ms) => if is_moment(*ms) {
            Ok(moment(alloc, *ms)?.as_str() == text)
        } else {
            Ok(false)
        },
        Value::Fixed { units, scale } => Ok(decimal(alloc, *units, *scale)?.as_str() == text),
    }
}
