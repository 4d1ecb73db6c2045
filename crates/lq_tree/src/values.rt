ghost use Rattle.std.specs.Prelude.{◌≡◌, IfOk, true};
ghost use Rattle.lq_base.specs.Number.{if_there};
ghost use Rattle.lq_tree.specs.Look.{Reads, or_bad, within};
ghost use Rattle.lq_tree.specs.Values.{a_value, family, is_given, literal_of, member, number_given};
ghost use Rattle.lq_tree.specs.declared.values.ValueKey.TheVariants as key;

use crate::found::{bad, bad_key, placed};
use crate::given::Given;
use crate::node::Node;
use lq_base::{KindFault, Literal, NoMemory, Text, moment_of, number_of};
use std::alloc::Global;

/// A value that a changelog states, by the key that states it.
pub enum GivenValue {
    Text(Text),
    Whole(i128),
    /// `units` divided by ten to the power `scale`.
    Decimal { units: i128, scale: u8 },
    Truth(bool),
    /// A text that is a moment.
    Date(Text),
}

// Written out, so that each place that lets one go is one call.
impl Drop for GivenValue {
    fn drop(self) {
        match self {
            GivenValue::Text(it) => drop(it),
            GivenValue::Whole(_) => (),
            GivenValue::Decimal { units: _, scale: _ } => (),
            GivenValue::Truth(_) => (),
            GivenValue::Date(it) => drop(it),
        }
    }
}

impl GivenValue {
    /// The literal that a statement has for it.
    pub fn literal(&self, alloc: Global) -> Result<Literal, NoMemory>
        ensures { IfOk result (λ made. made ≡ literal_of self.now) }
    {
        match self {
            GivenValue::Text(text) => Ok(Literal::Text(text.copy(alloc)?)),
            GivenValue::Whole(number) => Ok(Literal::Int(*number)),
            GivenValue::Decimal { units, scale } => Ok(Literal::Fixed {
                units: *units,
                scale: *scale,
            }),
            GivenValue::Truth(truth) => Ok(Literal::Bool(*truth)),
            GivenValue::Date(text) => Ok(Literal::Text(text.copy(alloc)?)),
        }
    }
}

/// The keys of a family, by what they take: `value`, `valueNumeric`, `valueBoolean`, `valueDate`.
#[derive(Clone, Copy, PartialEq, Eq)]
pub enum ValueKey {
    Text,
    Number,
    Truth,
    Date,
}

fn a_text(alloc: Global, node: &Node) -> Result<GivenValue, KindFault>
    ensures read { Reads (or_bad (a_value key.Text node.now)) result }
    ensures fits { IfOk result (λ given. is_given given ≡ true) }
{
    let text = Text::given(alloc, node)?;
    Ok(GivenValue::Text(text))
}

fn number_given(number: Literal) -> Option<GivenValue>
    ensures { result ≡ number_given number }
{
    match number {
        Literal::Int(whole, ..) => Some(GivenValue::Whole(whole)),
        Literal::Fixed { units, scale, .. } => Some(GivenValue::Decimal { units, scale }),
        _ => None,
    }
}

fn a_number(alloc: Global, node: &Node) -> Result<GivenValue, KindFault>
    ensures read { Reads (or_bad (a_value key.Number node.now)) result }
    ensures fits { IfOk result (λ given. is_given given ≡ true) }
{
    let text = Text::given(alloc, node)?;
    let Some(number) = number_of(text.as_str().as_bytes()) else {
        return Err(bad(alloc));
    };
    match number_given(number) {
        Some(given) => Ok(given),
        None => Err(bad(alloc)),
    }
}

fn a_truth(alloc: Global, node: &Node) -> Result<GivenValue, KindFault>
    ensures read { Reads (or_bad (a_value key.Truth node.now)) result }
    ensures fits { IfOk result (λ given. is_given given ≡ true) }
{
    match node.as_truth() {
        Some(truth) => Ok(GivenValue::Truth(truth)),
        None => Err(bad(alloc)),
    }
}

fn a_date(alloc: Global, node: &Node) -> Result<GivenValue, KindFault>
    ensures read { Reads (or_bad (a_value key.Date node.now)) result }
    ensures fits { IfOk result (λ given. is_given given ≡ true) }
{
    let Some(text) = node.as_text() else {
        return Err(bad(alloc));
    };
    if moment_of(text.as_bytes()).is_none() {
        return Err(bad(alloc));
    }
    Ok(GivenValue::Date(Text::new(alloc, text)?))
}

fn a_value(alloc: Global, takes: ValueKey, node: &Node) -> Result<GivenValue, KindFault>
    ensures read { Reads (or_bad (a_value takes node.now)) result }
    ensures fits { IfOk result (λ given. is_given given ≡ true) }
{
    match takes {
        ValueKey::Text => a_text(alloc, node),
        ValueKey::Number => a_number(alloc, node),
        ValueKey::Truth => a_truth(alloc, node),
        ValueKey::Date => a_date(alloc, node),
    }
}

fn placed_value(
    alloc: Global,
    name: &str,
    takes: ValueKey,
    node: &Node,
) -> Result<GivenValue, KindFault>
    ensures read { Reads (within name.now (or_bad (a_value takes node.now))) result }
    ensures fits { IfOk result (λ given. is_given given ≡ true) }
{
    match a_value(alloc, takes, node) {
        Ok(given) => Ok(given),
        Err(fault) => Err(placed(alloc, name, fault)),
    }
}

fn member(
    alloc: Global,
    node: &Node,
    name: &str,
    takes: ValueKey,
    found: Option<GivenValue>,
) -> Result<Option<GivenValue>, KindFault>
    requires { if_there is_given found ≡ true }
    ensures read { Reads (member name.now takes found node.now) result }
    ensures fits { IfOk result (λ given. if_there is_given given ≡ true) }
{
    let Some(value) = node.value_at(name) else {
        return Ok(found);
    };
    if found.is_some() {
        return Err(bad_key(alloc, name));
    }
    let given = placed_value(alloc, name, takes, value)?;
    Ok(Some(given))
}

/// The value that one of four keys states, of which one at most may be there: a second one is `Bad`.
pub fn family(
    alloc: Global,
    node: &Node,
    text: &str,
    number: &str,
    truth: &str,
    date: &str,
) -> Result<Option<GivenValue>, KindFault>
    ensures read { Reads ((family text.now number.now truth.now date.now).says node.now) result }
    ensures fits { IfOk result (λ given. if_there is_given given ≡ true) }
{
    let found = member(alloc, node, text, ValueKey::Text, None)?;
    let found = member(alloc, node, number, ValueKey::Number, found)?;
    let found = member(alloc, node, truth, ValueKey::Truth, found)?;
    member(alloc, node, date, ValueKey::Date, found)
}
