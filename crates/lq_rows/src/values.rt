ghost use Rattle.std.specs.Prelude.{◌≡◌};
ghost use Rattle.lq_rows.specs.Stored.{sort_rank, whole_part, scale_part, text_part, value_cmp, values_cmp};

use lq_base::{Items, Value};
use std::cmp::Ordering;
use std::marker::Model;

/// A row's values in some columns, by which it is looked for.
#[derive(Drop)]
pub struct Values {
    items: Items<Value>,
}

impl Model for Values {
    ghost use Rattle.std.specs.Prelude.{List};
    ghost use Rattle.lq_base.specs.declared.value.Value.{Value as Held};

    ghost Value = { List Held };

    ghost view = { λ v. v.items };
}

impl Values {
    pub fn new(items: Items<Value>) -> Values
        ensures { result ≡ items }
    {
        Values { items }
    }
}

impl PartialEq for Values {
    ghost use Rattle.std.specs.Ordering.{eq_by_cmp};
    ghost use Rattle.lq_rows.specs.Stored.{values_cmp, values_total};
    ghost use Rattle.std.proofs.Common.{rules};
    ghost use Rattle.std.specs.Cmp.Rules.{comparing};

    ghost eq = { eq_by_cmp values_cmp };

    ghost laws = { Prim.search (values_total, comparing, rules) };

    fn eq(&self, other: &Values) -> bool {
        self.cmp(other).is_eq()
    }
}

impl Eq for Values {
    ghost use Rattle.std.proofs.Common.{rules};
    ghost use Rattle.std.specs.Cmp.Rules.{comparing};
    ghost use Rattle.lq_rows.specs.Stored.{values_total};

    ghost laws = { Prim.search (values_total, comparing, rules) };
}

impl PartialOrd for Values {
    ghost use Rattle.lq_rows.specs.Stored.{values_cmp, values_total};
    ghost use Rattle.std.specs.Cmp.{partial_order_from_own_ties};
    ghost use Rattle.std.specs.Ordering.{as_partial_cmp};
    ghost use Rattle.std.proofs.Common.{rules};
    ghost use Rattle.std.specs.Cmp.Rules.{comparing};

    ghost partial_cmp = { as_partial_cmp values_cmp };

    ghost laws = { partial_order_from_own_ties (Prim.search (values_total, comparing, rules)) (Prim.search (values_total, comparing, rules)) };

    fn partial_cmp(&self, other: &Values) -> Option<Ordering> {
        Some(self.cmp(other))
    }
}

impl Ord for Values {
    ghost use Rattle.lq_rows.specs.Stored.{values_cmp, values_total};
    ghost use Rattle.std.proofs.Common.{rules};
    ghost use Rattle.std.specs.Cmp.Rules.{comparing};

    ghost cmp = { values_cmp };

    ghost total = { Prim.search (values_total, comparing, rules) };

    ghost matches_partial_cmp = { Prim.search (values_total, comparing, rules) };

    ghost matches_eq = { Prim.search (values_total, comparing, rules) };

    fn cmp(&self, other: &Values) -> Ordering {
        compare(self.items.as_slice(), other.items.as_slice())
    }
}

fn compare(a: &[Value], b: &[Value]) -> Ordering
    ensures { result ≡ values_cmp a.now b.now }
{
    let mut left = b;
    for x in a {
        let Some((y, after)) = left.split_first() else {
            return Ordering::Greater;
        };
        let order = compare_one(x, y);
        if order != Ordering::Equal {
            return order;
        }
        left = after;
    }
    if left.is_empty() {
        Ordering::Equal
    } else {
        Ordering::Less
    }
}

fn compare_one(a: &Value, b: &Value) -> Ordering
    ensures { result ≡ value_cmp a.now b.now }
{
    match (a, b) {
        // Nearly all keys are whole numbers or texts.
        (Value::Int(a), Value::Int(b)) => a.cmp(b),
        (Value::Text(a), Value::Text(b)) => a.as_str().as_bytes().cmp(b.as_str().as_bytes()),
        _ => rank(a)
            .cmp(&rank(b))
            .then(whole(a).cmp(&whole(b)))
            .then(scale(a).cmp(&scale(b)))
            .then(text(a).cmp(text(b))),
    }
}

fn rank(value: &Value) -> u8
    ensures { result ≡ sort_rank value.now }
{
    match value {
        Value::Null => 0,
        Value::Int(_) => 1,
        Value::Text(_) => 2,
        Value::Bool(_) => 3,
        Value::Moment(_) => 4,
        Value::Fixed { .. } => 5,
    }
}

fn whole(value: &Value) -> i128
    ensures { result ≡ whole_part value.now }
{
    match value {
        Value::Int(n) => *n as i128,
        Value::Bool(true) => 1,
        Value::Moment(ms) => *ms as i128,
        Value::Fixed { units, .. } => *units,
        _ => 0,
    }
}

fn scale(value: &Value) -> u8
    ensures { result ≡ scale_part value.now }
{
    match value {
        Value::Fixed { scale, .. } => *scale,
        _ => 0,
    }
}

fn text(value: &Value) -> &[u8]
    ensures { result.now ≡ text_part value.now }
{
    match value {
        Value::Text(text) => text.as_str().as_bytes(),
        _ => &[],
    }
}
