use crate::{chains, copies, expressions, properties, trees, values, words};
use lq_base::NoMemory;
use std::alloc::Global;
use tests_table::{Kinds, no_kind, text};

/// The kinds of rows on what everything is written in.
#[derive(Clone, Copy)]
pub struct ValueKinds;

impl Kinds for ValueKinds {
    fn outcome(&self, alloc: Global, kind: &str, given: &[&str]) -> Result<String, NoMemory> {
        match given {
            [] => outcome_of_none(alloc, kind),
            [one] => outcome_of_one(alloc, kind, one),
            [one, two] => outcome_of_two(alloc, kind, one, two),
            [one, two, three] => outcome_of_three(alloc, kind, one, two, three),
            _ => no_kind(alloc),
        }
    }
}

fn outcome_of_none(alloc: Global, kind: &str) -> Result<String, NoMemory> {
    match kind {
        "fixed words" => words::fixed(alloc),
        "lowest" => trees::lowest(alloc),
        "lent parts" => trees::lent(alloc),
        "no clone" => chains::no_clone(alloc),
        "many" => chains::many(alloc),
        _ => no_kind(alloc),
    }
}

fn outcome_of_one(alloc: Global, kind: &str, one: &str) -> Result<String, NoMemory> {
    match kind {
        "number" => values::number(alloc, one),
        "whole" => values::whole(alloc, one),
        "kind" => values::kind(alloc, one),
        "moment" => values::moment(alloc, one),
        "printed moment" => values::printed_moment(alloc, one),
        "name" => words::name(alloc, text(alloc, one)?.as_str()),
        "reason" => words::reason(alloc, one),
        "copy" => copies::copy(alloc, one),
        "json" => trees::json(alloc, one),
        "nested json" => trees::nested_json(alloc, one),
        "yaml" => trees::yaml(alloc, one),
        "yaml steps" => trees::yaml_steps(alloc, one),
        "expression" => expressions::read(alloc, one),
        "chain" => chains::steps(alloc, one),
        _ => no_kind(alloc),
    }
}

fn outcome_of_two(alloc: Global, kind: &str, one: &str, two: &str) -> Result<String, NoMemory> {
    match kind {
        "into" => values::into(alloc, one, two),
        "fixed" => values::fixed(alloc, one, two),
        "is kind" => values::is_kind(alloc, one, two),
        "names in order" => words::name_order(alloc, one, two),
        "texts in order" => words::text_order(alloc, one, two),
        "told" => trees::told(alloc, one, two),
        "unknown" => trees::unknown(alloc, one, two),
        "yaml dashes" => trees::yaml_dashes(alloc, one, two),
        "holds" => expressions::holds(alloc, one, two),
        _ => no_kind(alloc),
    }
}

fn outcome_of_three(
    alloc: Global,
    kind: &str,
    one: &str,
    two: &str,
    three: &str,
) -> Result<String, NoMemory> {
    match kind {
        "identity" => words::identity_line(alloc, one, two, three),
        "nested expression" => expressions::nested(alloc, one, two, three),
        "properties" => properties::replaced(alloc, one, two, three),
        "property" => properties::value(alloc, one, two, three),
        _ => no_kind(alloc),
    }
}
