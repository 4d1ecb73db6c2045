ghost use Rattle.std.specs.Prelude.{◌≡◌, IfOk, true};
ghost use Rattle.lq_tree.specs.Look.{Reads};
ghost use Rattle.lq_kinds.specs.ChangeSets.{context_at, is_blank_text};

use lq_base::{Items, KindFault, Text};
use lq_expr::{Expr, ExprFault, parse, parse_names};
use lq_tree::{Given, Node, Reader, bad, bad_key, optional_by};
use std::alloc::Global;

/// A context as it is written, with its expression. A text of blanks alone has none.
#[derive(Drop)]
pub struct Context {
    pub text: Text,
    pub expression: Option<Expr>,
}

/// Labels as they are written, and one by one.
#[derive(Drop)]
pub struct LabelNames {
    pub text: Text,
    pub names: Items<Text>,
}

/// Reads contexts (Liquibase's documentation, "Contexts").
#[derive(Drop)]
pub struct Contexts;

/// Reads labels (Liquibase's documentation, "Labels").
#[derive(Drop)]
pub struct LabelLists;

fn is_blank_text(text: &str) -> bool
    ensures { result ≡ is_blank_text text.now }
{
    text.bytes().all(|byte| byte == b' ' || byte == b'\t' || byte == b'\n' || byte == b'\r')
}

impl Reader for Contexts {
    ghost use Rattle.std.specs.Prelude.{true};
    ghost use Rattle.lq_kinds.specs.ChangeSets.{a_context};

    type Read = Context;

    ghost of = { λ _. a_context };

    ghost fits = { λ _ _. true };

    fn read(&self, alloc: Global, node: &Node) -> Result<Context, KindFault> {
        let text = Text::given(alloc, node)?;
        if is_blank_text(text.as_str()) {
            return Ok(Context {
                text,
                expression: None,
            });
        }
        match parse(alloc, text.as_str()) {
            Ok(expression) => Ok(Context {
                text,
                expression: Some(expression),
            }),
            Err(ExprFault::NotExpr) => Err(bad(alloc)),
            Err(ExprFault::OutOfMemory) => Err(KindFault::OutOfMemory),
        }
    }
}

impl Reader for LabelLists {
    ghost use Rattle.std.specs.Prelude.{true};
    ghost use Rattle.lq_kinds.specs.ChangeSets.{labels};

    type Read = LabelNames;

    ghost of = { λ _. labels };

    ghost fits = { λ _ _. true };

    fn read(&self, alloc: Global, node: &Node) -> Result<LabelNames, KindFault> {
        let text = Text::given(alloc, node)?;
        match parse_names(alloc, text.as_str()) {
            Ok(names) => Ok(LabelNames { text, names }),
            Err(ExprFault::NotExpr) => Err(bad(alloc)),
            Err(ExprFault::OutOfMemory) => Err(KindFault::OutOfMemory),
        }
    }
}

/// The context of a changeset, under either of its two names. Where both are there, the second is
/// bad.
#[tactic(auto, unfolding(crate::specs::ChangeSets::context_at))]
pub fn context_at(alloc: Global, node: &Node) -> Result<Option<Context>, KindFault>
    ensures { Reads (context_at node.now) result }
{
    let first = optional_by(alloc, node, "context", &Contexts)?;
    if first.is_none() {
        return optional_by(alloc, node, "contextFilter", &Contexts);
    }
    if node.value_at("contextFilter").is_some() {
        return Err(bad_key(alloc, "contextFilter"));
    }
    Ok(first)
}
