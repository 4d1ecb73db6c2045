ghost use Rattle.std.specs.Prelude.{◌≡◌, IfOk};

use lq_base::{Boxed, Duplicate, Items, NoMemory, Text};
use lq_commands::Given;
use lq_expr::{Expr, Options};
use lq_turns::Stamp;
use std::alloc::Global;

/// What a command works with, for one more run: the changelog is shared, all else is copied.
pub fn once_more(alloc: Global, given: &Given) -> Result<Given, NoMemory>
    ensures { IfOk result (λ more. more ≡ given.now) }
{
    let changelog = given.changelog.again()?;
    let options = copy_options(alloc, &given.options)?;
    let stamp = copy_stamp(alloc, &given.stamp)?;
    Ok(Given {
        changelog,
        options,
        stamp,
    })
}

fn copy_stamp(alloc: Global, stamp: &Stamp) -> Result<Stamp, NoMemory>
    ensures { IfOk result (λ copy. copy ≡ stamp.now) }
{
    let who = stamp.who.copy(alloc)?;
    Ok(Stamp {
        who,
        reading: stamp.reading,
    })
}

fn copy_options(alloc: Global, options: &Options) -> Result<Options, NoMemory>
    ensures { IfOk result (λ copy. copy ≡ options.now) }
{
    let contexts: Items<Text> = options.contexts.duplicate(alloc)?;
    let labels = copy_labels(alloc, &options.labels)?;
    Ok(Options {
        dialect: options.dialect,
        contexts,
        labels,
    })
}

fn copy_labels(alloc: Global, labels: &Option<Expr>) -> Result<Option<Expr>, NoMemory>
    ensures { IfOk result (λ copy. copy ≡ labels.now) }
{
    match labels {
        Some(labels) => {
            let copy = copy_expr(alloc, labels)?;
            Ok(Some(copy))
        }
        None => Ok(None),
    }
}

#[cycle(copies)]
fn copy_expr(alloc: Global, expr: &Expr) -> Result<Expr, NoMemory>
    ensures { IfOk result (λ copy. copy ≡ expr.now) }
{
    match expr {
        Expr::Name(name) => {
            let copy = name.copy(alloc)?;
            Ok(Expr::Name(copy))
        }
        Expr::Not(inner) => {
            let copy = copy_expr(alloc, inner.get())?;
            Ok(Expr::Not(Boxed::new(alloc, copy)?))
        }
        Expr::All(parts) => {
            let copies = copy_all(alloc, parts.as_slice())?;
            Ok(Expr::All(copies))
        }
        Expr::Any(parts) => {
            let copies = copy_all(alloc, parts.as_slice())?;
            Ok(Expr::Any(copies))
        }
    }
}

#[cycle(copies)]
fn copy_all(alloc: Global, parts: &[Expr]) -> Result<Items<Expr>, NoMemory>
    ensures { IfOk result (λ copies. copies ≡ parts.now) }
{
    let mut copies = Items::new(alloc);
    for part in parts {
        let copy = copy_expr(alloc, part)?;
        copies.push(copy)?;
    }
    Ok(copies)
}
