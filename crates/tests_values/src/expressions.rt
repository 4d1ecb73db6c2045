use lq_base::{Items, NoMemory, Text};
use lq_expr::{Expr, ExprFault, parse};
use std::alloc::{AllocError, Global};
use tests_table::{count, text};

// The expression as one text: `any` and `all` with their parts in brackets, `not` before its part.
#[cycle(show)]
fn show(out: &mut String, expr: &Expr) -> Result<(), AllocError> {
    match expr {
        Expr::Name(name) => out.push_str(name.as_str())?,
        Expr::Not(inner) => {
            out.push_str("not ")?;
            show(out, inner.get())?;
        }
        Expr::All(parts) => {
            out.push_str("all[")?;
            show_all(out, parts)?;
        }
        Expr::Any(parts) => {
            out.push_str("any[")?;
            show_all(out, parts)?;
        }
    }
    Ok(())
}

#[cycle(show)]
fn show_all(out: &mut String, parts: &Items<Expr>) -> Result<(), AllocError> {
    for part in parts.as_slice() {
        out.push_str(" ")?;
        show(out, part)?;
    }
    out.push_str("]")
}

fn fault(alloc: Global, of: ExprFault) -> Result<String, NoMemory> {
    match of {
        ExprFault::NotExpr => Ok(String::from_str(alloc, "no")?),
        ExprFault::OutOfMemory => Err(NoMemory),
    }
}

/// The expression that a text is read as.
pub fn read(alloc: Global, field: &str) -> Result<String, NoMemory> {
    match parse(alloc, text(alloc, field)?.as_str()) {
        Ok(expr) => {
            let mut out = String::new(alloc);
            show(&mut out, &expr)?;
            Ok(out)
        }
        Err(of) => fault(alloc, of),
    }
}

/// Whether a text of `front` so many times, `a`, and `back` as many times is read.
pub fn nested(alloc: Global, levels: &str, front: &str, back: &str) -> Result<String, NoMemory> {
    let mut made = String::new(alloc);
    for _level in 0..count(levels) {
        made.push_str(front)?;
    }
    made.push_str("a")?;
    for _level in 0..count(levels) {
        made.push_str(back)?;
    }
    match parse(alloc, made.as_str()) {
        Ok(_) => Ok(String::from_str(alloc, "read")?),
        Err(of) => fault(alloc, of),
    }
}

fn names(alloc: Global, field: &str) -> Result<Items<Text>, NoMemory> {
    let mut given = Items::new(alloc);
    for name in field.split(',') {
        if !name.is_empty() {
            given.push(Text::new(alloc, name)?)?;
        }
    }
    Ok(given)
}

/// Whether an expression holds for the names, which stand with commas between them.
pub fn holds(alloc: Global, of: &str, field: &str) -> Result<String, NoMemory> {
    let given = names(alloc, field)?;
    match parse(alloc, text(alloc, of)?.as_str()) {
        Ok(expr) => Ok(format!(in alloc; "{}", expr.holds(given.as_slice()))?),
        Err(of) => fault(alloc, of),
    }
}
