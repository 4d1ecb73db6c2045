ghost use Rattle.std.specs.Prelude.{◌≡◌, map};
ghost use Rattle.std.specs.List.{list_all, list_any};
ghost use Rattle.lq_expr.specs.declared.expr.ExprFault.TheVariants.{OutOfMemory};
ghost use Rattle.lq_expr.specs.Spelled.{holds, is_same_name};

use lq_base::{Boxed, Items, NoMemory, Text};
use std::alloc::{AllocError, AllocFailed};
use thiserror::Error;

/// An expression over names, as `!test and (dev or qa), prod`.
pub enum Expr {
    /// The name is among those given, whatever the case of its ASCII letters is.
    Name(Text),
    Not(Boxed<Expr>),
    All(Items<Expr>),
    Any(Items<Expr>),
}

// Written out, so that each place that lets one go is one call.
impl Drop for Expr {
    fn drop(self) {
        match self {
            Expr::Name(it) => drop(it),
            Expr::Not(it) => drop(it),
            Expr::All(it) => drop(it),
            Expr::Any(it) => drop(it),
        }
    }
}

/// Why a text is no expression.
#[derive(Clone, Copy, Debug, PartialEq, Eq, Error)]
pub enum ExprFault {
    #[error("not an expression")]
    NotExpr,
    #[error("out of memory")]
    OutOfMemory,
}

impl From<NoMemory> for ExprFault {
    ghost from_gives = { λ _ e. e ≡ OutOfMemory };

    fn from(_: NoMemory) -> ExprFault {
        ExprFault::OutOfMemory
    }
}

impl From<AllocError> for ExprFault {
    ghost from_gives = { λ _ e. e ≡ OutOfMemory };

    fn from(_: AllocError) -> ExprFault {
        ExprFault::OutOfMemory
    }
}

impl<T: Drop> From<AllocFailed<T>> for ExprFault {
    ghost from_gives = { λ _ e. e ≡ OutOfMemory };

    fn from(_: AllocFailed<T>) -> ExprFault {
        ExprFault::OutOfMemory
    }
}

impl Expr {
    /// The value of the expression where these names, and no others, are given.
    #[cycle(holds)]
    pub fn holds(&self, names: &[Text]) -> bool
        ensures { result ≡ holds names.now self.now }
    {
        match self {
            Expr::Name(name) => is_among(name.as_str(), names),
            Expr::Not(inner) => !inner.get().holds(names),
            Expr::All(parts) => all_hold(parts.as_slice(), names),
            Expr::Any(parts) => some_holds(parts.as_slice(), names),
        }
    }
}

#[cycle(holds)]
fn all_hold(parts: &[Expr], names: &[Text]) -> bool
    ensures { result ≡ list_all (λ value. value) (map (holds names.now) parts.now) }
{
    for part in parts {
        if !part.holds(names) {
            return false;
        }
    }
    true
}

#[cycle(holds)]
fn some_holds(parts: &[Expr], names: &[Text]) -> bool
    ensures { result ≡ list_any (λ value. value) (map (holds names.now) parts.now) }
{
    for part in parts {
        if part.holds(names) {
            return true;
        }
    }
    false
}

fn is_among(name: &str, names: &[Text]) -> bool
    ensures { result ≡ list_any (is_same_name name.now) names.now }
{
    for given in names {
        if is_same_name(name, given.as_str()) {
            return true;
        }
    }
    false
}

#[tactic(auto, unfolding(crate::specs::Spelled::is_same_name))]
fn is_same_name(name: &str, other: &str) -> bool
    ensures { result ≡ is_same_name name.now other.now }
{
    name.eq_ignore_ascii_case(other)
}
