ghost use Rattle.std.specs.Prelude.{◌≡◌};
ghost use Rattle.lq_seen.specs.View.{is_met, is_selected};

use lq_base::Text;
use lq_expr::{Expr, Options};
use lq_kinds::ChangeSet;

/// Whether a command with these options selects the changeset (Liquibase's documentation,
/// "Contexts", "Labels"): it is for the dialect, its context holds for the command's names, and the
/// command's label expression holds for its labels.
pub fn is_selected(set: &ChangeSet, options: &Options) -> bool
    ensures { result ≡ is_selected options.now set.now }
{
    set.here
        && is_met(&set.context, options.contexts.as_slice())
        && is_met(&options.labels, set.labels.as_slice())
}

/// Whether the expression holds for the names, or one of the two is missing.
fn is_met(expression: &Option<Expr>, names: &[Text]) -> bool
    ensures { result ≡ is_met expression.now names.now }
{
    match expression {
        Some(expression) => names.is_empty() || expression.holds(names),
        None => true,
    }
}
