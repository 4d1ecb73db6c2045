ghost use Rattle.std.specs.Prelude.{◌≡◌, ◌++◌, ◌∷◌, [], IfSome, None};

use lq_model::Statement;

/// The statement that is taken back first, which is the last one, and those before it.
pub fn next_back(statements: &[Statement]) -> Option<(&Statement, &[Statement])>
    ensures last { IfSome result (λ it. statements.now ≡ it.1.now ++ it.0.now ∷ []) }
    ensures none { result ≡ None → statements.now ≡ [] }
{
    statements.split_last()
}
