ghost use Rattle.std.specs.Prelude.{◌≡◌};
ghost use Rattle.lq_marks.specs.Enclosed.{is_enclosed};

use lq_base::LexemeSort;

/// Whether no delimiter counts in a lexeme of this sort.
pub fn is_enclosed(sort: LexemeSort) -> bool
    ensures { result ≡ is_enclosed sort }
{
    match sort {
        LexemeSort::LineComment | LexemeSort::BlockComment | LexemeSort::Name | LexemeSort::Text =>
            true,
        _ => false,
    }
}
