ghost use Rattle.std.specs.Prelude.{◌≡◌};
ghost use Rattle.lq_words.specs.Words.{did_text};

use lq_base::Did;

/// What was done with a changeset.
pub fn did_text(did: Did) -> &'static str
    ensures { result.now ≡ did_text did }
{
    match did {
        Did::Ran => "ran",
        Did::RanAgain => "ran again",
        Did::Marked => "marked",
        Did::Skipped => "skipped",
        Did::RolledBack => "rolled back",
    }
}
