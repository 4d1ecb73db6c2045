ghost use Rattle.std.specs.List.{All, position};
ghost use Rattle.std.specs.Prelude.{◌≡◌, IfSome};
ghost use Rattle.lq_base.specs.declared.dialect.Dialect.{Dialect};
ghost use Rattle.lq_changelog.specs.Gathers.{HasShortTexts};
ghost use Rattle.lq_kinds.specs.ReadFor.{AreFor};
ghost use Rattle.lq_portion.specs.Portion.{sets_tag, up_to_tag};
ghost use Rattle.lq_seen.specs.View.{tag_of};
ghost use Rattle.lq_turns.specs.Script.{has_tag};

use crate::sets::through;
use lq_base::Text;
use lq_kinds::{AnyChange, ChangeSet, Changelog};

/// The changelog up to and with the first changeset that is here and sets the tag (Liquibase's
/// documentation, "update-to-tag"): nothing where none does.
pub fn up_to_tag(changelog: Changelog, tag: &Text) -> Option<Changelog>
    ensures part { result ≡ up_to_tag tag.now changelog }
    ensures read { (d : Dialect) → AreFor d changelog → IfSome result (AreFor d) }
    ensures short { All HasShortTexts changelog.sets
        → IfSome result (λ part. All HasShortTexts part.sets) }
{
    match place_of(changelog.sets.as_slice(), tag) {
        Some(place) => Some(through(changelog, place)),
        None => None,
    }
}

fn place_of(sets: &[ChangeSet], tag: &Text) -> Option<usize>
    ensures { result ≡ position (sets_tag tag.now) sets.now }
{
    sets.iter().position(|set| sets_tag(set, tag))
}

fn sets_tag(set: &ChangeSet, tag: &Text) -> bool
    ensures { result ≡ sets_tag tag.now set.now }
{
    set.here && has_tag(set.changes.as_slice(), tag)
}

// The first tag that the changes set decides.
fn has_tag(changes: &[AnyChange], tag: &Text) -> bool
    ensures { result ≡ has_tag tag.now (tag_of changes.now) }
{
    let mut rest = changes;
    while let [change, after @ ..] = rest {
        if let AnyChange::TagDatabase(tagging) = change {
            return *tag == tagging.tag;
        }
        rest = after;
    }
    false
}
