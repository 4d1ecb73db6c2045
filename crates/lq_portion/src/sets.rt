ghost use Rattle.std.specs.List.{All};
ghost use Rattle.std.specs.Prelude.{◌≡◌};
ghost use Rattle.lq_base.specs.declared.dialect.Dialect.{Dialect};
ghost use Rattle.lq_changelog.specs.Gathers.{HasShortTexts};
ghost use Rattle.lq_kinds.specs.ReadFor.{AreFor};
ghost use Rattle.lq_portion.specs.Portion.{first_sets, through};

use lq_base::cut;
use lq_front::keep_through;
use lq_kinds::Changelog;

/// The first changesets of the changelog alone, or all where it has no more.
pub fn first_sets(changelog: Changelog, count: usize) -> Changelog
    ensures part { result ≡ first_sets count changelog }
    ensures read { (d : Dialect) → AreFor d changelog → AreFor d result }
    ensures short { All HasShortTexts changelog.sets → All HasShortTexts result.sets }
{
    let mut part = changelog;
    keep_first(&mut part, count);
    part
}

fn keep_first(part: &mut Changelog, count: usize)
    ensures { part.new ≡ first_sets count part.old }
{
    if count < part.sets.len() {
        cut(&mut part.sets, count);
    }
}

/// The changesets up to and with the one at the place, from 0, or all where none stands there.
pub fn through(changelog: Changelog, place: usize) -> Changelog
    ensures part { result ≡ through changelog place }
    ensures read { (d : Dialect) → AreFor d changelog → AreFor d result }
    ensures short { All HasShortTexts changelog.sets → All HasShortTexts result.sets }
{
    let mut part = changelog;
    keep_through_set(&mut part, place);
    part
}

fn keep_through_set(part: &mut Changelog, place: usize)
    ensures { part.new ≡ through part.old place }
{
    keep_through(&mut part.sets, place);
}
