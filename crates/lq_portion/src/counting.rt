ghost use Rattle.std.specs.List.{All};
ghost use Rattle.std.specs.Prelude.{◌≡◌, List, if◌then◌else◌, length, nat_lt, suc};
ghost use Rattle.lq_base.specs.declared.dialect.Dialect.{Dialect};
ghost use Rattle.lq_base.specs.declared.tracking.Tracked.{Tracked as Row};
ghost use Rattle.lq_changelog.specs.Gathers.{HasShortTexts};
ghost use Rattle.lq_expr.specs.declared.options.Options.{Options};
ghost use Rattle.lq_kinds.specs.ReadFor.{AreFor};
ghost use Rattle.lq_any.specs.declared.any_change.AnyChange.{AnyChange};
ghost use Rattle.lq_plan.specs.Told.{work};
ghost use Rattle.lq_portion.specs.Portion.{counted, up_to};
ghost use Rattle.lq_seen.specs.View.{view_log};
ghost use Rattle.lq_turns.specs.Set.{Set};

use crate::sets::first_sets;
use lq_front::is_to_run;
use lq_kinds::Changelog;
use lq_plan::Item;

/// The changelog up to and with the changeset with which `count` of those run whose turn is new or
/// again, or the whole where fewer do (Liquibase's documentation, "update-count"). The turns are those
/// that its changesets have.
pub fn counted(changelog: Changelog, count: u64, turns: &[Item]) -> Changelog
    ensures part { (options : Options) (rows : List Row)
        → turns.now ≡ work (view_log options changelog).sets rows
        → result ≡ counted count options changelog rows }
    ensures read { (d : Dialect) → AreFor d changelog → AreFor d result }
    ensures short { All HasShortTexts changelog.sets → All HasShortTexts result.sets }
{
    let place = place_in(turns, count, changelog.sets.len());
    first_sets(changelog, place)
}

// Behind the turn with which so many run, or behind all changesets.
fn place_in(turns: &[Item], count: u64, all: usize) -> usize
    ensures { (xs : List (Set AnyChange)) (rows : List Row)
        → turns.now ≡ work xs rows
        → all ≡ length xs
        → result ≡ up_to count xs rows }
{
    if count == 0 {
        return 0;
    }
    let mut left = count;
    let mut rest = turns;
    while let [item, after @ ..] = rest {
        rest = after;
        if !is_to_run(item.what) {
            continue;
        }
        if left == 1 {
            return behind(item.index, all);
        }
        left -= 1;
    }
    all
}

fn behind(place: usize, all: usize) -> usize
    ensures { result ≡ (if nat_lt place all then suc place else all) }
{
    if place < all { place + 1 } else { all }
}
