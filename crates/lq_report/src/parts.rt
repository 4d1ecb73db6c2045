ghost use Rattle.std.specs.Fmt.{decimal};
ghost use Rattle.std.specs.Prelude.{◌≡◌, ◌++◌, OnOk};
ghost use Rattle.lq_base.specs.Name.{identity_text};
ghost use Rattle.lq_words.specs.Words.{place_text, why_text};

use lq_base::{Identity, NoMemory, Text, Why, append_whole};

/// Appends an identity between two texts.
pub(crate) fn append_named(
    before: &str,
    identity: &Identity,
    after: &str,
    to: &mut Text,
) -> Result<(), NoMemory>
    ensures { OnOk result
        (to.new ≡ to.old ++ (before.now ++ (identity_text identity.now ++ after.now))) }
{
    to.push_str(before)?;
    identity.append_to(to)?;
    to.push_str(after)
}

/// Appends a number between two texts.
pub(crate) fn append_counted(
    before: &str,
    count: u64,
    after: &str,
    to: &mut Text,
) -> Result<(), NoMemory>
    ensures { OnOk result (to.new ≡ to.old ++ (before.now ++ (decimal count ++ after.now))) }
{
    to.push_str(before)?;
    append_whole(i128::from(count), to)?;
    to.push_str(after)
}

/// Appends where a precondition stands, between two texts.
pub(crate) fn append_place(
    before: &str,
    place: Option<&Identity>,
    after: &str,
    to: &mut Text,
) -> Result<(), NoMemory>
    ensures { OnOk result
        (to.new ≡ to.old ++ (before.now ++ (place_text place.entry ++ after.now))) }
{
    match place {
        Some(identity) => append_named(before, identity, after, to),
        None => to.push_all(&[before, "the changelog", after]),
    }
}

/// Appends why a precondition stopped a run.
pub(crate) fn append_why(why: Why, to: &mut Text) -> Result<(), NoMemory>
    ensures { OnOk result (to.new ≡ to.old ++ why_text why) }
{
    match why {
        Why::Failed => to.push_str("precondition failed"),
        Why::Error(reason) => to.push_all(&["precondition error: ", reason.text()]),
    }
}
