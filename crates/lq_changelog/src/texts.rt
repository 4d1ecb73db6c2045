ghost use Rattle.std.specs.Prelude.{◌≡◌, IfOk, IfSome, true};
ghost use Rattle.std.specs.Str.{IsUtf8};
ghost use Rattle.lq_base.specs.Number.{if_there};
ghost use Rattle.lq_kinds.specs.ChangeSets.{ReadsSet, set_of, is_label};
ghost use Rattle.lq_kinds.specs.ReadFor.{is_read_for};
ghost use Rattle.lq_changelog.specs.Gathers.{HasShortTexts};

use lq_base::{Dialect, Items, Text};
use lq_kinds::{ChangeSet, SetFault};
use lq_model::SqlText;
use lq_tree::Node;
use std::alloc::Global;

/// A `&str` is UTF-8. The function is empty: its contract is the law.
fn str_is_utf8(text: &str)
    ensures { IsUtf8 text.now }
{}

fn text_is_utf8(text: &Text)
    ensures { IsUtf8 text.now }
{
    str_is_utf8(text.as_str());
}

fn texts_are_utf8(set: &ChangeSet)
    ensures comment { IsUtf8 set.now.comment }
    ensures contexts { IsUtf8 set.now.context_text }
    ensures labels { IsUtf8 set.now.labels_text }
{
    text_is_utf8(&set.comment);
    text_is_utf8(&set.context_text);
    text_is_utf8(&set.labels_text);
}

/// The changeset of a map of its keys, in the file at a path, with the bytes of the files that it loads,
/// as far as they are given. Its texts are short.
pub fn read_set<P: SqlText>(
    alloc: Global,
    given: &[Items<u8>],
    path: &str,
    node: &Node,
    dialect: Dialect,
    sql: &P,
) -> Result<Option<ChangeSet>, SetFault>
    requires same { P.dialect ≡ dialect }
    requires label { is_label path.now ≡ true }
    ensures read { ReadsSet (set_of dialect path.now given.now node.now) result }
    ensures right { IfOk result (λ set. if_there (is_read_for dialect) set ≡ true) }
    ensures short { IfOk result (λ set. IfSome set HasShortTexts) }
{
    let found = ChangeSet::read(alloc, node, dialect, path, sql, given)?;
    let Some(set) = found else {
        return Ok(None);
    };
    texts_are_utf8(&set);
    Ok(Some(set))
}
