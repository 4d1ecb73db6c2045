ghost use Rattle.std.specs.Prelude.{◌≡◌, [], codes, if◌then◌else◌, IfOk};
ghost use Rattle.lq_laying.specs.Laying.{turn_of};
ghost use Rattle.lq_turns.specs.Turn.{mark_text};

use lq_base::{Dialect, Identity, NoMemory, Text, append_whole};
use std::alloc::Global;

/// How the statements of a turn are marked.
#[derive(Clone, Copy)]
pub struct Marking<'a> {
    pub dialect: Dialect,
    /// Who runs the command.
    pub who: &'a Text,
    pub identity: &'a Identity,
    pub in_transaction: bool,
    pub is_undo: bool,
}

/// `WHO|IDENTITY|NUMBER`, where a turn takes back `WHO|IDENTITY|undo NUMBER`.
pub fn mark_text(alloc: Global, marking: &Marking<'_>, number: usize) -> Result<Text, NoMemory>
    ensures { IfOk result
        (λ text. text ≡ mark_text marking.now.who.now (turn_of marking.now) number) }
{
    let mut text = marking.who.copy(alloc)?;
    text.push_str("|")?;
    marking.identity.append_to(&mut text)?;
    text.push_str("|")?;
    text.push_str(undo_word(marking.is_undo))?;
    append_whole(number as i128, &mut text)?;
    Ok(text)
}

fn undo_word(is_undo: bool) -> &'static str
    ensures { result.now ≡ (if is_undo then codes "undo " else []) }
{
    if is_undo { "undo " } else { "" }
}
