ghost use Rattle.std.specs.Prelude.{◌≡◌};
ghost use Rattle.lq_kinds.specs.ChangeSets.{is_label};

use lq_base::{KindFault, Text, char_count, has_control};
use lq_tree::{Given, Node, Reader, bad};
use std::alloc::Global;

/// Whether a text can be an id, an author or a path of a changeset: it has 1 to 255 characters, and
/// none is a control character.
pub fn is_label(text: &str) -> bool
    ensures { result ≡ is_label text.now }
{
    let count = char_count(text);
    1 <= count && count <= 255 && !has_control(text)
}

/// Reads ids and authors.
#[derive(Drop)]
pub struct Labels;

impl Reader for Labels {
    ghost use Rattle.lq_kinds.specs.ChangeSets.{a_label, is_label};

    type Read = Text;

    ghost of = { λ _. a_label };

    ghost fits = { λ _. is_label };

    fn read(&self, alloc: Global, node: &Node) -> Result<Text, KindFault> {
        let text = Text::given(alloc, node)?;
        if !is_label(text.as_str()) {
            return Err(bad(alloc));
        }
        Ok(text)
    }
}
