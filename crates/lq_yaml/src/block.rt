ghost use Rattle.std.specs.Prelude.{◌≡◌, IfOk};
ghost use Rattle.lq_yaml.specs.Layout.{block_text, lines_text, line_end};
ghost use Rattle.lq_yaml.specs.Tree.{is_nil, without_last};

use crate::token::Chomping;
use lq_base::{NoMemory, Text};
use std::alloc::Global;

/// The text of a literal block.
pub fn block_text(alloc: Global, chomping: Chomping, lines: &[Text]) -> Result<Text, NoMemory>
    ensures { IfOk result (λ t. t ≡ block_text chomping lines.now) }
{
    lines_text(alloc, chomping, without_last_empty(lines))
}

/// The lines without the empty ones at their end.
fn without_last_empty(lines: &[Text]) -> &[Text]
    ensures { result.now ≡ without_last is_nil lines.now }
{
    let mut end = lines.len();
    while end > 0 && is_nothing(&lines[end - 1]) {
        end -= 1;
    }
    &lines[..end]
}

fn is_nothing(line: &Text) -> bool
    ensures { result ≡ is_nil line.now }
{
    line.as_str().is_empty()
}

fn lines_text(alloc: Global, chomping: Chomping, lines: &[Text]) -> Result<Text, NoMemory>
    ensures { IfOk result (λ t. t ≡ lines_text chomping lines.now) }
{
    let mut text = Text::new(alloc, "")?;
    let mut rest = lines;
    while let [line, more @ ..] = rest {
        text.push_str(line.as_str())?;
        text.push_str(line_end(chomping, more))?;
        rest = more;
    }
    Ok(text)
}

fn line_end(chomping: Chomping, more: &[Text]) -> &'static str
    ensures { result.now ≡ line_end chomping more.now }
{
    if matches!(chomping, Chomping::Clip) || !more.is_empty() {
        "\n"
    } else {
        ""
    }
}
