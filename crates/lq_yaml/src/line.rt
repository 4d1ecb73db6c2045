ghost use Rattle.std.specs.Prelude.{◌≡◌, ◌+◌, ◌<◌, ◌≤◌, ◌^◌, IfOk, IfSome, Some, None, length, option_map};
ghost use Rattle.lq_yaml.specs.Line.{blank_tokens, base_of, parent_of, without_block, is_marker, mode_after, content_tokens, has_tab, line_by, line_tokens};
ghost use Rattle.lq_yaml.specs.Laws.{shown_line, Shows};

use crate::chars::{begins_with, spaces, text_of, trimmed, without_blanks, without_spaces};
use crate::entry::tokens_at;
use crate::mode::Mode;
use crate::token::Token;
use lq_base::{NoMemory, Text};
use std::alloc::Global;

/// What a line has.
#[derive(Drop)]
pub struct Line {
    pub tokens: Vec<Token>,
    /// What the next line stands after.
    pub mode: Mode,
}

/// The tokens of a line, if some line may be so. Of too many dashes at its front 65 are kept.
pub fn line_tokens(alloc: Global, mode: Mode, line: &[char]) -> Result<Option<Line>, NoMemory>
    requires { length line.now < 2 ^ 61 }
    ensures { IfOk result (λ o. Shows o (line_tokens mode line.now)) }
{
    if without_blanks(line).is_empty() {
        return blank_line(alloc, mode);
    }
    match base_of(mode, spaces(line)) {
        Some(base) => block_line(alloc, mode, base, line),
        None => plain_line(alloc, mode, line),
    }
}

/// An empty line of a literal block that is open, or nothing.
fn blank_line(alloc: Global, mode: Mode) -> Result<Option<Line>, NoMemory>
    ensures { IfOk result (λ o. option_map shown_line o ≡ Some (blank_tokens mode, mode)) }
{
    let mut tokens = Vec::new(alloc);
    if matches!(mode, Mode::AfterHeader(_) | Mode::InLiteral(..)) {
        tokens.push(Token::LiteralLine(Text::new(alloc, "")?))?;
    }
    Ok(Some(Line { tokens, mode }))
}

fn block_line(
    alloc: Global,
    mode: Mode,
    base: usize,
    line: &[char],
) -> Result<Option<Line>, NoMemory>
    requires { base ≤ length line.now }
    ensures { IfOk result (λ o. option_map shown_line o ≡ line_by mode line.now (Some base)) }
{
    if has_tab(line) {
        return Ok(None);
    }
    let text = text_of(alloc, &line[base..])?;
    let mut tokens = Vec::new(alloc);
    tokens.push(Token::LiteralLine(text))?;
    Ok(Some(Line {
        tokens,
        mode: Mode::InLiteral(parent_of(mode), base),
    }))
}

fn plain_line(alloc: Global, mode: Mode, line: &[char]) -> Result<Option<Line>, NoMemory>
    requires { length line.now < 2 ^ 61 }
    ensures { IfOk result (λ o. Shows o (line_by mode line.now None)) }
{
    let mode = without_block(mode);
    if begins_with('#', without_blanks(line)) {
        return Ok(Some(Line {
            tokens: Vec::new(alloc),
            mode,
        }));
    }
    if has_tab(line) {
        return Ok(None);
    }
    content(alloc, mode, spaces(line), trimmed(without_spaces(line)))
}

fn content(
    alloc: Global,
    mode: Mode,
    column: usize,
    from: &[char],
) -> Result<Option<Line>, NoMemory>
    requires { column + length from.now < 2 ^ 62 }
    ensures { IfOk result (λ o. Shows o (content_tokens mode column from.now)) }
{
    if is_marker(mode, column, from) {
        return Ok(Some(Line {
            tokens: Vec::new(alloc),
            mode: Mode::Between(0),
        }));
    }
    match tokens_at(alloc, column, from)? {
        Some(tokens) => {
            let mode = mode_after(parent_of(mode), tokens.as_slice());
            Ok(Some(Line { tokens, mode }))
        }
        None => Ok(None),
    }
}

fn is_marker(mode: Mode, column: usize, from: &[char]) -> bool
    ensures { result ≡ is_marker mode column from.now }
{
    match (mode, from) {
        (Mode::Fresh, [a, b, c]) => column == 0 && *a == '-' && *b == '-' && *c == '-',
        _ => false,
    }
}

fn has_tab(line: &[char]) -> bool
    ensures { result ≡ has_tab line.now }
{
    begins_with('\t', without_spaces(line))
}

/// How far the lines of the open literal block are indented, if a line of that indent is one of them.
fn base_of(mode: Mode, indent: usize) -> Option<usize>
    ensures base { result ≡ base_of mode indent }
    ensures within { IfSome result (λ base. base ≤ indent) }
{
    match mode {
        Mode::AfterHeader(parent) if parent < indent => Some(indent),
        Mode::InLiteral(parent, base) if parent < indent && base <= indent => Some(base),
        _ => None,
    }
}

fn parent_of(mode: Mode) -> usize
    ensures { result ≡ parent_of mode }
{
    match mode {
        Mode::Fresh => 0,
        Mode::Between(parent) | Mode::AfterHeader(parent) | Mode::InLiteral(parent, _) => parent,
    }
}

fn without_block(mode: Mode) -> Mode
    ensures { result ≡ without_block mode }
{
    match mode {
        Mode::Fresh => Mode::Fresh,
        _ => Mode::Between(parent_of(mode)),
    }
}

/// What the next line stands after.
fn mode_after(parent: usize, tokens: &[Token]) -> Mode
    ensures { result ≡ mode_after parent tokens.now }
{
    let mut parent = parent;
    for token in tokens {
        match token {
            Token::Begin(rank, _) => parent = rank.saturating_sub(1) / 2,
            Token::LiteralHeader(..) => return Mode::AfterHeader(parent),
            _ => {}
        }
    }
    Mode::Between(parent)
}
