ghost use Rattle.std.specs.Prelude.{◌≡◌, ◌↔◌, ◌⊎◌, ℕ, IfOk, IfErr, Ok, Err, map, chars};
ghost use Rattle.std.specs.Str.Lines.{lines};
ghost use Rattle.std.specs.Str.{IsUtf8};
ghost use Rattle.lq_tree.specs.Json.{IsTree};
ghost use Rattle.lq_tree.specs.declared.node.Node.{Node};
ghost use Rattle.lq_yaml.specs.declared.fault.YamlFault.TheVariants.{NotUtf8, Line, TooDeep, OutOfMemory};
ghost use Rattle.lq_yaml.specs.Yaml.{state_of, shown_lines, line_step, file_start, text_tree, yaml_tree};
ghost use Rattle.lq_yaml.specs.File.{lines_of, IsRead, IsWrong, IsTooDeep, Blames};
ghost use Rattle.lq_yaml.specs.Laws.{Enters};

use crate::builder::Builder;
use crate::chars::chars_of;
use crate::fault::YamlFault;
use crate::line::line_tokens;
use crate::mode::Mode;
use lq_base::NoMemory;
use lq_tree::Node;
use std::alloc::{AllocError, Global};
use std::str;

/// What has been read of a file's lines.
#[derive(Drop)]
pub struct Reader {
    pub mode: Mode,
    pub builder: Builder,
}

impl Reader {
    fn new(alloc: Global) -> Reader
        ensures { state_of result ≡ file_start }
    {
        Reader {
            mode: Mode::Fresh,
            builder: Builder::new(alloc),
        }
    }

    /// Takes a line, if some layout goes on so. Of one that is too deep it takes enough to be so.
    fn take_line(&mut self, alloc: Global, line: &str) -> Result<bool, NoMemory>
        ensures { IfOk result
            (λ b. Enters b (line_step (chars line.now) (state_of self.old)) (state_of self.new)) }
    {
        let chars = chars_of(alloc, line)?;
        match line_tokens(alloc, self.mode, chars.as_slice())? {
            Some(line) => {
                self.mode = line.mode;
                self.builder.take_all(line.tokens)
            }
            None => Ok(false),
        }
    }
}

/// The node that the lines of a file lay out.
fn read_lines(alloc: Global, lines: &[&str]) -> Result<Node, YamlFault>
    ensures { (result ≡ Err OutOfMemory) ⊎ (result ≡ text_tree (shown_lines lines.now)) }
{
    let mut reader = Reader::new(alloc);
    for (i, line) in lines.iter().enumerate() {
        if !reader.take_line(alloc, line)? {
            return Err(YamlFault::Line(i as u64 + 1));
        }
        if reader.builder.levels > 64 {
            return Err(YamlFault::TooDeep);
        }
    }
    match reader.builder.finish()? {
        Some(node) => Ok(node),
        None => Err(YamlFault::Line(lines.len() as u64 + 1)),
    }
}

/// The lines of a text, without their ends.
fn lines_in(alloc: Global, text: &str) -> Result<Vec<&str>, AllocError>
    ensures { IfOk result (λ found. map (λ line. line.now) found.items ≡ lines text.now) }
{
    text.lines().collect(alloc)
}

fn read_text(alloc: Global, text: &str) -> Result<Node, YamlFault>
    ensures found { (result ≡ Err OutOfMemory) ⊎ (result ≡ text_tree (lines_of text.now)) }
    ensures ok { IfOk result (λ node. IsRead (lines_of text.now) node) }
    ensures err { IfErr result (λ fault. Blames (lines_of text.now) fault) }
{
    let lines = lines_in(alloc, text)?;
    read_lines(alloc, lines.as_slice())
}

/// The tree that the bytes of a YAML file lay out.
pub fn read_yaml(alloc: Global, bytes: &[u8]) -> Result<Node, YamlFault>
    ensures found { (result ≡ Err OutOfMemory) ⊎ (result ≡ yaml_tree bytes.now) }
    ensures tree { IfOk result (λ node. IsRead (lines_of bytes.now) node) }
    ensures whole { (node : Node)
        → IsUtf8 bytes.now
        → IsRead (lines_of bytes.now) node
        → (result ≡ Ok node) ⊎ (result ≡ Err OutOfMemory) }
    ensures order { IfOk result IsTree }
    ensures not_utf8 { (result ≡ Err NotUtf8) ↔ ¬ (IsUtf8 bytes.now) }
    ensures line { (n : ℕ) → result ≡ Err (Line n) → IsWrong (lines_of bytes.now) n }
    ensures deep { result ≡ Err TooDeep → IsTooDeep (lines_of bytes.now) }
{
    match str::from_utf8(bytes) {
        Ok(text) => read_text(alloc, text),
        Err(_) => Err(YamlFault::NotUtf8),
    }
}
