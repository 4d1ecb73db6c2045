ghost use Rattle.std.specs.List.{list_all};
ghost use Rattle.std.specs.Prelude.{◌≡◌, ◌==◌, map, IfOk, true};
ghost use Rattle.std.specs.Char.{to_ascii_lowercase};
ghost use Rattle.std.specs.Str.{str_eq_ignore_ascii_case};
ghost use Rattle.lq_model.specs.SqlWord as spec;
ghost use Rattle.lq_model.specs.SqlParser as parser;
ghost use Rattle.lq_parse.specs.Kinds.{has_text, is_literal};

use lq_base::{Dialect, Items};
use lq_model::{SPELLINGS, WordKind};
use std::alloc::{AllocError, Global};

fn is_spelled(spelling: &[u8], bytes: &[u8]) -> bool
    ensures { result ≡ str_eq_ignore_ascii_case spelling.now bytes.now }
{
    spelling.eq_ignore_ascii_case(bytes)
}

fn kind_in(mut spellings: &[(&[u8], WordKind)], other: WordKind, bytes: &[u8]) -> WordKind
    ensures { result
        ≡ spec.kind_in (map (λ spelling. (spelling.0.now, spelling.1)) spellings.entry.now) other
        bytes.now }
{
    while let [spelling, more @ ..] = spellings {
        if is_spelled(spelling.0, bytes) {
            return spelling.1;
        }
        spellings = more;
    }
    other
}

/// The kind of the word or mark that is spelled so, or else the other.
#[tactic(auto, unfolding(lq_model::specs::SqlWord::kind_of_word))]
pub fn kind_of_word(other: WordKind, bytes: &[u8]) -> WordKind
    ensures { result ≡ spec.kind_of_word other bytes.now }
{
    if bytes.len() < 2 {
        // The marks stand first, and all that stand behind them are longer.
        return kind_in(&SPELLINGS[..13], other, bytes);
    }
    kind_in(&SPELLINGS, other, bytes)
}

/// Whether a word of this kind may be a name.
pub fn may_be_name(kind: WordKind) -> bool
    ensures { result ≡ spec.may_be_name kind }
{
    match kind {
        WordKind::Quoted
        | WordKind::Plain
        | WordKind::Action
        | WordKind::AutoIncrement
        | WordKind::By
        | WordKind::Cascade
        | WordKind::Count
        | WordKind::Generated
        | WordKind::Identity
        | WordKind::Increment
        | WordKind::Index
        | WordKind::Key
        | WordKind::Modify
        | WordKind::No
        | WordKind::Rename
        | WordKind::Replace
        | WordKind::Restrict
        | WordKind::Sequence
        | WordKind::Start
        | WordKind::View
        | WordKind::With => true,
        _ => false,
    }
}

fn is_literal(kind: WordKind) -> bool
    ensures { result ≡ is_literal kind }
{
    matches!(kind, WordKind::Number | WordKind::Text)
}

/// Whether a word of this kind may have a text.
pub fn has_text(kind: WordKind) -> bool
    ensures { result ≡ has_text kind }
{
    may_be_name(kind) || is_literal(kind)
}

/// Whether two words are of one kind.
#[tactic(auto, unfolding(lq_model::specs::SqlParser::same_kind))]
pub fn same_kind(a: WordKind, b: WordKind) -> bool
    ensures { result ≡ parser.same_kind a b }
{
    a == b
}

fn lower(alloc: Global, bytes: &[u8]) -> Result<Items<u8>, AllocError>
    ensures { IfOk result (λ it. it ≡ map to_ascii_lowercase bytes.now) }
{
    let mut out = Items::new(alloc);
    for byte in bytes {
        out.push(byte.to_ascii_lowercase())?;
    }
    Ok(out)
}

fn is_lower(bytes: &[u8]) -> bool
    ensures { result ≡ list_all (λ byte. to_ascii_lowercase byte == byte) bytes.now }
{
    bytes.iter().all(|byte| byte.to_ascii_lowercase() == *byte)
}

/// Whether an unquoted word is the name that it stands for.
#[tactic(auto, using(crate::proofs::InLowerCase::lower_is))]
pub fn is_folded(dialect: Dialect, bytes: &[u8]) -> bool
    ensures { result ≡ true → spec.folded dialect bytes.now ≡ bytes.now }
{
    match dialect {
        Dialect::Postgresql => is_lower(bytes),
        Dialect::Mysql => true,
    }
}

/// The name that an unquoted word stands for: in lower case in postgresql, as it is in mysql.
pub fn folded(alloc: Global, dialect: Dialect, bytes: &[u8]) -> Result<Items<u8>, AllocError>
    ensures { IfOk result (λ it. it ≡ spec.folded dialect bytes.now) }
{
    match dialect {
        Dialect::Postgresql => lower(alloc, bytes),
        Dialect::Mysql => Items::from_slice(alloc, bytes),
    }
}
