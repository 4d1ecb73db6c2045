ghost use Rattle.std.specs.Prelude.{◌≡◌, slice_index, drop};
ghost use Rattle.lq_base.specs.Sql.{begins, is_blank, is_word_byte, is_number_byte, is_text_quote, is_name_quote, escapes, nests};

use lq_base::Dialect;

pub fn begins(mark: &[u8], text: &[u8]) -> bool
    ensures { result ≡ begins mark.now text.now }
{
    text.starts_with(mark)
}

// The byte there, or 0 past the end.
pub fn byte_at(text: &[u8], at: usize) -> u8
    ensures { result ≡ slice_index text.now at }
{
    text.get(at).copied().unwrap_or(0)
}

// What stands from there on, or nothing past the end.
pub fn from(text: &[u8], at: usize) -> &[u8]
    ensures { result.now ≡ drop at text.now }
{
    text.get(at..).unwrap_or(&[])
}

pub fn is_blank(byte: u8) -> bool
    ensures { result ≡ is_blank byte }
{
    byte == b' ' || byte == b'\t' || byte == b'\r' || byte == b'\n'
}

pub fn is_word_byte(byte: u8) -> bool
    ensures { result ≡ is_word_byte byte }
{
    byte.is_ascii_alphanumeric() || byte == b'_'
}

pub fn is_number_byte(byte: u8) -> bool
    ensures { result ≡ is_number_byte byte }
{
    is_word_byte(byte) || byte == b'.'
}

pub fn is_text_quote(dialect: Dialect, byte: u8) -> bool
    ensures { result ≡ is_text_quote dialect byte }
{
    match dialect {
        Dialect::Postgresql => byte == b'\'',
        Dialect::Mysql => byte == b'\'' || byte == b'"',
    }
}

pub fn is_name_quote(dialect: Dialect, byte: u8) -> bool
    ensures { result ≡ is_name_quote dialect byte }
{
    match dialect {
        Dialect::Postgresql => byte == b'"',
        Dialect::Mysql => byte == b'`',
    }
}

pub fn escapes(dialect: Dialect) -> bool
    ensures { result ≡ escapes dialect }
{
    match dialect {
        Dialect::Postgresql => false,
        Dialect::Mysql => true,
    }
}

pub fn nests(dialect: Dialect) -> bool
    ensures { result ≡ nests dialect }
{
    match dialect {
        Dialect::Postgresql => true,
        Dialect::Mysql => false,
    }
}
