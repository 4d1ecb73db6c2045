/// What a lexeme of SQL is (`specs/SqlLexeme.antt`; PostgreSQL's manual, 4.1; MySQL's, 9.1, 9.2 and 9.7).
#[derive(Clone, Copy, PartialEq, Eq)]
pub enum LexemeSort {
    /// A run of spaces, tabs, carriage returns and line feeds.
    Blank,
    /// A comment to the end of its line, without the line feed: after `--`; in mysql after `--` with
    /// a blank behind it, and after `#`.
    LineComment,
    /// A comment from `/*` to its `*/`; in postgresql with comments in it. In mysql `/*!` begins none.
    BlockComment,
    /// A name in double quotes, in mysql in grave accents; with them, and with those doubled inside.
    Name,
    /// A string in single quotes, in mysql also in double ones; with them, with those doubled inside,
    /// and in mysql with backslashes before any byte.
    Text,
    /// What begins with a digit, or with `-` directly before one, whether or not it spells a number.
    Number,
    /// Letters, digits and `_`, not beginning with a digit.
    Word,
    /// `<=`, `>=`, `<>`, `!=`, or any other single byte.
    Mark,
}
