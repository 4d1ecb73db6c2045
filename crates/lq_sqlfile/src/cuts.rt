ghost use Rattle.std.specs.Prelude.{◌≡◌, ◌<◌, option_map};
ghost use Rattle.std.specs.List.{position_or_len};
ghost use Rattle.std.specs.Str.{IsCharBoundary};
ghost use Rattle.lq_base.specs.Kind.{is_blank, is_no_blank};
ghost use Rattle.lq_sqlfile.specs.Words.{after, is_word};
ghost use Rattle.lq_sqlfile.specs.Cuts.{from, without_blanks, word, behind_word, cut_at, apart, is_ended};

/// The place of the first blank, or the length.
fn blank_place(text: &str) -> usize
    ensures value { result ≡ position_or_len is_blank text.now }
    ensures boundary { IsCharBoundary text.now result }
{
    let bytes = text.as_bytes();
    bytes
        .iter()
        .position(|byte| *byte == b' ' || *byte == b'\t')
        .unwrap_or(bytes.len())
}

/// The place of the first byte that is no blank, or the length.
fn blanks_before(text: &str) -> usize
    ensures value { result ≡ position_or_len is_no_blank text.now }
    ensures boundary { IsCharBoundary text.now result }
{
    let bytes = text.as_bytes();
    bytes
        .iter()
        .position(|byte| !(*byte == b' ' || *byte == b'\t'))
        .unwrap_or(bytes.len())
}

/// The text without the blanks at its front.
pub fn without_blanks(text: &str) -> &str
    ensures { result.now ≡ without_blanks text.now }
{
    let (_, rest) = text.split_at(blanks_before(text));
    rest
}

/// The text up to its first blank, and what stands from there on.
pub fn cut_word(text: &str) -> (&str, &str)
    ensures front { result.0.now ≡ word text.now }
    ensures rest { result.1.now ≡ from is_blank text.now }
{
    text.split_at(blank_place(text))
}

/// The text up to the first such mark, and what stands behind the mark, if it is there.
pub fn cut_at(text: &str, mark: char) -> Option<(&str, &str)>
    requires { mark < 128 }
    ensures { option_map (λ parts. (parts.0.now, parts.1.now)) result ≡ cut_at mark text.now }
{
    text.split_once(mark)
}

/// What follows those words, if the text begins with them.
pub fn after<'a>(words: &str, text: &'a str) -> Option<&'a str>
    ensures { option_map (λ rest. rest.now) result ≡ after words.now text.now }
{
    text.strip_prefix(words)
}

/// The text without its first word and the blanks that follow it.
pub fn behind_word(text: &str) -> &str
    ensures { result.now ≡ behind_word text.now }
{
    let (_, rest) = cut_word(text);
    without_blanks(rest)
}

/// The text without the blanks at its front, if it is empty or begins with one.
pub fn apart(text: &str) -> Option<&str>
    ensures { option_map (λ rest. rest.now) result ≡ apart text.now }
{
    if !is_ended(text) {
        return None;
    }
    Some(without_blanks(text))
}

/// Whether the text is empty or begins with a blank.
pub fn is_ended(text: &str) -> bool
    ensures { result ≡ is_ended text.now }
{
    match text.as_bytes() {
        [] => true,
        [byte, ..] => *byte == b' ' || *byte == b'\t',
    }
}

#[tactic(auto, unfolding(crate::specs::Words::is_word))]
/// Whether the words are the same in ASCII's small letters.
pub fn is_word(text: &str, word: &str) -> bool
    ensures { result ≡ is_word text.now word.now }
{
    text.eq_ignore_ascii_case(word)
}
