ghost use Rattle.std.specs.Prelude.{◌≡◌};
ghost use Rattle.lq_base.specs.Number.{has_control, char_count};

/// Whether some character of the text is a control character: one below U+0020, or U+007F.
pub fn has_control(text: &str) -> bool
    ensures { result ≡ has_control text.now }
{
    text.as_bytes()
        .iter()
        .any(|byte| *byte < 32 || *byte == 127)
}

/// The number of characters of the text, which are Unicode scalar values and not bytes.
pub fn char_count(text: &str) -> usize
    ensures { result ≡ char_count text.now }
{
    text.chars().count()
}
