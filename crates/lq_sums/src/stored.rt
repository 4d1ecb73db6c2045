ghost use Rattle.std.specs.List.{starts_with};
ghost use Rattle.std.specs.Prelude.{◌≡◌, ◌&&◌, IfSome, None, codes, eqb, if◌then◌else◌, true};
ghost use Rattle.lq_base.specs.Name.{is_text};

use lq_base::Text;

/// Whether a stored checksum is of the old form, `P1:`.
fn is_old_form(stored: &str) -> bool
    ensures { result ≡ starts_with eqb stored.now (codes "P1:") }
{
    stored.as_bytes().starts_with(b"P1:")
}

/// Of a changeset's checksums in the old form and in the new one, that of a stored one's form.
pub fn sum_by_form<'a>(old: &'a Text, new: &'a Text, stored: &Text) -> &'a Text
    ensures { result.now ≡ (if starts_with eqb stored.now (codes "P1:") then old.now else
        new.now) }
{
    if is_old_form(stored.as_str()) {
        old
    } else {
        new
    }
}

/// Whether a stored checksum is null, or the changeset's own in the old form.
pub fn is_to_fill(old: &Text, stored: &Option<Text>) -> bool
    ensures null { stored.now ≡ None → result ≡ true }
    ensures own { IfSome stored.now
        (λ sum. result ≡ (starts_with eqb sum (codes "P1:") && is_text sum old.now)) }
{
    match stored {
        Some(sum) => is_old_form(sum.as_str()) && *sum == *old,
        None => true,
    }
}
