ghost use Rattle.std.specs.List.{insert, remove};
ghost use Rattle.std.specs.Map.{lookup};
ghost use Rattle.std.specs.Option.{option_copied};
ghost use Rattle.std.specs.Prelude.{◌≡◌, ◌<◌, ◌≤◌, is_some, length, true};
ghost use Rattle.lq_base.specs.Name.{is_named};
ghost use Rattle.lq_parts.specs.Taken.{IsOrdered, place_of, position_of};

use lq_base::Name;

/// Where an entry of the name stands, or would stand.
pub fn place<T>(entries: &[(Name, T)], name: &Name) -> usize
    requires { IsOrdered entries.now }
    ensures value { result ≡ place_of name.now entries.now }
    ensures fits { result ≤ length entries.now }
{
    if let Some((last, _)) = entries.split_last() {
        // Most names come in their order, each behind those that are there.
        if last.0.cmp(name).is_lt() {
            return entries.len();
        }
    }
    entries.partition_point(|entry| entry.0.cmp(name).is_lt())
}

/// What stands at the name.
pub fn find<'a, T>(entries: &'a [(Name, T)], name: &Name) -> Option<&'a T>
    requires { IsOrdered entries.now }
    ensures { option_copied result ≡ lookup (is_named name.now) entries.now }
{
    let at = place(entries, name);
    if at == entries.len() {
        return None;
    }
    let entry = &entries[at];
    if *name == entry.0 {
        Some(&entry.1)
    } else {
        None
    }
}

/// Where the entry of the name stands, which is there.
#[tactic(auto, using(crate::proofs::EntryLemmas::place_is_position, crate::proofs::EntryLemmas::stands))]
pub fn standing<T>(entries: &[(Name, T)], name: &Name) -> usize
    requires ordered { IsOrdered entries.now }
    requires there { is_some (lookup (is_named name.now) entries.now) ≡ true }
    ensures value { result ≡ position_of name.now entries.now }
    ensures place { result < length entries.now }
{
    place(entries, name)
}
