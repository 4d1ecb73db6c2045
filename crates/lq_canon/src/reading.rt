ghost use Rattle.std.specs.Option.{option_map};
ghost use Rattle.std.specs.Prelude.{◌≡◌, ◌&&◌, ◌++◌, ◌+◌, ◌<◌, ◌^◌, ◌≤◌, ℕ, IfSome, List, None, Some, codes, drop, length, nat_le, nat_lt};
ghost use Rattle.lq_model.specs.Changes.{CanonicalChange, CanonicalValue, atom, canonical, canonical_change, canonical_pairs};
ghost use Rattle.lq_canon.specs.Passing.{pair_of, part_of, place_of, text_in, atom_at, behind_atom, closed, split, stepped};

/// A part of a canonical text, and what follows it.
#[derive(Clone, Copy)]
pub struct Part<'a> {
    pub bytes: &'a [u8],
    pub rest: &'a [u8],
}

/// What stands behind some of a canonical text.
#[derive(Clone, Copy)]
struct Place<'a> {
    /// How many of the lists and maps that were begun there are still open.
    depth: usize,
    rest: &'a [u8],
}

/// A pair of a map in a canonical text, and what follows it.
#[derive(Clone, Copy)]
pub struct Pair<'a> {
    pub key: &'a [u8],
    /// The whole canonical text of the value.
    pub value: &'a [u8],
    pub rest: &'a [u8],
}

// Above every count of bytes, also where one digit more follows.
const NO_COUNT: u64 = 1_000_000_000_000_000_000;

fn is_digit(b: u8) -> bool
    ensures { result ≡ (nat_le 48 b && nat_lt b 58) }
{
    b'0' <= b && b < b':'
}

fn split(count: u64, bytes: &[u8]) -> Option<Part<'_>>
    ensures { option_map part_of result ≡ split (count, bytes.now) }
{
    if count <= bytes.len() as u64 {
        let (front, rest) = bytes.split_at(count as usize);
        Some(Part { bytes: front, rest })
    } else {
        None
    }
}

/// The text of the atom that stands first.
#[tactic(auto, unfolding(crate::specs::Passing::atom_at))]
pub fn atom_at(bytes: &[u8]) -> Option<Part<'_>>
    ensures read { option_map part_of result ≡ atom_at bytes.now }
    ensures shorter { IfSome result (λ part. length part.rest.now < length bytes.now) }
{
    let mut count = 0;
    let mut rest = bytes;
    while let [b, after @ ..] = rest {
        if *b == b':' {
            return split(count, after);
        }
        if !is_digit(*b) {
            return None;
        }
        if count >= NO_COUNT {
            return None;
        }
        count = count * 10 + (*b - b'0') as u64;
        rest = after;
    }
    None
}

fn behind_atom(depth: usize, bytes: &[u8]) -> Option<Place<'_>>
    ensures read { option_map place_of result ≡ behind_atom depth (atom_at bytes.now) }
    ensures shorter { IfSome result (λ place. length place.rest.now < length bytes.now) }
    ensures depth { IfSome result (λ place. place.depth ≡ depth) }
{
    let atom = atom_at(bytes)?;
    Some(Place {
        depth,
        rest: atom.rest,
    })
}

fn closed(depth: usize, rest: &[u8]) -> Option<Place<'_>>
    ensures read { option_map place_of result ≡ closed depth rest.now }
    ensures rest { IfSome result (λ place. place.rest.now ≡ rest.now) }
    ensures depth { IfSome result (λ place. place.depth < depth) }
{
    if depth == 0 {
        return None;
    }
    Some(Place {
        depth: depth - 1,
        rest,
    })
}

/// What follows the first byte.
pub fn without_first(bytes: &[u8]) -> &[u8]
    ensures { result.now ≡ drop 1 bytes.now }
{
    match bytes {
        [] => bytes,
        [_, rest @ ..] => rest,
    }
}

// Behind the bracket, the truth value or the atom that stands first.
fn stepped(depth: usize, bytes: &[u8]) -> Option<Place<'_>>
    requires { depth + length bytes.now < 2 ^ 63 }
    ensures read { option_map place_of result ≡ stepped depth bytes.now }
    ensures shorter { IfSome result (λ place. length place.rest.now < length bytes.now) }
    ensures within { IfSome result
        (λ place. place.depth + length place.rest.now ≤ depth + length bytes.now) }
{
    let [first, rest @ ..] = bytes else {
        return None;
    };
    match *first {
        b'[' | b'{' => Some(Place {
            depth: depth + 1,
            rest,
        }),
        b']' | b'}' => closed(depth, rest),
        b'b' => Some(Place {
            depth,
            rest: without_first(rest),
        }),
        b't' | b'n' => behind_atom(depth, rest),
        _ => behind_atom(depth, bytes),
    }
}

// What follows the value that stands first, of any depth.
fn behind_value(bytes: &[u8]) -> Option<&[u8]>
    ensures read { (v : CanonicalValue) (x : List ℕ)
        → bytes.now ≡ canonical v ++ x
        → option_map (λ rest. rest.now) result ≡ Some x }
    ensures shorter { IfSome result (λ rest. length rest.now < length bytes.now) }
{
    let mut depth = 0;
    let mut rest = bytes;
    while let Some(place) = stepped(depth, rest) {
        if place.depth == 0 {
            return Some(place.rest);
        }
        depth = place.depth;
        rest = place.rest;
    }
    None
}

// The value that stands first.
fn value_at(bytes: &[u8]) -> Option<Part<'_>>
    ensures read { (v : CanonicalValue) (x : List ℕ)
        → bytes.now ≡ canonical v ++ x
        → option_map part_of result ≡ Some (canonical v, x) }
    ensures shorter { IfSome result (λ part. length part.rest.now < length bytes.now) }
{
    let rest = behind_value(bytes)?;
    let (value, _) = bytes.split_at(bytes.len() - rest.len());
    Some(Part { bytes: value, rest })
}

/// The pair that stands first.
pub fn pair_at(bytes: &[u8]) -> Option<Pair<'_>>
    ensures read { (key : List ℕ) (v : CanonicalValue) (x : List ℕ)
        → bytes.now ≡ atom key ++ (canonical v ++ x)
        → option_map pair_of result ≡ Some (key, canonical v, x) }
    ensures none { (x : List ℕ) → bytes.now ≡ codes "}" ++ x → result ≡ None }
    ensures shorter { IfSome result (λ pair. length pair.rest.now < length bytes.now) }
{
    let Some(key) = atom_at(bytes) else {
        return None;
    };
    let Some(value) = value_at(key.rest) else {
        return None;
    };
    Some(Pair {
        key: key.bytes,
        value: value.bytes,
        rest: value.rest,
    })
}

/// The text that a value is.
pub fn text_in(value: &[u8]) -> Option<&[u8]>
    ensures { (v : CanonicalValue)
        → value.now ≡ canonical v
        → option_map (λ text. text.now) result ≡ text_in v }
{
    let [first, ..] = value else {
        return None;
    };
    if *first != b't' {
        return None;
    }
    let Some(text) = atom_at(without_first(value)) else {
        return None;
    };
    Some(text.bytes)
}

/// The name of the change that stands first, and what follows the beginning of its map.
pub fn change_at(bytes: &[u8]) -> Option<Part<'_>>
    ensures read { (change : CanonicalChange) (x : List ℕ)
        → bytes.now ≡ canonical_change change ++ x
        → option_map part_of result
        ≡ Some (change.name, canonical_pairs change.pairs ++ (codes "}" ++ x)) }
    ensures none { (x : List ℕ) → bytes.now ≡ codes "]" ++ x → result ≡ None }
    ensures shorter { IfSome result (λ part. length part.rest.now < length bytes.now) }
{
    let Some(name) = atom_at(bytes) else {
        return None;
    };
    Some(Part {
        bytes: name.bytes,
        rest: without_first(name.rest),
    })
}
