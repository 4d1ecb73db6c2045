ghost use Rattle.std.specs.Prelude.{◌≡◌, ◌++◌, List, ℕ};
ghost use Rattle.lq_model.specs.Changes.{atom, canonical, canonical_change, canonical_changes, CanonicalChange, CanonicalValue};

/// Where an atom ends is told from the atom alone: what begins with one begins with no other.
pub fn atoms_are_read_one_way()
    ensures { (t u x y : List ℕ) → atom t ++ x ≡ atom u ++ y → (t ≡ u) × (x ≡ y) }
{}

/// Two different values have different canonical texts.
pub fn text_tells_value()
    ensures { (v w : CanonicalValue) → canonical v ≡ canonical w → v ≡ w }
{}

/// The canonical text of a change determines its type's name and the pairs of its map.
pub fn text_tells_change()
    ensures { (c d : CanonicalChange) → canonical_change c ≡ canonical_change d
        → (c.name ≡ d.name) × (c.pairs ≡ d.pairs) }
{}

/// The canonical text of a changeset determines its changes.
pub fn text_tells_changes()
    ensures { (cs ds : List CanonicalChange) → canonical_changes cs ≡ canonical_changes ds
        → cs ≡ ds }
{}
