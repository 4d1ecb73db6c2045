//! What holds of the definitions that the contracts cite. Each function is empty: its contract is
//! the law.

ghost use Rattle.lq_base.specs.Laws.{IntoIsValue, MomentReadsBack, NumberOfSpells, SpellsGivesNumberOf, MomentOfSpells, SpellsGivesMomentOf, KindOfNames, NamesGiveKindOf, KindReadsBack, WholeReadsBack, FixedReadsBack, KeysTellNames, NamesTellKeys};

/// What a literal becomes in a kind is null or a value of the kind.
pub fn into_is_value()
    ensures { IntoIsValue }
{}

/// A moment's printed text spells that moment.
pub fn moment_reads_back()
    ensures { MomentReadsBack }
{}

/// The number that is read from a text is one that the text spells.
pub fn number_of_spells()
    ensures { NumberOfSpells }
{}

/// A number that a text spells is the one that is read from it, so it spells no other.
pub fn spells_gives_number_of()
    ensures { SpellsGivesNumberOf }
{}

/// The kind that is read from a text is one that the text names.
pub fn kind_of_names()
    ensures { KindOfNames }
{}

/// A kind that a text names is the one that is read from it, so it names no other.
pub fn names_give_kind_of()
    ensures { NamesGiveKindOf }
{}

/// The moment that is read from a text is one that the text spells.
pub fn moment_of_spells()
    ensures { MomentOfSpells }
{}

/// A moment that a text spells is the one that is read from it, so it spells no other.
pub fn spells_gives_moment_of()
    ensures { SpellsGivesMomentOf }
{}

/// A kind's spelling in either dialect names that kind.
pub fn kind_reads_back()
    ensures { KindReadsBack }
{}

/// The printed text of a whole number of at most 38 digits spells it.
pub fn whole_reads_back()
    ensures { WholeReadsBack }
{}

/// The printed text of a decimal number of at most 38 digits with 1 to 37 of them after the dot
/// spells it. (38 after it and the 0 before it would be 39.)
pub fn fixed_reads_back()
    ensures { FixedReadsBack }
{}

/// The key of a text in a schema is that of a name, and tells both.
pub fn keys_tell_names()
    ensures { KeysTellNames }
{}

/// The key of a name is that of its text in its schema.
pub fn names_tell_keys()
    ensures { NamesTellKeys }
{}
