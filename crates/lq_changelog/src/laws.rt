ghost use Rattle.lq_changelog.specs.Laws.{WhatIsGivenIsForTheDialect};

/// What files give is for the dialect for which they are read. The function is empty: its contract is
/// the law.
pub fn what_is_given_is_for_the_dialect()
    ensures { WhatIsGivenIsForTheDialect }
{}
