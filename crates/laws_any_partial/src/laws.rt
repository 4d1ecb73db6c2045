//! What holds of any change. The function is empty: its contract is the law.

ghost use Rattle.lq_any.specs.AnyChange.{gives, inverse, is_for, is_fresh};
ghost use Rattle.lq_reverse.specs.Back.{PartsBack};

/// However many of the statements of a change ran, what takes each back gives the catalogue back.
pub fn parts_of_any()
    ensures { PartsBack is_for gives is_fresh inverse }
{}
