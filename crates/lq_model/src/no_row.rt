//! The law that a statement which takes no row changes nothing.
ghost use Rattle.lq_model.specs.Step.{UpdateOfNoRow};

/// An UPDATE that is accepted and takes no row leaves the catalogue as it was.
pub fn update_of_no_row_changes_nothing()
    ensures { UpdateOfNoRow }
{}
