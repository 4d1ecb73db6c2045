//! The law that a sound catalogue answers what its views ask.
ghost use Rattle.lq_model.specs.Views.{ViewsAnswer};

/// The query of each view of a sound catalogue, asked as the program's, is answered with rows.
pub fn views_answer()
    ensures { ViewsAnswer }
{}
