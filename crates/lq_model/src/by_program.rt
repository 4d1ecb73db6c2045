//! The law that the program may do what users may.
ghost use Rattle.lq_model.specs.Step.{ProgramMayDoWhatUsersMay};

/// A statement that is accepted from anyone is accepted from the program, and does the same.
pub fn program_may_do_what_users_may()
    ensures { ProgramMayDoWhatUsersMay }
{}
