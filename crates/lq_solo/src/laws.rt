ghost use Rattle.lq_solo.specs.Solo.{ScriptsClose, WorksAnswerOwn};

/// A command that makes more than one call frees the lock.
pub fn scripts_close()
    ensures { ScriptsClose }
{}

/// No command's own answer is one to a fault of the store.
pub fn works_answer_own()
    ensures { WorksAnswerOwn }
{}
