ghost use Rattle.lq_sqltree.specs.SqlTree.{SqlTreeExamples};
ghost use Rattle.lq_sqltree.specs.Laws.{FilesAreTrees, HeadersAreMissed, LinesAreWrong};

/// What the tree of a file is, by lq_sqlfile's definition of a file: the tree of the one file that
/// the lines are, or that they lack a header, or the first line that is wrong.
pub fn sql_trees()
    ensures files { FilesAreTrees }
    ensures headers { HeadersAreMissed }
    ensures wrong { LinesAreWrong }
{}

/// Two small files with their trees.
pub fn examples()
    ensures { SqlTreeExamples }
{}
