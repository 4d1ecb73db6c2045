ghost use Rattle.lq_yaml.specs.File.{ScalarExamples, LineExamples, LinesLayOutOne};
ghost use Rattle.lq_yaml.specs.Laws.{ScalarsAreFound, ContentsAreFound, FilesAreFound, LinesMeanOne};
ghost use Rattle.lq_yaml.specs.Yaml.{TreesAreLaidOut};

/// The lines of a file lay out at most one node.
pub fn one_tree()
    ensures { LinesLayOutOne }
{}

/// The function by which bytes are read finds the tree that their lines lay out.
pub fn laid_out()
    ensures { TreesAreLaidOut }
{}

/// The scalar at the front of a text is the one that the reader finds.
pub fn scalars()
    ensures { ScalarsAreFound }
{}

/// What begins at a column of a line is what the reader finds there.
pub fn contents()
    ensures { ContentsAreFound }
{}

/// The tokens of a file's lines are those that the reader finds, and one list at most.
pub fn tokens()
    ensures found { FilesAreFound }
    ensures one { LinesMeanOne }
{}

/// Small files and what they mean.
pub fn examples()
    ensures scalars { ScalarExamples }
    ensures lines { LineExamples }
{}
