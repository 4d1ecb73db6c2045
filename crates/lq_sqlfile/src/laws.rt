ghost use Rattle.lq_sqlfile.specs.Made.{HeaderExamples, LineExamples};
ghost use Rattle.lq_sqlfile.specs.File.{FilesMeanOne, PartsAreFound, SetsAreFound};

// What a line says is what the reader finds in it.
fn parts()
    ensures { PartsAreFound }
{}

// The changesets of a file's lines are those that the reader finds.
fn sets()
    ensures { SetsAreFound }
{}

/// The lines of a file hold at most one list of changesets.
pub fn one_file()
    ensures { FilesMeanOne }
{}

/// Lines of a file and what they say.
pub fn examples()
    ensures lines { LineExamples }
    ensures headers { HeaderExamples }
{}
