//! What holds of the definitions that the contracts cite. Each function is empty: its contract is
//! the law.

ghost use Rattle.lq_sources.specs.Source.{FilesHaveSource, SourceIsOne};

/// Each list of files has a source, so that what is said of every source is said of one.
pub fn files_have_source()
    ensures { FilesHaveSource }
{}

/// Files have no second source: under each folder the files stand in one order alone.
pub fn source_is_one()
    ensures { SourceIsOne }
{}
