//! What a generated changelog is read as, and what it does. The functions are empty but for the laws
//! that they cite: their contracts are the laws.

ghost use Rattle.laws_generate.specs.Again.{AllComesAgain, CanBeUndone, IsReadWhole, IsWrittenWhole, MakesAgain};

use lq_parse::laws::queries_read_back;

/// The tree of a generated changelog is one that a JSON text can give: `generate` says that its text is
/// then read as that tree.
pub fn it_is_written()
    ensures { IsWrittenWhole }
{}

/// A file of that text, without properties, is this changelog.
pub fn it_is_read()
    ensures { IsReadWhole }
{
    queries_read_back();
}

/// Each changeset runs on what the one before it left, and nothing of it is not fresh; what the last
/// leaves is the catalogue without its rows.
pub fn it_makes_the_objects()
    ensures { MakesAgain }
{
    queries_read_back();
}

/// Each change has an inverse that is generated.
pub fn it_can_be_undone()
    ensures { CanBeUndone }
{
    queries_read_back();
}

/// A `.json` file of the text is read as a changelog. An update with it of a database without objects
/// makes the catalogue without its rows: each changeset runs, and nothing is not fresh. Each change
/// has an inverse that is generated.
pub fn it_comes_again()
    ensures { AllComesAgain }
{
    queries_read_back();
}
