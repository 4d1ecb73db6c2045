//! Laws: a statement that was accepted on a sound catalogue, and the statement that takes it back.
ghost use Rattle.lq_model.specs.TakesBack.{DropTableTakesBack, DropColumnTakesBack, DropWidened, StaysWidened, DropNotNullTakesBack, SetNotNullTakesBack, ModifyTakesBack, DropDefaultTakesBack, DropConstraintTakesBackUnique, DropConstraintTakesBackForeignKey, DropConstraintTakesBackKey, DropUniqueTakesBack, DropForeignKeyTakesBack, DropPrimaryKeyTakesBack, DropIndexTakesBack, DropViewTakesBack, DropSequenceTakesBack, RenameColumnTakesBack, RenameTableTakesBack, RenameViewTakesBack, RenameSequenceTakesBack};

/// DROP TABLE after a CREATE TABLE that was accepted is accepted, and gives the catalogue back.
pub fn drop_table_takes_back()
    ensures { DropTableTakesBack }
{}

/// DROP COLUMN takes ADD COLUMN back.
pub fn drop_column_takes_back()
    ensures { DropColumnTakesBack }
{}

/// DROP COLUMN takes a new last column back, whatever its values and its kind have become.
pub fn drop_column_takes_back_widened()
    ensures { DropWidened }
{}

/// ADD COLUMN gives a new last column, and UPDATE, SET NOT NULL and MODIFY of it leave it one.
pub fn stays_widened()
    ensures { StaysWidened }
{}

/// DROP NOT NULL takes SET NOT NULL back, where the column was nullable.
pub fn drop_not_null_takes_back()
    ensures { DropNotNullTakesBack }
{}

/// SET NOT NULL takes DROP NOT NULL back, where the column was NOT NULL.
pub fn set_not_null_takes_back()
    ensures { SetNotNullTakesBack }
{}

/// A MODIFY takes another one back, where the column was of the stated kind, without a default and
/// not numbered, and the first changed whether null is allowed.
pub fn modify_takes_back()
    ensures { ModifyTakesBack }
{}

/// DROP DEFAULT takes SET DEFAULT back, where there was no default.
pub fn drop_default_takes_back()
    ensures { DropDefaultTakesBack }
{}

/// Under PostgreSQL DROP CONSTRAINT takes ADD UNIQUE back.
pub fn drop_constraint_takes_back_unique()
    ensures { DropConstraintTakesBackUnique }
{}

/// Under PostgreSQL DROP CONSTRAINT takes ADD FOREIGN KEY back.
pub fn drop_constraint_takes_back_foreign_key()
    ensures { DropConstraintTakesBackForeignKey }
{}

/// Under PostgreSQL DROP CONSTRAINT takes ADD PRIMARY KEY back, where none of its columns was nullable.
pub fn drop_constraint_takes_back_key()
    ensures { DropConstraintTakesBackKey }
{}

/// Under MySQL dropping a unique constraint takes its adding back.
pub fn drop_unique_takes_back()
    ensures { DropUniqueTakesBack }
{}

/// Under MySQL DROP FOREIGN KEY takes ADD FOREIGN KEY back.
pub fn drop_foreign_key_takes_back()
    ensures { DropForeignKeyTakesBack }
{}

/// Under MySQL DROP PRIMARY KEY takes ADD PRIMARY KEY back, where none of its columns was nullable.
pub fn drop_primary_key_takes_back()
    ensures { DropPrimaryKeyTakesBack }
{}

/// DROP INDEX takes CREATE INDEX back.
pub fn drop_index_takes_back()
    ensures { DropIndexTakesBack }
{}

/// DROP VIEW takes CREATE VIEW back, and CREATE OR REPLACE VIEW where no view of the name was there.
pub fn drop_view_takes_back()
    ensures { DropViewTakesBack }
{}

/// DROP SEQUENCE takes CREATE SEQUENCE back.
pub fn drop_sequence_takes_back()
    ensures { DropSequenceTakesBack }
{}

/// A renamed column gets its old name back.
pub fn rename_column_takes_back()
    ensures { RenameColumnTakesBack }
{}

/// A renamed table, or a view where the name is one's, gets its old name back.
pub fn rename_table_takes_back()
    ensures { RenameTableTakesBack }
{}

/// A renamed view gets its old name back.
pub fn rename_view_takes_back()
    ensures { RenameViewTakesBack }
{}

/// A renamed sequence gets its old name back.
pub fn rename_sequence_takes_back()
    ensures { RenameSequenceTakesBack }
{}
