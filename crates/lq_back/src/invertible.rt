ghost use Rattle.std.specs.Prelude.{◌≡◌};
ghost use Rattle.lq_back.specs.Reversal.{has_inverse};

use lq_kinds::AnyChange;

/// Whether statements are generated that take the change back. Its type tells that, so none has to
/// be generated to see it.
pub fn has_inverse(change: &AnyChange) -> bool
    ensures { result ≡ has_inverse change.now }
{
    match change {
        AnyChange::DropTable(_)
        | AnyChange::DropColumn(_)
        | AnyChange::DropPrimaryKey(_)
        | AnyChange::DropForeignKeyConstraint(_)
        | AnyChange::DropUniqueConstraint(_)
        | AnyChange::DropDefaultValue(_)
        | AnyChange::DropIndex(_)
        | AnyChange::DropView(_)
        | AnyChange::DropSequence(_)
        | AnyChange::Insert(_)
        | AnyChange::Update(_)
        | AnyChange::Delete(_)
        | AnyChange::LoadData(_)
        | AnyChange::Sql(_) => false,
        _ => true,
    }
}
