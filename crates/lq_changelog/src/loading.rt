ghost use Rattle.std.specs.List.{All};
ghost use Rattle.std.specs.Prelude.{◌≡◌, ◌≤◌, IfOk, IsErrOf};
ghost use Rattle.lq_kinds.specs.ReadFor.{AreFor};
ghost use Rattle.lq_outside.specs.Forms.{Rose};
ghost use Rattle.lq_sources.specs.Faults.{Finds};
ghost use Rattle.lq_sources.specs.declared.fault.LoadFault.TheVariants.{Read};
ghost use Rattle.lq_changelog.specs.Gathers.{changelog, HasShortTexts};

use crate::gathered::Gathered;
use crate::gathering::Reader;
use lq_base::{Dialect, Text};
use lq_kinds::Changelog;
use lq_model::SqlText;
use lq_outside::Files;
use lq_sources::{LoadFault, walk};
use std::alloc::Global;

/// The changelog of the file `root` and of the files that it includes, for a dialect, with the
/// properties of the command line (Liquibase's documentation, "Changelog", "include", "Property
/// Substitution in Changelogs" and "Preconditions"). The first fault is told, depth first: a whole
/// file's tree before its items, and each item's faults before the next item. What is loaded is for
/// the dialect, and its changesets' texts are short.
#[tactic(auto, unfolding(crate::specs::Gathers::changelog))]
pub fn load<F: Files, P: SqlText>(
    alloc: Global,
    files: &mut F,
    root: &str,
    dialect: Dialect,
    sql: &P,
    given: &[(Text, Text)],
) -> Result<Changelog, LoadFault>
    requires same { P.dialect ≡ dialect }
    ensures loaded { Finds (F.told files.old)
        (λ source. changelog source root.now dialect given.now) result }
    ensures right { IfOk result (λ g. AreFor dialect g) }
    ensures short { IfOk result (λ g. All HasShortTexts g.sets) }
    ensures told { F.told files.new ≡ F.told files.old }
    ensures later { F.faults files.old ≤ F.faults files.new }
    ensures failed { IsErrOf result Read → Rose (F.faults files.old) (F.faults files.new) }
{
    let reader = Reader { dialect, sql };
    let mut gathered = Gathered::<P>::new(alloc);
    match walk(alloc, &reader, files, root, given, &mut gathered) {
        Ok(()) => Ok(gathered.into_changelog()),
        Err(fault) => Err(fault),
    }
}
