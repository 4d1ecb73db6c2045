ghost use Rattle.std.specs.Prelude.{◌≡◌, ◌≤◌, IfErr, IfOk, false};
ghost use Rattle.lq_tell.specs.declared.status.Status.TheVariants.{OutOfMemory};
ghost use Rattle.lq_commands.specs.Stamp.{ReadOnce, stamp_of};
ghost use Rattle.lq_turns.specs.Stops.{is_mark};

use crate::stamp::stamp_of;
use lq_base::NoMemory;
use lq_expr::Options;
use lq_kinds::Changelog;
use lq_outside::Clock;
use lq_shared::Shared;
use lq_tell::Status;
use lq_turns::Stamp;
use std::alloc::Global;

/// The one session of a command that runs alone.
pub const SESSION: u32 = 1;

/// What the words and the files give to a command: the changelog, without changesets for one that
/// reads none, and the options, whose dialect it was read for.
#[derive(Drop)]
pub struct Asked {
    pub changelog: Changelog,
    pub options: Options,
}

/// What a command works with beside the database: what it was given, and the stamp that its rows carry.
/// Several runs may have one changelog.
#[derive(Drop)]
pub struct Given {
    pub changelog: Shared<Changelog>,
    pub options: Options,
    pub stamp: Stamp,
}

impl Given {
    /// What the first run of a changelog works with.
    pub fn new(
        alloc: Global,
        changelog: Changelog,
        options: Options,
        stamp: Stamp,
    ) -> Result<Given, NoMemory>
        ensures changelog { IfOk result (λ given. given.changelog ≡ changelog) }
        ensures options { IfOk result (λ given. given.options ≡ options) }
        ensures stamp { IfOk result (λ given. given.stamp ≡ stamp) }
    {
        let changelog = Shared::new(alloc, changelog)?;
        Ok(Given {
            changelog,
            options,
            stamp,
        })
    }
}

/// Reads the clock once, in milliseconds since 1970, for a command whose database is loaded and whom
/// `who` runs. The only error is want of memory.
pub fn stamped<C: Clock>(
    alloc: Global,
    asked: Asked,
    who: &str,
    clock: &mut C,
) -> Result<Given, Status>
    ensures given { IfOk result
        (λ given. (given.changelog ≡ asked.changelog) × (given.options ≡ asked.options)) }
    ensures stamp { IfOk result (λ given. given.stamp ≡ stamp_of who.now (C.last clock.new)) }
    ensures moment { IfOk result (λ given. given.stamp.reading ≤ 253402300799999) }
    ensures name { IfOk result (λ given. is_mark given.stamp.who ≡ false) }
    ensures no_memory { IfErr result (λ status. status ≡ OutOfMemory) }
    ensures once { ReadOnce (C.to_come clock.old) (C.to_come clock.new) (C.last clock.new) }
{
    let reading = clock.now();
    let stamp = stamp_of(alloc, who, reading)?;
    let Asked { changelog, options } = asked;
    let given = Given::new(alloc, changelog, options, stamp)?;
    Ok(given)
}
